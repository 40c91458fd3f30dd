//! Reads a line of a history from what its tokens say.
ghost use Rattle.std.specs.Prelude.{◌≡◌, ◌∷◌, ◌<◌, length, slice_get, drop, IfOk, Some};
ghost use Rattle.std.specs.Bool.{OnTrue, OnFalse};
ghost use Rattle.history_table.specs.Decoding.{value_front, entries_of, args_from, args_front, line_of, TookValue, TookArgs, TookEntry, Lacks};

use crate::line::{Line, Value};
use std::alloc::{AllocError, Global};
use trio_base::{List, Name};
use trio_text::{Lexeme, Reserved, Symbol};

/// What is left of a line.
#[derive(Drop)]
struct Cursor<'a> {
    rest: &'a [Lexeme],
}

/// The line that the lexemes are, where they are one; only want of memory refuses it.
pub fn line(alloc: Global, lexemes: &[Lexeme]) -> Result<Option<Line>, AllocError>
    ensures { IfOk result (λ line. line ≡ line_of lexemes.now) }
{
    let Some((Lexeme::Name(name), rest)) = lexemes.split_first() else {
        return Ok(None);
    };
    let name = name.copy(alloc)?;
    let mut cursor = Cursor { rest };
    let Some(args) = cursor.args(alloc)? else {
        return Ok(None);
    };
    if !cursor.takes(Symbol::Colon) {
        return Ok(None);
    }
    let Some(entries) = cursor.entries(alloc)? else {
        return Ok(None);
    };
    Ok(Some(Line {
        name,
        args,
        entries,
    }))
}

impl Cursor<'_> {
    /// Takes this symbol, where it stands in front.
    fn takes(&mut self, symbol: Symbol) -> bool
        ensures taken { OnTrue result (self.old.rest.now ≡ Lexeme.Sign symbol ∷ self.new.rest.now) }
        ensures left { OnFalse result ((self.new.rest.now ≡ self.old.rest.now) × Lacks (Lexeme.Sign symbol) self.old.rest.now) }
    {
        match self.rest.split_first() {
            Some((Lexeme::Sign(found), rest)) if *found == symbol => {
                self.rest = rest;
                true
            }
            _ => false,
        }
    }

    /// Takes the value that stands in front, where one does.
    fn value(&mut self, alloc: Global) -> Result<Option<Value>, AllocError>
        ensures { IfOk result (TookValue self.old.rest.now self.new.rest.now) }
    {
        let (value, count) = match self.rest {
            [Lexeme::Number(number), ..] => (Value::Number(*number), 1),
            [Lexeme::Sign(Symbol::Minus), Lexeme::Number(number), ..] => {
                (Value::Opposite(*number), 2)
            }
            [Lexeme::Word(Reserved::True), ..] => (Value::Truth(true), 1),
            [Lexeme::Word(Reserved::False), ..] => (Value::Truth(false), 1),
            [Lexeme::Name(name), ..] => (Value::Word(name.copy(alloc)?), 1),
            _ => return Ok(None),
        };
        self.rest = &self.rest[count..];
        Ok(Some(value))
    }

    /// Takes the arguments in front: none, or values in `(` and `)`.
    fn args(&mut self, alloc: Global) -> Result<Option<List<Value>>, AllocError>
        ensures { IfOk result (TookArgs (args_front self.old.rest.now) self.new.rest.now) }
    {
        if !self.takes(Symbol::LeftRound) {
            return Ok(Some(List::new(alloc)));
        }
        let mut found = Vec::new(alloc);
        loop {
            let Some(value) = self.value(alloc)? else {
                return Ok(None);
            };
            found.push(value)?;
            if self.takes(Symbol::RightRound) {
                return Ok(Some(List::from_vec(found)));
            }
            if !self.takes(Symbol::Comma) {
                return Ok(None);
            }
        }
    }

    /// Takes the entry that stands in front, where one does.
    fn entry(&mut self, alloc: Global) -> Result<Option<Option<Value>>, AllocError>
        requires { 0 < length self.old.rest.now }
        ensures { IfOk result (TookEntry self.old.rest.now self.new.rest.now) }
    {
        if self.takes(Symbol::Unknown) {
            return Ok(Some(None));
        }
        match self.value(alloc)? {
            Some(value) => Ok(Some(Some(value))),
            None => Ok(None),
        }
    }

    /// The entries that are left, where all that is left are entries.
    fn entries(&mut self, alloc: Global) -> Result<Option<List<Option<Value>>>, AllocError>
        ensures { IfOk result (λ entries. entries ≡ entries_of self.old.rest.now) }
    {
        let mut found = Vec::new(alloc);
        while !self.rest.is_empty() {
            let Some(entry) = self.entry(alloc)? else {
                return Ok(None);
            };
            found.push(entry)?;
        }
        Ok(Some(List::from_vec(found)))
    }
}
