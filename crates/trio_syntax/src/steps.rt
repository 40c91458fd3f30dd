//! Steps of the parser by one token.
ghost use Rattle.std.specs.Prelude.{◌≡◌, ◌∷◌, ◌++◌, [], MatchResult};
ghost use Rattle.std.specs.Bool.{OnTrue, OnFalse};
ghost use Rattle.trio_syntax.specs.Forms.{sign, word, number, relation, adding, arrow, truth, quantifier, one_operator, far_operator, pair_operator, item_kind, claim_kind};
ghost use Rattle.trio_syntax.specs.Grammar.{a_sign, a_word, a_number, a_name};
ghost use Rattle.trio_syntax.specs.Exact.{spot, by_word, by_sign, tokens_of, Exact, Takes, Stays, FindsWord, FindsSign, Finds};

use crate::parser::Parser;
use crate::refusal::Refusal;
use crate::tree::{Mention, Quantifier, Written};
use crate::words::{
    ADDING_SIGNS, ARROW_SIGNS, CLAIM_WORDS, FAR_WORDS, ITEM_WORDS, ONE_WORDS, PAIR_WORDS,
    QUANTIFIER_WORDS, REL_SIGNS, TRUTH_WORDS,
};
use trio_base::{FarOp, List, OneOp, PairOp, Rel};
use trio_text::{Lexeme, Reserved, Symbol};

/// What a word stands for by a table.
fn by_word<T: Copy>(table: &[(Reserved, T)], word: Reserved) -> Option<T>
    ensures { result ≡ by_word table.now word }
{
    for line in table {
        if line.0.text() == word.text() {
            return Some(line.1);
        }
    }
    None
}

/// What a symbol stands for by a table.
fn by_sign<T: Copy>(table: &[(Symbol, T)], symbol: Symbol) -> Option<T>
    ensures { result ≡ by_sign table.now symbol }
{
    for line in table {
        if line.0.text() == symbol.text() {
            return Some(line.1);
        }
    }
    None
}

impl<'a> Parser<'a> {
    /// Takes the next token where it is a word of the table, and says what it stands for.
    fn takes_word_of<T: Copy>(&mut self, table: &[(Reserved, T)]) -> Option<T>
        ensures { FindsWord table.now self.old self.new result }
    {
        let (first, rest) = self.rest.split_first()?;
        let Lexeme::Word(found) = first else {
            return None;
        };
        let meaning = by_word(table, *found)?;
        self.rest = rest;
        self.at += 1;
        Some(meaning)
    }

    /// Takes the next token where it is a symbol of the table, and says what it stands for.
    fn takes_sign_of<T: Copy>(&mut self, table: &[(Symbol, T)]) -> Option<T>
        ensures { FindsSign table.now self.old self.new result }
    {
        let (first, rest) = self.rest.split_first()?;
        let Lexeme::Sign(found) = first else {
            return None;
        };
        let meaning = by_sign(table, *found)?;
        self.rest = rest;
        self.at += 1;
        Some(meaning)
    }

    /// Takes the next token where it is this symbol.
    pub fn takes_sign(&mut self, symbol: Symbol) -> bool
        ensures taken { OnTrue result (Takes (sign symbol) tt (spot self.old) (spot self.new)) }
        ensures left { OnFalse result (Stays (tokens_of (sign symbol)) (spot self.old) (spot self.new)) }
    {
        self.takes_sign_of(&[(symbol, ())]).is_some()
    }

    /// Takes the next token where it is this word.
    pub fn takes_word(&mut self, reserved: Reserved) -> bool
        ensures taken { OnTrue result (Takes (word reserved) tt (spot self.old) (spot self.new)) }
        ensures left { OnFalse result (Stays (tokens_of (word reserved)) (spot self.old) (spot self.new)) }
    {
        self.takes_word_of(&[(reserved, ())]).is_some()
    }

    /// Takes a relation.
    pub fn takes_relation(&mut self) -> Option<Rel>
        ensures { Finds relation self.old self.new result }
    {
        self.takes_sign_of(&REL_SIGNS)
    }

    /// Takes `+` or `-`, and says whether it was `-`.
    pub fn takes_adding(&mut self) -> Option<bool>
        ensures { Finds adding self.old self.new result }
    {
        self.takes_sign_of(&ADDING_SIGNS)
    }

    /// Takes an arrow, and says whether it goes both ways.
    pub fn takes_arrow(&mut self) -> Option<bool>
        ensures { Finds arrow self.old self.new result }
    {
        self.takes_sign_of(&ARROW_SIGNS)
    }

    /// Takes `true` or `false`.
    pub fn takes_truth(&mut self) -> Option<bool>
        ensures { Finds truth self.old self.new result }
    {
        self.takes_word_of(&TRUTH_WORDS)
    }

    /// Takes `all` or `ex`.
    pub fn takes_quantifier(&mut self) -> Option<Quantifier>
        ensures { Finds quantifier self.old self.new result }
    {
        self.takes_word_of(&QUANTIFIER_WORDS)
    }

    /// Takes an operator on one formula.
    pub fn takes_one_operator(&mut self) -> Option<OneOp>
        ensures { Finds one_operator self.old self.new result }
    {
        self.takes_word_of(&ONE_WORDS)
    }

    /// Takes an operator with a distance.
    pub fn takes_far_operator(&mut self) -> Option<FarOp>
        ensures { Finds far_operator self.old self.new result }
    {
        self.takes_word_of(&FAR_WORDS)
    }

    /// Takes an operator on two formulas.
    pub fn takes_pair_operator(&mut self) -> Option<PairOp>
        ensures { Finds pair_operator self.old self.new result }
    {
        self.takes_word_of(&PAIR_WORDS)
    }

    /// Takes `item` or `input`, and says whether it was `input`.
    pub fn takes_item_kind(&mut self) -> Option<bool>
        ensures { Finds item_kind self.old self.new result }
    {
        self.takes_word_of(&ITEM_WORDS)
    }

    /// Takes `axiom` or `goal`, and says whether it was `goal`.
    pub fn takes_claim_kind(&mut self) -> Option<bool>
        ensures { Finds claim_kind self.old self.new result }
    {
        self.takes_word_of(&CLAIM_WORDS)
    }

    /// Takes the next token where it is a number.
    pub fn takes_number(&mut self) -> Option<u32>
        ensures { Finds number self.old self.new result }
    {
        let (first, rest) = self.rest.split_first()?;
        let Lexeme::Number(found) = first else {
            return None;
        };
        self.rest = rest;
        self.at += 1;
        Some(*found)
    }

    /// Takes the next token, which has to be this symbol.
    pub fn sign(&mut self, symbol: Symbol) -> Result<(), Refusal>
        ensures { Exact (a_sign symbol) self.old self.new result }
    {
        if self.takes_sign(symbol) {
            Ok(())
        } else {
            Err(Refusal::Syntax)
        }
    }

    /// Takes the next token, which has to be this word.
    pub fn word(&mut self, reserved: Reserved) -> Result<(), Refusal>
        ensures { Exact (a_word reserved) self.old self.new result }
    {
        if self.takes_word(reserved) {
            Ok(())
        } else {
            Err(Refusal::Syntax)
        }
    }

    /// Takes the next token, which has to be a number.
    pub fn number(&mut self) -> Result<Written, Refusal>
        ensures { Exact a_number self.old self.new result }
    {
        let place = self.at;
        match self.takes_number() {
            Some(number) => Ok(Written { number, place }),
            None => Err(Refusal::Syntax),
        }
    }

    /// Takes a copy of the next token's name; it has to be a name.
    pub fn name(&mut self) -> Result<Mention, Refusal>
        ensures { Exact a_name self.old self.new result }
    {
        let Some((first, rest)) = self.rest.split_first() else {
            return Err(Refusal::Syntax);
        };
        let Lexeme::Name(found) = first else {
            return Err(Refusal::Syntax);
        };
        let name = found.copy(self.alloc)?;
        let place = self.at;
        self.rest = rest;
        self.at += 1;
        Ok(Mention { name, place })
    }
}

/// Appends a part; only want of memory refuses it.
pub fn append<T: Drop>(list: &mut List<T>, value: T) -> Result<(), Refusal>
    ensures { MatchResult result (λ _. list.new ≡ list.old ++ value ∷ []) (λ e. e ≡ Refusal.Memory) }
{
    match list.push(value) {
        Ok(()) => Ok(()),
        Err(_) => Err(Refusal::Memory),
    }
}
