//! The rows of terms.
ghost use Rattle.std.specs.Prelude.{◌≡◌, List, ◌∷◌, true};
ghost use Rattle.trio_syntax.specs.declared.tree.TermTree.{TermTree};
ghost use Rattle.trio_syntax.specs.declared.tree.PartTree.{PartTree};
ghost use Rattle.trio_syntax.specs.Forms.{sign, row, term, summand, factor, basic};
ghost use Rattle.trio_syntax.specs.Grammar.{before_sign, listed, arguments, sum, named};
ghost use Rattle.trio_syntax.specs.Exact.{tokens_of, goes_on, apart, Exact};

use crate::parser::Parser;
use crate::refusal::Refusal;
use crate::steps::append;
use crate::tree::{Mention, PartTree, TermShape, TermTree, Written};
use sqlite_items::Boxed;
use trio_base::{List, followed};
use trio_text::Symbol;

/// The sum of the parts; one part without a sign is itself.
fn sum(place: usize, minus: bool, mut parts: List<PartTree>) -> TermTree
    ensures { (t : TermTree) (more : List PartTree) → parts ≡ record { minus = minus; term = t } ∷ more → result ≡ sum place minus t more }
{
    if !minus
        && parts.len() == 1
        && let Some(part) = parts.pop()
    {
        return part.term;
    }
    TermTree {
        place,
        shape: TermShape::Sum(parts),
    }
}

/// A name alone, or with arguments.
fn named(place: usize, name: Mention, arguments: Option<List<TermTree>>) -> TermTree
    ensures { result ≡ named place name arguments }
{
    let shape = match arguments {
        None => TermShape::Named(name),
        Some(terms) => TermShape::Call(name, terms),
    };
    TermTree { place, shape }
}

/// A number alone.
fn number(place: usize, number: u32) -> TermTree
    ensures { result ≡ record { place = place; shape = TermShape.Number (record { number = number; place = place }) } }
{
    TermTree {
        place,
        shape: TermShape::Number(Written { number, place }),
    }
}

impl<'a> Parser<'a> {
    /// term = [ - ] summand { ( + or - ) summand }
    #[cycle(term)]
    pub fn term(&mut self) -> Result<TermTree, Refusal>
        ensures { Exact (row term) self.old self.new result }
    {
        let place = self.at;
        let minus = self.takes_sign(Symbol::Minus);
        let first = self.summand()?;
        let mut parts = List::new(self.alloc);
        append(&mut parts, PartTree { minus, term: first })?;
        while let Some(minus) = self.takes_adding() {
            let next = self.summand()?;
            append(&mut parts, PartTree { minus, term: next })?;
        }
        Ok(sum(place, minus, parts))
    }

    /// summand = number [ * factor ], or what else is a factor
    #[cycle(term)]
    fn summand(&mut self) -> Result<TermTree, Refusal>
        ensures { Exact (row summand) self.old self.new result }
    {
        let place = self.at;
        let Some(found) = self.takes_number() else {
            return self.basic();
        };
        if !self.takes_sign(Symbol::Times) {
            return Ok(number(place, found));
        }
        let factor = self.factor()?;
        let factor = Boxed::new(self.alloc, factor)?;
        let number = Written {
            number: found,
            place,
        };
        Ok(TermTree {
            place,
            shape: TermShape::Times(number, factor),
        })
    }

    /// factor = number, or what else is a factor
    #[cycle(term)]
    fn factor(&mut self) -> Result<TermTree, Refusal>
        ensures { Exact (row factor) self.old self.new result }
    {
        let place = self.at;
        match self.takes_number() {
            Some(found) => Ok(number(place, found)),
            None => self.basic(),
        }
    }

    /// What else is a factor: true, or false, or [ term ], or name, or name ( term { , term } )
    #[cycle(term)]
    fn basic(&mut self) -> Result<TermTree, Refusal>
        ensures { Exact (row basic) self.old self.new result }
    {
        let place = self.at;
        if let Some(truth) = self.takes_truth() {
            let shape = TermShape::Truth(truth);
            return Ok(TermTree { place, shape });
        }
        if self.takes_sign(Symbol::LeftSquare) {
            let inner = self.term_until(Symbol::RightSquare)?;
            let shape = inner.shape;
            return Ok(TermTree { place, shape });
        }
        let name = self.name()?;
        let arguments = self.arguments()?;
        Ok(named(place, name, arguments))
    }

    /// A term, and a symbol behind it that goes on with none.
    #[cycle(term)]
    pub fn term_until(&mut self, close: Symbol) -> Result<TermTree, Refusal>
        requires { apart (goes_on term) (tokens_of (sign close)) ≡ true }
        ensures { Exact (before_sign (row term) close) self.old self.new result }
    {
        let inner = self.term()?;
        followed(inner, self.sign(close))
    }

    /// [ ( term { , term } ) ]
    #[cycle(term)]
    fn arguments(&mut self) -> Result<Option<List<TermTree>>, Refusal>
        ensures { Exact arguments self.old self.new result }
    {
        if !self.takes_sign(Symbol::LeftRound) {
            return Ok(None);
        }
        let terms = self.terms()?;
        self.sign(Symbol::RightRound)?;
        Ok(Some(terms))
    }

    /// term { , term }
    #[cycle(term)]
    fn terms(&mut self) -> Result<List<TermTree>, Refusal>
        ensures { Exact (listed Symbol.Comma (row term)) self.old self.new result }
    {
        let first = self.term()?;
        let mut terms = List::new(self.alloc);
        append(&mut terms, first)?;
        while self.takes_sign(Symbol::Comma) {
            let next = self.term()?;
            append(&mut terms, next)?;
        }
        Ok(terms)
    }
}
