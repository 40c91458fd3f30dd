//! The rows of formulas.
ghost use Rattle.std.specs.Prelude.{◌≡◌, true};
ghost use Rattle.trio_syntax.specs.Forms.{sign, row, either, formula, disj, conj, unary, primary};
ghost use Rattle.trio_syntax.specs.Grammar.{before_sign, and_of, or_of, round, ref, bound, distant, paired, one_operation, far_operation, pair_operation, atom};
ghost use Rattle.trio_syntax.specs.Exact.{tokens_of, goes_on, apart, Exact};

use crate::parser::Parser;
use crate::refusal::Refusal;
use crate::steps::append;
use crate::tree::{FormulaTree, Mention, RefTree, TermTree};
use sqlite_items::Boxed;
use trio_base::{List, beside, followed};
use trio_text::{Reserved, Symbol};

/// The conjunction of the parts; one part is itself.
fn and_of(mut parts: List<FormulaTree>) -> FormulaTree
    ensures { result ≡ and_of parts }
{
    if parts.len() == 1
        && let Some(part) = parts.pop()
    {
        part
    } else {
        FormulaTree::And(parts)
    }
}

/// The disjunction of the parts; one part is itself.
fn or_of(mut parts: List<FormulaTree>) -> FormulaTree
    ensures { result ≡ or_of parts }
{
    if parts.len() == 1
        && let Some(part) = parts.pop()
    {
        part
    } else {
        FormulaTree::Or(parts)
    }
}

impl<'a> Parser<'a> {
    /// formula = disj [ ( -> or <-> ) disj ]
    #[cycle(formula)]
    pub fn formula(&mut self) -> Result<FormulaTree, Refusal>
        ensures { Exact (row formula) self.old self.new result }
    {
        let left = self.disj()?;
        let Some(both) = self.takes_arrow() else {
            return Ok(or_of(left));
        };
        let right = self.disj()?;
        let left = Boxed::new(self.alloc, or_of(left))?;
        let right = Boxed::new(self.alloc, or_of(right))?;
        if both {
            Ok(FormulaTree::Iff(left, right))
        } else {
            Ok(FormulaTree::Implies(left, right))
        }
    }

    /// disj = conj { | conj }
    #[cycle(formula)]
    fn disj(&mut self) -> Result<List<FormulaTree>, Refusal>
        ensures { Exact (row disj) self.old self.new result }
    {
        let first = self.conj()?;
        let mut parts = List::new(self.alloc);
        append(&mut parts, and_of(first))?;
        while self.takes_sign(Symbol::Or) {
            let next = self.conj()?;
            append(&mut parts, and_of(next))?;
        }
        Ok(parts)
    }

    /// conj = unary { & unary }
    #[cycle(formula)]
    fn conj(&mut self) -> Result<List<FormulaTree>, Refusal>
        ensures { Exact (row conj) self.old self.new result }
    {
        let first = self.unary()?;
        let mut parts = List::new(self.alloc);
        append(&mut parts, first)?;
        while self.takes_sign(Symbol::And) {
            let next = self.unary()?;
            append(&mut parts, next)?;
        }
        Ok(parts)
    }

    /// unary = [ ! ] primary
    #[cycle(formula)]
    fn unary(&mut self) -> Result<FormulaTree, Refusal>
        ensures { Exact (row unary) self.old self.new result }
    {
        if !self.takes_sign(Symbol::Not) {
            return self.primary();
        }
        let part = self.primary()?;
        let part = Boxed::new(self.alloc, part)?;
        Ok(FormulaTree::Not(part))
    }

    /// primary = ( formula ), or quantifier, or operator, or atom
    #[cycle(formula)]
    fn primary(&mut self) -> Result<FormulaTree, Refusal>
        ensures { Exact (row primary) self.old self.new result }
    {
        if self.takes_sign(Symbol::LeftRound) {
            return self.formula_until(Symbol::RightRound);
        }
        if let Some(quantifier) = self.takes_quantifier() {
            let (name, (range, part)) = self.bound()?;
            let part = Boxed::new(self.alloc, part)?;
            return Ok(FormulaTree::Quantified(quantifier, name, range, part));
        }
        self.operation()
    }

    /// An operator on one formula or with a distance, or what else is a primary.
    #[cycle(formula)]
    fn operation(&mut self) -> Result<FormulaTree, Refusal>
        ensures { Exact (either one_operation (either far_operation (either pair_operation atom))) self.old self.new result }
    {
        if let Some(op) = self.takes_one_operator() {
            let part = self.round()?;
            let part = Boxed::new(self.alloc, part)?;
            return Ok(FormulaTree::One(op, part));
        }
        if let Some(op) = self.takes_far_operator() {
            let (part, distance) = self.distant()?;
            let (distance, part) = beside(distance, Boxed::new(self.alloc, part))?;
            return Ok(FormulaTree::Far(op, part, distance));
        }
        self.pair_or_atom()
    }

    /// An operator on two formulas, or an atom.
    #[cycle(formula)]
    fn pair_or_atom(&mut self) -> Result<FormulaTree, Refusal>
        ensures { Exact (either pair_operation atom) self.old self.new result }
    {
        let Some(op) = self.takes_pair_operator() else {
            return self.atom();
        };
        let (left, right) = self.paired()?;
        let (right, left) = beside(right, Boxed::new(self.alloc, left))?;
        let (left, right) = beside(left, Boxed::new(self.alloc, right))?;
        Ok(FormulaTree::Pair(op, left, right))
    }

    /// ( formula )
    #[cycle(formula)]
    fn round(&mut self) -> Result<FormulaTree, Refusal>
        ensures { Exact (round (row formula)) self.old self.new result }
    {
        self.sign(Symbol::LeftRound)?;
        self.formula_until(Symbol::RightRound)
    }

    /// A formula, and a symbol behind it that goes on with none.
    #[cycle(formula)]
    pub fn formula_until(&mut self, close: Symbol) -> Result<FormulaTree, Refusal>
        requires { apart (goes_on formula) (tokens_of (sign close)) ≡ true }
        ensures { Exact (before_sign (row formula) close) self.old self.new result }
    {
        let inner = self.formula()?;
        followed(inner, self.sign(close))
    }

    /// The rest of a quantifier: name : ref ( formula )
    #[cycle(formula)]
    fn bound(&mut self) -> Result<(Mention, (RefTree, FormulaTree)), Refusal>
        ensures { Exact bound self.old self.new result }
    {
        let name = self.name()?;
        self.sign(Symbol::Colon)?;
        let range = self.reference()?;
        let part = self.round()?;
        Ok((name, (range, part)))
    }

    /// The rest of an operator with a distance: ( formula , term )
    #[cycle(formula)]
    fn distant(&mut self) -> Result<(FormulaTree, TermTree), Refusal>
        ensures { Exact distant self.old self.new result }
    {
        self.sign(Symbol::LeftRound)?;
        let part = self.formula_until(Symbol::Comma)?;
        beside(part, self.term_until(Symbol::RightRound))
    }

    /// The rest of an operator on two formulas: ( formula , formula )
    #[cycle(formula)]
    fn paired(&mut self) -> Result<(FormulaTree, FormulaTree), Refusal>
        ensures { Exact paired self.old self.new result }
    {
        self.sign(Symbol::LeftRound)?;
        let left = self.formula_until(Symbol::Comma)?;
        beside(left, self.formula_until(Symbol::RightRound))
    }

    /// atom = term [ rel term ]
    fn atom(&mut self) -> Result<FormulaTree, Refusal>
        ensures { Exact atom self.old self.new result }
    {
        let left = self.term()?;
        let place = self.at;
        let Some(relation) = self.takes_relation() else {
            return Ok(FormulaTree::Lone(left));
        };
        let right = self.term()?;
        Ok(FormulaTree::Compare(relation, place, left, right))
    }

    /// ref = bool, or name
    pub fn reference(&mut self) -> Result<RefTree, Refusal>
        ensures { Exact ref self.old self.new result }
    {
        if self.takes_word(Reserved::Bool) {
            return Ok(RefTree::Bool);
        }
        let name = self.name()?;
        Ok(RefTree::Named(name))
    }
}
