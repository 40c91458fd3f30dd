//! Printing formulas.
ghost use Rattle.std.specs.Prelude.{◌≡◌, ◌++◌, ◌∷◌, [], List, ℕ, map, if◌then◌else◌, slice_get, OnOk};
ghost use Rattle.trio_types.specs.Parts.{Parts};
ghost use Rattle.trio_syntax.specs.Words.{rel_sign, far_word};
ghost use Rattle.trio_print.specs.Canonical.{word_, sign, ref_pieces, spaced, comma, joined_pieces, in_round, term_plain, text_of_formula, quantified_text};
ghost use Rattle.trio_print.specs.Printing.{Prints};

use crate::printer::Printer;
use crate::words::{domain_name, far_word, one_word, pair_word, rel_sign};
use std::alloc::AllocError;
use trio_text::{Reserved, Symbol};
use trio_types::{FarOp, Formula, Name, Rel, Term};

/// Whether a formula stands in `(` and `)` where it is a group.
fn is_compound(formula: &Formula) -> bool
    ensures { (parts : Parts) (names : List (List ℕ)) → (text_of_formula parts formula.now).grouped names
        ≡ (if result then in_round ((text_of_formula parts formula.now).plain names) else (text_of_formula parts formula.now).plain names) }
{
    match formula {
        Formula::Lone(_) => false,
        Formula::Compare(_, _, _) => true,
        Formula::Not(_) => true,
        Formula::And(_) => true,
        Formula::Or(_) => true,
        Formula::Implies(_, _) => true,
        Formula::Iff(_, _) => true,
        Formula::All(_, _, _) => false,
        Formula::Ex(_, _, _) => false,
        Formula::One(_, _) => false,
        Formula::Far(_, _, _) => false,
        Formula::Pair(_, _, _) => false,
    }
}

impl<'a> Printer<'a> {
    /// A formula by itself.
    #[cycle(formulas)]
    pub fn formula(&mut self, formula: &'a Formula) -> Result<(), AllocError>
        ensures { OnOk result (Prints (λ parts. (text_of_formula parts formula.now).plain) self.old self.new) }
    {
        match formula {
            Formula::Lone(term) => self.term(term),
            Formula::Compare(rel, left, right) => self.comparison(*rel, left, right),
            Formula::Not(part) => self.negation(part.get()),
            Formula::And(parts) => self.groups(Symbol::And, parts.as_slice()),
            Formula::Or(parts) => self.groups(Symbol::Or, parts.as_slice()),
            Formula::Implies(left, right) => {
                self.group(left.get())?;
                self.spaced(Symbol::Arrow)?;
                self.group(right.get())
            }
            Formula::Iff(left, right) => {
                self.group(left.get())?;
                self.spaced(Symbol::Both)?;
                self.group(right.get())
            }
            Formula::All(name, domain, body) => {
                self.quantified(Reserved::All, name, *domain, body.get())
            }
            Formula::Ex(name, domain, body) => {
                self.quantified(Reserved::Ex, name, *domain, body.get())
            }
            Formula::One(op, part) => self.operator(one_word(*op), part.get()),
            Formula::Far(op, part, distance) => self.distant(*op, part.get(), distance),
            Formula::Pair(op, first, second) => {
                self.opened(pair_word(*op), first.get())?;
                self.comma()?;
                self.closed(second.get())
            }
        }
    }

    fn comparison(&mut self, rel: Rel, left: &Term, right: &Term) -> Result<(), AllocError>
        ensures { OnOk result (Prints (λ parts names. term_plain parts left.now names ++ spaced (rel_sign rel) ++ term_plain parts right.now names) self.old self.new) }
    {
        self.term(left)?;
        self.spaced(rel_sign(rel))?;
        self.term(right)?;
        Ok(())
    }

    #[cycle(formulas)]
    fn negation(&mut self, part: &'a Formula) -> Result<(), AllocError>
        ensures { OnOk result (Prints (λ parts names. sign Symbol.Not ++ (text_of_formula parts part.now).grouped names) self.old self.new) }
    {
        self.sign(Symbol::Not)?;
        self.group(part)?;
        Ok(())
    }

    /// A formula as a group.
    #[cycle(formulas)]
    fn group(&mut self, formula: &'a Formula) -> Result<(), AllocError>
        ensures { OnOk result (Prints (λ parts. (text_of_formula parts formula.now).grouped) self.old self.new) }
    {
        if !is_compound(formula) {
            return self.formula(formula);
        }
        self.sign(Symbol::LeftRound)?;
        self.closed(formula)?;
        Ok(())
    }

    /// Groups with this symbol between them.
    #[cycle(formulas)]
    fn groups(&mut self, symbol: Symbol, formulas: &'a [Formula]) -> Result<(), AllocError>
        ensures { OnOk result (Prints (λ parts names. joined_pieces (spaced symbol) (map (λ f. (text_of_formula parts f).grouped names) formulas.now)) self.old self.new) }
    {
        for (place, formula) in formulas.iter().enumerate() {
            self.spaced_before(place, symbol)?;
            self.group(formula)?;
        }
        Ok(())
    }

    /// A quantifier with its body.
    #[cycle(formulas)]
    fn quantified(
        &mut self,
        word: Reserved,
        name: &'a Name,
        domain: u32,
        body: &'a Formula,
    ) -> Result<(), AllocError>
        ensures { OnOk result (Prints (λ parts. quantified_text parts word name.now domain (text_of_formula parts body.now)) self.old self.new) }
    {
        self.word(word)?;
        self.blank()?;
        self.name(name.as_str())?;
        self.spaced(Symbol::Colon)?;
        self.domain_ref(domain)?;
        self.blank()?;
        self.sign(Symbol::LeftRound)?;
        self.body(name, body)?;
        self.sign(Symbol::RightRound)?;
        Ok(())
    }

    /// The body of a quantifier, with its variable in scope.
    #[cycle(formulas)]
    fn body(&mut self, name: &'a Name, body: &'a Formula) -> Result<(), AllocError>
        ensures { OnOk result (Prints (λ parts names. (text_of_formula parts body.now).plain (names ++ name.now ∷ [])) self.old self.new) }
    {
        self.names.push(name)?;
        self.formula(body)?;
        self.names.pop();
        Ok(())
    }

    /// `bool`, or the name of the domain of this number.
    pub fn domain_ref(&mut self, domain: u32) -> Result<(), AllocError>
        ensures { OnOk result (Prints (λ parts names. ref_pieces parts domain) self.old self.new) }
    {
        if domain == 0 {
            return self.word(Reserved::Bool);
        }
        self.name(domain_name(self.spec, domain))
    }

    /// An operator on one formula.
    #[cycle(formulas)]
    fn operator(&mut self, word: Reserved, part: &'a Formula) -> Result<(), AllocError>
        ensures { OnOk result (Prints (λ parts names. word_ word ++ in_round ((text_of_formula parts part.now).plain names)) self.old self.new) }
    {
        self.opened(word, part)?;
        self.sign(Symbol::RightRound)?;
        Ok(())
    }

    /// An operator on a formula and a distance.
    #[cycle(formulas)]
    fn distant(&mut self, op: FarOp, part: &'a Formula, distance: &Term) -> Result<(), AllocError>
        ensures { OnOk result (Prints (λ parts names. word_ (far_word op) ++ in_round ((text_of_formula parts part.now).plain names ++ comma ++ term_plain parts distance.now names)) self.old self.new) }
    {
        self.opened(far_word(op), part)?;
        self.comma()?;
        self.term(distance)?;
        self.sign(Symbol::RightRound)?;
        Ok(())
    }

    /// An operator's word, `(` and a formula.
    #[cycle(formulas)]
    fn opened(&mut self, word: Reserved, part: &'a Formula) -> Result<(), AllocError>
        ensures { OnOk result (Prints (λ parts names. word_ word ++ sign Symbol.LeftRound ++ (text_of_formula parts part.now).plain names) self.old self.new) }
    {
        self.word(word)?;
        self.sign(Symbol::LeftRound)?;
        self.formula(part)?;
        Ok(())
    }

    /// A formula and `)`.
    #[cycle(formulas)]
    fn closed(&mut self, part: &'a Formula) -> Result<(), AllocError>
        ensures { OnOk result (Prints (λ parts names. (text_of_formula parts part.now).plain names ++ sign Symbol.RightRound) self.old self.new) }
    {
        self.formula(part)?;
        self.sign(Symbol::RightRound)?;
        Ok(())
    }
}
