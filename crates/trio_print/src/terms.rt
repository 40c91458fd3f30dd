//! Printing terms.
ghost use Rattle.std.specs.Prelude.{◌≡◌, ◌++◌, List, ℕ, [], map, if◌then◌else◌, slice_get, slice_index_or, OnOk};
ghost use Rattle.trio_types.specs.Parts.{Parts};
ghost use Rattle.trio_print.specs.Canonical.{Printed, constant, name_, listed_pieces, joined_pieces, comma, in_square, sum_text, text_of_term, term_plain};
ghost use Rattle.trio_print.specs.Printing.{Prints, always, part_sign, text_of_part};

use crate::printer::Printer;
use crate::words::{adding_sign, item_name, truth_word, variable_name, word_name};
use std::alloc::AllocError;
use trio_text::Symbol;
use trio_types::{SignedTerm, Term};

/// Whether a term stands in `[` and `]` where it is a part of a sum.
fn is_sum(term: &Term) -> bool
    ensures { (parts : Parts) (names : List (List ℕ)) → (text_of_term parts term.now).as_part names
        ≡ (if result then in_square (term_plain parts term.now names) else term_plain parts term.now names) }
{
    match term {
        Term::Number(_) => false,
        Term::Value(_, _) => false,
        Term::Var(_) => false,
        Term::Read(_, _) => false,
        Term::Sum(_) => true,
        Term::Times(_, _) => false,
    }
}

/// Whether a term stands in `[` and `]` where it is a factor.
fn is_compound(term: &Term) -> bool
    ensures { (parts : Parts) (names : List (List ℕ)) → (text_of_term parts term.now).as_factor names
        ≡ (if result then in_square (term_plain parts term.now names) else term_plain parts term.now names) }
{
    match term {
        Term::Number(_) => false,
        Term::Value(_, _) => false,
        Term::Var(_) => false,
        Term::Read(_, _) => false,
        Term::Sum(_) => true,
        Term::Times(_, _) => true,
    }
}

impl Printer<'_> {
    /// A term by itself.
    #[cycle(terms)]
    pub fn term(&mut self, term: &Term) -> Result<(), AllocError>
        ensures { OnOk result (Prints (λ parts. term_plain parts term.now) self.old self.new) }
    {
        match term {
            Term::Number(number) => self.number(*number),
            Term::Value(domain, index) => self.constant(*domain, *index),
            Term::Var(level) => self.variable(*level),
            Term::Read(item, arguments) => {
                self.name(item_name(self.spec, *item))?;
                self.arguments(arguments.as_slice())?;
                Ok(())
            }
            Term::Sum(parts) => self.sum(parts.as_slice()),
            Term::Times(number, factor) => {
                self.number(*number)?;
                self.spaced(Symbol::Times)?;
                self.factor(factor.get())?;
                Ok(())
            }
        }
    }

    /// `false`, `true` or a word.
    fn constant(&mut self, domain: u32, index: u32) -> Result<(), AllocError>
        ensures { OnOk result (Prints (λ parts names. constant parts domain index) self.old self.new) }
    {
        if domain == 0 {
            return self.word(truth_word(index == 1));
        }
        self.name(word_name(self.spec, domain, index))
    }

    fn variable(&mut self, level: u32) -> Result<(), AllocError>
        ensures { OnOk result (Prints (λ parts names. name_ (slice_index_or names level [])) self.old self.new) }
    {
        let name = variable_name(self.names.as_slice(), level);
        self.name(name)
    }

    /// Nothing, or arguments in `(` and `)`.
    #[cycle(terms)]
    fn arguments(&mut self, terms: &[Term]) -> Result<(), AllocError>
        ensures { OnOk result (Prints (λ parts names. listed_pieces (map (λ x. term_plain parts x names) terms.now)) self.old self.new) }
    {
        if terms.is_empty() {
            return Ok(());
        }
        self.sign(Symbol::LeftRound)?;
        self.terms(terms)?;
        self.sign(Symbol::RightRound)?;
        Ok(())
    }

    /// Terms with commas between them.
    #[cycle(terms)]
    fn terms(&mut self, terms: &[Term]) -> Result<(), AllocError>
        ensures { OnOk result (Prints (λ parts names. joined_pieces comma (map (λ x. term_plain parts x names) terms.now)) self.old self.new) }
    {
        for (place, term) in terms.iter().enumerate() {
            self.comma_before(place)?;
            self.term(term)?;
        }
        Ok(())
    }

    /// The parts of a sum, with their signs.
    #[cycle(terms)]
    fn sum(&mut self, parts: &[SignedTerm]) -> Result<(), AllocError>
        ensures { OnOk result (Prints (λ spec. sum_text (map (text_of_part spec) parts.now)) self.old self.new) }
    {
        for (place, part) in parts.iter().enumerate() {
            self.part_sign(place == 0, part.minus)?;
            self.part(&part.term)?;
        }
        Ok(())
    }

    /// What stands before a part of a sum.
    fn part_sign(&mut self, is_first: bool, minus: bool) -> Result<(), AllocError>
        ensures { OnOk result (Prints (always (part_sign is_first minus)) self.old self.new) }
    {
        if !is_first {
            return self.spaced(adding_sign(minus));
        }
        if minus {
            return self.sign(Symbol::Minus);
        }
        Ok(())
    }

    /// A part of a sum; a sum stands in `[` and `]`.
    #[cycle(terms)]
    fn part(&mut self, term: &Term) -> Result<(), AllocError>
        ensures { OnOk result (Prints (λ parts. (text_of_term parts term.now).as_part) self.old self.new) }
    {
        if is_sum(term) {
            return self.in_square(term);
        }
        self.term(term)
    }

    /// A factor; a sum and a product stand in `[` and `]`.
    #[cycle(terms)]
    fn factor(&mut self, term: &Term) -> Result<(), AllocError>
        ensures { OnOk result (Prints (λ parts. (text_of_term parts term.now).as_factor) self.old self.new) }
    {
        if is_compound(term) {
            return self.in_square(term);
        }
        self.term(term)
    }

    /// A term in `[` and `]`.
    #[cycle(terms)]
    fn in_square(&mut self, term: &Term) -> Result<(), AllocError>
        ensures { OnOk result (Prints (λ parts names. in_square (term_plain parts term.now names)) self.old self.new) }
    {
        self.sign(Symbol::LeftSquare)?;
        self.term(term)?;
        self.sign(Symbol::RightSquare)?;
        Ok(())
    }
}
