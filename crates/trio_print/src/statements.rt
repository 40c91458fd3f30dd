//! Printing statements, and the whole specification.
ghost use Rattle.std.specs.Prelude.{◌≡◌, ◌++◌, ◌∷◌, [], map, drop, OnOk, IfOk};
ghost use Rattle.std.specs.List.{flat_map};
ghost use Rattle.trio_types.specs.Verdict.{parts_of};
ghost use Rattle.trio_print.specs.Pieces.{pieces_text, blank};
ghost use Rattle.trio_print.specs.Canonical.{sign, word_, name_, integer, number_, ref_pieces, comma, joined_pieces, listed_pieces, ended, values_pieces, domain_text, item_text, at_text, claim_text, spec_pieces};
ghost use Rattle.trio_print.specs.Printing.{Prints, always};

use crate::printer::Printer;
use crate::words::{claim_word, item_word};
use std::alloc::{AllocError, Global};
use trio_text::{Reserved, Symbol};
use trio_types::{Axiom, Bytes, Domain, DomainKind, Item, List, Name, Spec};

/// The canonical text of a specification; only want of memory refuses it.
pub fn spec_text(alloc: Global, spec: &Spec) -> Result<Bytes, AllocError>
    ensures { IfOk result (λ text. text ≡ pieces_text (spec_pieces (parts_of spec.now))) }
{
    let mut printer = Printer {
        spec,
        names: Vec::new(alloc),
        text: String::new(alloc),
    };
    printer.specification()?;
    Ok(List::from_vec(printer.text.into_bytes()))
}

/// The domains behind the first.
fn other_domains(domains: &[Domain]) -> &[Domain]
    ensures { result.now ≡ drop 1 domains.now }
{
    match domains.split_first() {
        Some((_, others)) => others,
        None => domains,
    }
}

impl<'a> Printer<'a> {
    /// All statements, in the order time, domains, items, axioms, goals.
    fn specification(&mut self) -> Result<(), AllocError>
        requires { self.old.names.items ≡ [] }
        ensures { OnOk result (Prints (λ parts names. spec_pieces parts) self.old self.new) }
    {
        let spec = self.spec;
        self.time(spec.instants)?;
        self.domains(other_domains(spec.domains.as_slice()))?;
        self.items(spec.items.as_slice())?;
        self.claims(false, spec.axioms.as_slice())?;
        self.claims(true, spec.goals.as_slice())?;
        Ok(())
    }

    fn time(&mut self, instants: u32) -> Result<(), AllocError>
        ensures { OnOk result (Prints (always (ended (word_ Reserved.Time ++ blank ∷ number_ instants))) self.old self.new) }
    {
        self.word(Reserved::Time)?;
        self.blank()?;
        self.number(instants)?;
        self.sign(Symbol::Semi)?;
        self.line_end()?;
        Ok(())
    }

    fn domains(&mut self, domains: &[Domain]) -> Result<(), AllocError>
        ensures { OnOk result (Prints (λ parts names. flat_map domain_text domains.now) self.old self.new) }
    {
        for domain in domains {
            self.domain(domain)?;
        }
        Ok(())
    }

    fn domain(&mut self, domain: &Domain) -> Result<(), AllocError>
        ensures { OnOk result (Prints (always (domain_text domain.now)) self.old self.new) }
    {
        self.heading(Reserved::Domain, &domain.name)?;
        self.spaced(Symbol::Eq)?;
        self.values(&domain.kind)?;
        self.sign(Symbol::Semi)?;
        self.line_end()?;
        Ok(())
    }

    /// The word that a statement begins with, and the name that it declares.
    fn heading(&mut self, word: Reserved, name: &Name) -> Result<(), AllocError>
        ensures { OnOk result (Prints (always (word_ word ++ blank ∷ name_ name.now)) self.old self.new) }
    {
        self.word(word)?;
        self.blank()?;
        self.name(name.as_str())?;
        Ok(())
    }

    /// The values of a domain.
    fn values(&mut self, kind: &DomainKind) -> Result<(), AllocError>
        ensures { OnOk result (Prints (always (values_pieces kind.now)) self.old self.new) }
    {
        match kind {
            DomainKind::Bool => self.word(Reserved::Bool),
            DomainKind::Range(low, high) => self.range(*low, *high),
            DomainKind::Words(words) => self.listed_words(words.as_slice()),
        }
    }

    /// The numbers from the first to the second.
    fn range(&mut self, low: i64, high: i64) -> Result<(), AllocError>
        ensures { OnOk result (Prints (always (integer low ++ sign Symbol.Span ++ integer high)) self.old self.new) }
    {
        self.integer(low)?;
        self.sign(Symbol::Span)?;
        self.integer(high)?;
        Ok(())
    }

    /// Words in `{` and `}`.
    fn listed_words(&mut self, words: &[Name]) -> Result<(), AllocError>
        ensures { OnOk result (Prints (always (sign Symbol.LeftBrace ++ joined_pieces comma (map name_ words.now) ++ sign Symbol.RightBrace)) self.old self.new) }
    {
        self.sign(Symbol::LeftBrace)?;
        self.words(words)?;
        self.sign(Symbol::RightBrace)?;
        Ok(())
    }

    /// Words with commas between them.
    fn words(&mut self, words: &[Name]) -> Result<(), AllocError>
        ensures { OnOk result (Prints (λ parts names. joined_pieces comma (map name_ words.now)) self.old self.new) }
    {
        for (place, word) in words.iter().enumerate() {
            self.comma_before(place)?;
            self.name(word.as_str())?;
        }
        Ok(())
    }

    fn items(&mut self, items: &[Item]) -> Result<(), AllocError>
        ensures { OnOk result (Prints (λ parts names. flat_map (item_text parts) items.now) self.old self.new) }
    {
        for item in items {
            self.item(item)?;
        }
        Ok(())
    }

    fn item(&mut self, item: &Item) -> Result<(), AllocError>
        ensures { OnOk result (Prints (λ parts names. item_text parts item.now) self.old self.new) }
    {
        self.heading(item_word(item.input), &item.name)?;
        self.parameters(item.args.as_slice())?;
        self.spaced(Symbol::Colon)?;
        self.domain_ref(item.value)?;
        self.sign(Symbol::Semi)?;
        self.line_end()?;
        Ok(())
    }

    /// Nothing, or the domains of an item's arguments in `(` and `)`.
    fn parameters(&mut self, domains: &[u32]) -> Result<(), AllocError>
        ensures { OnOk result (Prints (λ parts names. listed_pieces (map (ref_pieces parts) domains.now)) self.old self.new) }
    {
        if domains.is_empty() {
            return Ok(());
        }
        self.sign(Symbol::LeftRound)?;
        self.domain_refs(domains)?;
        self.sign(Symbol::RightRound)?;
        Ok(())
    }

    /// What names these domains, with commas between.
    fn domain_refs(&mut self, domains: &[u32]) -> Result<(), AllocError>
        ensures { OnOk result (Prints (λ parts names. joined_pieces comma (map (ref_pieces parts) domains.now)) self.old self.new) }
    {
        for (place, domain) in domains.iter().enumerate() {
            self.comma_before(place)?;
            self.domain_ref(*domain)?;
        }
        Ok(())
    }

    /// Axioms, or goals.
    fn claims(&mut self, is_goal: bool, claims: &'a [Axiom]) -> Result<(), AllocError>
        requires { self.old.names.items ≡ [] }
        ensures { OnOk result (Prints (λ parts names. flat_map (claim_text parts is_goal) claims.now) self.old self.new) }
    {
        for claim in claims {
            self.claim(is_goal, claim)?;
        }
        Ok(())
    }

    fn claim(&mut self, is_goal: bool, claim: &'a Axiom) -> Result<(), AllocError>
        requires { self.old.names.items ≡ [] }
        ensures { OnOk result (Prints (λ parts names. claim_text parts is_goal claim.now) self.old self.new) }
    {
        self.heading(claim_word(is_goal), &claim.name)?;
        self.instant(claim.at)?;
        self.spaced(Symbol::Colon)?;
        self.formula(&claim.formula)?;
        self.sign(Symbol::Semi)?;
        self.line_end()?;
        Ok(())
    }

    /// Nothing, or ` at ` and the one instant.
    fn instant(&mut self, instant: Option<u32>) -> Result<(), AllocError>
        ensures { OnOk result (Prints (always (at_text instant)) self.old self.new) }
    {
        let Some(instant) = instant else {
            return Ok(());
        };
        self.blank()?;
        self.word(Reserved::At)?;
        self.blank()?;
        self.number(instant)?;
        Ok(())
    }
}
