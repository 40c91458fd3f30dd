//! The names that a text declares, as statement after statement is read.

ghost use Rattle.std.specs.Prelude.{◌≡◌, ◌+◌, [], ◌∷◌, map, OnOk, IfOk};
ghost use Rattle.trio_syntax.specs.declared.tree.DeclarationTree.TheVariants.{Domain};
ghost use Rattle.trio_scope.specs.declared.meaning.Meaning.TheVariants.{Claim};
ghost use Rattle.trio_scope.specs.Names.{declaration, words_from, declared_words, declared_of};
ghost use Rattle.trio_scope.specs.Table.{HasDeclarations, AddsDeclarations, AddsStatements, declared_in};

use crate::meaning::{Declared, Meaning};
use crate::place::earlier;
use indexmap::IndexMap;
use std::alloc::{AllocError, Global};
use trio_syntax::{ClaimTree, DeclarationTree, DomainTree, Mention, ValuesTree};

/// The first declaration of each name, the first place of a name that was declared before, and how many domains and items there are.
#[derive(Drop)]
pub struct Names<'a> {
    pub first: IndexMap<&'a str, Declared>,
    pub repeated: Option<usize>,
    pub domains: u32,
    pub items: u32,
}

impl<'a> Names<'a> {
    /// No declaration yet; `bool` is a domain.
    pub fn new(alloc: Global) -> Names<'a>
        ensures { HasDeclarations result 1 0 [] }
    {
        Names {
            first: IndexMap::new(alloc),
            repeated: None,
            domains: 1,
            items: 0,
        }
    }

    /// The first declaration of a name.
    pub fn declared(&self, name: &str) -> Option<Declared>
        ensures { result ≡ declared_in self.now.first name.now }
    {
        self.first.get(name).copied()
    }

    /// Reads statements that declare domains and items; only want of memory, or more of them than are numbered, refuses them.
    pub fn statements(&mut self, statements: &'a [DeclarationTree]) -> Result<(), AllocError>
        ensures { OnOk result (AddsStatements self.old self.new statements.now) }
    {
        for statement in statements {
            self.statement(statement)?;
        }
        Ok(())
    }

    /// Reads the names of axioms and goals.
    pub fn claims(&mut self, claims: &'a [ClaimTree]) -> Result<(), AllocError>
        ensures { OnOk result (AddsDeclarations self.old self.new (map (λ c. declaration c.name Claim) claims.now)) }
    {
        for claim in claims {
            self.note(&claim.name, Meaning::Claim)?;
        }
        Ok(())
    }

    fn statement(&mut self, statement: &'a DeclarationTree) -> Result<(), AllocError>
        ensures { OnOk result (AddsStatements self.old self.new (statement.now ∷ [])) }
    {
        match statement {
            DeclarationTree::Domain(domain) => self.domain(domain),
            DeclarationTree::Item(item) => {
                self.note(&item.name, Meaning::Item(self.items))?;
                self.items = next(self.items)?;
                Ok(())
            }
        }
    }

    fn domain(&mut self, domain: &'a DomainTree) -> Result<(), AllocError>
        ensures { OnOk result (AddsStatements self.old self.new (Domain domain.now ∷ [])) }
    {
        self.note(&domain.name, Meaning::Domain(self.domains))?;
        self.values(self.domains, &domain.values)?;
        self.domains = next(self.domains)?;
        Ok(())
    }

    fn values(&mut self, domain: u32, values: &'a ValuesTree) -> Result<(), AllocError>
        ensures { OnOk result (AddsDeclarations self.old self.new (declared_words domain values.now)) }
    {
        match values {
            ValuesTree::Range(_, _) => Ok(()),
            ValuesTree::Words(words) => self.words(domain, words.as_slice()),
        }
    }

    fn words(&mut self, domain: u32, words: &'a [Mention]) -> Result<(), AllocError>
        ensures { OnOk result (AddsDeclarations self.old self.new (words_from domain 0 words.now)) }
    {
        let mut index = 0;
        for word in words {
            self.note(word, Meaning::Word(domain, index))?;
            index = next(index)?;
        }
        Ok(())
    }

    /// Declares a name at its token, and finds it repeated where it is declared already.
    fn note(&mut self, mention: &'a Mention, meaning: Meaning) -> Result<(), AllocError>
        ensures { OnOk result (AddsDeclarations self.old self.new (declaration mention.now meaning ∷ [])) }
    {
        let name = mention.name.as_str();
        if self.first.contains_key(name) {
            self.repeated = earlier(self.repeated, Some(mention.place));
            return Ok(());
        }
        let place = mention.place;
        match self.first.insert(name, Declared { place, meaning }) {
            Ok(_) => Ok(()),
            Err(_) => Err(AllocError),
        }
    }
}

/// The next number, where there is one.
fn next(number: u32) -> Result<u32, AllocError>
    ensures { IfOk result (λ next. next ≡ number + 1) }
{
    number.checked_add(1).ok_or(AllocError)
}
