//! Domains and items from the statements of a tree.

ghost use Rattle.std.specs.Prelude.{◌≡◌, [], ◌∷◌, ◌++◌, map, pos, ◌≤ℤ◌, IfOk, OnOk};
ghost use Rattle.trio_scope.specs.Names.{domains_in, items_in};
ghost use Rattle.trio_reader.specs.Erasure.{bool_domain, domain_from, item_from};
ghost use Rattle.trio_reader.specs.Erasure as spec;

use crate::sense::domain_of;
use std::alloc::{AllocError, Global};
use trio_scope::Scope;
use trio_syntax::{DeclarationTree, DomainTree, IntTree, ItemTree, Mention, RefTree, ValuesTree};
use trio_types::{Domain, DomainKind, Domains, Ids, Item, Items, List, Name, Names};

/// `bool`, and the domains that statements declare; only want of memory refuses them.
pub fn domains_of(alloc: Global, statements: &[DeclarationTree]) -> Result<Domains, AllocError>
    ensures { IfOk result (λ made. made ≡ bool_domain ∷ map domain_from (domains_in statements.now)) }
{
    let mut made = Vec::new(alloc);
    made.push(Domain {
        name: Name::new(alloc, "bool")?,
        kind: DomainKind::Bool,
    })?;
    for statement in statements {
        add_domain(alloc, &mut made, statement)?;
    }
    Ok(List::from_vec(made))
}

fn add_domain(
    alloc: Global,
    made: &mut Vec<Domain>,
    statement: &DeclarationTree,
) -> Result<(), AllocError>
    ensures { OnOk result (made.new.items ≡ made.old.items ++ map domain_from (domains_in (statement.now ∷ []))) }
{
    match statement {
        DeclarationTree::Domain(domain) => {
            made.push(domain_from(alloc, domain)?)?;
            Ok(())
        }
        DeclarationTree::Item(_) => Ok(()),
    }
}

fn domain_from(alloc: Global, domain: &DomainTree) -> Result<Domain, AllocError>
    ensures { IfOk result (λ made. made ≡ spec.domain_from domain.now) }
{
    Ok(Domain {
        name: domain.name.name.copy(alloc)?,
        kind: values_kind(alloc, &domain.values)?,
    })
}

fn values_kind(alloc: Global, values: &ValuesTree) -> Result<DomainKind, AllocError>
    ensures { IfOk result (λ made. made ≡ spec.values_kind values.now) }
{
    match values {
        ValuesTree::Range(low, high) => Ok(DomainKind::Range(integer_of(low), integer_of(high))),
        ValuesTree::Words(words) => Ok(DomainKind::Words(names_of(alloc, words.as_slice())?)),
    }
}

/// The number that an integer is.
pub fn integer_of(integer: &IntTree) -> i64
    ensures is { result ≡ spec.integer_of integer.now }
    ensures high { result ≤ℤ pos 4294967295 }
{
    let number = i64::from(integer.number.number);
    if integer.minus { -number } else { number }
}

fn names_of(alloc: Global, mentions: &[Mention]) -> Result<Names, AllocError>
    ensures { IfOk result (λ made. made ≡ map (λ m. m.name) mentions.now) }
{
    let mut made = Vec::new(alloc);
    for mention in mentions {
        made.push(mention.name.copy(alloc)?)?;
    }
    Ok(List::from_vec(made))
}

/// The items that statements declare; only want of memory refuses them.
pub fn items_of(
    alloc: Global,
    scope: &Scope<'_>,
    statements: &[DeclarationTree],
) -> Result<Items, AllocError>
    ensures { IfOk result (λ made. made ≡ map (item_from scope.now.tree.now) (items_in statements.now)) }
{
    let mut made = Vec::new(alloc);
    for statement in statements {
        add_item(alloc, scope, &mut made, statement)?;
    }
    Ok(List::from_vec(made))
}

fn add_item(
    alloc: Global,
    scope: &Scope<'_>,
    made: &mut Vec<Item>,
    statement: &DeclarationTree,
) -> Result<(), AllocError>
    ensures { OnOk result (made.new.items ≡ made.old.items ++ map (item_from scope.now.tree.now) (items_in (statement.now ∷ []))) }
{
    match statement {
        DeclarationTree::Domain(_) => Ok(()),
        DeclarationTree::Item(item) => {
            made.push(item_from(alloc, scope, item)?)?;
            Ok(())
        }
    }
}

fn item_from(alloc: Global, scope: &Scope<'_>, item: &ItemTree) -> Result<Item, AllocError>
    ensures { IfOk result (λ made. made ≡ spec.item_from scope.now.tree.now item.now) }
{
    Ok(Item {
        name: item.name.name.copy(alloc)?,
        input: item.input,
        args: numbers_of(alloc, scope, item.args.as_slice())?,
        value: domain_of(scope, &item.value),
    })
}

fn numbers_of(alloc: Global, scope: &Scope<'_>, domains: &[RefTree]) -> Result<Ids, AllocError>
    ensures { IfOk result (λ made. made ≡ map (spec.domain_of scope.now.tree.now) domains.now) }
{
    let mut made = Vec::new(alloc);
    for domain in domains {
        made.push(domain_of(scope, domain))?;
    }
    Ok(List::from_vec(made))
}
