//! Terms and domains of a wrong kind.

ghost use Rattle.std.specs.Prelude.{◌≡◌, [], map, zip, nat_lt, if◌then◌else◌, IfOk};
ghost use Rattle.std.specs.List.{flat_map};
ghost use Rattle.trio_syntax.specs.declared.tree.TermShape.{out-TermShape};
ghost use Rattle.trio_types.specs.Kinds.{kind_of_term, is_right};
ghost use Rattle.trio_types.specs.Kinds as types;
ghost use Rattle.trio_scope.specs.Places.{least};
ghost use Rattle.trio_scope.specs.Gather.{variables_from};
ghost use Rattle.trio_scope.specs.Scope.{refs_of};
ghost use Rattle.trio_reader.specs.TermKinds.{seen};
ghost use Rattle.trio_reader.specs.declared.sense.Sense.TheVariants as sense;
ghost use Rattle.trio_reader.specs.Erasure.{world_of_tree, domains_of, sense_term};
ghost use Rattle.trio_reader.specs.Kinds.{wrong_places, role_uses, argument_use, item_use, read_uses, name_uses, shape_uses, ref_uses, kind_finding, kind_places};
ghost use Rattle.trio_reader.specs.Kinds as spec;

use crate::kind::TermKind;
use crate::lookup::element;
use crate::sense::{Sense, domain_of, sense_of};
use crate::world::World;
use std::alloc::{AllocError, Global};
use trio_base::Rel;
use trio_scope::{Binder, Role, Rule, earlier, first_in_claims, unless};
use trio_syntax::{DeclarationTree, Mention, RefTree, TermShape, TermTree};
use trio_types::DomainKind;

/// The first token at which a use is of a wrong kind; only want of memory refuses it.
pub fn first_wrong_kind(alloc: Global, world: &World<'_>) -> Result<Option<usize>, AllocError>
    ensures { IfOk result (λ first. first ≡ least (kind_places world.now.scope.now.tree.now)) }
{
    let in_claims = first_in_claims(alloc, &Kinds { world }, world.scope.tree)?;
    Ok(earlier(first_in_statements(world), in_claims))
}

fn first_in_statements(world: &World<'_>) -> Option<usize>
    ensures { result ≡ least (flat_map (λ s. flat_map (λ r. wrong_places (ref_uses world.now.scope.now.tree.now r)) (refs_of s)) world.now.scope.now.tree.now.declarations) }
{
    let mut first = None;
    for statement in world.scope.tree.declarations.as_slice() {
        first = earlier(first, first_in_statement(world, statement));
    }
    first
}

fn first_in_statement(world: &World<'_>, statement: &DeclarationTree) -> Option<usize>
    ensures { result ≡ least (flat_map (λ r. wrong_places (ref_uses world.now.scope.now.tree.now r)) (refs_of statement.now)) }
{
    match statement {
        DeclarationTree::Domain(_) => None,
        DeclarationTree::Item(item) => {
            let arguments = first_in_refs(world, item.args.as_slice());
            earlier(arguments, first_in_ref(world, &item.value))
        }
    }
}

fn first_in_refs(world: &World<'_>, refs: &[RefTree]) -> Option<usize>
    ensures { result ≡ least (flat_map (λ r. wrong_places (ref_uses world.now.scope.now.tree.now r)) refs.now) }
{
    let mut first = None;
    for domain in refs {
        first = earlier(first, first_in_ref(world, domain));
    }
    first
}

/// What names a domain is the name of one.
fn first_in_ref(world: &World<'_>, domain: &RefTree) -> Option<usize>
    ensures { result ≡ least (wrong_places (ref_uses world.now.scope.now.tree.now domain.now)) }
{
    match domain {
        RefTree::Bool => None,
        RefTree::Named(mention) => {
            let number = domain_of(world.scope, domain);
            unless(kind_in(world, number).is_kind(), mention.place)
        }
    }
}

/// The kind of the values of the domain of this number.
fn kind_in(world: &World<'_>, domain: u32) -> TermKind
    ensures { seen result ≡ types.kind_in (world_of_tree world.now.scope.now.tree.now) domain }
{
    match element(world.domains.as_slice(), domain as usize) {
        None => TermKind::Unkinded,
        Some(found) => match &found.kind {
            DomainKind::Bool => TermKind::Truth,
            DomainKind::Range(_, _) => TermKind::Number,
            DomainKind::Words(_) => TermKind::Word(domain),
        },
    }
}

/// The kind of the values of the item of this number.
fn kind_of_item(world: &World<'_>, item: u32) -> TermKind
    ensures { seen result ≡ kind_of_term (world_of_tree world.now.scope.now.tree.now) [] (sense_term (sense.Item item)) }
{
    match element(world.items.as_slice(), item as usize) {
        None => TermKind::Unkinded,
        Some(found) => kind_in(world, found.value),
    }
}

/// The kind of a word.
fn kind_of_word(world: &World<'_>, domain: u32, index: u32) -> TermKind
    ensures { seen result ≡ types.kind_of_constant (world_of_tree world.now.scope.now.tree.now) domain index }
{
    match element(world.domains.as_slice(), domain as usize) {
        None => TermKind::Unkinded,
        Some(found) => match &found.kind {
            DomainKind::Bool => kind_below(index, 2, TermKind::Truth),
            DomainKind::Range(_, _) => TermKind::Unkinded,
            DomainKind::Words(words) => kind_below(index, words.len(), TermKind::Word(domain)),
        },
    }
}

/// The kind of a value whose index is below the number of values.
fn kind_below(index: u32, size: usize, kind: TermKind) -> TermKind
    ensures { result ≡ (if nat_lt index size then kind else TermKind.Unkinded) }
{
    if (index as usize) < size {
        kind
    } else {
        TermKind::Unkinded
    }
}

/// The kind of a variable.
fn kind_of_variable(world: &World<'_>, around: &[Binder<'_>], level: usize) -> TermKind
    ensures { seen result ≡ kind_of_term (world_of_tree world.now.scope.now.tree.now) (domains_of world.now.scope.now.tree.now (variables_from around.now)) (sense_term (sense.Variable level)) }
{
    match element(around, level) {
        None => TermKind::Unkinded,
        Some(binder) => kind_in(world, domain_of(world.scope, binder.domain)),
    }
}

/// The kind of what a name stands for.
fn kind_of_sense(world: &World<'_>, around: &[Binder<'_>], sense: Sense) -> TermKind
    ensures { seen result ≡ kind_of_term (world_of_tree world.now.scope.now.tree.now) (domains_of world.now.scope.now.tree.now (variables_from around.now)) (sense_term sense) }
{
    match sense {
        Sense::Variable(level) => kind_of_variable(world, around, level),
        Sense::Word(domain, index) => kind_of_word(world, domain, index),
        Sense::Item(item) => kind_of_item(world, item),
    }
}

/// The kind of a term.
fn kind_of(world: &World<'_>, around: &[Binder<'_>], term: &TermTree) -> TermKind
    ensures { seen result ≡ spec.kind_of world.now.scope.now.tree.now (variables_from around.now) term.now }
{
    match &term.shape {
        TermShape::Number(_) => TermKind::Number,
        TermShape::Truth(_) => TermKind::Truth,
        TermShape::Named(mention) => {
            kind_of_sense(world, around, sense_of(world.scope, around, &mention.name))
        }
        TermShape::Call(mention, _) => {
            let sense = sense_of(world.scope, around, &mention.name);
            kind_of_item(world, sense.item(world.scope.items()))
        }
        TermShape::Sum(_) => TermKind::Number,
        TermShape::Times(_, _) => TermKind::Number,
    }
}

/// Whether a read of the item of this number with this many arguments is right, inside of a distance or an argument or not.
fn is_right_read(world: &World<'_>, inside: bool, item: u32, given: usize) -> bool
    ensures { result ≡ is_right (item_use world.now.scope.now.tree.now inside item given) }
{
    match element(world.items.as_slice(), item as usize) {
        None => false,
        Some(found) => !inside && found.args.len() == given,
    }
}

/// Each name in a term has a kind, and a read stands neither in a distance nor in an argument.
fn first_in_name(
    world: &World<'_>,
    around: &[Binder<'_>],
    inside: bool,
    mention: &Mention,
) -> Option<usize>
    ensures { result ≡ least (wrong_places (name_uses world.now.scope.now.tree.now (variables_from around.now) inside mention.now)) }
{
    match sense_of(world.scope, around, &mention.name) {
        Sense::Variable(level) => unless(
            kind_of_variable(world, around, level).is_kind(),
            mention.place,
        ),
        Sense::Word(domain, index) => {
            unless(kind_of_word(world, domain, index).is_kind(), mention.place)
        }
        Sense::Item(item) => unless(is_right_read(world, inside, item, 0), mention.place),
    }
}

/// A read has the arguments that its item declares.
fn first_in_read(
    world: &World<'_>,
    around: &[Binder<'_>],
    inside: bool,
    place: usize,
    item: u32,
    arguments: &[TermTree],
) -> Option<usize>
    ensures { result ≡ least (wrong_places (read_uses world.now.scope.now.tree.now (variables_from around.now) inside place item arguments.now)) }
{
    let own = unless(is_right_read(world, inside, item, arguments.len()), place);
    match element(world.items.as_slice(), item as usize) {
        None => own,
        Some(found) => earlier(
            own,
            first_in_arguments(world, around, found.args.as_slice(), arguments),
        ),
    }
}

fn first_in_arguments(
    world: &World<'_>,
    around: &[Binder<'_>],
    domains: &[u32],
    arguments: &[TermTree],
) -> Option<usize>
    ensures { result ≡ least (wrong_places (map (argument_use world.now.scope.now.tree.now (variables_from around.now)) (zip domains.now arguments.now))) }
{
    let mut first = None;
    for (domain, argument) in domains.iter().zip(arguments) {
        let suits = kind_of(world, around, argument).suits(kind_in(world, *domain));
        first = earlier(first, unless(suits, argument.place));
    }
    first
}

/// What the role of a term asks of its kind.
fn first_in_role(role: Role, place: usize, kind: TermKind) -> Option<usize>
    ensures { result ≡ least (wrong_places (role_uses role place (seen kind))) }
{
    match role {
        Role::Alone => unless(kind.may_stand_alone(), place),
        Role::Distance => unless(kind.may_be_number(), place),
        Role::Part => unless(kind.may_be_number(), place),
        Role::Factor => unless(kind.may_be_number(), place),
        Role::Compared => None,
        Role::Argument => None,
    }
}

fn first_in_shape(
    world: &World<'_>,
    around: &[Binder<'_>],
    inside: bool,
    shape: &TermShape,
) -> Option<usize>
    ensures { result ≡ least (wrong_places (shape_uses world.now.scope.now.tree.now (variables_from around.now) inside (out-TermShape shape.now))) }
{
    match shape {
        TermShape::Named(mention) => first_in_name(world, around, inside, mention),
        TermShape::Call(mention, arguments) => {
            let sense = sense_of(world.scope, around, &mention.name);
            let item = sense.item(world.scope.items());
            first_in_read(
                world,
                around,
                inside,
                mention.place,
                item,
                arguments.as_slice(),
            )
        }
        _ => None,
    }
}

/// The rule that each use is right.
#[derive(Clone, Copy, Drop)]
struct Kinds<'a> {
    world: &'a World<'a>,
}

impl Rule for Kinds<'_> {
    ghost finding = { λ s. kind_finding s.world.now.scope.now.tree.now };

    fn term(
        &self,
        around: &[Binder<'_>],
        role: Role,
        inside: bool,
        term: &TermTree,
    ) -> Option<usize> {
        let own = first_in_role(role, term.place, kind_of(self.world, around, term));
        earlier(own, first_in_shape(self.world, around, inside, &term.shape))
    }

    fn compared(
        &self,
        around: &[Binder<'_>],
        rel: Rel,
        place: usize,
        left: &TermTree,
        right: &TermTree,
    ) -> Option<usize> {
        let left = kind_of(self.world, around, left);
        let right = kind_of(self.world, around, right);
        unless(left.may_compare(rel, right), place)
    }

    fn variable(
        &self,
        _around: &[Binder<'_>],
        _variable: &Mention,
        domain: &RefTree,
    ) -> Option<usize> {
        first_in_ref(self.world, domain)
    }
}
