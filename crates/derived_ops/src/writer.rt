//! Nodes that are appended one behind another.
ghost use Rattle.std.specs.Prelude.{◌≡◌, ◌+◌, [], pos, IfOk};
ghost use Rattle.trio_core.specs.declared.nodes.Node.TheVariants as node;
ghost use Rattle.trio_types.specs.declared.formula.Term.TheVariants as term;
ghost use Rattle.trio_base.specs.declared.operators.Rel.TheVariants as rel;
ghost use Rattle.derived_ops.specs.Rewriting.{renamed, towards, relation_of, of_none, range_of_domain, last, least_of};
ghost use Rattle.derived_ops.specs.Distances.{lowest, highest};
ghost use Rattle.trio_types.specs.Verdict.{world_of};
ghost use Rattle.derived_ops.specs.Adding.{AddsNode, AddsShape, node_of_two, Negates, Equates};

use crate::distances::{
    first_of_domain, highest, last, last_of_domain, least_of, lowest, relation_of,
};
use crate::joint::{Joint, Way};
use crate::terms::{renamed, towards};
use std::alloc::{AllocError, Global};
use trio_core::Node;
use trio_types::{Ends, OneOp, Rel, Spec, Term};

/// The nodes so far, and the levels of the variables of the quantifiers round the place.
#[derive(Drop)]
pub struct Writer {
    pub alloc: Global,
    pub nodes: Vec<Node>,
    pub levels: Vec<u32>,
}

impl Writer {
    /// Without nodes, outside all quantifiers.
    pub fn new(alloc: Global) -> Writer
        ensures nodes { result.nodes.items ≡ [] }
        ensures levels { result.levels.items ≡ [] }
    {
        Writer {
            alloc,
            nodes: Vec::new(alloc),
            levels: Vec::new(alloc),
        }
    }

    /// Appends a node. Only want of memory refuses it, or that there are more nodes than are numbered; so do all that append.
    pub fn write(&mut self, node: Node) -> Result<u32, AllocError>
        ensures { IfOk result (λ at. AddsNode node self.old self.new at) }
    {
        let Ok(at) = u32::try_from(self.nodes.len()) else {
            return Err(AllocError);
        };
        self.nodes.push(node)?;
        Ok(at)
    }

    /// Two terms in a relation.
    pub fn atom(&mut self, rel: Rel, left: &Term, right: &Term) -> Result<u32, AllocError>
        ensures { IfOk result (λ at. AddsNode (node.Atom rel (renamed self.old.levels.items left.now) (renamed self.old.levels.items right.now)) self.old self.new at) }
    {
        let left = renamed(self.alloc, self.levels.as_slice(), left)?;
        let right = renamed(self.alloc, self.levels.as_slice(), right)?;
        let at = self.write(Node::Atom(rel, left, right))?;
        Ok(at)
    }

    /// A term that is to be true.
    pub fn lone(&mut self, claim: &Term) -> Result<u32, AllocError>
        ensures { IfOk result (λ at. AddsNode (node.Atom rel.Eq (renamed self.old.levels.items claim.now) (term.Value 0 1)) self.old self.new at) }
    {
        let claim = renamed(self.alloc, self.levels.as_slice(), claim)?;
        let at = self.write(Node::Atom(Rel::Eq, claim, Term::Value(0, 1)))?;
        Ok(at)
    }

    /// A distance that is not negative.
    pub fn not_negative(&mut self, distance: &Term) -> Result<u32, AllocError>
        ensures { IfOk result (λ at. AddsNode (node.Atom rel.Le (term.Number 0) (renamed self.old.levels.items distance.now)) self.old self.new at) }
    {
        let distance = renamed(self.alloc, self.levels.as_slice(), distance)?;
        let at = self.write(Node::Atom(Rel::Le, Term::Number(0), distance))?;
        Ok(at)
    }

    /// The variable of this level within a distance.
    pub fn near(&mut self, ends: Ends, level: u32, distance: &Term) -> Result<u32, AllocError>
        ensures { IfOk result (λ at. AddsNode (node.Atom (relation_of ends) (term.Var level) (renamed self.old.levels.items distance.now)) self.old self.new at) }
    {
        let distance = renamed(self.alloc, self.levels.as_slice(), distance)?;
        let rel = relation_of(ends);
        let at = self.write(Node::Atom(rel, Term::Var(level), distance))?;
        Ok(at)
    }

    /// A part at a distance.
    pub fn dist(&mut self, way: Way, part: u32, distance: &Term) -> Result<u32, AllocError>
        ensures { IfOk result (λ at. AddsNode (node.Dist part (towards way (renamed self.old.levels.items distance.now))) self.old self.new at) }
    {
        let distance = renamed(self.alloc, self.levels.as_slice(), distance)?;
        let distance = towards(self.alloc, way, distance)?;
        let at = self.write(Node::Dist(part, distance))?;
        Ok(at)
    }

    /// A part at the distance of the variable of this level.
    pub fn dist_of_variable(&mut self, way: Way, part: u32, level: u32) -> Result<u32, AllocError>
        ensures { IfOk result (λ at. AddsNode (node.Dist part (towards way (term.Var level))) self.old self.new at) }
    {
        let distance = towards(self.alloc, way, Term::Var(level))?;
        let at = self.write(Node::Dist(part, distance))?;
        Ok(at)
    }

    /// What is true of no part: every one is, or none.
    pub fn none(&mut self, joint: Joint) -> Result<u32, AllocError>
        ensures { IfOk result (λ at. AddsShape (of_none joint) self.old self.new at) }
    {
        let every = self.write(Node::Atom(Rel::Eq, Term::Number(0), Term::Number(0)))?;
        match joint {
            Joint::And => Ok(every),
            Joint::Or => {
                let at = self.write(Node::Not(every))?;
                Ok(at)
            }
        }
    }

    /// Two parts joined.
    pub fn join(&mut self, joint: Joint, left: u32, right: u32) -> Result<u32, AllocError>
        ensures { IfOk result (λ at. AddsNode (node_of_two joint left right) self.old self.new at) }
    {
        let node = match joint {
            Joint::And => Node::And(left, right),
            Joint::Or => Node::Or(left, right),
        };
        let at = self.write(node)?;
        Ok(at)
    }

    /// A part for some whole number from the first to the second, as one more variable.
    fn exists(&mut self, low: i64, high: i64, part: u32) -> Result<u32, AllocError>
        ensures { IfOk result (λ at. AddsNode (node.Exists low high part) self.old self.new at) }
    {
        let at = self.write(Node::Exists(low, high, part))?;
        Ok(at)
    }

    /// A part at some distance that an operator on one formula speaks of.
    pub fn exists_one(&mut self, spec: &Spec, op: OneOp, part: u32) -> Result<u32, AllocError>
        ensures { IfOk result (λ at. AddsNode (node.Exists (lowest (world_of spec.now) op) (highest (world_of spec.now) op) part) self.old self.new at) }
    {
        let at = self.exists(lowest(spec, op), highest(spec, op), part)?;
        Ok(at)
    }

    /// A part for some value of a domain.
    pub fn exists_value(&mut self, spec: &Spec, domain: u32, part: u32) -> Result<u32, AllocError>
        ensures { IfOk result (λ at. AddsNode (node.Exists (range_of_domain (world_of spec.now) domain).low (range_of_domain (world_of spec.now) domain).high part) self.old self.new at) }
    {
        let first = first_of_domain(spec, domain);
        let at = self.exists(first, last_of_domain(spec, domain), part)?;
        Ok(at)
    }

    /// A part at some distance from the least of a range.
    pub fn exists_within(&mut self, spec: &Spec, ends: Ends, part: u32) -> Result<u32, AllocError>
        ensures { IfOk result (λ at. AddsNode (node.Exists (least_of ends) (last (world_of spec.now)) part) self.old self.new at) }
    {
        let at = self.exists(least_of(ends), last(spec), part)?;
        Ok(at)
    }

    /// A part at some distance from 1.
    pub fn exists_ahead(&mut self, spec: &Spec, part: u32) -> Result<u32, AllocError>
        ensures { IfOk result (λ at. AddsNode (node.Exists (pos 1) (last (world_of spec.now)) part) self.old self.new at) }
    {
        let at = self.exists(1, last(spec), part)?;
        Ok(at)
    }

    /// This many negations of a part.
    pub fn negated(&mut self, count: u32, part: u32) -> Result<u32, AllocError>
        ensures { IfOk result (λ at. Negates count part self.old self.new at) }
    {
        let mut at = part;
        for _ in 0..count {
            at = self.write(Node::Not(at))?;
        }
        Ok(at)
    }

    /// That two parts are both true or both false.
    pub fn equal(&mut self, left: u32, right: u32) -> Result<u32, AllocError>
        ensures { IfOk result (λ at. Equates left right self.old self.new at) }
    {
        let both = self.write(Node::And(left, right))?;
        let no_left = self.write(Node::Not(left))?;
        let no_right = self.write(Node::Not(right))?;
        let neither = self.write(Node::And(no_left, no_right))?;
        let at = self.write(Node::Or(both, neither))?;
        Ok(at)
    }
}

/// One level deeper; it is refused where levels are no longer numbered.
pub fn deeper(level: u32) -> Result<u32, AllocError>
    ensures { IfOk result (λ inner. inner ≡ level + 1) }
{
    match level.checked_add(1) {
        Some(inner) => Ok(inner),
        None => Err(AllocError),
    }
}
