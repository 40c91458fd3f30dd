//! Formulas, operator by operator.
ghost use Rattle.std.specs.Prelude.{map, IfOk};
ghost use Rattle.trio_types.specs.Verdict.{world_of};
ghost use Rattle.derived_ops.specs.Rewriting.{all_joined, range_of_domain, for_some, one_written, far_written, at_far, within, next, up_to, until, written};
ghost use Rattle.derived_ops.specs.Shape.{no, either};
ghost use Rattle.derived_ops.specs.Adding.{AddsShape, negated, many_opposite};

use crate::distances::{negations_of, way_of};
use crate::joint::{Joint, Way};
use crate::writer::{Writer, deeper};
use std::alloc::AllocError;
use trio_core::Node;
use trio_types::{Ends, FarOp, Formula, OneOp, Rel, Spec, Term};

impl Writer {
    /// Appends what a formula becomes under this many variables.
    #[cycle(formulas)]
    pub fn formula(&mut self, spec: &Spec, formula: &Formula, level: u32) -> Result<u32, AllocError>
        ensures { IfOk result (λ at. AddsShape (written (world_of spec.now) formula.now level self.old.levels.items) self.old self.new at) }
    {
        match formula {
            Formula::Lone(term) => {
                let at = self.lone(term)?;
                Ok(at)
            }
            Formula::Compare(rel, left, right) => {
                let at = self.atom(*rel, left, right)?;
                Ok(at)
            }
            Formula::Not(part) => {
                let part = self.formula(spec, part.get(), level)?;
                let at = self.write(Node::Not(part))?;
                Ok(at)
            }
            Formula::And(parts) => self.joined(spec, Joint::And, parts.as_slice(), level),
            Formula::Or(parts) => self.joined(spec, Joint::Or, parts.as_slice(), level),
            Formula::Implies(left, right) => self.implies(spec, left.get(), right.get(), level),
            Formula::Iff(left, right) => {
                let left = self.formula(spec, left.get(), level)?;
                let right = self.formula(spec, right.get(), level)?;
                let at = self.equal(left, right)?;
                Ok(at)
            }
            Formula::All(_, domain, body) => self.quantified(spec, 1, *domain, body.get(), level),
            Formula::Ex(_, domain, body) => self.quantified(spec, 0, *domain, body.get(), level),
            Formula::One(op, part) => self.one(spec, *op, part.get(), level),
            Formula::Far(op, part, distance) => self.far(spec, *op, part.get(), distance, level),
            Formula::Pair(op, first, second) => {
                self.until(spec, way_of(*op), first.get(), second.get(), level)
            }
        }
    }

    #[cycle(formulas)]
    fn implies(
        &mut self,
        spec: &Spec,
        left: &Formula,
        right: &Formula,
        level: u32,
    ) -> Result<u32, AllocError>
        ensures { IfOk result (λ at. AddsShape (either (no (written (world_of spec.now) left.now level self.old.levels.items)) (written (world_of spec.now) right.now level self.old.levels.items)) self.old self.new at) }
    {
        let left = self.formula(spec, left, level)?;
        let no_left = self.write(Node::Not(left))?;
        let right = self.formula(spec, right, level)?;
        let at = self.write(Node::Or(no_left, right))?;
        Ok(at)
    }

    /// Parts joined by halves.
    #[cycle(formulas)]
    fn joined(
        &mut self,
        spec: &Spec,
        joint: Joint,
        parts: &[Formula],
        level: u32,
    ) -> Result<u32, AllocError>
        ensures { IfOk result (λ at. AddsShape (all_joined joint (map (λ f. written (world_of spec.now) f level self.old.levels.items) parts.now)) self.old self.new at) }
    {
        if parts.is_empty() {
            let at = self.none(joint)?;
            return Ok(at);
        }
        if parts.len() == 1 {
            let at = self.formula(spec, &parts[0], level)?;
            return Ok(at);
        }
        let (front, back) = parts.split_at(parts.len() / 2 + parts.len() % 2);
        let front = self.joined(spec, joint, front, level)?;
        let back = self.joined(spec, joint, back, level)?;
        let at = self.join(joint, front, back)?;
        Ok(at)
    }

    /// For some value of a domain, or with negations, for each.
    #[cycle(formulas)]
    fn quantified(
        &mut self,
        spec: &Spec,
        negations: u32,
        domain: u32,
        body: &Formula,
        level: u32,
    ) -> Result<u32, AllocError>
        ensures { IfOk result (λ at. AddsShape (negated negations (for_some (range_of_domain (world_of spec.now) domain) (many_opposite negations (written (world_of spec.now) body.now)) level self.old.levels.items)) self.old self.new at) }
    {
        let inner = deeper(level)?;
        self.levels.push(level)?;
        let body = self.formula(spec, body, inner)?;
        self.levels.pop();
        let part = self.negated(negations, body)?;
        let some = self.exists_value(spec, domain, part)?;
        let at = self.negated(negations, some)?;
        Ok(at)
    }

    #[cycle(formulas)]
    fn one(&mut self, spec: &Spec, op: OneOp, part: &Formula, level: u32) -> Result<u32, AllocError>
        ensures { IfOk result (λ at. AddsShape (one_written (world_of spec.now) op (written (world_of spec.now) part.now) level self.old.levels.items) self.old self.new at) }
    {
        let inner = deeper(level)?;
        let body = self.formula(spec, part, inner)?;
        let part = self.negated(negations_of(op), body)?;
        let there = self.dist_of_variable(Way::Ahead, part, level)?;
        let some = self.exists_one(spec, op, there)?;
        let at = self.negated(negations_of(op), some)?;
        Ok(at)
    }

    #[cycle(formulas)]
    fn far(
        &mut self,
        spec: &Spec,
        op: FarOp,
        part: &Formula,
        distance: &Term,
        level: u32,
    ) -> Result<u32, AllocError>
        ensures { IfOk result (λ at. AddsShape (far_written (world_of spec.now) op (written (world_of spec.now) part.now) distance.now level self.old.levels.items) self.old self.new at) }
    {
        match op {
            FarOp::Dist => {
                let part = self.formula(spec, part, level)?;
                let at = self.dist(Way::Ahead, part, distance)?;
                Ok(at)
            }
            FarOp::Futr => self.at_far(spec, Way::Ahead, part, distance, level),
            FarOp::Past => self.at_far(spec, Way::Back, part, distance, level),
            FarOp::NextTime => self.next(spec, Way::Ahead, part, distance, level),
            FarOp::LastTime => self.next(spec, Way::Back, part, distance, level),
            FarOp::Lasts(ends) => self.throughout(spec, Way::Ahead, ends, 1, part, distance, level),
            FarOp::Lasted(ends) => self.throughout(spec, Way::Back, ends, 1, part, distance, level),
            FarOp::WithinF(ends) => self.within(spec, Way::Ahead, ends, 0, part, distance, level),
            FarOp::WithinP(ends) => self.within(spec, Way::Back, ends, 0, part, distance, level),
        }
    }

    /// At a distance that is not negative.
    #[cycle(formulas)]
    fn at_far(
        &mut self,
        spec: &Spec,
        way: Way,
        part: &Formula,
        distance: &Term,
        level: u32,
    ) -> Result<u32, AllocError>
        ensures { IfOk result (λ at. AddsShape (at_far way (written (world_of spec.now) part.now) distance.now level self.old.levels.items) self.old self.new at) }
    {
        let first = self.not_negative(distance)?;
        let part = self.formula(spec, part, level)?;
        let there = self.dist(way, part, distance)?;
        let at = self.write(Node::And(first, there))?;
        Ok(at)
    }

    /// At some distance of a range, where the part has this many negations round it.
    #[cycle(formulas)]
    fn within(
        &mut self,
        spec: &Spec,
        way: Way,
        ends: Ends,
        negations: u32,
        part: &Formula,
        distance: &Term,
        level: u32,
    ) -> Result<u32, AllocError>
        ensures { IfOk result (λ at. AddsShape (within (world_of spec.now) way ends (many_opposite negations (written (world_of spec.now) part.now)) distance.now level self.old.levels.items) self.old self.new at) }
    {
        let inner = deeper(level)?;
        let near = self.near(ends, level, distance)?;
        let body = self.formula(spec, part, inner)?;
        let part = self.negated(negations, body)?;
        let there = self.dist_of_variable(way, part, level)?;
        let both = self.write(Node::And(near, there))?;
        let at = self.exists_within(spec, ends, both)?;
        Ok(at)
    }

    /// At no distance of a range, where the part has this many negations round it.
    #[cycle(formulas)]
    fn throughout(
        &mut self,
        spec: &Spec,
        way: Way,
        ends: Ends,
        negations: u32,
        part: &Formula,
        distance: &Term,
        level: u32,
    ) -> Result<u32, AllocError>
        ensures { IfOk result (λ at. AddsShape (no (within (world_of spec.now) way ends (many_opposite negations (written (world_of spec.now) part.now)) distance.now level self.old.levels.items)) self.old self.new at) }
    {
        let some = self.within(spec, way, ends, negations, part, distance, level)?;
        let at = self.write(Node::Not(some))?;
        Ok(at)
    }

    /// At the distance, and at none before it.
    #[cycle(formulas)]
    fn next(
        &mut self,
        spec: &Spec,
        way: Way,
        part: &Formula,
        distance: &Term,
        level: u32,
    ) -> Result<u32, AllocError>
        ensures { IfOk result (λ at. AddsShape (next (world_of spec.now) way (written (world_of spec.now) part.now) distance.now level self.old.levels.items) self.old self.new at) }
    {
        let there = self.at_far(spec, way, part, distance, level)?;
        let never = self.throughout(spec, way, Ends::Bare, 2, part, distance, level)?;
        let at = self.write(Node::And(there, never))?;
        Ok(at)
    }

    /// The second at some distance, and the first at each below it.
    #[cycle(formulas)]
    fn until(
        &mut self,
        spec: &Spec,
        way: Way,
        first: &Formula,
        second: &Formula,
        level: u32,
    ) -> Result<u32, AllocError>
        ensures { IfOk result (λ at. AddsShape (until (world_of spec.now) way (written (world_of spec.now) first.now) (written (world_of spec.now) second.now) level self.old.levels.items) self.old self.new at) }
    {
        let inner = deeper(level)?;
        let second = self.formula(spec, second, inner)?;
        let there = self.dist_of_variable(way, second, level)?;
        let never = self.up_to(spec, way, first, level)?;
        let both = self.write(Node::And(there, never))?;
        let at = self.exists_ahead(spec, both)?;
        Ok(at)
    }

    /// At each distance below that of the variable just outside.
    #[cycle(formulas)]
    fn up_to(
        &mut self,
        spec: &Spec,
        way: Way,
        part: &Formula,
        level: u32,
    ) -> Result<u32, AllocError>
        ensures { IfOk result (λ at. AddsShape (up_to (world_of spec.now) way (written (world_of spec.now) part.now) level self.old.levels.items) self.old self.new at) }
    {
        let inner = deeper(level)?;
        let deep = deeper(inner)?;
        let near = self.write(Node::Atom(Rel::Lt, Term::Var(inner), Term::Var(level)))?;
        let part = self.formula(spec, part, deep)?;
        let no_part = self.write(Node::Not(part))?;
        let there = self.dist_of_variable(way, no_part, inner)?;
        let both = self.write(Node::And(near, there))?;
        let some = self.exists_ahead(spec, both)?;
        let at = self.write(Node::Not(some))?;
        Ok(at)
    }
}
