//! Whether branches and problems are equal.
ghost use Rattle.std.specs.Prelude.{◌≡◌, ◌↔◌, IsTrue};

use crate::branch::{Branch, Want};
use crate::env::Env;
use crate::problem::Problem;
use trio_core::comparing::same_core;
use trio_types::comparing::{Same, same_all, same_spec};

/// Whether two branches have the same sets, and the same wants in the same order. It takes no memory.
pub fn same(left: &Branch, right: &Branch) -> bool
    ensures { IsTrue result ↔ (left.now ≡ right.now) }
{
    left.doms.as_slice() == right.doms.as_slice()
        && same_all(left.wants.as_slice(), right.wants.as_slice())
}

/// Whether two problems are equal. It takes no memory, and goes over the whole of both.
pub fn same_problem(left: &Problem, right: &Problem) -> bool
    ensures { IsTrue result ↔ (left.now ≡ right.now) }
{
    same_spec(&left.spec, &right.spec)
        && same_core(&left.core, &right.core)
        && same_all(left.given.as_slice(), right.given.as_slice())
}

impl Same for Want {
    fn same(&self, other: &Want) -> bool {
        self.node == other.node
            && self.now == other.now
            && self.env.same(&other.env)
            && self.sign == other.sign
            && self.from == other.from
    }
}

impl Same for Env {
    fn same(&self, other: &Env) -> bool {
        self.as_slice() == other.as_slice()
    }
}
