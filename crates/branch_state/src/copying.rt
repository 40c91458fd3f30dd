//! Copies of branches and of their parts.
ghost use Rattle.std.specs.Prelude.{◌≡◌, IfOk};

use crate::branch::{Branch, Want, Wants};
use std::alloc::{AllocError, Global};
use trio_types::List;

/// A copy; only want of memory refuses it.
pub fn copy(alloc: Global, branch: &Branch) -> Result<Branch, AllocError>
    ensures { IfOk result (λ made. made ≡ branch.now) }
{
    let doms = branch.doms.copy(alloc)?;
    let wants = copy_wants(alloc, &branch.wants)?;
    Ok(Branch { doms, wants })
}

/// A copy; only want of memory refuses it.
pub fn copy_wants(alloc: Global, wants: &Wants) -> Result<Wants, AllocError>
    ensures { IfOk result (λ made. made ≡ wants.now) }
{
    let mut made = Vec::with_capacity(alloc, wants.len())?;
    for want in wants.as_slice() {
        made.push(copy_want(alloc, want)?)?;
    }
    Ok(List::from_vec(made))
}

/// A copy; only want of memory refuses it.
pub fn copy_want(alloc: Global, want: &Want) -> Result<Want, AllocError>
    ensures { IfOk result (λ made. made ≡ want.entry.now) }
{
    let env = want.env.copy(alloc)?;
    Ok(Want {
        node: want.node,
        now: want.now,
        env,
        sign: want.sign,
        from: want.from,
    })
}
