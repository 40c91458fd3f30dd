//! Lists that grow together.
ghost use Rattle.std.specs.Prelude.{◌≡◌, ◌++◌, ◌<◌, length, OnOk, OnErr, IfErr};
ghost use Rattle.emit_ledger.specs.Regions.{without_last};

use branch_state::List;
use std::alloc::{AllocError, Global};
use std::mem;

/// Moves what was found to the end of all that was found, and what is given into the place of the last that is given. Only want of memory
/// refuses it, and then both come back and nothing has changed.
pub(crate) fn join<S: Drop, T: Drop>(
    alloc: Global,
    all_found: &mut List<S>,
    found: List<S>,
    all_given: &mut List<T>,
    given: List<T>,
) -> Result<(), (List<S>, List<T>, AllocError)>
    requires { 0 < length all_given.old }
    ensures found { OnOk result (all_found.new ≡ all_found.old ++ found) }
    ensures given { OnOk result (all_given.new ≡ without_last all_given.old ++ given) }
    ensures err { OnErr result ((all_found.new ≡ all_found.old) × (all_given.new ≡ all_given.old)) }
    ensures back { IfErr result (λ refused. (refused.0 ≡ found) × (refused.1 ≡ given)) }
{
    let mut founds = mem::replace(all_found, List::new(alloc)).into_vec();
    let mut givens = mem::replace(all_given, List::new(alloc)).into_vec();
    let mut found = found.into_vec();
    let mut given = given.into_vec();
    let joined = join_vecs(&mut founds, &mut found, &mut givens, &mut given);
    *all_found = List::from_vec(founds);
    *all_given = List::from_vec(givens);
    match joined {
        Ok(()) => Ok(()),
        Err(refused) => Err((List::from_vec(found), List::from_vec(given), refused)),
    }
}

/// The same of vectors: what is moved leaves its vector.
fn join_vecs<S: Drop, T: Drop>(
    all_found: &mut Vec<S>,
    found: &mut Vec<S>,
    all_given: &mut Vec<T>,
    given: &mut Vec<T>,
) -> Result<(), AllocError>
    requires { 0 < length all_given.old.items }
    ensures found { OnOk result (all_found.new.items ≡ all_found.old.items ++ found.old.items) }
    ensures given { OnOk result (all_given.new.items ≡ without_last all_given.old.items ++ given.old.items) }
    ensures err { OnErr result ((all_found.new.items ≡ all_found.old.items) × (all_given.new.items ≡ all_given.old.items)) }
    ensures back { OnErr result ((found.new.items ≡ found.old.items) × (given.new.items ≡ given.old.items)) }
{
    all_found.reserve(found.len())?;
    all_given.reserve(given.len())?;
    let _ = all_given.pop();
    if all_found.append(found).is_err() {
        unreachable!();
    }
    if all_given.append(given).is_err() {
        unreachable!();
    }
    Ok(())
}
