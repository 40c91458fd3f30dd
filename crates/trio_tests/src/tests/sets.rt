//! Three-valued truth under sets of values that are given by words.
ghost use Rattle.std.specs.Prelude.{◌≡◌, ◌++◌, ◌∷◌, [], IsTrue, IfSome};
ghost use Rattle.trio_types.specs.Verdict.{world_of};
ghost use Rattle.trio_core.specs.Sets.{AreSets, is_set};
ghost use Rattle.trio_core.specs.Stands.{StandsFor};

use std::process::Abort;
use trio_core::{Core, Doms, Three, spec_truth3};
use trio_types::{Spec, cell_count, cell_size};

/// Whether a word is a set of indexes below a size, and not empty.
fn fits(size: u32, word: u64) -> bool
    ensures { IsTrue result → IsTrue (is_set size word) }
{
    if word == 0 || size >= 64 {
        return false;
    }
    word >> size == 0
}

fn add_set(rt: &impl Abort, sets: &mut Doms, word: u64)
    ensures { sets.new ≡ sets.old ++ word ∷ [] }
{
    match sets.push(word) {
        Ok(()) => {}
        Err(_) => panic!(rt; "memory"),
    }
}

/// The sets of the cells, where each of these words is one.
fn sets_of(rt: &(impl Abort + AllocGlobal), spec: &Spec, words: &[u64]) -> Option<Doms>
    ensures { IfSome result (AreSets (world_of spec.now)) }
{
    let mut sets = Doms::new(rt.alloc());
    for cell in 0..cell_count(spec) {
        let Some(word) = words.get(cell as usize) else {
            return None;
        };
        if !fits(cell_size(spec, cell), *word) {
            return None;
        }
        add_set(rt, &mut sets, *word);
    }
    Some(sets)
}

/// The three-valued truth of a specification's core; none where a word is no set of its cell.
pub fn truth_under(
    rt: &(impl Abort + AllocGlobal),
    spec: &Spec,
    core: &Core,
    words: &[u64],
) -> Option<Three>
    requires { StandsFor core.now spec.now }
{
    let sets = sets_of(rt, spec, words)?;
    Some(spec_truth3(core, &sets))
}
