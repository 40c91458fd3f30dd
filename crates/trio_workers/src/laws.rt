//! The law of a run, as the contract of a function that does nothing.
ghost use Rattle.trio_workers.specs.Runs.{WholeLaw};

use branch_state::laws::root_represents_the_models;

/// What a run finds from the root, with no tables kept, is the list of all models of the problem.
pub fn root_gives_all_models()
    ensures { WholeLaw }
{
    root_represents_the_models();
}
