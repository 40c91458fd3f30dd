//! The laws of three-valued truth, each as the contract of a function that does nothing.
ghost use Rattle.trio_core.specs.Laws.{TruthLaw, WholeTruthLaw, ShrinkLaw, WholeShrinkLaw, SingleSetsLaw, WholeSingleLaw, CoreStandsLaw};

/// A decided value is the truth in every table that lies in the sets.
pub fn decided_is_truth()
    ensures node { TruthLaw }
    ensures whole { WholeTruthLaw }
{}

/// A decided value stays where sets shrink.
pub fn decided_stays()
    ensures node { ShrinkLaw }
    ensures whole { WholeShrinkLaw }
{}

/// Single sets decide.
pub fn single_sets_decide()
    ensures node { SingleSetsLaw }
    ensures whole { WholeSingleLaw }
{}

/// A core is true in a table exactly where the specification is that it stands for.
pub fn cores_stand_for_specifications()
    ensures { CoreStandsLaw }
{}
