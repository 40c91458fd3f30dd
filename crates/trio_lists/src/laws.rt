//! The law of multisets, as the contract of a function that does nothing.
ghost use Rattle.trio_lists.specs.Multisets.{PermutationLaw};

/// Lists are permutations of each other exactly where every weight of their elements has the same sum over both.
pub fn equal_weights_are_permutations<T>()
    ensures { PermutationLaw T }
{}
