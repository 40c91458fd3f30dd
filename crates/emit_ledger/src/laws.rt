//! The laws of what is put together from regions, each as the contract of a function that does nothing.
ghost use Rattle.emit_ledger.specs.Laws.{UsedLaw, NoneDroppedLaw};

/// Let every region be of the problem, let the branches that a region gives weigh less than its start, and let the regions' starts, followed
/// by some branches, be the starts, followed by all given branches, each as often. Then every region is used, what all regions found is
/// found, and just those branches are left.
pub fn balanced_regions_are_all_used()
    ensures { UsedLaw }
{}

/// Where no region is dropped, every one is of the problem and is used: what all regions found is found, and each start and each given
/// branch has its region or is left.
pub fn none_dropped_is_all_used()
    ensures { NoneDroppedLaw }
{}
