// Laws on groups, for the crates above.
ghost use Rattle.separation_check.specs.Laws.{PairLaw, InnerChains, InnerGroups};

/// A pair of islands stands in some group exactly where a chain of free cells joins it.
pub fn pair_law()
    ensures { PairLaw }
{}

/// Where no cell of the frame's border is free, it doesn't matter which cells outside are: the chains
/// that begin in the frame, and so the groups of its islands, are the same.
pub fn inner_law()
    ensures chains { InnerChains }
    ensures groups { InnerGroups }
{}
