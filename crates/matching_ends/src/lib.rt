// The end of a search for a least matching: what is read off from the mates and from the names of
// the sets.
#![tactic(auto)]

ghost use Rattle.matching_ends.specs.Mated.{MateLaw};
ghost use Rattle.matching_ends.specs.Named.{NamesLaw};

/// Vertices with their mates are a perfect matching whose cost the numbers reach.
pub fn mated()
    ensures { MateLaw }
{}

/// Numbers that are read off by the names of the sets are as good as those of the nested rings.
pub fn named()
    ensures { NamesLaw }
{}
