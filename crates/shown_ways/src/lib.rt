// The way from an outer set to the root of its tree, read off what is kept by the names of sets.
#![tactic(auto)]

ghost use Rattle.shown_ways.specs.Climbing.{RootedLaw};

/// The way up from an outer set.
pub fn rooted()
    ensures { RootedLaw }
{}
