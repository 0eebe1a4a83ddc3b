// What is kept by the names of sets still shows a search after two trees have become matched sets.
#![tactic(auto)]

ghost use Rattle.shown_matches.specs.Augmenting.{AugmentedLaw};

/// Two trees that become matched sets.
pub fn augmented()
    ensures { AugmentedLaw }
{}
