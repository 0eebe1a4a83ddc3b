// What is kept by the names of sets still shows a search after a ring has become one set.
#![tactic(auto)]

ghost use Rattle.shown_rings.specs.Shrinking.{ShrunkLaw};

/// A ring that becomes one set.
pub fn shrunk()
    ensures { ShrunkLaw }
{}
