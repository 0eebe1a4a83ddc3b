// What is kept by the names of sets still shows a search after an inner set has come apart.
#![tactic(auto)]

ghost use Rattle.shown_openings.specs.Opening.{OpenedLaw};

/// An inner set that comes apart.
pub fn opened()
    ensures { OpenedLaw }
{}
