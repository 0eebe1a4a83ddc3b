// What each step of a search for a least matching makes, and what is read off at its end.
#![tactic(auto)]

ghost use Rattle.matching_laws.specs.StepLaws.{AugmentLaw, ExpandLaw, GrowLaw, ShrinkLaw};
ghost use Rattle.matching_laws.specs.Turns.{TurnLaw, UncutLaw};

/// A tree that grows by a matched pair.
pub fn grown()
    ensures { GrowLaw }
{}

/// Two trees that an augmenting path joins.
pub fn augmented()
    ensures { AugmentLaw }
{}

/// A ring of a tree that becomes one set.
pub fn shrunk()
    ensures { ShrinkLaw }
{}

/// An inner ring that comes apart.
pub fn expanded()
    ensures { ExpandLaw }
{}

/// A change that no two vertices and no inner set undercut.
pub fn allowed()
    ensures { UncutLaw }
{}

/// The least step of a turn.
pub fn turned()
    ensures { TurnLaw }
{}
