// When a nest and a forest over it show a search for a least matching.
#![tactic(auto)]

ghost use Rattle.forest_laws.specs.Closing.{NestShrunkLaw};
ghost use Rattle.forest_laws.specs.Keeping.{ForestGrownLaw, StartedLaw};
ghost use Rattle.forest_laws.specs.Meeting.{MeetingLaw, OneMeetingLaw};
ghost use Rattle.forest_laws.specs.Opening.{NestOpenedLaw};
ghost use Rattle.forest_laws.specs.Ways.{ClimbedLaw};

/// A new nest and a new forest.
pub fn started()
    ensures { StartedLaw }
{}

/// A forest that has grown by `Forest::grow`.
pub fn grown()
    ensures { ForestGrownLaw }
{}

/// A nest of which `Nest::expand` has taken a set apart.
pub fn nest_opened()
    ensures { NestOpenedLaw }
{}

/// A nest of which `Nest::shrink` has made one set of a ring.
pub fn nest_shrunk()
    ensures { NestShrunkLaw }
{}

/// The way that `Forest::root_path` gives.
pub fn climbed()
    ensures { ClimbedLaw }
{}

/// The ways to the root from two outer sets of one tree, and the ring that they close.
pub fn meeting()
    ensures { MeetingLaw }
{}

/// Two ways meet at one set.
pub fn one_meeting()
    ensures { OneMeetingLaw }
{}
