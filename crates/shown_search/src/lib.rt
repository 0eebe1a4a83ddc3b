// When arrays by the names of sets show a search for a least matching, and that they still do after
// a step.
#![tactic(auto)]

ghost use Rattle.shown_search.specs.Choosing.{LeastLaw};
ghost use Rattle.shown_search.specs.Growing.{GrownLaw};
ghost use Rattle.shown_search.specs.Same.{SameLaw};
ghost use Rattle.shown_search.specs.Starting.{FreshLaw};
ghost use Rattle.shown_search.specs.Taken.{AugmentTakenLaw, ExpandTakenLaw, GrowTakenLaw, ShrinkTakenLaw};

/// A forest that grows by a matched pair.
pub fn grown()
    ensures { GrownLaw }
{}

/// Single vertices at the start.
pub fn shown()
    ensures { FreshLaw }
{}

/// A least step, by vertices and names.
pub fn chosen()
    ensures { LeastLaw }
{}

/// A grow anywhere in a search.
pub fn grow_taken()
    ensures { GrowTakenLaw }
{}

/// An augment of any two trees.
pub fn augment_taken()
    ensures { AugmentTakenLaw }
{}

/// A shrink in any tree.
pub fn shrink_taken()
    ensures { ShrinkTakenLaw }
{}

/// An expand in any tree.
pub fn expand_taken()
    ensures { ExpandTakenLaw }
{}

/// Children of vertices, and outermost sets past the last vertex, are not read.
pub fn unread()
    ensures { SameLaw }
{}
