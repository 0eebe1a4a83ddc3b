//! What is left once a draft is taken.
ghost use Rattle.claim_drafts.specs.DraftLaws.{TakenLaw};

/// A draft that is taken is one of its window, of which one fewer is left.
pub fn taken()
    ensures { TakenLaw }
{}
