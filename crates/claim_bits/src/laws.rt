//! What an answer of a ticket's problem is good for.
ghost use Rattle.claim_bits.specs.ClaimLaws.{AnswerLaw, KeptLaw};

/// An answer of a window's part keeps what the window commits of its set.
pub fn kept()
    ensures { KeptLaw }
{}

/// An answer of the problem of a ticket that its window runs may return.
pub fn answered()
    ensures { AnswerLaw }
{}
