//! What a book finds next is the first turn of the speculative decoder.
ghost use Rattle.cascade_laws.specs.Turns.{ClaimLaw, CommitLaw, FirstClaimLaw, FirstCommitLaw, FirstComparisonLaw, FirstDropLaw};

/// The least window that rests on a ticket which is gone is dropped first.
pub fn first_drop()
    ensures { FirstDropLaw }
{}

/// Where nothing is dropped, the least guess that can be compared is the first turn.
pub fn first_comparison()
    ensures { FirstComparisonLaw }
{}

/// A window with a result that rests on committed windows alone may be committed, and no other.
pub fn committable()
    ensures { CommitLaw }
{}

/// Where nothing is dropped or compared, the least window that may be committed is the first turn.
pub fn first_commit()
    ensures { FirstCommitLaw }
{}

/// A waiting window whose slots have arrived may be claimed where it has a retry left or rests on
/// committed windows alone, and no other.
pub fn claimable()
    ensures { ClaimLaw }
{}

/// Where no other turn is enabled, the least window that may be claimed is the first turn, whatever
/// is guessed.
pub fn first_claim()
    ensures { FirstClaimLaw }
{}
