//! What is kept of each ticket follows the speculative decoder.
ghost use Rattle.cascade_laws.specs.Store.{NoTicketsLaw, StoredClaimLaw, StoredProblemLaw, StoredRestLaw, StoredResultLaw, StoredStaleLaw};

/// Before anything happens there is no ticket.
pub fn no_tickets()
    ensures { NoTicketsLaw }
{}

/// A claim is stored under the next number.
pub fn stored_claim()
    ensures { StoredClaimLaw }
{}

/// A result is stored where there was none, and closes its ticket.
pub fn stored_result()
    ensures { StoredResultLaw }
{}

/// A stale ticket is closed.
pub fn stored_stale()
    ensures { StoredStaleLaw }
{}

/// Any other event leaves what is kept of tickets as it is.
pub fn stored_rest()
    ensures { StoredRestLaw }
{}

/// A ticket's problem is that of its window and of its links, as they were claimed.
pub fn stored_problem()
    ensures { StoredProblemLaw }
{}
