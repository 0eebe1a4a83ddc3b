//! The laws by which a book of tickets, and what is kept of each, follow the speculative decoder.
#![tactic(auto)]

mod stored;
mod turns;

ghost use Rattle.cascade_laws.specs.MirrorLaws.{BasedLaw, ClaimedLaw, ComparedLaw, GivenUpLaw, LeftLaw, OpenedLaw, OrphanLaw, ReturnedLaw, VerifiedLaw};

pub use stored::{
    no_tickets, stored_claim, stored_problem, stored_rest, stored_result, stored_stale,
};
pub use turns::{claimable, committable, first_claim, first_commit, first_comparison, first_drop};

/// Every link of a committed window names the ticket of a committed window.
pub fn based()
    ensures { BasedLaw }
{}

/// Before anything happens the book is one in which no ticket is taken.
pub fn opened()
    ensures { OpenedLaw }
{}

/// A claim takes a ticket.
pub fn claimed()
    ensures { ClaimedLaw }
{}

/// A result makes a ticket stand.
pub fn returned()
    ensures { ReturnedLaw }
{}

/// A guess that is verified is confirmed.
pub fn verified()
    ensures { VerifiedLaw }
{}

/// A window that is dropped or poisoned loses its ticket.
pub fn given_up()
    ensures { GivenUpLaw }
{}

/// Arrivals, commits, releases and stale tickets leave the book as it is.
pub fn left()
    ensures { LeftLaw }
{}

/// The windows that rest on a ticket which is gone are those that may be dropped.
pub fn orphaned()
    ensures { OrphanLaw }
{}

/// The guesses about a window that has a result are those that may be compared.
pub fn compared()
    ensures { ComparedLaw }
{}
