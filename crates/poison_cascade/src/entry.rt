//! One window of a book.
ghost use Rattle.std.specs.Prelude.{◌≡◌, ◌<◌, ◌+◌, ◌^◌, AllPairs, IfOk, None, Some, is_none, false, length, map};
ghost use Rattle.poison_cascade.specs.declared.support.Support.{Support as Rest};
ghost use Rattle.poison_cascade.specs.Books.{confirmed_by, fresh, marked, standing_of, supports_in, supports_of, with_ticket};
ghost use Rattle.poison_cascade.specs.Running.{running_of};

use crate::Support;
use std::alloc::{AllocError, Global};
use std::marker::Model;
use window_model::Origin;

/// A window with its live ticket.
#[derive(Drop)]
pub(crate) struct Entry {
    /// By dependency, ascending. The origins are those of the live ticket.
    supports: Vec<Support>,
    ticket: Option<u32>,
    stands: bool,
    taken: u32,
}

impl Model for Entry {
    ghost use Rattle.std.specs.Prelude.{◌<◌, AllPairs};
    ghost use Rattle.poison_cascade.specs.declared.support.Support.{Support as Rest};
    ghost use Rattle.poison_cascade.specs.Books.{WindowEntry, entry_of};

    ghost Value = { WindowEntry };

    ghost view = { λ e. entry_of e.supports.items e.ticket e.stands e.taken };

    ghost invariant = { λ e. AllPairs (λ (s t : Rest). s.source < t.source) e.supports.items };
}

/// A guess for each dependency.
fn guesses(alloc: Global, deps: &[u32]) -> Result<Vec<Support>, AllocError>
    ensures { IfOk result (λ v. map (λ (s : Rest). s.source) v.items ≡ deps.now) }
{
    let mut supports = Vec::with_capacity(alloc, deps.len())?;
    for source in deps {
        supports.push(Support {
            source: *source,
            origin: Origin::Guess,
        })?;
    }
    Ok(supports)
}

/// Gives each support its origin.
#[tactic(auto, using(crate::proofs::Supports::sources_kept, crate::proofs::Supports::origins_more))]
fn write_origins(supports: &mut Vec<Support>, origins: &[Origin])
    requires { length origins.now ≡ length supports.old.items }
    ensures sources { map (λ (s : Rest). s.source) supports.new.items
        ≡ map (λ (s : Rest). s.source) supports.old.items }
    ensures origins { map (λ (s : Rest). s.origin) supports.new.items ≡ origins.now }
{
    for at in 0..origins.len() {
        supports[at].origin = origins[at];
    }
}

/// The support of the source is this ticket.
#[tactic(auto, using(crate::proofs::Supports::named_at))]
fn name_ticket(supports: &mut Vec<Support>, source: u32, ticket: u32)
    ensures { supports.new.items ≡ with_ticket source ticket supports.old.items }
{
    for at in 0..supports.len() {
        if supports[at].source == source {
            supports[at].origin = Origin::Ticket(ticket);
            return;
        }
    }
}

impl Entry {
    /// No ticket is taken yet.
    pub(crate) fn new(alloc: Global, deps: &[u32]) -> Result<Entry, AllocError>
        requires { AllPairs (λ x y. x < y) deps.now }
        ensures { IfOk result (λ e. e ≡ fresh deps.now) }
    {
        Ok(Entry {
            supports: guesses(alloc, deps)?,
            ticket: None,
            stands: false,
            taken: 0,
        })
    }

    /// Its next ticket is live.
    #[tactic(auto, using(crate::proofs::Supports::supports_are))]
    pub(crate) fn take(&mut self, ticket: u32, origins: &[Origin])
        requires each_one { length origins.now ≡ length self.old.deps }
        requires few { self.old.taken + 1 < 2 ^ 32 }
        ensures { self.new ≡ record self.old {
          live = Some (record {
            ticket = ticket;
            stands = false;
            supports = supports_of self.old.deps origins.now;
          });
          taken = self.old.taken + 1;
        } }
    {
        write_origins(&mut self.supports, origins);
        self.ticket = Some(ticket);
        self.stands = false;
        self.taken += 1;
    }

    /// The live ticket has a result.
    pub(crate) fn stand(&mut self)
        ensures { self.new ≡ marked self.old }
    {
        self.stands = true;
    }

    /// The support of the source is this ticket.
    #[tactic(auto, using(crate::proofs::Supports::rising_named))]
    pub(crate) fn confirm(&mut self, source: u32, ticket: u32)
        ensures { self.new ≡ confirmed_by (Some ticket) source self.old }
    {
        name_ticket(&mut self.supports, source, ticket);
    }

    /// No ticket is live.
    pub(crate) fn vanish(&mut self)
        ensures { self.new ≡ record self.old { live = None } }
    {
        self.ticket = None;
    }

    /// Whether no ticket is live.
    pub(crate) fn is_waiting(&self) -> bool
        ensures { result ≡ is_none self.now.live }
    {
        self.ticket.is_none()
    }

    /// The live ticket, where it has a result.
    pub(crate) fn standing(&self) -> Option<u32>
        ensures { result ≡ standing_of self.now.live }
    {
        if self.stands { self.ticket } else { None }
    }

    /// The live ticket, where it has no result yet.
    pub(crate) fn running(&self) -> Option<u32>
        ensures { result ≡ running_of self.now.live }
    {
        if self.stands { None } else { self.ticket }
    }

    /// How many tickets were taken.
    pub(crate) fn taken(&self) -> u32
        ensures { result ≡ self.now.taken }
    {
        self.taken
    }

    /// What the live ticket rests on, by dependency.
    pub(crate) fn supports(&self) -> &[Support]
        ensures value { result.now ≡ supports_in self.now.live }
        ensures rising { AllPairs (λ (s t : Rest). s.source < t.source) result.now }
    {
        match self.ticket {
            Some(_) => &self.supports,
            None => &[],
        }
    }
}
