//! The tickets of all windows.
ghost use Rattle.std.specs.Prelude.{◌≡◌, ◌<◌, ◌≤◌, ◌+◌, ℕ, All, AllPairs, IfOk, IsSome, None, Some, is_none, false, length, map, option_map};
ghost use Rattle.window_model.specs.Gates.{most_windows};
ghost use Rattle.window_model.specs.declared.Origin.TheVariants.{Ticket};
ghost use Rattle.poison_cascade.specs.declared.support.Support.{Support as Rest};
ghost use Rattle.poison_cascade.specs.Books.{AreWindows, IsLeast, IsLeastPair, IsOrphan, IsUnverified, Live, confirmed, entry_at, opened, standing, stood, supports_at, supports_of, taken, vanished};
ghost use Rattle.poison_cascade.specs.Running.{running_of};
ghost use Rattle.poison_cascade.specs.Tests.{is_comparable, is_gone, rests_on_gone};

use crate::Support;
use crate::entry::Entry;
use std::alloc::{AllocError, Global};
use std::marker::Model;
use window_model::Origin;

/// The tickets of windows that wait for their commit, and what each rests on.
#[derive(Drop)]
pub struct Book {
    windows: Vec<Entry>,
    retries: u32,
    tickets: u32,
}

impl Model for Book {
    ghost use Rattle.poison_cascade.specs.Books.{IsBook, TicketBook};

    ghost Value = { TicketBook };

    ghost view = { λ b. record {
      windows = b.windows.items;
      retries = b.retries;
      tickets = b.tickets;
    } };

    ghost invariant = { λ b. IsBook (record {
      windows = b.windows.items;
      retries = b.retries;
      tickets = b.tickets;
    }) };
}

impl Book {
    /// Windows with these dependencies, for none of which a ticket is taken yet. It takes the room
    /// for all that comes.
    pub fn new(alloc: Global, deps: &[Vec<u32>], retries: u32) -> Result<Book, AllocError>
        requires { AreWindows (map (λ v. v.items) deps.now) retries }
        ensures { IfOk result (λ book. book ≡ opened (map (λ v. v.items) deps.now) retries) }
    {
        let mut windows = Vec::with_capacity(alloc, deps.len())?;
        for list in deps {
            windows.push(Entry::new(alloc, list)?)?;
        }
        Ok(Book {
            windows,
            retries,
            tickets: 0,
        })
    }

    /// Takes the next ticket for a window that has none, with an origin for each of its
    /// dependencies, and answers its number. A ticket that is named stands.
    pub fn take(&mut self, window: u32, origins: &[Origin]) -> u32
        requires window { window < length self.old.windows }
        requires none { (entry_at self.old window).live ≡ None }
        requires allowed { (entry_at self.old window).taken < self.old.retries + 1 }
        requires origins { length origins.now ≡ length (entry_at self.old window).deps }
        requires stand { All (λ (s : Rest). (k : ℕ) → s.origin ≡ Ticket k →
            standing self.old s.source ≡ Some k)
            (supports_of (entry_at self.old window).deps origins.now) }
        ensures book { self.new ≡ taken self.old window origins.now }
        ensures number { result ≡ self.old.tickets }
    {
        let ticket = self.tickets;
        let entry = &mut self.windows[window as usize];
        entry.take(ticket, origins);
        self.tickets += 1;
        ticket
    }

    /// The live ticket of a window, which had no result, has one from now on.
    pub fn stand(&mut self, window: u32)
        requires window { window < length self.old.windows }
        requires running { option_map (λ (live : Live). live.stands) (entry_at self.old window).live
            ≡ Some false }
        ensures { self.new ≡ stood self.old window }
    {
        let entry = &mut self.windows[window as usize];
        entry.stand();
    }

    /// A window's guess about a source that has a result is verified: the window rests on the
    /// source's ticket from now on.
    pub fn confirm(&mut self, source: u32, window: u32)
        requires { IsUnverified self.old window source }
        ensures { self.new ≡ confirmed self.old source window }
    {
        let Some(ticket) = self.standing(source) else {
            return;
        };
        let entry = &mut self.windows[window as usize];
        entry.confirm(source, ticket);
    }

    /// The live ticket of a window vanishes, and what it rested on with it.
    pub fn vanish(&mut self, window: u32)
        requires window { window < length self.old.windows }
        requires live { IsSome (entry_at self.old window).live }
        ensures { self.new ≡ vanished self.old window }
    {
        let entry = &mut self.windows[window as usize];
        entry.vanish();
    }

    /// How many tickets were taken.
    pub fn tickets(&self) -> u32
        ensures { result ≡ self.now.tickets }
    {
        self.tickets
    }

    /// How many tickets were taken for a window.
    pub fn taken(&self, window: u32) -> u32
        requires { window < length self.now.windows }
        ensures value { result ≡ (entry_at self.now window).taken }
        ensures few { result ≤ self.now.retries + 1 }
    {
        self.windows[window as usize].taken()
    }

    /// How many windows there are.
    pub fn windows(&self) -> u32
        ensures value { result ≡ length self.now.windows }
        ensures few { result ≤ most_windows }
    {
        self.windows.len() as u32
    }

    /// How often a window may be given up and still be guessed at again.
    pub fn retries(&self) -> u32
        ensures { result ≡ self.now.retries }
    {
        self.retries
    }

    /// Whether a window has no live ticket.
    pub fn is_waiting(&self, window: u32) -> bool
        requires { window < length self.now.windows }
        ensures { result ≡ is_none (entry_at self.now window).live }
    {
        self.windows[window as usize].is_waiting()
    }

    /// The ticket of a window, where it has a result.
    pub fn standing(&self, window: u32) -> Option<u32>
        ensures { result ≡ standing self.now window }
    {
        match self.windows.get(window as usize) {
            Some(entry) => entry.standing(),
            None => None,
        }
    }

    /// The ticket of a window, where it has no result yet.
    pub fn running(&self, window: u32) -> Option<u32>
        requires { window < length self.now.windows }
        ensures { result ≡ running_of (entry_at self.now window).live }
    {
        self.windows[window as usize].running()
    }

    /// The least window, and for it the least source, whose guess can be compared, since the source
    /// has a result.
    pub fn next_unverified(&self) -> Option<(u32, u32)>
        ensures { IsLeastPair (IsUnverified self.now) result }
    {
        for window in 0..self.windows.len() as u32 {
            if let Some(source) = self.unverified_source(window) {
                return Some((window, source));
            }
        }
        None
    }

    /// The least window that rests on a ticket which no longer stands.
    pub fn next_orphan(&self) -> Option<u32>
        ensures { IsLeast (IsOrphan self.now) result }
    {
        for window in 0..self.windows.len() as u32 {
            if self.rests_on_gone(window) {
                return Some(window);
            }
        }
        None
    }

    /// The least source of a window's guess that can be compared.
    fn unverified_source(&self, window: u32) -> Option<u32>
        requires { window < length self.now.windows }
        ensures { IsLeast (IsUnverified self.now window) result }
    {
        for support in self.supports(window) {
            if self.is_comparable(*support) {
                return Some(support.source);
            }
        }
        None
    }

    /// What the live ticket of a window rests on, by dependency; nothing where it has none.
    pub fn supports(&self, window: u32) -> &[Support]
        requires { window < length self.now.windows }
        ensures value { result.now ≡ supports_at self.now window }
        ensures rising { AllPairs (λ (s t : Rest). s.source < t.source) result.now }
    {
        self.windows[window as usize].supports()
    }

    /// Whether the support is a guess about a window that has a result.
    fn is_comparable(&self, support: Support) -> bool
        ensures { result ≡ is_comparable self.now support }
    {
        match support.origin {
            Origin::Guess => self.standing(support.source).is_some(),
            Origin::Ticket(_) => false,
        }
    }

    fn rests_on_gone(&self, window: u32) -> bool
        requires { window < length self.now.windows }
        ensures { result ≡ rests_on_gone self.now window }
    {
        for support in self.supports(window) {
            if self.is_gone(*support) {
                return true;
            }
        }
        false
    }

    /// Whether the support names a ticket that no longer stands.
    fn is_gone(&self, support: Support) -> bool
        ensures { result ≡ is_gone self.now support }
    {
        match support.origin {
            Origin::Guess => false,
            Origin::Ticket(ticket) => match self.standing(support.source) {
                Some(found) => found != ticket,
                None => true,
            },
        }
    }
}
