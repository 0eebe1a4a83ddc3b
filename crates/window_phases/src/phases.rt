//! A book of tickets with a flag for each committed window.
ghost use Rattle.std.specs.Prelude.{◌≡◌, ◌<◌, ◌≤◌, ◌+◌, ℕ, All, AllPairs, IfOk, IsSome, None, Some, false, length, map, option_map, replicate, true};
ghost use Rattle.std.specs.List.{list_all};
ghost use Rattle.window_model.specs.declared.Origin.TheVariants.{Ticket};
ghost use Rattle.window_model.specs.Windows.{window_at, window_count};
ghost use Rattle.poison_cascade.specs.declared.support.Support.{Support as Rest};
ghost use Rattle.poison_cascade.specs.Books.{AreWindows, IsLeast, IsLeastPair, IsOrphan, IsUnverified, Live, confirmed, entry_at, opened, standing, stood, supports_at, supports_of, taken, vanished};
ghost use Rattle.poison_cascade.specs.Tests.{is_this};
ghost use Rattle.cascade_laws.specs.Mirror.{MayTake};
ghost use Rattle.cascade_laws.specs.Turns.{can_claim_in, can_commit, flag, is_based};
ghost use Rattle.window_phases.specs.Phases.{IsOfPlan, committed};

use poison_cascade::{Book, Support};
use std::alloc::{AllocError, Global};
use std::marker::Model;
use window_model::Origin;
use window_plan::Plan;

/// The phases of windows.
pub struct Phases {
    book: Book,
    /// For each window whether it is committed.
    done: Vec<bool>,
}

impl Drop for Phases {
    fn drop(self) {
        let Phases { book: _, done: _ } = self;
    }
}

impl Model for Phases {
    ghost use Rattle.std.specs.Prelude.{◌≡◌, length};
    ghost use Rattle.window_phases.specs.Phases.{PhaseTable};

    ghost Value = { PhaseTable };

    ghost view = { λ p. record { book = p.book; done = p.done.items } };

    ghost invariant = { λ p. length p.done.items ≡ length p.book.windows };
}

impl Phases {
    /// Windows with these dependencies, all of which wait.
    pub fn new(alloc: Global, deps: &[Vec<u32>], retries: u32) -> Result<Phases, AllocError>
        requires { AreWindows (map (λ v. v.items) deps.now) retries }
        ensures { IfOk result (λ p. p ≡ record {
          book = opened (map (λ v. v.items) deps.now)
              retries;
          done = replicate (length deps.now) false;
        }) }
    {
        let done = vec![in alloc; false; deps.len()]?;
        let book = Book::new(alloc, deps, retries)?;
        Ok(Phases { book, done })
    }

    /// The tickets.
    pub fn book(&self) -> &Book
        ensures { result.now ≡ self.now.book }
    {
        &self.book
    }

    /// Takes the next ticket for a waiting window, and answers its number.
    pub fn claim(&mut self, window: u32, origins: &[Origin]) -> u32
        requires { MayTake self.old.book window origins.now }
        ensures table { self.new ≡ record self.old {
          book = taken self.old.book window
              origins.now;
        } }
        ensures number { result ≡ self.old.book.tickets }
    {
        self.book.take(window, origins)
    }

    /// The result of a window's ticket is held.
    pub fn hold(&mut self, window: u32)
        requires window { window < length self.old.book.windows }
        requires running { option_map (λ (live : Live). live.stands)
            (entry_at self.old.book window).live ≡ Some false }
        ensures { self.new ≡ record self.old { book = stood self.old.book window } }
    {
        self.book.stand(window);
    }

    /// A guess about a source is verified.
    pub fn verify(&mut self, source: u32, window: u32)
        requires { IsUnverified self.old.book window source }
        ensures { self.new ≡ record self.old { book = confirmed self.old.book source window } }
    {
        self.book.confirm(source, window);
    }

    /// A window is poisoned or dropped, and waits again.
    pub fn give_up(&mut self, window: u32)
        requires window { window < length self.old.book.windows }
        requires live { IsSome (entry_at self.old.book window).live }
        ensures { self.new ≡ record self.old { book = vanished self.old.book window } }
    {
        self.book.vanish(window);
    }

    /// A window is committed.
    pub fn commit(&mut self, window: u32)
        requires { window < length self.old.done }
        ensures { self.new ≡ committed self.old window }
    {
        self.done[window as usize] = true;
    }

    /// Whether a window is committed.
    pub fn is_done(&self, window: u32) -> bool
        ensures { result ≡ flag self.now.done window }
    {
        match self.done.get(window as usize) {
            Some(done) => *done,
            None => false,
        }
    }

    /// The least window that may be committed: it has a result, and rests on committed windows
    /// alone.
    pub fn next_commit(&self) -> Option<u32>
        ensures { IsLeast (λ w. can_commit self.now.book self.now.done w ≡ true) result }
    {
        for window in 0..self.book.windows() {
            if self.can_commit(window) {
                return Some(window);
            }
        }
        None
    }

    /// The least window that may be claimed once so many slots have arrived: it waits, its last
    /// slot has arrived, and it has a retry left or rests on committed windows alone.
    pub fn next_claim(&self, plan: &Plan, arrived: u32) -> Option<u32>
        requires { IsOfPlan plan.now.plan self.now.book }
        ensures { IsLeast (λ w. (w < window_count plan.now.plan)
            × (can_claim_in plan.now.plan self.now.book.retries arrived self.now.book self.now.done
            w ≡ true)) result }
    {
        for window in 0..plan.windows() {
            if self.can_claim(plan, arrived, window) {
                return Some(window);
            }
        }
        None
    }

    fn can_commit(&self, window: u32) -> bool
        requires { window < length self.now.book.windows }
        ensures { result ≡ can_commit self.now.book self.now.done window }
    {
        if self.is_done(window) || self.book.standing(window).is_none() {
            return false;
        }
        self.rests_on_done(window)
    }

    fn rests_on_done(&self, window: u32) -> bool
        requires { window < length self.now.book.windows }
        ensures { result ≡ list_all (is_based self.now.book self.now.done)
            (supports_at self.now.book window) }
    {
        for support in self.book.supports(window) {
            if !self.is_based(*support) {
                return false;
            }
        }
        true
    }

    /// Whether the support names the ticket of a committed window.
    fn is_based(&self, support: Support) -> bool
        ensures { result ≡ is_based self.now.book self.now.done support }
    {
        match support.origin {
            Origin::Guess => false,
            Origin::Ticket(ticket) => {
                self.is_done(support.source)
                    && is_number(self.book.standing(support.source), ticket)
            }
        }
    }

    fn can_claim(&self, plan: &Plan, arrived: u32, window: u32) -> bool
        requires plan { IsOfPlan plan.now.plan self.now.book }
        requires window { window < window_count plan.now.plan }
        ensures { result ≡ can_claim_in plan.now.plan self.now.book.retries arrived self.now.book
            self.now.done window }
    {
        if !self.book.is_waiting(window) || plan.last_slot(window) >= arrived {
            return false;
        }
        self.book.taken(window) < self.book.retries() || self.are_done(plan.deps(window))
    }

    fn are_done(&self, windows: &[u32]) -> bool
        ensures { result ≡ list_all (flag self.now.done) windows.now }
    {
        for window in windows {
            if !self.is_done(*window) {
                return false;
            }
        }
        true
    }
}

/// Whether it is this number.
fn is_number(found: Option<u32>, number: u32) -> bool
    ensures { result ≡ is_this found number }
{
    match found {
        Some(other) => other == number,
        None => false,
    }
}
