//! What becomes of an answer, and the job of a ticket.
ghost use Rattle.std.specs.Prelude.{◌≡◌, ◌≢◌, ◌<◌, IfOk, None, Some, false, true};
ghost use Rattle.window_model.specs.Speculation.{MayBeStale, Returned, Stale};
ghost use Rattle.window_model.specs.TicketLaws.{problem_of};
ghost use Rattle.core_journal.specs.declared.event.Event.TheVariants as entry;
ghost use Rattle.core_state.specs.States.{HasHappened, MayHappen, machine_of};
ghost use Rattle.window_core.specs.Cores.{IsAwaited, IsOpen, current_of};
ghost use Rattle.window_core.specs.Turned.{IsJobFor, IsReported, IsSetAside};

use crate::{Core, Finished, Job, Reported};
use detector_graph::{Bits, Decoded, Part, Problem};
use std::alloc::{AllocError, Global};

impl Core {
    /// Takes an answer. Its window holds it, where the ticket is the one that the window runs and
    /// the answer is to the ticket's problem. Else at most it is noted that the ticket is stale:
    /// where it was claimed, has no answer, wasn't noted before, and its window doesn't run it.
    ///
    /// It costs what the window holds.
    pub fn report(&mut self, finished: Finished) -> Reported
        ensures { IsReported self.old self.new finished result }
    {
        let Finished { ticket, decoded } = finished;
        if self.is_awaited(ticket, &decoded) {
            self.hold(ticket, decoded);
            return Reported::Held;
        }
        let current = self.set_aside(ticket);
        Reported::Stale { ticket, current }
    }

    /// Whether the answer is to the problem of a ticket that its window runs.
    fn is_awaited(&mut self, ticket: u32, answer: &Decoded) -> bool
        ensures same { self.new ≡ self.old }
        ensures yes { result ≡ true → IsAwaited self.old ticket answer.now }
        ensures no { result ≡ false → ¬ IsAwaited self.old ticket answer.now }
    {
        if self.current(ticket) != Some(ticket) {
            return false;
        }
        self.is_problem(ticket, &answer.problem)
    }

    /// Whether it is the problem of a ticket.
    fn is_problem(&mut self, ticket: u32, problem: &Problem) -> bool
        requires { ticket < (machine_of self.old).tickets }
        ensures same { self.new ≡ self.old }
        ensures yes { result ≡ true → problem.now
            ≡ problem_of self.old.task (machine_of self.old) ticket }
        ensures no { result ≡ false → problem.now
            ≢ problem_of self.old.task (machine_of self.old) ticket }
    {
        self.state.is_state();
        let claim = self.state.claim_of(ticket);
        let window = claim.window;
        let setting = self.state.setting();
        self.sheets
            .write(setting, window, self.state.values(), &claim.bits);
        is_made_of(problem, setting.part_of(window), self.sheets.sheet(window))
    }

    /// A window holds the answer to the problem of the ticket that it runs.
    fn hold(&mut self, ticket: u32, decoded: Decoded)
        requires { IsAwaited self.old ticket decoded }
        ensures may { MayHappen self.old (Returned ticket decoded.set) }
        ensures happened { HasHappened self.old (entry.Held ticket) (Returned ticket decoded.set)
            self.new }
    {
        self.state.is_state();
        decoded.is_least();
        self.state.hold(ticket, decoded);
    }

    /// An answer isn't awaited. The ticket that the window runs.
    fn set_aside(&mut self, ticket: u32) -> Option<u32>
        ensures current { result ≡ current_of self.old ticket }
        ensures aside { IsSetAside self.old self.new ticket result }
    {
        let current = self.current(ticket);
        if self.is_open(ticket) && current != Some(ticket) {
            self.find_stale(ticket);
        }
        current
    }

    /// It is noted that an open ticket is stale.
    fn find_stale(&mut self, ticket: u32)
        requires { MayBeStale (machine_of self.old) ticket }
        ensures { HasHappened self.old (entry.Stale ticket (current_of self.old ticket))
            (Stale ticket) self.new }
    {
        self.state.find_stale(ticket);
    }

    /// The ticket that a ticket's window runs.
    fn current(&self, ticket: u32) -> Option<u32>
        ensures { result ≡ current_of self.now ticket }
    {
        self.state.is_state();
        if ticket >= self.state.tickets() {
            return None;
        }
        self.state.running_in(self.state.window_of(ticket))
    }

    /// Whether a ticket was claimed, has no answer, and wasn't found stale.
    pub fn is_open(&self, ticket: u32) -> bool
        ensures yes { result ≡ true → IsOpen self.now ticket }
        ensures no { result ≡ false → ¬ IsOpen self.now ticket }
    {
        ticket < self.state.tickets() && !self.state.is_closed(ticket)
    }

    /// The job of a ticket again: a copy of its problem. An error is want of memory.
    pub fn job(&self, alloc: Global, ticket: u32) -> Result<Job, AllocError>
        requires { ticket < (machine_of self.now).tickets }
        ensures { IfOk result (λ job. IsJobFor self.now ticket job) }
    {
        self.state.is_state();
        let claim = self.state.claim_of(ticket);
        let window = claim.window;
        let setting = self.state.setting();
        let part = setting.part(window)?;
        let mut defects = Bits::zeros(alloc, part.detectors.len() as u32)?;
        setting.write_defects(window, self.state.values(), &claim.bits, &mut defects);
        Ok(Job {
            ticket,
            problem: Problem { part, defects },
        })
    }
}

/// Whether the problem is that of a part with these defects.
fn is_made_of(problem: &Problem, part: &Part, defects: &Bits) -> bool
    ensures yes { result ≡ true → problem.now ≡ record {
      part = part.now;
      defects = defects.now;
    } }
    ensures no { result ≡ false → problem.now ≢ record {
      part = part.now;
      defects = defects.now;
    } }
{
    if !problem.defects.same(defects) {
        return false;
    }
    problem.part.same(part)
}
