//! The tables that are kept of a history.
ghost use Rattle.std.specs.Prelude.{◌≡◌, ◌<◌, ◌≤◌, All, IfOk, false, length, slice_index_or};
ghost use Rattle.graph_model.specs.Parity.{◌⊕◌, parity};
ghost use Rattle.window_model.specs.Parts.{part_of};
ghost use Rattle.window_model.specs.Speculation.{Arrived, Claimed, Committed, Dropped, MayBeStale, MayClaim, MayReturn, Poisoned, Released, Returned, Stale, Verified};
ghost use Rattle.window_model.specs.TurnLaws.{CanRelease};
ghost use Rattle.window_model.specs.Windows.{window_at};
ghost use Rattle.release_gate.specs.Operations.{labels_of};
ghost use Rattle.core_store.specs.Tickets.{links_in};
ghost use Rattle.core_state.specs.States.{HasBits, HasHappened, IsBegun, IsState, MayHappen, machine_of, running_of};

use crate::opening::{event_room, ticket_room, waiting};
use core_journal::{Event, Journal};
use core_store::{Claim, Tickets, Timeline};
use detector_graph::{Bits, Decoded, Folded};
use pauli_frame::Frame;
use release_gate::OpSpec;
use release_watch::ReleaseWatch;
use std::alloc::{AllocError, Global};
use std::marker::Model;
use window_phases::Phases;
use window_setting::Setting;

/// What is decoded, what happened so far, and what is kept of it. Room for all that may come is
/// taken at the start.
pub struct CoreState {
    pub(crate) timeline: Timeline,
    pub(crate) retries: u32,
    /// How many slots have arrived.
    pub(crate) arrived: u32,
    /// The values of the detectors, and the raw values of the observables.
    pub(crate) values: Bits,
    pub(crate) raws: Bits,
    pub(crate) tickets: Tickets,
    pub(crate) phases: Phases,
    pub(crate) releases: ReleaseWatch,
    pub(crate) journal: Journal,
}

impl Drop for CoreState {
    fn drop(self) {
        let CoreState {
            timeline: _,
            retries: _,
            arrived: _,
            values: _,
            raws: _,
            tickets: _,
            phases: _,
            releases: _,
            journal: _,
        } = self;
    }
}

impl Model for CoreState {
    ghost use Rattle.core_state.specs.States.{AreParts, CoreTable, kept_with};

    ghost Value = { CoreTable };

    ghost view = { λ s. record {
      task = s.timeline;
      retries = s.retries;
      journal = s.journal.entries;
      kept = kept_with s.timeline s.values s.raws s.tickets;
    } };

    ghost invariant = { λ s. AreParts (record {
      task = s.timeline;
      retries = s.retries;
      arrived = s.arrived;
      values = s.values;
      raws = s.raws;
      tickets = s.tickets;
      phases = s.phases;
      releases = s.releases;
      journal = s.journal;
    }) };
}

impl CoreState {
    /// Nothing has happened. It takes the room for all that may come.
    ///
    /// It costs time in proportion to the numbers of detectors, observables, slots, links, claims
    /// that may come, and windows times operations.
    pub fn start(alloc: Global, setting: Setting, retries: u32) -> Result<CoreState, AllocError>
        requires { retries ≤ 8 }
        ensures { IfOk result (IsBegun setting retries) }
    {
        setting.is_setting();
        let values = Bits::zeros(alloc, setting.graph().vertices())?;
        let raws = Bits::zeros(alloc, setting.raw_count())?;
        let tickets = Tickets::new(alloc, ticket_room(&setting, retries))?;
        let phases = waiting(alloc, &setting, retries)?;
        let releases = ReleaseWatch::start(alloc, &setting)?;
        let journal = Journal::new(alloc, event_room(&setting, retries))?;
        let timeline = Timeline::new(alloc, setting)?;
        Ok(CoreState {
            timeline,
            retries,
            arrived: 0,
            values,
            raws,
            tickets,
            phases,
            releases,
            journal,
        })
    }

    /// What always holds.
    pub fn is_state(&self)
        ensures { IsState self.now }
    {
        let _ = &self.journal;
    }

    /// The next slot arrives, with a value for each of its detectors and a raw value for each of
    /// its observables.
    pub fn arrive(&mut self, folded: &Folded)
        requires { MayHappen self.old (Arrived folded.now.slot folded.now.defects folded.now.raws) }
        ensures { HasHappened self.old (Event.Arrived folded.now.slot)
            (Arrived folded.now.slot folded.now.defects folded.now.raws) self.new }
    {
        let slot = folded.slot;
        self.timeline
            .write_values(slot, &folded.defects, &mut self.values);
        self.timeline.write_raws(slot, &folded.raws, &mut self.raws);
        self.journal.note(Event::Arrived(slot));
        self.arrived += 1;
    }

    /// A waiting window is claimed, which takes the next ticket.
    pub fn claim(&mut self, asked: Claim) -> u32
        requires may { MayClaim self.old.task self.old.retries (machine_of self.old)
            (machine_of self.old).tickets asked.window (links_in self.old.task.plan asked) }
        requires origins { length asked.origins ≡ length
            (window_at self.old.task.plan asked.window).deps }
        requires bits { HasBits self.old.task asked }
        ensures number { result ≡ (machine_of self.old).tickets }
        ensures happened { HasHappened self.old (Event.Claimed result asked.window)
            (Claimed result asked.window (links_in self.old.task.plan asked)) self.new }
    {
        let window = asked.window;
        let ticket = self.phases.claim(window, &asked.origins);
        self.tickets.take(asked);
        self.journal.note(Event::Claimed(ticket, window));
        ticket
    }

    /// An answer to the problem of a ticket that its window runs.
    pub fn hold(&mut self, ticket: u32, decoded: Decoded)
        requires may { MayReturn self.old.task (machine_of self.old) ticket decoded.set }
        requires part { decoded.problem.part ≡ part_of self.old.task.graph self.old.task.plan
            ((machine_of self.old).claim ticket).window }
        ensures { HasHappened self.old (Event.Held ticket) (Returned ticket decoded.set) self.new }
    {
        let window = self.tickets.window(ticket);
        self.phases.hold(window);
        self.tickets.answer(ticket, decoded);
        self.journal.note(Event::Held(ticket));
    }

    /// An open ticket that its window runs no longer is closed. The answer is the ticket that the
    /// window runs.
    pub fn find_stale(&mut self, ticket: u32) -> Option<u32>
        requires { MayBeStale (machine_of self.old) ticket }
        ensures current { result ≡ running_of
            ((machine_of self.old).phase ((machine_of self.old).claim ticket).window) }
        ensures happened { HasHappened self.old (Event.Stale ticket result) (Stale ticket)
            self.new }
    {
        let window = self.tickets.window(ticket);
        let current = self.phases.book().running(window);
        self.tickets.close(ticket);
        self.journal.note(Event::Stale(ticket, current));
        current
    }

    /// The guess of a window about a source was right: the window rests on the source's ticket.
    pub fn verify(&mut self, source: u32, window: u32)
        requires { MayHappen self.old (Verified source window) }
        ensures { HasHappened self.old (Event.Verified source window) (Verified source window)
            self.new }
    {
        self.phases.verify(source, window);
        self.journal.note(Event::Verified(source, window));
    }

    /// The guess of a window about a source was wrong: the window waits again.
    pub fn poison(&mut self, source: u32, window: u32)
        requires { MayHappen self.old (Poisoned source window) }
        ensures { HasHappened self.old (Event.Poisoned source window) (Poisoned source window)
            self.new }
    {
        self.phases.give_up(window);
        self.journal.note(Event::Poisoned(source, window));
    }

    /// A window rests on a ticket that no longer stands: it waits again.
    pub fn give_up(&mut self, window: u32)
        requires { MayHappen self.old (Dropped window) }
        ensures { HasHappened self.old (Event.Dropped window) (Dropped window) self.new }
    {
        self.phases.give_up(window);
        self.journal.note(Event::Dropped(window));
    }

    /// The result of a window's ticket is committed: the window keeps its edges.
    pub fn commit(&mut self, ticket: u32, window: u32)
        requires { MayHappen self.old (Committed ticket window) }
        ensures { HasHappened self.old (Event.Committed ticket window)
            (Committed ticket window) self.new }
    {
        let Some(answer) = self.tickets.answer_of(ticket) else {
            unreachable!();
        };
        answer.is_least();
        let ops = self.timeline.waiting_for(window);
        let whole = self.timeline.setting().graph();
        self.releases.take_window(ops, whole, &answer.kept);
        self.phases.commit(window);
        self.journal.note(Event::Committed(ticket, window));
    }

    /// An operation is released, with the bit that its raw values and the committed edges give.
    pub fn release(&mut self, op: u32) -> bool
        requires { CanRelease self.old.task (machine_of self.old) op }
        ensures may { MayHappen self.old (Released op result) }
        ensures happened { HasHappened self.old (Event.Released op result) (Released op result)
            self.new }
    {
        let spec = self.timeline.setting().operation(op);
        let bit = bit_of(spec, &self.raws, self.releases.frame());
        self.releases.release(op, bit);
        self.journal.note(Event::Released(op, bit));
        bit
    }
}

/// The exclusive or of the raw values of the operation's observables and of their flips.
fn bit_of(op: &OpSpec, raws: &Bits, frame: &Frame) -> bool
    requires raws { All (λ l. l < length raws.now) (labels_of op.now) }
    requires flips { All (λ l. l < length frame.now) (labels_of op.now) }
    ensures { result ≡ parity (λ l. slice_index_or raws.now l false ⊕ slice_index_or frame.now l
        false) (labels_of op.now) }
{
    let mut bit = false;
    for label in &op.labels {
        bit ^= value_of(label.0, raws, frame);
    }
    bit
}

/// The raw value of an observable, turned where it is flipped.
fn value_of(label: u16, raws: &Bits, frame: &Frame) -> bool
    requires raw { label < length raws.now }
    requires flip { label < length frame.now }
    ensures { result ≡ slice_index_or raws.now label false ⊕ slice_index_or frame.now label false }
{
    let observable = label as u32;
    raws.get(observable) ^ frame.flip(observable)
}
