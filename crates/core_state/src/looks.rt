//! What is seen of the state.
ghost use Rattle.std.specs.Prelude.{◌≡◌, ◌<◌, ◌≤◌, ◌+◌, ◌^◌, All, IfSome, count_by, length, option_map, Some};
ghost use Rattle.graph_model.specs.Graph.{flip_of};
ghost use Rattle.window_model.specs.Decoder.{committed_edges, owned_part};
ghost use Rattle.window_model.specs.Speculation.{decoder_of, held_by, result_of, standing};
ghost use Rattle.window_model.specs.Parts.{part_of};
ghost use Rattle.window_model.specs.SpeculationLaws.{is_claim_of};
ghost use Rattle.window_model.specs.Windows.{window_count};
ghost use Rattle.cascade_laws.specs.Store.{bits_of};
ghost use Rattle.cascade_laws.specs.Turns.{is_done};
ghost use Rattle.core_journal.specs.Entries.{links_of};
ghost use Rattle.core_store.specs.Tickets.{links_in};
ghost use Rattle.core_state.specs.States.{HasBits, events_of, machine_of, running_of};

use crate::{Claim, CoreState, Event};
use detector_graph::{Bits, Decoded, EdgeSet};
use window_setting::Setting;

impl CoreState {
    /// What is decoded.
    pub fn setting(&self) -> &Setting
        ensures { result.now ≡ self.now.task }
    {
        self.timeline.setting()
    }

    /// How often a window may be given up and still be guessed at again.
    pub fn retries(&self) -> u32
        ensures { result ≡ self.now.retries }
    {
        self.retries
    }

    /// What happened so far, in order.
    pub fn journal(&self) -> &[Event]
        ensures value { result.now ≡ self.now.journal }
        ensures few { length self.now.journal < 2 ^ 32 }
    {
        self.journal.entries()
    }

    /// How many slots have arrived.
    pub fn arrived(&self) -> u32
        ensures { result ≡ (machine_of self.now).arrived }
    {
        self.arrived
    }

    /// The values of the detectors, of which those of slots that have arrived count.
    pub fn values(&self) -> &Bits
        ensures { result.now ≡ self.now.kept.values }
    {
        &self.values
    }

    /// The raw values of the observables, of which those of slots that have arrived count.
    pub fn raws(&self) -> &Bits
        ensures { result.now ≡ self.now.kept.raws }
    {
        &self.raws
    }

    /// How many tickets were taken.
    pub fn tickets(&self) -> u32
        ensures { result ≡ (machine_of self.now).tickets }
    {
        self.phases.book().tickets()
    }

    /// A ticket's claim, as it was made: it has a bit for each place of each dependency.
    pub fn claim_of(&self, ticket: u32) -> &Claim
        requires { ticket < (machine_of self.now).tickets }
        ensures window { result.now.window ≡ ((machine_of self.now).claim ticket).window }
        ensures links { links_in self.now.task.plan result.now ≡ links_of self.now.kept ticket }
        ensures bits { result.now.bits ≡ bits_of ((machine_of self.now).claim ticket).links }
        ensures each_place { HasBits self.now.task result.now }
    {
        self.tickets.claim(ticket)
    }

    /// The window of a ticket.
    pub fn window_of(&self, ticket: u32) -> u32
        requires { ticket < (machine_of self.now).tickets }
        ensures { result ≡ ((machine_of self.now).claim ticket).window }
    {
        self.tickets.window(ticket)
    }

    /// The answer of a ticket, once it has returned.
    pub fn answer_of(&self, ticket: u32) -> Option<&Decoded>
        requires { ticket < (machine_of self.now).tickets }
        ensures set { option_map (λ d. d.now.set) result
            ≡ ((machine_of self.now).claim ticket).result }
        ensures part { IfSome result (λ d. d.now.problem.part ≡ part_of self.now.task.graph
            self.now.task.plan ((machine_of self.now).claim ticket).window) }
    {
        self.tickets.answer_of(ticket)
    }

    /// The edges that a window commits of the result of its ticket, which is held or committed.
    pub fn kept_of(&self, window: u32, ticket: u32) -> &EdgeSet
        requires { standing ((machine_of self.now).phase window) ≡ Some ticket }
        ensures value { result.now
            ≡ owned_part self.now.task window (result_of (machine_of self.now) ticket) }
        ensures edges { All (λ e. e < length self.now.task.graph.edges) result.now }
    {
        let Some(answer) = self.tickets.answer_of(ticket) else {
            unreachable!();
        };
        answer.is_least();
        &answer.kept
    }

    /// Whether a ticket has returned or was found stale.
    pub fn is_closed(&self, ticket: u32) -> bool
        requires { ticket < (machine_of self.now).tickets }
        ensures { result ≡ ((machine_of self.now).claim ticket).closed }
    {
        self.tickets.is_closed(ticket)
    }

    /// The ticket of a window whose result is held or committed.
    pub fn standing(&self, window: u32) -> Option<u32>
        ensures { result ≡ standing ((machine_of self.now).phase window) }
    {
        self.phases.book().standing(window)
    }

    /// The ticket that a window runs.
    pub fn running_in(&self, window: u32) -> Option<u32>
        requires { window < window_count self.now.task.plan }
        ensures { result ≡ running_of ((machine_of self.now).phase window) }
    {
        self.phases.book().running(window)
    }

    /// The ticket of a window that isn't waiting.
    #[tactic(auto, using(crate::proofs::Told::runs_held, crate::proofs::Told::stands_held))]
    pub fn live_of(&self, window: u32) -> Option<u32>
        requires { window < window_count self.now.task.plan }
        ensures { result ≡ held_by ((machine_of self.now).phase window) }
    {
        let running = self.running_in(window);
        if running.is_some() {
            return running;
        }
        self.standing(window)
    }

    /// Whether a window is committed.
    pub fn is_done(&self, window: u32) -> bool
        requires { window < window_count self.now.task.plan }
        ensures { result ≡ is_done ((machine_of self.now).phase window) }
    {
        self.phases.is_done(window)
    }

    /// How often a window was claimed.
    pub fn claims(&self, window: u32) -> u32
        requires { window < window_count self.now.task.plan }
        ensures value { result ≡ count_by (is_claim_of window) (events_of self.now) }
        ensures few { result ≤ self.now.retries + 1 }
    {
        self.phases.book().taken(window)
    }

    /// The bit of an operation, once it is released.
    pub fn released(&self, op: u32) -> Option<bool>
        requires { op < length self.now.task.operations }
        ensures { result ≡ (machine_of self.now).released op }
    {
        self.releases.released(op)
    }

    /// Whether the committed edges flip an observable.
    pub fn flip(&self, label: u32) -> bool
        requires { label < length self.now.task.raw_slots }
        ensures { result ≡ flip_of self.now.task.graph
            (committed_edges self.now.task (decoder_of self.now.task (machine_of self.now))) label }
    {
        self.releases.frame().flip(label)
    }
}
