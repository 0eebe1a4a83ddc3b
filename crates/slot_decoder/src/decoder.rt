//! The decoder, slot by slot.
ghost use Rattle.std.specs.Prelude.{◌≡◌, ◌≤◌, ◌<◌, [], All, IfOk, length};
ghost use Rattle.window_model.specs.Decoder.{Syndrome};
ghost use Rattle.window_model.specs.Progress.{Fits, IsBeginning, IsComplete, IsProgress};
ghost use Rattle.window_model.specs.Speculation.{Agrees};
ghost use Rattle.window_setting.specs.Settings.{IsSetting};
ghost use Rattle.window_setting.specs.Slots.{at_slot, detector_slots};
ghost use Rattle.core_state.specs.States.{machine_of};
ghost use Rattle.slot_decoder.specs.Answers.{HasComeToRest};
ghost use Rattle.slot_decoder.specs.Histories.{AreAllGuessed, IsHistoryOf};
ghost use Rattle.slot_decoder.specs.Slots.{IsArrival, IsAtRest, releases_in, view_of};

use crate::answers::{answer_all, releases_of};
use crate::turns::drive;
use detector_graph::{Folded, Solver};
use predictor::Predictor;
use std::alloc::{AllocError, Global};
use std::marker::Model;
use window_core::Core;
use window_setting::Setting;

/// The speculative decoder on one thread: as a slot arrives, all is decoded that the slots so far
/// allow, and each problem is solved as soon as its window is claimed. So nothing runs between
/// slots.
pub struct SlotDecoder {
    core: Core,
    /// The operations that are released, with their bits, in the order of their releases.
    releases: Vec<(u32, bool)>,
}

impl Drop for SlotDecoder {
    fn drop(self) {
        let SlotDecoder {
            core: _,
            releases: _,
        } = self;
    }
}

impl Model for SlotDecoder {
    ghost use Rattle.slot_decoder.specs.Histories.{DecoderView};
    ghost use Rattle.slot_decoder.specs.Slots.{IsAtRest, view_of};

    ghost Value = { DecoderView };

    ghost view = { λ d. view_of d.core };

    ghost invariant = { λ d. IsAtRest d.core d.releases.items };
}

impl SlotDecoder {
    /// Nothing has arrived. A window may be given up so many times and still be guessed at again.
    ///
    /// It costs time in proportion to the numbers of detectors, observables and slots, to windows
    /// times operations, and to what the windows hold for each claim that may come.
    pub fn start(alloc: Global, setting: Setting, retries: u32) -> Result<SlotDecoder, AllocError>
        requires { retries ≤ 8 }
        ensures begun { IfOk result (λ d. IsBeginning setting d.progress) }
        ensures retries { IfOk result (λ d. d.retries ≡ retries) }
        ensures none { IfOk result (λ d. d.events ≡ []) }
    {
        let releases = Vec::with_capacity(alloc, setting.operation_count() as usize)?;
        let core = Core::start(alloc, setting, retries)?;
        core.is_core();
        Ok(SlotDecoder { core, releases })
    }

    /// The decoder of a core at which others worked. Each ticket that was claimed and has no answer
    /// is solved, and then all turns are made that can be, as the predictor guesses.
    ///
    /// An error is want of memory. The cost is that of the problems that are solved and of the
    /// turns, and a look at all that happened.
    pub fn settle<Q: Predictor, S: Solver>(
        alloc: Global,
        core: Core,
        predictor: &Q,
        solver: &mut S,
    ) -> Result<SlotDecoder, AllocError>
        ensures come { IfOk result (HasComeToRest core) }
        ensures guessed { IfOk result (λ d. AreAllGuessed (Q.may_guess predictor.now) (view_of core)
            → AreAllGuessed (Q.may_guess predictor.now) d) }
    {
        let mut core = core;
        answer_all(alloc, &mut core, solver)?;
        core.is_core();
        let mut releases = releases_of(alloc, core.journal())?;
        drive(alloc, &mut core, predictor, solver, &mut releases)?;
        core.is_core();
        Ok(SlotDecoder { core, releases })
    }

    /// The next slot arrives, with a value for each of its detectors and a raw value for each of
    /// its observables, in the order of their numbers. Then all turns are made that can be, each
    /// guess as the predictor makes it, and the problem of each claim is solved at once: so each
    /// window is committed that can be, and each operation released.
    ///
    /// The decoder is handed on; an error, which is want of memory, ends it. The cost is that of
    /// the slot, of the turns and of the problems that are solved.
    pub fn arrive<Q: Predictor, S: Solver>(
        self,
        alloc: Global,
        predictor: &Q,
        solver: &mut S,
        folded: &Folded,
    ) -> Result<SlotDecoder, AllocError>
        requires slot { folded.now.slot ≡ self.progress.arrived }
        requires in_range { self.progress.arrived ≤ self.progress.task.last_slot }
        requires values { length folded.now.defects
            ≡ length (at_slot (detector_slots self.progress.task) self.progress.arrived) }
        requires raws { length folded.now.raws
            ≡ length (at_slot self.progress.task.raw_slots self.progress.arrived) }
        ensures arrival { IfOk result (λ d. IsArrival self.progress folded.now.defects
            folded.now.raws d.progress) }
        ensures retries { IfOk result (λ d. d.retries ≡ self.retries) }
        ensures guessed { IfOk result (λ d. AreAllGuessed (Q.may_guess predictor.now) self →
            AreAllGuessed (Q.may_guess predictor.now) d) }
    {
        let SlotDecoder {
            mut core,
            mut releases,
        } = self;
        core.is_core();
        core.arrive(folded);
        drive(alloc, &mut core, predictor, solver, &mut releases)?;
        core.is_core();
        Ok(SlotDecoder { core, releases })
    }

    /// What always holds: the steps are a settled run of the decoder that never guesses, for every
    /// syndrome that has the values that have arrived.
    pub fn is_progress(&self)
        ensures setting { IsSetting self.now.progress.task }
        ensures progress { IsProgress self.now.progress }
    {
        self.core.is_core();
    }

    /// What holds once every slot has arrived: each window is committed and each operation
    /// released, and the committed edges explain the values.
    pub fn is_complete(&self)
        ensures { IsComplete self.now.progress }
    {
        self.is_progress();
    }

    /// What always holds of what happened: each turn was the first that could be made, each ticket
    /// has had one answer, and the steps are what shows of it.
    pub fn is_history(&self)
        ensures { IsHistoryOf self.now }
    {
        self.core.is_core();
    }

    /// The operations that are released, with their bits, in the order of their releases.
    pub fn releases(&self) -> &[(u32, bool)]
        ensures value { result.now ≡ releases_in self.now.progress.steps }
        ensures in_range { All (λ r. r.0 < length self.now.progress.task.operations) result.now }
    {
        self.core.is_core();
        &self.releases
    }

    /// The core, at rest.
    pub fn core(&self) -> &Core
        ensures seen { view_of result.now ≡ self.now }
        ensures at_rest { IsAtRest result.now (releases_in self.now.progress.steps) }
        ensures agrees { (s : Syndrome) → Fits s self.now.progress →
            Agrees result.now.task (machine_of result.now) s }
    {
        self.core.is_core();
        &self.core
    }
}
