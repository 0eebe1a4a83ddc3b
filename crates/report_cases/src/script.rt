//! Scripts on one patch over three slots, with windows of one slot.
ghost use Rattle.std.specs.Prelude.{◌<◌};
ghost use Rattle.run_header.specs.Refusals.{AreInRange};

use crate::failure::Failure;
use detector_graph::{Bits, Folded};
use port_io::MemPort;
use predictor::Predictor;
use replay_model::ScriptLine;
use run_header::{Opening, PlanSizes, open_schedule};
use script_run::{finish, turn};
use std::alloc::{AllocError, Global};
use window_core::Core;
use window_decode::Exact;
use window_plan::PlanKind;

const HEADER: &[u8] =
    b"swiper 1\ndistance 3\nweights 3 2\npatch a 0 0\ninit a z 0\nread ra a z 2\nrounds\n";

/// The values that a slot brings.
#[derive(Clone, Copy)]
pub(crate) struct Brought {
    pub(crate) detectors: u32,
    /// The detector that is a defect, by its place in the slot.
    pub(crate) defect: Option<u32>,
    pub(crate) observables: u32,
}

/// A core of the patch.
pub(crate) fn opened(alloc: Global) -> Result<Core, Failure> {
    let input = Vec::from_slice(alloc, HEADER)?;
    let mut port = MemPort::new(alloc, input, 0, Vec::new(alloc), Vec::new(alloc))?;
    let Ok(opening) = open_schedule(alloc, &mut port, small_windows()) else {
        return Err(Failure::Schedule);
    };
    let Opening {
        program: _,
        map: _,
        setting,
    } = opening;
    Ok(Core::start(alloc, setting, 1)?)
}

/// Windows of one slot, without a buffer.
fn small_windows() -> PlanSizes
    ensures { AreInRange result }
{
    PlanSizes {
        kind: PlanKind::Sliding,
        commit: Some(1),
        buffer: Some(0),
    }
}

/// Does these lines, where it may, on slots that bring these values.
pub(crate) fn play<Q: Predictor>(
    alloc: Global,
    core: &mut Core,
    predictor: &Q,
    slots: &[Brought],
    lines: &[ScriptLine],
) -> Result<(), AllocError> {
    for line in lines {
        match *line {
            ScriptLine::Arrive => arrive(alloc, core, slots)?,
            ScriptLine::Turn => {
                turn(core, predictor);
            }
            ScriptLine::Finish(ticket) => {
                finish(alloc, core, &mut Exact, ticket)?;
            }
        }
    }
    Ok(())
}

/// The next slot arrives, if it may.
fn arrive(alloc: Global, core: &mut Core, slots: &[Brought]) -> Result<(), AllocError> {
    let slot = core.arrived();
    let Some(brought) = slots.get(slot as usize) else {
        return Ok(());
    };
    let folded = folded(alloc, slot, *brought)?;
    arrive_if_may(core, &folded);
    Ok(())
}

/// A slot arrives, if it may.
#[tactic(auto, using(crate::proofs::Arriving::may_happen))]
fn arrive_if_may(core: &mut Core, folded: &Folded) {
    if core.may_arrive(folded.slot) && core.fits_slot(folded) {
        core.arrive(folded);
    }
}

/// The values of a slot. The raw values of its observables are 0.
fn folded(alloc: Global, slot: u32, brought: Brought) -> Result<Folded, AllocError> {
    let mut defects = Bits::zeros(alloc, brought.detectors)?;
    if let Some(at) = brought.defect {
        if at < brought.detectors {
            defects.set(at, true);
        }
    }
    let raws = Bits::zeros(alloc, brought.observables)?;
    Ok(Folded {
        slot,
        defects,
        raws,
    })
}
