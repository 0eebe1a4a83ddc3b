//! A schedule opened.
ghost use Rattle.std.specs.Prelude.{◌≡◌, IfErr, IfOk, IsErrOf, List, ℕ};
ghost use Rattle.port_io.specs.Port.{Rose};
ghost use Rattle.port_io.specs.Traffic.{KeepsCounts, Moves, taken};
ghost use Rattle.run_header.specs.Openings.{IsHeader, IsNoSchedule, IsNotOpened, IsOpened};
ghost use Rattle.run_header.specs.Refusals.{AreInRange};

use crate::program::program;
use crate::setting::setting;
use crate::{OpeningError, PlanSizes};
use measure_map::MeasureMap;
use port_io::Port;
use schedule_rules::Program;
use std::alloc::Global;
use syndrome_source::header;
use window_setting::Setting;

/// A schedule that is decoded: its program, what is measured, and what the decoder needs.
#[derive(Drop)]
pub struct Opening {
    pub program: Program,
    pub map: MeasureMap,
    pub setting: Setting,
}

/// Takes the header of an input and opens its schedule, under a sliding plan of these sizes.
///
/// The bytes up to the end of the line `rounds` are taken, or 1,048,577 bytes where it doesn't end
/// earlier, and no more. A schedule is refused by the first of its faults: that of a line, then a
/// rule of the whole that it breaks, then more than 1,000,000 detectors, then a limit that its plan
/// goes beyond, and then a condition that comes too early.
///
/// # Errors
///
/// `Refused` after the whole header; `Ended` where the input ends before the header does;
/// `ReadFault` where the port fails; `Memory` where memory is wanting.
pub fn open_schedule<P: Port>(
    alloc: Global,
    port: &mut P,
    sizes: PlanSizes,
) -> Result<Opening, OpeningError>
    requires { AreInRange sizes }
    ensures opened { IfOk result (λ o. (text : List ℕ)
        × Moves P.Port port.old port.new (taken text) × IsHeader text
        × IsOpened sizes text o.program o.map o.setting) }
    ensures refused { IfErr result (λ error. (bytes : List ℕ)
        × Moves P.Port port.old port.new (taken bytes)
        × IsNotOpened sizes bytes (P.left port.new) error) }
    ensures fault { IsErrOf result OpeningError.ReadFault →
        Rose (P.read_faults port.old) (P.read_faults port.new) }
    ensures counts { KeepsCounts P.Port port.old port.new }
{
    let text = header(alloc, port)?;
    opening_of(alloc, &text, sizes)
}

/// Opens the schedule of a header's text.
fn opening_of(alloc: Global, text: &[u8], sizes: PlanSizes) -> Result<Opening, OpeningError>
    requires header { IsHeader text.now }
    requires sizes { AreInRange sizes }
    ensures opened { IfOk result (λ o. IsOpened sizes text.now o.program o.map o.setting) }
    ensures refused { IfErr result (IsNoSchedule sizes text.now) }
{
    let program = program(alloc, text)?;
    program.is_accepted();
    let map = MeasureMap::new(alloc, &program)?;
    let setting = setting(alloc, &program, &map, sizes)?;
    Ok(Opening {
        program,
        map,
        setting,
    })
}
