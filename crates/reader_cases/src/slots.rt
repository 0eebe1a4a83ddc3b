//! How the slots of a timetable are written.
ghost use Rattle.std.specs.Prelude.{◌<◌, length};

use std::alloc::AllocError;
use timetable::Timetable;

/// Writes for each slot how many preparations, readings, splits, lives and merges it has, and
/// whether it is quiet.
pub(crate) fn add_slots(text: &mut String, times: &Timetable) -> Result<(), AllocError> {
    for slot in 0..times.slots() {
        add_slot(text, times, slot)?;
    }
    Ok(())
}

fn add_slot(text: &mut String, times: &Timetable, slot: u32) -> Result<(), AllocError>
    requires { slot < length times.now.inits }
{
    write!(text, "slot {slot} inits {}", times.inits(slot).len())?;
    write!(text, " reads {}", times.reads(slot).len())?;
    write!(text, " splits {}", times.splits(slot).len())?;
    write!(text, " alive {}", times.alive(slot).len())?;
    write!(text, " merges {}", times.merges(slot).len())?;
    writeln!(text, "{}", if times.is_quiet(slot) { " quiet" } else { "" })
}
