//! How the items of a schedule are written.

use case_lines::{Letters, Listed};
use schedule_reader::{CondItem, InitItem, MergeItem, PatchItem, ReadItem, Schedule};
use std::alloc::AllocError;

/// Writes what a schedule holds, each item with the number of its line.
pub(crate) fn add_items(text: &mut String, schedule: &Schedule) -> Result<(), AllocError> {
    let (distance, space, time) = (schedule.distance, schedule.space, schedule.time);
    writeln!(text, "distance {distance} weights {space} {time}")?;
    add_patches(text, &schedule.patches)?;
    add_inits(text, &schedule.inits)?;
    add_merges(text, &schedule.merges)?;
    add_readings(text, &schedule.reads)?;
    add_conds(text, &schedule.conds)?;
    writeln!(text, "line {} rounds", schedule.rounds_line)
}

fn add_patches(text: &mut String, patches: &[PatchItem]) -> Result<(), AllocError> {
    for patch in patches {
        write!(
            text,
            "line {} patch {}",
            patch.line,
            Letters(patch.name.as_bytes())
        )?;
        writeln!(text, " tile ({},{})", patch.tile_row, patch.tile_col)?;
    }
    Ok(())
}

fn add_inits(text: &mut String, inits: &[InitItem]) -> Result<(), AllocError> {
    for init in inits {
        write!(text, "line {} init patch {}", init.line, init.patch)?;
        writeln!(text, " basis {:?} slot {}", init.basis, init.slot)?;
    }
    Ok(())
}

fn add_merges(text: &mut String, merges: &[MergeItem]) -> Result<(), AllocError> {
    for merge in merges {
        write!(
            text,
            "line {} merge {}",
            merge.line,
            Letters(merge.label.as_bytes())
        )?;
        write!(text, " patches {} {}", merge.one, merge.two)?;
        writeln!(text, " slot {} count {}", merge.slot, merge.count)?;
    }
    Ok(())
}

fn add_readings(text: &mut String, readings: &[ReadItem]) -> Result<(), AllocError> {
    for reading in readings {
        let (line, label) = (reading.line, Letters(reading.label.as_bytes()));
        write!(text, "line {line} read {label} patch {}", reading.patch)?;
        writeln!(text, " basis {:?} slot {}", reading.basis, reading.slot)?;
    }
    Ok(())
}

fn add_conds(text: &mut String, conds: &[CondItem]) -> Result<(), AllocError> {
    for cond in conds {
        write!(
            text,
            "line {} cond {}",
            cond.line,
            Letters(cond.label.as_bytes())
        )?;
        write!(text, " patch {} slot {}", cond.patch, cond.slot)?;
        writeln!(text, " observables{}", Listed(cond.labels.as_slice()))?;
    }
    Ok(())
}
