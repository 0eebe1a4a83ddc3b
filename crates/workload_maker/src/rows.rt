//! The rows of an input.
ghost use Rattle.std.specs.Prelude.{◌≡◌, All, Contains, IfOk, map};
ghost use Rattle.error_map.specs.Seen.{mechanism_of, mechanisms_of};
ghost use Rattle.measure_map.specs.Placed.{map_of};
ghost use Rattle.surface_model.specs.Errors.{mechanisms};
ghost use Rattle.workload_maker.specs.Inputs.{rows_of};
ghost use Rattle.workload_maker.specs.Turns.{blank_row};

use crate::turns::turn_all;
use detector_graph::Bits;
use error_map::{Mechanism, flips};
use measure_map::MeasureMap;
use schedule_rules::Program;
use std::alloc::{AllocError, Global};

/// A row of zeros for each slot.
fn blank_rows(alloc: Global, measured: &MeasureMap) -> Result<Vec<Bits>, AllocError>
    ensures { IfOk result (λ rows. rows.items ≡ map blank_row measured.now.lines) }
{
    let mut rows = Vec::new(alloc);
    for slot in 0..measured.slots() {
        rows.push(Bits::zeros(alloc, measured.width(slot))?)?;
    }
    Ok(rows)
}

/// The rows with these errors, which are some of the program's.
pub(crate) fn rows_with(
    alloc: Global,
    program: &Program,
    map: &MeasureMap,
    errors: &[Mechanism],
) -> Result<Vec<Bits>, AllocError>
    requires made { map.now ≡ map_of program.now }
    requires known { All (λ e. Contains (mechanisms program.now) (mechanism_of e)) errors.now }
    ensures { IfOk result (λ rows. rows.items ≡ rows_of program.now (mechanisms_of errors.now)) }
{
    let mut rows = blank_rows(alloc, map)?;
    for error in errors {
        let places = flips(alloc, program, map, *error)?;
        turn_all(&mut rows, &places);
    }
    Ok(rows)
}
