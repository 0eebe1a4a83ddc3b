//! The program that a text gives.
ghost use Rattle.std.specs.Prelude.{◌≡◌, IfErr, IfOk, List, OnOk};
ghost use Rattle.surface_model.specs.Parse.{schedule_of};
ghost use Rattle.run_header.specs.declared.sizes.PlanSizes.{PlanSizes};
ghost use Rattle.run_header.specs.Openings.{IsHeader, IsNoSchedule};
ghost use Rattle.run_header.specs.Refusals.{IsSound};

use crate::OpeningError;
use schedule_reader::read;
use schedule_rules::{Program, check};
use std::alloc::Global;

/// Reads a header's text and checks its schedule.
pub(crate) fn program(alloc: Global, text: &[u8]) -> Result<Program, OpeningError>
    requires { IsHeader text.now }
    ensures program { IfOk result (λ p. p ≡ schedule_of text.now) }
    ensures sound { OnOk result (IsSound text.now) }
    ensures refused { IfErr result (λ error. (sizes : PlanSizes) →
        IsNoSchedule sizes text.now error) }
{
    let schedule = read(alloc, text)?;
    let program = check(schedule)?;
    Ok(program)
}
