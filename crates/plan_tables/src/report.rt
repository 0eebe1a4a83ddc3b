//! How plans are written.
ghost use Rattle.std.specs.Prelude.{◌<◌};
ghost use Rattle.window_model.specs.Windows.{window_count};

use case_lines::Listed;
use std::alloc::AllocError;
use window_plan::{Plan, PlanError};

/// Writes why there is no plan.
pub(crate) fn add_refusal(text: &mut String, error: PlanError) -> Result<(), AllocError> {
    match error {
        PlanError::TooManyWindows { windows } => writeln!(text, "refused windows {windows}"),
        PlanError::TooManyLinks { links } => writeln!(text, "refused links {links}"),
        PlanError::WindowTooLarge { window, detectors } => {
            writeln!(text, "refused window {window} detectors {detectors}")
        }
        PlanError::Memory => Err(AllocError),
    }
}

/// Writes how many windows and dependencies there are.
pub(crate) fn add_sizes(text: &mut String, plan: &Plan) -> Result<(), AllocError> {
    let mut links: usize = 0;
    for window in 0..plan.windows() {
        links = links.wrapping_add(plan.deps(window).len());
    }
    writeln!(text, "plan windows {} links {links}", plan.windows())
}

/// Writes what each window holds.
pub(crate) fn add_windows(text: &mut String, plan: &Plan) -> Result<(), AllocError> {
    for window in 0..plan.windows() {
        add_window(text, plan, window)?;
        add_places(text, plan, window)?;
    }
    Ok(())
}

/// Writes how much a window holds.
fn add_window(text: &mut String, plan: &Plan, window: u32) -> Result<(), AllocError>
    requires { window < window_count plan.now.plan }
{
    let cell = plan.cell(window);
    write!(text, "window {window} block {}", cell.slot)?;
    write!(text, " tile ({},{})", cell.tile_row, cell.tile_col)?;
    write!(text, " detectors {}", plan.detectors(window).len())?;
    write!(text, " edges {}", plan.edges(window).len())?;
    write!(text, " owned {}", plan.owned(window).len())?;
    writeln!(text, " last {}", plan.last_slot(window))
}

/// Writes a window's dependencies, each with the places of the two.
fn add_places(text: &mut String, plan: &Plan, window: u32) -> Result<(), AllocError>
    requires { window < window_count plan.now.plan }
{
    for dependency in plan.deps(window) {
        let places = Listed(plan.places(*dependency, window));
        writeln!(text, "window {window} after {dependency} at{places}")?;
    }
    Ok(())
}
