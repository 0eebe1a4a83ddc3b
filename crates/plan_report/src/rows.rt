//! The numbers of a window.
ghost use Rattle.std.specs.Prelude.{◌≡◌, ◌<◌};
ghost use Rattle.window_model.specs.Windows.{window_count};
ghost use Rattle.plan_report.specs.Lines.{row_at};

use window_plan::Plan;

/// A window's number, its cell (a block of slots at the tile of a row and a column), how many
/// detectors and edges it has and how many edges it owns, and the last slot of its detectors.
#[derive(Clone, Copy)]
pub(crate) struct WindowRow {
    pub(crate) number: u32,
    pub(crate) block: u32,
    pub(crate) row: u32,
    pub(crate) col: u32,
    pub(crate) detectors: usize,
    pub(crate) edges: usize,
    pub(crate) owned: usize,
    pub(crate) last: u32,
}

/// The numbers of a plan's window.
pub(crate) fn row_at(plan: &Plan, window: u32) -> WindowRow
    requires { window < window_count plan.now.plan }
    ensures { result ≡ row_at plan.now.plan window }
{
    let cell = plan.cell(window);
    WindowRow {
        number: window,
        block: cell.slot,
        row: cell.tile_row,
        col: cell.tile_col,
        detectors: plan.detectors(window).len(),
        edges: plan.edges(window).len(),
        owned: plan.owned(window).len(),
        last: plan.last_slot(window),
    }
}
