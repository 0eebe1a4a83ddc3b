//! How a plan is made.
ghost use Rattle.std.specs.Prelude.{◌≡◌, ◌≤◌, IfErr, IfOk, None, length};
ghost use Rattle.window_plan.specs.Kinds.{order_of};
ghost use Rattle.window_plan.specs.Layouts.{IsBeyond};
ghost use Rattle.window_plan.specs.Limits.{most_links};
ghost use Rattle.window_plan.specs.Placed.{IsPlacedPlan, IsRefusal};

use crate::cells::find_homes;
use crate::contents::fill;
use crate::layout::Layout;
use crate::survey::{Survey, look_at_all};
use crate::{Plan, PlanError, PlanKind};
use detector_graph::{Graph, Tag};
use std::alloc::Global;

/// The windows that a plan may have.
const MOST_WINDOWS: usize = 4_096;

/// The pairs of a window and a dependency that a plan may have.
const MOST_LINKS: u64 = 65_536;

/// The windows of a graph whose detectors have these tags, in blocks of `commit` slots, each
/// with what a walk of at most `buffer` edges reaches from its cell.
///
/// Refused is what goes beyond a limit: the number of windows is looked at first, then the number
/// of dependencies, then the windows' sizes.
pub fn plan(
    alloc: Global,
    graph: &Graph,
    tags: &[Tag],
    kind: PlanKind,
    commit: u32,
    buffer: u32,
) -> Result<Plan, PlanError>
    requires tags { length tags.now ≡ graph.now.vertices }
    requires commit { 1 ≤ commit }
    ensures ok { IfOk result (λ p. IsPlacedPlan graph.now tags.now (order_of kind) commit buffer
        p) }
    ensures err { IfErr result (λ e. IsRefusal graph.now tags.now (order_of kind) commit buffer e) }
{
    graph.is_graph();
    let _vertices = graph.vertices();
    let found = find_homes(alloc, tags, kind, commit)?;
    let windows = found.cells.len();
    if windows > MOST_WINDOWS {
        return Err(PlanError::TooManyWindows {
            windows: windows as u64,
        });
    }
    let layout = Layout::new(alloc, graph, found.homes, windows as u32)?;
    let survey = look_at_all(alloc, graph, &layout, buffer)?;
    within_limits(&survey)?;
    let contents = fill(alloc, graph, tags, &layout, &survey)?;
    Ok(Plan {
        cells: found.cells,
        homes: layout.homes,
        detectors: survey.detectors,
        edges: contents.edges,
        owned: layout.owned,
        deps: survey.deps,
        lasts: contents.lasts,
        places: contents.places,
    })
}

/// Whether the windows keep to the limits. The number of their dependencies is looked at first.
fn within_limits(survey: &Survey) -> Result<(), PlanError>
    ensures links { IfOk result (λ _. survey.now.links ≤ most_links) }
    ensures larger { IfOk result (λ _. survey.now.larger ≡ None) }
    ensures err { IfErr result (λ e. IsBeyond survey.now.links survey.now.larger e) }
{
    if survey.links > MOST_LINKS {
        return Err(PlanError::TooManyLinks {
            links: survey.links,
        });
    }
    if let Some(large) = survey.larger {
        return Err(PlanError::WindowTooLarge {
            window: large.window,
            detectors: large.detectors,
        });
    }
    Ok(())
}
