//! What a walk of a few edges reaches from a window's cell.
ghost use Rattle.std.specs.Prelude.{◌≡◌, ◌<◌, ◌≤◌, ◌==◌, ◌&&◌, ◌||◌, ℕ, Bool, true, nat_le, List, OnOk, drop, length};
ghost use Rattle.std.specs.List.{list_any};
ghost use Rattle.graph_model.specs.Graph.{IsEdge, ends_at, ends_of, incident_edges, is_in};
ghost use Rattle.window_model.specs.Windows.{home_of, is_reached};
ghost use Rattle.window_plan.specs.Searches.{Grows, is_beside};

use crate::view::WindowView;
use detector_graph::Edge;
use number_sets::NumberSet;
use std::alloc::AllocError;

/// Adds a detector that is at home in this window or a later one.
fn reach(view: &WindowView, found: &mut NumberSet, vertex: u32) -> Result<(), AllocError>
    requires { (vertex < view.now.graph.vertices) × (vertex < found.old.bound) }
    ensures bound { found.new.bound ≡ found.old.bound }
    ensures grows { OnOk result
        (Grows (λ x. (vertex == x) && nat_le view.now.window (home_of view.now.homes x))
        found.old.members found.new.members) }
{
    if view.home(vertex) >= view.window() {
        found.add(vertex)?;
    }
    Ok(())
}

/// Adds the ends of an edge.
fn reach_ends(view: &WindowView, found: &mut NumberSet, edge: &Edge) -> Result<(), AllocError>
    requires { IsEdge view.now.graph.vertices edge.now
        × (found.old.bound ≡ view.now.graph.vertices) }
    ensures bound { found.new.bound ≡ found.old.bound }
    ensures grows { OnOk result
        (Grows (λ x. is_in (ends_of edge.now) x && nat_le view.now.window
        (home_of view.now.homes x)) found.old.members found.new.members) }
{
    reach(view, found, edge.first)?;
    if let Some(second) = edge.second {
        reach(view, found, second)?;
    }
    Ok(())
}

/// Adds the neighbours of a detector.
fn reach_beside(view: &WindowView, found: &mut NumberSet, vertex: u32) -> Result<(), AllocError>
    requires vertex { vertex < view.now.graph.vertices }
    requires bound { found.old.bound ≡ view.now.graph.vertices }
    ensures bound { found.new.bound ≡ found.old.bound }
    ensures grows { OnOk result
        (Grows (λ x. is_beside view.now.graph vertex x && nat_le view.now.window
        (home_of view.now.homes x)) found.old.members found.new.members) }
{
    for number in view.incident(vertex) {
        reach_ends(view, found, view.edge(*number))?;
    }
    Ok(())
}

/// Adds the neighbours of all members from this place on.
fn reach_level(view: &WindowView, found: &mut NumberSet, from: usize) -> Result<(), AllocError>
    requires bound { found.old.bound ≡ view.now.graph.vertices }
    requires from { from ≤ length found.old.members }
    ensures bound { found.new.bound ≡ found.old.bound }
    ensures grows { OnOk result
        (Grows (λ x. list_any (λ u. is_beside view.now.graph u x) (drop from found.old.members)
        && nat_le view.now.window (home_of view.now.homes x)) found.old.members found.new.members) }
{
    for place in from..found.members().len() {
        let vertex = found.members()[place];
        reach_beside(view, found, vertex)?;
    }
    Ok(())
}

/// Adds to the detectors of a window's cell what a walk of at most `buffer` edges reaches from
/// them,
/// through homes from the window on.
pub(crate) fn reach_all(
    view: &WindowView,
    buffer: u32,
    found: &mut NumberSet,
) -> Result<(), AllocError>
    requires bound { found.old.bound ≡ view.now.graph.vertices }
    requires cell { (x : ℕ) → x < view.now.graph.vertices →
        is_in found.old.members x ≡ (home_of view.now.homes x == view.now.window) }
    ensures bound { found.new.bound ≡ found.old.bound }
    ensures reached { OnOk result ((x : ℕ) → x < view.now.graph.vertices →
        is_in found.new.members x ≡ is_reached view.now.graph view.now.homes view.now.window buffer
        x) }
{
    view.is_view();
    let mut from = 0;
    for level in 0..buffer {
        let _ = level;
        let to = found.members().len();
        if from == to {
            return Ok(());
        }
        reach_level(view, found, from)?;
        from = to;
    }
    Ok(())
}
