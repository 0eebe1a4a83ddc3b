//! What a window gathers from its detectors and their edges. Each call looks at no others.
ghost use Rattle.std.specs.Prelude.{◌≡◌, ◌<◌, ◌≤◌, ◌==◌, ◌&&◌, ℕ, Bool, true, List, All, OnOk, length, map, nat_le, nat_lt, slice_index};
ghost use Rattle.std.specs.List.{list_any};
ghost use Rattle.graph_model.specs.Graph.{incident_edges, is_in};
ghost use Rattle.graph_model.specs.declared.Tag.{Tag as ModelTag};
ghost use Rattle.window_model.specs.Windows.{detectors_of, greatest, home_of, slot_of};
ghost use Rattle.window_plan.specs.Gathers.{border_by, deps_by, edges_by, has_owner, places_by};
ghost use Rattle.window_plan.specs.Searches.{Grows};

use crate::search::reach_all;
use crate::view::WindowView;
use detector_graph::Tag;
use number_sets::NumberSet;
use std::alloc::AllocError;

/// Finds the detectors of a window, ascending, from those of its cell. They are searched for in
/// `found`.
pub(crate) fn window_detectors(
    view: &WindowView,
    buffer: u32,
    cell: &[u32],
    found: &mut NumberSet,
    detectors: &mut Vec<u32>,
) -> Result<(), AllocError>
    requires bound { found.old.bound ≡ view.now.graph.vertices }
    requires below { All (λ x. x < view.now.graph.vertices) cell.now }
    requires cell { (x : ℕ) → x < view.now.graph.vertices →
        is_in cell.now x ≡ (home_of view.now.homes x == view.now.window) }
    ensures bound { found.new.bound ≡ found.old.bound }
    ensures detectors { OnOk result (detectors.new.items
        ≡ detectors_of view.now.graph view.now.homes buffer view.now.window) }
{
    found.clear();
    found.add_all(cell)?;
    reach_all(view, buffer, found)?;
    found.read_off(detectors)
}

/// Adds a window below this one.
fn add_lower(window: u32, deps: &mut NumberSet, owner: u32) -> Result<(), AllocError>
    requires { owner < window → owner < deps.old.bound }
    ensures bound { deps.new.bound ≡ deps.old.bound }
    ensures grows { OnOk result (Grows (λ x. (owner == x) && nat_lt x window) deps.old.members
        deps.new.members) }
{
    if owner < window {
        deps.add(owner)?;
    }
    Ok(())
}

/// Adds the lower owners of a detector's edges.
#[tactic(auto, using(crate::proofs::Levels::at_incident))]
fn add_owners(view: &WindowView, deps: &mut NumberSet, vertex: u32) -> Result<(), AllocError>
    requires vertex { vertex < view.now.graph.vertices }
    requires bound { view.now.window ≤ deps.old.bound }
    ensures bound { deps.new.bound ≡ deps.old.bound }
    ensures grows { OnOk result
        (Grows (λ x. has_owner view.now.graph view.now.owners vertex x && nat_lt x view.now.window)
        deps.old.members deps.new.members) }
{
    for number in view.incident(vertex) {
        add_lower(view.window(), deps, view.owner(*number))?;
    }
    Ok(())
}

/// Finds the windows below this one that own an edge at one of the detectors, ascending.
pub(crate) fn dependencies(
    view: &WindowView,
    detectors: &[u32],
    lower: &mut NumberSet,
    deps: &mut Vec<u32>,
) -> Result<(), AllocError>
    requires below { All (λ x. x < view.now.graph.vertices) detectors.now }
    requires bound { view.now.window ≤ lower.old.bound }
    ensures bound { lower.new.bound ≡ lower.old.bound }
    ensures deps { OnOk result (deps.new.items
        ≡ deps_by view.now.graph view.now.owners lower.old.bound view.now.window detectors.now) }
{
    lower.clear();
    for vertex in detectors {
        add_owners(view, lower, *vertex)?;
    }
    lower.read_off(deps)
}

/// Adds an edge that no lower window owns.
fn add_edge(view: &WindowView, edges: &mut NumberSet, edge: u32) -> Result<(), AllocError>
    requires { (edge < length view.now.graph.edges) × (edge < edges.old.bound) }
    ensures bound { edges.new.bound ≡ edges.old.bound }
    ensures grows { OnOk result
        (Grows (λ x. (edge == x) && nat_le view.now.window (slice_index view.now.owners x))
        edges.old.members edges.new.members) }
{
    if view.owner(edge) >= view.window() {
        edges.add(edge)?;
    }
    Ok(())
}

/// Adds a detector's edges that no lower window owns.
#[tactic(auto, using(crate::proofs::Levels::at_incident))]
fn add_edges(view: &WindowView, edges: &mut NumberSet, vertex: u32) -> Result<(), AllocError>
    requires vertex { vertex < view.now.graph.vertices }
    requires bound { edges.old.bound ≡ length view.now.graph.edges }
    ensures bound { edges.new.bound ≡ edges.old.bound }
    ensures grows { OnOk result
        (Grows (λ x. is_in (incident_edges view.now.graph vertex) x && nat_le view.now.window
        (slice_index view.now.owners x)) edges.old.members edges.new.members) }
{
    for number in view.incident(vertex) {
        add_edge(view, edges, *number)?;
    }
    Ok(())
}

/// Finds the edges at the detectors that no lower window owns, ascending.
pub(crate) fn window_edges(
    view: &WindowView,
    detectors: &[u32],
    touched: &mut NumberSet,
    edges: &mut Vec<u32>,
) -> Result<(), AllocError>
    requires below { All (λ x. x < view.now.graph.vertices) detectors.now }
    requires bound { touched.old.bound ≡ length view.now.graph.edges }
    ensures bound { touched.new.bound ≡ touched.old.bound }
    ensures edges { OnOk result (edges.new.items
        ≡ edges_by view.now.graph view.now.owners view.now.window detectors.now) }
{
    touched.clear();
    for vertex in detectors {
        add_edges(view, touched, *vertex)?;
    }
    touched.read_off(edges)
}

/// The greatest slot of the detectors.
pub(crate) fn last_slot(tags: &[Tag], detectors: &[u32]) -> u32
    requires { All (λ x. x < length tags.now) detectors.now }
    ensures { result ≡ greatest (map (slot_of tags.now) detectors.now) }
{
    let mut last = 0;
    for detector in detectors {
        last = tags[*detector as usize].slot.max(last);
    }
    last
}

/// Whether an edge at the detector is owned by a window below this one.
#[tactic(auto, using(crate::proofs::Levels::at_incident))]
fn is_border(view: &WindowView, vertex: u32) -> bool
    requires vertex { vertex < view.now.graph.vertices }
    ensures { result ≡ list_any (λ e. nat_lt (slice_index view.now.owners e) view.now.window)
        (incident_edges view.now.graph vertex) }
{
    for number in view.incident(vertex) {
        if view.owner(*number) < view.window() {
            return true;
        }
    }
    false
}

/// Whether an edge at the detector is owned by the dependency.
#[tactic(auto, using(crate::proofs::Levels::at_incident))]
fn is_place(view: &WindowView, dependency: u32, vertex: u32) -> bool
    requires vertex { vertex < view.now.graph.vertices }
    ensures { result ≡ has_owner view.now.graph view.now.owners vertex dependency }
{
    for number in view.incident(vertex) {
        if view.owner(*number) == dependency {
            return true;
        }
    }
    false
}

/// Finds the detectors with an edge that a lower window owns.
pub(crate) fn border_of(
    view: &WindowView,
    detectors: &[u32],
    border: &mut Vec<u32>,
) -> Result<(), AllocError>
    requires below { All (λ x. x < view.now.graph.vertices) detectors.now }
    ensures { OnOk result (border.new.items
        ≡ border_by view.now.graph view.now.owners view.now.window detectors.now) }
{
    border.clear();
    for vertex in detectors {
        if is_border(view, *vertex) {
            border.push(*vertex)?;
        }
    }
    Ok(())
}

/// Finds the detectors with an edge that the dependency owns.
pub(crate) fn places_of(
    view: &WindowView,
    dependency: u32,
    detectors: &[u32],
    places: &mut Vec<u32>,
) -> Result<(), AllocError>
    requires below { All (λ x. x < view.now.graph.vertices) detectors.now }
    ensures { OnOk result (places.new.items ≡ places_by view.now.graph view.now.owners dependency
        detectors.now) }
{
    places.clear();
    for vertex in detectors {
        if is_place(view, dependency, *vertex) {
            places.push(*vertex)?;
        }
    }
    Ok(())
}
