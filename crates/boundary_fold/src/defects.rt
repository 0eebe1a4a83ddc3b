//! The defects that a window is left with.
ghost use Rattle.std.specs.Prelude.{◌≡◌, ◌<◌, false, All, length, map, slice_index_or};
ghost use Rattle.window_model.specs.Windows.{window_at, window_count};
ghost use Rattle.window_plan.specs.Placed.{places_at};
ghost use Rattle.boundary_fold.specs.Folds.{defect_at};

use crate::turns::turn_places;
use detector_graph::Bits;
use window_plan::Plan;

/// Writes the values of these detectors.
fn copy_values(detectors: &[u32], values: &Bits, into: &mut Bits)
    requires values { All (λ v. v < length values.now) detectors.now }
    requires long { length into.old ≡ length detectors.now }
    ensures { into.new ≡ map (λ v. slice_index_or values.now v false) detectors.now }
{
    for at in 0..into.len() {
        into.set(at, values.get(detectors[at as usize]));
    }
}

/// Writes the defects that a window is to explain: for each of its detectors the value, turned once
/// for each dependency whose link has a true bit at it.
///
/// `values` has a place for each detector of the graph, `links` a list for each dependency with a
/// bit for each of the places that the two windows share, and `into` a place for each of the
/// window's detectors.
pub fn incoming(plan: &Plan, window: u32, values: &Bits, links: &[Bits], into: &mut Bits)
    requires window { window < window_count plan.now.plan }
    requires values { All (λ v. v < length values.now) (window_at plan.now.plan window).detectors }
    requires links { map length links.now ≡ map (λ x. length (places_at plan.now x window))
        (window_at plan.now.plan window).deps }
    requires into { length into.old ≡ length (window_at plan.now.plan window).detectors }
    ensures { into.new ≡ map (defect_at plan.now window values.now links.now)
        (window_at plan.now.plan window).detectors }
{
    plan.is_plan();
    let detectors = plan.detectors(window);
    copy_values(detectors, values, into);
    let dependencies = plan.deps(window);
    for at in 0..links.len() {
        let places = plan.places(dependencies[at], window);
        turn_places(detectors, places, &links[at], into);
    }
}
