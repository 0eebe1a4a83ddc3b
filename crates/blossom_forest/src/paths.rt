//! Ways to the roots.
ghost use Rattle.std.specs.Prelude.{◌≡◌, ◌<◌, ◌≤◌, ◌+◌, ◌++◌, All, vec_len};
ghost use Rattle.std.specs.Vec.{vec_capacity};
ghost use Rattle.blossom_forest.specs.Trees.{EndAlike, base_tie, names, tie_up, way_up};

use crate::climb::top;
use crate::step::{Mark, Tie};
use crate::trees::Trees;
use blossom_nest::Nest;

/// From a set to the set above it in its tree; from a root to itself.
pub(crate) fn tie_up(trees: &Trees, set: u32) -> Tie
    requires { set < names trees.now.vertices }
    ensures tie { result ≡ tie_up trees.now set }
    ensures here { result.here < trees.now.vertices }
    ensures there { result.there < trees.now.vertices }
{
    match trees.mark(set) {
        Mark::Inner => trees.link(set),
        Mark::Outer => to_mate(trees, set),
        Mark::Away => to_mate(trees, set),
    }
}

/// From a set to the set that it is matched to; from a root to itself.
fn to_mate(trees: &Trees, set: u32) -> Tie
    requires { set < names trees.now.vertices }
    ensures tie { result ≡ base_tie trees.now set }
    ensures here { result.here < trees.now.vertices }
    ensures there { result.there < trees.now.vertices }
{
    let base = trees.base(set);
    Tie {
        here: base,
        there: trees.mate(base),
    }
}

/// Adds the sets on the way from a set to its root, this set first.
pub(crate) fn path_to_root(trees: &Trees, nest: &Nest, set: u32, path: &mut Vec<u32>)
    requires nest { nest.now.vertices ≡ trees.now.vertices }
    requires set { set < names trees.now.vertices }
    requires room { vec_len path.old + trees.now.vertices ≤ vec_capacity path.old }
    ensures way { path.new.items ≡ path.old.items
        ++ way_up trees.now.vertices nest.now trees.now set }
    ensures low { All (λ s. s < names trees.now.vertices) path.old.items →
        All (λ s. s < names trees.now.vertices) path.new.items }
    ensures len { vec_len path.new ≤ vec_len path.old + trees.now.vertices }
    ensures room { vec_capacity path.new ≡ vec_capacity path.old }
{
    let mut here = set;
    for _step in 0..trees.vertices() {
        path.push_reserved(here);
        let tie = tie_up(trees, here);
        if tie.here == tie.there {
            return;
        }
        here = top(nest, tie.there);
    }
}

/// How many sets two ways to a root have in common, from the root on.
#[tactic(auto, using(crate::proofs::Ends::none_alike, crate::proofs::Ends::one_more_alike))]
pub(crate) fn shared(one: &[u32], two: &[u32]) -> usize
    ensures { EndAlike one.now two.now result }
{
    let shorter = one.len().min(two.len());
    for count in 0..shorter {
        if one[one.len() - 1 - count] != two[two.len() - 1 - count] {
            return count;
        }
    }
    shorter
}
