//! Which vertex of a set isn't matched inside it.
ghost use Rattle.std.specs.Prelude.{◌≡◌, ◌≢◌, ◌<◌, slice_set};
ghost use Rattle.blossom_nest.specs.Nests.{no_set, parent_of};
ghost use Rattle.blossom_forest.specs.Trees.{IsRematched};

use crate::climb::child_with;
use crate::step::Tie;
use crate::trees::Trees;
use blossom_nest::Nest;

/// Matches the vertices of a set among themselves but for this one, in sets that lie in one
/// another at most so deep.
#[cycle(expose)]
pub(crate) fn expose(trees: &mut Trees, nest: &Nest, set: u32, vertex: u32, depth: u32)
    requires nest { nest.now.vertices ≡ trees.old.vertices }
    requires set { set < no_set nest.now }
    requires vertex { vertex < trees.old.vertices }
    ensures { IsRematched trees.old trees.new }
{
    if depth == 0 || trees.base(set) == vertex {
        return;
    }
    trees.set_base(set, vertex);
    let Some(child) = child_with(nest, set, vertex) else {
        return;
    };
    expose(trees, nest, child, vertex, depth - 1);
    match_others(trees, nest, child, depth - 1);
}

/// Matches the other children of a ring two by two, from the child after this one on.
#[cycle(expose)]
fn match_others(trees: &mut Trees, nest: &Nest, child: u32, depth: u32)
    requires nest { nest.now.vertices ≡ trees.old.vertices }
    requires child { child < no_set nest.now }
    requires inside { parent_of nest.now child ≢ no_set nest.now }
    ensures { IsRematched trees.old trees.new }
{
    let mut one = nest.after(child);
    for _step in 0..nest.vertices() {
        if one == child {
            return;
        }
        let two = nest.after(one);
        let joint = trees.joint(one);
        match_ends(trees, joint);
        expose(trees, nest, one, joint.here, depth);
        expose(trees, nest, two, joint.there, depth);
        one = nest.after(two);
    }
}

/// Makes each end of a tie the mate of the other.
fn match_ends(trees: &mut Trees, tie: Tie)
    requires here { tie.here < trees.old.vertices }
    requires there { tie.there < trees.old.vertices }
    ensures { trees.new ≡ record trees.old {
      mate = slice_set (slice_set trees.old.mate tie.here tie.there) tie.there tie.here;
    } }
{
    trees.set_mate(tie.here, tie.there);
    trees.set_mate(tie.there, tie.here);
}
