//! Matching along the ways to two roots.
ghost use Rattle.std.specs.Prelude.{◌≡◌, ◌<◌, ◌==◌, ◌||◌, cond, slice_index, slice_index_or};
ghost use Rattle.blossom_forest.specs.Trees.{IsDissolved, IsRematched, names};
ghost use Rattle.blossom_forest.specs.declared.step.Mark.TheVariants.{Outer, Away};

use crate::climb::top;
use crate::expose::expose;
use crate::step::Mark;
use crate::trees::Trees;
use blossom_nest::Nest;

/// Makes a vertex outside its tree the mate of a vertex of an outer set, and matches the sets on
/// the way from there to the root among one another.
pub(crate) fn match_out(trees: &mut Trees, nest: &Nest, vertex: u32, mate: u32)
    requires nest { nest.now.vertices ≡ trees.old.vertices }
    requires vertex { vertex < trees.old.vertices }
    requires mate { mate < trees.old.vertices }
    ensures { IsRematched trees.old trees.new }
{
    let mut here = vertex;
    let mut there = mate;
    for _step in 0..nest.vertices() {
        let outer = top(nest, here);
        let base = trees.base(outer);
        let above = trees.mate(base);
        expose(trees, nest, outer, here, nest.vertices());
        trees.set_mate(here, there);
        if above == base {
            return;
        }
        let inner = top(nest, above);
        let link = trees.link(inner);
        expose(trees, nest, inner, link.here, nest.vertices());
        trees.set_mate(link.here, link.there);
        here = link.there;
        there = link.here;
    }
}

/// Leads the sets of two trees out of the forest.
pub(crate) fn dissolve(trees: &mut Trees, one: u32, two: u32)
    ensures { IsDissolved trees.old one two trees.new }
{
    trees.is_in_range();
    for set in 0..trees.vertices() + trees.vertices() / 2 {
        let mark = mark_without(trees, set, one, two);
        trees.set_mark(set, mark);
    }
}

/// Where a set stands once two trees have left the forest.
fn mark_without(trees: &Trees, set: u32, one: u32, two: u32) -> Mark
    requires { set < names trees.now.vertices }
    ensures { result ≡ cond ((slice_index trees.now.label set == one)
        || (slice_index trees.now.label set == two)) Away
        (slice_index_or trees.now.mark set Outer) }
{
    let label = trees.label(set);
    if label == one || label == two {
        return Mark::Away;
    }
    trees.mark(set)
}
