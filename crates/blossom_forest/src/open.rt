//! The ring of an inner set that is opened.
ghost use Rattle.std.specs.Prelude.{◌≡◌, ◌≢◌, ◌<◌, cond, slice_set, true};
ghost use Rattle.blossom_nest.specs.Nests.{no_set, parent_of};
ghost use Rattle.blossom_forest.specs.Trees.{even_way, names};

use crate::step::{Mark, Tie, turned};
use crate::trees::Trees;
use blossom_nest::Nest;

/// Two children of a ring, and the unmatched vertex of the tree that they stay in.
#[derive(Clone, Copy)]
pub(crate) struct Way {
    /// The child that hangs on the outer set above.
    pub upper: u32,
    /// The child on whose mate the rest of the tree hangs.
    pub lower: u32,
    pub label: u32,
}

/// The way round from one of these children to the other that has an odd number of children.
#[derive(Clone, Copy)]
struct Round {
    from: u32,
    to: u32,
    label: u32,
    /// Whether it leads from the upper child to the lower one.
    is_down: bool,
}

/// Keeps the children on the way of an odd number of children in the tree, and leads the others
/// out of it. The upper child hangs as the whole set hung.
pub(crate) fn open_ring(trees: &mut Trees, nest: &Nest, way: Way, link: Tie)
    requires nest { nest.now.vertices ≡ trees.old.vertices }
    requires upper { way.upper < no_set nest.now }
    requires lower { way.lower < no_set nest.now }
    requires inside_upper { parent_of nest.now way.upper ≢ no_set nest.now }
    requires inside_lower { parent_of nest.now way.lower ≢ no_set nest.now }
    requires label { way.label < trees.old.vertices }
    requires here { link.here < trees.old.vertices }
    requires there { link.there < trees.old.vertices }
    ensures vertices { trees.new.vertices ≡ trees.old.vertices }
    ensures trees { trees.new.trees ≡ trees.old.trees }
{
    set_aside(trees, nest, way.upper);
    hang(trees, nest, round_of(nest, way));
    trees.set_link(way.upper, link);
}

/// The way round that has an odd number of children, where there is one: it takes an even number of
/// steps.
fn round_of(nest: &Nest, way: Way) -> Round
    requires upper { way.upper < no_set nest.now }
    requires lower { way.lower < no_set nest.now }
    requires inside_upper { parent_of nest.now way.upper ≢ no_set nest.now }
    requires inside_lower { parent_of nest.now way.lower ≢ no_set nest.now }
    ensures down { result.is_down ≡ even_way nest.now.vertices nest.now way.lower true way.upper }
    ensures from { result.from ≡ cond result.is_down way.upper way.lower }
    ensures to { result.to ≡ cond result.is_down way.lower way.upper }
    ensures label { result.label ≡ way.label }
    ensures below { result.from < no_set nest.now }
    ensures inside { parent_of nest.now result.from ≢ no_set nest.now }
{
    if is_even_way(nest, way.upper, way.lower) {
        Round {
            from: way.upper,
            to: way.lower,
            label: way.label,
            is_down: true,
        }
    } else {
        Round {
            from: way.lower,
            to: way.upper,
            label: way.label,
            is_down: false,
        }
    }
}

/// Marks the children of a ring as outside the forest.
fn set_aside(trees: &mut Trees, nest: &Nest, child: u32)
    requires nest { nest.now.vertices ≡ trees.old.vertices }
    requires child { child < no_set nest.now }
    requires inside { parent_of nest.now child ≢ no_set nest.now }
    ensures vertices { trees.new.vertices ≡ trees.old.vertices }
    ensures trees { trees.new.trees ≡ trees.old.trees }
{
    let mut here = child;
    for _step in 0..nest.vertices() {
        trees.set_mark(here, Mark::Away);
        here = nest.after(here);
        if here == child {
            return;
        }
    }
}

/// Whether it takes an even number of steps round the ring from one child to another.
fn is_even_way(nest: &Nest, from: u32, to: u32) -> bool
    requires from { from < no_set nest.now }
    requires inside { parent_of nest.now from ≢ no_set nest.now }
    ensures { result ≡ even_way nest.now.vertices nest.now to true from }
{
    let mut here = from;
    let mut even = true;
    for _step in 0..nest.vertices() {
        if here == to {
            return even;
        }
        here = nest.after(here);
        even = !even;
    }
    even
}

/// Hangs the children on the way round on one another.
fn hang(trees: &mut Trees, nest: &Nest, round: Round)
    requires nest { nest.now.vertices ≡ trees.old.vertices }
    requires from { round.from < no_set nest.now }
    requires inside { parent_of nest.now round.from ≢ no_set nest.now }
    requires label { round.label < trees.old.vertices }
    ensures vertices { trees.new.vertices ≡ trees.old.vertices }
    ensures trees { trees.new.trees ≡ trees.old.trees }
{
    let mut inner = round.from;
    place(trees, inner, Mark::Inner, round.label);
    for _step in 0..nest.vertices() {
        if inner == round.to {
            return;
        }
        let outer = nest.after(inner);
        let next = nest.after(outer);
        if round.is_down {
            trees.set_link(next, turned(trees.joint(outer)));
        } else {
            trees.set_link(inner, trees.joint(inner));
        }
        place(trees, outer, Mark::Outer, round.label);
        place(trees, next, Mark::Inner, round.label);
        inner = next;
    }
}

/// Puts a set into a tree.
pub(crate) fn place(trees: &mut Trees, set: u32, mark: Mark, label: u32)
    requires set { set < names trees.old.vertices }
    requires label { label < trees.old.vertices }
    ensures { trees.new ≡ record trees.old {
      mark = slice_set trees.old.mark set mark;
      label = slice_set trees.old.label set label;
    } }
{
    trees.set_mark(set, mark);
    trees.set_label(set, label);
}
