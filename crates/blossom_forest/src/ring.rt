//! Rings that two ways to a root close.
ghost use Rattle.std.specs.Prelude.{◌≡◌, ◌<◌, ◌≤◌, ◌+◌, ◌∷◌, ◌++◌, true, All, length, reverse};
ghost use Rattle.std.specs.Vec.{vec_capacity};
ghost use Rattle.std.specs.List.{AllByRecursion};
ghost use Rattle.link_lists.specs.Lists.{IsApart, Lacks};
ghost use Rattle.blossom_nest.specs.Nests.{IsOutermost, IsRing};
ghost use Rattle.blossom_forest.specs.Trees.{joined_down, joined_round, joined_up, last_down, names, ringed};

use crate::paths::tie_up;
use crate::step::{Mark, Tie, turned};
use crate::trees::Trees;
use blossom_nest::Nest;

/// The lowest set that two ways to a root share, and the ways up to it.
#[derive(Clone, Copy)]
pub(crate) struct Ways<'a> {
    pub common: u32,
    pub one: &'a [u32],
    pub two: &'a [u32],
}

/// Joins each set of a ring to the next: from the common set down one way, over the tie between
/// the ways' first sets, and up the other.
pub(crate) fn join_ways(trees: &mut Trees, ways: Ways<'_>, tie: Tie)
    requires common { ways.common < names trees.old.vertices }
    requires one { All (λ s. s < names trees.old.vertices) ways.one.now }
    requires two { All (λ s. s < names trees.old.vertices) ways.two.now }
    requires here { tie.here < trees.old.vertices }
    requires there { tie.there < trees.old.vertices }
    ensures vertices { trees.new.vertices ≡ trees.old.vertices }
    ensures trees { trees.new.trees ≡ trees.old.trees }
    ensures round { trees.new ≡ record trees.old {
      joint = joined_round trees.old ways.entry.common ways.entry.one.now ways.entry.two.now tie;
    } }
{
    let last = join_down(trees, ways.common, ways.one);
    trees.set_joint(last, tie);
    join_up(trees, ways.two);
}

/// Joins each set to the next one down a way, and gives the last.
fn join_down(trees: &mut Trees, common: u32, way: &[u32]) -> u32
    requires common { common < names trees.old.vertices }
    requires way { All (λ s. s < names trees.old.vertices) way.now }
    ensures vertices { trees.new.vertices ≡ trees.old.vertices }
    ensures trees { trees.new.trees ≡ trees.old.trees }
    ensures below { result < names trees.old.vertices }
    ensures down { trees.new ≡ record trees.old {
      joint = joined_down trees.old trees.old.joint common (reverse way.now);
    } }
    ensures last { result ≡ last_down common (reverse way.now) }
{
    let mut above = common;
    for at in 0..way.len() {
        let child = way[way.len() - 1 - at];
        trees.set_joint(above, turned(tie_up(trees, child)));
        above = child;
    }
    above
}

/// Joins each set of a way to the next one up.
fn join_up(trees: &mut Trees, way: &[u32])
    requires { All (λ s. s < names trees.old.vertices) way.now }
    ensures vertices { trees.new.vertices ≡ trees.old.vertices }
    ensures trees { trees.new.trees ≡ trees.old.trees }
    ensures up { trees.new ≡ record trees.old {
      joint = joined_up trees.old trees.old.joint way.now;
    } }
{
    for set in way {
        trees.set_joint(*set, tie_up(trees, *set));
    }
}

/// The common set, one way down, and the other way up.
pub(crate) fn list_ring(ring: &mut Vec<u32>, ways: Ways<'_>)
    requires { 1 + length ways.one.now + length ways.two.now ≤ vec_capacity ring.old }
    ensures list { ring.new.items ≡ ways.entry.common
        ∷ (reverse ways.entry.one.now ++ ways.entry.two.now) }
    ensures room { vec_capacity ring.new ≡ vec_capacity ring.old }
{
    ring.clear();
    ring.push_reserved(ways.common);
    for at in 0..ways.one.len() {
        ring.push_reserved(ways.one[ways.one.len() - 1 - at]);
    }
    for set in ways.two {
        ring.push_reserved(*set);
    }
}

/// Whether the sets are a ring of outermost sets, none of them twice.
pub(crate) fn is_ring(nest: &Nest, ring: &[u32]) -> bool
    ensures ring { result ≡ true → IsRing ring.now }
    ensures apart { result ≡ true → IsApart ring.now }
    ensures outermost { result ≡ true → AllByRecursion (IsOutermost nest.now) ring.now }
{
    ring.len() >= 3 && ring.len() % 2 == 1 && are_outermost(nest, ring) && are_apart(ring)
}

/// Whether all sets are outermost.
fn are_outermost(nest: &Nest, sets: &[u32]) -> bool
    ensures { result ≡ true → AllByRecursion (IsOutermost nest.now) sets.now }
{
    for set in sets {
        if !nest.is_outermost(*set) {
            return false;
        }
    }
    true
}

/// Whether no set comes twice.
fn are_apart(sets: &[u32]) -> bool
    ensures { result ≡ true → IsApart sets.now }
{
    for at in 0..sets.len() {
        if !lacks(&sets[at + 1..], sets[at]) {
            return false;
        }
    }
    true
}

/// Whether the set isn't among these.
fn lacks(sets: &[u32], set: u32) -> bool
    ensures { result ≡ true → Lacks set sets.now }
{
    for other in sets {
        if *other == set {
            return false;
        }
    }
    true
}

/// Notes what a new set is, whose ring begins with the common set.
pub(crate) fn note_outer(trees: &mut Trees, set: u32, common: u32)
    requires set { set < names trees.old.vertices }
    requires common { common < names trees.old.vertices }
    ensures { trees.new ≡ ringed trees.old common set }
{
    let base = trees.base(common);
    let label = trees.label(common);
    trees.set_mark(set, Mark::Outer);
    trees.set_base(set, base);
    trees.set_label(set, label);
}
