//! Ways up in the nest.
ghost use Rattle.std.specs.Prelude.{◌≡◌, ◌≢◌, ◌<◌, Some, MatchOption};
ghost use Rattle.blossom_nest.specs.Nests.{IsOutermost, no_set, outermost, parent_of};

use blossom_nest::Nest;

/// The outermost set of a vertex.
pub(crate) fn top(nest: &Nest, vertex: u32) -> u32
    requires { vertex < nest.now.vertices }
    ensures value { result ≡ outermost nest.now vertex }
    ensures below { result < no_set nest.now }
    ensures outermost { IsOutermost nest.now result }
{
    nest.is_nest();
    nest.outermost(vertex)
}

/// The child of a set that is reached from a vertex, if the way from the vertex leads there.
pub(crate) fn child_with(nest: &Nest, set: u32, vertex: u32) -> Option<u32>
    requires set { set < no_set nest.now }
    requires vertex { vertex < nest.now.vertices }
    ensures { MatchOption result (Unit {0}) (λ child. (child < no_set nest.now)
        × (parent_of nest.now child ≡ set)) }
{
    nest.is_nest();
    let mut here = vertex;
    for _step in 0..nest.vertices() {
        let above = nest.parent(here)?;
        if above == set {
            return Some(here);
        }
        here = above;
    }
    None
}
