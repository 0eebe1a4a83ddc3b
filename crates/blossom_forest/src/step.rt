//! Marks, steps and numbers: what a search over a forest speaks of.
ghost use Rattle.std.specs.Prelude.{◌≡◌};
ghost use Rattle.blossom_forest.specs.Trees.{turned};

/// Where an outermost set stands.
#[derive(Clone, Copy, PartialEq, Eq, Debug)]
pub enum Mark {
    /// In a tree, at an even distance from its root.
    Outer,
    /// In a tree, at an odd distance from its root.
    Inner,
    /// Outside the forest; such a set is matched.
    Away,
}

/// A step of the search. In `Grow`, `Shrink` and `Augment` a number is a vertex, and stands for
/// its outermost set; in `Expand` it is a set.
#[derive(Clone, Copy, PartialEq, Eq, Debug)]
pub enum Step {
    /// From an outer set to a set outside the forest.
    Grow(u32, u32),
    /// Two outer sets of one tree.
    Shrink(u32, u32),
    /// An inner set with children.
    Expand(u32),
    /// Outer sets of two trees.
    Augment(u32, u32),
}

/// The dual numbers. With n vertices, `set` has n div 2 places, and the number of the set with
/// children that is named s stands at place s - n.
#[derive(Drop)]
pub struct Duals {
    pub vertex: Vec<i64>,
    pub set: Vec<i64>,
}

/// A vertex of a set, and a vertex of another set to which it is tied.
#[derive(Clone, Copy)]
pub(crate) struct Tie {
    pub here: u32,
    pub there: u32,
}

/// The same, seen from the other set.
pub(crate) fn turned(tie: Tie) -> Tie
    ensures here { result.here ≡ tie.there }
    ensures there { result.there ≡ tie.here }
    ensures turned { result ≡ turned tie }
{
    Tie {
        here: tie.there,
        there: tie.here,
    }
}
