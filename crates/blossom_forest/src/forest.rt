//! The forest and its steps.
ghost use Rattle.std.specs.Prelude.{◌≡◌, ◌<◌, ◌≤◌, ◌+◌, ◌++◌, ◌-◌, ◌==◌, IfNone, IfOk, IfSome, MatchOption, Some, slice_get, vec_len};
ghost use Rattle.std.specs.Vec.{vec_capacity};
ghost use Rattle.blossom_nest.specs.Nests.{IsExpanded, IsName, IsOutermost, most_vertices};
ghost use Rattle.blossom_forest.specs.Trees.{IsAugmented, IsClosed, grown, label_of, mate_in, unmatched, way_up};

use crate::climb::{child_with, top};
use crate::open::{Way, open_ring, place};
use crate::paths::{path_to_root, shared};
use crate::rematch::{dissolve, match_out};
use crate::ring::{Ways, is_ring, join_ways, list_ring, note_outer};
use crate::step::{Mark, Tie};
use crate::trees::Trees;
use blossom_nest::Nest;
use std::alloc::{AllocError, Global};
use std::marker::Model;

/// Trees whose nodes are outermost sets of a nest, rooted at the sets of unmatched vertices, with
/// outer and inner sets by turns. Edges from an inner set down to an outer one are matched.
pub struct Forest {
    trees: Trees,
    path: Vec<u32>,
    other: Vec<u32>,
    ring: Vec<u32>,
}

impl Drop for Forest {
    fn drop(self) {
        let Forest {
            trees: _,
            path: _,
            other: _,
            ring: _,
        } = self;
    }
}

impl Model for Forest {
    ghost use Rattle.std.specs.Vec.{vec_capacity};
    ghost use Rattle.blossom_forest.specs.Trees.{Forested, HasRoom};

    ghost Value = { Forested };

    ghost view = { λ f. f.trees };

    ghost invariant = { λ f. HasRoom f.trees.vertices (vec_capacity f.path) (vec_capacity f.other)
        (vec_capacity f.ring) };
}

impl Forest {
    /// Each vertex is unmatched and a tree by itself.
    pub fn new(alloc: Global, vertices: u32) -> Result<Forest, AllocError>
        requires { vertices ≤ most_vertices }
        ensures { IfOk result (λ f. f ≡ unmatched vertices) }
    {
        let room = vertices as usize;
        Ok(Forest {
            trees: Trees::new(alloc, vertices)?,
            path: Vec::with_capacity(alloc, room)?,
            other: Vec::with_capacity(alloc, room)?,
            ring: Vec::with_capacity(alloc, 2 * room)?,
        })
    }

    /// How many vertices there are.
    pub fn vertices(&self) -> u32
        ensures count { result ≡ self.now.vertices }
        ensures few { result ≤ most_vertices }
    {
        self.trees.vertices()
    }

    /// How many trees there are.
    pub fn trees(&self) -> u32
        ensures { result ≡ self.now.trees }
    {
        self.trees.roots()
    }

    /// Where an outermost set stands.
    pub fn mark(&self, nest: &Nest, set: u32) -> Mark
        requires nest { nest.now.vertices ≡ self.now.vertices }
        requires outermost { IsOutermost nest.now set }
        ensures { slice_get self.now.mark set ≡ Some result }
    {
        let _ = nest.vertices();
        self.trees.mark(set)
    }

    /// The mate of a vertex, if it is matched.
    pub fn mate(&self, vertex: u32) -> Option<u32>
        requires { vertex < self.now.vertices }
        ensures mate { result ≡ mate_in self.now vertex }
        ensures below { MatchOption result (Unit {0}) (λ mate. mate < self.now.vertices) }
    {
        let mate = self.trees.mate(vertex);
        if mate == vertex { None } else { Some(mate) }
    }

    /// Whether the outermost sets of two vertices are in one tree, where both are in the forest.
    pub fn is_one_tree(&self, nest: &Nest, one: u32, two: u32) -> bool
        requires nest { nest.now.vertices ≡ self.now.vertices }
        requires one { one < self.now.vertices }
        requires two { two < self.now.vertices }
        ensures { result ≡ (label_of self.now nest.now one == label_of self.now nest.now two) }
    {
        self.trees.label(top(nest, one)) == self.trees.label(top(nest, two))
    }

    /// Hangs the set of a free vertex, and the set of its mate, on the outer set of a vertex.
    pub fn grow(&mut self, nest: &Nest, outer: u32, free: u32)
        requires nest { nest.now.vertices ≡ self.old.vertices }
        requires outer { outer < self.old.vertices }
        requires free { free < self.old.vertices }
        ensures { self.new ≡ grown self.old nest.now outer free }
    {
        let inner = top(nest, free);
        let below = top(nest, self.trees.mate(self.trees.base(inner)));
        let label = self.trees.label(top(nest, outer));
        let link = Tie {
            here: free,
            there: outer,
        };
        place(&mut self.trees, inner, Mark::Inner, label);
        self.trees.set_link(inner, link);
        place(&mut self.trees, below, Mark::Outer, label);
    }

    /// Adds the sets on the way from a set to the root of its tree, this set first; at most as many
    /// as there are vertices.
    pub fn root_path(&self, nest: &Nest, set: u32, into: &mut Vec<u32>)
        requires nest { nest.now.vertices ≡ self.now.vertices }
        requires outermost { IsOutermost nest.now set }
        requires room { vec_len into.old + self.now.vertices ≤ vec_capacity into.old }
        ensures way { into.new.items ≡ into.old.items
            ++ way_up self.now.vertices nest.now self.now set }
        ensures len { vec_len into.new ≤ vec_len into.old + self.now.vertices }
        ensures room { vec_capacity into.new ≡ vec_capacity into.old }
    {
        path_to_root(&self.trees, nest, set, into);
    }

    /// Shrinks the ring that the ways to the root from the outer sets of two vertices close, and
    /// gives the new set, which is outer. Where they close none, nothing is changed.
    pub fn shrink(&mut self, nest: &mut Nest, one: u32, two: u32) -> Option<u32>
        requires nest { nest.old.vertices ≡ self.old.vertices }
        requires one { one < self.old.vertices }
        requires two { two < self.old.vertices }
        ensures vertices { self.new.vertices ≡ self.old.vertices }
        ensures trees { self.new.trees ≡ self.old.trees }
        ensures nothing { IfNone result ((self.new ≡ self.old) × (nest.new ≡ nest.old)) }
        ensures closed { IfSome result (λ set. IsClosed self.old nest.old one two set self.new
            nest.new) }
    {
        let (first, second) = (top(nest, one), top(nest, two));
        self.path.clear();
        self.other.clear();
        path_to_root(&self.trees, nest, first, &mut self.path);
        path_to_root(&self.trees, nest, second, &mut self.other);
        let shared = shared(&self.path, &self.other);
        if shared == 0 {
            return None;
        }
        let ways = Ways {
            common: self.path[self.path.len() - shared],
            one: &self.path[..self.path.len() - shared],
            two: &self.other[..self.other.len() - shared],
        };
        list_ring(&mut self.ring, ways);
        if !is_ring(nest, &self.ring) {
            return None;
        }
        let tie = Tie {
            here: one,
            there: two,
        };
        join_ways(&mut self.trees, ways, tie);
        let set = nest.shrink(&self.ring);
        note_outer(&mut self.trees, set, ways.common);
        Some(set)
    }

    /// Opens an inner set. The children on the way round its ring that has an odd number of them
    /// stay in the tree, and the others leave it.
    pub fn expand(&mut self, nest: &mut Nest, set: u32)
        requires nest { nest.old.vertices ≡ self.old.vertices }
        requires name { IsName nest.old set }
        requires outermost { IsOutermost nest.old set }
        ensures vertices { self.new.vertices ≡ self.old.vertices }
        ensures trees { self.new.trees ≡ self.old.trees }
        ensures expanded { IsExpanded nest.old set nest.new }
    {
        let link = self.trees.link(set);
        let base = self.trees.base(set);
        let label = self.trees.label(set);
        let upper = child_with(nest, set, link.here);
        let lower = child_with(nest, set, base);
        if let (Some(upper), Some(lower)) = (upper, lower) {
            let way = Way {
                upper,
                lower,
                label,
            };
            open_ring(&mut self.trees, nest, way, link);
        }
        nest.expand(set);
    }

    /// Matches two vertices of outer sets of two trees, and the sets on the ways to their roots
    /// among one another. The sets of both trees leave the forest.
    pub fn augment(&mut self, nest: &Nest, one: u32, two: u32)
        requires nest { nest.now.vertices ≡ self.old.vertices }
        requires one { one < self.old.vertices }
        requires two { two < self.old.vertices }
        ensures { IsAugmented self.old (label_of self.old nest.now one)
            (label_of self.old nest.now two) self.new }
    {
        let first = self.trees.label(top(nest, one));
        let second = self.trees.label(top(nest, two));
        match_out(&mut self.trees, nest, one, two);
        match_out(&mut self.trees, nest, two, one);
        dissolve(&mut self.trees, first, second);
        let roots = self.trees.roots();
        self.trees.set_roots(roots.saturating_sub(2));
    }
}
