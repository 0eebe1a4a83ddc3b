//! The nest: every set with its children, its parent, and the outermost set of each vertex.
ghost use Rattle.std.specs.Prelude.{◌≡◌, ◌≢◌, ℕ, ◌+◌, ◌/◌, ◌<◌, ◌≤◌, [], false, true, IfOk, Some, length, replicate};
ghost use Rattle.std.specs.List.{AllByRecursion, range_with_len};
ghost use Rattle.link_lists.specs.Lists.{IsApart};
ghost use Rattle.blossom_nest.specs.Nests.{IsExpanded, IsName, IsNest, IsOutermost, IsRing, IsShrunk, children_of, most_vertices, next_in, no_set, outermost, parent_in, parent_of, single};

use crate::parents;
use link_lists::{Chains, Ring};
use std::alloc::{AllocError, Global};
use std::marker::Model;

/// Sets of n vertices. The set v is the vertex v. A set with children has a name from n to below
/// n + n div 2, which is free again once the set is expanded.
pub struct Nest {
    vertices: u32,
    children: Chains,
    parent: Vec<u32>,
    top: Vec<u32>,
    unused: Vec<u32>,
}

impl Drop for Nest {
    fn drop(self) {
        let Nest {
            vertices: _,
            children: _,
            parent: _,
            top: _,
            unused: _,
        } = self;
    }
}

impl Model for Nest {
    ghost use Rattle.std.specs.Vec.{vec_capacity};
    ghost use Rattle.blossom_nest.specs.Nests.{Nested};
    ghost use Rattle.blossom_nest.specs.Kept.{IsKept, shown};

    ghost Value = { Nested };

    ghost view = { λ n. shown n.vertices n.children.lists n.parent.items n.top.items };

    ghost invariant = { λ n. IsKept n.vertices n.children n.parent.items n.top.items n.unused.items
        (vec_capacity n.unused) };
}

impl Nest {
    /// Each vertex is a set by itself.
    pub fn new(alloc: Global, vertices: u32) -> Result<Nest, AllocError>
        requires { vertices ≤ most_vertices }
        ensures { IfOk result (λ n. n ≡ single vertices) }
    {
        let places = vertices / 2;
        let names = vertices + places;
        let parent = parents::alike(alloc, names, names)?;
        let top = parents::counted(alloc, vertices)?;
        let unused = parents::counted(alloc, places)?;
        let children = Chains::new(alloc, names, places)?;
        children.are_disjoint();
        Ok(Nest {
            vertices,
            children,
            parent,
            top,
            unused,
        })
    }

    /// What always holds of a nest.
    pub fn is_nest(&self)
        ensures { IsNest self.now }
    {
        let _ = &self.parent;
    }

    /// How many vertices there are.
    pub fn vertices(&self) -> u32
        ensures { result ≡ self.now.vertices }
    {
        self.vertices
    }

    /// The outermost set of a vertex.
    pub fn outermost(&self, vertex: u32) -> u32
        requires { vertex < self.now.vertices }
        ensures { result ≡ outermost self.now vertex }
    {
        self.top[vertex as usize]
    }

    /// Whether a number is the name of a set without a parent.
    pub fn is_outermost(&self, set: u32) -> bool
        ensures yes { result ≡ true → IsOutermost self.now set }
        ensures no { result ≡ false → IsOutermost self.now set → ⊥ }
    {
        let none = self.vertices + self.vertices / 2;
        if set >= none {
            return false;
        }
        if self.parent[set as usize] != none {
            return false;
        }
        if set < self.vertices {
            return true;
        }
        self.children.front(set - self.vertices).is_some()
    }

    /// The set whose child a set is, if there is one.
    pub fn parent(&self, set: u32) -> Option<u32>
        requires { set < self.now.vertices + self.now.vertices / 2 }
        ensures { result ≡ parent_in self.now set }
    {
        let parent = self.parent[set as usize];
        let none = self.vertices + self.vertices / 2;
        if parent == none { None } else { Some(parent) }
    }

    /// The children of a set, in ring order.
    pub fn cycle(&self, set: u32) -> Ring<'_>
        requires { IsName self.now set }
        ensures { result ≡ children_of self.entry.now set }
    {
        Ring::new(&self.children, set - self.vertices)
    }

    /// The child that follows a child in its ring; after the last comes the first.
    pub fn after(&self, child: u32) -> u32
        requires below { child < no_set self.now }
        requires inside { parent_of self.now child ≢ no_set self.now }
        ensures next { next_in child (children_of self.now (parent_of self.now child))
            ≡ Some result }
        ensures below { result < no_set self.now }
        ensures parent { parent_of self.now result ≡ parent_of self.now child }
    {
        let place = self.parent[child as usize] - self.vertices;
        parents::next_in_ring(&self.children, place, child)
    }

    /// Makes the sets of a ring the children of a new set, and gives its name.
    pub fn shrink(&mut self, ring: &[u32]) -> u32
        requires ring { IsRing ring.now }
        requires apart { IsApart ring.now }
        requires outermost { AllByRecursion (IsOutermost self.old) ring.now }
        ensures { IsShrunk self.old ring.now result self.new }
    {
        let Some(place) = self.unused.pop() else {
            unreachable!()
        };
        let set = self.vertices + place;
        parents::adopt(&mut self.children, &mut self.parent, ring, place, set);
        self.children.are_disjoint();
        parents::lift(&mut self.top, &self.parent, set);
        set
    }

    /// Makes the children of an outermost set outermost.
    pub fn expand(&mut self, set: u32)
        requires name { IsName self.old set }
        requires outermost { IsOutermost self.old set }
        ensures { IsExpanded self.old set self.new }
    {
        let place = set - self.vertices;
        let none = self.vertices + self.vertices / 2;
        parents::settle(&mut self.top, &self.parent, self.vertices, set);
        parents::release(&mut self.children, &mut self.parent, place, none);
        self.children.are_disjoint();
        let _ = self.unused.push(place);
    }
}
