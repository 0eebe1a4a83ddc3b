//! What is noted of each set and of each vertex.
ghost use Rattle.std.specs.Prelude.{◌≡◌, ◌<◌, ◌≤◌, ◌+◌, ◌/◌, ℕ, IfOk, Some, slice_get, slice_index, slice_set};
ghost use Rattle.blossom_forest.specs.Trees.{IsInRange, itself, names, unmatched};
ghost use Rattle.blossom_nest.specs.Nests.{most_vertices};

use crate::step::{Mark, Tie};
use std::alloc::{AllocError, Global};
use std::marker::Model;

/// Marks, labels, bases and ties of sets, by their names, and the vertices' mates.
pub(crate) struct Trees {
    vertices: u32,
    roots: u32,
    /// Meaningful at outermost sets.
    mark: Vec<Mark>,
    /// The unmatched vertex of the root of a set's tree; meaningful in the forest.
    label: Vec<u32>,
    /// The vertex of a set that isn't matched inside it.
    base: Vec<u32>,
    /// From an inner set to the outer set above it.
    link: Vec<Tie>,
    /// From a child to the next child of its ring.
    joint: Vec<Tie>,
    /// An unmatched vertex is its own mate.
    mate: Vec<u32>,
}

impl Drop for Trees {
    fn drop(self) {
        let Trees {
            vertices: _,
            roots: _,
            mark: _,
            label: _,
            base: _,
            link: _,
            joint: _,
            mate: _,
        } = self;
    }
}

impl Model for Trees {
    ghost use Rattle.blossom_forest.specs.Trees.{Forested, IsInRange, noted};

    ghost Value = { Forested };

    ghost view = { λ t. noted t.vertices t.roots t.mark.items t.label.items t.base.items
        t.link.items t.joint.items t.mate.items };

    ghost invariant = { λ t. IsInRange (noted t.vertices t.roots t.mark.items t.label.items
        t.base.items t.link.items t.joint.items t.mate.items) };
}

impl Trees {
    /// Every vertex is unmatched, and a tree by itself.
    pub fn new(alloc: Global, vertices: u32) -> Result<Trees, AllocError>
        requires { vertices ≤ most_vertices }
        ensures { IfOk result (λ t. t ≡ unmatched vertices) }
    {
        let sets = (vertices + vertices / 2) as usize;
        let nowhere = Tie { here: 0, there: 0 };
        Ok(Trees {
            vertices,
            roots: vertices,
            mark: vec![in alloc; Mark::Outer; sets]?,
            label: each_itself(alloc, vertices, sets)?,
            base: each_itself(alloc, vertices, sets)?,
            link: vec![in alloc; nowhere; sets]?,
            joint: vec![in alloc; nowhere; sets]?,
            mate: each_itself(alloc, vertices, vertices as usize)?,
        })
    }

    /// What always holds.
    pub fn is_in_range(&self)
        ensures { IsInRange self.now }
    {
        let _ = &self.mark;
    }

    /// How many vertices there are.
    pub fn vertices(&self) -> u32
        ensures count { result ≡ self.now.vertices }
        ensures few { result ≤ most_vertices }
    {
        self.vertices
    }

    /// How many trees there are.
    pub fn roots(&self) -> u32
        ensures { result ≡ self.now.trees }
    {
        self.roots
    }

    /// Changes how many trees there are.
    pub fn set_roots(&mut self, roots: u32)
        ensures { self.new ≡ record self.old { trees = roots } }
    {
        self.roots = roots;
    }

    /// Where the set stands.
    pub fn mark(&self, set: u32) -> Mark
        requires { set < names self.now.vertices }
        ensures { slice_get self.now.mark set ≡ Some result }
    {
        self.mark[set as usize]
    }

    /// The unmatched vertex of its tree.
    pub fn label(&self, set: u32) -> u32
        requires { set < names self.now.vertices }
        ensures value { result ≡ slice_index self.now.label set }
        ensures below { result < self.now.vertices }
    {
        self.label[set as usize]
    }

    /// The vertex that isn't matched inside the set.
    pub fn base(&self, set: u32) -> u32
        requires { set < names self.now.vertices }
        ensures value { result ≡ slice_index self.now.base set }
        ensures below { result < self.now.vertices }
    {
        self.base[set as usize]
    }

    /// From an inner set to the outer set above it.
    pub fn link(&self, set: u32) -> Tie
        requires { set < names self.now.vertices }
        ensures value { slice_get self.now.link set ≡ Some result }
        ensures here { result.here < self.now.vertices }
        ensures there { result.there < self.now.vertices }
    {
        self.link[set as usize]
    }

    /// From a child to the next child of its ring.
    pub fn joint(&self, set: u32) -> Tie
        requires { set < names self.now.vertices }
        ensures value { slice_get self.now.joint set ≡ Some result }
        ensures here { result.here < self.now.vertices }
        ensures there { result.there < self.now.vertices }
    {
        self.joint[set as usize]
    }

    /// The vertex's mate, or itself.
    pub fn mate(&self, vertex: u32) -> u32
        requires { vertex < self.now.vertices }
        ensures value { result ≡ slice_index self.now.mate vertex }
        ensures below { result < self.now.vertices }
    {
        self.mate[vertex as usize]
    }

    /// Marks a set.
    pub fn set_mark(&mut self, set: u32, mark: Mark)
        requires { set < names self.old.vertices }
        ensures { self.new ≡ record self.old { mark = slice_set self.old.mark set mark } }
    {
        self.mark[set as usize] = mark;
    }

    /// Puts a set into the tree of an unmatched vertex.
    pub fn set_label(&mut self, set: u32, label: u32)
        requires set { set < names self.old.vertices }
        requires label { label < self.old.vertices }
        ensures { self.new ≡ record self.old { label = slice_set self.old.label set label } }
    {
        self.label[set as usize] = label;
    }

    /// Notes which vertex isn't matched inside a set.
    pub fn set_base(&mut self, set: u32, base: u32)
        requires set { set < names self.old.vertices }
        requires base { base < self.old.vertices }
        ensures { self.new ≡ record self.old { base = slice_set self.old.base set base } }
    {
        self.base[set as usize] = base;
    }

    /// Hangs an inner set on an outer one.
    pub fn set_link(&mut self, set: u32, link: Tie)
        requires set { set < names self.old.vertices }
        requires here { link.here < self.old.vertices }
        requires there { link.there < self.old.vertices }
        ensures { self.new ≡ record self.old { link = slice_set self.old.link set link } }
    {
        self.link[set as usize] = link;
    }

    /// Joins a child to the next one of its ring.
    pub fn set_joint(&mut self, set: u32, joint: Tie)
        requires set { set < names self.old.vertices }
        requires here { joint.here < self.old.vertices }
        requires there { joint.there < self.old.vertices }
        ensures { self.new ≡ record self.old { joint = slice_set self.old.joint set joint } }
    {
        self.joint[set as usize] = joint;
    }

    /// Makes one vertex the mate of another.
    pub fn set_mate(&mut self, vertex: u32, mate: u32)
        requires vertex { vertex < self.old.vertices }
        requires mate { mate < self.old.vertices }
        ensures { self.new ≡ record self.old { mate = slice_set self.old.mate vertex mate } }
    {
        self.mate[vertex as usize] = mate;
    }
}

/// Each vertex at its place, and 0 at the places after them.
fn each_itself(alloc: Global, vertices: u32, places: usize) -> Result<Vec<u32>, AllocError>
    requires { vertices ≤ places }
    ensures { IfOk result (λ v. v.items ≡ itself vertices places) }
{
    let mut each = Vec::with_capacity(alloc, places)?;
    for vertex in 0..vertices {
        each.push(vertex)?;
    }
    each.resize(places, 0)?;
    Ok(each)
}
