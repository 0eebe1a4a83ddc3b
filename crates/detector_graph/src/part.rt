//! One window's part of a graph, by itself.
ghost use Rattle.std.specs.Prelude.{◌≡◌, ◌≢◌, ◌≤◌, ◌==◌, ◌<◌, ◌&&◌, true, false, IfOk, Some, find, length, slice_get};
ghost use Rattle.std.specs.List.{list_any};
ghost use Rattle.graph_model.specs.Problems.{IsPart};
ghost use Rattle.graph_model.specs.declared.PartEdge.{PartEdge};
ghost use Rattle.detector_graph.specs.Rows.{group_of};
ghost use Rattle.detector_graph.specs.Steps.{AreHomes, step_starts};

use crate::Rows;
use crate::packed::{PackedEdge, packed};
use crate::steps::{homes_of, steps_of};
use graph_model::PartEdge;
use std::alloc::{AllocError, Global};
use std::marker::Model;

/// What a window decodes. The ends of its edges are places in its list of detectors.
pub struct Part {
    pub window: u32,
    /// Their numbers in the graph, 8,192 at most.
    pub detectors: Vec<u32>,
    /// In the order of their numbers in the graph. From each place a walk along them leads to a
    /// free end.
    edges: Vec<PackedEdge>,
    /// The steps that leave each vertex.
    steps: Rows,
    /// How far it is from each vertex to the free ends.
    homes: Vec<u32>,
}

impl Drop for Part {
    fn drop(self) {
        let Part {
            window: _,
            detectors: _,
            edges: _,
            steps: _,
            homes: _,
        } = self;
    }
}

impl Model for Part {
    ghost use Rattle.graph_model.specs.Problems.{Part};
    ghost use Rattle.detector_graph.specs.Steps.{IsMapped};

    ghost Value = { Part };

    ghost view = { λ p. record {
      window = p.window;
      detectors = p.detectors.items;
      edges = p.edges.items;
    } };

    ghost invariant = { λ p. IsMapped (record {
      window = p.window;
      detectors = p.detectors.items;
      edges = p.edges.items;
    }) p.steps.rows p.homes.items };
}

impl Part {
    /// A part of these detectors and edges.
    pub fn new(
        alloc: Global,
        window: u32,
        detectors: Vec<u32>,
        edges: Vec<PartEdge>,
    ) -> Result<Part, AllocError>
        requires { IsPart (record {
          window = window;
          detectors = detectors.items;
          edges = edges.items;
        }) }
        ensures { IfOk result (λ p. p ≡ record {
          window = window;
          detectors = detectors.items;
          edges = edges.items;
        }) }
    {
        let places = detectors.len() as u32;
        let steps = steps_of(alloc, places, &edges)?;
        let homes = homes_of(alloc, places, &edges)?;
        let edges = packed(alloc, &edges)?;
        Ok(Part {
            window,
            detectors,
            edges,
            steps,
            homes,
        })
    }

    /// What holds of each part.
    pub fn is_part(&self)
        ensures { IsPart self.now }
    {
        let _ = &self.edges;
    }

    /// How many edges there are.
    pub fn edges(&self) -> u32
        ensures { result ≡ length self.now.edges }
    {
        self.edges.len() as u32
    }

    /// The edge at this place in their order.
    pub fn edge(&self, at: u32) -> PartEdge
        requires { at < length self.now.edges }
        ensures { slice_get self.now.edges at ≡ Some result }
    {
        self.edges[at as usize].unpack()
    }

    /// The edge of this number: a binary search.
    pub fn numbered(&self, number: u32) -> Option<PartEdge>
        ensures { result ≡ find (λ (edge : PartEdge). edge.edge == number) self.now.edges }
    {
        match self
            .edges
            .binary_search_by_key(&number, |edge| edge.number())
        {
            Ok(at) => Some(self.edges[at].unpack()),
            Err(_) => None,
        }
    }

    /// The steps that leave a place, or the free ends, which are numbered after the places. Edge k
    /// gives two steps: number 2k from its first end to its second, and number 2k + 1 back.
    pub fn steps(&self, vertex: u32) -> &[u32]
        requires { vertex ≤ length self.now.detectors }
        ensures { result.now ≡ group_of (step_starts (length self.now.detectors) self.now.edges)
            vertex }
    {
        self.steps.row(vertex)
    }

    /// For each place, and for the free ends, the weight of a least walk to the free ends.
    pub fn homes(&self) -> &[u32]
        ensures { AreHomes (length self.now.detectors) self.now.edges result.now }
    {
        &self.homes
    }

    /// Whether the window owns the edge of this number: a binary search.
    pub fn owns(&self, edge: u32) -> bool
        ensures { result ≡ list_any (λ x. x.edge == edge && x.owned) self.now.edges }
    {
        self.is_part();
        match self.numbered(edge) {
            Some(found) => found.owned,
            None => false,
        }
    }

    /// Whether the two are the same part.
    pub fn same(&self, other: &Part) -> bool
        ensures equal { result ≡ true → self.now ≡ other.now }
        ensures differ { result ≡ false → self.now ≢ other.now }
    {
        if self.window != other.window {
            return false;
        }
        if !same_numbers(&self.detectors, &other.detectors) {
            return false;
        }
        same_edges(&self.edges, &other.edges)
    }
}

fn same_numbers(one: &[u32], two: &[u32]) -> bool
    ensures equal { result ≡ true → one.now ≡ two.now }
    ensures differ { result ≡ false → one.now ≢ two.now }
{
    one == two
}

fn same_edges(one: &[PackedEdge], two: &[PackedEdge]) -> bool
    ensures equal { result ≡ true → one.now ≡ two.now }
    ensures differ { result ≡ false → one.now ≢ two.now }
{
    if one.len() != two.len() {
        return false;
    }
    for at in 0..one.len() {
        if !same_edge(&one[at].unpack(), &two[at].unpack()) {
            return false;
        }
    }
    true
}

fn same_edge(one: &PartEdge, two: &PartEdge) -> bool
    ensures equal { result ≡ true → one.now ≡ two.now }
    ensures differ { result ≡ false → one.now ≢ two.now }
{
    *one == *two
}
