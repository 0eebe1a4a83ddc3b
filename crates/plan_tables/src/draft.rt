//! A graph that is being written.
ghost use Rattle.std.specs.Prelude.{◌≡◌, [], IfOk, IfSome, length};
ghost use Rattle.graph_model.specs.Graph.{IsEdge};

use crate::refusal::Refusal;
use case_lines::Fault;
use detector_graph::{Edge, Graph, Labels, Tag};
use std::alloc::{AllocError, Global};

/// The detectors that a graph may have.
const MOST_DETECTORS: usize = 1_000_000;

/// The edges that a graph may have.
const MOST_EDGES: usize = 10_000_000;

/// An edge's one or two detectors.
#[derive(Clone, Copy)]
pub(crate) struct Ends {
    pub(crate) first: u32,
    pub(crate) second: Option<u32>,
}

/// The tags of the detectors, and the ends of the edges.
#[derive(Drop)]
pub(crate) struct Draft {
    tags: Vec<Tag>,
    ends: Vec<Ends>,
}

impl Draft {
    pub(crate) fn new(alloc: Global) -> Draft {
        Draft {
            tags: Vec::new(alloc),
            ends: Vec::new(alloc),
        }
    }

    /// Empties the graph.
    pub(crate) fn clear(&mut self) {
        self.tags.clear();
        self.ends.clear();
    }

    pub(crate) fn tags(&self) -> &[Tag]
        ensures { result.now ≡ self.now.tags.items }
    {
        self.tags.as_slice()
    }

    /// Adds so many detectors of a tag.
    pub(crate) fn add_detectors(&mut self, count: u32, tag: Tag) -> Result<(), AllocError> {
        for number in 0..count {
            let _ = number;
            self.tags.push(tag)?;
        }
        Ok(())
    }

    /// Adds a detector for each slot from 0 on.
    pub(crate) fn add_slots(&mut self, count: u32) -> Result<(), AllocError> {
        for slot in 0..count {
            self.tags.push(Tag {
                slot,
                tile_row: 0,
                tile_col: 0,
            })?;
        }
        Ok(())
    }

    /// Adds an edge.
    pub(crate) fn add_edge(&mut self, first: u32, second: Option<u32>) -> Result<(), AllocError> {
        self.ends.push(Ends { first, second })?;
        Ok(())
    }

    /// Adds an edge at each detector, and one between every two.
    pub(crate) fn add_pairs(&mut self) -> Result<(), Fault<Refusal>> {
        let Ok(count) = u32::try_from(self.tags.len()) else {
            return Err(Fault::Refused(Refusal::LargeGraph));
        };
        for first in 0..count {
            self.add_edge(first, None)?;
            for second in 0..first {
                self.add_edge(first, Some(second))?;
            }
        }
        Ok(())
    }

    /// The graph.
    pub(crate) fn graph(&self, alloc: Global) -> Result<Graph, Fault<Refusal>>
        ensures { IfOk result (λ g. g.vertices ≡ length self.now.tags.items) }
    {
        if self.tags.len() > MOST_DETECTORS {
            return Err(Fault::Refused(Refusal::LargeGraph));
        }
        graph_of(alloc, self.tags.len() as u32, &self.ends)
    }
}

/// The graph with these edges.
fn graph_of(alloc: Global, vertices: u32, ends: &[Ends]) -> Result<Graph, Fault<Refusal>>
    ensures { IfOk result (λ g. g.vertices ≡ vertices) }
{
    let mut edges = Vec::new(alloc);
    for pair in ends {
        let Some(edge) = edge_of(alloc, vertices, *pair) else {
            return Err(Fault::Refused(Refusal::BadEdge));
        };
        edges.push(edge)?;
    }
    if edges.len() > MOST_EDGES {
        return Err(Fault::Refused(Refusal::LargeGraph));
    }
    Ok(Graph::build(alloc, vertices, edges)?)
}

/// The edge of weight 1 with these ends, where they are two detectors or one.
fn edge_of(alloc: Global, vertices: u32, ends: Ends) -> Option<Edge>
    ensures edge { IfSome result (λ e. IsEdge vertices e) }
    ensures ends { IfSome result (λ e. e
        ≡ record { first = ends.first; second = ends.second; weight = 1; mask = [] }) }
{
    let Ends { first, second } = ends;
    let other = second.unwrap_or(first.wrapping_add(1));
    if first >= vertices || other == first || (second.is_some() && other >= vertices) {
        return None;
    }
    let mask = Labels::none();
    Some(Edge {
        first,
        second,
        weight: 1,
        mask,
    })
}
