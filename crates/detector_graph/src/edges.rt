//! The edges of a graph.
ghost use Rattle.std.specs.Prelude.{◌≡◌, [], IfOk};
ghost use Rattle.graph_model.specs.Graph.{is_in};

use std::alloc::{AllocError, Global};
use std::marker::Model;

/// The observables that an edge flips, by their numbers. Nearly all edges flip none: those take a
/// word and no memory of their own.
#[derive(Drop)]
pub struct Labels {
    numbers: Option<Box<Vec<u16>>>,
}

impl Model for Labels {
    ghost use Rattle.std.specs.Option.{option_map_or};
    ghost use Rattle.std.specs.Prelude.{List, ℕ, []};

    ghost Value = { List ℕ };

    ghost view = { λ l. option_map_or (λ numbers. numbers.value.items) l.numbers [] };
}

impl Labels {
    /// No observable.
    pub fn none() -> Labels
        ensures { result ≡ [] }
    {
        Labels { numbers: None }
    }

    /// These observables. The mask of a graph's edge ascends and has numbers below 512.
    pub fn new(alloc: Global, numbers: Vec<u16>) -> Result<Labels, AllocError>
        ensures { IfOk result (λ l. l ≡ numbers.items) }
    {
        if numbers.is_empty() {
            return Ok(Labels::none());
        }
        let numbers = Some(Box::new(alloc, numbers)?);
        Ok(Labels { numbers })
    }

    /// Whether the observable is one of them.
    pub fn contains(&self, label: u16) -> bool
        ensures { result ≡ is_in self.now label }
    {
        self.as_slice().iter().any(|number| *number == label)
    }

    /// Their numbers, in order.
    pub fn as_slice(&self) -> &[u16]
        ensures { result.now ≡ self.now }
    {
        match &self.numbers {
            None => &[],
            Some(numbers) => numbers.as_slice(),
        }
    }
}

/// An edge between two detectors, or, with no second one, from a detector to the open boundary.
#[derive(Drop)]
pub struct Edge {
    pub first: u32,
    /// Another detector than the first.
    pub second: Option<u32>,
    /// At most 1,000 in a graph.
    pub weight: u32,
    pub mask: Labels,
}

impl Model for Edge {
    ghost use Rattle.graph_model.specs.Graph.{GraphEdge};

    ghost Value = { GraphEdge };

    ghost view = { λ e. record {
      first = e.first;
      second = e.second;
      weight = e.weight;
      mask = e.mask;
    } };
}
