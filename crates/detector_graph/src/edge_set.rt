//! Sets of edges by their numbers.
ghost use Rattle.std.specs.Prelude.{◌≡◌, ◌<◌, ◌++◌, ◌∷◌, [], List, All, OnOk, OnErr, IfOk};
ghost use Rattle.std.specs.List.Sorted.{IsStrictlyIncreasing};
ghost use Rattle.graph_model.specs.Graph.{is_in};

use std::alloc::{AllocError, Global};
use std::marker::Model;

/// A set of edges, seen as the ascending list of their numbers.
#[derive(Drop)]
pub struct EdgeSet {
    numbers: Vec<u32>,
}

impl Model for EdgeSet {
    ghost use Rattle.std.specs.Prelude.{List, ℕ};
    ghost use Rattle.std.specs.List.Sorted.{IsStrictlyIncreasing};

    ghost Value = { List ℕ };

    ghost view = { λ s. s.numbers.items };

    ghost invariant = { λ s. IsStrictlyIncreasing s.numbers.items };
}

impl EdgeSet {
    /// The empty set.
    pub fn new(alloc: Global) -> EdgeSet
        ensures { result ≡ [] }
    {
        EdgeSet {
            numbers: Vec::new(alloc),
        }
    }

    /// Adds an edge above all members.
    pub fn push(&mut self, edge: u32) -> Result<(), AllocError>
        requires { All (λ e. e < edge) self.old }
        ensures ok { OnOk result (self.new ≡ self.old ++ edge ∷ []) }
        ensures err { OnErr result (self.new ≡ self.old) }
    {
        self.numbers.push(edge)?;
        Ok(())
    }

    /// Whether the edge is a member: a binary search.
    pub fn contains(&self, edge: u32) -> bool
        ensures { result ≡ is_in self.now edge }
    {
        self.numbers.binary_search(&edge).is_ok()
    }

    /// The members, ascending.
    pub fn as_slice(&self) -> &[u32]
        ensures value { result.now ≡ self.now }
        ensures ascending { IsStrictlyIncreasing self.now }
    {
        self.numbers.as_slice()
    }

    /// The same members again.
    pub fn copy(&self, alloc: Global) -> Result<EdgeSet, AllocError>
        ensures { IfOk result (λ s. s ≡ self.now) }
    {
        Ok(EdgeSet {
            numbers: Vec::from_slice(alloc, self.numbers.as_slice())?,
        })
    }
}
