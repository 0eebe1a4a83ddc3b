//! One window of a graph.
ghost use Rattle.std.specs.Prelude.{◌≡◌, ◌<◌, Some, length, map, slice_get, slice_index};
ghost use Rattle.graph_model.specs.Graph.{IsEdge, IsGraph, incident_edges};
ghost use Rattle.window_model.specs.Windows.{home_of, owner_of};

use detector_graph::{Edge, Graph};
use std::marker::Model;

/// A window of a graph, with the homes of all detectors and the owners of all edges.
#[derive(Drop)]
pub(crate) struct WindowView<'a> {
    graph: &'a Graph,
    homes: &'a [u32],
    owners: &'a [u32],
    window: u32,
}

impl<'a> Model for WindowView<'a> {
    ghost use Rattle.window_plan.specs.Views.{Viewed, IsOwned};

    ghost Value = { Viewed };

    ghost view = { λ v. record {
      graph = v.graph.now;
      homes = v.homes.now;
      owners = v.owners.now;
      window = v.window;
    } };

    ghost invariant = { λ v. IsOwned v.graph.now v.homes.now v.owners.now };
}

impl<'a> WindowView<'a> {
    pub(crate) fn new(
        graph: &'a Graph,
        homes: &'a [u32],
        owners: &'a [u32],
        window: u32,
    ) -> WindowView<'a>
        requires homes { length homes.now ≡ graph.now.vertices }
        requires owners { owners.now ≡ map (owner_of homes.now) graph.now.edges }
        ensures { result ≡ record {
          graph = graph.now;
          homes = homes.now;
          owners = owners.now;
          window = window;
        } }
    {
        WindowView {
            graph,
            homes,
            owners,
            window,
        }
    }

    /// What holds of each view.
    pub(crate) fn is_view(&self)
        ensures graph { IsGraph self.now.graph }
        ensures homes { length self.now.homes ≡ self.now.graph.vertices }
        ensures owners { self.now.owners ≡ map (owner_of self.now.homes) self.now.graph.edges }
    {
        self.graph.is_graph();
    }

    /// The window's number.
    pub(crate) fn window(&self) -> u32
        ensures { result ≡ self.now.window }
    {
        self.window
    }

    /// The window at which a detector is at home.
    pub(crate) fn home(&self, detector: u32) -> u32
        requires { detector < self.now.graph.vertices }
        ensures { result ≡ home_of self.now.homes detector }
    {
        self.homes[detector as usize]
    }

    /// The window that owns an edge.
    pub(crate) fn owner(&self, edge: u32) -> u32
        requires { edge < length self.now.graph.edges }
        ensures { result ≡ slice_index self.now.owners edge }
    {
        self.owners[edge as usize]
    }

    /// The edges that end at a detector, ascending.
    pub(crate) fn incident(&self, detector: u32) -> &[u32]
        requires { detector < self.now.graph.vertices }
        ensures { result.now ≡ incident_edges self.now.graph detector }
    {
        self.graph.incident(detector)
    }

    /// The edge of this number.
    pub(crate) fn edge(&self, number: u32) -> &Edge
        requires { number < length self.now.graph.edges }
        ensures value { slice_get self.now.graph.edges number ≡ Some result.now }
        ensures fits { IsEdge self.now.graph.vertices result.now }
    {
        self.graph.edge(number)
    }
}
