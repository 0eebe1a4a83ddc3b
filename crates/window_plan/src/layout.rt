//! What is known of all windows before any is searched.
ghost use Rattle.std.specs.Prelude.{◌≡◌, ◌<◌, ◌≤◌, All, IfOk, length};
ghost use Rattle.window_plan.specs.Limits.{most_windows};
ghost use Rattle.window_plan.specs.Layouts.{IsLayout};

use crate::owners::owners_of;
use crate::view::WindowView;
use detector_graph::{Graph, Rows};
use std::alloc::{AllocError, Global};

/// For each detector its home, for each edge its owner, for each cell its detectors, and for each
/// window the edges that it owns.
#[derive(Drop)]
pub(crate) struct Layout {
    pub(crate) homes: Vec<u32>,
    pub(crate) owners: Vec<u32>,
    pub(crate) members: Rows,
    pub(crate) owned: Rows,
    pub(crate) windows: u32,
}

impl Layout {
    pub(crate) fn new(
        alloc: Global,
        graph: &Graph,
        homes: Vec<u32>,
        windows: u32,
    ) -> Result<Layout, AllocError>
        requires long { length homes.items ≡ graph.now.vertices }
        requires homes { All (λ home. home < windows) homes.items }
        requires few { windows ≤ most_windows }
        ensures layout { IfOk result
            (λ l. IsLayout graph.now l.homes.items l.owners.items l.members.rows l.owned.rows
            l.windows) }
        ensures homes { IfOk result (λ l. l.homes.items ≡ homes.items) }
        ensures windows { IfOk result (λ l. l.windows ≡ windows) }
    {
        graph.is_graph();
        let owners = owners_of(alloc, graph, &homes)?;
        let _vertices = graph.vertices();
        let members = Rows::grouped(alloc, &homes, windows)?;
        let owned = Rows::grouped(alloc, &owners, windows)?;
        Ok(Layout {
            homes,
            owners,
            members,
            owned,
            windows,
        })
    }

    /// One of the windows.
    pub(crate) fn view<'a>(&'a self, graph: &'a Graph, window: u32) -> WindowView<'a>
        requires { IsLayout graph.now self.now.homes.items self.now.owners.items
            self.now.members.rows self.now.owned.rows self.now.windows }
        ensures { result ≡ record {
          graph = graph.now;
          homes = self.now.homes.items;
          owners = self.now.owners.items;
          window = window;
        } }
    {
        WindowView::new(graph, &self.homes, &self.owners, window)
    }
}
