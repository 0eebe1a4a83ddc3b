//! Plans: the windows of a graph, and how they depend on one another.
ghost use Rattle.std.specs.Prelude.{◌≡◌, ◌<◌, true, Some, length, slice_get};
ghost use Rattle.graph_model.specs.Graph.{is_in};
ghost use Rattle.window_model.specs.Windows.{home_of, window_at, window_count};
ghost use Rattle.window_plan.specs.Placed.{IsOrdered, places_at};
ghost use Rattle.window_plan.specs.Ranks.{cell_at};

use detector_graph::{Rows, Tag};
use number_sets::Lists;
use std::marker::Model;

/// The windows of a graph, numbered by rank.
pub struct Plan {
    pub(crate) cells: Vec<Tag>,
    pub(crate) homes: Vec<u32>,
    pub(crate) detectors: Lists,
    pub(crate) edges: Lists,
    pub(crate) owned: Rows,
    pub(crate) deps: Lists,
    pub(crate) lasts: Vec<u32>,
    /// For each link the places that the two windows share. Links are numbered in order of window
    /// and dependency.
    pub(crate) places: Lists,
}

impl Drop for Plan {
    fn drop(self) {
        let Plan {
            cells: _,
            homes: _,
            detectors: _,
            edges: _,
            owned: _,
            deps: _,
            lasts: _,
            places: _,
        } = self;
    }
}

impl Model for Plan {
    ghost use Rattle.std.specs.Prelude.{map};
    ghost use Rattle.window_plan.specs.Placed.{IsTable, PlacedPlan, places_by_window, windows_by};
    ghost use Rattle.window_plan.specs.Ranks.{cell_at};

    ghost Value = { PlacedPlan };

    ghost view = { λ p. record {
      plan = record {
        cells = map cell_at p.cells.items;
        homes = p.homes.items;
        windows = windows_by p.detectors p.edges p.owned.rows p.deps p.lasts.items;
      };
      places = places_by_window p.deps p.places;
    } };

    ghost invariant = { λ p. IsTable p.cells.items p.detectors p.edges p.owned.rows p.deps
        p.lasts.items p.places };
}

impl Plan {
    /// What holds of each plan, whatever graph it was made of: it has at most 4,096 windows of at
    /// most
    /// 8,192 detectors each, and all its lists ascend.
    pub fn is_plan(&self)
        ensures { IsOrdered self.now }
    {
        let _ = &self.cells;
    }

    /// How many windows there are.
    pub fn windows(&self) -> u32
        ensures { result ≡ window_count self.now.plan }
    {
        self.lasts.len() as u32
    }

    /// A window's cell. Its slot is the block's number.
    pub fn cell(&self, window: u32) -> Tag
        requires { window < window_count self.now.plan }
        ensures { slice_get self.now.plan.cells window ≡ Some (cell_at result) }
    {
        self.cells[window as usize]
    }

    /// The window in whose cell a detector is.
    pub fn home(&self, detector: u32) -> u32
        requires { detector < length self.now.plan.homes }
        ensures { result ≡ home_of self.now.plan.homes detector }
    {
        self.homes[detector as usize]
    }

    /// The detectors that a window decodes, ascending.
    pub fn detectors(&self, window: u32) -> &[u32]
        requires { window < window_count self.now.plan }
        ensures { result.now ≡ (window_at self.now.plan window).detectors }
    {
        self.detectors.get(window as usize)
    }

    /// The edges that a window decodes with, ascending.
    pub fn edges(&self, window: u32) -> &[u32]
        requires { window < window_count self.now.plan }
        ensures { result.now ≡ (window_at self.now.plan window).edges }
    {
        self.edges.get(window as usize)
    }

    /// The edges that a window commits, ascending: its commit region.
    pub fn owned(&self, window: u32) -> &[u32]
        requires { window < window_count self.now.plan }
        ensures { result.now ≡ (window_at self.now.plan window).owned }
    {
        self.owned.row(window)
    }

    /// The windows on whose commits a window depends, ascending.
    pub fn deps(&self, window: u32) -> &[u32]
        requires { window < window_count self.now.plan }
        ensures { result.now ≡ (window_at self.now.plan window).deps }
    {
        self.deps.get(window as usize)
    }

    /// The last slot of a window's detectors.
    pub fn last_slot(&self, window: u32) -> u32
        requires { window < window_count self.now.plan }
        ensures { result ≡ (window_at self.now.plan window).last }
    {
        self.lasts[window as usize]
    }

    /// The detectors of a window at an edge that its dependency owns, ascending.
    pub fn places(&self, dependency: u32, window: u32) -> &[u32]
        requires window { window < window_count self.now.plan }
        requires dependency { is_in (window_at self.now.plan window).deps dependency ≡ true }
        ensures { result.now ≡ places_at self.now dependency window }
    {
        match self.deps.get(window as usize).binary_search(&dependency) {
            Ok(place) => {
                let link = self.deps.before(window as usize) + place;
                self.places.get(link)
            }
            Err(_) => unreachable!(),
        }
    }
}
