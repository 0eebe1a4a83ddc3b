//! A first look at all windows: what they hold and whether the limits are kept.
ghost use Rattle.std.specs.Prelude.{◌≡◌, ◌<◌, ◌≤◌, ◌+◌, ◌*◌, ◌++◌, ◌∷◌, [], ℕ, List, IfOk, OnOk, None, length};
ghost use Rattle.graph_model.specs.Graph.{DetectorGraph};
ghost use Rattle.window_plan.specs.Limits.{most_windows};
ghost use Rattle.window_plan.specs.Layouts.{IsLayout, IsSurvey, deps_in, detectors_in, first_large};

use crate::gather::{dependencies, window_detectors};
use crate::layout::Layout;
use detector_graph::Graph;
use number_sets::{Lists, NumberSet};
use std::alloc::{AllocError, Global};
use std::marker::Model;

/// The detectors that a window may have.
const MOST_DETECTORS: usize = 8_192;

/// A window with more detectors than it may have.
#[derive(Clone, Copy)]
pub(crate) struct LargeWindow {
    pub(crate) window: u32,
    pub(crate) detectors: u64,
}

/// The windows' detectors and dependencies, which are kept as long as no window is too large.
#[derive(Drop)]
pub(crate) struct Survey {
    /// The edges of a walk.
    pub(crate) buffer: u32,
    pub(crate) detectors: Lists,
    pub(crate) deps: Lists,
    /// How many dependencies all windows have.
    pub(crate) links: u64,
    /// The first window that is too large.
    pub(crate) larger: Option<LargeWindow>,
}

impl Survey {
    fn new(alloc: Global, buffer: u32) -> Result<Survey, AllocError>
        ensures buffer { IfOk result (λ s. s.buffer ≡ buffer) }
        ensures survey { IfOk result (λ s. (g : DetectorGraph) (homes : List ℕ) (count : ℕ) →
            IsSurvey g homes count buffer 0 s.detectors s.deps s.links s.larger) }
    {
        let detectors = Lists::new(alloc)?;
        let deps = Lists::new(alloc)?;
        Ok(Survey {
            buffer,
            detectors,
            deps,
            links: 0,
            larger: None,
        })
    }

    /// Takes up the next window.
    fn add(&mut self, window: u32, detectors: &[u32], deps: &[u32]) -> Result<(), AllocError>
        requires room { (self.old.links ≤ most_windows * window) × (window < most_windows)
            × (length deps.now ≤ most_windows) }
        ensures buffer { self.new.buffer ≡ self.old.buffer }
        ensures links { OnOk result (self.new.links ≡ self.old.links + length deps.now) }
        ensures larger { OnOk result (self.new.larger ≡ first_large self.old.larger window
            (length detectors.now)) }
        ensures detectors { OnOk result (self.new.larger ≡ None →
            self.new.detectors ≡ self.old.detectors ++ detectors.now ∷ []) }
        ensures deps { OnOk result (self.new.larger ≡ None →
            self.new.deps ≡ self.old.deps ++ deps.now ∷ []) }
    {
        self.links += deps.len() as u64;
        if self.larger.is_some() {
            return Ok(());
        }
        if detectors.len() > MOST_DETECTORS {
            self.larger = Some(LargeWindow {
                window,
                detectors: detectors.len() as u64,
            });
            return Ok(());
        }
        self.detectors.push(detectors)?;
        self.deps.push(deps)?;
        Ok(())
    }
}

/// What is searched for in one window after another, and what was found in the last one.
struct Scratch<'a> {
    graph: &'a Graph,
    layout: &'a Layout,
    /// The edges of a walk.
    buffer: u32,
    found: NumberSet,
    lower: NumberSet,
    detectors: Vec<u32>,
    deps: Vec<u32>,
}

impl<'a> Drop for Scratch<'a> {
    fn drop(self) {
        let Scratch {
            graph: _,
            layout: _,
            buffer: _,
            found: _,
            lower: _,
            detectors: _,
            deps: _,
        } = self;
    }
}

impl<'a> Model for Scratch<'a> {
    ghost use Rattle.window_plan.specs.Layouts.{AreSearched, IsLayout, Searched};

    ghost Value = { Searched };

    ghost view = { λ s. record {
      windows = record {
        graph = s.graph.now;
        homes = s.layout.now.homes.items;
        count = s.layout.now.windows;
        buffer = s.buffer;
      };
      detectors = s.detectors.items;
      deps = s.deps.items;
    } };

    ghost invariant = { λ s. AreSearched s.graph.now s.layout.now.homes.items
        s.layout.now.owners.items s.layout.now.members.rows s.layout.now.owned.rows
        s.layout.now.windows s.found.bound s.lower.bound };
}

impl<'a> Scratch<'a> {
    fn new(
        alloc: Global,
        graph: &'a Graph,
        layout: &'a Layout,
        buffer: u32,
    ) -> Result<Scratch<'a>, AllocError>
        requires { IsLayout graph.now layout.now.homes.items layout.now.owners.items
            layout.now.members.rows layout.now.owned.rows layout.now.windows }
        ensures { IfOk result (λ s. s.windows ≡ record {
          graph = graph.now;
          homes = layout.now.homes.items;
          count = layout.now.windows;
          buffer = buffer;
        }) }
    {
        let found = NumberSet::new(alloc, graph.vertices())?;
        let lower = NumberSet::new(alloc, layout.windows)?;
        Ok(Scratch {
            graph,
            layout,
            buffer,
            found,
            lower,
            detectors: Vec::new(alloc),
            deps: Vec::new(alloc),
        })
    }

    /// Finds the detectors and the dependencies of a window.
    fn look_at(&mut self, window: u32) -> Result<(), AllocError>
        requires { window < self.old.windows.count }
        ensures windows { self.new.windows ≡ self.old.windows }
        ensures detectors { OnOk result (self.new.detectors
            ≡ detectors_in self.old.windows window) }
        ensures deps { OnOk result (self.new.deps ≡ deps_in self.old.windows window) }
    {
        let view = self.layout.view(self.graph, window);
        view.is_view();
        let cell = self.layout.members.row(window);
        window_detectors(
            &view,
            self.buffer,
            cell,
            &mut self.found,
            &mut self.detectors,
        )?;
        dependencies(&view, &self.detectors, &mut self.lower, &mut self.deps)
    }

    /// The detectors of the window that was looked at last.
    fn detectors(&self) -> &[u32]
        ensures { result.now ≡ self.now.detectors }
    {
        self.detectors.as_slice()
    }

    /// The windows on which it depends.
    fn deps(&self) -> &[u32]
        ensures { result.now ≡ self.now.deps }
    {
        self.deps.as_slice()
    }
}

/// Looks at all windows, one by one.
pub(crate) fn look_at_all(
    alloc: Global,
    graph: &Graph,
    layout: &Layout,
    buffer: u32,
) -> Result<Survey, AllocError>
    requires { IsLayout graph.now layout.now.homes.items layout.now.owners.items
        layout.now.members.rows layout.now.owned.rows layout.now.windows }
    ensures buffer { IfOk result (λ s. s.buffer ≡ buffer) }
    ensures survey { IfOk result (λ s. IsSurvey graph.now layout.now.homes.items
        layout.now.windows buffer layout.now.windows s.detectors s.deps s.links s.larger) }
{
    let mut scratch = Scratch::new(alloc, graph, layout, buffer)?;
    let mut survey = Survey::new(alloc, buffer)?;
    for window in 0..layout.windows {
        scratch.look_at(window)?;
        survey.add(window, scratch.detectors(), scratch.deps())?;
    }
    Ok(survey)
}
