//! What windows hold beside their detectors, dependencies and own edges.
ghost use Rattle.std.specs.Prelude.{◌≡◌, ◌<◌, ◌++◌, ◌∷◌, [], All, IfOk, OnOk, length, map};
ghost use Rattle.std.specs.List.{range_with_len};
ghost use Rattle.window_model.specs.Windows.{detectors_of};
ghost use Rattle.window_plan.specs.Contents.{AreContents, edges_in, last_in, links_in};
ghost use Rattle.window_plan.specs.Gathers.{places_by};
ghost use Rattle.window_plan.specs.Layouts.{IsLayout, deps_at};

use crate::gather::{border_of, last_slot, places_of, window_edges};
use crate::layout::Layout;
use crate::survey::Survey;
use crate::view::WindowView;
use detector_graph::{Graph, Tag};
use number_sets::{Lists, NumberSet};
use std::alloc::{AllocError, Global};
use std::marker::Model;

/// By window its edges and its last slot, and by link its places.
#[derive(Drop)]
pub(crate) struct Contents {
    pub(crate) edges: Lists,
    pub(crate) lasts: Vec<u32>,
    pub(crate) places: Lists,
}

/// What is gathered of one window after another: its edges, its border, and what it shares with a
/// dependency.
struct Scratch<'a> {
    graph: &'a Graph,
    tags: &'a [Tag],
    layout: &'a Layout,
    survey: &'a Survey,
    touched: NumberSet,
    edges: Vec<u32>,
    border: Vec<u32>,
    shared: Vec<u32>,
}

impl<'a> Drop for Scratch<'a> {
    fn drop(self) {
        let Scratch {
            graph: _,
            tags: _,
            layout: _,
            survey: _,
            touched: _,
            edges: _,
            border: _,
            shared: _,
        } = self;
    }
}

impl<'a> Model for Scratch<'a> {
    ghost use Rattle.window_plan.specs.Contents.{AreGathered, Gathered};

    ghost Value = { Gathered };

    ghost view = { λ s. record {
      windows = record {
        graph = s.graph.now;
        homes = s.layout.now.homes.items;
        count = s.layout.now.windows;
        buffer = s.survey.now.buffer;
      };
      tags = s.tags.now;
    } };

    ghost invariant = { λ s. AreGathered s.graph.now s.tags.now s.layout.now.homes.items
        s.layout.now.owners.items s.layout.now.members.rows s.layout.now.owned.rows
        s.layout.now.windows s.survey.now.buffer s.survey.now.detectors s.survey.now.deps
        s.touched.bound };
}

impl<'a> Scratch<'a> {
    fn new(
        alloc: Global,
        graph: &'a Graph,
        tags: &'a [Tag],
        layout: &'a Layout,
        survey: &'a Survey,
    ) -> Result<Scratch<'a>, AllocError>
        requires layout { IsLayout graph.now layout.now.homes.items layout.now.owners.items
            layout.now.members.rows layout.now.owned.rows layout.now.windows }
        requires tags { length tags.now ≡ graph.now.vertices }
        requires detectors { survey.now.detectors
            ≡ map (detectors_of graph.now layout.now.homes.items survey.now.buffer)
            (range_with_len 0 layout.now.windows) }
        requires deps { survey.now.deps
            ≡ map (deps_at graph.now layout.now.homes.items layout.now.windows survey.now.buffer)
            (range_with_len 0 layout.now.windows) }
        ensures { IfOk result (λ s. s ≡ record {
          windows = record {
            graph = graph.now;
            homes = layout.now.homes.items;
            count = layout.now.windows;
            buffer = survey.now.buffer;
          };
          tags = tags.now;
        }) }
    {
        let touched = NumberSet::new(alloc, graph.edges())?;
        Ok(Scratch {
            graph,
            tags,
            layout,
            survey,
            touched,
            edges: Vec::new(alloc),
            border: Vec::new(alloc),
            shared: Vec::new(alloc),
        })
    }

    /// Adds the list of a window's edges.
    fn add_edges(&mut self, window: u32, edges: &mut Lists) -> Result<(), AllocError>
        requires { window < self.old.windows.count }
        ensures same { self.new ≡ self.old }
        ensures edges { OnOk result (edges.new ≡ edges.old ++ edges_in self.old window ∷ []) }
    {
        self.graph.is_graph();
        let view = self.layout.view(self.graph, window);
        let detectors = self.survey.detectors.get(window as usize);
        window_edges(&view, detectors, &mut self.touched, &mut self.edges)?;
        edges.push(&self.edges)
    }

    /// The last slot of a window.
    fn last(&self, window: u32) -> u32
        requires { window < self.now.windows.count }
        ensures { result ≡ last_in self.now window }
    {
        self.graph.is_graph();
        let detectors = self.survey.detectors.get(window as usize);
        last_slot(self.tags, detectors)
    }

    /// Adds a list for each dependency of a window: its detectors at an edge that the dependency
    /// owns.
    fn add_places(&mut self, window: u32, places: &mut Lists) -> Result<(), AllocError>
        requires { window < self.old.windows.count }
        ensures same { self.new ≡ self.old }
        ensures places { OnOk result (places.new ≡ places.old ++ links_in self.old window) }
    {
        self.graph.is_graph();
        let view = self.layout.view(self.graph, window);
        let detectors = self.survey.detectors.get(window as usize);
        let deps = self.survey.deps.get(window as usize);
        border_of(&view, detectors, &mut self.border)?;
        push_places(&view, deps, &self.border, &mut self.shared, places)
    }
}

impl Contents {
    fn new(alloc: Global) -> Result<Contents, AllocError>
        ensures edges { IfOk result (λ s. s.edges ≡ []) }
        ensures lasts { IfOk result (λ s. s.lasts.items ≡ []) }
        ensures places { IfOk result (λ s. s.places ≡ []) }
    {
        let edges = Lists::new(alloc)?;
        let places = Lists::new(alloc)?;
        Ok(Contents {
            edges,
            lasts: Vec::new(alloc),
            places,
        })
    }
}

/// Adds a list for each of the dependencies: those of the detectors at an edge that it owns.
fn push_places(
    view: &WindowView,
    deps: &[u32],
    border: &[u32],
    shared: &mut Vec<u32>,
    places: &mut Lists,
) -> Result<(), AllocError>
    requires { All (λ x. x < view.now.graph.vertices) border.now }
    ensures places { OnOk result (places.new ≡ places.old
        ++ map (λ x. places_by view.now.graph view.now.owners x border.now) deps.now) }
{
    for dep in deps {
        places_of(view, *dep, border, shared)?;
        places.push(shared)?;
    }
    Ok(())
}

/// What all windows hold, where none is too large.
pub(crate) fn fill(
    alloc: Global,
    graph: &Graph,
    tags: &[Tag],
    layout: &Layout,
    survey: &Survey,
) -> Result<Contents, AllocError>
    requires layout { IsLayout graph.now layout.now.homes.items layout.now.owners.items
        layout.now.members.rows layout.now.owned.rows layout.now.windows }
    requires tags { length tags.now ≡ graph.now.vertices }
    requires detectors { survey.now.detectors
        ≡ map (detectors_of graph.now layout.now.homes.items survey.now.buffer)
        (range_with_len 0 layout.now.windows) }
    requires deps { survey.now.deps
        ≡ map (deps_at graph.now layout.now.homes.items layout.now.windows survey.now.buffer)
        (range_with_len 0 layout.now.windows) }
    ensures { IfOk result (λ s. AreContents graph.now tags.now layout.now.homes.items
        layout.now.windows survey.now.buffer layout.now.windows s.edges s.lasts.items s.places) }
{
    let mut scratch = Scratch::new(alloc, graph, tags, layout, survey)?;
    let mut contents = Contents::new(alloc)?;
    for window in 0..layout.windows {
        scratch.add_edges(window, &mut contents.edges)?;
        contents.lasts.push(scratch.last(window))?;
        scratch.add_places(window, &mut contents.places)?;
    }
    Ok(contents)
}
