//! Least walk weights between the members of a problem.
ghost use Rattle.std.specs.Prelude.{◌≡◌, ◌<◌, ◌≤◌, ◌+◌, ◌*◌, ℕ, [], suc, All, List, Some, slice_get, slice_index, slice_index_or, slice_range, length, IfOk, sum_by};
ghost use Rattle.matching_model.specs.Certificates.{free_end, has_defect, members};
ghost use Rattle.graph_model.specs.Problems.{problem_weight};
ghost use Rattle.matching_model.specs.Joins.{IsJoin};
ghost use Rattle.dist_search.specs.Tables.{IsTable, IsTableOf, dist_of};
ghost use Rattle.graph_model.specs.Limits.{most_places};

use crate::homes::{Homes, Route, Rows};
use crate::search::{Search, Step};
use crate::star::{Sense, Star};
use crate::trace::edges_on;
use detector_graph::{EdgeSet, Problem};
use graph_model::PartEdge;
use std::alloc::{AllocError, Global};
use std::marker::Model;

/// The least weight of a walk between every two members of a problem.
///
/// The members are the places with a defect, in order, and the free ends as one
/// vertex after them where the defects are odd in number. A walk may pass
/// through the free ends.
pub struct DistTable {
    members: Vec<u32>,
    entries: Vec<u32>,
    routes: Vec<Route>,
    steps: Vec<Step>,
}

impl Drop for DistTable {
    fn drop(self) {
        let DistTable {
            members: _,
            entries: _,
            routes: _,
            steps: _,
        } = self;
    }
}

impl Model for DistTable {
    ghost use Rattle.dist_search.specs.Tables.{Distances, IsTable};

    ghost Value = { Distances };

    ghost view = { λ t. record {
      members = t.members.items;
      entries = t.entries.items;
      routes = t.routes.items;
      steps = t.steps.items;
    } };

    ghost invariant = { λ t. IsTable (record {
      members = t.members.items;
      entries = t.entries.items;
      routes = t.routes.items;
      steps = t.steps.items;
    }) };
}

impl DistTable {
    /// What holds of each table: as many rows as columns, even in number, and
    /// the same both ways.
    pub fn is_table(&self)
        ensures { IsTable self.now }
    {
        let _ = &self.entries;
    }

    /// How many members there are.
    pub fn count(&self) -> u32
        ensures { result ≡ length self.now.members }
    {
        self.members.len() as u32
    }

    /// The least weight of a walk between two members.
    pub fn dist(&self, i: u32, j: u32) -> u32
        requires first { i < length self.now.members }
        requires second { j < length self.now.members }
        ensures { result ≡ dist_of self.now i j }
    {
        self.entries[i as usize * self.members.len() + j as usize]
    }

    /// The least weights of walks from one member to each.
    pub fn row(&self, i: u32) -> &[u32]
        requires { i < length self.now.members }
        ensures count { length result.now ≡ length self.now.members }
        ensures entry { (j : ℕ) → j < length self.now.members → slice_index result.now j
            ≡ dist_of self.now i j }
    {
        let count = self.members.len();
        let start = i as usize * count;
        part(&self.entries, start, start + count)
    }

    /// The edges that lie an odd number of times on a least walk between two
    /// members of the problem that the table was made of.
    pub fn walk(
        &self,
        alloc: Global,
        problem: &Problem,
        i: u32,
        j: u32,
    ) -> Result<EdgeSet, AllocError>
        requires table { IsTableOf problem.now self.now }
        requires first { i < length self.now.members }
        requires second { j < length self.now.members }
        ensures join { IfOk result (IsJoin problem.now i j (dist_of self.now i j)) }
        ensures weight { IfOk result (λ set. sum_by (problem_weight problem.now) set
            ≡ dist_of self.now i j) }
    {
        problem.is_problem();
        edges_on(alloc, &self.steps, self.route(i, j))
    }

    fn route(&self, i: u32, j: u32) -> Route
        requires first { i < length self.now.members }
        requires second { j < length self.now.members }
        ensures { result ≡ slice_index_or self.now.routes (i * length self.now.members + j) result }
    {
        self.routes[i as usize * self.members.len() + j as usize]
    }
}

fn part(entries: &[u32], start: usize, end: usize) -> &[u32]
    requires rise { start ≤ end }
    requires within { end ≤ length entries.now }
    ensures { result.now ≡ slice_range entries.now start end }
{
    &entries[start..end]
}

/// The members' distances. Where there are no defects, no step is looked at.
pub fn distances(alloc: Global, problem: &Problem) -> Result<DistTable, AllocError>
    ensures { IfOk result (IsTableOf problem.now) }
{
    let members = members_of(alloc, problem)?;
    if members.is_empty() {
        return Ok(no_distances(alloc, problem, members));
    }
    table_over(alloc, problem, members)
}

/// The table of a problem that has no members.
fn no_distances(alloc: Global, problem: &Problem, vertices: Vec<u32>) -> DistTable
    requires none { vertices.items ≡ [] }
    requires members { vertices.items ≡ members problem.now }
    ensures { IsTableOf problem.now result }
{
    problem.is_problem();
    DistTable {
        members: vertices,
        entries: Vec::new(alloc),
        routes: Vec::new(alloc),
        steps: Vec::new(alloc),
    }
}

/// The distances of these members, by searches that stop where walks through
/// the free ends are as near.
fn table_over(alloc: Global, problem: &Problem, vertices: Vec<u32>) -> Result<DistTable, AllocError>
    requires { vertices.items ≡ members problem.now }
    ensures { IfOk result (IsTableOf problem.now) }
{
    problem.is_problem();
    let mut search = Search::new(alloc, place_count(problem) + 1)?;
    let homes = Homes::new(alloc, problem, &mut search, &vertices)?;
    let near = Star::new(problem, &homes.weights, Sense::Outward);
    let rows = Rows::new(alloc, problem, &near, &homes, &mut search, &vertices)?;
    Ok(DistTable {
        members: vertices,
        entries: rows.entries,
        routes: rows.routes,
        steps: search.into_steps(),
    })
}

/// The places with a defect, and the free ends where these are odd in number.
fn members_of(alloc: Global, problem: &Problem) -> Result<Vec<u32>, AllocError>
    ensures { IfOk result (λ vertices. vertices.items ≡ members problem.now) }
{
    let places = place_count(problem);
    let mut members = Vec::new(alloc);
    let mut odd = false;
    for place in 0..places {
        if is_defect(problem, place) {
            members.push(place)?;
            odd = !odd;
        }
    }
    if odd {
        members.push(places)?;
    }
    Ok(members)
}

fn is_defect(problem: &Problem, place: u32) -> bool
    requires { place < free_end problem.now }
    ensures { result ≡ has_defect problem.now place }
{
    problem.is_problem();
    problem.defects.get(place)
}

pub(crate) fn place_count(problem: &Problem) -> u32
    ensures count { result ≡ free_end problem.now }
    ensures few { result ≤ most_places }
{
    problem.is_problem();
    problem.part.detectors.len() as u32
}

pub(crate) fn edge_at(problem: &Problem, at: u32) -> PartEdge
    requires { at < length problem.now.part.edges }
    ensures { slice_get problem.now.part.edges at ≡ Some result }
{
    problem.part.edge(at)
}
