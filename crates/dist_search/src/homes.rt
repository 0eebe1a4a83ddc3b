//! Walks from the free ends, and walks between members, which may go through them.
ghost use Rattle.std.specs.Prelude.{◌≡◌, ◌<◌, ◌≤◌, ◌+◌, ◌-◌, ◌*◌, ◌++◌, [], ℕ, suc, All, length, map, IfOk, OnOk, slice_index, vec_len};
ghost use Rattle.matching_model.specs.Certificates.{free_end};
ghost use Rattle.detector_graph.specs.Steps.{AreHomes as AreWeights};
ghost use Rattle.dist_search.specs.Hops.{AreEnds, IsClose, IsSearch, hops_from, most_distance};
ghost use Rattle.dist_search.specs.Tables.{AreHomes, AreNear, AreRows, route_between, weight_between};
ghost use Rattle.graph_model.specs.Limits.{most_places};

use crate::search::Search;
use crate::star::{Sense, Star};
use detector_graph::Problem;
use std::alloc::{AllocError, Global};

/// The weights of least walks from the free ends to all vertices, and such walks for some vertices.
#[derive(Drop)]
pub(crate) struct Homes {
    pub weights: Vec<u32>,
    /// How many steps were noted when each of those walks was.
    pub ends: Vec<usize>,
}

/// A walk in two parts, by how many steps were noted when each was, or 0 where it has no steps.
#[derive(Clone, Copy)]
pub(crate) struct Route {
    pub first: usize,
    pub second: usize,
}

/// The distances between vertices, row by row, and a walk for each.
#[derive(Drop)]
pub(crate) struct Rows {
    pub entries: Vec<u32>,
    pub routes: Vec<Route>,
}

impl Homes {
    /// The weights that the part has, and a walk for each of these vertices.
    pub fn new(
        alloc: Global,
        problem: &Problem,
        search: &mut Search,
        vertices: &[u32],
    ) -> Result<Homes, AllocError>
        requires low { All (λ v. v < suc (free_end problem.now)) vertices.now }
        requires search { IsSearch (suc (free_end problem.now)) search.old.left.items
            search.old.ends.items search.old.reached.items }
        ensures homes { IfOk result (λ homes. AreHomes problem.now vertices.now homes.weights.items
            homes.ends.items search.new.steps.items) }
        ensures close { IfOk result (λ homes. All (IsClose homes.weights.items)
            (hops_from problem.now problem.now.part.edges)) }
        ensures search { IfOk result (λ homes. IsSearch (suc (free_end problem.now))
            search.new.left.items search.new.ends.items search.new.reached.items) }
    {
        problem.is_problem();
        let weights = home_weights(alloc, problem)?;
        let star = Star::new(problem, &weights, Sense::Homeward);
        let ends = home_ends(alloc, &star, search, vertices)?;
        Ok(Homes { weights, ends })
    }

    /// The weight of a least walk between two vertices, where a search from the
    /// first has found what is left at the second.
    fn weight(&self, from: u32, to: u32, left: u32) -> u32
        requires from { from < vec_len self.now.weights }
        requires to { to < vec_len self.now.weights }
        requires low { All (λ d. d ≤ most_distance) self.now.weights.items }
        requires left { left ≤ slice_index self.now.weights.items from + slice_index
            self.now.weights.items to }
        ensures { result ≡ slice_index self.now.weights.items from + slice_index
            self.now.weights.items to - left }
    {
        self.weights[from as usize] + self.weights[to as usize] - left
    }

    /// That walk: by the search's steps, or else through the free ends.
    fn route(&self, from: u32, to: u32, search: &Search) -> Route
        requires from { from < vec_len self.now.ends }
        requires to { to < vec_len self.now.ends }
        requires count { vec_len search.now.left ≡ vec_len self.now.ends }
        requires count_ends { vec_len search.now.ends ≡ vec_len self.now.ends }
        ensures { result ≡ route_between self.now.ends.items search.now.left.items
            search.now.ends.items from to }
    {
        if search.left[to as usize] > 0 {
            Route {
                first: search.ends[to as usize],
                second: 0,
            }
        } else {
            Route {
                first: self.ends[from as usize],
                second: self.ends[to as usize],
            }
        }
    }
}

/// The weights of least walks to the free ends.
fn home_weights(alloc: Global, problem: &Problem) -> Result<Vec<u32>, AllocError>
    ensures { IfOk result (λ weights. AreWeights (free_end problem.now) problem.now.part.edges
        weights.items) }
{
    problem.is_problem();
    let weights = Vec::from_slice(alloc, problem.part.homes())?;
    Ok(weights)
}

/// How many steps were noted when a walk from each of these vertices to the free ends was, along
/// steps that lead nearer by all that they weigh.
fn home_ends(
    alloc: Global,
    star: &Star<'_>,
    search: &mut Search,
    vertices: &[u32],
) -> Result<Vec<usize>, AllocError>
    requires some { 0 < star.now.vertices }
    requires low { All (λ v. v < star.now.vertices) vertices.now }
    requires search { IsSearch star.now.vertices search.old.left.items search.old.ends.items
        search.old.reached.items }
    ensures count { IfOk result (λ ends. length ends.items ≡ star.now.vertices) }
    ensures ends { IfOk result (λ ends. AreEnds star.now (length vertices.now) vertices.now
        ends.items search.new.steps.items) }
    ensures search { IfOk result (λ ends. IsSearch star.now.vertices search.new.left.items
        search.new.ends.items search.new.reached.items) }
{
    let free_end = star.vertices() - 1;
    let mut ends = vec![in alloc; 0; star.vertices() as usize]?;
    for vertex in vertices {
        search.run(star, *vertex, 1, Some(free_end))?;
        ends[*vertex as usize] = search.ends[free_end as usize];
    }
    Ok(ends)
}

impl Rows {
    /// A search from each of these vertices, as far as walks through the free
    /// ends are not as near.
    pub fn new(
        alloc: Global,
        problem: &Problem,
        star: &Star<'_>,
        homes: &Homes,
        search: &mut Search,
        vertices: &[u32],
    ) -> Result<Rows, AllocError>
        requires low { All (λ v. v < suc (free_end problem.now)) vertices.now }
        requires few { length vertices.now ≤ most_places }
        requires vertices { star.now.vertices ≡ suc (free_end problem.now) }
        requires hops { AreNear problem.now homes.now.weights.items star.now.hops }
        requires homes { AreHomes problem.now vertices.now homes.now.weights.items
            homes.now.ends.items search.old.steps.items }
        requires search { IsSearch star.now.vertices search.old.left.items search.old.ends.items
            search.old.reached.items }
        ensures { IfOk result (λ rows. AreRows problem.now vertices.now (length vertices.now)
            rows.entries.items rows.routes.items search.new.steps.items) }
    {
        problem.is_problem();
        let mut rows = Rows::with_room(alloc, vertices.len())?;
        for vertex in vertices {
            search.run(star, *vertex, 2 * homes.weights[*vertex as usize], None)?;
            rows.push(homes, search, *vertex, vertices)?;
        }
        Ok(rows)
    }

    /// No walks yet, with room for those between so many vertices.
    fn with_room(alloc: Global, count: usize) -> Result<Rows, AllocError>
        requires { count ≤ most_places }
        ensures entries { IfOk result (λ rows. rows.entries.items ≡ []) }
        ensures routes { IfOk result (λ rows. rows.routes.items ≡ []) }
    {
        let pairs = count * count;
        let entries = Vec::with_capacity(alloc, pairs)?;
        let routes = Vec::with_capacity(alloc, pairs)?;
        Ok(Rows { entries, routes })
    }

    /// Adds the walks from a vertex to these vertices, as a search from it has found them.
    fn push(
        &mut self,
        homes: &Homes,
        search: &Search,
        from: u32,
        vertices: &[u32],
    ) -> Result<(), AllocError>
        requires low { All (λ v. v < vec_len homes.now.weights) vertices.now }
        requires from { from < vec_len homes.now.weights }
        requires ends { vec_len homes.now.ends ≡ vec_len homes.now.weights }
        requires count { vec_len search.now.left ≡ vec_len homes.now.weights }
        requires count_ends { vec_len search.now.ends ≡ vec_len homes.now.weights }
        requires weights { All (λ d. d ≤ most_distance) homes.now.weights.items }
        requires left { (v : ℕ) → v < vec_len homes.now.weights →
            slice_index search.now.left.items v ≤ slice_index homes.now.weights.items from +
            slice_index homes.now.weights.items v }
        ensures entries { OnOk result (self.new.entries.items ≡ self.old.entries.items
            ++ map (weight_between homes.now.weights.items search.now.left.items from)
            vertices.now) }
        ensures routes { OnOk result (self.new.routes.items ≡ self.old.routes.items
            ++ map (route_between homes.now.ends.items search.now.left.items search.now.ends.items
            from) vertices.now) }
    {
        for to in vertices {
            let left = search.left[*to as usize];
            self.entries.push(homes.weight(from, *to, left))?;
            self.routes.push(homes.route(from, *to, search))?;
        }
        Ok(())
    }
}
