//! The steps along a problem's edges, by the vertex that they leave.
ghost use Rattle.std.specs.Prelude.{◌≡◌, ◌<◌, ◌≤◌, ◌*◌, ℕ, suc, All, length, map};
ghost use Rattle.detector_graph.specs.Rows.{group_of};
ghost use Rattle.detector_graph.specs.Steps.{step_starts};
ghost use Rattle.matching_model.specs.Certificates.{free_end};
ghost use Rattle.dist_search.specs.Hops.{IsClose, IsHop, IsStarIn, hop_at, hops_from, measured, most_distance, nearer, starts_of};

use crate::table::{edge_at, place_count};
use detector_graph::Problem;
use std::marker::Model;

/// A step along the edge of a number, from one end to the other.
#[derive(Clone, Copy, Debug, PartialEq, Eq)]
pub(crate) struct Hop {
    pub from: u32,
    pub to: u32,
    pub weight: u32,
    pub edge: u32,
}

/// What a step is measured by.
#[derive(Clone, Copy)]
pub(crate) enum Sense {
    /// What it costs more than it leads farther from the free ends.
    Outward,
    /// What it costs more than it leads nearer to them.
    Homeward,
}

/// All steps along a problem's edges, each by what it costs more than it gains in this sense. The
/// weights are those of least walks to the free ends.
#[derive(Drop)]
pub(crate) struct Star<'a> {
    problem: &'a Problem,
    weights: &'a [u32],
    sense: Sense,
}

impl<'a> Model for Star<'a> {
    ghost use Rattle.std.specs.Prelude.{suc, map};
    ghost use Rattle.matching_model.specs.Certificates.{free_end};
    ghost use Rattle.dist_search.specs.Hops.{Hops, IsStarIn, hops_from, measured, nearer};

    ghost Value = { Hops };

    ghost view = { λ s. record {
      vertices = suc (free_end s.problem.now);
      hops = map (nearer (measured s.sense s.weights.now))
          (hops_from s.problem.now s.problem.now.part.edges);
    } };

    ghost invariant = { λ s. IsStarIn s.problem.now s.sense s.weights.now };
}

impl<'a> Star<'a> {
    /// The problem's steps, measured by these weights.
    pub fn new(problem: &'a Problem, weights: &'a [u32], sense: Sense) -> Star<'a>
        requires { IsStarIn problem.now sense weights.now }
        ensures vertices { result.vertices ≡ suc (free_end problem.now) }
        ensures hops { result.hops ≡ map (nearer (measured sense weights.now))
            (hops_from problem.now problem.now.part.edges) }
    {
        Star {
            problem,
            weights,
            sense,
        }
    }

    /// How many vertices there are.
    pub fn vertices(&self) -> u32
        ensures { result ≡ self.now.vertices }
    {
        place_count(self.problem) + 1
    }

    /// What holds of all its steps.
    pub fn is_star(&self)
        ensures fits { All (IsHop self.now.vertices) self.now.hops }
    {
        let _ = &self.problem;
    }

    /// The numbers of the steps that leave a vertex.
    pub fn leaving(&self, vertex: u32) -> &[u32]
        requires { vertex < self.now.vertices }
        ensures { result.now ≡ group_of (starts_of self.now.hops) vertex }
    {
        steps_from(self.problem, vertex)
    }

    /// The step of a number.
    pub fn hop(&self, number: u32) -> Hop
        requires { number < length self.now.hops }
        ensures { result ≡ hop_at self.now.hops number }
    {
        let plain = plain_hop(self.problem, number);
        measured_hop(&plain, self.weights, self.sense)
    }
}

/// The numbers of the steps that leave a vertex.
fn steps_from(problem: &Problem, vertex: u32) -> &[u32]
    requires { vertex < suc (free_end problem.now) }
    ensures { result.now ≡ group_of (step_starts (free_end problem.now) problem.now.part.edges)
        vertex }
{
    problem.is_problem();
    problem.part.steps(vertex)
}

/// The step of a number, by what it weighs.
fn plain_hop(problem: &Problem, number: u32) -> Hop
    requires { number < 2 * length problem.now.part.edges }
    ensures { result ≡ hop_at (hops_from problem.now problem.now.part.edges) number }
{
    problem.is_problem();
    let edge = edge_at(problem, number / 2);
    let far = edge.second.unwrap_or(place_count(problem));
    if number % 2 == 0 {
        return Hop {
            from: edge.first,
            to: far,
            weight: edge.weight,
            edge: edge.edge,
        };
    }
    Hop {
        from: far,
        to: edge.first,
        weight: edge.weight,
        edge: edge.edge,
    }
}

/// A step by what it costs more than it gains.
fn measured_hop(hop: &Hop, weights: &[u32], sense: Sense) -> Hop
    requires fit { IsHop (length weights.now) hop.now }
    requires low { All (λ d. d ≤ most_distance) weights.now }
    requires close { IsClose (measured sense weights.now) hop.now }
    ensures { result ≡ nearer (measured sense weights.now) hop.now }
{
    let from = weights[hop.from as usize];
    let to = weights[hop.to as usize];
    let weight = match sense {
        Sense::Outward => from + hop.weight - to,
        Sense::Homeward => to + hop.weight - from,
    };
    Hop {
        from: hop.from,
        to: hop.to,
        weight,
        edge: hop.edge,
    }
}
