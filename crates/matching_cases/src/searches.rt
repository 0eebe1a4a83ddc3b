//! Problems that are made from a number, and what the search finds for them.
ghost use Rattle.std.specs.Prelude.{◌≡◌, ◌<◌, ◌≤◌};

use crate::problem::problem_of;
use crate::refusal::Refusal;
use case_lines::Fault;
use detector_graph::{EdgeSet, Problem};
use graph_model::PartEdge;
use pair_plain::least_pairing;
use std::alloc::Global;
use window_decode::proposed_set;

/// With more defects, the plain pairing isn't tried.
const PAIRED_DEFECTS: usize = 8;

/// Edges from each place to later ones.
const EDGES_FROM_PLACE: u32 = 3;

/// Numbers that follow from one another, by a linear congruence modulo 2^64.
#[derive(Drop)]
struct Numbers {
    state: u64,
}

impl Numbers {
    fn next(&mut self) -> u32 {
        self.state = self
            .state
            .wrapping_mul(6_364_136_223_846_793_005)
            .wrapping_add(1_442_695_040_888_963_407);
        (self.state >> 33) as u32
    }

    /// A number below a positive one.
    fn below(&mut self, end: u32) -> u32
        requires { 0 < end }
        ensures { result < end }
    {
        self.next() % end
    }
}

/// What was found so far.
#[derive(Drop)]
struct Found {
    accepted: u32,
    paired: u32,
    same: u32,
}

/// Makes the problems, and writes what was found.
pub(crate) fn write_searches(
    alloc: Global,
    sizes: &[u32],
    text: &mut String,
) -> Result<(), Fault<Refusal>> {
    let [count, places, seed] = sizes else {
        return Err(Fault::Refused(Refusal::FewWords));
    };
    if *places == 0 {
        return Err(Fault::Refused(Refusal::NoPart));
    }
    let mut numbers = Numbers {
        state: u64::from(*seed),
    };
    let mut found = Found {
        accepted: 0,
        paired: 0,
        same: 0,
    };
    for _ in 0..*count {
        try_one(alloc, &mut numbers, *places, &mut found)?;
    }
    writeln!(
        text,
        "accepted {} of {count}, as light as by pairing {} of {}",
        found.accepted, found.same, found.paired
    )?;
    Ok(())
}

/// Makes one problem, and searches it.
fn try_one(
    alloc: Global,
    numbers: &mut Numbers,
    most: u32,
    found: &mut Found,
) -> Result<(), Fault<Refusal>>
    requires { 0 < most }
{
    let places = 1 + numbers.below(most);
    let edges = some_edges(alloc, numbers, places)?;
    let defects = some_defects(alloc, numbers, places)?;
    let problem = problem_of(alloc, places, &edges, &defects)?;
    let tried = compare(alloc, &problem, defects.len() <= PAIRED_DEFECTS, found);
    drop(problem);
    tried
}

/// An edge from each place to the free ends, and some between places.
fn some_edges(
    alloc: Global,
    numbers: &mut Numbers,
    places: u32,
) -> Result<Vec<PartEdge>, Fault<Refusal>>
    requires { 0 < places }
{
    let heaviest = 1 + numbers.below(30);
    let home = 1 + numbers.below(60);
    let mut edges = Vec::new(alloc);
    let mut edge = 0u32;
    for first in 0..places {
        for turn in 0..=EDGES_FROM_PLACE {
            let second = if turn == 0 {
                first
            } else {
                numbers.below(places)
            };
            let weight = numbers.below(if turn == 0 { home } else { heaviest });
            if turn == 0 || second != first {
                edges.push(PartEdge {
                    edge,
                    first,
                    second: if turn == 0 { None } else { Some(second) },
                    weight,
                    owned: true,
                })?;
                edge = edge.saturating_add(1);
            }
        }
    }
    Ok(edges)
}

/// Some of the places.
fn some_defects(
    alloc: Global,
    numbers: &mut Numbers,
    places: u32,
) -> Result<Vec<u32>, Fault<Refusal>> {
    let rate = 1 + numbers.below(4);
    let mut defects = Vec::new(alloc);
    for place in 0..places {
        if numbers.below(4) < rate {
            defects.push(place)?;
        }
    }
    Ok(defects)
}

/// Searches a problem, and compares the set with that of the plain pairing.
fn compare(
    alloc: Global,
    problem: &Problem,
    pairs: bool,
    found: &mut Found,
) -> Result<(), Fault<Refusal>> {
    let Some(set) = proposed_set(alloc, problem)? else {
        return Ok(());
    };
    found.accepted = found.accepted.saturating_add(1);
    if pairs {
        found.paired = found.paired.saturating_add(1);
        let least = least_pairing(alloc, problem)?;
        if weight_of(problem, &set) == weight_of(problem, &least) {
            found.same = found.same.saturating_add(1);
        }
    }
    Ok(())
}

/// What the edges weigh.
fn weight_of(problem: &Problem, set: &EdgeSet) -> u32 {
    let mut weight = 0u32;
    for at in 0..problem.part.edges() {
        let edge = problem.part.edge(at);
        if set.contains(edge.edge) {
            weight = weight.saturating_add(edge.weight);
        }
    }
    weight
}
