//! One window's problem and its least answer.
#![tactic(auto)]

ghost use Rattle.std.specs.Prelude.{◌≡◌, ◌<◌, All, IfOk, IfSome, MatchResult, length};
ghost use Rattle.graph_model.specs.Problems.{Solves};
ghost use Rattle.dist_search.specs.Tables.{IsTableOf};
ghost use Rattle.matching_model.specs.Certified.{IsCertified};

use detector_graph::{Decoded, EdgeSet, Problem, Solver};
use dist_search::{DistTable, distances, odd_edges};
use dual_certificate::{Cert, accepts_with};
use matching_core::candidate;
use pair_plain::least_pairing;
use std::alloc::{AllocError, Global};

/// A least answer of the problem. An error, which is want of memory, hands the problem back.
///
/// The search of `matching_core` proposes a set with numbers, and the set is taken where the
/// numbers show it least. Else the plain pairing finds one, whose time grows exponentially with
/// the number of defects; no problem is known that comes to this.
pub fn decode(alloc: Global, problem: Problem) -> Result<Decoded, (Problem, AllocError)>
    ensures problem { MatchResult result (λ d. d.problem ≡ problem) (λ e. e.0 ≡ problem) }
    ensures least { IfOk result (λ d. Solves problem d.set) }
{
    match least_set(alloc, &problem) {
        Ok(set) => Decoded::new(alloc, problem, set),
        Err(error) => Err((problem, error)),
    }
}

/// A least set of the problem's edges whose boundary is the defects.
fn least_set(alloc: Global, problem: &Problem) -> Result<EdgeSet, AllocError>
    ensures { IfOk result (Solves problem.now) }
{
    if let Some(set) = proposed_set(alloc, problem)? {
        return Ok(set);
    }
    least_pairing(alloc, problem)
}

/// The set that the search proposes, if its numbers show it least.
pub fn proposed_set(alloc: Global, problem: &Problem) -> Result<Option<EdgeSet>, AllocError>
    ensures { IfOk result (λ found. IfSome found (Solves problem.now)) }
{
    let table = distances(alloc, problem)?;
    let found = proposed_over(alloc, &table, problem);
    drop(table);
    found
}

/// The same, over the problem's distances.
fn proposed_over(
    alloc: Global,
    table: &DistTable,
    problem: &Problem,
) -> Result<Option<EdgeSet>, AllocError>
    requires { IsTableOf problem.now table.now }
    ensures { IfOk result (λ found. IfSome found (Solves problem.now)) }
{
    if table.count() == 0 {
        return Ok(Some(EdgeSet::new(alloc)));
    }
    let (pairs, cert) = candidate(alloc, table)?;
    let set = set_of(alloc, table, problem, &pairs)?;
    if accepts_with(alloc, table, problem, &set, &cert)? {
        Ok(Some(set))
    } else {
        Ok(None)
    }
}

/// Numbers that show a set of the problem's edges least, if the search finds some. They fit each
/// least set, whoever found it, since they say of it no more than its boundary and its weight.
pub fn certificate(
    alloc: Global,
    problem: &Problem,
    set: &EdgeSet,
) -> Result<Option<Cert>, AllocError>
    ensures { IfOk result (λ found. IfSome found (IsCertified problem.now set.now)) }
{
    let table = distances(alloc, problem)?;
    let found = certificate_over(alloc, &table, problem, set);
    drop(table);
    found
}

/// The same, over the problem's distances.
fn certificate_over(
    alloc: Global,
    table: &DistTable,
    problem: &Problem,
    set: &EdgeSet,
) -> Result<Option<Cert>, AllocError>
    requires { IsTableOf problem.now table.now }
    ensures { IfOk result (λ found. IfSome found (IsCertified problem.now set.now)) }
{
    let (_, cert) = candidate(alloc, table)?;
    if accepts_with(alloc, table, problem, set, &cert)? {
        Ok(Some(cert))
    } else {
        Ok(None)
    }
}

/// The edges that lie an odd number of times on the walks between these pairs of members.
fn set_of(
    alloc: Global,
    table: &DistTable,
    problem: &Problem,
    pairs: &[(u32, u32)],
) -> Result<EdgeSet, AllocError>
    requires table { IsTableOf problem.now table.now }
    requires members { All (λ pair. (pair.0 < length table.now.members)
        × (pair.1 < length table.now.members)) pairs.now }
{
    let mut edges = Vec::new(alloc);
    for &(one, two) in pairs {
        let walk = table.walk(alloc, problem, one, two)?;
        edges.extend_from_slice(walk.as_slice())?;
    }
    odd_edges(alloc, edges)
}

/// The solver that decodes each problem exactly.
#[derive(Clone, Copy, Debug)]
pub struct Exact;

impl Solver for Exact {
    fn solve(&mut self, alloc: Global, problem: Problem) -> Result<Decoded, (Problem, AllocError)> {
        decode(alloc, problem)
    }
}

#[cfg(test)]
mod tests {
    use super::*;
    use detector_graph::{Bits, Part};
    use std::sync::Arc;
    use std::test::Fail;

    /// A problem without detectors.
    fn empty(alloc: Global) -> Result<Problem, AllocError> {
        let part = Part::new(alloc, 0, Vec::new(alloc), Vec::new(alloc))?;
        let part = Arc::new(alloc, part)?;
        let defects = Bits::zeros(alloc, 0)?;
        Ok(Problem { part, defects })
    }

    /// How many numbers and sets a certificate of the empty set has.
    fn counts(alloc: Global) -> Result<Option<(usize, usize)>, AllocError> {
        let problem = empty(alloc)?;
        let found = certificate(alloc, &problem, &EdgeSet::new(alloc));
        drop(problem);
        match found? {
            Some(cert) => Ok(Some((cert.vertex.len(), cert.sets.len()))),
            None => Ok(None),
        }
    }

    #[test]
    fn a_problem_without_defects_has_a_certificate(rt: HostRuntime) -> Result<(), Fail> {
        assert_eq!(rt; counts(rt.alloc())?, Some((0, 0)));
        Ok(())
    }

    #[test]
    fn a_problem_without_defects_has_the_has_the_empty_answer(rt: HostRuntime) -> Result<(), Fail> {
        let alloc = rt.alloc();
        let problem = empty(alloc)?;
        let Ok(decoded) = Exact.solve(alloc, problem) else {
            panic!(rt; "memory is ample");
        };
        assert_eq!(rt; decoded.set.as_slice().len(), 0);
        assert_eq!(rt; decoded.kept.as_slice().len(), 0);
        Ok(())
    }
}
