//! Matching problems, and their least answers.
ghost use Rattle.std.specs.Prelude.{◌≡◌, ◌≢◌, ◌<◌, true, false, length, MatchResult, OnErr, IfOk, Some, slice_get};
ghost use Rattle.graph_model.specs.Problems.{IsPart, Solves, owned_members, problem_weight};
ghost use Rattle.graph_model.specs.declared.PartEdge.{PartEdge};

use crate::{Bits, EdgeSet, Part};
use std::alloc::{AllocError, Global};
use std::marker::Model;
use std::sync::Arc;

/// A part with a truth value for each of its detectors: whether it is a defect.
#[derive(Drop)]
pub struct Problem {
    pub part: Arc<Part>,
    pub defects: Bits,
}

impl Model for Problem {
    ghost use Rattle.std.specs.Prelude.{◌≡◌, length};
    ghost use Rattle.std.specs.Arc.{arc_value};
    ghost use Rattle.graph_model.specs.Problems.{Problem};

    ghost Value = { Problem };

    ghost view = { λ p. record { part = arc_value p.part; defects = p.defects } };

    ghost invariant = { λ p. length p.defects ≡ length (arc_value p.part).detectors };
}

impl Problem {
    /// What holds of each problem.
    pub fn is_problem(&self)
        ensures part { IsPart self.now.part }
        ensures defects { length self.now.defects ≡ length self.now.part.detectors }
    {
        self.part.is_part();
    }

    /// The weight in this problem of the part's edge at this place.
    pub fn weight(&self, at: u32) -> u32
        requires { at < length self.now.part.edges }
        ensures own { (edge : PartEdge) → slice_get self.now.part.edges at ≡ Some edge →
            result ≡ edge.weight }
        ensures by_number { (edge : PartEdge) → slice_get self.now.part.edges at ≡ Some edge →
            result ≡ problem_weight self.now edge.edge }
    {
        self.part.is_part();
        self.part.edge(at).weight
    }

    /// The same problem again. The two share the part.
    pub fn copy(&self, alloc: Global) -> Result<Problem, AllocError>
        ensures { IfOk result (λ p. p ≡ self.now) }
    {
        let part = Arc::try_clone(&self.part)?;
        let defects = self.defects.copy(alloc)?;
        Ok(Problem { part, defects })
    }

    /// Whether the two are the same problem.
    pub fn same(&self, other: &Problem) -> bool
        ensures equal { result ≡ true → self.now ≡ other.now }
        ensures differ { result ≡ false → self.now ≢ other.now }
    {
        if !self.defects.same(&other.defects) {
            return false;
        }
        self.part.same(&other.part)
    }
}

/// A problem with a least set of its edges, and the members that the part's window owns.
#[derive(Drop)]
pub struct Decoded {
    pub problem: Problem,
    pub set: EdgeSet,
    pub kept: EdgeSet,
}

impl Model for Decoded {
    ghost use Rattle.std.specs.Prelude.{◌≡◌};
    ghost use Rattle.graph_model.specs.Problems.{Decoding, Solves, owned_members};

    ghost Value = { Decoding };

    ghost view = { λ d. record { problem = d.problem; set = d.set; kept = d.kept } };

    ghost invariant = { λ d. Solves d.problem d.set
        × (d.kept ≡ owned_members d.problem.part d.set) };
}

impl Decoded {
    /// The answer with this least set. An error hands the problem back.
    pub fn new(
        alloc: Global,
        problem: Problem,
        set: EdgeSet,
    ) -> Result<Decoded, (Problem, AllocError)>
        requires { Solves problem set }
        ensures { MatchResult result
            (λ d. d ≡ record {
              problem = problem;
              set = set;
              kept = owned_members problem.part set;
            })
            (λ e. e.0 ≡ problem) }
    {
        match owned_of(alloc, &problem.part, &set) {
            Ok(kept) => Ok(Decoded { problem, set, kept }),
            Err(error) => Err((problem, error)),
        }
    }

    /// What holds of each answer.
    pub fn is_least(&self)
        ensures least { Solves self.now.problem self.now.set }
        ensures kept { self.now.kept ≡ owned_members self.now.problem.part self.now.set }
    {
        let _ = &self.set;
    }
}

/// The members that the part's window owns.
fn owned_of(alloc: Global, part: &Part, set: &EdgeSet) -> Result<EdgeSet, AllocError>
    ensures { IfOk result (λ kept. kept ≡ owned_members part.now set.now) }
{
    let mut kept = EdgeSet::new(alloc);
    for edge in set.as_slice() {
        if part.owns(*edge) {
            kept.push(*edge)?;
        }
    }
    Ok(kept)
}

/// What answers problems.
pub trait Solver {
    /// A least answer of the problem. An error, which is want of memory, hands the problem back,
    /// and the solver is as before.
    fn solve(&mut self, alloc: Global, problem: Problem) -> Result<Decoded, (Problem, AllocError)>
        ensures problem { MatchResult result (λ d. d.problem ≡ problem) (λ e. e.0 ≡ problem) }
        ensures err { OnErr result (self.new ≡ self.old) };
}
