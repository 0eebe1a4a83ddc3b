//! A search from one vertex, as far as a budget lasts.
ghost use Rattle.std.specs.Prelude.{ℕ, ◌≡◌, ◌≢◌, ◌<◌, ◌≤◌, ◌+◌, ◌*◌, ◌⊎◌, true, false, All, Contains, IfOk, IfSome, OnOk, List, slice_index, vec_len};
ghost use Rattle.dist_search.specs.declared.star.Hop.{Hop};
ghost use Rattle.dist_search.specs.Hops.{Advances, ArePending, AreReached, AreRelaxed, Extends, IsHop, IsRelaxed, IsSearch, most_budget};

use crate::star::{Hop, Star};
use std::alloc::{AllocError, Global};
use std::collections::VecDeque;

/// The last step of a walk, along the edge of a number, and how many steps were
/// noted when the walk before it was.
#[derive(Clone, Copy)]
pub(crate) struct Step {
    pub edge: u32,
    pub before: usize,
}

/// A vertex whose steps are still to be looked at, with what was left when it was noted.
#[derive(Clone, Copy)]
pub(crate) struct Queued {
    pub left: u32,
    pub vertex: u32,
}

/// What is left at the vertices of a budget that walks from a start spend. A
/// search touches no vertex that nothing is left at.
pub(crate) struct Search {
    /// For each vertex, what is left there at most, or 0.
    pub left: Vec<u32>,
    /// For each vertex where something is left, the number of steps noted when
    /// its walk was, or 0 at the start.
    pub ends: Vec<usize>,
    /// The steps of all searches so far.
    pub steps: Vec<Step>,
    /// The vertices where something is left.
    pub reached: Vec<u32>,
    /// First in, first out.
    pub queue: VecDeque<Queued>,
}

impl Drop for Search {
    fn drop(self) {
        let Search {
            left: _,
            ends: _,
            steps: _,
            reached: _,
            queue: _,
        } = self;
    }
}

impl Search {
    /// For so many vertices.
    pub fn new(alloc: Global, vertices: u32) -> Result<Search, AllocError>
        ensures { IfOk result (λ search. IsSearch vertices search.left.items search.ends.items
            search.reached.items) }
    {
        Ok(Search {
            left: vec![in alloc; 0; vertices as usize]?,
            ends: vec![in alloc; 0; vertices as usize]?,
            steps: Vec::new(alloc),
            reached: Vec::new(alloc),
            queue: VecDeque::new(alloc),
        })
    }

    /// The steps of all searches.
    pub fn into_steps(self) -> Vec<Step>
        ensures { result ≡ self.steps }
    {
        let Search {
            left: _,
            ends: _,
            steps,
            reached: _,
            queue: _,
        } = self;
        steps
    }

    /// Finds how much of a budget is left at most at each vertex, by walks from the start. Where a
    /// goal is given, it ends as soon as something is left there.
    pub fn run(
        &mut self,
        star: &Star<'_>,
        start: u32,
        budget: u32,
        goal: Option<u32>,
    ) -> Result<(), AllocError>
        requires search { IsSearch star.now.vertices self.old.left.items self.old.ends.items
            self.old.reached.items }
        requires start { start < star.now.vertices }
        requires budget { budget ≤ most_budget }
        requires goal { IfSome goal (λ v. v < star.now.vertices) }

        ensures reached { OnOk result (AreReached star.now.hops start budget self.new.left.items
            self.new.ends.items self.new.steps.items) }
        ensures relaxed { OnOk result (IfSome goal (λ v. slice_index self.new.left.items v ≡ 0) →
            AreRelaxed star.now.hops self.new.left.items) }
        ensures search { OnOk result (IsSearch star.now.vertices self.new.left.items
            self.new.ends.items self.new.reached.items) }
        ensures steps { OnOk result (Extends self.old.steps.items self.new.steps.items) }
    {
        self.begin(start, budget)?;
        while let Some(queued) = self.queue.pop_front() {
            if self.has_come_to(goal) {
                return Ok(());
            }
            if self.is_due(&queued) {
                self.relax_all(star, queued.vertex)?;
            }
        }
        Ok(())
    }

    /// Whether there is a goal at which something is left.
    fn has_come_to(&self, goal: Option<u32>) -> bool
        requires { IfSome goal (λ v. v < vec_len self.now.left) }
        ensures { result ≡ true → IfSome goal (λ v. slice_index self.now.left.items v ≡ 0) → ⊥ }
    {
        match goal {
            None => false,
            Some(vertex) => self.left[vertex as usize] > 0,
        }
    }

    /// Whether the steps from a vertex are still to be looked at: where nothing is left, none leads
    /// on, and where more was left since, the vertex was queued again.
    fn is_due(&self, queued: &Queued) -> bool
        requires { queued.now.vertex < vec_len self.now.left }
        ensures { result ≡ false → (queued.now.left ≡ 0) ⊎ (queued.now.left
            ≢ slice_index self.now.left.items queued.now.vertex) }
    {
        queued.left > 0 && self.left[queued.vertex as usize] == queued.left
    }

    /// Leaves the whole budget at the start, and nothing elsewhere.
    fn begin(&mut self, start: u32, budget: u32) -> Result<(), AllocError>
        requires search { IsSearch (vec_len self.old.left) self.old.left.items self.old.ends.items
            self.old.reached.items }
        requires start { start < vec_len self.old.left }
        requires budget { budget ≤ most_budget }

        ensures reached { OnOk result ((hops : List Hop) →
            AreReached hops start budget self.new.left.items self.new.ends.items
            self.new.steps.items) }
        ensures pending { OnOk result ((hops : List Hop) →
            ArePending hops self.new.left.items self.new.queue.items) }
        ensures queued { OnOk result (All (λ q. q.vertex < vec_len self.old.left)
            self.new.queue.items) }
        ensures search { OnOk result (IsSearch (vec_len self.old.left) self.new.left.items
            self.new.ends.items self.new.reached.items) }
        ensures steps { OnOk result (self.new.steps ≡ self.old.steps) }
    {
        forget(&mut self.left, &self.reached);
        self.reached.clear();
        self.queue.clear();
        self.reached.push(start)?;
        self.queue.push_back(Queued {
            left: budget,
            vertex: start,
        })?;
        self.left[start as usize] = budget;
        self.ends[start as usize] = 0;
        Ok(())
    }

    /// Notes what a step leaves at its end, where that is more than was left there.
    fn relax(&mut self, hop: &Hop) -> Result<(), AllocError>
        requires hop { IsHop (vec_len self.old.left) hop.now }
        requires search { IsSearch (vec_len self.old.left) self.old.left.items self.old.ends.items
            self.old.reached.items }

        ensures reached { OnOk result ((hops : List Hop) (start budget : ℕ) →
            Contains hops hop.now →
            AreReached hops start budget self.old.left.items self.old.ends.items
            self.old.steps.items →
            AreReached hops start budget self.new.left.items self.new.ends.items
            self.new.steps.items) }
        ensures advances { OnOk result (Advances (vec_len self.old.left) self.old.left.items
            self.old.queue.items self.new.left.items self.new.queue.items) }
        ensures kept { OnOk result (slice_index self.new.left.items hop.now.from
            ≡ slice_index self.old.left.items hop.now.from) }
        ensures relaxed { OnOk result (slice_index self.new.left.items hop.now.from
            ≤ slice_index self.new.left.items hop.now.to + hop.now.weight) }
        ensures search { OnOk result (IsSearch (vec_len self.old.left) self.new.left.items
            self.new.ends.items self.new.reached.items) }
        ensures steps { OnOk result (Extends self.old.steps.items self.new.steps.items) }
    {
        let left = self.left[hop.from as usize];
        if self.left[hop.to as usize] + hop.weight < left {
            let before = self.ends[hop.from as usize];
            self.steps.push(Step {
                edge: hop.edge,
                before,
            })?;
            self.reached.push(hop.to)?;
            self.queue.push_back(Queued {
                left: left - hop.weight,
                vertex: hop.to,
            })?;
            self.left[hop.to as usize] = left - hop.weight;
            self.ends[hop.to as usize] = self.steps.len();
        }
        Ok(())
    }

    /// Takes the steps that leave one vertex.
    fn relax_all(&mut self, star: &Star<'_>, vertex: u32) -> Result<(), AllocError>
        requires vertices { star.now.vertices ≡ vec_len self.old.left }
        requires vertex { vertex < star.now.vertices }
        requires search { IsSearch (vec_len self.old.left) self.old.left.items self.old.ends.items
            self.old.reached.items }

        ensures reached { OnOk result ((start budget : ℕ) →
            AreReached star.now.hops start budget self.old.left.items self.old.ends.items
            self.old.steps.items →
            AreReached star.now.hops start budget self.new.left.items self.new.ends.items
            self.new.steps.items) }
        ensures advances { OnOk result (Advances (vec_len self.old.left) self.old.left.items
            self.old.queue.items self.new.left.items self.new.queue.items) }
        ensures relaxed { OnOk result (IsRelaxed star.now.hops self.new.left.items vertex) }
        ensures search { OnOk result (IsSearch (vec_len self.old.left) self.new.left.items
            self.new.ends.items self.new.reached.items) }
        ensures steps { OnOk result (Extends self.old.steps.items self.new.steps.items) }
    {
        star.is_star();
        for number in star.leaving(vertex) {
            let hop = star.hop(*number);
            self.relax(&hop)?;
        }
        Ok(())
    }
}

/// Leaves nothing at these vertices.
fn forget(left: &mut Vec<u32>, reached: &[u32])
    requires within { All (λ v. v < vec_len left.old) reached.now }
    requires known { (v : ℕ) → 0 < slice_index left.old.items v → Contains reached.now v }
    ensures nothing { (v : ℕ) → slice_index left.new.items v ≡ 0 }
    ensures count { vec_len left.new ≡ vec_len left.old }
{
    for vertex in reached {
        left[*vertex as usize] = 0;
    }
}
