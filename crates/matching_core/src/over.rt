//! What a search runs over, and the steps that it allows.
ghost use Rattle.std.specs.Prelude.{◌≡◌, ◌<◌, ◌≤ℤ◌, ◌+ℤ◌, ◌+◌, ◌/◌, ◌⊎◌, IfSome, MatchOption, Some, length, pos, true};
ghost use Rattle.blossom_nest.specs.Nests.{IsName, IsOutermost};
ghost use Rattle.matching_core.specs.Searches.{AreNumbers, AreOf, IsPossible};

use blossom_forest::{Duals, Forest, Mark, Step};
use blossom_nest::Nest;
use dist_search::DistTable;

/// Sets, trees and distances.
#[derive(Clone, Copy)]
pub(crate) struct Over<'a> {
    pub nest: &'a Nest,
    pub forest: &'a Forest,
    pub dist: &'a DistTable,
}

/// A step, and twice its dual change.
#[derive(Clone, Copy)]
pub(crate) struct Chosen {
    pub step: Step,
    pub twice: i64,
}

impl Over<'_> {
    /// Where the outermost set of a vertex stands.
    pub fn mark(&self, vertex: u32) -> Mark
        requires over { AreOf self.now.nest.now.vertices self.now.nest.now self.now.forest.now
            self.now.dist.now }
        requires vertex { vertex < self.now.nest.now.vertices }
    {
        self.nest.is_nest();
        self.forest.mark(self.nest, self.nest.outermost(vertex))
    }

    /// The step of two vertices of outer sets.
    pub fn join(&self, one: u32, two: u32) -> Step
        requires over { AreOf self.now.nest.now.vertices self.now.nest.now self.now.forest.now
            self.now.dist.now }
        requires one { one < self.now.nest.now.vertices }
        requires two { two < self.now.nest.now.vertices }
        ensures { IsPossible self.now.nest.now result }
    {
        if self.forest.is_one_tree(self.nest, one, two) {
            return Step::Shrink(one, two);
        }
        Step::Augment(one, two)
    }

    /// Where an outermost set with children stands that has this place among their names.
    fn mark_of_set(&self, place: u32) -> Option<Mark>
        requires over { AreOf self.now.nest.now.vertices self.now.nest.now self.now.forest.now
            self.now.dist.now }
        requires place { place < self.now.nest.now.vertices / 2 }
        ensures { MatchOption result (Unit {0}) (λ mark. IsOutermost self.now.nest.now
            (self.now.nest.now.vertices + place)) }
    {
        self.nest.is_nest();
        let set = self.nest.vertices() + place;
        if self.nest.is_outermost(set) {
            Some(self.forest.mark(self.nest, set))
        } else {
            None
        }
    }

    /// Changes the numbers of the vertices that are outermost sets.
    pub fn raise_vertices(&self, duals: &mut Duals, change: i64)
        requires over { AreOf self.now.nest.now.vertices self.now.nest.now self.now.forest.now
            self.now.dist.now }
        requires count { length duals.old.vertex.items ≡ self.now.nest.now.vertices }
        ensures set { duals.new.set ≡ duals.old.set }
        ensures count { length duals.new.vertex.items ≡ length duals.old.vertex.items }
    {
        for vertex in 0..self.nest.vertices() {
            if self.nest.outermost(vertex) == vertex {
                let number = duals.vertex[vertex as usize];
                duals.vertex[vertex as usize] = changed(number, self.mark(vertex), change);
            }
        }
    }

    /// Changes the numbers of the outermost sets with children.
    pub fn raise_sets(&self, duals: &mut Duals, change: i64)
        requires over { AreOf self.now.nest.now.vertices self.now.nest.now self.now.forest.now
            self.now.dist.now }
        requires count { length duals.old.set.items ≡ self.now.nest.now.vertices / 2 }
        ensures vertex { duals.new.vertex ≡ duals.old.vertex }
        ensures count { length duals.new.set.items ≡ length duals.old.set.items }
    {
        for place in 0..self.nest.vertices() / 2 {
            if let Some(mark) = self.mark_of_set(place) {
                let number = duals.set[place as usize];
                duals.set[place as usize] = changed(number, mark, change);
            }
        }
    }
}

/// The better of what was found so far and the best inner set with children.
pub(crate) fn least_expand(over: Over<'_>, duals: &Duals, found: Option<Chosen>) -> Option<Chosen>
    requires over { AreOf over.nest.now.vertices over.nest.now over.forest.now over.dist.now }
    requires count { length duals.now.set.items ≡ over.nest.now.vertices / 2 }
    requires found { MatchOption found (Unit {0}) (λ chosen. IsPossible over.nest.now chosen.step) }
    ensures { MatchOption result (Unit {0}) (λ chosen. IsPossible over.entry.nest.now chosen.step) }
{
    over.nest.is_nest();
    let mut best = found;
    for place in 0..over.nest.vertices() / 2 {
        if let Some(Mark::Inner) = over.mark_of_set(place) {
            let number = duals.set[place as usize];
            let other = Chosen {
                step: Step::Expand(over.nest.vertices() + place),
                twice: number.saturating_add(number),
            };
            best = better(best, other);
        }
    }
    best
}

/// The one of less dual change.
fn better(best: Option<Chosen>, other: Chosen) -> Option<Chosen>
    ensures { (result ≡ best) ⊎ (result ≡ Some other) }
{
    match best {
        Some(chosen) if chosen.twice <= other.twice => best,
        _ => Some(other),
    }
}

/// Whether the step needs no change.
pub(crate) fn is_free(best: Option<Chosen>) -> bool
    ensures { result ≡ true → IfSome best (λ chosen. chosen.twice ≤ℤ pos 0) }
{
    match best {
        None => false,
        Some(chosen) => chosen.twice <= 0,
    }
}

/// The dual change of which this is twice. An odd one isn't rounded up: that would be too much.
pub(crate) fn change_of(twice: i64) -> i64
    ensures { pos 0 ≤ℤ twice → (result +ℤ result) ≤ℤ twice }
{
    twice / 2
}

/// The number of a set, after a change of the numbers in the forest.
pub(crate) fn changed(number: i64, mark: Mark, change: i64) -> i64 {
    match mark {
        Mark::Outer => number.saturating_add(change),
        Mark::Inner => number.saturating_sub(change),
        Mark::Away => number,
    }
}
