//! Which step comes next: bounds on the slacks of the vertices, kept from turn to turn.
ghost use Rattle.std.specs.Prelude.{◌≡◌, ◌<◌, ◌≤◌, All, IfOk, MatchOption, length};
ghost use Rattle.matching_core.specs.Searches.{AreNumbers, AreOf, IsPossible};
ghost use Rattle.blossom_nest.specs.Nests.{most_vertices};

use crate::over::{Chosen, Over, changed, is_free, least_expand};
use blossom_forest::{Duals, Mark, Step};
use blossom_nest::Nest;
use std::alloc::{AllocError, Global};
use std::marker::Model;

/// More than any slack.
const FAR: i64 = 1 << 40;

/// For each vertex a bound on its slacks.
///
/// The slack of two vertices is twice their distance less their totals, where a vertex's total is
/// the sum of its number and those of the sets that hold it. `key[v]` is at most
/// `2 dist(v, u) - total[u] + rise` for every vertex u of an outer set that doesn't hold v. A
/// change of the numbers adds the same to `rise` and to the total of every such u, so no key needs
/// to change with it; and a key may be too low but never too high, so it is only made exact where
/// its vertex would otherwise be chosen.
///
/// A vertex outside the outer sets gains nothing while `rise` grows. So where it comes back to one,
/// it can lower only keys that were made exact since it left, unless its set was opened in between:
/// a key says nothing of vertices that were in one set with its own.
pub(crate) struct Slacks {
    vertices: u32,
    /// The sum of all changes.
    rise: i64,
    total: Vec<i64>,
    key: Vec<i64>,
    /// A vertex that had the key.
    near: Vec<u32>,
    /// Where the outermost set of each vertex stands.
    mark: Vec<Mark>,
    /// Where the next look begins.
    cursor: u32,
    /// The number of the turn, from 1 on.
    turn: u32,
    /// The turn in which each key was last made exact, or 0.
    exact: Vec<u32>,
    /// The turn in which each vertex last left the outer sets; 0 where it never did, or where its
    /// set was opened since.
    left: Vec<u32>,
    /// The vertices that a step has made ones of outer sets, and those whose keys they may lower:
    /// some first places of each list.
    entered: Vec<u32>,
    recent: Vec<u32>,
}

impl Drop for Slacks {
    fn drop(self) {
        let Slacks {
            vertices: _,
            rise: _,
            total: _,
            key: _,
            near: _,
            mark: _,
            cursor: _,
            turn: _,
            exact: _,
            left: _,
            entered: _,
            recent: _,
        } = self;
    }
}

impl Model for Slacks {
    ghost use Rattle.std.specs.Prelude.{ℕ};
    ghost use Rattle.matching_core.specs.Searches.{AreKept, AreNoted};

    ghost Value = { ℕ };

    ghost view = { λ s. s.vertices };

    ghost invariant = { λ s. AreKept s.vertices s.total.items s.key.items s.near.items s.mark.items
        s.cursor × AreNoted s.vertices s.exact.items s.left.items s.entered.items s.recent.items };
}

impl Slacks {
    /// Of so many outer vertices with numbers 0, each a set by itself.
    pub fn new(alloc: Global, vertices: u32) -> Result<Slacks, AllocError>
        requires { vertices ≤ most_vertices }
        ensures { IfOk result (λ s. s ≡ vertices) }
    {
        let count = vertices as usize;
        Ok(Slacks {
            vertices,
            rise: 0,
            total: vec![in alloc; 0; count]?,
            key: vec![in alloc; 0; count]?,
            near: numbers_below(alloc, vertices)?,
            mark: vec![in alloc; Mark::Outer; count]?,
            cursor: 0,
            turn: 1,
            exact: vec![in alloc; 0; count]?,
            left: vec![in alloc; 0; count]?,
            entered: vec![in alloc; 0; count]?,
            recent: vec![in alloc; 0; count]?,
        })
    }

    /// A step of least dual change.
    pub fn next_step(&mut self, over: Over<'_>, duals: &Duals) -> Option<Chosen>
        requires over { AreOf self.old over.nest.now over.forest.now over.dist.now }
        requires numbers { AreNumbers self.old duals.now.vertex.items duals.now.set.items }
        ensures count { self.new ≡ self.old }
        ensures possible { MatchOption result (Unit {0})
            (λ chosen. IsPossible over.entry.nest.now chosen.step) }
    {
        let count = self.vertices;
        let first = self.cursor;
        let mut best = None;
        for turn in 0..count {
            let vertex = (first + turn) % count;
            best = self.look(over, vertex, best);
            if is_free(best) {
                self.cursor = vertex;
                return best;
            }
        }
        least_expand(over, duals, best)
    }

    /// The better of what was found so far and the best pair of this vertex.
    fn look(&mut self, over: Over<'_>, vertex: u32, best: Option<Chosen>) -> Option<Chosen>
        requires over { AreOf self.old over.nest.now over.forest.now over.dist.now }
        requires vertex { vertex < self.old }
        requires best { MatchOption best (Unit {0})
            (λ chosen. IsPossible over.nest.now chosen.step) }
        ensures count { self.new ≡ self.old }
        ensures possible { MatchOption result (Unit {0})
            (λ chosen. IsPossible over.entry.nest.now chosen.step) }
    {
        if !self.beats(vertex, best) {
            return best;
        }
        if !self.is_exact(over, vertex) {
            self.refresh(over, vertex);
            if !self.beats(vertex, best) {
                return best;
            }
        }
        Some(self.choice(over, vertex))
    }

    /// The step of a vertex and the one noted as near.
    fn choice(&self, over: Over<'_>, vertex: u32) -> Chosen
        requires over { AreOf self.now over.nest.now over.forest.now over.dist.now }
        requires vertex { vertex < self.now }
        ensures { IsPossible over.entry.nest.now result.step }
    {
        let near = self.near[vertex as usize];
        let twice = self.twice(vertex);
        if self.mark[vertex as usize] == Mark::Away {
            return Chosen {
                step: Step::Grow(near, vertex),
                twice,
            };
        }
        Chosen {
            step: over.join(near, vertex),
            twice,
        }
    }

    /// Whether this vertex's bound is below what was found so far.
    fn beats(&self, vertex: u32, best: Option<Chosen>) -> bool
        requires { vertex < self.now }
    {
        if self.mark[vertex as usize] == Mark::Inner {
            return false;
        }
        match best {
            None => self.twice(vertex) < FAR,
            Some(chosen) => self.twice(vertex) < chosen.twice,
        }
    }

    /// The bound on twice the dual change of this vertex's pairs.
    fn twice(&self, vertex: u32) -> i64
        requires { vertex < self.now }
    {
        let at = vertex as usize;
        let slack = self.key[at]
            .saturating_sub(self.rise)
            .saturating_sub(self.total[at]);
        match self.mark[at] {
            Mark::Outer => slack,
            Mark::Inner | Mark::Away => slack.saturating_add(slack),
        }
    }

    /// What a key is at most, at a vertex of an outer set at this distance.
    fn key_at(&self, dist: u32, outer: u32) -> i64
        requires { outer < self.now }
    {
        (2 * i64::from(dist))
            .saturating_sub(self.total[outer as usize])
            .saturating_add(self.rise)
    }

    /// Whether the vertex noted as near still has the key, and the two are a pair.
    fn is_exact(&self, over: Over<'_>, vertex: u32) -> bool
        requires over { AreOf self.now over.nest.now over.forest.now over.dist.now }
        requires vertex { vertex < self.now }
    {
        let near = self.near[vertex as usize];
        self.mark[near as usize] == Mark::Outer
            && over.nest.outermost(near) != over.nest.outermost(vertex)
            && self.key_at(over.dist.dist(vertex, near), near) == self.key[vertex as usize]
    }

    /// Makes the key of a vertex exact.
    fn refresh(&mut self, over: Over<'_>, vertex: u32)
        requires over { AreOf self.old over.nest.now over.forest.now over.dist.now }
        requires vertex { vertex < self.old }
        ensures { self.new ≡ self.old }
    {
        let own = over.nest.outermost(vertex);
        let row = over.dist.row(vertex);
        let mut least = FAR;
        let mut near = vertex;
        for other in 0..self.vertices {
            if self.mark[other as usize] == Mark::Outer {
                let key = 2 * i64::from(row[other as usize]);
                let key = key.saturating_sub(self.total[other as usize]);
                if key < least && over.nest.outermost(other) != own {
                    least = key;
                    near = other;
                }
            }
        }
        self.note(vertex, least.saturating_add(self.rise), near);
        self.exact[vertex as usize] = self.turn;
    }

    /// Changes the key of a vertex, which is had at another.
    fn note(&mut self, vertex: u32, key: i64, near: u32)
        requires vertex { vertex < self.old }
        requires near { near < self.old }
        ensures { self.new ≡ self.old }
    {
        self.key[vertex as usize] = key;
        self.near[vertex as usize] = near;
    }

    /// Adds a change to the numbers of outer sets, and takes it from those of inner sets.
    pub fn raise(&mut self, over: Over<'_>, duals: &mut Duals, change: i64)
        requires over { AreOf self.old over.nest.now over.forest.now over.dist.now }
        requires numbers { AreNumbers self.old duals.old.vertex.items duals.old.set.items }
        ensures count { self.new ≡ self.old }
        ensures numbers { AreNumbers self.new duals.new.vertex.items duals.new.set.items }
    {
        if change == 0 {
            return;
        }
        self.rise = self.rise.saturating_add(change);
        raise_totals(&mut self.total, &self.mark, change);
        over.raise_vertices(duals, change);
        over.raise_sets(duals, change);
    }

    /// Notes that a set is opened: what its vertices' keys say of one another is lost.
    pub fn open(&mut self, nest: &Nest, set: u32)
        requires { nest.now.vertices ≡ self.old }
        ensures { self.new ≡ self.old }
    {
        for vertex in 0..self.vertices {
            if nest.outermost(vertex) == set {
                self.note_left(vertex, 0);
            }
        }
    }

    /// Changes when a vertex left the outer sets.
    fn note_left(&mut self, vertex: u32, turn: u32)
        requires { vertex < self.old }
        ensures { self.new ≡ self.old }
    {
        self.left[vertex as usize] = turn;
    }

    /// Puts a vertex into the list of those that have become ones of outer sets.
    fn list_entered(&mut self, place: u32, vertex: u32)
        requires place { place < self.old }
        requires vertex { vertex < self.old }
        ensures { self.new ≡ self.old }
    {
        self.entered[place as usize] = vertex;
    }

    /// Puts a vertex into the list of those whose keys may be lowered.
    fn list_recent(&mut self, place: u32, vertex: u32)
        requires place { place < self.old }
        requires vertex { vertex < self.old }
        ensures { self.new ≡ self.old }
    {
        self.recent[place as usize] = vertex;
    }

    /// Notes where the vertices stand after a step, and lowers the keys to what they are at those
    /// that have become ones of outer sets.
    pub fn follow(&mut self, over: Over<'_>)
        requires { AreOf self.old over.nest.now over.forest.now over.dist.now }
        ensures { self.new ≡ self.old }
    {
        let entered = self.note_marks(over);
        let recent = self.note_recent(entered);
        for at in 0..entered {
            let vertex = self.entered[at as usize];
            self.enter(over, vertex, recent);
        }
        self.turn = self.turn.saturating_add(1);
    }

    /// Notes where the vertices stand, and lists those that have become ones of outer sets. Tells
    /// how many these are.
    fn note_marks(&mut self, over: Over<'_>) -> u32
        requires { AreOf self.old over.nest.now over.forest.now over.dist.now }
        ensures same { self.new ≡ self.old }
        ensures few { result ≤ self.old }
    {
        let mut entered = 0;
        for vertex in 0..self.vertices {
            let before = self.mark[vertex as usize];
            let mark = over.mark(vertex);
            self.mark[vertex as usize] = mark;
            if before == Mark::Outer && mark != Mark::Outer {
                let turn = self.turn;
                self.note_left(vertex, turn);
            }
            if before != Mark::Outer && mark == Mark::Outer {
                self.list_entered(entered, vertex);
                entered += 1;
            }
        }
        entered
    }

    /// Lists the vertices whose keys were made exact since the first of these had left the outer
    /// sets. Tells how many there are.
    fn note_recent(&mut self, entered: u32) -> u32
        requires { entered ≤ self.old }
        ensures same { self.new ≡ self.old }
        ensures few { result ≤ self.old }
    {
        let since = self.first_left(entered);
        let mut recent = 0;
        for vertex in 0..self.vertices {
            if self.exact[vertex as usize] > since {
                self.list_recent(recent, vertex);
                recent += 1;
            }
        }
        recent
    }

    /// The turn in which the first of these had left the outer sets.
    fn first_left(&self, entered: u32) -> u32
        requires { entered ≤ self.now }
    {
        let mut first = u32::MAX;
        for at in 0..entered {
            let vertex = self.entered[at as usize];
            first = first.min(self.left[vertex as usize]);
        }
        first
    }

    /// Lowers the keys of the vertices listed to what they are at a vertex of an outer set.
    fn enter(&mut self, over: Over<'_>, vertex: u32, recent: u32)
        requires over { AreOf self.old over.nest.now over.forest.now over.dist.now }
        requires vertex { vertex < self.old }
        requires recent { recent ≤ self.old }
        ensures { self.new ≡ self.old }
    {
        let own = over.nest.outermost(vertex);
        let row = over.dist.row(vertex);
        let base = self.rise.saturating_sub(self.total[vertex as usize]);
        for at in 0..recent {
            let other = self.recent[at as usize];
            let key = base.saturating_add(2 * i64::from(row[other as usize]));
            if key < self.key[other as usize] && over.nest.outermost(other) != own {
                self.note(other, key, vertex);
            }
        }
    }
}

/// Changes the totals of the vertices in the forest.
fn raise_totals(totals: &mut [i64], marks: &[Mark], change: i64)
    requires { length totals.old ≡ length marks.now }
{
    for at in 0..totals.len() {
        totals[at] = changed(totals[at], marks[at], change);
    }
}

/// The numbers from 0 on.
fn numbers_below(alloc: Global, end: u32) -> Result<Vec<u32>, AllocError>
    ensures len { IfOk result (λ v. length v.items ≡ end) }
    ensures low { IfOk result (λ v. All (λ x. x < end) v.items) }
{
    let mut numbers = Vec::with_capacity(alloc, end as usize)?;
    for number in 0..end {
        numbers.push(number)?;
    }
    Ok(numbers)
}
