//! The search: its turns, and what it proposes.
ghost use Rattle.std.specs.Prelude.{◌≡◌, ◌<◌, ◌≤◌, All, IfOk, length};
ghost use Rattle.matching_core.specs.Searches.{IsPossible};
ghost use Rattle.blossom_nest.specs.Nests.{most_vertices};

use crate::numbers::certificate;
use crate::over::{Chosen, Over, change_of};
use crate::slacks::Slacks;
use blossom_forest::{Duals, Forest, Step};
use blossom_nest::Nest;
use dist_search::DistTable;
use dual_certificate::Cert;
use std::alloc::{AllocError, Global};
use std::marker::Model;

/// Pairs of members, and a certificate of them. Nothing is promised of either but that the pairs
/// are of members: `accepts` of `dual_certificate` decides whether they are of use. The search
/// takes at most n * n turns for n members.
pub fn candidate(alloc: Global, dist: &DistTable) -> Result<(Vec<(u32, u32)>, Cert), AllocError>
    ensures pairs { IfOk result (λ found. All (λ pair. (pair.0 < length dist.now.members)
        × (pair.1 < length dist.now.members)) found.0.items) }
    ensures numbers { IfOk result (λ found. length found.1.vertex ≡ length dist.now.members) }
{
    dist.is_table();
    if dist.count() == 2 {
        return only_pair(alloc, dist);
    }
    let mut search = Search::new(alloc, dist.count())?;
    search.run(dist);
    let found = search.found(alloc);
    drop(search);
    found
}

/// Two members, each with their distance for a number. Most windows have no more where errors are
/// rare, and no search is needed.
fn only_pair(alloc: Global, dist: &DistTable) -> Result<(Vec<(u32, u32)>, Cert), AllocError>
    requires { length dist.now.members ≡ 2 }
    ensures pairs { IfOk result (λ found. All (λ pair. (pair.0 < length dist.now.members)
        × (pair.1 < length dist.now.members)) found.0.items) }
    ensures numbers { IfOk result (λ found. length found.1.vertex ≡ length dist.now.members) }
{
    let number = i64::from(dist.dist(0, 1));
    let pairs = vec![in alloc; (0, 1); 1]?;
    let vertex = vec![in alloc; number; 2]?;
    let cert = Cert {
        vertex,
        sets: Vec::new(alloc),
    };
    Ok((pairs, cert))
}

/// Sets, trees and numbers of a search.
struct Search {
    nest: Nest,
    forest: Forest,
    duals: Duals,
    slacks: Slacks,
}

impl Drop for Search {
    fn drop(self) {
        let Search {
            nest: _,
            forest: _,
            duals: _,
            slacks: _,
        } = self;
    }
}

impl Model for Search {
    ghost use Rattle.std.specs.Prelude.{ℕ};
    ghost use Rattle.matching_core.specs.Searches.{IsSearch};

    ghost Value = { ℕ };

    ghost view = { λ s. s.nest.vertices };

    ghost invariant = { λ s. IsSearch s.nest s.forest s.duals.vertex.items s.duals.set.items
        s.slacks };
}

impl Search {
    /// So many vertices, each a tree by itself, with numbers 0.
    fn new(alloc: Global, vertices: u32) -> Result<Search, AllocError>
        requires { vertices ≤ most_vertices }
        ensures { IfOk result (λ s. s ≡ vertices) }
    {
        let duals = Duals {
            vertex: vec![in alloc; 0; vertices as usize]?,
            set: vec![in alloc; 0; (vertices / 2) as usize]?,
        };
        Ok(Search {
            nest: Nest::new(alloc, vertices)?,
            forest: Forest::new(alloc, vertices)?,
            duals,
            slacks: Slacks::new(alloc, vertices)?,
        })
    }

    /// Takes turns until at most one tree is left.
    fn run(&mut self, dist: &DistTable)
        requires { length dist.now.members ≡ self.old }
        ensures { self.new ≡ self.old }
    {
        dist.is_table();
        let count = dist.count();
        for _turn in 0..count * count {
            if self.is_done() || !self.turn(dist) {
                return;
            }
        }
    }

    /// Whether at most one tree is left.
    fn is_done(&self) -> bool {
        self.forest.trees() < 2
    }

    /// Changes the numbers by the least change that a step needs, and takes the step.
    fn turn(&mut self, dist: &DistTable) -> bool
        requires { length dist.now.members ≡ self.old }
        ensures { self.new ≡ self.old }
    {
        let over = Over {
            nest: &self.nest,
            forest: &self.forest,
            dist,
        };
        let Some(Chosen { step, twice }) = self.slacks.next_step(over, &self.duals) else {
            return false;
        };
        self.slacks.raise(over, &mut self.duals, change_of(twice));
        if let Step::Expand(set) = step {
            self.slacks.open(&self.nest, set);
        }
        take(&mut self.nest, &mut self.forest, step);
        let after = Over {
            nest: &self.nest,
            forest: &self.forest,
            dist,
        };
        self.slacks.follow(after);
        true
    }

    /// The matched pairs and the numbers.
    fn found(&self, alloc: Global) -> Result<(Vec<(u32, u32)>, Cert), AllocError>
        ensures pairs { IfOk result (λ found. All (λ pair. (pair.0 < self.now)
            × (pair.1 < self.now)) found.0.items) }
        ensures numbers { IfOk result (λ found. length found.1.vertex ≡ self.now) }
    {
        let pairs = pairs_of(alloc, &self.forest)?;
        let cert = certificate(alloc, &self.nest, &self.duals)?;
        Ok((pairs, cert))
    }
}

/// Takes a step.
fn take(nest: &mut Nest, forest: &mut Forest, step: Step)
    requires forest { forest.old.vertices ≡ nest.old.vertices }
    requires step { IsPossible nest.old step }
    ensures nest { nest.new.vertices ≡ nest.old.vertices }
    ensures forest { forest.new.vertices ≡ forest.old.vertices }
{
    match step {
        Step::Grow(outer, free) => forest.grow(nest, outer, free),
        Step::Shrink(one, two) => {
            let _ = forest.shrink(nest, one, two);
        }
        Step::Expand(set) => forest.expand(nest, set),
        Step::Augment(one, two) => forest.augment(nest, one, two),
    }
}

/// The matched pairs, each once.
fn pairs_of(alloc: Global, forest: &Forest) -> Result<Vec<(u32, u32)>, AllocError>
    ensures { IfOk result (λ pairs. All (λ pair. (pair.0 < forest.now.vertices)
        × (pair.1 < forest.now.vertices)) pairs.items) }
{
    let count = forest.vertices();
    let mut pairs = Vec::with_capacity(alloc, count as usize)?;
    for vertex in 0..count {
        if let Some(mate) = forest.mate(vertex)
            && vertex < mate
        {
            pairs.push((vertex, mate))?;
        }
    }
    Ok(pairs)
}
