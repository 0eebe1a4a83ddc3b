//! A schedule as its lines give it.
ghost use Rattle.std.specs.Prelude.{◌≡◌, ◌≤◌, length};
ghost use Rattle.surface_model.specs.Layout.{split_slot};
ghost use Rattle.surface_model.specs.Limits.{most_patches};
ghost use Rattle.surface_model.specs.Accepted.{IsInRange};
ghost use Rattle.schedule_reader.specs.Accepted.{EndsInRounds, NamesObservables, HasWeights, IsRead};

use crate::name::Name;
use smallvec::SmallVec;
use std::alloc::Global;
use std::marker::Model;
use surface_model::Basis;

/// A patch and the tile on which it stands, each coordinate 0 to 15.
#[derive(Drop)]
pub struct PatchItem {
    pub line: u32,
    pub name: Name,
    pub tile_row: u32,
    pub tile_col: u32,
}

impl Model for PatchItem {
    ghost use Rattle.surface_model.specs.Schedules.{PatchLine};

    ghost Value = { PatchLine };

    ghost view = { λ p. record {
      line = p.line;
      name = p.name;
      row = p.tile_row;
      column = p.tile_col;
    } };
}

/// A patch's preparation in a basis, by the patch's number.
#[derive(Drop)]
pub struct InitItem {
    pub line: u32,
    pub patch: u32,
    pub basis: Basis,
    pub slot: u32,
}

impl Model for InitItem {
    ghost use Rattle.surface_model.specs.Schedules.{InitLine};

    ghost Value = { InitLine };

    ghost view = { λ i. record { line = i.line; patch = i.patch; basis = i.basis; slot = i.slot } };
}

/// A merge of two patches from a slot on, for so many slots.
#[derive(Drop)]
pub struct MergeItem {
    pub line: u32,
    pub label: Name,
    pub one: u32,
    pub two: u32,
    pub slot: u32,
    pub count: u32,
}

impl Model for MergeItem {
    ghost use Rattle.surface_model.specs.Schedules.{MergeLine};

    ghost Value = { MergeLine };

    ghost view = { λ m. record {
      line = m.line;
      label = m.label;
      one = m.one;
      two = m.two;
      slot = m.slot;
      count = m.count;
    } };
}

impl MergeItem {
    /// The slot in which the merge is split: the one after its last.
    pub fn split_slot(&self) -> u64
        ensures { result ≡ split_slot self.now }
    {
        u64::from(self.slot) + u64::from(self.count)
    }
}

/// A patch's reading in a basis.
#[derive(Drop)]
pub struct ReadItem {
    pub line: u32,
    pub label: Name,
    pub patch: u32,
    pub basis: Basis,
    pub slot: u32,
}

impl Model for ReadItem {
    ghost use Rattle.surface_model.specs.Schedules.{ReadLine};

    ghost Value = { ReadLine };

    ghost view = { λ r. record {
      line = r.line;
      label = r.label;
      patch = r.patch;
      basis = r.basis;
      slot = r.slot;
    } };
}

/// A conditional operation on a patch, with the numbers of the observables whose parity is its bit.
#[derive(Drop)]
pub struct CondItem {
    pub line: u32,
    pub label: Name,
    pub patch: u32,
    pub slot: u32,
    pub labels: SmallVec<u16, 4, Global>,
}

impl Model for CondItem {
    ghost use Rattle.surface_model.specs.Schedules.{CondLine};

    ghost Value = { CondLine };

    ghost view = { λ c. record {
      line = c.line;
      label = c.label;
      patch = c.patch;
      slot = c.slot;
      labels = c.labels.items;
    } };
}

/// A schedule: its distance, the weights of space and time edges, and its items in the order of
/// their lines.
///
/// It is that of some text without a fault. So the distance is odd, 3 to 11, and the weights are 1
/// to 1,000; slots are at most 4,095; numbers of patches and observables name what an earlier line
/// gives; there are at most 64 patches, and 256 merges, reads and conditions.
pub struct Schedule {
    pub distance: u32,
    pub space: u32,
    pub time: u32,
    pub patches: Vec<PatchItem>,
    pub inits: Vec<InitItem>,
    pub merges: Vec<MergeItem>,
    pub reads: Vec<ReadItem>,
    pub conds: Vec<CondItem>,
    pub rounds_line: u32,
}

impl Drop for Schedule {
    fn drop(self) {
        let Schedule {
            distance: _,
            space: _,
            time: _,
            patches: _,
            inits: _,
            merges: _,
            reads: _,
            conds: _,
            rounds_line: _,
        } = self;
    }
}

impl Model for Schedule {
    ghost use Rattle.surface_model.specs.Schedules.{Schedule as Whole};
    ghost use Rattle.schedule_reader.specs.Accepted.{IsRead};

    ghost Value = { Whole };

    ghost view = { λ s. record {
      distance = s.distance;
      space = s.space;
      time = s.time;
      patches = s.patches.items;
      inits = s.inits.items;
      merges = s.merges.items;
      reads = s.reads.items;
      conds = s.conds.items;
      rounds_line = s.rounds_line;
    } };

    ghost invariant = { λ s. IsRead (record {
      distance = s.distance;
      space = s.space;
      time = s.time;
      patches = s.patches.items;
      inits = s.inits.items;
      merges = s.merges.items;
      reads = s.reads.items;
      conds = s.conds.items;
      rounds_line = s.rounds_line;
    }) };
}

impl Schedule {
    /// The schedule is that of some text without a fault, from which its ranges follow.
    pub fn is_read(&self)
        ensures read { IsRead self.now }
        ensures ranges { IsInRange self.now }
        ensures weights { HasWeights self.now }
        ensures patches { length self.now.patches ≤ most_patches }
        ensures last_line { EndsInRounds self.now }
        ensures conds { NamesObservables self.now }
    {
        let _ = &self.distance;
    }
}
