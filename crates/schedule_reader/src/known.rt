//! What the lines so far give.
ghost use Rattle.std.specs.Prelude.{◌≡◌, ◌<◌, ◌+◌, ℕ, List, ◌==◌, true, OnOk, IfOk, map, drop, length, slice_index_or, bytes_eq};
ghost use Rattle.std.specs.List.{list_any, position};
ghost use Rattle.surface_model.specs.Schedules.{PatchLine, MergeLine, ReadLine, CondLine};
ghost use Rattle.surface_model.specs.Text.{has, seam_of};
ghost use Rattle.surface_model.specs.Parse.{number_in};
ghost use Rattle.schedule_reader.specs.Known.{no_tables, names_in, labels_in};

use crate::field::is_joined;
use crate::name::Name;
use crate::schedule::{CondItem, InitItem, MergeItem, PatchItem, ReadItem};
use std::alloc::Global;
use std::marker::Model;

/// Which line comes next.
#[derive(Clone, Copy, Debug, PartialEq, Eq)]
pub(crate) enum Place {
    Version,
    Distance,
    Weights,
    Body,
}

/// What is asked of each field, in the order of the faults.
#[derive(Clone, Copy, Debug, PartialEq, Eq)]
pub(crate) enum Check {
    Form,
    Range,
    Name,
    New,
}

/// An observable's name: a label, or a merge's label with `.seam` after it.
#[derive(Drop)]
pub(crate) struct ObservableName {
    label: Name,
    seam: bool,
}

impl Model for ObservableName {
    ghost use Rattle.std.specs.Prelude.{List, ℕ, if◌then◌else◌};
    ghost use Rattle.surface_model.specs.Text.{seam_of};

    ghost Value = { List ℕ };

    ghost view = { λ o. if o.seam then seam_of o.label else o.label };
}

impl ObservableName {
    pub(crate) fn of_label(label: Name) -> ObservableName
        ensures { result ≡ label }
    {
        ObservableName { label, seam: false }
    }

    pub(crate) fn of_seam(label: Name) -> ObservableName
        ensures { result ≡ seam_of label }
    {
        ObservableName { label, seam: true }
    }

    fn is_spelled(&self, field: &[u8]) -> bool
        ensures { result ≡ bytes_eq field.now self.now }
    {
        if self.seam {
            is_joined(field, self.label.as_bytes(), b".seam")
        } else {
            self.label.is_spelled(field)
        }
    }
}

/// What the lines so far give.
#[derive(Drop)]
pub(crate) struct Tables {
    pub(crate) place: Place,
    pub(crate) last_line: u32,
    pub(crate) distance: u32,
    pub(crate) space: u32,
    pub(crate) time: u32,
    pub(crate) patches: Vec<PatchItem>,
    pub(crate) inits: Vec<InitItem>,
    pub(crate) merges: Vec<MergeItem>,
    pub(crate) reads: Vec<ReadItem>,
    pub(crate) conds: Vec<CondItem>,
    /// The names of the patches that are prepared.
    pub(crate) prepared: Vec<Name>,
    /// The names of the patches that are read.
    pub(crate) measured: Vec<Name>,
    pub(crate) observables: Vec<ObservableName>,
}

impl Model for Tables {
    ghost use Rattle.std.specs.Prelude.{◌≤◌, ◌+◌, ◌*◌, vec_len};
    ghost use Rattle.surface_model.specs.Limits.{most_labels, most_patches};
    ghost use Rattle.schedule_reader.specs.Known.{Tables as Known};

    ghost Value = { Known };

    ghost view = { λ t. record {
      place = t.place;
      last_line = t.last_line;
      distance = t.distance;
      space = t.space;
      time = t.time;
      patches = t.patches.items;
      inits = t.inits.items;
      merges = t.merges.items;
      reads = t.reads.items;
      conds = t.conds.items;
      prepared = t.prepared.items;
      measured = t.measured.items;
      observables = t.observables.items;
    } };

    ghost invariant = { λ t. (vec_len t.patches ≤ most_patches)
        × (vec_len t.merges + vec_len t.reads + vec_len t.conds ≤ most_labels)
        × (vec_len t.observables ≤ 2 * (vec_len t.merges + vec_len t.reads)) };
}

impl Tables {
    pub(crate) fn new(alloc: Global) -> Tables
        ensures { result ≡ no_tables }
    {
        Tables {
            place: Place::Version,
            last_line: 0,
            distance: 0,
            space: 0,
            time: 0,
            patches: Vec::new(alloc),
            inits: Vec::new(alloc),
            merges: Vec::new(alloc),
            reads: Vec::new(alloc),
            conds: Vec::new(alloc),
            prepared: Vec::new(alloc),
            measured: Vec::new(alloc),
            observables: Vec::new(alloc),
        }
    }

    #[tactic(auto, using(crate::proofs::Named::names_has))]
    pub(crate) fn has_patch(&self, field: &[u8]) -> bool
        ensures { result ≡ has (names_in self.now) field.now }
    {
        has_patch(&self.patches, field)
    }

    #[tactic(auto, using(crate::proofs::Named::labels_has))]
    pub(crate) fn has_label(&self, field: &[u8]) -> bool
        ensures { result ≡ has (labels_in self.now) field.now }
    {
        if has_merge(&self.merges, field) || has_read(&self.reads, field) {
            return true;
        }
        has_cond(&self.conds, field)
    }

    pub(crate) fn has_observable(&self, field: &[u8]) -> bool
        ensures { result ≡ has self.now.observables field.now }
    {
        self.observables.iter().any(|name| name.is_spelled(field))
    }

    pub(crate) fn is_prepared(&self, field: &[u8]) -> bool
        ensures { result ≡ has self.now.prepared field.now }
    {
        has_name(&self.prepared, field)
    }

    pub(crate) fn is_measured(&self, field: &[u8]) -> bool
        ensures { result ≡ has self.now.measured field.now }
    {
        has_name(&self.measured, field)
    }

    /// The number of the patch of this name.
    #[tactic(auto, using(crate::proofs::Named::names_place))]
    pub(crate) fn patch_number(&self, field: &[u8]) -> u32
        ensures { result ≡ number_in (names_in self.now) field.now }
    {
        match patch_place(&self.patches, field) {
            Some(at) => at as u32,
            None => 0,
        }
    }

    /// The number of the observable of this name.
    pub(crate) fn observable_number(&self, field: &[u8]) -> u16
        ensures { result ≡ number_in self.now.observables field.now }
    {
        match observable_place(&self.observables, field) {
            Some(at) => at as u16,
            None => 0,
        }
    }
}

fn has_name(names: &[Name], field: &[u8]) -> bool
    ensures { result ≡ has names.now field.now }
{
    names.iter().any(|name| name.is_spelled(field))
}

fn has_patch(patches: &[PatchItem], field: &[u8]) -> bool
    ensures { result ≡ list_any (λ (p : PatchLine). bytes_eq field.now p.name) patches.now }
{
    patches.iter().any(|patch| patch.name.is_spelled(field))
}

fn patch_place(patches: &[PatchItem], field: &[u8]) -> Option<usize>
    ensures { result ≡ position (λ (p : PatchLine). bytes_eq field.now p.name) patches.now }
{
    patches
        .iter()
        .position(|patch| patch.name.is_spelled(field))
}

fn observable_place(names: &[ObservableName], field: &[u8]) -> Option<usize>
    ensures { result ≡ position (bytes_eq field.now) names.now }
{
    names.iter().position(|name| name.is_spelled(field))
}

fn has_merge(merges: &[MergeItem], field: &[u8]) -> bool
    ensures { result ≡ list_any (λ (m : MergeLine). bytes_eq field.now m.label) merges.now }
{
    merges.iter().any(|merge| merge.label.is_spelled(field))
}

fn has_read(reads: &[ReadItem], field: &[u8]) -> bool
    ensures { result ≡ list_any (λ (r : ReadLine). bytes_eq field.now r.label) reads.now }
{
    reads.iter().any(|read| read.label.is_spelled(field))
}

fn has_cond(conds: &[CondItem], field: &[u8]) -> bool
    ensures { result ≡ list_any (λ (c : CondLine). bytes_eq field.now c.label) conds.now }
{
    conds.iter().any(|cond| cond.label.is_spelled(field))
}
