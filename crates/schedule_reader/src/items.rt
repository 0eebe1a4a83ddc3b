//! One more item for the tables.
ghost use Rattle.std.specs.Prelude.{◌≡◌, ◌<◌, ◌+◌, ℕ, [], List, OnOk, IfOk, map, drop, length, slice_index_or};
ghost use Rattle.surface_model.specs.Text.{number_of};
ghost use Rattle.surface_model.specs.Parse.{number_in, basis_of};
ghost use Rattle.schedule_reader.specs.Lines.{line_of};
ghost use Rattle.schedule_reader.specs.Known.{many_in, with_item, with_line, names_at, counts_at, is_fit};

use crate::field::number_of;
use crate::known::{ObservableName, Place, Tables};
use crate::line::{LineKind, field_at};
use crate::name::Name;
use crate::schedule::{CondItem, InitItem, MergeItem, PatchItem, ReadItem};
use smallvec::SmallVec;
use std::alloc::{AllocError, Global};
use surface_model::Basis;

/// The number in the field at this place.
fn number_at(fields: &[&[u8]], at: usize) -> u32
    requires { counts_at (map (λ f. f.now) fields.now) at }
    ensures { result ≡ number_of (slice_index_or (map (λ f. f.now) fields.now) at []) }
{
    number_of(field_at(fields, at))
}

/// The name in the field at this place.
fn name_at(fields: &[&[u8]], at: usize) -> Name
    requires { names_at (map (λ f. f.now) fields.now) at }
    ensures { result ≡ slice_index_or (map (λ f. f.now) fields.now) at [] }
{
    Name::of(field_at(fields, at))
}

fn basis_of(field: &[u8]) -> Basis
    ensures { result ≡ basis_of field.now }
{
    if field == b"x".as_slice() {
        Basis::X
    } else {
        Basis::Z
    }
}

impl Tables {
    fn add_patch(&mut self, number: u32, fields: &[&[u8]]) -> Result<(), AllocError>
        requires { is_fit self.old LineKind.Patch (map (λ f. f.now) fields.now) }
        ensures { OnOk result (self.new
            ≡ with_item self.old (line_of LineKind.Patch number (map (λ f. f.now) fields.now))) }
    {
        let patch = PatchItem {
            line: number,
            name: name_at(fields, 0),
            tile_row: number_at(fields, 1),
            tile_col: number_at(fields, 2),
        };
        self.patches.push(patch)?;
        Ok(())
    }

    fn add_init(&mut self, number: u32, fields: &[&[u8]]) -> Result<(), AllocError>
        requires { is_fit self.old LineKind.Init (map (λ f. f.now) fields.now) }
        ensures { OnOk result (self.new
            ≡ with_item self.old (line_of LineKind.Init number (map (λ f. f.now) fields.now))) }
    {
        let init = InitItem {
            line: number,
            patch: self.patch_number(field_at(fields, 0)),
            basis: basis_of(field_at(fields, 1)),
            slot: number_at(fields, 2),
        };
        self.inits.push(init)?;
        self.prepared.push(name_at(fields, 0))?;
        Ok(())
    }

    fn add_merge(&mut self, number: u32, fields: &[&[u8]]) -> Result<(), AllocError>
        requires { is_fit self.old LineKind.Merge (map (λ f. f.now) fields.now) }
        ensures { OnOk result (self.new
            ≡ with_item self.old (line_of LineKind.Merge number (map (λ f. f.now) fields.now))) }
    {
        let merge = MergeItem {
            line: number,
            label: name_at(fields, 0),
            one: self.patch_number(field_at(fields, 1)),
            two: self.patch_number(field_at(fields, 2)),
            slot: number_at(fields, 3),
            count: number_at(fields, 4),
        };
        self.merges.push(merge)?;
        self.observables
            .push(ObservableName::of_label(name_at(fields, 0)))?;
        self.observables
            .push(ObservableName::of_seam(name_at(fields, 0)))?;
        Ok(())
    }

    fn add_read(&mut self, number: u32, fields: &[&[u8]]) -> Result<(), AllocError>
        requires { is_fit self.old LineKind.Read (map (λ f. f.now) fields.now) }
        ensures { OnOk result (self.new
            ≡ with_item self.old (line_of LineKind.Read number (map (λ f. f.now) fields.now))) }
    {
        let read = ReadItem {
            line: number,
            label: name_at(fields, 0),
            patch: self.patch_number(field_at(fields, 1)),
            basis: basis_of(field_at(fields, 2)),
            slot: number_at(fields, 3),
        };
        self.reads.push(read)?;
        self.measured.push(name_at(fields, 1))?;
        self.observables
            .push(ObservableName::of_label(name_at(fields, 0)))?;
        Ok(())
    }

    fn add_cond(&mut self, alloc: Global, number: u32, fields: &[&[u8]]) -> Result<(), AllocError>
        requires { is_fit self.old LineKind.Cond (map (λ f. f.now) fields.now) }
        ensures { OnOk result (self.new
            ≡ with_item self.old (line_of LineKind.Cond number (map (λ f. f.now) fields.now))) }
    {
        let cond = CondItem {
            line: number,
            label: name_at(fields, 0),
            patch: self.patch_number(field_at(fields, 1)),
            slot: number_at(fields, 2),
            labels: self.labels_from(alloc, fields)?,
        };
        self.conds.push(cond)?;
        Ok(())
    }

    /// The numbers of a condition's observables, which its fields name from the fourth after the
    /// first on.
    fn labels_from(
        &self,
        alloc: Global,
        fields: &[&[u8]],
    ) -> Result<SmallVec<u16, 4, Global>, AllocError>
        ensures { IfOk result (λ v. v.items
            ≡ map (number_in self.now.observables) (drop 3 (map (λ f. f.now) fields.now))) }
    {
        let mut labels = SmallVec::new(alloc);
        for at in 3..fields.len() {
            labels.push(self.observable_number(field_at(fields, at)))?;
        }
        Ok(labels)
    }

    /// Takes the item of one more line.
    pub(crate) fn add_item(
        &mut self,
        alloc: Global,
        kind: LineKind,
        number: u32,
        fields: &[&[u8]],
    ) -> Result<(), AllocError>
        requires { is_fit self.old kind (map (λ f. f.now) fields.now) }
        ensures { OnOk result (self.new
            ≡ with_item self.old (line_of kind number (map (λ f. f.now) fields.now))) }
    {
        match kind {
            LineKind::Distance => {
                self.distance = number_at(fields, 0);
                Ok(())
            }
            LineKind::Weights => {
                self.space = number_at(fields, 0);
                self.time = number_at(fields, 1);
                Ok(())
            }
            LineKind::Patch => self.add_patch(number, fields),
            LineKind::Init => self.add_init(number, fields),
            LineKind::Merge => self.add_merge(number, fields),
            LineKind::Read => self.add_read(number, fields),
            LineKind::Cond => self.add_cond(alloc, number, fields),
            LineKind::Swiper | LineKind::Rounds => Ok(()),
        }
    }
}
