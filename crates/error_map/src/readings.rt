//! The readings of qubits.
ghost use Rattle.std.specs.Prelude.{◌≡◌, ◌<◌, ◌≤◌, ◌+◌, ◌^◌, ◌++◌, ◌==◌, ◌&&◌, true, ◌∷◌, [], if◌then◌else◌, IfOk, OnOk, length, nat_lt};
ghost use Rattle.std.specs.List.{list_any};
ghost use Rattle.patch_layout.specs.Seen.{most_coordinate};
ghost use Rattle.surface_model.specs.Schedules.{Schedule as Whole, same_basis};
ghost use Rattle.surface_model.specs.Layout.{has_qubit, last_slot, readings_at, split_slot};
ghost use Rattle.surface_model.specs.Errors.{next_readout};
ghost use Rattle.surface_model.specs.Accepted.{IsAccepted};
ghost use Rattle.surface_model.specs.Limits.{last_named_slot};
ghost use Rattle.error_map.specs.Keys.{AreKeys, key_of};
ghost use Rattle.error_map.specs.Readings.{AreOf, AreReadings, is_wanted, pick, read_keys, split_keys, wanted_keys};
ghost use Rattle.error_map.specs.Seen.{error_in, mechanism_of};
ghost use Rattle.error_map.specs.Sees.{IsEffect};
ghost use Rattle.error_map.specs.declared.types.Wanted.{Wanted};

use crate::keys::{Key, beginnings, distinct, next_number, push_region};
use crate::types::{Class, Effect, Mechanism, SpaceError, Wanted};
use patch_layout::{Basis, Qubit, Region, patch_region, seam_basis, seam_region};
use schedule_reader::{MergeItem, ReadItem, Schedule};
use std::alloc::{AllocError, Global};
use std::marker::Model;

/// When the qubits of a schedule are read, all of them or one: for each basis the places of the
/// qubits that are read in it, each with its slot.
pub(crate) struct Readings {
    z: Vec<Key>,
    x: Vec<Key>,
    /// Where searches begin, in either list.
    near_z: Vec<usize>,
    near_x: Vec<usize>,
    /// The slot after the last.
    end: u32,
}

impl Drop for Readings {
    fn drop(self) {
        let Readings {
            z: _,
            x: _,
            near_z: _,
            near_x: _,
            end: _,
        } = self;
    }
}

impl Model for Readings {
    ghost use Rattle.error_map.specs.Readings.{AreSearchable, ReadKeys};

    ghost Value = { ReadKeys };

    ghost view = { λ r. record { z = r.z.items; x = r.x.items; end = r.end } };

    ghost invariant = { λ r. AreSearchable (record { z = r.z.items; x = r.x.items; end = r.end }) };
}

impl Readings {
    /// The readings of a schedule whose last slot is this one: of every qubit, or of one.
    pub(crate) fn new(
        alloc: Global,
        schedule: &Schedule,
        last: u32,
        wanted: &Wanted,
    ) -> Result<Readings, AllocError>
        requires accepted { IsAccepted schedule.now }
        requires last { (last ≡ last_slot schedule.now) × (last ≤ last_named_slot) }
        ensures { IfOk result (AreOf schedule.now wanted.now) }
    {
        let z = readings_in(alloc, schedule, wanted, Basis::Z)?;
        let x = readings_in(alloc, schedule, wanted, Basis::X)?;
        let near_z = near_of(alloc, &z, wanted)?;
        let near_x = near_of(alloc, &x, wanted)?;
        Ok(Readings {
            z,
            x,
            near_z,
            near_x,
            end: last + 1,
        })
    }

    /// Which bits a mechanism changes.
    pub(crate) fn effect(&self, mechanism: Mechanism) -> Effect
        requires { mechanism.slot ≤ last_named_slot }
        ensures mechanism { error_in result ≡ mechanism_of mechanism }
        ensures effect { (s : Whole) (wanted : Wanted) → IsAccepted s → AreOf s wanted self.now →
            is_wanted wanted (mechanism_of mechanism).place ≡ true →
            mechanism.slot ≤ last_slot s → IsEffect s result }
    {
        let Mechanism {
            slot,
            class,
            row,
            col,
        } = mechanism;
        match class {
            Class::Readout => Effect::Readout { slot, row, col },
            Class::Measurement => Effect::Outcome { slot, row, col },
            Class::SpaceX => Effect::Space(self.space(mechanism, Basis::Z)),
            Class::SpaceZ => Effect::Space(self.space(mechanism, Basis::X)),
        }
    }

    /// A space error that the checks of a basis see, with the next readout of its qubit.
    fn space(&self, mechanism: Mechanism, basis: Basis) -> SpaceError
        requires { mechanism.slot ≤ last_named_slot }
        ensures own { result ≡ record {
          basis = basis;
          slot = mechanism.slot;
          row = mechanism.row;
          col = mechanism.col;
          next = result.next;
          shown = result.shown;
        } }
        ensures next { (s : Whole) (wanted : Wanted) → IsAccepted s → AreOf s wanted self.now →
            is_wanted wanted (mechanism_of mechanism).place ≡ true →
            mechanism.slot ≤ last_slot s →
            result.next ≡ next_readout s mechanism.slot (mechanism_of mechanism).place }
        ensures shown { (s : Whole) (wanted : Wanted) → IsAccepted s → AreOf s wanted self.now →
            is_wanted wanted (mechanism_of mechanism).place ≡ true →
            mechanism.slot ≤ last_slot s →
            result.shown ≡ list_any (same_basis basis)
            (readings_at s result.next (mechanism_of mechanism).place) }
    {
        let (row, col) = (mechanism.row, mechanism.col);
        let start = Key {
            row,
            col,
            number: mechanism.slot,
        };
        let z = next_number(&self.z, &self.near_z, start, self.end);
        let x = next_number(&self.x, &self.near_x, start, self.end);
        let next = z.min(x);
        SpaceError {
            basis,
            slot: mechanism.slot,
            row,
            col,
            next,
            shown: is_first(pick(basis, z, x), next, self.end),
        }
    }
}

/// Where searches in the keys begin; for the few of one qubit they begin anywhere.
fn near_of(alloc: Global, keys: &[Key], wanted: &Wanted) -> Result<Vec<usize>, AllocError> {
    match wanted {
        Wanted::Every => beginnings(alloc, keys),
        Wanted::One(_) => Ok(Vec::new(alloc)),
    }
}

/// The number of the basis.
fn pick(basis: Basis, z: u32, x: u32) -> u32
    ensures { result ≡ pick basis z x }
{
    match basis {
        Basis::Z => z,
        Basis::X => x,
    }
}

/// Whether a slot is the first one, and comes before the end.
fn is_first(slot: u32, first: u32, end: u32) -> bool
    ensures { result ≡ (slot == first && nat_lt first end) }
{
    slot == first && first < end
}

/// Whether a region has the qubit.
fn has_qubit(region: Region, qubit: Qubit) -> bool
    requires rows { region.row + region.height ≤ most_coordinate }
    requires columns { region.column + region.width ≤ most_coordinate }
    ensures { result ≡ has_qubit region qubit }
{
    region.row <= qubit.row
        && qubit.row < region.row + region.height
        && region.col <= qubit.col
        && qubit.col < region.col + region.width
}

/// Adds the key of a region's qubit, where the region has it.
fn push_qubit(
    keys: &mut Vec<Key>,
    region: Region,
    slot: u32,
    qubit: Qubit,
) -> Result<(), AllocError>
    requires rows { region.row + region.height ≤ most_coordinate }
    requires columns { region.column + region.width ≤ most_coordinate }
    ensures { OnOk result (keys.new.items ≡ keys.old.items
        ++ (if has_qubit region qubit then key_of slot qubit ∷ [] else [])) }
{
    if has_qubit(region, qubit) {
        keys.push(Key {
            row: qubit.row,
            col: qubit.col,
            number: slot,
        })?;
    }
    Ok(())
}

/// Adds the keys of those of a region's places that are asked for.
fn push_wanted(
    keys: &mut Vec<Key>,
    region: Region,
    slot: u32,
    wanted: &Wanted,
) -> Result<(), AllocError>
    requires rows { region.row + region.height ≤ most_coordinate }
    requires columns { region.column + region.width ≤ most_coordinate }
    ensures { OnOk result (keys.new.items ≡ keys.old.items ++ wanted_keys wanted.now slot region) }
{
    match wanted {
        Wanted::Every => push_region(keys, region, slot),
        Wanted::One(qubit) => push_qubit(keys, region, slot, *qubit),
    }
}

/// Adds the keys of a patch's reading, where it is in the basis.
fn push_read(
    keys: &mut Vec<Key>,
    schedule: &Schedule,
    read: &ReadItem,
    wanted: &Wanted,
    basis: Basis,
) -> Result<(), AllocError>
    requires accepted { IsAccepted schedule.now }
    requires patch { read.now.patch < length schedule.now.patches }
    ensures { OnOk result (keys.new.items ≡ keys.old.items ++ read_keys schedule.now wanted.now
        basis read.now) }
{
    if read.basis != basis {
        return Ok(());
    }
    push_wanted(keys, patch_region(schedule, read.patch), read.slot, wanted)
}

/// Adds the keys of the seam's readings at a merge's split, where they are in the basis.
fn push_split(
    keys: &mut Vec<Key>,
    schedule: &Schedule,
    merge: &MergeItem,
    wanted: &Wanted,
    basis: Basis,
) -> Result<(), AllocError>
    requires accepted { IsAccepted schedule.now }
    requires one { merge.now.one < length schedule.now.patches }
    requires two { merge.now.two < length schedule.now.patches }
    requires split { split_slot merge.now < 2 ^ 32 }
    ensures { OnOk result (keys.new.items ≡ keys.old.items ++ split_keys schedule.now wanted.now
        basis merge.now) }
{
    if seam_basis(schedule, merge) != basis {
        return Ok(());
    }
    let split = merge.split_slot() as u32;
    push_wanted(keys, seam_region(schedule, merge), split, wanted)
}

/// The keys of the readings in a basis.
fn readings_in(
    alloc: Global,
    schedule: &Schedule,
    wanted: &Wanted,
    basis: Basis,
) -> Result<Vec<Key>, AllocError>
    requires { IsAccepted schedule.now }
    ensures readings { IfOk result (λ v. AreReadings schedule.now wanted.now basis v.items) }
    ensures keys { IfOk result (λ v. AreKeys v.items) }
{
    let mut keys = Vec::new(alloc);
    for read in &schedule.reads {
        push_read(&mut keys, schedule, read, wanted, basis)?;
    }
    for merge in &schedule.merges {
        push_split(&mut keys, schedule, merge, wanted, basis)?;
    }
    Ok(distinct(keys))
}
