//! The observables of a schedule.
ghost use Rattle.std.specs.Prelude.{◌≡◌, ◌≤◌, ◌<◌, ◌+◌, ◌++◌, ◌∷◌, [], filter, flat_map, length, map, Contains, IfOk, OnOk, false, if◌then◌else◌};
ghost use Rattle.std.specs.List.{list_any, range_with_len};
ghost use Rattle.surface_model.specs.Schedules.{MergeLine, ReadLine};
ghost use Rattle.surface_model.specs.Layout.{checks, is_among, is_seam_check, merged_region};
ghost use Rattle.surface_model.specs.Measurements as measurements;
ghost use Rattle.surface_model.specs.Measurements.{merge_observables, observables, read_observable};
ghost use Rattle.surface_model.specs.Accepted.{IsInRange};
ghost use Rattle.slot_bits.specs.Observed.{place_of, placed_observable};
ghost use Rattle.slot_bits.specs.Watched.{first_side, observed_at, of_merges, of_reads, own_bits, read_bits, seam_bits};
ghost use Rattle.slot_bits.specs.Seen.{bits_of};

use crate::bit_places::BitPlaces;
use crate::bits::{Bit, Observable};
use crate::pieces::readouts;
use patch_layout::{
    Corner, Region, checks, is_check, kind, merged_region, patch_region, seam_basis, seam_region,
};
use schedule_reader::{MergeItem, Name, ReadItem, Schedule};
use std::alloc::{AllocError, Global};
use surface_model::Basis;

/// Whether a corner is one of a merge's seam checks.
fn is_seam_check(schedule: &Schedule, merge: &MergeItem, corner: Corner) -> bool
    requires ranges { IsInRange schedule.now }
    requires one { merge.now.one < length schedule.now.patches }
    requires two { merge.now.two < length schedule.now.patches }
    ensures { result ≡ is_seam_check schedule.now merge.now corner }
{
    is_check(corner, merged_region(schedule, merge))
        && !is_check(corner, patch_region(schedule, merge.one))
        && !is_check(corner, patch_region(schedule, merge.two))
        && kind(corner) != seam_basis(schedule, merge)
}

/// The outcomes of a merge's seam checks, by row and then by column.
fn seam_checks(
    alloc: Global,
    schedule: &Schedule,
    merge: &MergeItem,
) -> Result<Vec<Bit>, AllocError>
    requires ranges { IsInRange schedule.now }
    requires one { merge.now.one < length schedule.now.patches }
    requires two { merge.now.two < length schedule.now.patches }
    ensures { IfOk result (λ v. bits_of v.items
        ≡ map measurements.Outcome (filter (is_seam_check schedule.now merge.now)
        (checks (merged_region schedule.now merge.now)))) }
{
    let corners = checks(alloc, merged_region(schedule, merge))?;
    let mut bits = Vec::new(alloc);
    for corner in &corners {
        if is_seam_check(schedule, merge, *corner) {
            bits.push(Bit::Outcome(*corner))?;
        }
    }
    Ok(bits)
}

/// The places of a merge's seam checks in its first slot.
fn own_places(
    alloc: Global,
    places: &BitPlaces<'_>,
    merge: &MergeItem,
) -> Result<Vec<u32>, AllocError>
    requires { Contains places.now.merges merge.now }
    ensures { IfOk result (λ v. v.items
        ≡ map (place_of places.now) (own_bits places.now merge.now)) }
{
    places.is_accepted();
    let bits = seam_checks(alloc, places.schedule(), merge)?;
    places.among(alloc, merge.slot, &bits)
}

/// The place of the first qubit of a merge's seam in the slot in which it is split.
fn seam_places(
    alloc: Global,
    places: &BitPlaces<'_>,
    merge: &MergeItem,
) -> Result<Vec<u32>, AllocError>
    requires { Contains places.now.merges merge.now }
    ensures { IfOk result (λ v. v.items
        ≡ map (place_of places.now) (seam_bits places.now merge.now)) }
{
    places.is_accepted();
    let seam = seam_region(places.schedule(), merge);
    let start = Region {
        row: seam.row,
        col: seam.col,
        height: 1,
        width: 1,
    };
    let bits = readouts(alloc, start)?;
    let split = merge.split_slot() as u32;
    places.among(alloc, split, &bits)
}

/// The first row of a region, or in basis x its first column.
fn first_side(basis: Basis, region: Region) -> Region
    ensures { result ≡ first_side basis region }
{
    let Region {
        row,
        col,
        height,
        width,
    } = region;
    match basis {
        Basis::Z => Region {
            row,
            col,
            height: 1,
            width,
        },
        Basis::X => Region {
            row,
            col,
            height,
            width: 1,
        },
    }
}

/// The places of a patch's first row or column in the slot in which it is read.
fn read_places(
    alloc: Global,
    places: &BitPlaces<'_>,
    read: &ReadItem,
) -> Result<Vec<u32>, AllocError>
    requires { Contains places.now.reads read.now }
    ensures { IfOk result (λ v. v.items
        ≡ map (place_of places.now) (read_bits places.now read.now)) }
{
    places.is_accepted();
    let side = first_side(read.basis, patch_region(places.schedule(), read.patch));
    let bits = readouts(alloc, side)?;
    places.among(alloc, read.slot, &bits)
}

/// A copy of a name.
fn copy_of(name: &Name) -> Name
    ensures { result ≡ name.now }
{
    Name::new(name.as_bytes()).unwrap()
}

/// Adds the observables of a merge, its own before its seam's.
fn push_merge(
    observables: &mut Vec<Observable>,
    alloc: Global,
    places: &BitPlaces<'_>,
    merge: &MergeItem,
) -> Result<(), AllocError>
    requires { Contains places.now.merges merge.now }
    ensures { OnOk result (observables.new.items ≡ observables.old.items
        ++ map (placed_observable places.now) (merge_observables places.now merge.now)) }
{
    places.is_accepted();
    let split = merge.split_slot() as u32;
    let own = own_places(alloc, places, merge)?;
    let seam = seam_places(alloc, places, merge)?;
    observables.push(Observable {
        name: copy_of(&merge.label),
        seam: false,
        slot: merge.slot,
        places: own,
    })?;
    observables.push(Observable {
        name: copy_of(&merge.label),
        seam: true,
        slot: split,
        places: seam,
    })?;
    Ok(())
}

/// Adds the observable of a reading.
fn push_read(
    observables: &mut Vec<Observable>,
    alloc: Global,
    places: &BitPlaces<'_>,
    read: &ReadItem,
) -> Result<(), AllocError>
    requires { Contains places.now.reads read.now }
    ensures { OnOk result (observables.new.items ≡ observables.old.items
        ++ map (placed_observable places.now) (map (read_observable places.now) (read.now ∷ []))) }
{
    let places = read_places(alloc, places, read)?;
    observables.push(Observable {
        name: copy_of(&read.label),
        seam: false,
        slot: read.slot,
        places,
    })?;
    Ok(())
}

/// Adds the observables of a merge, if it stands in the line of this number.
fn push_merge_at(
    observables: &mut Vec<Observable>,
    alloc: Global,
    places: &BitPlaces<'_>,
    number: u32,
    merge: &MergeItem,
) -> Result<(), AllocError>
    requires { Contains places.now.merges merge.now }
    ensures { OnOk result (observables.new.items ≡ observables.old.items
        ++ of_merges places.now number (merge.now ∷ [])) }
{
    if merge.line != number {
        return Ok(());
    }
    push_merge(observables, alloc, places, merge)
}

/// Adds the observable of a reading, if it stands in the line of this number.
fn push_read_at(
    observables: &mut Vec<Observable>,
    alloc: Global,
    places: &BitPlaces<'_>,
    number: u32,
    read: &ReadItem,
) -> Result<(), AllocError>
    requires { Contains places.now.reads read.now }
    ensures { OnOk result (observables.new.items ≡ observables.old.items
        ++ of_reads places.now number (read.now ∷ [])) }
{
    if read.line != number {
        return Ok(());
    }
    push_read(observables, alloc, places, read)
}

/// Adds the observables of the line of this number.
fn push_line(
    observables: &mut Vec<Observable>,
    alloc: Global,
    places: &BitPlaces<'_>,
    number: u32,
) -> Result<(), AllocError>
    ensures { OnOk result (observables.new.items ≡ observables.old.items
        ++ observed_at places.now number) }
{
    let schedule = places.schedule();
    for merge in &schedule.merges {
        push_merge_at(observables, alloc, places, number, merge)?;
    }
    for read in &schedule.reads {
        push_read_at(observables, alloc, places, number, read)?;
    }
    Ok(())
}

/// A line, if it is from one on and before another, or else the other.
fn nearer(from: u32, until: u32, line: u32) -> u32
    ensures { result ≡ (if is_among from until line then line else until) }
{
    if from <= line && line < until {
        line
    } else {
        until
    }
}

/// The first line from one on that has observables, or else the line `rounds`.
fn next_line(schedule: &Schedule, from: u32) -> u32
    requires { from ≤ schedule.now.rounds_line }
    ensures low { from ≤ result }
    ensures high { result ≤ schedule.now.rounds_line }
    ensures between { flat_map (observed_at schedule.now) (range_with_len 0 result)
        ≡ flat_map (observed_at schedule.now) (range_with_len 0 from) }
{
    let mut next = schedule.rounds_line;
    for merge in &schedule.merges {
        next = nearer(from, next, merge.line);
    }
    for read in &schedule.reads {
        next = nearer(from, next, read.line);
    }
    next
}

/// All observables, in the order of their lines, a merge's own before its seam's.
pub fn observables(alloc: Global, places: &BitPlaces<'_>) -> Result<Vec<Observable>, AllocError>
    ensures { IfOk result (λ v. v.items ≡ map (placed_observable places.now)
        (observables places.now)) }
{
    let mut all = Vec::new(alloc);
    let schedule = places.schedule();
    let rounds = schedule.rounds_line;
    let mut line = next_line(schedule, 0);
    while line < rounds {
        push_line(&mut all, alloc, places, line)?;
        line = next_line(schedule, line + 1);
    }
    Ok(all)
}
