//! The regions that are active in a slot.
ghost use Rattle.std.specs.Prelude.{◌≡◌, ◌<◌, ◌++◌, ◌∷◌, [], ◌==◌, ◌||◌, All, filter, length, map, not, IfOk, OnOk};
ghost use Rattle.std.specs.List.{list_any};
ghost use Rattle.surface_model.specs.Layout.{merged_region, region_of_patch};
ghost use Rattle.surface_model.specs.Accepted.{IsInRange};
ghost use Rattle.patch_layout.specs.Seen.{IsWellFormed};
ghost use Rattle.patch_layout.specs.Items.{init_line, merge_line};
ghost use Rattle.timetable.specs.Items.{is_apart, patches_of, regions_of};

use patch_layout::{Region, init_line, merge_line, merged_region, patch_region};
use schedule_reader::{MergeItem, Schedule};
use std::alloc::{AllocError, Global};

/// Whether a merge joins a patch with another.
fn joins(merge: &MergeItem, patch: u32) -> bool
    ensures { result ≡ (merge.now.one == patch || merge.now.two == patch) }
{
    merge.one == patch || merge.two == patch
}

/// Whether none of some merges joins a patch.
fn is_apart(schedule: &Schedule, merges: &[u32], patch: u32) -> bool
    requires { All (λ n. n < length schedule.now.merges) merges.now }
    ensures { result ≡ is_apart schedule.now merges.now patch }
{
    for number in merges {
        if joins(merge_line(schedule, *number), patch) {
            return false;
        }
    }
    true
}

/// Adds the region of a patch, by its preparation, if none of some merges joins it.
fn push_patch(
    regions: &mut Vec<Region>,
    schedule: &Schedule,
    merges: &[u32],
    number: u32,
) -> Result<(), AllocError>
    requires ranges { IsInRange schedule.now }
    requires known { number < length schedule.now.inits }
    requires merges { All (λ n. n < length schedule.now.merges) merges.now }
    requires well_formed { All IsWellFormed regions.old.items }
    ensures regions { OnOk result (regions.new.items
        ≡ regions.old.items ++ patches_of schedule.now (number ∷ []) merges.now) }
    ensures well_formed { OnOk result (All IsWellFormed regions.new.items) }
{
    let patch = init_line(schedule, number).patch;
    if is_apart(schedule, merges, patch) {
        regions.push(patch_region(schedule, patch))?;
    }
    Ok(())
}

/// Adds the region of a merge.
fn push_merge(regions: &mut Vec<Region>, schedule: &Schedule, number: u32) -> Result<(), AllocError>
    requires ranges { IsInRange schedule.now }
    requires known { number < length schedule.now.merges }
    requires well_formed { All IsWellFormed regions.old.items }
    ensures regions { OnOk result (regions.new.items
        ≡ regions.old.items ++ map (λ n. merged_region schedule.now (merge_line schedule.now n))
        (number ∷ [])) }
    ensures well_formed { OnOk result (All IsWellFormed regions.new.items) }
{
    regions.push(merged_region(schedule, merge_line(schedule, number)))?;
    Ok(())
}

/// The regions of some patches, by their preparations, without those that some merges join, and
/// then of the merges.
pub fn regions_of(
    alloc: Global,
    schedule: &Schedule,
    inits: &[u32],
    merges: &[u32],
) -> Result<Vec<Region>, AllocError>
    requires ranges { IsInRange schedule.now }
    requires inits { All (λ n. n < length schedule.now.inits) inits.now }
    requires merges { All (λ n. n < length schedule.now.merges) merges.now }
    ensures regions { IfOk result (λ v. v.items ≡ regions_of schedule.now inits.now merges.now) }
    ensures well_formed { IfOk result (λ v. All IsWellFormed v.items) }
{
    let mut regions = Vec::with_capacity(alloc, inits.len())?;
    for number in inits {
        push_patch(&mut regions, schedule, merges, *number)?;
    }
    for number in merges {
        push_merge(&mut regions, schedule, *number)?;
    }
    Ok(regions)
}
