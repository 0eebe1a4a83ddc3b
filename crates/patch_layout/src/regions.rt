//! The regions of a schedule.
ghost use Rattle.std.specs.Prelude.{◌≡◌, ◌≤◌, ◌<◌, ◌+◌, ◌*◌, ◌%◌, ◌==◌, Bool, List, length, slice_index_or};
ghost use Rattle.surface_model.specs.Layout.{is_beside, merged_region, no_patch, patch_at, region_of_patch};
ghost use Rattle.surface_model.specs.Accepted.{IsInRange};
ghost use Rattle.patch_layout.specs.Seen.{IsWellFormed, most_coordinate};
ghost use Rattle.patch_layout.specs.Regions.{seam_basis, seam_region};

use crate::types::Region;
use schedule_reader::{MergeItem, Schedule};
use surface_model::Basis;

/// The square of a patch on the tile of this row and column.
#[tactic(auto, using(crate::proofs::WellFormed::square_well_formed))]
fn tile_square(distance: u32, row: u32, col: u32) -> Region
    requires odd { distance % 2 ≡ 1 }
    requires least { 3 ≤ distance }
    requires greatest { distance ≤ 11 }
    requires row { row ≤ 15 }
    requires column { col ≤ 15 }
    ensures region { result ≡ record {
      row = row * (distance + 1);
      column = col * (distance + 1);
      height = distance;
      width = distance;
    } }
    ensures well_formed { IsWellFormed result }
{
    Region {
        row: row * (distance + 1),
        col: col * (distance + 1),
        height: distance,
        width: distance,
    }
}

/// The region of a patch.
pub fn patch_region(schedule: &Schedule, patch: u32) -> Region
    requires ranges { IsInRange schedule.now }
    requires patch { patch < length schedule.now.patches }
    ensures region { result ≡ region_of_patch schedule.now patch }
    ensures well_formed { IsWellFormed result }
{
    let item = &schedule.patches[patch as usize];
    tile_square(schedule.distance, item.tile_row, item.tile_col)
}

/// Whether a merge is of patches side by side, and not one above the other.
pub fn is_beside(schedule: &Schedule, merge: &MergeItem) -> bool
    requires one { merge.now.one < length schedule.now.patches }
    requires two { merge.now.two < length schedule.now.patches }
    ensures { result ≡ is_beside schedule.now merge.now }
{
    let one = &schedule.patches[merge.one as usize];
    let two = &schedule.patches[merge.two as usize];
    one.tile_row == two.tile_row
}

/// The region of a merge: both patches and the seam between them.
pub fn merged_region(schedule: &Schedule, merge: &MergeItem) -> Region
    requires ranges { IsInRange schedule.now }
    requires one { merge.now.one < length schedule.now.patches }
    requires two { merge.now.two < length schedule.now.patches }
    ensures region { result ≡ merged_region schedule.now merge.now }
    ensures well_formed { IsWellFormed result }
{
    let one = patch_region(schedule, merge.one);
    let two = patch_region(schedule, merge.two);
    let (row, col) = (one.row.min(two.row), one.col.min(two.col));
    let distance = schedule.distance;
    if is_beside(schedule, merge) {
        Region {
            row,
            col,
            height: distance,
            width: 2 * distance + 1,
        }
    } else {
        Region {
            row,
            col,
            height: 2 * distance + 1,
            width: distance,
        }
    }
}

/// The qubits of a merge's seam.
pub fn seam_region(schedule: &Schedule, merge: &MergeItem) -> Region
    requires ranges { IsInRange schedule.now }
    requires one { merge.now.one < length schedule.now.patches }
    requires two { merge.now.two < length schedule.now.patches }
    ensures region { result ≡ seam_region schedule.now merge.now }
    ensures rows { result.row + result.height ≤ most_coordinate }
    ensures columns { result.column + result.width ≤ most_coordinate }
{
    let merged = merged_region(schedule, merge);
    let distance = schedule.distance;
    if is_beside(schedule, merge) {
        Region {
            row: merged.row,
            col: merged.col + distance,
            height: distance,
            width: 1,
        }
    } else {
        Region {
            row: merged.row + distance,
            col: merged.col,
            height: 1,
            width: distance,
        }
    }
}

/// The basis in which the qubits of a merge's seam are read.
pub fn seam_basis(schedule: &Schedule, merge: &MergeItem) -> Basis
    requires one { merge.now.one < length schedule.now.patches }
    requires two { merge.now.two < length schedule.now.patches }
    ensures { result ≡ seam_basis schedule.now merge.now }
{
    if is_beside(schedule, merge) {
        Basis::Z
    } else {
        Basis::X
    }
}
