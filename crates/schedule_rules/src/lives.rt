//! The lives of patches, and which items touch which.
ghost use Rattle.std.specs.Prelude.{◌≡◌, ◌==◌, ◌+◌, ◌&&◌, ◌||◌, ℕ, Bool, nat_le, nat_lt, find, option_map, slice_index_or};
ghost use Rattle.std.specs.List.{list_any};
ghost use Rattle.surface_model.specs.Schedules.{InitLine, ReadLine, PatchLine, MergeLine};
ghost use Rattle.surface_model.specs.Layout.{no_patch, split_slot};
ghost use Rattle.surface_model.specs.Rules.{has_repeats, in_life, init_of, read_of, same_tile, share_a_patch, share_a_slot};

use schedule_reader::{InitItem, MergeItem, PatchItem, ReadItem, Schedule};

/// The slot in which a patch is prepared.
pub(crate) fn init_of(schedule: &Schedule, patch: usize) -> Option<u32>
    ensures { result ≡ init_of schedule.now patch }
{
    first_init(&schedule.inits, patch)
}

fn first_init(inits: &[InitItem], patch: usize) -> Option<u32>
    ensures { result ≡ option_map (λ (line : InitLine). line.slot)
        (find (λ line. line.patch == patch) inits.now) }
{
    inits
        .iter()
        .find(|init| init.patch as usize == patch)
        .map(|init| init.slot)
}

/// The slot in which a patch is read.
pub(crate) fn read_of(schedule: &Schedule, patch: usize) -> Option<u32>
    ensures { result ≡ read_of schedule.now patch }
{
    first_read(&schedule.reads, patch)
}

fn first_read(reads: &[ReadItem], patch: usize) -> Option<u32>
    ensures { result ≡ option_map (λ (line : ReadLine). line.slot)
        (find (λ line. line.patch == patch) reads.now) }
{
    reads
        .iter()
        .find(|read| read.patch as usize == patch)
        .map(|read| read.slot)
}

/// Whether a read is past the preparation, where both stand.
pub(crate) fn is_after(init: Option<u32>, read: Option<u32>) -> bool
    ensures { result ≡ in_life nat_lt init read }
{
    match (init, read) {
        (Some(first), Some(last)) => first < last,
        _ => true,
    }
}

/// Whether a merge is strictly within a life, where it is whole.
pub(crate) fn holds_merge(init: Option<u32>, read: Option<u32>, merge: &MergeItem) -> bool
    ensures { result ≡ in_life (λ first last. nat_lt first merge.now.slot
        && nat_lt (split_slot merge.now) last) init read }
{
    match (init, read) {
        (Some(first), Some(last)) => { first < merge.slot && merge.split_slot() < u64::from(last) }
        _ => true,
    }
}

/// Whether a slot is within a life, where it is whole.
pub(crate) fn holds_slot(init: Option<u32>, read: Option<u32>, slot: u32) -> bool
    ensures { result ≡ in_life (λ first last. nat_le first slot && nat_le slot last) init read }
{
    match (init, read) {
        (Some(first), Some(last)) => first <= slot && slot <= last,
        _ => true,
    }
}

pub(crate) fn same_tile(one: &PatchItem, other: &PatchItem) -> bool
    ensures { result ≡ same_tile one.now other.now }
{
    one.tile_row == other.tile_row && one.tile_col == other.tile_col
}

/// A tile's place.
#[derive(Clone, Copy, Debug, PartialEq, Eq)]
pub(crate) struct Tile {
    pub(crate) row: u32,
    pub(crate) col: u32,
}

/// The tile of the patch of this number. A number that is none, which no schedule has, would be of
/// the first tile.
pub(crate) fn tile_of(patches: &[PatchItem], patch: u32) -> Tile
    ensures row { result.row ≡ (slice_index_or patches.now patch no_patch).row }
    ensures col { result.col ≡ (slice_index_or patches.now patch no_patch).column }
{
    let at = patch as usize;
    if at < patches.len() {
        let item = &patches[at];
        Tile {
            row: item.tile_row,
            col: item.tile_col,
        }
    } else {
        Tile { row: 0, col: 0 }
    }
}

/// Whether two tiles stand side by side or one above the other.
pub(crate) fn are_neighbours(one: Tile, other: Tile) -> bool
    ensures { result ≡ ((one.row == other.row && (one.col + 1 == other.col
        || other.col + 1 == one.col)) || (one.col == other.col && (one.row + 1 == other.row
        || other.row + 1 == one.row))) }
{
    (one.row == other.row && are_next(one.col, other.col))
        || (one.col == other.col && are_next(one.row, other.row))
}

fn are_next(one: u32, other: u32) -> bool
    ensures { result ≡ (one + 1 == other || other + 1 == one) }
{
    u64::from(one) + 1 == u64::from(other) || u64::from(other) + 1 == u64::from(one)
}

pub(crate) fn share_a_patch(one: &MergeItem, other: &MergeItem) -> bool
    ensures { result ≡ share_a_patch one.now other.now }
{
    one.one == other.one || one.one == other.two || one.two == other.one || one.two == other.two
}

/// Whether two merges have a slot in common, their splits too.
pub(crate) fn share_a_slot(one: &MergeItem, other: &MergeItem) -> bool
    ensures { result ≡ share_a_slot one.now other.now }
{
    u64::from(one.slot) <= other.split_slot() && u64::from(other.slot) <= one.split_slot()
}

/// Whether a number comes twice. The scan ends at the first repeat, so it takes few steps where the
/// numbers are few.
pub(crate) fn has_repeats(labels: &[u16]) -> bool
    ensures { result ≡ has_repeats labels.now }
{
    for at in 0..labels.len() {
        if has_label(&labels[..at], labels[at]) {
            return true;
        }
    }
    false
}

fn has_label(labels: &[u16], label: u16) -> bool
    ensures { result ≡ list_any (λ y. y == label) labels.now }
{
    labels.iter().any(|other| *other == label)
}
