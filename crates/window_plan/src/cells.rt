//! The cells that hold a detector, by rank, and for each detector the number of its cell.
ghost use Rattle.std.specs.Prelude.{◌≡◌, ◌<◌, ◌≤◌, ◌+◌, ◌-◌, ◌%◌, ◌^◌, ℕ, List, Contains, IfOk, Some, length, map, slice_get, slice_index};
ghost use Rattle.graph_model.specs.declared.Tag.{Tag as ModelTag};
ghost use Rattle.window_model.specs.Cells.{AreHomes, AreWindowCells, cell_of};
ghost use Rattle.window_plan.specs.Kinds.{order_of};
ghost use Rattle.window_plan.specs.Ranks.{AreRanks, AreRising, AreHomesByKey, cell_at, key_cell, key_of, tag_key};

use crate::PlanKind;
use detector_graph::Tag;
use std::alloc::{AllocError, Global};

/// What a cell is ranked by, the first field first: the parity of its block and the colour of its
/// tile, which not all kinds of plans look at, and then the cell by block, row and column.
#[derive(Clone, Copy, PartialEq, Eq, PartialOrd, Ord)]
struct RankKey {
    parity: u32,
    colour: u32,
    block: u32,
    row: u32,
    col: u32,
}

/// The cell of a detector: its slot is the block's number.
fn cell_of_tag(commit: u32, tag: &Tag) -> Tag
    requires { 0 < commit }
    ensures { cell_at result ≡ cell_of commit tag.now }
{
    Tag {
        slot: tag.slot / commit,
        tile_row: tag.tile_row,
        tile_col: tag.tile_col,
    }
}

/// The key of a cell. Kinds of plans differ in nothing else.
fn rank_key(kind: PlanKind, cell: &Tag) -> RankKey
    ensures { result ≡ key_of (order_of kind) (cell_at cell.now) }
{
    match kind {
        PlanKind::Sliding => RankKey {
            parity: 0,
            colour: 0,
            block: cell.slot,
            row: cell.tile_row,
            col: cell.tile_col,
        },
        PlanKind::Parallel => RankKey {
            parity: cell.slot % 2,
            colour: colour_of(cell),
            block: cell.slot,
            row: cell.tile_row,
            col: cell.tile_col,
        },
    }
}

/// The colour of a cell's tile: 0 where row and column have an even sum, and else 1.
fn colour_of(cell: &Tag) -> u32
    ensures { result ≡ (cell.now.tile_row + cell.now.tile_col) % 2 }
{
    (cell.tile_row % 2 + cell.tile_col % 2) % 2
}

/// The keys of the detectors' cells.
fn keys_of(
    alloc: Global,
    tags: &[Tag],
    kind: PlanKind,
    commit: u32,
) -> Result<Vec<RankKey>, AllocError>
    requires { 0 < commit }
    ensures { IfOk result (λ v. v.items ≡ map (tag_key (order_of kind) commit) tags.now) }
{
    let mut keys = Vec::with_capacity(alloc, tags.len())?;
    for tag in tags {
        keys.push(rank_key(kind, &cell_of_tag(commit, tag)))?;
    }
    Ok(keys)
}

/// The keys, each once and by rank.
fn ranks_of(
    alloc: Global,
    tags: &[Tag],
    kind: PlanKind,
    commit: u32,
) -> Result<Vec<RankKey>, AllocError>
    requires { 0 < commit }
    ensures ranks { IfOk result (λ v. AreRanks (order_of kind) commit tags.now v.items) }
    ensures fewer { IfOk result (λ v. length v.items ≤ length tags.now) }
{
    let mut keys = keys_of(alloc, tags, kind, commit)?;
    // detectors side by side are mostly of one cell, so that few keys are left to sort
    keys.dedup();
    keys.sort_unstable();
    keys.dedup();
    Ok(keys)
}

/// The place of a key: a binary search.
fn place_of(ranks: &[RankKey], key: &RankKey) -> usize
    requires rising { AreRising ranks.now }
    requires member { Contains ranks.now key.now }
    ensures { slice_get ranks.now result ≡ Some key.now }
{
    match ranks.binary_search(key) {
        Ok(place) => place,
        Err(_) => unreachable!(),
    }
}

/// The place of a key, which is looked for at the place of the one before first.
fn place_near(ranks: &[RankKey], near: usize, key: &RankKey) -> usize
    requires rising { AreRising ranks.now }
    requires member { Contains ranks.now key.now }
    requires near { near ≤ length ranks.now - 1 }
    ensures found { slice_get ranks.now result ≡ Some key.now }
    ensures within { result < length ranks.now }
{
    if ranks[near] == *key {
        return near;
    }
    place_of(ranks, key)
}

/// For each detector the number of its cell.
fn homes_of(
    alloc: Global,
    tags: &[Tag],
    kind: PlanKind,
    commit: u32,
    ranks: &[RankKey],
) -> Result<Vec<u32>, AllocError>
    requires positive { 0 < commit }
    requires ranks { AreRanks (order_of kind) commit tags.now ranks.now }
    requires few { length ranks.now < 2 ^ 32 }
    ensures { IfOk result (λ v. AreHomesByKey (order_of kind) commit tags.now ranks.now v.items) }
{
    let mut homes = Vec::with_capacity(alloc, tags.len())?;
    let mut place = 0;
    for tag in tags {
        let key = rank_key(kind, &cell_of_tag(commit, tag));
        place = place_near(ranks, place, &key);
        homes.push(place as u32)?;
    }
    Ok(homes)
}

/// The cells that the keys name.
fn cells_of(alloc: Global, ranks: &[RankKey]) -> Result<Vec<Tag>, AllocError>
    ensures { IfOk result (λ v. map cell_at v.items ≡ map key_cell ranks.now) }
{
    let mut cells = Vec::with_capacity(alloc, ranks.len())?;
    for rank in ranks {
        cells.push(Tag {
            slot: rank.block,
            tile_row: rank.row,
            tile_col: rank.col,
        })?;
    }
    Ok(cells)
}

/// The cells by rank, and for each detector the number of its cell.
#[derive(Drop)]
pub(crate) struct Homes {
    pub(crate) cells: Vec<Tag>,
    pub(crate) homes: Vec<u32>,
}

/// The cells that hold a detector, and the detectors' homes.
pub(crate) fn find_homes(
    alloc: Global,
    tags: &[Tag],
    kind: PlanKind,
    commit: u32,
) -> Result<Homes, AllocError>
    requires positive { 0 < commit }
    requires few { length tags.now < 2 ^ 32 }
    ensures cells { IfOk result (λ h. AreWindowCells (order_of kind) commit tags.now
        (map cell_at h.cells.items)) }
    ensures homes { IfOk result
        (λ h. AreHomes commit tags.now (map cell_at h.cells.items) h.homes.items) }
    ensures few { IfOk result (λ h. length h.cells.items < 2 ^ 32) }
{
    let ranks = ranks_of(alloc, tags, kind, commit)?;
    let cells = cells_of(alloc, &ranks)?;
    let homes = homes_of(alloc, tags, kind, commit, &ranks)?;
    Ok(Homes { cells, homes })
}
