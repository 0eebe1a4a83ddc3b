//! The checks of a region, and their supports.
ghost use Rattle.std.specs.Prelude.{◌≡◌, ◌<◌, ◌≤◌, ◌+◌, ◌++◌, ◌==◌, ◌||◌, [], ◌∷◌, ℕ, true, map, filter, IfOk};
ghost use Rattle.surface_model.specs.Layout.{checks, covered_in, covers, has_qubit, is_check, kind, support};
ghost use Rattle.patch_layout.specs.Seen.{IsWellFormed, support_of};

use crate::types::{Corner, Qubit, Region, Support};
use std::alloc::{AllocError, Global};
use surface_model::Basis;

/// The basis of the check at the corner: z where row and column are both even or both odd, else x.
pub fn kind(corner: Corner) -> Basis
    ensures { result ≡ kind corner }
{
    if corner.row % 2 == corner.col % 2 {
        Basis::Z
    } else {
        Basis::X
    }
}

/// Whether the region has a check at the corner.
pub fn is_check(corner: Corner, region: Region) -> bool
    requires { IsWellFormed region }
    ensures { result ≡ is_check region corner }
{
    let bottom = region.row + region.height;
    let right = region.col + region.width;
    match kind(corner) {
        Basis::Z => {
            region.row < corner.row
                && corner.row < bottom
                && region.col <= corner.col
                && corner.col <= right
        }
        Basis::X => {
            region.row <= corner.row
                && corner.row <= bottom
                && region.col < corner.col
                && corner.col < right
        }
    }
}

/// Whether the corner covers the qubit: their rows and columns are the same, or the qubit's one
/// less.
pub fn covers(corner: Corner, qubit: Qubit) -> bool
    ensures { result ≡ covers corner qubit }
{
    is_at_or_before(qubit.row, corner.row) && is_at_or_before(qubit.col, corner.col)
}

fn is_at_or_before(number: u32, last: u32) -> bool
    ensures { result ≡ (number == last || number + 1 == last) }
{
    number == last || u64::from(number) + 1 == u64::from(last)
}

/// The corners of the region's checks, by row and then by column.
pub fn checks(alloc: Global, region: Region) -> Result<Vec<Corner>, AllocError>
    requires { IsWellFormed region }
    ensures { IfOk result (λ v. v.items ≡ checks region) }
{
    let (top, left) = (region.row, region.col);
    let (bottom, right) = (top + region.height, left + region.width);
    let mut corners = Vec::new(alloc);
    for row in top..bottom + 1 {
        for col in left..right + 1 {
            let corner = Corner { row, col };
            if is_check(corner, region) {
                corners.push(corner)?;
            }
        }
    }
    Ok(corners)
}

/// Whether the region has the qubit.
pub fn has_qubit(region: Region, qubit: Qubit) -> bool
    requires { IsWellFormed region }
    ensures { result ≡ has_qubit region qubit }
{
    region.row <= qubit.row
        && qubit.row < region.row + region.height
        && region.col <= qubit.col
        && qubit.col < region.col + region.width
}

/// The support with the qubit at its end, if the region has it.
fn with_qubit(support: Support, region: Region, qubit: Qubit) -> Support
    requires well_formed { IsWellFormed region }
    requires room { support.count < 4 }
    ensures count { result.count ≤ support.count + 1 }
    ensures list { support_of result ≡ support_of support ++ filter (has_qubit region)
        (qubit ∷ []) }
{
    let mut support = support;
    if has_qubit(region, qubit) {
        support.qubits[support.count as usize] = qubit;
        support.count += 1;
    }
    support
}

/// The support with the region's qubits of a row that a corner in this column covers.
fn with_row(support: Support, region: Region, row: u32, col: u32) -> Support
    requires well_formed { IsWellFormed region }
    requires room { support.count ≤ 2 }
    ensures count { result.count ≤ support.count + 2 }
    ensures list { support_of result ≡ support_of support ++ filter (has_qubit region)
        (covered_in row col) }
{
    let mut found = support;
    if col > 0 {
        found = with_qubit(found, region, Qubit { row, col: col - 1 });
    }
    with_qubit(found, region, Qubit { row, col })
}

/// The qubits of the region's check at the corner.
pub fn support(corner: Corner, region: Region) -> Support
    requires well_formed { IsWellFormed region }
    requires check { is_check region corner ≡ true }
    ensures count { result.count ≤ 4 }
    ensures list { support_of result ≡ support region corner }
{
    let mut found = Support {
        count: 0,
        qubits: [Qubit { row: 0, col: 0 }; 4],
    };
    if corner.row > 0 {
        found = with_row(found, region, corner.row - 1, corner.col);
    }
    with_row(found, region, corner.row, corner.col)
}
