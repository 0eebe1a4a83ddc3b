//! The bits of one region.
ghost use Rattle.std.specs.Prelude.{◌≡◌, ◌≤◌, ◌+◌, ◌||◌, map, IfOk};
ghost use Rattle.surface_model.specs.Layout.{area, checks};
ghost use Rattle.surface_model.specs.Measurements as measurements;
ghost use Rattle.patch_layout.specs.Seen.{IsWellFormed, most_coordinate};
ghost use Rattle.slot_bits.specs.Order.{IsRising, has_bit, is_outcome_in, is_readout_in};
ghost use Rattle.slot_bits.specs.Seen.{bits_of};

use crate::bits::Bit;
use crate::order::union;
use patch_layout::{Qubit, Region, checks};
use std::alloc::{AllocError, Global};

/// The outcomes of a region's checks, by row and then by column.
pub(crate) fn outcomes(alloc: Global, region: Region) -> Result<Vec<Bit>, AllocError>
    requires { IsWellFormed region }
    ensures list { IfOk result (λ v. bits_of v.items ≡ map measurements.Outcome (checks region)) }
    ensures rising { IfOk result (λ v. IsRising (bits_of v.items)) }
{
    let corners = checks(alloc, region)?;
    let mut bits = Vec::with_capacity(alloc, corners.len())?;
    for corner in &corners {
        bits.push(Bit::Outcome(*corner))?;
    }
    Ok(bits)
}

/// The readouts of a rectangle's qubits, by row and then by column.
pub(crate) fn readouts(alloc: Global, region: Region) -> Result<Vec<Bit>, AllocError>
    requires rows { region.row + region.height ≤ most_coordinate }
    requires columns { region.column + region.width ≤ most_coordinate }
    ensures list { IfOk result (λ v. bits_of v.items
        ≡ map measurements.Readout (area region.row region.column region.height region.width)) }
    ensures rising { IfOk result (λ v. IsRising (bits_of v.items)) }
{
    let (top, left) = (region.row, region.col);
    let (bottom, right) = (top + region.height, left + region.width);
    let mut bits = Vec::new(alloc);
    for row in top..bottom {
        for col in left..right {
            bits.push(Bit::Readout(Qubit { row, col }))?;
        }
    }
    Ok(bits)
}

/// The bits with the readouts of a rectangle's qubits.
pub fn with_readouts(alloc: Global, bits: &[Bit], region: Region) -> Result<Vec<Bit>, AllocError>
    requires rising { IsRising (bits_of bits.now) }
    requires rows { region.row + region.height ≤ most_coordinate }
    requires columns { region.column + region.width ≤ most_coordinate }
    ensures rising { IfOk result (λ v. IsRising (bits_of v.items)) }
    ensures members { IfOk result (λ v. (b : measurements.Bit) →
        has_bit (bits_of v.items) b ≡ has_bit (bits_of bits.now) b || is_readout_in region b) }
{
    let piece = readouts(alloc, region)?;
    union(alloc, bits, &piece)
}

/// The bits with the outcomes of a region's checks.
pub fn with_outcomes(alloc: Global, bits: &[Bit], region: Region) -> Result<Vec<Bit>, AllocError>
    requires rising { IsRising (bits_of bits.now) }
    requires well_formed { IsWellFormed region }
    ensures rising { IfOk result (λ v. IsRising (bits_of v.items)) }
    ensures members { IfOk result (λ v. (b : measurements.Bit) →
        has_bit (bits_of v.items) b ≡ has_bit (bits_of bits.now) b || is_outcome_in region b) }
{
    let piece = outcomes(alloc, region)?;
    union(alloc, bits, &piece)
}
