//! Bits in the order in which they stand in a slot.
ghost use Rattle.std.specs.Prelude.{◌≡◌, ◌^◌, ◌||◌, ◌<◌, ◌≤◌, Bool, true, false, List, [], ◌∷◌, ◌++◌, map, position, nat_lt, ◌==◌, ◌&&◌, length, option_map, slice_index_or, IfOk};
ghost use Rattle.surface_model.specs.Measurements as measurements;
ghost use Rattle.slot_bits.specs.Order.{IsRising, rank_of, comes_before, has_bit};
ghost use Rattle.slot_bits.specs.Seen.{bit_of, bits_of};

use crate::bits::Bit;
use patch_layout::{Corner, Qubit};
use std::alloc::{AllocError, Global};

fn is_before(row: u32, col: u32, other_row: u32, other_col: u32) -> bool
    ensures { result ≡ (nat_lt row other_row || (row == other_row && nat_lt col other_col)) }
{
    row < other_row || (row == other_row && col < other_col)
}

/// Whether a bit stands before another: readouts before outcomes, each by row and then by column.
fn comes_before(one: Bit, other: Bit) -> bool
    ensures { result ≡ comes_before (bit_of one) (bit_of other) }
{
    match one {
        Bit::Readout(qubit) => is_readout_before(qubit, other),
        Bit::Outcome(corner) => is_outcome_before(corner, other),
    }
}

fn is_readout_before(qubit: Qubit, other: Bit) -> bool
    ensures { result ≡ comes_before (measurements.Readout qubit) (bit_of other) }
{
    match other {
        Bit::Readout(next) => is_before(qubit.row, qubit.col, next.row, next.col),
        Bit::Outcome(_) => true,
    }
}

fn is_outcome_before(corner: Corner, other: Bit) -> bool
    ensures { result ≡ comes_before (measurements.Outcome corner) (bit_of other) }
{
    match other {
        Bit::Readout(_) => false,
        Bit::Outcome(next) => is_before(corner.row, corner.col, next.row, next.col),
    }
}

/// The bits of either list, in order.
pub fn union(alloc: Global, one: &[Bit], two: &[Bit]) -> Result<Vec<Bit>, AllocError>
    requires one { IsRising (bits_of one.now) }
    requires two { IsRising (bits_of two.now) }
    ensures rising { IfOk result (λ v. IsRising (bits_of v.items)) }
    ensures members { IfOk result (λ v. (b : measurements.Bit) →
        has_bit (bits_of v.items) b ≡ has_bit (bits_of one.now) b || has_bit (bits_of two.now) b) }
{
    let mut bits = Vec::with_capacity(alloc, one.len() + two.len())?;
    let mut first = 0;
    let mut second = 0;
    while first < one.len() && second < two.len() {
        let bit = &one[first];
        let other = &two[second];
        if comes_before(*bit, *other) {
            bits.push(*bit)?;
            first += 1;
        } else if comes_before(*other, *bit) {
            bits.push(*other)?;
            second += 1;
        } else {
            bits.push(*bit)?;
            first += 1;
            second += 1;
        }
    }
    bits.extend_from_slice(&one[first..])?;
    bits.extend_from_slice(&two[second..])?;
    Ok(bits)
}

/// The place of a bit among bits in order.
pub fn place_of(bits: &[Bit], bit: &Bit) -> Option<u32>
    requires rising { IsRising (bits_of bits.now) }
    requires few { length bits.now < 2 ^ 32 }
    ensures { result ≡ position (measurements.same_bit (bit_of bit.now)) (bits_of bits.now) }
{
    let low = count_before(bits, bit);
    if low == bits.len() {
        return None;
    }
    if comes_before(*bit, bits[low]) {
        return None;
    }
    Some(low as u32)
}

/// How many of some bits in order come before this one.
fn count_before(bits: &[Bit], bit: &Bit) -> usize
    requires rising { IsRising (bits_of bits.now) }
    ensures bound { result ≤ length bits.now }
    ensures count { result ≡ rank_of (bits_of bits.now) (bit_of bit.now) }
{
    let mut low = 0;
    let mut high = bits.len();
    while low < high {
        let middle = low + (high - low) / 2;
        if comes_before(bits[middle], *bit) {
            low = middle + 1;
        } else {
            high = middle;
        }
    }
    low
}
