//! The bits of a slot.
ghost use Rattle.std.specs.Prelude.{◌≡◌, ◌≤◌, ◌<◌, ◌+◌, ◌||◌, All, Bool, length, IfOk};
ghost use Rattle.std.specs.List.{list_any};
ghost use Rattle.surface_model.specs.Layout.{region_of_patch};
ghost use Rattle.surface_model.specs.Measurements as measurements;
ghost use Rattle.surface_model.specs.Measurements.{bits_of_slot};
ghost use Rattle.surface_model.specs.Accepted.{IsAccepted, IsInRange};
ghost use Rattle.patch_layout.specs.Seen.{IsWellFormed};
ghost use Rattle.patch_layout.specs.Items.{merge_line, read_line};
ghost use Rattle.patch_layout.specs.Regions.{seam_region};
ghost use Rattle.timetable.specs.Times.{times_of};
ghost use Rattle.slot_bits.specs.Order.{IsRising, has_bit, is_outcome_in, is_readout_in};
ghost use Rattle.slot_bits.specs.Seen.{bits_of};

use patch_layout::{Region, merge_line, patch_region, read_line, seam_region};
use schedule_reader::Schedule;
use slot_bits::{Bit, with_outcomes, with_readouts};
use std::alloc::{AllocError, Global};
use timetable::Timetable;

/// The readouts of the patches that some lines read.
fn read_qubits(alloc: Global, schedule: &Schedule, reads: &[u32]) -> Result<Vec<Bit>, AllocError>
    requires ranges { IsInRange schedule.now }
    requires known { All (λ n. n < length schedule.now.reads) reads.now }
    ensures rising { IfOk result (λ v. IsRising (bits_of v.items)) }
    ensures members { IfOk result (λ v. (b : measurements.Bit) →
        has_bit (bits_of v.items) b
        ≡ list_any (λ n. is_readout_in
        (region_of_patch schedule.now (read_line schedule.now n).patch) b) reads.now) }
{
    let mut bits = Vec::new(alloc);
    for number in reads {
        let region = patch_region(schedule, read_line(schedule, *number).patch);
        bits = with_readouts(alloc, &bits, region)?;
    }
    Ok(bits)
}

/// The bits with the readouts of the seams of some merges.
fn with_seams(
    alloc: Global,
    schedule: &Schedule,
    splits: &[u32],
    bits: Vec<Bit>,
) -> Result<Vec<Bit>, AllocError>
    requires ranges { IsInRange schedule.now }
    requires known { All (λ n. n < length schedule.now.merges) splits.now }
    requires rising { IsRising (bits_of bits.items) }
    ensures rising { IfOk result (λ v. IsRising (bits_of v.items)) }
    ensures members { IfOk result (λ v. (b : measurements.Bit) →
        has_bit (bits_of v.items) b ≡ has_bit (bits_of bits.items) b
        || list_any (λ n. is_readout_in (seam_region schedule.now (merge_line schedule.now n)) b)
        splits.now) }
{
    let mut bits = bits;
    for number in splits {
        let region = seam_region(schedule, merge_line(schedule, *number));
        bits = with_readouts(alloc, &bits, region)?;
    }
    Ok(bits)
}

/// The bits with the outcomes of some regions.
fn with_regions(alloc: Global, regions: &[Region], bits: Vec<Bit>) -> Result<Vec<Bit>, AllocError>
    requires well_formed { All IsWellFormed regions.now }
    requires rising { IsRising (bits_of bits.items) }
    ensures rising { IfOk result (λ v. IsRising (bits_of v.items)) }
    ensures members { IfOk result (λ v. (b : measurements.Bit) →
        has_bit (bits_of v.items) b ≡ has_bit (bits_of bits.items) b
        || list_any (λ r. is_outcome_in r b) regions.now) }
{
    let mut bits = bits;
    for region in regions {
        bits = with_outcomes(alloc, &bits, *region)?;
    }
    Ok(bits)
}

/// The bits of a slot: the qubits that are read, and then the checks, each by row and then by
/// column.
pub(crate) fn bits_of_slot(
    alloc: Global,
    schedule: &Schedule,
    times: &Timetable,
    slot: u32,
) -> Result<Vec<Bit>, AllocError>
    requires accepted { IsAccepted schedule.now }
    requires times { times.now ≡ times_of schedule.now }
    requires slot { slot < length times.now.inits }
    ensures { IfOk result (λ v. bits_of v.items ≡ bits_of_slot schedule.now slot) }
{
    let read = read_qubits(alloc, schedule, times.reads(slot))?;
    let bits = with_seams(alloc, schedule, times.splits(slot), read)?;
    let regions = times.regions(alloc, schedule, slot)?;
    let bits = with_regions(alloc, &regions, bits)?;
    Ok(bits)
}
