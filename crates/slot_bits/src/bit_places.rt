//! The places of bits among those of their slots.
ghost use Rattle.std.specs.Prelude.{◌≡◌, ◌≤◌, ◌<◌, ◌+◌, ◌^◌, length, map, IfOk};
ghost use Rattle.std.specs.List.{range_with_len};
ghost use Rattle.surface_model.specs.Layout.{last_slot};
ghost use Rattle.surface_model.specs.Measurements.{bits_of_slot};
ghost use Rattle.surface_model.specs.Accepted.{IsAccepted, IsInRange};
ghost use Rattle.slot_bits.specs.Order.{IsRising};
ghost use Rattle.slot_bits.specs.Watched.{place_in};
ghost use Rattle.slot_bits.specs.Seen.{bits_of};

use crate::bits::Bit;
use crate::order::place_of;
use crate::table::SlotBits;
use schedule_reader::Schedule;
use std::alloc::{AllocError, Global};
use std::marker::Model;

/// An accepted schedule, with the bits of its slots.
#[derive(Drop)]
pub struct BitPlaces<'a> {
    schedule: &'a Schedule,
    bits: &'a SlotBits,
}

impl<'a> Model for BitPlaces<'a> {
    ghost use Rattle.surface_model.specs.Schedules.{Schedule as Whole};
    ghost use Rattle.slot_bits.specs.Seen.{AreBits};

    ghost Value = { Whole };

    ghost view = { λ p. p.schedule.now };

    ghost invariant = { λ p. AreBits p.schedule.now p.bits.now };
}

impl<'a> BitPlaces<'a> {
    pub fn new(schedule: &'a Schedule, bits: &'a SlotBits) -> BitPlaces<'a>
        requires accepted { IsAccepted schedule.now }
        requires bits { bits.now
            ≡ map (bits_of_slot schedule.now) (range_with_len 0 (last_slot schedule.now + 1)) }
        ensures { result ≡ schedule.now }
    {
        BitPlaces { schedule, bits }
    }

    /// The schedule is accepted.
    pub(crate) fn is_accepted(&self)
        ensures { IsAccepted self.now }
    {
        let _ = &self.schedule;
    }

    /// The schedule.
    pub(crate) fn schedule(&self) -> &Schedule
        ensures schedule { result.now ≡ self.now }
        ensures ranges { IsInRange result.now }
    {
        self.schedule
    }

    /// The places of some of a slot's bits.
    pub(crate) fn among(
        &self,
        alloc: Global,
        slot: u32,
        bits: &[Bit],
    ) -> Result<Vec<u32>, AllocError>
        requires { slot ≤ last_slot self.now }
        ensures { IfOk result (λ v. v.items ≡ map (place_in (bits_of_slot self.now slot))
            (bits_of bits.now)) }
    {
        places_among(alloc, self.bits.of_slot(slot), bits)
    }
}

/// The places of some bits among all of a slot.
fn places_among(alloc: Global, all: &[Bit], bits: &[Bit]) -> Result<Vec<u32>, AllocError>
    requires rising { IsRising (bits_of all.now) }
    requires few { length all.now < 2 ^ 32 }
    ensures { IfOk result (λ v. v.items ≡ map (place_in (bits_of all.now)) (bits_of bits.now)) }
{
    let mut places = Vec::with_capacity(alloc, bits.len())?;
    for bit in bits {
        places.push(place_of(all, bit).unwrap_or(0))?;
    }
    Ok(places)
}
