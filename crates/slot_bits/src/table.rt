//! The bits of all slots.
ghost use Rattle.std.specs.Prelude.{◌≡◌, ◌<◌, ◌≤◌, ◌++◌, ◌∷◌, ◌-◌, List, [], OnOk, Some, length, slice_get, slice_index_or};
ghost use Rattle.surface_model.specs.Limits.{most_slots};
ghost use Rattle.slot_bits.specs.Seen.{bits_of};

use crate::bits::Bit;
use std::alloc::{AllocError, Global};
use std::marker::Model;

/// The bits of each slot, for at most 4,096 slots from 0 on. Slots with the same bits may share a
/// list.
pub struct SlotBits {
    lists: Vec<Vec<Bit>>,
    /// For each slot the number of its list.
    numbers: Vec<u32>,
}

impl Drop for SlotBits {
    fn drop(self) {
        let SlotBits {
            lists: _,
            numbers: _,
        } = self;
    }
}

impl Model for SlotBits {
    ghost use Rattle.std.specs.Prelude.{List, map};
    ghost use Rattle.surface_model.specs.Measurements.{Bit as Written};
    ghost use Rattle.slot_bits.specs.Seen.{bits_of};
    ghost use Rattle.slot_bits.specs.Shared.{IsShared, lists_in};

    ghost Value = { List (List Written) };

    ghost view = { λ t. lists_in (map (λ list. bits_of list.items) t.lists.items) t.numbers.items };

    ghost invariant = { λ t. IsShared
        (map (λ list. bits_of list.items) t.lists.items)
        t.numbers.items };
}

impl SlotBits {
    /// The bits of no slot.
    pub fn new(alloc: Global) -> SlotBits
        ensures { result ≡ [] }
    {
        SlotBits {
            lists: Vec::new(alloc),
            numbers: Vec::new(alloc),
        }
    }

    /// Adds a slot with these bits.
    pub fn push(&mut self, bits: Vec<Bit>) -> Result<(), AllocError>
        requires { length self.old < most_slots }
        ensures { OnOk result (self.new ≡ self.old ++ bits_of bits.items ∷ []) }
    {
        let number = self.lists.len() as u32;
        self.numbers.reserve(1)?;
        self.lists.push(bits)?;
        self.numbers.push_reserved(number);
        Ok(())
    }

    /// Adds a slot with the bits of the last.
    pub fn push_same(&mut self) -> Result<(), AllocError>
        requires some { 0 < length self.old }
        requires few { length self.old < most_slots }
        ensures { OnOk result (self.new ≡ self.old ++ slice_index_or self.old
            (length self.old - 1) [] ∷ []) }
    {
        let last = self.numbers[self.numbers.len() - 1];
        self.numbers.push(last)?;
        Ok(())
    }

    /// How many slots there are.
    pub fn slots(&self) -> u32
        ensures { result ≡ length self.now }
    {
        self.numbers.len() as u32
    }

    /// The bits of a slot.
    pub fn of_slot(&self, slot: u32) -> &[Bit]
        requires { slot < length self.now }
        ensures { slice_get self.now slot ≡ Some (bits_of result.now) }
    {
        let number = self.numbers[slot as usize];
        self.lists[number as usize].as_slice()
    }
}
