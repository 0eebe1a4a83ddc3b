//! Bits, and the observables that they make.
use patch_layout::{Corner, Qubit};
use schedule_reader::Name;
use std::marker::Model;

/// A bit of a slot: a qubit that is read, or the outcome of the check at a corner.
#[derive(Clone, Copy)]
pub enum Bit {
    Readout(Qubit),
    Outcome(Corner),
}

/// A parity of bits that is a logical result.
#[derive(Drop)]
pub struct Observable {
    /// The label of its line.
    pub name: Name,
    /// Whether it is that of a merge's seam.
    pub seam: bool,
    /// The slot of its bits.
    pub slot: u32,
    /// The places of its bits among that slot's.
    pub places: Vec<u32>,
}

impl Model for Observable {
    ghost use Rattle.slot_bits.specs.Observed.{PlacedObservable};

    ghost Value = { PlacedObservable };

    ghost view = { λ o. record {
      name = o.name;
      seam = o.seam;
      slot = o.slot;
      places = o.places.items;
    } };
}
