//! Detectors, and why a schedule has no map.
ghost use Rattle.std.specs.Prelude.{◌≡◌, IfOk};
ghost use Rattle.measure_map.specs.declared.types.MapError.TheVariants.{Memory};

use graph_model::Tag;
use slot_bits::Corner;
use std::alloc::{AllocError, Global};
use std::marker::Model;

/// A detector whose bits were found one by one.
#[derive(Drop)]
pub(crate) struct FoundDetector {
    pub(crate) tag: Tag,
    pub(crate) corner: Corner,
    /// Each by its slot and its place among that slot's.
    pub(crate) bits: Vec<(u32, u32)>,
}

/// What a detector is made of.
#[derive(Drop)]
pub(crate) enum DetectorKind {
    /// Of the outcome at this place of its slot and the one at the same place of the slot before.
    /// Nearly all detectors are such, and they take no memory of their own.
    Lasting {
        tag: Tag,
        corner: Corner,
        place: u32,
    },
    Found(Box<FoundDetector>),
}

/// A parity of bits that is even without errors.
#[derive(Drop)]
pub struct Detector {
    pub(crate) kind: DetectorKind,
}

impl Model for Detector {
    ghost use Rattle.measure_map.specs.Bits.{detector_in};
    ghost use Rattle.measure_map.specs.Placed.{PlacedDetector};

    ghost Value = { PlacedDetector };

    ghost view = { λ d. detector_in d.kind };
}

impl Detector {
    /// Its slot, and the tile of its corner.
    pub fn tag(&self) -> Tag
        ensures { result ≡ self.now.tag }
    {
        match &self.kind {
            DetectorKind::Lasting {
                tag,
                corner: _,
                place: _,
            } => *tag,
            DetectorKind::Found(found) => found.tag,
        }
    }

    /// The corner of its check.
    pub fn corner(&self) -> Corner
        ensures { result ≡ self.now.corner }
    {
        match &self.kind {
            DetectorKind::Lasting {
                tag: _,
                corner,
                place: _,
            } => *corner,
            DetectorKind::Found(found) => found.corner,
        }
    }

    /// Its bits, each by its slot and its place among that slot's. The slot is the detector's or
    /// the one before.
    pub fn bits(&self, alloc: Global) -> Result<Vec<(u32, u32)>, AllocError>
        ensures { IfOk result (λ v. v.items ≡ self.now.bits) }
    {
        match &self.kind {
            DetectorKind::Lasting {
                tag,
                corner: _,
                place,
            } => {
                let before = tag.slot.saturating_sub(1);
                Vec::from_slice(alloc, &[(tag.slot, *place), (before, *place)])
            }
            DetectorKind::Found(found) => Vec::from_slice(alloc, found.bits.as_slice()),
        }
    }
}

/// How many detectors a schedule may have.
pub(crate) const MOST_DETECTORS: u64 = 1_000_000;

/// Why a schedule has no map.
#[derive(Clone, Copy, Debug, PartialEq, Eq)]
pub enum MapError {
    /// It has more than 1,000,000 detectors: so many.
    TooLarge { detectors: u64 },
    /// Memory was wanting.
    Memory,
}

impl From<AllocError> for MapError {
    ghost from_gives = { λ _ error. error ≡ Memory };

    fn from(_: AllocError) -> MapError {
        MapError::Memory
    }
}
