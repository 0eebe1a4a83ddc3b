//! Mechanisms.
ghost use Rattle.std.specs.Prelude.{◌≡◌};
ghost use Rattle.error_map.specs.Seen.{error_in, next_in};

use patch_layout::{Basis, Qubit};

/// What goes wrong: a readout, an X or a Z error on a qubit before a slot's checks are measured, or
/// a check's outcome.
#[derive(Clone, Copy, Debug, PartialEq, Eq)]
pub enum Class {
    Readout,
    SpaceX,
    SpaceZ,
    Measurement,
}

/// An error mechanism, at the row and column of a qubit, or for a measurement at those of a check's
/// corner.
#[derive(Clone, Copy, Debug, PartialEq, Eq)]
pub struct Mechanism {
    pub slot: u32,
    pub class: Class,
    pub row: u32,
    pub col: u32,
}

/// Which qubits are asked for.
#[derive(Clone, Copy)]
pub(crate) enum Wanted {
    Every,
    One(Qubit),
}

/// Which bits a mechanism changes: one readout or one outcome of its slot, or those that see a
/// space error.
#[derive(Clone, Copy)]
pub(crate) enum Effect {
    Readout { slot: u32, row: u32, col: u32 },
    Outcome { slot: u32, row: u32, col: u32 },
    Space(SpaceError),
}

/// A space error on a qubit from a slot on. The checks of a basis see it until the qubit is read
/// next, and that readout if it is in the basis.
#[derive(Clone, Copy)]
pub(crate) struct SpaceError {
    pub(crate) basis: Basis,
    pub(crate) slot: u32,
    pub(crate) row: u32,
    pub(crate) col: u32,
    /// The slot in which the qubit is read next, or the one after the last.
    pub(crate) next: u32,
    /// Whether that readout shows it.
    pub(crate) shown: bool,
}

impl Effect {
    /// The row and the column of the qubit or the corner.
    pub(crate) fn place(self) -> (u32, u32)
        ensures row { result.0 ≡ (error_in self).place.row }
        ensures column { result.1 ≡ (error_in self).place.column }
    {
        match self {
            Effect::Readout { slot: _, row, col } => (row, col),
            Effect::Outcome { slot: _, row, col } => (row, col),
            Effect::Space(error) => (error.row, error.col),
        }
    }

    /// The last slot of which it can change a bit.
    pub(crate) fn last_slot(self) -> u32
        ensures { result ≡ next_in self }
    {
        match self {
            Effect::Readout {
                slot,
                row: _,
                col: _,
            } => slot,
            Effect::Outcome {
                slot,
                row: _,
                col: _,
            } => slot,
            Effect::Space(error) => error.next,
        }
    }
}
