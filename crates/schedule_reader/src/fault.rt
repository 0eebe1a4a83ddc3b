//! Why a schedule is refused.
ghost use Rattle.std.specs.Prelude.{◌≡◌};
ghost use Rattle.schedule_reader.specs.declared.fault.ReadError.TheVariants.{Memory};

use std::alloc::AllocError;

/// What is wrong with a schedule: faults of one line, then faults of the whole, then too many
/// lines.
#[derive(Clone, Copy, Debug, PartialEq, Eq)]
pub enum FaultKind {
    /// A line of no form, out of its place, or with a foreign byte.
    BadLine,
    /// A number field that is no number or is outside its range.
    BadNumber,
    /// A patch or observable that no earlier line gives.
    UnknownName,
    /// A patch name, a label, or a patch's preparation or reading that an earlier line gives.
    Repeated,
    /// A distance that is even or outside 3 to 11.
    BadDistance,
    /// A patch on the tile of an earlier one.
    TileTaken,
    /// A reading that isn't past its patch's preparation.
    BadLife,
    /// A merge of tiles that don't lie side by side.
    NotNeighbours,
    /// A merge that isn't within the lives of its patches.
    MergeOutsideLife,
    /// Two merges of one patch with a slot in common.
    MergesTouch,
    /// A condition that names an observable twice, or outside its patch's life.
    BadCond,
    /// A patch that isn't prepared or read, or no patch at all.
    Missing,
    /// The 65th patch, or the 257th line of merges, reads and conditions together.
    TooMany,
}

/// The first fault of a schedule, with its line's number from 1.
#[derive(Clone, Copy, Debug, PartialEq, Eq)]
pub struct ScheduleFault {
    pub line: u32,
    pub kind: FaultKind,
}

/// Why no schedule was read.
#[derive(Clone, Copy, Debug, PartialEq, Eq)]
pub enum ReadError {
    Fault(ScheduleFault),
    Memory,
}

impl From<AllocError> for ReadError {
    ghost from_gives = { λ _ error. error ≡ Memory };

    fn from(_: AllocError) -> ReadError {
        ReadError::Memory
    }
}
