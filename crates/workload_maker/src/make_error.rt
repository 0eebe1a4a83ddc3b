//! Why nothing is made.
ghost use Rattle.std.specs.Prelude.{◌≡◌};
ghost use Rattle.workload_maker.specs.declared.make_error.MakeError.TheVariants.{Memory};

use measure_map::MapError;
use std::alloc::AllocError;

/// Why no input is made.
#[derive(Clone, Copy, Debug, PartialEq, Eq)]
pub enum MakeError {
    /// Its schedule would have more than 1,000,000 detectors: so many.
    TooLarge { detectors: u64 },
    /// Memory was wanting.
    Memory,
}

impl From<AllocError> for MakeError {
    ghost from_gives = { λ _ error. error ≡ Memory };

    fn from(_: AllocError) -> MakeError {
        MakeError::Memory
    }
}

impl From<MapError> for MakeError {
    ghost use Rattle.std.specs.Prelude.{◌≡◌};
    ghost use Rattle.workload_maker.specs.Made.{of_map};

    ghost from_gives = { λ given error. error ≡ of_map given };

    fn from(given: MapError) -> MakeError {
        match given {
            MapError::TooLarge { detectors } => MakeError::TooLarge { detectors },
            MapError::Memory => MakeError::Memory,
        }
    }
}
