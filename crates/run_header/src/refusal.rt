//! Why no schedule is opened.

ghost use Rattle.std.specs.Prelude.{◌≡◌};
ghost use Rattle.run_header.specs.Openings.{of_header, of_mapping, of_planning, of_reading, of_rules};

use measure_map::MapError;
use schedule_reader::{Name, ReadError, ScheduleFault};
use schedule_rules::RuleError;
use std::alloc::AllocError;
use syndrome_source::HeaderError;
use window_plan::PlanError;

/// Why a schedule is refused, by the first of its faults.
#[derive(Drop)]
pub enum Refusal {
    /// A line is at fault, or breaks a rule of the whole.
    Schedule(ScheduleFault),
    /// More than 1,000,000 detectors.
    TooLarge { detectors: u64 },
    /// More than 4,096 windows.
    TooManyWindows { windows: u64 },
    /// More than 65,536 pairs of a window and a dependency.
    TooManyLinks { links: u64 },
    /// A window with more than 8,192 detectors, the first one.
    WindowTooLarge { window: u32, detectors: u64 },
    /// A condition whose ready round is not below its slot, the first one, by its label.
    TooEarly { label: Name, ready: u32 },
}

/// Why no schedule was opened.
#[derive(Drop)]
pub enum OpeningError {
    /// The header was taken, and its schedule is refused.
    Refused(Refusal),
    /// The input ended in this line, before the header did.
    Ended { line: u32 },
    /// Reading failed before the header ended.
    ReadFault,
    /// Memory was wanting.
    Memory,
}

impl From<AllocError> for OpeningError {
    ghost use Rattle.std.specs.Prelude.{◌≡◌};
    ghost use Rattle.run_header.specs.declared.refusal.OpeningError.TheVariants.{Memory};

    ghost from_gives = { λ _ e. e ≡ Memory };

    fn from(_: AllocError) -> OpeningError {
        OpeningError::Memory
    }
}

impl From<HeaderError> for OpeningError {
    ghost from_gives = { λ header error. error ≡ of_header header };

    fn from(error: HeaderError) -> OpeningError {
        match error {
            HeaderError::Ended { line } => OpeningError::Ended { line },
            HeaderError::ReadFault => OpeningError::ReadFault,
            HeaderError::Memory => OpeningError::Memory,
        }
    }
}

impl From<ReadError> for OpeningError {
    ghost from_gives = { λ reading error. error ≡ of_reading reading };

    fn from(error: ReadError) -> OpeningError {
        match error {
            ReadError::Fault(fault) => OpeningError::Refused(Refusal::Schedule(fault)),
            ReadError::Memory => OpeningError::Memory,
        }
    }
}

impl From<RuleError> for OpeningError {
    ghost from_gives = { λ rules error. error ≡ of_rules rules };

    fn from(error: RuleError) -> OpeningError {
        let RuleError::Fault(fault) = error;
        OpeningError::Refused(Refusal::Schedule(fault))
    }
}

impl From<MapError> for OpeningError {
    ghost from_gives = { λ mapping error. error ≡ of_mapping mapping };

    fn from(error: MapError) -> OpeningError {
        let MapError::TooLarge { detectors } = error else {
            return OpeningError::Memory;
        };
        OpeningError::Refused(Refusal::TooLarge { detectors })
    }
}

impl From<PlanError> for OpeningError {
    ghost from_gives = { λ planning error. error ≡ of_planning planning };

    fn from(error: PlanError) -> OpeningError {
        let refusal = match error {
            PlanError::TooManyWindows { windows } => Refusal::TooManyWindows { windows },
            PlanError::TooManyLinks { links } => Refusal::TooManyLinks { links },
            PlanError::WindowTooLarge { window, detectors } => Refusal::WindowTooLarge {
                window,
                detectors,
            },
            PlanError::Memory => return OpeningError::Memory,
        };
        OpeningError::Refused(refusal)
    }
}
