//! Why no plan was made.
use std::alloc::AllocError;

/// The limit that a plan would go beyond first, or want of memory.
#[derive(Clone, Copy, Debug, PartialEq, Eq)]
pub enum PlanError {
    /// More than 4,096 windows.
    TooManyWindows { windows: u64 },
    /// More than 65,536 pairs of a window and a dependency.
    TooManyLinks { links: u64 },
    /// A window with more than 8,192 detectors, the first one.
    WindowTooLarge { window: u32, detectors: u64 },
    Memory,
}

impl From<AllocError> for PlanError {
    ghost use Rattle.std.specs.Prelude.{◌≡◌};
    ghost use Rattle.window_plan.specs.declared.plan_error.PlanError.TheVariants.{Memory};

    ghost from_gives = { λ _ e. e ≡ Memory };

    fn from(_: AllocError) -> PlanError {
        PlanError::Memory
    }
}
