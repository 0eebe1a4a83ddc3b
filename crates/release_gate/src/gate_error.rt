//! Why no gates were made.
use std::alloc::AllocError;

/// The first operation that comes too early, or want of memory.
#[derive(Clone, Copy, Debug, PartialEq, Eq)]
pub enum GateError {
    /// Its ready round is not below its slot: it would wait for slots that come after it.
    TooEarly { op: u32, ready_round: u32 },
    Memory,
}

impl From<AllocError> for GateError {
    ghost use Rattle.std.specs.Prelude.{◌≡◌};
    ghost use Rattle.release_gate.specs.declared.gate_error.GateError.TheVariants.{Memory};

    ghost from_gives = { λ _ e. e ≡ Memory };

    fn from(_: AllocError) -> GateError {
        GateError::Memory
    }
}
