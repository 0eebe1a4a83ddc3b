//! A stretch of slots.
ghost use Rattle.std.specs.Prelude.{◌≡◌, ◌≤◌};
ghost use Rattle.surface_model.specs.Limits.{last_split};
ghost use Rattle.timetable.specs.Spans.{single};

/// The slots from `start` up to `end`.
#[derive(Clone, Copy)]
pub(crate) struct Span {
    pub(crate) start: u32,
    pub(crate) end: u32,
}

/// One slot alone.
pub(crate) fn single(slot: u32) -> Span
    requires { slot ≤ last_split }
    ensures { result ≡ single slot }
{
    Span {
        start: slot,
        end: slot + 1,
    }
}
