//! What may happen.

/// What happened, in a few numbers. Values, links and results are kept elsewhere.
#[derive(Clone, Copy)]
pub enum Event {
    /// This slot arrived.
    Arrived(u32),
    /// This ticket was taken for this window.
    Claimed(u32, u32),
    /// The result of this ticket came, and is held.
    Held(u32),
    /// A result of this ticket came when its window ran the other ticket, or none.
    Stale(u32, Option<u32>),
    /// The guess about the source, which is named first, was right for the window.
    Verified(u32, u32),
    /// The guess about the source, which is named first, was wrong: the window waits again.
    Poisoned(u32, u32),
    /// The window rested on a ticket that no longer stands: it waits again.
    Dropped(u32),
    /// The result of this ticket was committed for this window.
    Committed(u32, u32),
    /// This operation was released with this bit.
    Released(u32, bool),
}
