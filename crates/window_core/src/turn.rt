//! What the core does, and what it gives to decode.
use detector_graph::{Decoded, Problem};

/// A ticket with its problem, to be decoded.
#[derive(Drop)]
pub struct Job {
    pub ticket: u32,
    pub problem: Problem,
}

/// A ticket with an answer.
#[derive(Drop)]
pub struct Finished {
    pub ticket: u32,
    pub decoded: Decoded,
}

/// What a turn did.
#[derive(Drop)]
pub enum Turn {
    /// The window rested on a ticket that no longer stands: it waits again.
    Dropped(u32),
    /// The guess about the source, which is named first, was right for the window.
    Verified(u32, u32),
    /// The guess about the source, which is named first, was wrong: the window waits again.
    Poisoned(u32, u32),
    /// The window's held result was committed.
    Committed(u32),
    /// The operation was released with this bit.
    Released(u32, bool),
    /// A window was claimed: its problem is to be decoded.
    Claimed(Job),
    /// Nothing can be done before a slot arrives or a job is reported.
    Idle,
    /// Every window is committed, and every operation is released.
    Done,
}

/// What became of an answer.
#[derive(Clone, Copy)]
pub enum Reported {
    /// Its window holds it.
    Held,
    /// Its ticket isn't the one that its window runs, which is `current`; or it answers another
    /// problem.
    Stale { ticket: u32, current: Option<u32> },
}
