//! One who decodes.
use detector_graph::Solver;
use std::alloc::Global;
use window_table::Share;

/// How a worker ended.
#[derive(Clone, Copy, Debug, PartialEq, Eq)]
pub enum WorkEnd {
    /// There was no more to do.
    Finished,
    /// Memory was wanting, here or to another worker.
    Memory,
}

/// One who decodes: its solver, whence it takes memory, its share, and how it ended.
#[derive(Drop)]
pub struct Worker<S: Solver> {
    pub solver: S,
    pub alloc: Global,
    pub share: Share,
    pub end: WorkEnd,
}
