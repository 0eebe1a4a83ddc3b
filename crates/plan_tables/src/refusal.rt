//! Why a line that is written well isn't answered.

#[derive(Clone, Copy, Debug)]
pub(crate) enum Refusal {
    /// More than 1,000,000 detectors or 10,000,000 edges.
    LargeGraph,
    /// An edge whose ends are the same, or no detectors.
    BadEdge,
    /// Blocks of no slots.
    NoCommit,
}
