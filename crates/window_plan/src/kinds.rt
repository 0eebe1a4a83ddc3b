//! How windows are ranked.

/// By what order the cells of a plan are ranked.
#[derive(Clone, Copy, Debug, PartialEq, Eq)]
pub enum PlanKind {
    /// By block, then by tile: row before column.
    Sliding,
    /// Blocks of even number first; in each half, tiles whose row and column have an even sum
    /// first; then by block and tile. An edge joins no two cells of one parity and colour, so
    /// without buffers their windows don't depend on each other.
    Parallel,
}
