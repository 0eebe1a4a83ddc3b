//! Detector graphs, boundaries and corrections: definitions that the other crates cite.
#![tactic(auto)]

/// An edge of one window's part of a graph, by its number in the graph.
///
/// Its ends are places in the part's list of detectors. An end outside that
/// list is left out, and an edge without a second place has a free end.
#[derive(Clone, Copy, Debug, PartialEq, Eq)]
pub struct PartEdge {
    pub edge: u32,
    pub first: u32,
    pub second: Option<u32>,
    pub weight: u32,
    /// Whether the part's window owns the edge.
    pub owned: bool,
}

/// Where a detector stands: its slot, and the tile of its corner.
#[derive(Clone, Copy, Debug, PartialEq, Eq)]
pub struct Tag {
    pub slot: u32,
    pub tile_row: u32,
    pub tile_col: u32,
}
