//! The steps of a log.
use detector_graph::EdgeSet;
use schedule_reader::Name;

/// A step as a log spells it.
#[derive(Drop)]
pub enum LogStep {
    /// This slot arrived.
    Arrive(u32),
    /// This window was committed with these edges.
    Commit(u32, EdgeSet),
    /// The operation of this label was released with this bit.
    Released(Name, bool),
}
