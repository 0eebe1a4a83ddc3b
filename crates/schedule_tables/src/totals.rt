//! Widths and sums.

use detector_graph::Graph;
use measure_map::MeasureMap;
use std::alloc::AllocError;

/// Writes how many bits the slots have: a line for each run of slots with as many.
pub(crate) fn add_widths(text: &mut String, map: &MeasureMap) -> Result<(), AllocError> {
    let mut first = 0;
    for slot in 0..map.slots() {
        let width = map.width(slot);
        if slot + 1 == map.slots() || map.width(slot + 1) != width {
            writeln!(text, "slots {first} to {slot} width {width}")?;
            first = slot + 1;
        }
    }
    Ok(())
}

/// Writes how many slots, bits, detectors and observables there are.
pub(crate) fn add_sizes(text: &mut String, map: &MeasureMap) -> Result<(), AllocError> {
    let mut bits: u64 = 0;
    for slot in 0..map.slots() {
        bits = bits.saturating_add(u64::from(map.width(slot)));
    }
    write!(text, "sizes slots {} bits {bits}", map.slots())?;
    write!(text, " detectors {}", map.detectors().len())?;
    writeln!(text, " observables {}", map.observables().len())
}

/// The weights and the masks' members of all edges, added up.
pub(crate) fn sums(graph: &Graph) -> (u64, u64) {
    let (mut weight, mut members): (u64, u64) = (0, 0);
    for number in 0..graph.edges() {
        let edge = graph.edge(number);
        weight = weight.saturating_add(u64::from(edge.weight));
        members = members.saturating_add(edge.mask.as_slice().len() as u64);
    }
    (weight, members)
}
