//! A list of detectors' values, and what a dependency's link turns of them.
ghost use Rattle.std.specs.Prelude.{◌≡◌, ◌<◌, ◌==◌, ℕ, false, length, slice_index, slice_index_or};
ghost use Rattle.std.specs.List.Sorted.{IsStrictlyIncreasing};
ghost use Rattle.graph_model.specs.Parity.{◌⊕◌};
ghost use Rattle.window_model.specs.Speculation.{bit_at};

use detector_graph::Bits;

/// Turns the value of one detector, where it is in the list: a binary search.
fn turn(detectors: &[u32], detector: u32, into: &mut Bits)
    requires rising { IsStrictlyIncreasing detectors.now }
    requires long { length into.old ≡ length detectors.now }
    ensures len { length into.new ≡ length into.old }
    ensures value { (k : ℕ) → k < length detectors.now → slice_index_or into.new k false
        ≡ slice_index_or into.old k false ⊕ (detector == slice_index detectors.now k) }
{
    let _count = into.len();
    if let Ok(at) = detectors.binary_search(&detector) {
        into.flip(at as u32);
    }
}

/// Turns the values at the places whose bit is true.
pub fn turn_places(detectors: &[u32], places: &[u32], bits: &Bits, into: &mut Bits)
    requires rising { IsStrictlyIncreasing detectors.now }
    requires places { IsStrictlyIncreasing places.now }
    requires bits { length bits.now ≡ length places.now }
    requires long { length into.old ≡ length detectors.now }
    ensures len { length into.new ≡ length into.old }
    ensures value { (k : ℕ) → k < length detectors.now → slice_index_or into.new k false
        ≡ slice_index_or into.old k false ⊕ bit_at places.now bits.now
        (slice_index detectors.now k) }
{
    for at in 0..bits.len() {
        if bits.get(at) {
            turn(detectors, places[at as usize], into);
        }
    }
}
