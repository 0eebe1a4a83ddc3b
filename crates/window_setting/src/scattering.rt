//! Values written to their places.
ghost use Rattle.std.specs.Prelude.{◌≡◌, ◌<◌, ℕ, false, All, length, slice_index, slice_index_or};
ghost use Rattle.std.specs.List.Sorted.{IsStrictlyIncreasing};
ghost use Rattle.graph_model.specs.Graph.{is_in};

use detector_graph::Bits;

/// Writes a value to each of the places, in order.
pub fn scatter(places: &[u32], values: &Bits, into: &mut Bits)
    requires rising { IsStrictlyIncreasing places.now }
    requires values { length values.now ≡ length places.now }
    requires places { All (λ v. v < length into.old) places.now }
    ensures len { length into.new ≡ length into.old }
    ensures written { (k : ℕ) → k < length places.now →
        slice_index_or into.new (slice_index places.now k) false
        ≡ slice_index_or values.now k false }
    ensures others { (v : ℕ) → is_in places.now v ≡ false → slice_index_or into.new v false
        ≡ slice_index_or into.old v false }
{
    for at in 0..values.len() {
        into.set(places[at as usize], values.get(at));
    }
}
