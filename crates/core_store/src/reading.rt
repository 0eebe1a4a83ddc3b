//! Values read where they stand.
ghost use Rattle.std.specs.Prelude.{◌≡◌, ◌≢◌, ◌<◌, All, false, length, map, slice_index_or, true};
ghost use Rattle.core_journal.specs.Entries.{bit};

use detector_graph::Bits;

/// Whether the values at these places are those, in order.
pub(crate) fn reads(places: &[u32], values: &Bits, of: &Bits) -> bool
    requires { All (λ v. v < length of.now) places.now }
    ensures yes { result ≡ true → map (bit of.now) places.now ≡ values.now }
    ensures no { result ≡ false → map (bit of.now) places.now ≢ values.now }
{
    if !are_as_many(places, values) {
        return false;
    }
    for at in 0..values.len() {
        if !is_read(of, places[at as usize], values.get(at)) {
            return false;
        }
    }
    true
}

/// Whether there is a value for each place.
fn are_as_many(places: &[u32], values: &Bits) -> bool
    ensures yes { result ≡ true → length places.now ≡ length values.now }
    ensures no { result ≡ false → length places.now ≢ length values.now }
{
    places.len() == values.len() as usize
}

/// Whether it is the value at a place.
fn is_read(of: &Bits, place: u32, value: bool) -> bool
    requires { place < length of.now }
    ensures yes { result ≡ true → slice_index_or of.now place false ≡ value }
    ensures no { result ≡ false → slice_index_or of.now place false ≢ value }
{
    of.get(place) == value
}
