//! What a result flips at the places that its window shares with a later one.
ghost use Rattle.std.specs.Prelude.{◌≡◌, ◌≢◌, ◌<◌, ℕ, List, All, true, false, length, map};
ghost use Rattle.graph_model.specs.Graph.{boundary, is_in};
ghost use Rattle.window_model.specs.Decoder.{owned_part};
ghost use Rattle.window_model.specs.Speculation.{flips_at};
ghost use Rattle.window_model.specs.Windows.{places, window_at, window_count};

use boundary_fold::out_flip;
use detector_graph::{Bits, EdgeSet, Graph};
use window_setting::Setting;

/// Writes for each place that a window shares with a dependency whether an odd number of the edges
/// that the dependency keeps end there. It costs time in proportion to the edges at the places.
pub fn write_flips(setting: &Setting, source: u32, window: u32, kept: &EdgeSet, into: &mut Bits)
    requires window { window < window_count setting.now.plan }
    requires source { is_in (window_at setting.now.plan window).deps source ≡ true }
    requires kept { All (λ e. e < length setting.now.graph.edges) kept.now }
    requires into { length into.old ≡ length (places setting.now.graph setting.now.plan source
        window) }
    ensures { (set : List ℕ) → kept.now ≡ owned_part setting.now source set →
        into.new ≡ flips_at setting.now source window set }
{
    write_ends(setting.graph(), setting.places(source, window), kept, into);
}

/// Whether these bits are what the edges that a dependency keeps flip at the places that the window
/// shares with it: a guess of them was right. It ends at the first that differs.
pub fn has_flips(setting: &Setting, source: u32, window: u32, kept: &EdgeSet, bits: &Bits) -> bool
    requires window { window < window_count setting.now.plan }
    requires source { is_in (window_at setting.now.plan window).deps source ≡ true }
    requires kept { All (λ e. e < length setting.now.graph.edges) kept.now }
    requires bits { length bits.now ≡ length (places setting.now.graph setting.now.plan source
        window) }
    ensures equal { (set : List ℕ) → kept.now ≡ owned_part setting.now source set → result ≡ true →
        bits.now ≡ flips_at setting.now source window set }
    ensures differ { (set : List ℕ) → kept.now ≡ owned_part setting.now source set →
        result ≡ false → bits.now ≢ flips_at setting.now source window set }
{
    has_ends(setting.graph(), setting.places(source, window), kept, bits)
}

/// Writes for each detector whether an odd number of the edges end there.
pub(crate) fn write_ends(graph: &Graph, places: &[u32], kept: &EdgeSet, into: &mut Bits)
    requires places { All (λ v. v < graph.now.vertices) places.now }
    requires kept { All (λ e. e < length graph.now.edges) kept.now }
    requires into { length into.old ≡ length places.now }
    ensures { into.new ≡ map (boundary graph.now kept.now) places.now }
{
    for at in 0..into.len() {
        into.set(at, out_flip(graph, places[at as usize], kept));
    }
}

/// Whether these are the bits that tell for each detector whether an odd number of the edges end
/// there.
pub(crate) fn has_ends(graph: &Graph, places: &[u32], kept: &EdgeSet, bits: &Bits) -> bool
    requires places { All (λ v. v < graph.now.vertices) places.now }
    requires kept { All (λ e. e < length graph.now.edges) kept.now }
    requires bits { length bits.now ≡ length places.now }
    ensures equal { result ≡ true → bits.now ≡ map (boundary graph.now kept.now) places.now }
    ensures differ { result ≡ false → bits.now ≢ map (boundary graph.now kept.now) places.now }
{
    for at in 0..bits.len() {
        if bits.get(at) != out_flip(graph, places[at as usize], kept) {
            return false;
        }
    }
    true
}
