//! Rows whose bits are turned.
ghost use Rattle.std.specs.Prelude.{◌≡◌, ◌<◌, ◌==◌, ◌&&◌, ℕ, [], length, map, slice_index_or};
ghost use Rattle.graph_model.specs.Parity.{◌⊕◌, parity};
ghost use Rattle.workload_maker.specs.Turns.{AreWithin, bit_in, is_place};

use detector_graph::Bits;

/// Turns one bit, by its slot and its place in that slot's row.
fn turn(rows: &mut Vec<Bits>, slot: u32, at: u32)
    requires slot { slot < length rows.old.items }
    requires at { at < length (slice_index_or rows.old.items slot []) }
    ensures widths { map length rows.new.items ≡ map length rows.old.items }
    ensures bits { (t k : ℕ) → bit_in rows.new.items t k
        ≡ bit_in rows.old.items t k ⊕ (slot == t && at == k) }
{
    rows[slot as usize].flip(at);
}

/// Turns the bits at these places, each by its slot and its place in that slot's row.
pub(crate) fn turn_all(rows: &mut Vec<Bits>, places: &[(u32, u32)])
    requires { AreWithin rows.old.items places.now }
    ensures widths { map length rows.new.items ≡ map length rows.old.items }
    ensures bits { (t k : ℕ) → bit_in rows.new.items t k
        ≡ bit_in rows.old.items t k ⊕ parity (is_place t k) places.now }
{
    for place in places {
        turn(rows, place.0, place.1);
    }
}
