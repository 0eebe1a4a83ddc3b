//! The pieces of a text between bytes of one value.
ghost use Rattle.std.specs.Prelude.{◌≡◌, ◌==◌, ℕ, unwrap_or, position, length};
ghost use Rattle.schedule_reader.specs.Pieces.{upto, past};

/// What stands before the first byte of this value, or all, and what stands after that byte.
pub(crate) fn cut(byte: u8, bytes: &[u8]) -> (&[u8], &[u8])
    ensures front { result.0.now ≡ upto byte bytes.now }
    ensures back { result.1.now ≡ past byte bytes.now }
{
    let end = piece_end(byte, bytes);
    if end < bytes.len() {
        (&bytes[..end], &bytes[end + 1..])
    } else {
        (bytes, &[])
    }
}

/// The place of the first byte of this value, or the length.
#[tactic(auto, using(crate::proofs::Pieces::upto_at, crate::proofs::Pieces::upto_end))]
fn piece_end(byte: u8, bytes: &[u8]) -> usize
    ensures { result ≡ length (upto byte bytes.now) }
{
    for (at, other) in bytes.iter().enumerate() {
        if *other == byte {
            return at;
        }
    }
    bytes.len()
}
