//! Lines and words of a text, and what a word spells.
ghost use Rattle.std.specs.Prelude.{◌≡◌, ◌<◌, ◌≤◌, ◌^◌, ◌∷◌, ◌==◌, ◌++◌, ℕ, Bool, true, decimal, drop, length, IfNone, IfSome};
ghost use Rattle.std.specs.List.{position_or_len};
ghost use Rattle.report_model.specs.Texts.{bit_text};
ghost use Rattle.log_reader.specs.Words.{IsCut, is_tail, lacks, words_behind, words_in};

use itoa::Buffer;

/// What stands before the first byte of this value, and what stands after it; `None` where there
/// is no such byte.
pub(crate) fn cut(value: u8, bytes: &[u8]) -> Option<(&[u8], &[u8])>
    ensures some { IfSome result (λ parts. IsCut value bytes.now parts.0.now parts.1.now) }
    ensures none { IfNone result (lacks value bytes.now ≡ true) }
{
    let (front, rest) = bytes.split_at(place_of(value, bytes));
    if rest.is_empty() {
        None
    } else {
        Some((front, behind_first(rest)))
    }
}

fn behind_first(bytes: &[u8]) -> &[u8]
    requires { 0 < length bytes.now }
    ensures { result.now ≡ drop 1 bytes.now }
{
    &bytes[1..]
}

/// The first word, and what stands after it, from its space on.
pub fn first_word(bytes: &[u8]) -> (&[u8], &[u8])
    ensures words { words_in bytes.now ≡ result.0.now ∷ words_behind result.1.now }
    ensures tail { is_tail result.1.now ≡ true }
    ensures shorter { length result.1.now ≤ length bytes.now }
{
    bytes.split_at(place_of(b' ', bytes))
}

/// The place of the first byte of this value, or the length.
#[tactic(auto, using(crate::proofs::Bytes::place_at, crate::proofs::Bytes::place_end))]
fn place_of(value: u8, bytes: &[u8]) -> usize
    ensures place { result ≡ position_or_len (λ b. b == value) bytes.now }
    ensures within { result ≤ length bytes.now }
{
    for (at, byte) in bytes.iter().enumerate() {
        if *byte == value {
            return at;
        }
    }
    bytes.len()
}

/// The number that a word spells without leading zeros.
pub fn number_of(word: &[u8]) -> Option<u32>
    ensures some { IfSome result (λ number. word.now ≡ decimal number) }
    ensures none { IfNone result ((number : ℕ) → number < 2 ^ 32 → word.now ≡ decimal number → ⊥) }
{
    match str::from_utf8(word) {
        Ok(text) => number_in(text),
        Err(_) => None,
    }
}

fn number_in(text: &str) -> Option<u32>
    ensures some { IfSome result (λ number. text.now ≡ decimal number) }
    ensures none { IfNone result ((number : ℕ) → number < 2 ^ 32 → text.now ≡ decimal number → ⊥) }
{
    match text.parse::<u32>() {
        Ok(number) => {
            if Buffer::new().format(number) == text {
                Some(number)
            } else {
                None
            }
        }
        Err(_) => None,
    }
}

/// The bit that a word spells.
pub(crate) fn bit_of(word: &[u8]) -> Option<bool>
    ensures some { IfSome result (λ bit. word.now ≡ bit_text bit) }
    ensures none { IfNone result ((bit : Bool) → word.now ≡ bit_text bit → ⊥) }
{
    if word == b"0".as_slice() {
        Some(false)
    } else if word == b"1".as_slice() {
        Some(true)
    } else {
        None
    }
}
