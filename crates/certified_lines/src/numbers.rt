//! Numbers of certificates, which may be below 0.
ghost use Rattle.std.specs.Prelude.{◌≡◌, ℤ, IfNone, IfOk, IfSome, true};
ghost use Rattle.std.specs.Fmt.{signed_decimal};
ghost use Rattle.log_reader.specs.Words.{is_tail, words_behind};
ghost use Rattle.certified_lines.specs.Certified.{IsNumber};
ghost use Rattle.certified_lines.specs.Read.{AreNumbersIn};

use itoa::Buffer;
use log_reader::first_word;
use std::alloc::{AllocError, Global};

/// One more than the greatest number of 18 digits.
const LIMIT: i64 = 1_000_000_000_000_000_000;

/// Numbers, each after a space.
pub(crate) fn numbers_of(alloc: Global, tail: &[u8]) -> Result<Option<Vec<i64>>, AllocError>
    requires { is_tail tail.now ≡ true }
    ensures { IfOk result (λ found. AreNumbersIn (words_behind tail.now) found) }
{
    let mut numbers = Vec::new(alloc);
    let mut left = tail;
    while let Some(rest) = left.strip_prefix(b" ") {
        let (word, behind) = first_word(rest);
        let Some(number) = number_of(word) else {
            return Ok(None);
        };
        numbers.push(number)?;
        left = behind;
    }
    Ok(Some(numbers))
}

/// The number of at most 18 digits that a word spells without leading zeros.
pub(crate) fn number_of(word: &[u8]) -> Option<i64>
    ensures some { IfSome result (λ number. word.now ≡ signed_decimal number) }
    ensures short { IfSome result IsNumber }
    ensures none { IfNone result ((z : ℤ) → IsNumber z → word.now ≡ signed_decimal z → ⊥) }
{
    match str::from_utf8(word) {
        Ok(text) => number_in(text),
        Err(_) => None,
    }
}

fn number_in(text: &str) -> Option<i64>
    ensures some { IfSome result (λ number. text.now ≡ signed_decimal number) }
    ensures short { IfSome result IsNumber }
    ensures none { IfNone result ((z : ℤ) → IsNumber z → text.now ≡ signed_decimal z → ⊥) }
{
    match text.parse::<i64>() {
        Ok(number) => spelled_by(number, text),
        Err(_) => None,
    }
}

/// The number, where it has at most 18 digits and this is its text.
fn spelled_by(number: i64, text: &str) -> Option<i64>
    ensures some { IfSome result (λ n. (n ≡ number) × (text.now ≡ signed_decimal n)) }
    ensures short { IfSome result IsNumber }
    ensures none { IfNone result (IsNumber number → text.now ≡ signed_decimal number → ⊥) }
{
    if number <= -LIMIT || number >= LIMIT {
        return None;
    }
    if Buffer::new().format(number) == text {
        Some(number)
    } else {
        None
    }
}
