//! The values of options.
ghost use Rattle.std.specs.Prelude.{◌≡◌, ◌≤◌, ◌%◌, ◌==◌, IfSome, min, true};
ghost use Rattle.std.specs.List.{list_all};
ghost use Rattle.surface_model.specs.Text.{is_between, number_of};
ghost use Rattle.run_words.specs.Values.{distance_in, is_number_word, kind_in, number_in, predictor_in, seeded_in, too_large};

use crate::PredictorKind;
use window_plan::PlanKind;

/// Past every number that an option takes.
const TOO_LARGE: u128 = 1 << 64;

/// A number from `low` to `high`: 1 to 20 decimal digits.
pub(crate) fn number_in(low: u64, high: u64, word: &[u8]) -> Option<u64>
    ensures value { result ≡ number_in low high word.now }
    ensures range { IfSome result (λ n. (low ≤ n) × (n ≤ high)) }
{
    if !is_number_word(word) {
        return None;
    }
    let number = number_of(word);
    if number < low as u128 || number > high as u128 {
        return None;
    }
    Some(number as u64)
}

/// A small number from `low` to `high`.
pub(crate) fn size_in(low: u32, high: u32, word: &[u8]) -> Option<u32>
    ensures value { result ≡ number_in low high word.now }
    ensures range { IfSome result (λ n. (low ≤ n) × (n ≤ high)) }
{
    let number = number_in(low as u64, high as u64, word)?;
    Some(number as u32)
}

/// An odd number from 3 to 11.
pub(crate) fn distance_in(word: &[u8]) -> Option<u32>
    ensures value { result ≡ distance_in word.now }
    ensures range { IfSome result (λ n. (3 ≤ n) × (n ≤ 11) × (n % 2 ≡ 1)) }
{
    let distance = size_in(3, 11, word)?;
    if distance % 2 == 1 {
        Some(distance)
    } else {
        None
    }
}

/// A kind of plan by its name.
pub(crate) fn kind_in(word: &str) -> Option<PlanKind>
    ensures { result ≡ kind_in word.now }
{
    match word {
        "sliding" => Some(PlanKind::Sliding),
        "parallel" => Some(PlanKind::Parallel),
        _ => None,
    }
}

/// A predictor: `zero`, `near`, or `seed:N` with N from 0 to 2^64 - 1.
pub(crate) fn predictor_in(word: &str) -> Option<PredictorKind>
    ensures { result ≡ predictor_in word.now }
{
    match word {
        "zero" => Some(PredictorKind::Zero),
        "near" => Some(PredictorKind::Near),
        _ => seeded_in(word.as_bytes()),
    }
}

/// A seed after `seed:`.
fn seeded_in(word: &[u8]) -> Option<PredictorKind>
    ensures { result ≡ seeded_in word.now }
{
    let (front, digits) = word.split_at_checked(5)?;
    if front != b"seed:".as_slice() {
        return None;
    }
    let seed = number_in(0, u64::MAX, digits)?;
    Some(PredictorKind::Seeded(seed))
}

/// Whether the word is 1 to 20 decimal digits.
fn is_number_word(word: &[u8]) -> bool
    ensures { result ≡ is_number_word word.now }
{
    !word.is_empty() && word.len() <= 20 && are_digits(word)
}

fn are_digits(word: &[u8]) -> bool
    ensures { result ≡ list_all (is_between 48 57) word.now }
{
    word.iter().all(|byte| is_digit(*byte))
}

fn is_digit(byte: u8) -> bool
    ensures { result ≡ is_between 48 57 byte }
{
    byte.is_ascii_digit()
}

/// The number that the digits give, or `TOO_LARGE` where it is larger.
fn number_of(digits: &[u8]) -> u128
    requires { is_number_word digits.now ≡ true }
    ensures { result ≡ min (number_of digits.now) too_large }
{
    let mut number: u128 = 0;
    for digit in digits {
        number = (number * 10 + (*digit as u128 - 48)).min(TOO_LARGE);
    }
    number
}
