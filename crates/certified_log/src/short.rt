//! Whether a certificate is short enough for its lines.
ghost use Rattle.std.specs.Prelude.{◌≡◌, ◌≤◌, ℤ, List, ℕ, All, length, true};
ghost use Rattle.certified_lines.specs.Certified.{IsNumber};
ghost use Rattle.certified_log.specs.Shown.{IsShort};
ghost use Rattle.report_model.specs.Logs.{IsLogNumber};

use crate::looks::are_small;
use crate::parts::{members_of, number_of, numbers_of, set_count};
use dual_certificate::Cert;

/// One more than the greatest number of 18 digits.
const LIMIT: i64 = 1_000_000_000_000_000_000;

/// Whether each number has at most 18 digits, and there are no more sets than members.
pub(crate) fn is_short(cert: &Cert) -> bool
    ensures { result ≡ true → IsShort cert.now }
{
    are_members_small(cert);
    are_numbers(numbers_of(cert)) && are_sets_short(cert) && are_few(cert)
}

/// Whether there are no more sets than members.
fn are_few(cert: &Cert) -> bool
    ensures { result ≡ true → length cert.now.sets ≤ length cert.now.vertex }
{
    set_count(cert) <= numbers_of(cert).len()
}

fn are_numbers(numbers: &[i64]) -> bool
    ensures { result ≡ true → All IsNumber numbers.now }
{
    for number in numbers {
        if !is_number(*number) {
            return false;
        }
    }
    true
}

fn are_sets_short(cert: &Cert) -> bool
    ensures { result ≡ true → All (λ (s : List ℕ × ℤ). IsNumber s.1) cert.now.sets }
{
    for at in 0..set_count(cert) {
        if !is_number(number_of(cert, at)) {
            return false;
        }
    }
    true
}

/// Members are numbers of a log.
fn are_members_small(cert: &Cert)
    ensures { All (λ (s : List ℕ × ℤ). All IsLogNumber s.0) cert.now.sets }
{
    for at in 0..set_count(cert) {
        are_small(members_of(cert, at));
    }
}

fn is_number(number: i64) -> bool
    ensures { result ≡ true → IsNumber number }
{
    -LIMIT < number && number < LIMIT
}
