//! What a field of a line may be.
ghost use Rattle.std.specs.Prelude.{◌≡◌, ◌++◌, ◌<◌, ◌^◌, true, length, bytes_eq, codes};
ghost use Rattle.std.specs.List.{list_all};
ghost use Rattle.surface_model.specs.Text.{is_name, is_name_byte, is_number, is_between, number_of, is_basis, is_observable, is_well_formed, is_in_range};

use crate::piece::cut;
use surface_model::FieldKind;

/// The greatest number of bytes of a name.
pub(crate) const NAME_BYTES: usize = 16;
/// The greatest number of digits of a number.
const DIGITS: usize = 9;

pub(crate) fn is_name(field: &[u8]) -> bool
    ensures { result ≡ is_name field.now }
{
    !field.is_empty() && field.len() <= NAME_BYTES && has_name_bytes(field)
}

fn has_name_bytes(field: &[u8]) -> bool
    ensures { result ≡ list_all is_name_byte field.now }
{
    field.iter().all(|byte| is_name_byte(*byte))
}

fn is_name_byte(byte: u8) -> bool
    ensures { result ≡ is_name_byte byte }
{
    matches!(byte, b'A'..=b'Z' | b'a'..=b'z' | b'0'..=b'9' | b'_')
}

/// Whether a field is a number: 1 to 9 decimal digits, of which the first may be zeros.
pub fn is_number(field: &[u8]) -> bool
    ensures { result ≡ is_number field.now }
{
    !field.is_empty() && field.len() <= DIGITS && has_digits(field)
}

fn has_digits(field: &[u8]) -> bool
    ensures { result ≡ list_all (is_between 48 57) field.now }
{
    field.iter().all(|byte| is_digit(*byte))
}

fn is_digit(byte: u8) -> bool
    ensures { result ≡ is_between 48 57 byte }
{
    matches!(byte, b'0'..=b'9')
}

/// The number that a field of 1 to 9 digits says.
pub fn number_of(field: &[u8]) -> u32
    requires { is_number field.now ≡ true }
    ensures value { result ≡ number_of field.now }
    ensures bound { result < 10 ^ 9 }
{
    let mut number = 0;
    for byte in field {
        number = number * 10 + u32::from(*byte - b'0');
    }
    number
}

/// Whether a field has the form that its kind asks for. Numbers are judged by themselves.
pub(crate) fn is_well_formed(kind: FieldKind, field: &[u8]) -> bool
    ensures { result ≡ is_well_formed kind field.now }
{
    match kind {
        FieldKind::NewPatch | FieldKind::OldPatch | FieldKind::NewLabel => is_name(field),
        FieldKind::ABasis => field == b"z".as_slice() || field == b"x".as_slice(),
        FieldKind::ANumber(_, _) => true,
        FieldKind::OldObservable => is_observable(field),
    }
}

/// Whether a field is a number in its range, where it has to be one.
pub(crate) fn is_in_range(kind: FieldKind, field: &[u8]) -> bool
    ensures { result ≡ is_in_range kind field.now }
{
    match kind {
        FieldKind::ANumber(low, high) => is_number(field)
            && is_between(low, high, number_of(field)),
        _ => true,
    }
}

fn is_between(low: u32, high: u32, number: u32) -> bool
    ensures { result ≡ is_between low high number }
{
    low <= number && number <= high
}

/// Whether a field is a name, alone or with `.seam` after it.
fn is_observable(field: &[u8]) -> bool
    ensures { result ≡ is_observable field.now }
{
    let (label, _) = cut(b'.', field);
    is_name(label) && (field == label || is_joined(field, label, b".seam"))
}

/// Whether a field is the two parts, one after the other.
pub(crate) fn is_joined(field: &[u8], front: &[u8], back: &[u8]) -> bool
    ensures { result ≡ bytes_eq field.now (front.now ++ back.now) }
{
    match field.strip_prefix(front) {
        Some(rest) => rest == back,
        None => false,
    }
}
