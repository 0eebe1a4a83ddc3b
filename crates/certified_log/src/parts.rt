//! The numbers and sets of a certificate.
ghost use Rattle.std.specs.Prelude.{◌≡◌, ◌<◌, ℕ, ℤ, List, length, slice_index_or};

use dual_certificate::Cert;

/// The numbers of the members.
pub(crate) fn numbers_of(cert: &Cert) -> &[i64]
    ensures { result.now ≡ cert.now.vertex }
{
    &cert.vertex
}

/// How many sets there are.
pub(crate) fn set_count(cert: &Cert) -> usize
    ensures { result ≡ length cert.now.sets }
{
    cert.sets.len()
}

/// The members of the set at this place.
pub(crate) fn members_of(cert: &Cert, at: usize) -> &[u32]
    requires { at < length cert.now.sets }
    ensures { (d : List ℕ × ℤ) → result.now ≡ (slice_index_or cert.now.sets at d).0 }
{
    &cert.sets[at].0
}

/// Its number.
pub(crate) fn number_of(cert: &Cert, at: usize) -> i64
    requires { at < length cert.now.sets }
    ensures { (d : List ℕ × ℤ) → result ≡ (slice_index_or cert.now.sets at d).1 }
{
    cert.sets[at].1
}
