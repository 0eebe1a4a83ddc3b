//! Odd sets of members.
ghost use Rattle.std.specs.Prelude.{◌≡◌, ◌<◌, false, true, All};
ghost use Rattle.std.specs.List.Sorted.{IsStrictlyIncreasing};
ghost use Rattle.matching_model.specs.Certificates.{IsOddSet};

use crate::Cert;

/// Whether all sets of the certificate are odd sets of so many members.
pub(crate) fn are_odd_sets(count: u32, cert: &Cert) -> bool
    ensures yes { result ≡ true → All (IsOddSet count) cert.now.sets }
    ensures no { result ≡ false → All (IsOddSet count) cert.now.sets → ⊥ }
{
    for at in 0..cert.set_count() {
        if !is_odd_set(count, cert.members(at), cert.number(at)) {
            return false;
        }
    }
    true
}

/// Whether the members ascend below the count, are odd in number, and the set's number is above 0.
fn is_odd_set(count: u32, members: &[u32], number: i64) -> bool
    ensures yes { result ≡ true → IsOddSet count (members.now, number) }
    ensures no { result ≡ false → IsOddSet count (members.now, number) → ⊥ }
{
    if number <= 0 {
        return false;
    }
    if members.len() % 2 == 0 {
        return false;
    }
    if !are_below(members, count) {
        return false;
    }
    are_rising(members)
}

fn are_below(members: &[u32], count: u32) -> bool
    ensures yes { result ≡ true → All (λ i. i < count) members.now }
    ensures no { result ≡ false → All (λ i. i < count) members.now → ⊥ }
{
    for member in members {
        if *member >= count {
            return false;
        }
    }
    true
}

fn are_rising(members: &[u32]) -> bool
    ensures yes { result ≡ true → IsStrictlyIncreasing members.now }
    ensures no { result ≡ false → IsStrictlyIncreasing members.now → ⊥ }
{
    for at in 1..members.len() {
        if members[at - 1] >= members[at] {
            return false;
        }
    }
    true
}
