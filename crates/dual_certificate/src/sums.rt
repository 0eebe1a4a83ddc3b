//! Sums of the numbers of the sets that hold a member, or two.
ghost use Rattle.std.specs.Prelude.{◌≡◌, ◌<◌, ◌≤◌, ◌+◌, ◌-◌, ◌*◌, ◌^◌, ◌&&◌, ℕ, All, IfOk, cond, length, slice_index};
ghost use Rattle.std.specs.List.Sorted.{IsStrictlyIncreasing};
ghost use Rattle.graph_model.specs.Graph.{is_in};
ghost use Rattle.matching_model.specs.Certificates.{IsOddSet};
ghost use Rattle.dual_certificate.specs.Sums.{AreSums, crossing, held, shared, sum_limit};

use crate::Cert;
use std::alloc::{AllocError, Global};

/// For each member the numbers of the sets that hold it, added up.
pub(crate) fn held_by_each(alloc: Global, count: u32, cert: &Cert) -> Result<Vec<u128>, AllocError>
    requires { All (IsOddSet count) cert.now.sets }
    ensures { IfOk result (λ sums. AreSums count (held cert.now.sets) sums.items) }
{
    let mut sums = vec![in alloc; 0; count as usize]?;
    for at in 0..cert.set_count() {
        add_at(&mut sums, cert.members(at), cert.number(at).unsigned_abs());
    }
    Ok(sums)
}

/// For each member the numbers of the sets that hold it and this one, added up.
pub(crate) fn shared_with(
    alloc: Global,
    count: u32,
    cert: &Cert,
    member: u32,
) -> Result<Vec<u128>, AllocError>
    requires { All (IsOddSet count) cert.now.sets }
    ensures { IfOk result (λ sums. AreSums count (shared cert.now.sets member) sums.items) }
{
    let mut sums = vec![in alloc; 0; count as usize]?;
    for at in 0..cert.set_count() {
        add_where(
            &mut sums,
            cert.members(at),
            cert.number(at).unsigned_abs(),
            member,
        );
    }
    Ok(sums)
}

/// Adds a set's number at each of its members, where this one is among them.
fn add_where(sums: &mut Vec<u128>, members: &[u32], number: u64, member: u32)
    requires rising { IsStrictlyIncreasing members.now }
    requires within { All (λ i. i < length sums.old.items) members.now }
    requires low { (j : ℕ) → slice_index sums.old.items j ≤ sum_limit }
    ensures count { length sums.new.items ≡ length sums.old.items }
    ensures value { (j : ℕ) → slice_index sums.new.items j
        ≡ slice_index sums.old.items j + cond (is_in members.now member && is_in members.now j)
        number 0 }
{
    if holds(members, member) {
        add_at(sums, members, number);
    }
}

/// Whether a set holds the member: a binary search.
fn holds(members: &[u32], member: u32) -> bool
    requires { IsStrictlyIncreasing members.now }
    ensures { result ≡ is_in members.now member }
{
    members.binary_search(&member).is_ok()
}

/// Adds a set's number at each of its members.
fn add_at(sums: &mut Vec<u128>, members: &[u32], number: u64)
    requires rising { IsStrictlyIncreasing members.now }
    requires within { All (λ i. i < length sums.old.items) members.now }
    requires low { (j : ℕ) → slice_index sums.old.items j ≤ sum_limit }
    ensures count { length sums.new.items ≡ length sums.old.items }
    ensures value { (j : ℕ) → slice_index sums.new.items j
        ≡ slice_index sums.old.items j + cond (is_in members.now j) number 0 }
{
    for member in members {
        sums[*member as usize] += u128::from(number);
    }
}

/// The numbers of the sets that hold just one of two members, added up.
pub(crate) fn crossing_of(cert: &Cert, holding: &[u128], common: &[u128], i: u32, j: u32) -> u128
    requires held_are { AreSums (length holding.now) (held cert.now.sets) holding.now }
    requires shared_are { AreSums (length holding.now) (shared cert.now.sets i) common.now }
    requires first { i < length holding.now }
    requires second { j < length holding.now }
    ensures value { result ≡ crossing cert.now.sets i j }
    ensures low { result ≤ 2 * sum_limit }
{
    let _ = &cert.sets;
    holding[i as usize] + holding[j as usize] - 2 * common[j as usize]
}
