//! The conditions on the numbers alone.
ghost use Rattle.std.specs.Prelude.{◌≡◌, ◌<◌, ◌≤◌, ◌*◌, ◌≤ℤ◌, ◌<ℤ◌, ◌+ℤ◌, ℕ, pos, false, true, All, IfOk, length, slice_index_or};
ghost use Rattle.matching_model.specs.Certificates.{IsDual, IsOddSet, pair_sum};
ghost use Rattle.dist_search.specs.Tables.{IsTable, dist_of};
ghost use Rattle.dual_certificate.specs.Sums.{AreSums, held, shared, sum_limit};

use crate::Cert;
use crate::sets::are_odd_sets;
use crate::sums::{crossing_of, held_by_each, shared_with};
use dist_search::DistTable;
use std::alloc::{AllocError, Global};

/// Whether there is a number for each member, all sets are odd, and no two members' numbers and
/// those of the sets between them exceed twice their distance.
pub(crate) fn is_dual(alloc: Global, table: &DistTable, cert: &Cert) -> Result<bool, AllocError>
    ensures yes { IfOk result (λ b. b ≡ true → IsDual (length table.now.members) (dist_of table.now)
        cert.now) }
    ensures no { IfOk result (λ b. b ≡ false → IsDual (length table.now.members) (dist_of table.now)
        cert.now → ⊥) }
{
    if cert.vertex.len() != table.count() as usize {
        return Ok(false);
    }
    if !are_odd_sets(table.count(), cert) {
        return Ok(false);
    }
    are_cheap(alloc, table, cert)
}

/// Whether that holds of every two members.
fn are_cheap(alloc: Global, table: &DistTable, cert: &Cert) -> Result<bool, AllocError>
    requires count { length cert.now.vertex ≡ length table.now.members }
    requires sets { All (IsOddSet (length table.now.members)) cert.now.sets }
    ensures yes { IfOk result (λ b. b ≡ true → (i j : ℕ) → i < j → j < length table.now.members →
        pair_sum cert.now i j ≤ℤ pos (2 * dist_of table.now i j)) }
    ensures no { IfOk result (λ b. b ≡ false → ((i j : ℕ) → i < j → j < length table.now.members →
        pair_sum cert.now i j ≤ℤ pos (2 * dist_of table.now i j)) → ⊥) }
{
    let holding = held_by_each(alloc, table.count(), cert)?;
    for member in 0..table.count() {
        if !is_cheap_from(alloc, table, cert, &holding, member)? {
            return Ok(false);
        }
    }
    Ok(true)
}

/// Whether that holds of this member and each later one.
fn is_cheap_from(
    alloc: Global,
    table: &DistTable,
    cert: &Cert,
    holding: &[u128],
    i: u32,
) -> Result<bool, AllocError>
    requires count { length cert.now.vertex ≡ length table.now.members }
    requires sets { All (IsOddSet (length table.now.members)) cert.now.sets }
    requires held_are { AreSums (length table.now.members) (held cert.now.sets) holding.now }
    requires member { i < length table.now.members }
    ensures yes { IfOk result (λ b. b ≡ true → (j : ℕ) → i < j → j < length table.now.members →
        pair_sum cert.now i j ≤ℤ pos (2 * dist_of table.now i j)) }
    ensures no { IfOk result (λ b. b ≡ false → ((j : ℕ) → i < j → j < length table.now.members →
        pair_sum cert.now i j ≤ℤ pos (2 * dist_of table.now i j)) → ⊥) }
{
    let common = shared_with(alloc, table.count(), cert, i)?;
    for j in i + 1..table.count() {
        if !are_near(cert, holding, &common, (i, j), table.dist(i, j)) {
            return Ok(false);
        }
    }
    Ok(true)
}

/// Whether the numbers of two members and of the sets between them don't exceed twice the distance.
fn are_near(cert: &Cert, holding: &[u128], common: &[u128], pair: (u32, u32), dist: u32) -> bool
    requires count { length cert.now.vertex ≡ length holding.now }
    requires sets { All (IsOddSet (length holding.now)) cert.now.sets }
    requires held_are { AreSums (length holding.now) (held cert.now.sets) holding.now }
    requires shared_are { AreSums (length holding.now) (shared cert.now.sets pair.0) common.now }
    requires first { pair.0 < length holding.now }
    requires second { pair.1 < length holding.now }
    ensures yes { result ≡ true → pair_sum cert.now pair.0 pair.1 ≤ℤ pos (2 * dist) }
    ensures no { result ≡ false → pos (2 * dist) <ℤ pair_sum cert.now pair.0 pair.1 }
{
    let between = crossing_of(cert, holding, common, pair.0, pair.1);
    let one = cert.vertex[pair.0 as usize];
    let two = cert.vertex[pair.1 as usize];
    is_cheap(one, two, between, dist)
}

/// Whether two numbers and what lies between them don't exceed twice the distance.
fn is_cheap(one: i64, two: i64, between: u128, dist: u32) -> bool
    requires { between ≤ 2 * sum_limit }
    ensures yes { result ≡ true → ((one +ℤ two) +ℤ pos between) ≤ℤ pos (2 * dist) }
    ensures no { result ≡ false → pos (2 * dist) <ℤ ((one +ℤ two) +ℤ pos between) }
{
    let numbers = i128::from(one) + i128::from(two);
    let total = numbers + between as i128;
    if total > 2 * i128::from(dist) {
        return false;
    }
    true
}
