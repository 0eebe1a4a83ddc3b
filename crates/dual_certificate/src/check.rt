//! The check of a certificate.
ghost use Rattle.std.specs.Prelude.{◌≡◌, ◌<◌, ◌≤ℤ◌, ◌<ℤ◌, ◌*◌, ◌^◌, ℕ, ℤ, List, pos, neg_ℤ, false, true, IfOk, sum_by};
ghost use Rattle.graph_model.specs.Problems.{Solves, problem_weight};
ghost use Rattle.matching_model.specs.Certificates.{whole_sum};
ghost use Rattle.matching_model.specs.Certified.{IsCertified};
ghost use Rattle.matching_model.specs.Sums.{int_sum_by};
ghost use Rattle.dist_search.specs.Tables.{IsTableOf};

use crate::Cert;
use crate::correction::{is_correction, weight_of};
use crate::duals::is_dual;
use detector_graph::{EdgeSet, Problem};
use dist_search::{DistTable, distances};
use std::alloc::{AllocError, Global};

/// Whether the certificate shows that the set is a least correction: a `true` answer comes exactly
/// where it fits the problem and the set.
pub fn accepts(
    alloc: Global,
    problem: &Problem,
    set: &EdgeSet,
    cert: &Cert,
) -> Result<bool, AllocError>
    ensures fits { IfOk result (λ b. b ≡ true → IsCertified problem.now set.now cert.now) }
    ensures fails { IfOk result (λ b. b ≡ false → IsCertified problem.now set.now cert.now → ⊥) }
    ensures least { IfOk result (λ b. b ≡ true → Solves problem.now set.now) }
{
    let table = distances(alloc, problem)?;
    accepts_with(alloc, &table, problem, set, cert)
}

/// The same, where the problem's distances are at hand.
pub fn accepts_with(
    alloc: Global,
    table: &DistTable,
    problem: &Problem,
    set: &EdgeSet,
    cert: &Cert,
) -> Result<bool, AllocError>
    requires { IsTableOf problem.now table.now }
    ensures fits { IfOk result (λ b. b ≡ true → IsCertified problem.now set.now cert.now) }
    ensures fails { IfOk result (λ b. b ≡ false → IsCertified problem.now set.now cert.now → ⊥) }
    ensures least { IfOk result (λ b. b ≡ true → Solves problem.now set.now) }
{
    problem.is_problem();
    if !is_tight(problem, set, cert) {
        return Ok(false);
    }
    let corrects = is_correction(alloc, problem, set)?;
    if !corrects {
        return Ok(false);
    }
    is_dual(alloc, table, cert)
}

/// Whether the sum of all numbers is twice the weight of the set.
fn is_tight(problem: &Problem, set: &EdgeSet, cert: &Cert) -> bool
    ensures yes { result ≡ true → whole_sum cert.now
        ≡ pos (2 * sum_by (problem_weight problem.now) set.now) }
    ensures no { result ≡ false → whole_sum cert.now
        ≡ pos (2 * sum_by (problem_weight problem.now) set.now) → ⊥ }
{
    vertex_sum(&cert.vertex) + set_sum(cert) == 2 * weight_of(problem, set) as i128
}

/// All numbers of vertices, added up.
fn vertex_sum(numbers: &Vec<i64>) -> i128
    ensures value { result ≡ int_sum_by (λ z. z) numbers.now.items }
    ensures high { result <ℤ pos (2 ^ 126) }
    ensures low { neg_ℤ (pos (2 ^ 126)) ≤ℤ result }
{
    let mut total = 0;
    for number in numbers {
        total += i128::from(*number);
    }
    total
}

/// All numbers of sets, added up.
fn set_sum(cert: &Cert) -> i128
    ensures value { result ≡ int_sum_by (λ (s : List ℕ × ℤ). s.1) cert.now.sets }
    ensures high { result <ℤ pos (2 ^ 126) }
    ensures low { neg_ℤ (pos (2 ^ 126)) ≤ℤ result }
{
    let mut total = 0;
    for at in 0..cert.set_count() {
        total += i128::from(cert.number(at));
    }
    total
}
