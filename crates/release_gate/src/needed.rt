//! The windows that operations need.
ghost use Rattle.std.specs.Prelude.{◌≡◌, ◌<◌, ◌^◌, ◌==◌, ◌&&◌, ◌||◌, ◌++◌, ◌∷◌, ℕ, [], All, IfOk, OnOk, false, filter, length, map, slice_index_or};
ghost use Rattle.graph_model.specs.Graph.{is_in};
ghost use Rattle.graph_model.specs.Parity.{parity};
ghost use Rattle.release_gate.specs.Gated.{AreNeeded, AreTouched};
ghost use Rattle.release_gate.specs.Operations.{IsPlanOf, labels_of, timed_at};
ghost use Rattle.window_model.specs.Windows.{all_below, window_at, window_count};

use crate::OpSpec;
use detector_graph::{Bits, Graph, Labels};
use std::alloc::{AllocError, Global};
use window_plan::Plan;

/// For each operation the windows that own an edge whose mask has an odd number of its observables,
/// ascending.
///
/// Each edge is looked at once, and the operations at those edges alone that have a mask.
pub(crate) fn needed_windows(
    alloc: Global,
    graph: &Graph,
    plan: &Plan,
    ops: &[OpSpec],
) -> Result<Vec<Vec<u32>>, AllocError>
    requires plan { IsPlanOf graph.now plan.now.plan }
    requires few { length ops.now < 2 ^ 32 }
    ensures { IfOk result (λ needs. AreNeeded graph.now plan.now.plan ops.now
        (map (λ v. v.items) needs.items)) }
{
    let touched = touched_by_window(alloc, graph, plan, ops)?;
    let mut needs = Vec::with_capacity(alloc, ops.len())?;
    for at in 0..ops.len() {
        needs.push(windows_of(alloc, &touched, at as u32)?)?;
    }
    Ok(needs)
}

/// For each window which operations need it.
fn touched_by_window(
    alloc: Global,
    graph: &Graph,
    plan: &Plan,
    ops: &[OpSpec],
) -> Result<Vec<Bits>, AllocError>
    requires plan { IsPlanOf graph.now plan.now.plan }
    requires few { length ops.now < 2 ^ 32 }
    ensures each { IfOk result (λ touched. length touched.items ≡ window_count plan.now.plan) }
    ensures small { IfOk result (λ touched. length touched.items < 2 ^ 32) }
    ensures rows { IfOk result (λ touched. (w : ℕ) → w < window_count plan.now.plan →
        AreTouched graph.now (window_at plan.now.plan w).owned ops.now
        (slice_index_or touched.items w [])) }
{
    graph.is_graph();
    let mut touched = Vec::with_capacity(alloc, plan.windows() as usize)?;
    for window in 0..plan.windows() {
        touched.push(touched_by(alloc, graph, plan.owned(window), ops)?)?;
    }
    Ok(touched)
}

/// For each operation whether the mask of one of these edges has an odd number of its observables.
fn touched_by(
    alloc: Global,
    graph: &Graph,
    edges: &[u32],
    ops: &[OpSpec],
) -> Result<Bits, AllocError>
    requires edges { All (λ e. e < length graph.now.edges) edges.now }
    requires few { length ops.now < 2 ^ 32 }
    ensures { IfOk result (λ touched. AreTouched graph.now edges.now ops.now touched) }
{
    let mut touched = Bits::zeros(alloc, ops.len() as u32)?;
    for edge in edges {
        touch(&mut touched, ops, &graph.edge(*edge).mask);
    }
    Ok(touched)
}

/// Marks the operations of whose observables an odd number is in the mask.
fn touch(touched: &mut Bits, ops: &[OpSpec], mask: &Labels)
    requires { length touched.old ≡ length ops.now }
    ensures len { length touched.new ≡ length touched.old }
    ensures value { (k : ℕ) → k < length ops.now →
        slice_index_or touched.new k false ≡ slice_index_or touched.old k false
        || parity (is_in mask.now) (labels_of (timed_at ops.now k)) }
{
    if !mask.as_slice().is_empty() {
        mark_all(touched, ops, mask);
    }
}

/// Marks them, looking at every operation.
fn mark_all(touched: &mut Bits, ops: &[OpSpec], mask: &Labels)
    requires { length touched.old ≡ length ops.now }
    ensures len { length touched.new ≡ length touched.old }
    ensures value { (k : ℕ) → k < length ops.now →
        slice_index_or touched.new k false ≡ slice_index_or touched.old k false
        || parity (is_in mask.now) (labels_of (timed_at ops.now k)) }
{
    for at in 0..touched.len() {
        mark(touched, at, is_odd(&ops[at as usize], mask));
    }
}

/// Marks one operation where the test is true.
fn mark(touched: &mut Bits, at: u32, test: bool)
    requires { at < length touched.old }
    ensures len { length touched.new ≡ length touched.old }
    ensures value { (k : ℕ) → slice_index_or touched.new k false
        ≡ slice_index_or touched.old k false || ((at == k) && test) }
{
    let marked = touched.get(at) | test;
    touched.set(at, marked);
}

/// Whether an odd number of the operation's observables is in the mask.
fn is_odd(op: &OpSpec, mask: &Labels) -> bool
    ensures { result ≡ parity (is_in mask.now) (labels_of op.now) }
{
    let mut odd = false;
    for label in &op.labels {
        odd ^= mask.contains(label.0);
    }
    odd
}

/// The windows that an operation needs, ascending.
fn windows_of(alloc: Global, touched: &[Bits], op: u32) -> Result<Vec<u32>, AllocError>
    requires op { All (λ row. op < length row) touched.now }
    requires few { length touched.now < 2 ^ 32 }
    ensures { IfOk result (λ windows. windows.items
        ≡ all_below (length touched.now)
        (λ w. slice_index_or (slice_index_or touched.now w []) op false)) }
{
    let mut windows = Vec::new(alloc);
    for window in 0..touched.len() {
        push_if(&mut windows, window as u32, touched[window].get(op))?;
    }
    Ok(windows)
}

/// Adds the window where the test is true.
fn push_if(windows: &mut Vec<u32>, window: u32, test: bool) -> Result<(), AllocError>
    ensures { OnOk result (windows.new.items
        ≡ windows.old.items ++ filter (λ w. test) (window ∷ [])) }
{
    if test {
        windows.push(window)?;
    }
    Ok(())
}
