//! How the gates of operations are found.
ghost use Rattle.std.specs.Prelude.{◌≡◌, ◌≢◌, ◌<◌, ◌^◌, [], All, IfErr, IfOk, length};
ghost use Rattle.release_gate.specs.Gated.{AreGates, IsOfMany, IsRefusal};
ghost use Rattle.release_gate.specs.Operations.{IsPlanOf, IsTaskOf, TimedOperation};
ghost use Rattle.window_model.specs.Decoder.{Task};

use crate::needed::needed_windows;
use crate::rounds::{first_early, rounds_of};
use crate::{GateError, Gates, OpSpec, ready_slots};
use detector_graph::Graph;
use std::alloc::Global;
use window_model::{computed_round, one_round, planned};
use window_plan::Plan;

/// What each of the operations waits for, in every task with this graph, plan and operations whose
/// raw values have these slots. The plan has to be made of this graph, and each operation has an
/// observable.
///
/// Refused is the first operation whose ready round isn't below its slot. It costs time in
/// proportion to the edges, the dependencies, and for each edge with a mask the operations'
/// observables.
pub fn gates(alloc: Global, graph: &Graph, plan: &Plan, ops: &[OpSpec]) -> Result<Gates, GateError>
    requires plan { IsPlanOf graph.now plan.now.plan }
    requires named { All (λ (op : TimedOperation). op.labels ≢ []) ops.now }
    requires few { length ops.now < 2 ^ 32 }
    ensures ok { IfOk result (λ gates. (task : Task) →
        IsTaskOf graph.now plan.now.plan ops.now task → AreGates task gates) }
    ensures each { IfOk result (λ gates. (length gates.needs ≡ length ops.now)
        × (length gates.rounds ≡ length ops.now)) }
    ensures one { IfErr result (IsOfMany (length ops.now)) }
    ensures err { IfErr result (λ error. (task : Task) →
        IsTaskOf graph.now plan.now.plan ops.now task → IsRefusal error task) }
{
    graph.is_graph();
    planned();
    computed_round();
    one_round();
    let slots = ready_slots(alloc, plan)?;
    let needs = needed_windows(alloc, graph, plan, ops)?;
    let rounds = rounds_of(alloc, ops, &needs, &slots)?;
    match first_early(ops, &rounds) {
        Some(op) => Err(GateError::TooEarly {
            op,
            ready_round: rounds[op as usize],
        }),
        None => Ok(Gates { needs, rounds }),
    }
}
