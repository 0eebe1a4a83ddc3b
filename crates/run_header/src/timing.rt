//! When what a program measures arrives, and what its conditions wait for.
ghost use Rattle.std.specs.Prelude.{◌≡◌, ◌≢◌, ◌<◌, ◌≤◌, [], All, IfErr, IfOk, length, map, slice_index, slice_index_or};
ghost use Rattle.graph_model.specs.Graph.{IsGraph};
ghost use Rattle.measure_map.specs.Placed.{map_of};
ghost use Rattle.release_gate.specs.Gated.{AreGates, IsOfMany};
ghost use Rattle.release_gate.specs.Operations.{IsPlanOf, IsTaskOf};
ghost use Rattle.report_model.specs.Tasks.{labels_of};
ghost use Rattle.run_header.specs.Timings.{IsHeldUp, of_gating, raws_of, timed_conds, timed_of};
ghost use Rattle.surface_model.specs.Accepted.{IsAccepted};
ghost use Rattle.surface_model.specs.Layout.{last_slot};
ghost use Rattle.surface_model.specs.Schedules.{CondLine};
ghost use Rattle.window_model.specs.Decoder.{Task};

use crate::{OpeningError, Refusal};
use detector_graph::Graph;
use measure_map::MeasureMap;
use release_gate::{GateError, OpSpec, gates};
use schedule_reader::{CondItem, Name, Schedule};
use schedule_rules::Program;
use std::alloc::{AllocError, Global};
use window_plan::Plan;
use window_setting::Timing;

/// The slots of a program's raw values, its conditions, and what they wait for under a plan of its
/// graph. Refused is the first condition whose ready round isn't below its slot.
pub(crate) fn timing(
    alloc: Global,
    program: &Program,
    measured: &MeasureMap,
    graph: &Graph,
    plan: &Plan,
) -> Result<Timing, OpeningError>
    requires accepted { IsAccepted program.now }
    requires measured { measured.now ≡ map_of program.now }
    requires plan { IsPlanOf graph.now plan.now.plan }
    ensures raws { IfOk result (λ t. t.raws.items ≡ raws_of program.now) }
    ensures ops { IfOk result (λ t. t.ops.items ≡ timed_conds program.now) }
    ensures last { IfOk result (λ t. t.last_slot ≡ last_slot program.now) }
    ensures gates { IfOk result (λ t. (task : Task) →
        IsTaskOf graph.now plan.now.plan (timed_conds program.now) task → AreGates task t.gates) }
    ensures refused { IfErr result (λ error. (task : Task) →
        IsTaskOf graph.now plan.now.plan (timed_conds program.now) task →
        IsHeldUp program.now task error) }
{
    let schedule = program.schedule();
    schedule.is_read();
    let raws = raw_slots(alloc, measured)?;
    let ops = operations(alloc, &schedule.conds, &raws)?;
    match gates(alloc, graph, plan, &ops) {
        Ok(gates) => Ok(Timing {
            raws,
            ops,
            gates,
            last_slot: program.last_slot(),
        }),
        Err(error) => Err(held_up(schedule, error)),
    }
}

/// What is reported where there are no gates.
fn held_up(schedule: &Schedule, error: GateError) -> OpeningError
    requires { IsOfMany (length schedule.now.conds) error }
    ensures { result ≡ of_gating (labels_of schedule.now) error }
{
    match error {
        GateError::TooEarly { op, ready_round } => OpeningError::Refused(Refusal::TooEarly {
            label: label_of(schedule, op),
            ready: ready_round,
        }),
        GateError::Memory => OpeningError::Memory,
    }
}

/// The label of a condition.
fn label_of(schedule: &Schedule, op: u32) -> Name
    requires { op < length schedule.now.conds }
    ensures { result ≡ slice_index_or (labels_of schedule.now) op [] }
{
    let cond = &schedule.conds[op as usize];
    copy_of(&cond.label)
}

/// The same name again.
fn copy_of(name: &Name) -> Name
    ensures { result ≡ name.now }
{
    match Name::new(name.as_bytes()) {
        Some(copy) => copy,
        None => unreachable!(),
    }
}

/// The slots of the observables' raw values.
fn raw_slots(alloc: Global, measured: &MeasureMap) -> Result<Vec<u32>, AllocError>
    ensures { IfOk result (λ slots. slots.items ≡ map (λ o. o.slot) measured.now.observables) }
{
    measured.observables().iter().map(|o| o.slot).collect(alloc)
}

/// The conditions, where the raw values have these slots.
fn operations(alloc: Global, conds: &[CondItem], raws: &[u32]) -> Result<Vec<OpSpec>, AllocError>
    requires { All (λ (c : CondLine). All (λ l. l < length raws.now) c.labels) conds.now }
    ensures { IfOk result (λ ops. ops.items ≡ map (timed_of raws.now) conds.now) }
{
    let mut ops = Vec::with_capacity(alloc, conds.len())?;
    for cond in conds {
        ops.push(operation(alloc, cond, raws)?)?;
    }
    Ok(ops)
}

/// One condition.
fn operation(alloc: Global, cond: &CondItem, raws: &[u32]) -> Result<OpSpec, AllocError>
    requires { All (λ l. l < length raws.now) cond.now.labels }
    ensures { IfOk result (λ op. op ≡ timed_of raws.now cond.now) }
{
    let labels = timed_labels(alloc, cond.labels.as_slice(), raws)?;
    Ok(OpSpec {
        slot: cond.slot,
        labels,
    })
}

/// Observables, each with the slot of its raw value.
fn timed_labels(alloc: Global, labels: &[u16], raws: &[u32]) -> Result<Vec<(u16, u32)>, AllocError>
    requires { All (λ l. l < length raws.now) labels.now }
    ensures { IfOk result (λ timed. timed.items
        ≡ map (λ l. (l, slice_index raws.now l)) labels.now) }
{
    let mut timed = Vec::with_capacity(alloc, labels.len())?;
    for label in labels {
        timed.push((*label, raws[*label as usize]))?;
    }
    Ok(timed)
}
