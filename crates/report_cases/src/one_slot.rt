//! A core of no detectors and two observables, whose one slot is the last.
ghost use Rattle.std.specs.Prelude.{◌≡◌, ◌<◌, ◌∷◌, [], IfOk, length};
ghost use Rattle.boundary_fold.specs.Folds.{IsPlanFor};
ghost use Rattle.core_state.specs.States.{machine_of};
ghost use Rattle.release_gate.specs.Gated.{AreGates};
ghost use Rattle.release_gate.specs.Operations.{IsTaskOf};
ghost use Rattle.window_model.specs.Decoder.{Task};
ghost use Rattle.window_model.specs.Grounded.{IsGrounded};

use crate::failure::Failure;
use boundary_fold::parts;
use core_state::CoreState;
use detector_graph::{Bits, Folded, Graph};
use measure_map::Observable;
use release_gate::gates;
use schedule_reader::Name;
use std::alloc::{AllocError, Global};
use window_plan::{Plan, PlanKind, plan};
use window_setting::{Setting, Timing};

/// A graph of no detectors, with its plan.
fn planned(alloc: Global) -> Result<(Graph, Plan), Failure>
    ensures plan { IfOk result (λ r. IsPlanFor r.0 [] r.1) }
    ensures grounded { IfOk result (λ r. IsGrounded r.0 []) }
    ensures edges { IfOk result (λ r. r.0.edges ≡ []) }
{
    let graph = empty(alloc)?;
    match plan(alloc, &graph, &[], PlanKind::Sliding, 1, 1) {
        Ok(plan) => Ok((graph, plan)),
        Err(_) => Err(Failure::Plan),
    }
}

fn empty(alloc: Global) -> Result<Graph, AllocError>
    ensures { IfOk result (λ g. g ≡ record { vertices = 0; edges = [] }) }
{
    Graph::build(alloc, 0, Vec::new(alloc))
}

/// Two observables of slot 0, which is the last.
fn timing(alloc: Global, graph: &Graph, plan: &Plan) -> Result<Timing, Failure>
    requires { IsPlanFor graph.now [] plan.now }
    ensures raws { IfOk result (λ t. t.raws.items ≡ 0 ∷ 0 ∷ []) }
    ensures ops { IfOk result (λ t. t.ops.items ≡ []) }
    ensures last { IfOk result (λ t. t.last_slot ≡ 0) }
    ensures gates { IfOk result (λ t. (task : Task) →
        IsTaskOf graph.now plan.now.plan t.ops.items task → AreGates task t.gates) }
{
    let raws = vec![in alloc; 0, 0]?;
    let ops = Vec::new(alloc);
    match gates(alloc, graph, plan, &ops) {
        Ok(gates) => Ok(Timing {
            raws,
            ops,
            gates,
            last_slot: 0,
        }),
        Err(_) => Err(Failure::Plan),
    }
}

/// A core of which nothing has happened.
pub(crate) fn started(alloc: Global) -> Result<CoreState, Failure>
    ensures journal { IfOk result (λ c. c.journal ≡ []) }
    ensures tags { IfOk result (λ c. c.task.tags ≡ []) }
    ensures ops { IfOk result (λ c. c.task.operations ≡ []) }
    ensures raws { IfOk result (λ c. c.task.raw_slots ≡ 0 ∷ 0 ∷ []) }
    ensures last { IfOk result (λ c. c.task.last_slot ≡ 0) }
{
    let (graph, plan) = planned(alloc)?;
    let parts = parts(alloc, &graph, &plan)?;
    let timing = timing(alloc, &graph, &plan)?;
    let setting = Setting::new(graph, Vec::new(alloc), plan, parts, timing);
    Ok(CoreState::start(alloc, setting, 1)?)
}

/// The one slot, with the raw values 0 and 1.
fn slot(alloc: Global) -> Result<Folded, AllocError>
    ensures slot { IfOk result (λ f. f.slot ≡ 0) }
    ensures defects { IfOk result (λ f. f.defects ≡ []) }
    ensures raws { IfOk result (λ f. length f.raws ≡ 2) }
{
    let defects = Bits::zeros(alloc, 0)?;
    let mut raws = Bits::zeros(alloc, 2)?;
    raws.set(1, true);
    Ok(Folded {
        slot: 0,
        defects,
        raws,
    })
}

/// The core, where its slot has arrived.
pub(crate) fn arrived(alloc: Global) -> Result<CoreState, Failure>
    ensures journal { IfOk result (λ c. length c.journal ≡ 1) }
    ensures raws { IfOk result (λ c. length c.task.raw_slots ≡ 2) }
    ensures arrived { IfOk result (λ c. c.task.last_slot < (machine_of c).arrived) }
{
    let mut core = started(alloc)?;
    let slot = slot(alloc)?;
    core.arrive(&slot);
    Ok(core)
}

/// The seam of a merge, and a patch that is read.
pub(crate) fn observables(alloc: Global) -> Result<Vec<Observable>, Failure>
    ensures { IfOk result (λ o. length o.items ≡ 2) }
{
    let mut observables = Vec::new(alloc);
    observables.push(observable(alloc, b"m", true)?)?;
    observables.push(observable(alloc, b"ra", false)?)?;
    Ok(observables)
}

/// An observable of slot 0.
fn observable(alloc: Global, label: &[u8], seam: bool) -> Result<Observable, Failure> {
    Ok(Observable {
        name: Name::new(label).ok_or(Failure::Name)?,
        seam,
        slot: 0,
        places: Vec::new(alloc),
    })
}
