//! Graphs read and answered line by line.
ghost use Rattle.std.specs.Prelude.{◌≡◌, ◌≤◌, IfErr, IfOk, length};
ghost use Rattle.window_plan.specs.Kinds.{order_of};
ghost use Rattle.window_plan.specs.Placed.{IsPlacedPlan, IsRefusal};

use crate::draft::Draft;
use crate::orders::{Cut, Order, order_of};
use crate::refusal::Refusal;
use crate::report::{add_refusal, add_sizes, add_windows};
use case_lines::{Answers, Fault};
use detector_graph::{Graph, Tag};
use std::alloc::{AllocError, Global};
use window_plan::{Plan, PlanError, plan};

/// The graph so far.
#[derive(Drop)]
pub(crate) struct GraphReader {
    draft: Draft,
}

impl GraphReader {
    pub(crate) fn new(alloc: Global) -> GraphReader {
        GraphReader {
            draft: Draft::new(alloc),
        }
    }
}

impl Answers for GraphReader {
    type Refusal = Refusal;

    fn take(&mut self, alloc: Global, line: &str) -> Result<String, Fault<Refusal>> {
        let mut text = String::new(alloc);
        if let Some(("graph", name)) = line.split_once(' ') {
            self.draft.clear();
            writeln!(text, "graph {name}")?;
            return Ok(text);
        }
        answer(alloc, &mut text, &mut self.draft, order_of(alloc, line)?)?;
        Ok(text)
    }

    fn end(&mut self, alloc: Global) -> Result<String, Fault<Refusal>> {
        Ok(String::new(alloc))
    }
}

fn answer(
    alloc: Global,
    text: &mut String,
    draft: &mut Draft,
    order: Order,
) -> Result<(), Fault<Refusal>> {
    match order {
        Order::Nothing => {}
        Order::Detectors(count, tag) => draft.add_detectors(count, tag)?,
        Order::Slots(count) => draft.add_slots(count)?,
        Order::Edge(first, second) => draft.add_edge(first, second)?,
        Order::Pairs => draft.add_pairs()?,
        Order::Sizes(cut) => add_plan(alloc, text, draft, cut, false)?,
        Order::Windows(cut) => add_plan(alloc, text, draft, cut, true)?,
    }
    Ok(())
}

/// Writes the graph's plan, with what its windows hold where that is asked.
fn add_plan(
    alloc: Global,
    text: &mut String,
    draft: &Draft,
    cut: Cut,
    all: bool,
) -> Result<(), Fault<Refusal>> {
    if cut.commit == 0 {
        return Err(Fault::Refused(Refusal::NoCommit));
    }
    match plan_of(alloc, draft, cut)? {
        Ok(plan) => {
            let added = add_made(text, &plan, all);
            drop(plan);
            added?;
        }
        Err(error) => add_refusal(text, error)?,
    }
    Ok(())
}

/// The plan of the graph, or the limit that it passes.
fn plan_of(
    alloc: Global,
    draft: &Draft,
    cut: Cut,
) -> Result<Result<Plan, PlanError>, Fault<Refusal>>
    requires { 1 ≤ cut.commit }
{
    let graph = draft.graph(alloc)?;
    let made = cut_plan(alloc, &graph, draft.tags(), cut);
    drop(graph);
    Ok(made)
}

/// The plan of a graph, as the cut says.
fn cut_plan(alloc: Global, graph: &Graph, tags: &[Tag], cut: Cut) -> Result<Plan, PlanError>
    requires tags { length tags.now ≡ graph.now.vertices }
    requires commit { 1 ≤ cut.commit }
    ensures ok { IfOk result (λ p. IsPlacedPlan graph.now tags.now (order_of cut.kind) cut.commit
        cut.buffer p) }
    ensures err { IfErr result (λ e. IsRefusal graph.now tags.now (order_of cut.kind) cut.commit
        cut.buffer e) }
{
    plan(alloc, graph, tags, cut.kind, cut.commit, cut.buffer)
}

fn add_made(text: &mut String, plan: &Plan, all: bool) -> Result<(), AllocError> {
    add_sizes(text, plan)?;
    if all {
        add_windows(text, plan)?;
    }
    Ok(())
}
