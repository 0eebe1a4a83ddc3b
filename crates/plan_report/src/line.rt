//! How the line of a plan is made.
ghost use Rattle.std.specs.Prelude.{◌≡◌, ◌<◌, ◌++◌, ◌∷◌, ◌^◌, [], false, IfOk, codes, length, map, string_bytes};
ghost use Rattle.serde_json.specs.Data.{put, string};
ghost use Rattle.serde_json.specs.View.{members_view, view};
ghost use Rattle.serde_json.specs.Written.{compact_text, has_float};
ghost use Rattle.surface_model.specs.Schedules.{CondLine};
ghost use Rattle.window_model.specs.Windows.{window_count};
ghost use Rattle.plan_report.specs.Lines.{number_data, numbers_data, op_data, op_data_at, ops_data, plan_data, plan_line, window_data, window_data_at, windows_data};

use crate::members::{numbers_value, with_member, with_number};
use crate::rows::{WindowRow, row_at};
use detector_graph::Graph;
use release_gate::Gates;
use schedule_reader::{CondItem, Name};
use serde_json::{Map, Value};
use std::alloc::{AllocError, Global};
use window_plan::Plan;

/// The line of a plan: how many detectors and edges the graph has, each conditional operation with
/// the windows that it needs and its ready round, and each window with its cell, its dependencies,
/// its last slot, and how many detectors and edges it has and how many edges it owns.
///
/// There is one line of the schedule for each operation of the gates, in order.
pub fn plan_text(
    alloc: Global,
    graph: &Graph,
    plan: &Plan,
    gates: &Gates,
    conds: &[CondItem],
) -> Result<String, AllocError>
    requires needs { length gates.now.needs ≡ length conds.now }
    requires rounds { length gates.now.rounds ≡ length conds.now }
    requires few { length conds.now < 2 ^ 32 }
    ensures { IfOk result (λ text. string_bytes text ≡
        plan_line graph.now plan.now.plan gates.now (map (λ (c : CondLine). c.label) conds.now)) }
{
    let value = plan_value(alloc, graph, plan, gates, conds)?;
    line_of(alloc, &value)
}

/// A value as one line.
fn line_of(alloc: Global, value: &Value) -> Result<String, AllocError>
    requires { has_float (view value.now) ≡ false }
    ensures { IfOk result (λ text. string_bytes text ≡ compact_text (view value.now) ++ 10 ∷ []) }
{
    let mut text = value.to_string(alloc)?;
    text.push('\n')?;
    Ok(text)
}

#[tactic(auto, unfolding(crate::specs::Lines::plan_data))]
fn plan_value(
    alloc: Global,
    graph: &Graph,
    plan: &Plan,
    gates: &Gates,
    conds: &[CondItem],
) -> Result<Value, AllocError>
    requires needs { length gates.now.needs ≡ length conds.now }
    requires rounds { length gates.now.rounds ≡ length conds.now }
    requires few { length conds.now < 2 ^ 32 }
    ensures { IfOk result (λ v. view v ≡ plan_data graph.now plan.now.plan gates.now
        (map (λ (c : CondLine). c.label) conds.now)) }
{
    let ops = ops_value(alloc, gates, conds)?;
    let listed = with_member(alloc, Map::new(alloc), "ops", ops)?;
    let sized = with_sizes(alloc, listed, graph)?;
    let whole = with_windows(alloc, sized, plan)?;
    Ok(Value::Object(whole))
}

/// The object with the numbers of a graph's detectors and edges.
fn with_sizes(
    alloc: Global,
    object: Map<String, Value>,
    graph: &Graph,
) -> Result<Map<String, Value>, AllocError>
    ensures { IfOk result (λ m. members_view m.entries ≡
        put (codes "edges") (number_data (length graph.now.edges))
        (put (codes "detectors") (number_data graph.now.vertices)
        (members_view object.entries))) }
{
    let object = with_number(alloc, object, "detectors", graph.vertices() as usize)?;
    with_number(alloc, object, "edges", graph.edges() as usize)
}

/// The object with a plan's windows.
fn with_windows(
    alloc: Global,
    object: Map<String, Value>,
    plan: &Plan,
) -> Result<Map<String, Value>, AllocError>
    ensures { IfOk result (λ m. members_view m.entries ≡
        put (codes "windows") (windows_data plan.now.plan) (members_view object.entries)) }
{
    let windows = windows_value(alloc, plan)?;
    with_member(alloc, object, "windows", windows)
}

fn ops_value(alloc: Global, gates: &Gates, conds: &[CondItem]) -> Result<Value, AllocError>
    requires needs { length gates.now.needs ≡ length conds.now }
    requires rounds { length gates.now.rounds ≡ length conds.now }
    requires few { length conds.now < 2 ^ 32 }
    ensures { IfOk result (λ v. view v ≡
        ops_data gates.now (map (λ (c : CondLine). c.label) conds.now)) }
{
    let mut rows = Vec::new(alloc);
    for at in 0..conds.len() {
        let value = op_value_at(alloc, gates, conds, at)?;
        rows.push(value)?;
    }
    Ok(Value::Array(rows))
}

fn op_value_at(
    alloc: Global,
    gates: &Gates,
    conds: &[CondItem],
    at: usize,
) -> Result<Value, AllocError>
    requires at { at < length conds.now }
    requires needs { length gates.now.needs ≡ length conds.now }
    requires rounds { length gates.now.rounds ≡ length conds.now }
    requires few { length conds.now < 2 ^ 32 }
    ensures { IfOk result (λ v. view v ≡
        op_data_at gates.now (map (λ (c : CondLine). c.label) conds.now) at) }
{
    let op = at as u32;
    let cond = &conds[at];
    op_value(alloc, &cond.label, gates.needs(op), gates.ready_round(op))
}

fn op_value(alloc: Global, label: &Name, needs: &[u32], ready: u32) -> Result<Value, AllocError>
    ensures { IfOk result (λ v. view v ≡ op_data label.now needs.now ready) }
{
    let label = label_value(alloc, label)?;
    let labelled = with_member(alloc, Map::new(alloc), "label", label)?;
    let timed = with_number(alloc, labelled, "ready", ready as usize)?;
    let whole = with_numbers(alloc, timed, "needs", needs)?;
    Ok(Value::Object(whole))
}

/// The object with a list of numbers more.
fn with_numbers(
    alloc: Global,
    object: Map<String, Value>,
    name: &str,
    numbers: &[u32],
) -> Result<Map<String, Value>, AllocError>
    ensures { IfOk result (λ m. members_view m.entries ≡
        put name.now (numbers_data numbers.now) (members_view object.entries)) }
{
    let numbers = numbers_value(alloc, numbers)?;
    with_member(alloc, object, name, numbers)
}

/// A label. Its bytes are ASCII.
fn label_value(alloc: Global, label: &Name) -> Result<Value, AllocError>
    ensures { IfOk result (λ v. view v ≡ string label.now) }
{
    let mut text = String::new(alloc);
    for byte in label.as_bytes() {
        text.push(*byte as char)?;
    }
    Ok(Value::from(text))
}

fn windows_value(alloc: Global, plan: &Plan) -> Result<Value, AllocError>
    ensures { IfOk result (λ v. view v ≡ windows_data plan.now.plan) }
{
    let mut rows = Vec::new(alloc);
    for window in 0..plan.windows() {
        let value = window_value_at(alloc, plan, window)?;
        rows.push(value)?;
    }
    Ok(Value::Array(rows))
}

fn window_value_at(alloc: Global, plan: &Plan, window: u32) -> Result<Value, AllocError>
    requires { window < window_count plan.now.plan }
    ensures { IfOk result (λ v. view v ≡ window_data_at plan.now.plan window) }
{
    let row = row_at(plan, window);
    window_value(alloc, &row, plan.deps(window))
}

fn window_value(alloc: Global, row: &WindowRow, deps: &[u32]) -> Result<Value, AllocError>
    ensures { IfOk result (λ v. view v ≡ window_data row.now deps.now) }
{
    let linked = with_numbers(alloc, Map::new(alloc), "deps", deps)?;
    let placed = with_cell(alloc, linked, row)?;
    let counted = with_counts(alloc, placed, row)?;
    let dated = with_number(alloc, counted, "last", row.last as usize)?;
    let whole = with_number(alloc, dated, "number", row.number as usize)?;
    Ok(Value::Object(whole))
}

/// The object with the place of a window's cell.
fn with_cell(
    alloc: Global,
    object: Map<String, Value>,
    row: &WindowRow,
) -> Result<Map<String, Value>, AllocError>
    ensures { IfOk result (λ m. members_view m.entries ≡
        put (codes "row") (number_data row.now.row) (put (codes "col") (number_data row.now.col)
        (put (codes "block") (number_data row.now.block) (members_view object.entries)))) }
{
    let blocked = with_number(alloc, object, "block", row.block as usize)?;
    let placed = with_number(alloc, blocked, "col", row.col as usize)?;
    with_number(alloc, placed, "row", row.row as usize)
}

/// The object with the sizes of a window.
fn with_counts(
    alloc: Global,
    object: Map<String, Value>,
    row: &WindowRow,
) -> Result<Map<String, Value>, AllocError>
    ensures { IfOk result (λ m. members_view m.entries ≡
        put (codes "owned") (number_data row.now.owned)
        (put (codes "edges") (number_data row.now.edges)
        (put (codes "detectors") (number_data row.now.detectors)
        (members_view object.entries)))) }
{
    let first = with_number(alloc, object, "detectors", row.detectors)?;
    let second = with_number(alloc, first, "edges", row.edges)?;
    with_number(alloc, second, "owned", row.owned)
}
