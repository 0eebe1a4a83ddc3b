//! What a line says.
//!
//! - `graph NAME`: another graph, of no detectors yet;
//! - `detectors COUNT SLOT ROW COL`: so many detectors of a slot at a tile;
//! - `slots COUNT`: at tile (0,0) a detector for each slot from 0 on, of so many slots;
//! - `edge A` and `edge A B`: an edge from a detector to the open boundary or to another detector;
//! - `pairs`: an edge between every two of the detectors, and one at each to the open boundary;
//! - `sizes COMMIT BUFFER`: how many windows and dependencies the graph's plan has, in blocks of
//!   `COMMIT` slots and with walks of at most `BUFFER` edges, or why it has none;
//! - `windows COMMIT BUFFER`: that, and then what each window holds, and for each of its
//!   dependencies the places of the two;
//! - `parallel COMMIT BUFFER`: what `windows` says, of the graph's parallel plan.
//!
//! An empty line and one that begins with `#` say nothing.

use crate::refusal::Refusal;
use case_lines::{Fault, Flaw, is_skipped, number_of, words_of};
use detector_graph::Tag;
use std::alloc::Global;
use window_plan::PlanKind;

/// How a plan is cut: the order of its cells, slots in a block, and edges of a walk.
#[derive(Clone, Copy)]
pub(crate) struct Cut {
    pub(crate) kind: PlanKind,
    pub(crate) commit: u32,
    pub(crate) buffer: u32,
}

/// What a line says, but for `graph NAME`.
#[derive(Clone, Copy)]
pub(crate) enum Order {
    Nothing,
    Detectors(u32, Tag),
    Slots(u32),
    Edge(u32, Option<u32>),
    Pairs,
    Sizes(Cut),
    Windows(Cut),
}

/// What the line says.
pub(crate) fn order_of(alloc: Global, line: &str) -> Result<Order, Fault<Refusal>> {
    if is_skipped(line) {
        return Ok(Order::Nothing);
    }
    let words = words_of(alloc, line)?;
    order_in(&words)
}

fn order_in(words: &[&str]) -> Result<Order, Fault<Refusal>> {
    match words {
        ["pairs"] => Ok(Order::Pairs),
        ["slots", count] => Ok(Order::Slots(number_of(count)?)),
        ["edge", first] => Ok(Order::Edge(number_of(first)?, None)),
        ["edge", first, second] => Ok(Order::Edge(number_of(first)?, Some(number_of(second)?))),
        ["sizes", commit, buffer] => Ok(Order::Sizes(cut_of(PlanKind::Sliding, commit, buffer)?)),
        ["windows", commit, buffer] => {
            Ok(Order::Windows(cut_of(PlanKind::Sliding, commit, buffer)?))
        }
        ["parallel", commit, buffer] => {
            Ok(Order::Windows(cut_of(PlanKind::Parallel, commit, buffer)?))
        }
        ["detectors", count, slot, row, col] => {
            Ok(Order::Detectors(number_of(count)?, tag_of(slot, row, col)?))
        }
        _ => Err(Fault::Malformed(Flaw::UnknownLine)),
    }
}

fn cut_of(kind: PlanKind, commit: &str, buffer: &str) -> Result<Cut, Fault<Refusal>> {
    Ok(Cut {
        kind,
        commit: number_of(commit)?,
        buffer: number_of(buffer)?,
    })
}

fn tag_of(slot: &str, row: &str, col: &str) -> Result<Tag, Fault<Refusal>> {
    Ok(Tag {
        slot: number_of(slot)?,
        tile_row: number_of(row)?,
        tile_col: number_of(col)?,
    })
}
