//! The slots of a schedule's lines.
ghost use Rattle.std.specs.Prelude.{◌≡◌, ◌≤◌, ◌<◌, length, map, slice_index_or, IfOk};
ghost use Rattle.surface_model.specs.Schedules.{ReadLine};
ghost use Rattle.surface_model.specs.Layout.{read_slot, split_slot};
ghost use Rattle.surface_model.specs.Accepted.{IsInRange};
ghost use Rattle.surface_model.specs.Limits.{last_split, most_labels, most_patches};
ghost use Rattle.timetable.specs.Spans.{AreReadings, life_span, merge_span, no_span, spans_of};

use crate::span::{Span, single};
use detector_graph::Rows;
use patch_layout::{init_line, merge_line, read_line};
use schedule_reader::{InitItem, MergeItem, Schedule};
use std::alloc::{AllocError, Global};

/// Of which lines the slots are asked, and which of their slots.
#[derive(Clone, Copy)]
pub(crate) enum SpanKind {
    /// The slot of a preparation.
    Inits,
    /// The slot of a reading.
    Reads,
    /// The slot in which a merge begins.
    Starts,
    /// The slot in which a merge is split.
    Splits,
    /// The slots in which a patch lives, by its preparation.
    Lives,
    /// The slots in which a merge is active.
    Merges,
}

/// The patch of each reading.
fn read_patches(alloc: Global, schedule: &Schedule) -> Result<Vec<u32>, AllocError>
    ensures { IfOk result (λ v. v.items
        ≡ map (λ (line : ReadLine). line.patch) schedule.now.reads) }
{
    let mut patches = Vec::with_capacity(alloc, schedule.reads.len())?;
    for read in &schedule.reads {
        patches.push(read.patch)?;
    }
    Ok(patches)
}

fn patch_count(schedule: &Schedule) -> u32
    requires { length schedule.now.patches ≤ most_patches }
    ensures { result ≡ length schedule.now.patches }
{
    schedule.patches.len() as u32
}

/// The readings of each patch, by their numbers.
pub(crate) fn readings(alloc: Global, schedule: &Schedule) -> Result<Rows, AllocError>
    requires ranges { IsInRange schedule.now }
    requires few { length schedule.now.patches ≤ most_patches }
    ensures { IfOk result (λ r. AreReadings schedule.now r.rows) }
{
    let patches = read_patches(alloc, schedule)?;
    let rows = Rows::grouped(alloc, &patches, patch_count(schedule))?;
    Ok(rows)
}

/// The slot in which a patch is read.
fn read_slot(schedule: &Schedule, readings: &Rows, patch: u32) -> u32
    requires patch { patch < length schedule.now.patches }
    requires readings { AreReadings schedule.now readings.now.rows }
    ensures { result ≡ read_slot schedule.now patch }
{
    let numbers = readings.row(patch);
    if numbers.is_empty() {
        return 0;
    }
    read_line(schedule, numbers[0]).slot
}

/// The slots in which a patch lives, by its preparation.
fn life_span(schedule: &Schedule, readings: &Rows, init: &InitItem) -> Span
    requires patch { init.now.patch < length schedule.now.patches }
    requires readings { AreReadings schedule.now readings.now.rows }
    ensures { result ≡ life_span schedule.now init.now }
{
    Span {
        start: init.slot,
        end: read_slot(schedule, readings, init.patch),
    }
}

/// The slots in which a merge is active.
fn merge_span(merge: &MergeItem) -> Span
    requires { split_slot merge.now ≤ last_split }
    ensures { result ≡ merge_span merge.now }
{
    Span {
        start: merge.slot,
        end: merge.split_slot() as u32,
    }
}

/// How many spans there are of a kind.
pub(crate) fn count_of(schedule: &Schedule, kind: SpanKind) -> u32
    requires ranges { IsInRange schedule.now }
    requires patches { length schedule.now.patches ≤ most_patches }
    ensures count { result ≡ length (spans_of schedule.now kind) }
    ensures few { result ≤ most_labels }
{
    length_of(schedule, kind) as u32
}

fn length_of(schedule: &Schedule, kind: SpanKind) -> usize
    ensures { result ≡ length (spans_of schedule.now kind) }
{
    match kind {
        SpanKind::Inits | SpanKind::Lives => schedule.inits.len(),
        SpanKind::Reads => schedule.reads.len(),
        SpanKind::Starts | SpanKind::Splits | SpanKind::Merges => schedule.merges.len(),
    }
}

/// The span of this number of a kind.
pub(crate) fn span_of(schedule: &Schedule, readings: &Rows, kind: SpanKind, number: u32) -> Span
    requires ranges { IsInRange schedule.now }
    requires readings { AreReadings schedule.now readings.now.rows }
    requires number { number < length (spans_of schedule.now kind) }
    ensures { result ≡ slice_index_or (spans_of schedule.now kind) number no_span }
{
    match kind {
        SpanKind::Inits => single(init_line(schedule, number).slot),
        SpanKind::Reads => single(read_line(schedule, number).slot),
        SpanKind::Starts => single(merge_line(schedule, number).slot),
        SpanKind::Splits => single(merge_line(schedule, number).split_slot() as u32),
        SpanKind::Lives => life_span(schedule, readings, init_line(schedule, number)),
        SpanKind::Merges => merge_span(merge_line(schedule, number)),
    }
}
