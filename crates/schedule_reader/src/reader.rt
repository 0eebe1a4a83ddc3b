//! A schedule read from its text.
ghost use Rattle.std.specs.Prelude.{◌≡◌, ◌&&◌, ◌≤◌, ◌<◌, ℕ, List, map, length, None, OnOk, IfOk, IfErr};
ghost use Rattle.surface_model.specs.Limits.{most_taken_bytes};
ghost use Rattle.surface_model.specs.Text.{is_rounds, text_fault};
ghost use Rattle.surface_model.specs.Parse.{schedule_of};
ghost use Rattle.schedule_reader.specs.Accepted.{IsRead};
ghost use Rattle.schedule_reader.specs.Faults.{is_reported};
ghost use Rattle.schedule_reader.specs.Known.{fault_in, is_fit, next_place, schedule_in, with_line};
ghost use Rattle.schedule_reader.specs.Lines.{line_of};
ghost use Rattle.schedule_reader.specs.Pieces.{lines_of, others};
ghost use Rattle.schedule_reader.specs.Walks.{and_taken, fault_at, is_bad_line, is_whole, judged_in};

use crate::fault::{FaultKind, ReadError, ScheduleFault};
use crate::known::{Place, Tables};
use crate::line::{LineKind, after_first, field_at, fields_of, is_foreign, is_rounds, is_skipped};
use crate::piece::cut;
use crate::schedule::Schedule;
use std::alloc::{AllocError, Global};

/// The most bytes of a text, the last line's line feed too.
const TEXT_BYTES: usize = 1_048_576;

/// Reads a schedule. Where a line is at fault, the answer is the first such line and the first of
/// its faults.
pub fn read(alloc: Global, text: &[u8]) -> Result<Schedule, ReadError>
    requires least { 1 ≤ length text.now }
    requires most { length text.now ≤ most_taken_bytes }
    ensures schedule { IfOk result (λ s. s ≡ schedule_of text.now) }
    ensures faultless { OnOk result (text_fault text.now ≡ None) }
    ensures fault { IfErr result (λ e. is_reported e (text_fault text.now)) }
{
    let whole = is_whole(text);
    let mut tables = Tables::new(alloc);
    let mut rest = text;
    let mut number = 0;
    while !rest.is_empty() {
        let parts = cut(b'\n', rest);
        number += 1;
        tables.take_line(alloc, whole, number, parts)?;
        rest = parts.1;
    }
    Ok(tables.into_schedule())
}

/// Whether the last line has its line feed and ends within the limit.
#[tactic(auto, using(crate::proofs::Walked::ends_is))]
fn is_whole(text: &[u8]) -> bool
    requires { 1 ≤ length text.now }
    ensures { result ≡ is_whole text.now }
{
    text.len() <= TEXT_BYTES && text[text.len() - 1] == b'\n'
}

#[tactic(auto, using(crate::proofs::Walked::lines_none))]
/// Whether a line has a foreign byte, or is the text's last and not `rounds`, whole.
fn is_bad_line(whole: bool, line: &[u8], after: &[u8]) -> bool
    ensures { result ≡ is_bad_line whole (lines_of after.now) line.now }
{
    is_foreign(line) || (after.is_empty() && !is_end(whole, line))
}

fn is_end(whole: bool, line: &[u8]) -> bool
    ensures { result ≡ (whole && is_rounds line.now) }
{
    whole && is_rounds(line)
}

fn bad_line(number: u32) -> ReadError
    ensures { result ≡ ReadError.Fault (record { line = number; kind = FaultKind.BadLine }) }
{
    ReadError::Fault(ScheduleFault {
        line: number,
        kind: FaultKind::BadLine,
    })
}

impl Tables {
    /// Takes the line of this number. The parts are the line and the text after it; `whole` says
    /// whether the text's last line is whole.
    fn take_line(
        &mut self,
        alloc: Global,
        whole: bool,
        number: u32,
        parts: (&[u8], &[u8]),
    ) -> Result<(), ReadError>
        ensures taken { OnOk result (self.new ≡ and_taken self.old number parts.entry.0.now) }
        ensures faultless { OnOk result
            (judged_in whole self.old (lines_of parts.entry.1.now) parts.entry.0.now ≡ None) }
        ensures fault { IfErr result (λ e. is_reported e
            (fault_at number (judged_in whole self.old (lines_of parts.entry.1.now)
            parts.entry.0.now))) }
    {
        let (line, after) = parts;
        if is_bad_line(whole, line, after) {
            return Err(bad_line(number));
        }
        if is_skipped(line) {
            return Ok(());
        }
        let fields = fields_of(alloc, line)?;
        self.take_fields(alloc, number, &fields, after)
    }

    /// Takes the line of this number with these fields.
    fn take_fields(
        &mut self,
        alloc: Global,
        number: u32,
        fields: &[&[u8]],
        after: &[u8],
    ) -> Result<(), ReadError>
        ensures taken { OnOk result (self.new
            ≡ with_line self.old (record {
              number = number;
              fields = map (λ f. f.now) fields.now;
            })) }
        ensures faultless { OnOk result (fault_in self.old (others (lines_of after.now))
            (record { number = 0; fields = map (λ f. f.now) fields.now }) ≡ None) }
        ensures fault { IfErr result (λ e. is_reported e
            (fault_at number (fault_in self.old (others (lines_of after.now)) (record {
              number = 0;
              fields = map (λ f. f.now) fields.now;
            })))) }
    {
        let Some(kind) = LineKind::of(field_at(fields, 0)) else {
            return Err(bad_line(number));
        };
        let others = after_first(fields);
        if let Some(kind) = self.fault_of(kind, others, after) {
            return Err(ReadError::Fault(ScheduleFault { line: number, kind }));
        }
        self.add(alloc, kind, number, others)?;
        Ok(())
    }

    /// Takes a line without fault.
    fn add(
        &mut self,
        alloc: Global,
        kind: LineKind,
        number: u32,
        fields: &[&[u8]],
    ) -> Result<(), AllocError>
        requires { is_fit self.old kind (map (λ f. f.now) fields.now) }
        ensures { OnOk result (self.new
            ≡ with_line self.old (line_of kind number (map (λ f. f.now) fields.now))) }
    {
        self.add_item(alloc, kind, number, fields)?;
        self.place = next_place(self.place);
        self.last_line = number;
        Ok(())
    }

    fn into_schedule(self) -> Schedule
        requires { IsRead (schedule_in self) }
        ensures { result ≡ schedule_in self }
    {
        let Tables {
            place: _,
            last_line,
            distance,
            space,
            time,
            patches,
            inits,
            merges,
            reads,
            conds,
            prepared: _,
            measured: _,
            observables: _,
        } = self;
        Schedule {
            distance,
            space,
            time,
            patches,
            inits,
            merges,
            reads,
            conds,
            rounds_line: last_line,
        }
    }
}

fn next_place(place: Place) -> Place
    ensures { result ≡ next_place place }
{
    match place {
        Place::Version => Place::Distance,
        Place::Distance => Place::Weights,
        Place::Weights | Place::Body => Place::Body,
    }
}
