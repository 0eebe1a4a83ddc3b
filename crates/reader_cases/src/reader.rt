//! Texts read and answered line by line.
ghost use Rattle.std.specs.Prelude.{◌≡◌, IfErr, IfOk, None, OnOk, Some, option_map};
ghost use Rattle.surface_model.specs.Parse.{schedule_of};
ghost use Rattle.surface_model.specs.Text.{text_fault};
ghost use Rattle.schedule_reader.specs.Faults.{reported};

use crate::draft::{Change, Draft};
use crate::items::add_items;
use crate::orders::{Judge, Order, order_of};
use crate::slots::add_slots;
use case_lines::{Answers, Fault, Flaw, bytes_of, is_skipped, long_number_of, word_of};
use schedule_reader::{ReadError, Schedule, ScheduleFault, read};
use schedule_rules::{RuleError, check};
use std::alloc::Global;
use timetable::Timetable;

/// The most bytes of a text that is read.
const TAKEN_BYTES: usize = 1_048_577;

/// Why a line isn't answered.
#[derive(Clone, Copy, Debug)]
pub(crate) enum Refusal {
    /// A text without a byte, or of more than are ever read.
    TextSize,
    /// The text has no line of this number.
    NoLine,
    /// A line of the text is at fault, and so it has no items and breaks no rule.
    LineAtFault,
    /// The text's schedule breaks a rule, and so has no timetable.
    BrokenRule,
}

/// The text so far.
#[derive(Drop)]
pub(crate) struct TextReader {
    draft: Draft,
}

impl TextReader {
    pub(crate) fn new(alloc: Global) -> TextReader {
        TextReader {
            draft: Draft::new(alloc),
        }
    }

    /// Answers a line that says something.
    fn answer(
        &mut self,
        alloc: Global,
        text: &mut String,
        line: &str,
    ) -> Result<(), Fault<Refusal>> {
        let Some(order) = order_of(line) else {
            return Err(Fault::Malformed(Flaw::UnknownLine));
        };
        match order {
            Order::Text => {
                self.draft.clear();
                writeln!(text, "{line}")?;
            }
            Order::Line(rest) => self.draft.add(bytes_of(alloc, rest)?)?,
            Order::Size => self.answer_size(alloc, text)?,
            Order::Items => self.answer_items(alloc, text)?,
            Order::Slots => self.answer_slots(alloc, text)?,
            Order::Fault(judge, rest) => {
                write!(text, "{line}: ")?;
                self.answer_fault(alloc, text, judge, rest)?;
            }
        }
        Ok(())
    }

    /// Answers what is at fault with the text, where a line of it may be another.
    fn answer_fault(
        &self,
        alloc: Global,
        text: &mut String,
        judge: Judge,
        line: &str,
    ) -> Result<(), Fault<Refusal>> {
        let bytes = self.text_with(alloc, line)?;
        let added = match judge {
            Judge::Lines => add_fault(alloc, text, &bytes),
            Judge::Rules => add_rule(alloc, text, &bytes),
        };
        drop(bytes);
        added
    }

    /// The text, with the line in the place of the one whose number stands before it.
    fn text_with(&self, alloc: Global, line: &str) -> Result<Vec<u8>, Fault<Refusal>> {
        if line.is_empty() {
            return Ok(self.draft.text(alloc, None)?);
        }
        let (number, rest) = word_of(line);
        let number = long_number_of(number)?;
        if number == 0 || number > self.draft.count() as u64 {
            return Err(Fault::Refused(Refusal::NoLine));
        }
        let bytes = bytes_of(alloc, rest)?;
        let change = Change {
            place: number as usize - 1,
            bytes: bytes.as_slice(),
        };
        let text = self.draft.text(alloc, Some(change));
        drop(bytes);
        Ok(text?)
    }

    fn answer_size(&self, alloc: Global, text: &mut String) -> Result<(), Fault<Refusal>> {
        let bytes = self.draft.text(alloc, None)?;
        writeln!(text, "{} bytes", bytes.len())?;
        Ok(())
    }

    fn answer_items(&self, alloc: Global, text: &mut String) -> Result<(), Fault<Refusal>> {
        let bytes = self.draft.text(alloc, None)?;
        let Ok(schedule) = schedule_of(alloc, &bytes)? else {
            return Err(Fault::Refused(Refusal::LineAtFault));
        };
        let added = add_items(text, &schedule);
        drop(schedule);
        Ok(added?)
    }

    fn answer_slots(&self, alloc: Global, text: &mut String) -> Result<(), Fault<Refusal>> {
        let bytes = self.draft.text(alloc, None)?;
        let times = times_of(alloc, &bytes)?;
        let added = add_slots(text, &times);
        drop(times);
        Ok(added?)
    }
}

impl Answers for TextReader {
    type Refusal = Refusal;

    fn take(&mut self, alloc: Global, line: &str) -> Result<String, Fault<Refusal>> {
        let mut text = String::new(alloc);
        if !is_skipped(line) {
            self.answer(alloc, &mut text, line)?;
        }
        Ok(text)
    }

    fn end(&mut self, alloc: Global) -> Result<String, Fault<Refusal>> {
        Ok(String::new(alloc))
    }
}

fn add_fault(alloc: Global, text: &mut String, bytes: &[u8]) -> Result<(), Fault<Refusal>> {
    match schedule_of(alloc, bytes)? {
        Ok(_) => writeln!(text, "no fault")?,
        Err(fault) => writeln!(text, "line {} {:?}", fault.line, fault.kind)?,
    }
    Ok(())
}

/// Adds the first rule that the text's schedule breaks, or what the program of it is.
fn add_rule(alloc: Global, text: &mut String, bytes: &[u8]) -> Result<(), Fault<Refusal>> {
    let Ok(schedule) = schedule_of(alloc, bytes)? else {
        return Err(Fault::Refused(Refusal::LineAtFault));
    };
    match check(schedule) {
        Ok(program) => {
            let (slot, distance) = (program.last_slot(), program.schedule().distance);
            drop(program);
            writeln!(text, "distance {distance}, last slot {slot}")?;
        }
        Err(RuleError::Fault(fault)) => writeln!(text, "line {} {:?}", fault.line, fault.kind)?,
    }
    Ok(())
}

/// The timetable of the text's schedule.
fn times_of(alloc: Global, bytes: &[u8]) -> Result<Timetable, Fault<Refusal>> {
    let Ok(schedule) = schedule_of(alloc, bytes)? else {
        return Err(Fault::Refused(Refusal::LineAtFault));
    };
    let Ok(program) = check(schedule) else {
        return Err(Fault::Refused(Refusal::BrokenRule));
    };
    let times = Timetable::new(alloc, &program);
    drop(program);
    Ok(times?)
}

/// The schedule of a text, or its first fault.
fn schedule_of(
    alloc: Global,
    bytes: &[u8],
) -> Result<Result<Schedule, ScheduleFault>, Fault<Refusal>>
    ensures schedule { IfOk result (λ r. IfOk r (λ s. s ≡ schedule_of bytes.now)) }
    ensures faultless { IfOk result (λ r. OnOk r (text_fault bytes.now ≡ None)) }
    ensures fault { IfOk result (λ r. IfErr r (λ f. option_map reported (text_fault bytes.now)
        ≡ Some f)) }
{
    if bytes.is_empty() || bytes.len() > TAKEN_BYTES {
        return Err(Fault::Refused(Refusal::TextSize));
    }
    match read(alloc, bytes) {
        Ok(schedule) => Ok(Ok(schedule)),
        Err(ReadError::Fault(fault)) => Ok(Err(fault)),
        Err(ReadError::Memory) => Err(Fault::Memory),
    }
}
