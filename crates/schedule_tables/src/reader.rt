//! Sheets read and answered line by line.
//!
//! A sheet is a line `schedule NAME`, a header up to its line `rounds`, lines that ask, and a line
//! `end`. Outside headers an empty line and one that begins with `#` say nothing. What is asked:
//!
//! - `tables`: the bits of each slot, the detectors, the observables and the edges;
//! - `widths`: how many bits each slot has; `sizes`: how many bits and detectors there are in all;
//! - `counts`: how many errors and edges there are, and the edges' weights and masks added up;
//! - `flips FIRST LAST`: the bits that the errors of these numbers change;
//! - `row BITS`: the values that a row gives. The first row is that of slot 0, the next that of
//!   slot 1.
//!
//! Where the schedule is refused, its fault stands in place of all answers.

use crate::ask::{Ask, ask_of};
use crate::opened::open;
use crate::refusal::Refusal;
use crate::sheet::Sheet;
use case_lines::{Answers, Fault, Flaw, is_skipped, word_of};
use detector_graph::Bits;
use std::alloc::Global;

/// Where the next line stands.
#[derive(Drop)]
enum Stage {
    Between,
    Header(Vec<u8>),
    Refused,
    Open(Sheet),
}

/// What is being read.
#[derive(Drop)]
pub(crate) struct SheetReader {
    stage: Stage,
}

impl SheetReader {
    pub(crate) fn new() -> SheetReader {
        SheetReader {
            stage: Stage::Between,
        }
    }
}

impl Answers for SheetReader {
    type Refusal = Refusal;

    fn take(&mut self, alloc: Global, line: &str) -> Result<String, Fault<Refusal>> {
        let mut text = String::new(alloc);
        if let Some(stage) = self.stage.next(alloc, &mut text, line)? {
            self.stage = stage;
        }
        Ok(text)
    }

    /// Ends the reading: no sheet may be open.
    fn end(&mut self, alloc: Global) -> Result<String, Fault<Refusal>> {
        match &self.stage {
            Stage::Between => Ok(String::new(alloc)),
            _ => Err(Fault::Malformed(Flaw::NotEnded)),
        }
    }
}

impl Stage {
    /// Takes a line, and answers it. The next stage, where it is another.
    fn next(
        &mut self,
        alloc: Global,
        text: &mut String,
        line: &str,
    ) -> Result<Option<Stage>, Fault<Refusal>> {
        match self {
            Stage::Between => between(alloc, text, line),
            Stage::Header(header) => in_header(alloc, text, header, line),
            Stage::Refused if line == "end" => Ok(Some(Stage::Between)),
            Stage::Refused => Ok(None),
            Stage::Open(sheet) => in_sheet(alloc, text, sheet, line),
        }
    }
}

fn between(alloc: Global, text: &mut String, line: &str) -> Result<Option<Stage>, Fault<Refusal>> {
    if is_skipped(line) {
        return Ok(None);
    }
    let ("schedule", name) = word_of(line) else {
        return Err(Fault::Malformed(Flaw::UnknownLine));
    };
    writeln!(text, "schedule {name}")?;
    Ok(Some(Stage::Header(Vec::new(alloc))))
}

/// Takes a line of the header, which ends with the first whose only field is `rounds`.
fn in_header(
    alloc: Global,
    text: &mut String,
    header: &mut Vec<u8>,
    line: &str,
) -> Result<Option<Stage>, Fault<Refusal>> {
    header.extend_from_slice(line.as_bytes())?;
    header.push(b'\n')?;
    if line.trim_matches(' ') != "rounds" {
        return Ok(None);
    }
    let before = Bits::zeros(alloc, 0)?;
    match open(alloc, text, header)? {
        Some(opened) => Ok(Some(Stage::Open(Sheet::new(opened, before)))),
        None => Ok(Some(Stage::Refused)),
    }
}

fn in_sheet(
    alloc: Global,
    text: &mut String,
    sheet: &mut Sheet,
    line: &str,
) -> Result<Option<Stage>, Fault<Refusal>> {
    let ask = ask_of(line)?;
    sheet.answer(alloc, text, ask)?;
    match ask {
        Ask::End => Ok(Some(Stage::Between)),
        _ => Ok(None),
    }
}
