//! Prints the tables of the schedules that stand on standard input: the bits of their slots, their
//! detectors, observables and edges, what each error changes, and the values that rows give.
//!
//! docs/ARCHITECTURE.md says how a schedule is asked and how the answers read.
#![tactic(auto)]

mod ask;
mod opened;
mod reader;
mod refusal;
mod sheet;
mod totals;
mod words;

use crate::reader::SheetReader;
use case_lines::answer_lines;
use std::process::ExitCode;

fn main(rt: HostRuntime) -> ExitCode {
    let mut reader = SheetReader::new();
    answer_lines(&rt, rt.alloc(), &mut reader)
}
