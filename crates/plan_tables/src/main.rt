//! Prints the sliding and the parallel plans of the graphs that stand on standard input: how many
//! windows and dependencies they have, what each window holds, and the limits that are passed.
//!
//! The input says how a graph is written and what is asked of it, in the words of `orders`.
#![tactic(auto)]

mod draft;
mod orders;
mod reader;
mod refusal;
mod report;

use crate::reader::GraphReader;
use case_lines::answer_lines;
use std::process::ExitCode;

fn main(rt: HostRuntime) -> ExitCode {
    let mut reader = GraphReader::new(rt.alloc());
    answer_lines(&rt, rt.alloc(), &mut reader)
}
