//! Reads the texts of schedules that stand on standard input, and prints what is at fault with
//! each, or what it holds.
//!
//! The lines of the input, and their answers:
//!
//! - `text NAME`: a text begins, of no line yet. The answer is the line itself;
//! - `| LINE`: the text's next line, written as `case_lines::bytes_of` says;
//! - `read`: the text's first fault, as `line N KIND`, or `no fault`, after the line itself;
//! - `read N LINE`: the same of the text with another line in the place of its line N, from 1;
//! - `check` and `check N LINE`: the first rule of a whole schedule that the text breaks, or else
//!   the distance and the last slot of its program;
//! - `size`: how many bytes the text has;
//! - `items`: what the text's schedule holds, a line for each of its items;
//! - `slots`: for each slot how many preparations, readings, splits, lives and merges it has, and
//!   `quiet` where nothing begins or ends in it.
//!
//! An empty line and one that begins with `#` say nothing.
#![tactic(auto)]

mod draft;
mod items;
mod orders;
mod reader;
mod slots;

use crate::reader::TextReader;
use case_lines::answer_lines;
use std::process::ExitCode;

fn main(rt: HostRuntime) -> ExitCode {
    let mut reader = TextReader::new(rt.alloc());
    answer_lines(&rt, rt.alloc(), &mut reader)
}
