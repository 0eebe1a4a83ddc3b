//! Makes the inputs for which the lines of standard input ask, and prints them.
//!
//! A line has four numbers, with a space between two: the distance, how many patches there are, how
//! many slots, and the seed. The answer is the input, or how many detectors it would have, where
//! they are too many. An empty line and one that begins with `#` say nothing.
#![tactic(auto)]

mod orders;

use crate::orders::Orders;
use case_lines::answer_lines;
use std::process::ExitCode;

fn main(rt: HostRuntime) -> ExitCode {
    let mut orders = Orders;
    answer_lines(&rt, rt.alloc(), &mut orders)
}
