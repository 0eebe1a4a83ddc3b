//! Answers small matching problems that stand on standard input, beside the least weight that
//! trying every set of edges finds, and checks certificates of them.
//!
//! A line `part PLACES` and then the two ends and the weight of each edge, with a bar for a free
//! end, is a part. A line `defects PLACE ..` answers the last part with these defects. A line
//! `accepts EDGE .. : NUMBER .. : NUMBER MEMBER .. : ..` checks a certificate of it: the set of
//! edges, the numbers of the members, and for each set its number and its members. A line `search
//! COUNT PLACES SEED` makes so many problems of at most so many places from a number, and says of
//! how many the search's own numbers showed its set least, and of how many of those with few
//! defects it weighs what the plain pairing's does. Other lines are copied.
#![tactic(auto)]

mod answers;
mod problem;
mod refusal;
mod searches;
mod trying;
mod words;

use crate::answers::Reader;
use case_lines::answer_lines;
use std::process::ExitCode;

fn main(rt: HostRuntime) -> ExitCode {
    let mut reader = Reader::new(rt.alloc());
    answer_lines(&rt, rt.alloc(), &mut reader)
}
