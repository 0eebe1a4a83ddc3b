//! The lines of standard input, each answered once it was read.

use crate::fault::Fault;
use std::alloc::Global;
use std::io::{BufRead, BufReader};
use std::process::ExitCode;
use std::rt::Runtime;
use std::{fmt, io};

/// What answers lines.
pub trait Answers {
    /// Why a line that is written well isn't answered.
    type Refusal: fmt::Debug + Drop;

    /// Takes the next line, and answers it.
    fn take(&mut self, alloc: Global, line: &str) -> Result<String, Fault<Self::Refusal>>;

    /// Takes the end of the lines, and answers it.
    fn end(&mut self, alloc: Global) -> Result<String, Fault<Self::Refusal>>;

    /// The program's status once all lines are answered.
    fn status(&self) -> u8 {
        0
    }
}

/// Answers the lines of standard input. Where one is at fault, it is named with what is wrong.
pub fn answer_lines<R: Runtime, A: Answers>(rt: &R, alloc: Global, answers: &mut A) -> ExitCode {
    let mut number = 0;
    match answer_all(rt, alloc, answers, &mut number) {
        Ok(()) => ExitCode::from(answers.status()),
        Err(fault) => {
            let _ = println!(rt; "line {number}: {fault}");
            ExitCode::from(fault.code())
        }
    }
}

fn answer_all<R: Runtime, A: Answers>(
    rt: &R,
    alloc: Global,
    answers: &mut A,
    number: &mut u32,
) -> Result<(), Fault<A::Refusal>> {
    let input = BufReader::new(alloc, rt.reader())?;
    for line in input.lines(alloc) {
        *number = number.saturating_add(1);
        answer(rt, alloc, answers, line)?;
    }
    rt.print(answers.end(alloc)?.as_str())?;
    Ok(())
}

/// Answers a line, where it could be read.
fn answer<R: Runtime, A: Answers>(
    rt: &R,
    alloc: Global,
    answers: &mut A,
    line: io::Result<String>,
) -> Result<(), Fault<A::Refusal>> {
    let text = answers.take(alloc, line?.as_str())?;
    rt.print(text.as_str())?;
    Ok(())
}
