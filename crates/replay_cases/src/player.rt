//! Scripts that are replayed once they were read.

use crate::case::replayed;
use case_lines::{Answers, Fault, Flaw, bytes_of, is_skipped, number_of, word_of};
use std::alloc::Global;

/// Why a line that is written well isn't answered.
#[derive(Clone, Copy, Debug)]
pub(crate) enum Refusal {
    /// A replay without any input.
    NoInput,
}

/// The input of the next replay, and how often its windows may be given up.
#[derive(Drop)]
pub(crate) struct Player {
    input: Vec<u8>,
    retries: u32,
}

/// How often a window may be given up where no line says it.
const USUAL_RETRIES: u32 = 1;

impl Player {
    /// No line was read yet.
    pub(crate) fn new(alloc: Global) -> Player {
        Player {
            input: Vec::new(alloc),
            retries: USUAL_RETRIES,
        }
    }

    /// Replays the input, and begins anew.
    fn play(&mut self, alloc: Global, name: &str) -> Result<String, Fault<Refusal>> {
        if self.input.is_empty() {
            return Err(Fault::Refused(Refusal::NoInput));
        }
        let replayed = replayed(alloc, &self.input, self.retries)?;
        self.input.clear();
        self.retries = USUAL_RETRIES;
        Ok(format!(in alloc; "case {name}\n{replayed}")?)
    }

    /// Adds a line to the input.
    fn add(&mut self, alloc: Global, line: &str) -> Result<(), Fault<Refusal>> {
        let bytes = bytes_of(alloc, line)?;
        self.input.extend_from_slice(&bytes)?;
        Ok(())
    }
}

impl Answers for Player {
    type Refusal = Refusal;

    fn take(&mut self, alloc: Global, line: &str) -> Result<String, Fault<Refusal>> {
        if is_skipped(line) {
            return Ok(String::new(alloc));
        }
        let (word, rest) = word_of(line);
        match word {
            "input" => self.add(alloc, rest)?,
            "retries" => self.retries = number_of(rest)?,
            "play" => return self.play(alloc, rest),
            _ => return Err(Fault::Malformed(Flaw::UnknownLine)),
        }
        Ok(String::new(alloc))
    }

    fn end(&mut self, alloc: Global) -> Result<String, Fault<Refusal>> {
        Ok(String::new(alloc))
    }
}
