//! Cases that are run once they were read.

use crate::reader::CaseReader;
use crate::refusal::Refusal;
use crate::trial::played;
use case_lines::Fault;
use std::alloc::{AllocError, Global};
use std::sync::Wait;
use std::thread::Threads;

/// The status where a case differs.
const DIFFERENT: u8 = 4;

/// What is being read, how many cases there were, and how many of them differ.
#[derive(Drop)]
pub(crate) struct Player {
    reader: CaseReader,
    cases: u32,
    different: u32,
}

impl Player {
    pub(crate) fn new(alloc: Global) -> Result<Player, AllocError> {
        Ok(Player {
            reader: CaseReader::new(alloc)?,
            cases: 0,
            different: 0,
        })
    }

    /// Takes the next line. Where it ends a case, this is played, and it is told where its runs
    /// differ.
    pub(crate) fn take<R: Threads + Wait + Sync>(
        &mut self,
        rt: &R,
        alloc: Global,
        line: &str,
    ) -> Result<String, Fault<Refusal>> {
        if !self.reader.take(rt, alloc, line)? {
            return Ok(String::new(alloc));
        }
        let text = played(rt, alloc, self.reader.case())?;
        self.cases = self.cases.saturating_add(1);
        if !text.is_empty() {
            self.different = self.different.saturating_add(1);
        }
        Ok(text)
    }

    /// Ends the reading: no text and no case may be open.
    pub(crate) fn end(&self, alloc: Global) -> Result<String, Fault<Refusal>> {
        self.reader.end()?;
        let (cases, different) = (self.cases, self.different);
        Ok(format!(in alloc; "{cases} cases, {different} differ\n")?)
    }

    /// The program's status once all lines are answered.
    pub(crate) fn status(&self) -> u8 {
        if self.different == 0 { 0 } else { DIFFERENT }
    }
}
