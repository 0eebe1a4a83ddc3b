//! Texts and cases.

use port_io::MemPort;
use std::alloc::{AllocError, Global};

/// The bytes that can be put where a case doesn't say how many.
pub(crate) const ROOM: u64 = 1_000_000;

/// Lines that cases begin with.
#[derive(Drop)]
pub(crate) struct Text {
    pub(crate) name: String,
    /// The bytes that each line stands for.
    pub(crate) lines: Vec<Vec<u8>>,
}

impl Text {
    /// A text of this name without lines.
    pub(crate) fn new(alloc: Global, name: &str) -> Result<Text, AllocError> {
        Ok(Text {
            name: String::from_str(alloc, name)?,
            lines: Vec::new(alloc),
        })
    }
}

/// A run of the top call: its words, its input and what fails, and what it has to give.
pub(crate) struct Case {
    pub(crate) name: String,
    /// The words, with spaces between them.
    pub(crate) words: String,
    pub(crate) fail_takes: Vec<u64>,
    pub(crate) fail_puts: Vec<u64>,
    /// How many bytes can be put.
    pub(crate) room: u64,
    /// How many of the last lines are shown, where not all are.
    pub(crate) tail: Option<u64>,
    /// Whether it is shown after how many bytes taken each line was put.
    pub(crate) shows_taken: bool,
    /// How often in a row it is run with a gate at which the decoding of window 0 is held until
    /// window 1 was decoded, where it is.
    pub(crate) held: Option<u64>,
    /// Whether it is run with each predictor and with all numbers of retries too.
    pub(crate) guesses: bool,
    /// The bytes that each line of the input stands for.
    pub(crate) lines: Vec<Vec<u8>>,
    /// The transcript that is expected.
    pub(crate) expected: String,
}

impl Drop for Case {
    fn drop(self) {
        let Case {
            name: _,
            words: _,
            fail_takes: _,
            fail_puts: _,
            room: _,
            tail: _,
            shows_taken: _,
            held: _,
            guesses: _,
            lines: _,
            expected: _,
        } = self;
    }
}

impl Case {
    /// A case of this name with the word `decode`, without input, in which nothing fails.
    pub(crate) fn new(alloc: Global, name: &str) -> Result<Case, AllocError> {
        Ok(Case {
            name: String::from_str(alloc, name)?,
            words: String::from_str(alloc, "decode")?,
            fail_takes: Vec::new(alloc),
            fail_puts: Vec::new(alloc),
            room: ROOM,
            tail: None,
            shows_taken: false,
            held: None,
            guesses: false,
            lines: Vec::new(alloc),
            expected: String::new(alloc),
        })
    }

    /// The port of the run.
    pub(crate) fn port(&self, alloc: Global) -> Result<MemPort, AllocError> {
        let input = self.input(alloc)?;
        let fail_takes = Vec::from_slice(alloc, &self.fail_takes)?;
        let fail_puts = Vec::from_slice(alloc, &self.fail_puts)?;
        MemPort::new(alloc, input, self.room, fail_takes, fail_puts)
    }

    /// Whether only some of the last lines are shown, and lines of the log or of the trace are
    /// among them: so there is no telling which of these they have to be.
    pub(crate) fn shows_order(&self) -> bool {
        let expected = self.expected.as_str();
        self.tail.is_some() && (expected.contains("| end log") || expected.contains("| end trace"))
    }

    /// The whole input.
    pub(crate) fn input(&self, alloc: Global) -> Result<Vec<u8>, AllocError> {
        let mut input = Vec::new(alloc);
        for line in &self.lines {
            input.extend_from_slice(line)?;
        }
        Ok(input)
    }
}
