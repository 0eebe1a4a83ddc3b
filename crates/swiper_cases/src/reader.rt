//! Cases read line by line.

use crate::case::{Case, Text};
use crate::made::made;
use crate::refusal::Refusal;
use case_lines::{Fault, Flaw, bytes_of, is_skipped, long_number_of, word_of};
use std::alloc::{AllocError, Global};
use std::sync::Wait;
use std::thread::Threads;

/// Where the next line stands.
#[derive(Clone, Copy)]
enum Place {
    Between,
    Text,
    Head,
    Input,
    Expected,
}

/// The texts so far, and the case that is read or was read last.
pub(crate) struct CaseReader {
    place: Place,
    texts: Vec<Text>,
    case: Case,
}

impl Drop for CaseReader {
    fn drop(self) {
        let CaseReader {
            place: _,
            texts: _,
            case: _,
        } = self;
    }
}

impl CaseReader {
    pub(crate) fn new(alloc: Global) -> Result<CaseReader, AllocError> {
        Ok(CaseReader {
            place: Place::Between,
            texts: Vec::new(alloc),
            case: Case::new(alloc, "")?,
        })
    }

    /// The case whose last line was taken.
    pub(crate) fn case(&self) -> &Case {
        &self.case
    }

    /// Takes the next line, and answers whether it is the last of a case.
    pub(crate) fn take<R: Threads + Wait + Sync>(
        &mut self,
        rt: &R,
        alloc: Global,
        line: &str,
    ) -> Result<bool, Fault<Refusal>> {
        match self.place {
            Place::Between => self.begin(alloc, line)?,
            Place::Text => self.add_to_text(alloc, line)?,
            Place::Head => self.add_to_head(rt, alloc, line)?,
            Place::Input => self.add_to_input(alloc, line)?,
            Place::Expected => return self.add_to_expected(line),
        }
        Ok(false)
    }

    /// Ends the reading: no text and no case may be open.
    pub(crate) fn end(&self) -> Result<(), Fault<Refusal>> {
        match self.place {
            Place::Between => Ok(()),
            _ => Err(Fault::Malformed(Flaw::NotEnded)),
        }
    }

    /// Begins a text or a case.
    fn begin(&mut self, alloc: Global, line: &str) -> Result<(), Fault<Refusal>> {
        if is_skipped(line) {
            return Ok(());
        }
        match word_of(line) {
            ("text", name) => {
                self.texts.push(Text::new(alloc, name)?)?;
                self.place = Place::Text;
            }
            ("case", name) => {
                self.case = Case::new(alloc, name)?;
                self.place = Place::Head;
            }
            _ => return Err(Fault::Malformed(Flaw::UnknownLine)),
        }
        Ok(())
    }

    fn add_to_text(&mut self, alloc: Global, line: &str) -> Result<(), Fault<Refusal>> {
        if line == "end" {
            self.place = Place::Between;
            return Ok(());
        }
        if let Some(text) = self.texts.last_mut() {
            text.lines.push(bytes_of(alloc, line)?)?;
        }
        Ok(())
    }

    fn add_to_head<R: Threads + Wait + Sync>(
        &mut self,
        rt: &R,
        alloc: Global,
        line: &str,
    ) -> Result<(), Fault<Refusal>> {
        match line {
            "input" => self.place = Place::Input,
            "expect" => self.place = Place::Expected,
            "end" => return Err(Fault::Refused(Refusal::NothingExpected)),
            _ if is_skipped(line) => {}
            _ => match word_of(line) {
                ("made", words) => self.case.lines.push(made(rt, alloc, words)?)?,
                _ => set(alloc, &self.texts, &mut self.case, line)?,
            },
        }
        Ok(())
    }

    fn add_to_input(&mut self, alloc: Global, line: &str) -> Result<(), Fault<Refusal>> {
        match line {
            "expect" => self.place = Place::Expected,
            "end" => return Err(Fault::Refused(Refusal::NothingExpected)),
            _ => self.case.lines.push(bytes_of(alloc, line)?)?,
        }
        Ok(())
    }

    /// Adds a line to the transcript that is expected, and answers whether it ends the case.
    fn add_to_expected(&mut self, line: &str) -> Result<bool, Fault<Refusal>> {
        if line == "end" {
            self.place = Place::Between;
            return Ok(true);
        }
        self.case.expected.push_str(line)?;
        self.case.expected.push('\n')?;
        Ok(false)
    }
}

/// Sets what a line of a case's head says.
fn set(alloc: Global, texts: &[Text], case: &mut Case, line: &str) -> Result<(), Fault<Refusal>> {
    let (word, rest) = word_of(line);
    match word {
        "words" => case.words = String::from_str(alloc, rest)?,
        "room" => case.room = long_number_of(rest)?,
        "tail" => case.tail = Some(long_number_of(rest)?),
        "taken" => case.shows_taken = true,
        "held" => case.held = Some(long_number_of(rest)?),
        "guesses" => case.guesses = true,
        "fail" => set_fail(case, rest)?,
        "from" => add_text(alloc, texts, case, rest)?,
        "line" => set_line(alloc, case, rest)?,
        _ => return Err(Fault::Malformed(Flaw::UnknownLine)),
    }
    Ok(())
}

/// Lets the take or the put of a number fail.
fn set_fail(case: &mut Case, line: &str) -> Result<(), Fault<Refusal>> {
    let (word, rest) = word_of(line);
    match word {
        "take" => case.fail_takes.push(long_number_of(rest)?)?,
        "put" => case.fail_puts.push(long_number_of(rest)?)?,
        _ => return Err(Fault::Malformed(Flaw::UnknownLine)),
    }
    Ok(())
}

/// Adds the lines of the text of this name.
fn add_text(
    alloc: Global,
    texts: &[Text],
    case: &mut Case,
    name: &str,
) -> Result<(), Fault<Refusal>> {
    for text in texts {
        if text.name.as_str() == name {
            add_lines(alloc, case, &text.lines)?;
            return Ok(());
        }
    }
    Err(Fault::Refused(Refusal::UnknownText))
}

fn add_lines(alloc: Global, case: &mut Case, lines: &[Vec<u8>]) -> Result<(), AllocError> {
    for line in lines {
        case.lines.push(Vec::from_slice(alloc, line)?)?;
    }
    Ok(())
}

/// Puts another line in the place of one that the case has.
fn set_line(alloc: Global, case: &mut Case, line: &str) -> Result<(), Fault<Refusal>> {
    let (number, rest) = word_of(line);
    let number = long_number_of(number)?;
    let bytes = bytes_of(alloc, rest)?;
    if number == 0 || number > case.lines.len() as u64 {
        return Err(Fault::Refused(Refusal::NoLine));
    }
    case.lines[number as usize - 1] = bytes;
    Ok(())
}
