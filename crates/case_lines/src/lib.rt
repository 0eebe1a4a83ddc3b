//! What the programs of stored cases share. Such a program reads lines, answers each once it was
//! read, and ends at the first that is at fault, which it names.
#![tactic(auto)]

mod bytes;
mod fault;
mod shown;
mod top;
mod words;

pub use bytes::bytes_of;
pub use fault::{Fault, Flaw};
pub use shown::{Letters, Listed};
pub use top::{Answers, answer_lines};
pub use words::{is_skipped, long_number_of, number_of, word_of, words_of};
