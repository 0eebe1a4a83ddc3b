//! What is asked for, and its answer.
ghost use Rattle.std.specs.Prelude.{◌≡◌, true};
ghost use Rattle.workload_maker.specs.Headers.{AreMakeable};

use case_lines::{Answers, Fault, Flaw, is_skipped, long_number_of, number_of, words_of};
use std::alloc::Global;
use workload_maker::{MakeError, make};

/// The greatest number of patches, and of slots.
const MOST_PATCHES: u32 = 64;

const MOST_SLOTS: u32 = 4096;

/// Why a line isn't answered.
#[derive(Debug, Drop)]
pub(crate) enum Refusal {
    /// A number is out of its range.
    OutOfRange,
    /// What was made is no text.
    NoText,
}

/// What is asked for: each line for an input.
#[derive(Drop)]
pub(crate) struct Orders;

/// The distance, how many patches and slots there are, and the seed.
#[derive(Clone, Copy)]
struct Order {
    distance: u32,
    patches: u32,
    slots: u32,
    seed: u64,
}

/// Whether schedules of these are made.
fn is_makeable(distance: u32, patches: u32, slots: u32) -> bool
    ensures { result ≡ true → AreMakeable distance patches slots }
{
    if distance % 2 != 1 || distance < 3 || distance > 11 {
        return false;
    }
    if patches < 1 || patches > MOST_PATCHES {
        return false;
    }
    2 <= slots && slots <= MOST_SLOTS
}

/// The order of a line's words.
fn order_of(words: &[&str]) -> Result<Order, Fault<Refusal>> {
    let [distance, patches, slots, seed] = words else {
        return Err(Fault::Malformed(Flaw::UnknownLine));
    };
    Ok(Order {
        distance: number_of(distance)?,
        patches: number_of(patches)?,
        slots: number_of(slots)?,
        seed: long_number_of(seed)?,
    })
}

/// What is made, as a text, or how many detectors are too many.
fn made(alloc: Global, order: Order) -> Result<String, Fault<Refusal>> {
    let Order {
        distance,
        patches,
        slots,
        seed,
    } = order;
    if !is_makeable(distance, patches, slots) {
        return Err(Fault::Refused(Refusal::OutOfRange));
    }
    match make(alloc, distance, patches, slots, seed) {
        Ok(input) => text_of(input),
        Err(MakeError::TooLarge { detectors }) => {
            Ok(format!(in alloc; "too large, detectors {detectors}\n")?)
        }
        Err(MakeError::Memory) => Err(Fault::Memory),
    }
}

/// The bytes as a text.
fn text_of(bytes: Vec<u8>) -> Result<String, Fault<Refusal>> {
    match String::from_utf8(bytes) {
        Ok(text) => Ok(text),
        Err(_) => Err(Fault::Refused(Refusal::NoText)),
    }
}

impl Answers for Orders {
    type Refusal = Refusal;

    fn take(&mut self, alloc: Global, line: &str) -> Result<String, Fault<Refusal>> {
        if is_skipped(line) {
            return Ok(String::new(alloc));
        }
        let words = words_of(alloc, line)?;
        let order = order_of(&words)?;
        made(alloc, order)
    }

    fn end(&mut self, alloc: Global) -> Result<String, Fault<Refusal>> {
        Ok(String::new(alloc))
    }
}
