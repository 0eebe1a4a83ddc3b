//! The words of lines: numbers, bits and labels.
ghost use Rattle.std.specs.Prelude.{◌≡◌, ◌++◌, ◌∷◌, [], OnOk, decimal, flat_map, map, string_bytes};
ghost use Rattle.report_model.specs.Texts.{bit_text, label_of, line};
ghost use Rattle.run_report.specs.Words.{field, spaced};

use detector_graph::Bits;
use itoa::Buffer;
use schedule_reader::Name;
use std::alloc::AllocError;

/// A word.
pub fn write_word(text: &mut String, word: &str) -> Result<(), AllocError>
    ensures { OnOk result (string_bytes text.new ≡ string_bytes text.old ++ word.now) }
{
    text.push_str(word)
}

/// The line feed of a line.
pub fn end_line(text: &mut String) -> Result<(), AllocError>
    ensures { OnOk result (string_bytes text.new ≡ string_bytes text.old ++ 10 ∷ []) }
{
    text.push_str("\n")
}

/// A number.
pub(crate) fn write_number(text: &mut String, number: u64) -> Result<(), AllocError>
    ensures { OnOk result (string_bytes text.new ≡ string_bytes text.old ++ decimal number) }
{
    let mut buffer = Buffer::new();
    text.push_str(buffer.format(number))
}

/// Numbers, each after a space.
pub fn write_spaced(text: &mut String, numbers: &[u32]) -> Result<(), AllocError>
    ensures { OnOk result (string_bytes text.new ≡ string_bytes text.old ++ spaced numbers.now) }
{
    for number in numbers {
        text.push_str(" ")?;
        write_number(text, u64::from(*number))?;
    }
    Ok(())
}

/// A line of a word and numbers.
#[tactic(auto, using(crate::proofs::Spelled::line_whole))]
pub fn write_line(text: &mut String, word: &str, numbers: &[u32]) -> Result<(), AllocError>
    ensures { OnOk result (string_bytes text.new ≡ string_bytes text.old
        ++ line (word.now ∷ map decimal numbers.now)) }
{
    text.push_str(word)?;
    write_spaced(text, numbers)?;
    text.push_str("\n")
}

/// A word and its number, each after a space.
pub(crate) fn write_field(text: &mut String, word: &str, number: u64) -> Result<(), AllocError>
    ensures { OnOk result (string_bytes text.new ≡ string_bytes text.old ++ field word.now number) }
{
    text.push_str(" ")?;
    text.push_str(word)?;
    text.push_str(" ")?;
    write_number(text, number)
}

/// Bits, without spaces.
pub(crate) fn write_bits(text: &mut String, bits: &Bits) -> Result<(), AllocError>
    ensures { OnOk result (string_bytes text.new ≡ string_bytes text.old
        ++ flat_map bit_text bits.now) }
{
    for at in 0..bits.len() {
        text.push_str(bit_word(bits.get(at)))?;
    }
    Ok(())
}

/// A bit as a word.
pub(crate) fn bit_word(bit: bool) -> &'static str
    ensures { result.now ≡ bit_text bit }
{
    if bit { "1" } else { "0" }
}

/// Writes a label. Its bytes are ASCII.
pub fn write_label(text: &mut String, label: &Name) -> Result<(), AllocError>
    ensures { OnOk result (string_bytes text.new ≡ string_bytes text.old ++ label.now) }
{
    for byte in label.as_bytes() {
        text.push(*byte as char)?;
    }
    Ok(())
}

/// The label of an operation, and nothing where there is none.
pub(crate) fn write_label_of(
    text: &mut String,
    labels: &[Name],
    operation: u32,
) -> Result<(), AllocError>
    ensures { OnOk result (string_bytes text.new ≡ string_bytes text.old
        ++ label_of labels.now operation) }
{
    match labels.get(operation as usize) {
        Some(label) => write_label(text, label),
        None => Ok(()),
    }
}
