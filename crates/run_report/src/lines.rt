//! The lines of a run's texts.
ghost use Rattle.std.specs.Prelude.{◌≡◌, ◌++◌, ◌∷◌, [], None, OnOk, codes, decimal, string_bytes};
ghost use Rattle.graph_model.specs.Parity.{◌⊕◌};
ghost use Rattle.report_model.specs.Texts.{bit_text, label_of, line, step_line};
ghost use Rattle.run_report.specs.Names.{counts_line, printed_name};
ghost use Rattle.trace_laws.specs.Told.{current_text};
ghost use Rattle.window_model.specs.Decoder.{Arrive, Commit};

use crate::fields::{
    bit_word, end_line, write_field, write_label, write_label_of, write_line, write_number,
    write_spaced,
};
use detector_graph::EdgeSet;
use measure_map::Observable;
use schedule_reader::Name;
use std::alloc::AllocError;

/// An arrival of a slot.
pub(crate) fn write_arrival(text: &mut String, slot: u32) -> Result<(), AllocError>
    ensures { OnOk result (string_bytes text.new ≡ string_bytes text.old
        ++ step_line [] (Arrive slot)) }
{
    write_line(text, "arrive", &[slot])
}

/// A commit of a window with these edges.
#[tactic(auto, using(crate::proofs::Spelled::commit_whole))]
pub(crate) fn write_commit(text: &mut String, window: u32, set: &EdgeSet) -> Result<(), AllocError>
    ensures { OnOk result (string_bytes text.new ≡ string_bytes text.old
        ++ step_line [] (Commit window set.now)) }
{
    text.push_str("commit")?;
    write_spaced(text, &[window])?;
    write_spaced(text, set.as_slice())?;
    text.push_str("\n")
}

/// A word, the label of an operation and its bit, where the operations have these labels.
pub(crate) fn write_release(
    text: &mut String,
    word: &str,
    labels: &[Name],
    operation: u32,
    bit: bool,
) -> Result<(), AllocError>
    ensures { OnOk result (string_bytes text.new ≡ string_bytes text.old
        ++ line (word.now ∷ label_of labels.now operation ∷ bit_text bit ∷ [])) }
{
    text.push_str(word)?;
    text.push_str(" ")?;
    write_label_of(text, labels, operation)?;
    text.push_str(" ")?;
    text.push_str(bit_word(bit))?;
    text.push_str("\n")
}

/// A result that came too late: its ticket, and the one that its window runs.
#[tactic(auto, using(crate::proofs::Spelled::stale_whole))]
pub(crate) fn write_stale(
    text: &mut String,
    ticket: u32,
    current: Option<u32>,
) -> Result<(), AllocError>
    ensures { OnOk result (string_bytes text.new ≡ string_bytes text.old
        ++ line (codes "stale" ∷ decimal ticket ∷ current_text current ∷ [])) }
{
    match current {
        Some(current) => write_line(text, "stale", &[ticket, current]),
        None => {
            text.push_str("stale")?;
            write_spaced(text, &[ticket])?;
            text.push_str(" none\n")
        }
    }
}

/// The frame of an observable: its name, its raw bit, what the committed edges flip of it, and the
/// two together.
pub(crate) fn write_frame(
    text: &mut String,
    observable: &Observable,
    raw: bool,
    flip: bool,
) -> Result<(), AllocError>
    ensures { OnOk result (string_bytes text.new ≡ string_bytes text.old
        ++ line (codes "frame" ∷ printed_name observable.now ∷ bit_text raw ∷ bit_text flip
        ∷ bit_text (raw ⊕ flip) ∷ [])) }
{
    text.push_str("frame ")?;
    write_name(text, observable)?;
    write_bit(text, raw)?;
    write_bit(text, flip)?;
    write_bit(text, raw != flip)?;
    text.push_str("\n")
}

/// A bit after a space.
fn write_bit(text: &mut String, bit: bool) -> Result<(), AllocError>
    ensures { OnOk result (string_bytes text.new ≡ string_bytes text.old ++ 32 ∷ bit_text bit) }
{
    text.push_str(" ")?;
    text.push_str(bit_word(bit))
}

/// An observable's name.
fn write_name(text: &mut String, observable: &Observable) -> Result<(), AllocError>
    ensures { OnOk result (string_bytes text.new ≡ string_bytes text.old
        ++ printed_name observable.now) }
{
    write_label(text, &observable.name)?;
    if observable.seam {
        text.push_str(".seam")?;
    }
    Ok(())
}

/// How many windows there are and are committed, the defects, and the committed edges with their
/// weight.
#[derive(Clone, Copy)]
pub(crate) struct Summary {
    pub(crate) windows: u32,
    pub(crate) done: u32,
    pub(crate) defects: u32,
    pub(crate) edges: u64,
    pub(crate) weight: u64,
}

/// The line of a summary.
pub(crate) fn write_totals(text: &mut String, summary: &Summary) -> Result<(), AllocError>
    ensures { OnOk result (string_bytes text.new ≡ string_bytes text.old
        ++ counts_line summary.now.windows summary.now.done summary.now.defects summary.now.edges
        summary.now.weight) }
{
    let Summary {
        windows,
        done,
        defects,
        edges,
        weight,
    } = *summary;
    text.push_str("summary")?;
    write_field(text, "windows", u64::from(windows))?;
    write_field(text, "done", u64::from(done))?;
    write_field(text, "defects", u64::from(defects))?;
    write_field(text, "edges", edges)?;
    write_field(text, "weight", weight)?;
    end_line(text)
}
