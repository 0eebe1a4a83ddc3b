//! Lines, their fields, and what their first field asks of the others.
ghost use Rattle.std.specs.Prelude.{◌≡◌, ◌==◌, ◌∷◌, ◌++◌, List, ℕ, Bool, IfOk, bytes_eq, find, map, not, is_some, option_map, length, drop, slice_index_or, []};
ghost use Rattle.std.specs.List.{list_all, list_any};
ghost use Rattle.surface_model.specs.Text.{fields_of, is_foreign, is_skipped, is_rounds, is_between, starts_with_hash, shape_of, has_shape};
ghost use Rattle.schedule_reader.specs.Pieces.{lines_of, others};
ghost use Rattle.schedule_reader.specs.Lines.{kind_of, word_of, line_of};

use crate::piece::cut;
use std::alloc::{AllocError, Global};
use surface_model::FieldKind;

/// What a line is, by its first field.
#[derive(Clone, Copy, Debug, PartialEq, Eq)]
pub(crate) enum LineKind {
    Swiper,
    Distance,
    Weights,
    Patch,
    Init,
    Merge,
    Read,
    Cond,
    Rounds,
}

/// All kinds.
const KINDS: [LineKind; 9] = [
    LineKind::Swiper,
    LineKind::Distance,
    LineKind::Weights,
    LineKind::Patch,
    LineKind::Init,
    LineKind::Merge,
    LineKind::Read,
    LineKind::Cond,
    LineKind::Rounds,
];

/// The weight of an error.
const WEIGHT: FieldKind = FieldKind::ANumber(1, 1000);
/// The row or column of a tile.
const TILE: FieldKind = FieldKind::ANumber(0, 15);
/// A slot.
const SLOT: FieldKind = FieldKind::ANumber(0, 4095);
/// How many slots a merge lasts.
const SLOTS: FieldKind = FieldKind::ANumber(1, 4095);

/// A distance may be any number of its digits here: which are good is a fault of its own.
const DISTANCE: [FieldKind; 1] = [FieldKind::ANumber(0, 999_999_999)];

const WEIGHTS: [FieldKind; 2] = [WEIGHT, WEIGHT];

const PATCH: [FieldKind; 3] = [FieldKind::NewPatch, TILE, TILE];

const INIT: [FieldKind; 3] = [FieldKind::OldPatch, FieldKind::ABasis, SLOT];

const MERGE: [FieldKind; 5] = [
    FieldKind::NewLabel,
    FieldKind::OldPatch,
    FieldKind::OldPatch,
    SLOT,
    SLOTS,
];

const READ: [FieldKind; 4] = [
    FieldKind::NewLabel,
    FieldKind::OldPatch,
    FieldKind::ABasis,
    SLOT,
];

const COND: [FieldKind; 4] = [
    FieldKind::NewLabel,
    FieldKind::OldPatch,
    SLOT,
    FieldKind::OldObservable,
];

const ROUNDS: [FieldKind; 0] = [];

impl LineKind {
    /// The kind of the line that begins with this word, if there is one.
    pub(crate) fn of(word: &[u8]) -> Option<LineKind>
        ensures { result ≡ kind_of word.now }
    {
        kind_among(KINDS.as_slice(), word)
    }

    /// Whether a line of this kind begins with the word.
    fn begins_with(self, word: &[u8]) -> bool
        ensures { result ≡ bytes_eq word.now (word_of self) }
    {
        word == self.word()
    }

    /// The first field of a line of this kind.
    fn word(self) -> &'static [u8]
        ensures { result.now ≡ word_of self }
    {
        match self {
            LineKind::Swiper => b"swiper",
            LineKind::Distance => b"distance",
            LineKind::Weights => b"weights",
            LineKind::Patch => b"patch",
            LineKind::Init => b"init",
            LineKind::Merge => b"merge",
            LineKind::Read => b"read",
            LineKind::Cond => b"cond",
            LineKind::Rounds => b"rounds",
        }
    }

    /// What the fields after the first have to be, but for a version line. A condition may have
    /// more observables.
    pub(crate) fn shape(self) -> Option<&'static [FieldKind]>
        ensures { option_map (λ s. s.now) result ≡ shape_of (word_of self) }
    {
        match self {
            LineKind::Swiper => None,
            LineKind::Distance => Some(&DISTANCE),
            LineKind::Weights => Some(&WEIGHTS),
            LineKind::Patch => Some(&PATCH),
            LineKind::Init => Some(&INIT),
            LineKind::Merge => Some(&MERGE),
            LineKind::Read => Some(&READ),
            LineKind::Cond => Some(&COND),
            LineKind::Rounds => Some(&ROUNDS),
        }
    }
}

/// The first of these kinds whose lines begin with the word.
fn kind_among(kinds: &[LineKind], word: &[u8]) -> Option<LineKind>
    ensures { result ≡ find (λ kind. bytes_eq word.now (word_of kind)) kinds.now }
{
    for kind in kinds {
        if kind.begins_with(word) {
            return Some(*kind);
        }
    }
    None
}

/// The field at this place, or an empty one past the last.
pub(crate) fn field_at<'a>(fields: &[&'a [u8]], at: usize) -> &'a [u8]
    ensures { result.now ≡ slice_index_or (map (λ f. f.now) fields.now) at [] }
{
    if at < fields.len() { fields[at] } else { &[] }
}

/// The fields after the first.
pub(crate) fn after_first<'a, 'b>(fields: &'b [&'a [u8]]) -> &'b [&'a [u8]]
    ensures { map (λ f. f.now) result.now ≡ drop 1 (map (λ f. f.now) fields.now) }
{
    if fields.is_empty() {
        fields
    } else {
        &fields[1..]
    }
}

/// The parts of a line between runs of spaces.
pub(crate) fn fields_of(alloc: Global, line: &[u8]) -> Result<Vec<&[u8]>, AllocError>
    ensures { IfOk result (λ v. map (λ f. f.now) v.items ≡ fields_of line.now) }
{
    let mut fields = Vec::new(alloc);
    let mut rest = line;
    while !rest.is_empty() {
        let (field, left) = cut(b' ', rest);
        if !field.is_empty() {
            fields.push(field)?;
        }
        rest = left;
    }
    Ok(fields)
}

/// Whether a line has a byte that no text has.
pub(crate) fn is_foreign(line: &[u8]) -> bool
    ensures { result ≡ is_foreign line.now }
{
    !is_plain(line)
}

fn is_plain(line: &[u8]) -> bool
    ensures { result ≡ list_all (is_between 32 126) line.now }
{
    line.iter().all(|byte| is_printed(*byte))
}

fn is_printed(byte: u8) -> bool
    ensures { result ≡ is_between 32 126 byte }
{
    matches!(byte, b' '..=b'~')
}

/// Whether a line is blank or a comment.
#[tactic(auto, using(crate::proofs::Pieces::skipped_is))]
pub(crate) fn is_skipped(line: &[u8]) -> bool
    ensures { result ≡ is_skipped line.now }
{
    is_blank(line) || starts_with_hash(line)
}

fn starts_with_hash(line: &[u8]) -> bool
    ensures { result ≡ starts_with_hash line.now }
{
    !line.is_empty() && line[0] == b'#'
}

fn is_blank(line: &[u8]) -> bool
    ensures { result ≡ list_all (λ b. b == 32) line.now }
{
    line.iter().all(|byte| *byte == b' ')
}

/// Whether a line's first field is `rounds`.
pub(crate) fn is_rounds(line: &[u8]) -> bool
    ensures { result ≡ is_rounds line.now }
{
    let mut rest = line;
    while !rest.is_empty() {
        let (field, left) = cut(b' ', rest);
        if !field.is_empty() {
            return field == b"rounds".as_slice();
        }
        rest = left;
    }
    false
}

/// Whether a text has a line that isn't skipped.
pub(crate) fn has_other_lines(text: &[u8]) -> bool
    ensures { result ≡ others (lines_of text.now) }
{
    let mut rest = text;
    while !rest.is_empty() {
        let (line, left) = cut(b'\n', rest);
        if !is_skipped(line) {
            return true;
        }
        rest = left;
    }
    false
}
