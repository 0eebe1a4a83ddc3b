//! The fault of the next line against what the lines so far give.
ghost use Rattle.std.specs.Prelude.{◌≡◌, ◌∷◌, List, ℕ, true, Option, map, option_map, codes, false, slice_index_or};
ghost use Rattle.std.specs.List.{list_all};
ghost use Rattle.surface_model.specs.Text.{all_fields, has_shape, is_bad_distance, is_in_place, is_in_range, is_of_many, kinds_with};
ghost use Rattle.schedule_reader.specs.Faults.{reported_kind};
ghost use Rattle.schedule_reader.specs.Known.{fault_after_first, fault_in, is_known_in, is_new_in, is_repeated_in, is_too_many_in, rank_of, test_of};
ghost use Rattle.schedule_reader.specs.Lines.{line_of, word_of};
ghost use Rattle.schedule_reader.specs.Pieces.{lines_of, others};

use crate::fault::FaultKind;
use crate::field::{is_in_range, is_well_formed, number_of};
use crate::known::{Check, Place, Tables};
use crate::line::{LineKind, field_at, has_other_lines};
use surface_model::FieldKind;

/// The most patches of a schedule.
const PATCHES: usize = 64;
/// The most merges, reads and conditions together.
const MANY: usize = 256;

impl Tables {
    fn is_known(&self, kind: FieldKind, field: &[u8]) -> bool
        ensures { result ≡ is_known_in self.now kind field.now }
    {
        match kind {
            FieldKind::OldPatch => self.has_patch(field),
            FieldKind::OldObservable => self.has_observable(field),
            _ => true,
        }
    }

    fn is_new(&self, kind: FieldKind, field: &[u8]) -> bool
        ensures { result ≡ is_new_in self.now kind field.now }
    {
        match kind {
            FieldKind::NewPatch => !self.has_patch(field),
            FieldKind::NewLabel => !self.has_label(field),
            _ => true,
        }
    }

    fn passes(&self, check: Check, kind: FieldKind, field: &[u8]) -> bool
        ensures { result ≡ test_of self.now check kind field.now }
    {
        match check {
            Check::Form => is_well_formed(kind, field),
            Check::Range => is_in_range(kind, field),
            Check::Name => self.is_known(kind, field),
            Check::New => self.is_new(kind, field),
        }
    }

    #[tactic(auto, using(crate::proofs::Typed::typed_end))]
    fn all_typed(&self, check: Check, kinds: &[FieldKind], fields: &[&[u8]]) -> bool
        ensures { result ≡ list_all (λ (p : FieldKind × List ℕ). test_of self.now check p.0 p.1)
            (kinds_with kinds.now (map (λ f. f.now) fields.now)) }
    {
        for at in 0..fields.len() {
            if !self.passes(check, kind_at(kinds, at), field_at(fields, at)) {
                return false;
            }
        }
        true
    }

    /// Whether every field of a line passes.
    fn all_pass(&self, check: Check, kind: LineKind, fields: &[&[u8]]) -> bool
        ensures { result ≡ all_fields (test_of self.now check)
            (line_of kind 0 (map (λ f. f.now) fields.now)) }
    {
        match kind.shape() {
            Some(kinds) => self.all_typed(check, kinds, fields),
            None => true,
        }
    }

    /// Whether a patch is prepared or read once more.
    fn is_repeated(&self, kind: LineKind, fields: &[&[u8]]) -> bool
        ensures { result ≡ is_repeated_in self.now (line_of kind 0 (map (λ f. f.now) fields.now)) }
    {
        match kind {
            LineKind::Init => self.is_prepared(field_at(fields, 0)),
            LineKind::Read => self.is_measured(field_at(fields, 1)),
            _ => false,
        }
    }

    fn is_too_many(&self, kind: LineKind, fields: &[&[u8]]) -> bool
        ensures { result ≡ is_too_many_in self.now (line_of kind 0 (map (λ f. f.now) fields.now)) }
    {
        match kind {
            LineKind::Patch => PATCHES <= self.patches.len(),
            LineKind::Merge | LineKind::Read | LineKind::Cond => {
                MANY <= self.merges.len() + self.reads.len() + self.conds.len()
            }
            _ => false,
        }
    }

    /// Whether a line stands where its kind may, before this text.
    fn is_in_place(&self, kind: LineKind, fields: &[&[u8]], after: &[u8]) -> bool
        ensures { result ≡ is_in_place (rank_of self.now.place) (others (lines_of after.now))
            (line_of kind 0 (map (λ f. f.now) fields.now)) }
    {
        match self.place {
            Place::Version => is_version(kind, fields),
            Place::Distance => matches!(kind, LineKind::Distance),
            Place::Weights => matches!(kind, LineKind::Weights),
            Place::Body => match kind {
                LineKind::Distance | LineKind::Weights => false,
                LineKind::Rounds => !has_other_lines(after),
                _ => true,
            },
        }
    }

    /// The first fault of a line after the first, by their order.
    fn fault_after_first(&self, kind: LineKind, fields: &[&[u8]]) -> Option<FaultKind>
        ensures { result ≡ option_map reported_kind
            (fault_after_first self.now (line_of kind 0 (map (λ f. f.now) fields.now))) }
    {
        if !has_shape(kind, fields) || !self.all_pass(Check::Form, kind, fields) {
            Some(FaultKind::BadLine)
        } else if !self.all_pass(Check::Range, kind, fields) {
            Some(FaultKind::BadNumber)
        } else if !self.all_pass(Check::Name, kind, fields) {
            Some(FaultKind::UnknownName)
        } else if !self.all_pass(Check::New, kind, fields) || self.is_repeated(kind, fields) {
            Some(FaultKind::Repeated)
        } else if is_bad_distance(kind, fields) {
            Some(FaultKind::BadDistance)
        } else if self.is_too_many(kind, fields) {
            Some(FaultKind::TooMany)
        } else {
            None
        }
    }

    /// The first fault of the next line, which stands before this text.
    pub(crate) fn fault_of(
        &self,
        kind: LineKind,
        fields: &[&[u8]],
        after: &[u8],
    ) -> Option<FaultKind>
        ensures { result ≡ option_map reported_kind (fault_in self.now (others (lines_of after.now))
            (line_of kind 0 (map (λ f. f.now) fields.now))) }
    {
        if !self.is_in_place(kind, fields, after) {
            return Some(FaultKind::BadLine);
        }
        match self.place {
            Place::Version => None,
            Place::Distance | Place::Weights | Place::Body => self.fault_after_first(kind, fields),
        }
    }
}

/// The kind at this place; a line with more fields goes on with observables.
fn kind_at(kinds: &[FieldKind], at: usize) -> FieldKind
    ensures { result ≡ slice_index_or kinds.now at FieldKind.OldObservable }
{
    if at < kinds.len() {
        kinds[at]
    } else {
        FieldKind::OldObservable
    }
}

/// Whether the fields are as many as the line's kind asks for; a condition may have more.
fn has_shape(kind: LineKind, fields: &[&[u8]]) -> bool
    ensures { result ≡ has_shape (line_of kind 0 (map (λ f. f.now) fields.now)) }
{
    match kind {
        LineKind::Swiper => false,
        LineKind::Distance => fields.len() == 1,
        LineKind::Weights => fields.len() == 2,
        LineKind::Patch | LineKind::Init => fields.len() == 3,
        LineKind::Merge => fields.len() == 5,
        LineKind::Read => fields.len() == 4,
        LineKind::Cond => fields.len() >= 4,
        LineKind::Rounds => fields.is_empty(),
    }
}

fn is_version(kind: LineKind, fields: &[&[u8]]) -> bool
    ensures { result ≡ is_in_place 0 false (line_of kind 0 (map (λ f. f.now) fields.now)) }
{
    matches!(kind, LineKind::Swiper) && fields.len() == 1 && field_at(fields, 0) == b"1".as_slice()
}

fn is_bad_distance(kind: LineKind, fields: &[&[u8]]) -> bool
    requires shape { has_shape (line_of kind 0 (map (λ f. f.now) fields.now)) ≡ true }
    requires range { all_fields is_in_range (line_of kind 0 (map (λ f. f.now) fields.now)) ≡ true }
    ensures { result ≡ is_bad_distance (line_of kind 0 (map (λ f. f.now) fields.now)) }
{
    match kind {
        LineKind::Distance => {
            let distance = number_of(field_at(fields, 0));
            distance % 2 == 0 || distance < 3 || distance > 11
        }
        _ => false,
    }
}
