//! The lines of each slot.
ghost use Rattle.std.specs.Prelude.{◌≡◌, ◌+◌, ◌-◌, ◌<◌, ◌≤◌, ◌&&◌, All, length, true, IfOk};
ghost use Rattle.surface_model.specs.Schedules.{Schedule as Whole};
ghost use Rattle.surface_model.specs.Layout.{last_slot, regions_at};
ghost use Rattle.surface_model.specs.Accepted.{IsAccepted, IsInRange};
ghost use Rattle.surface_model.specs.Limits.{most_patches, most_slots};
ghost use Rattle.patch_layout.specs.Seen.{IsWellFormed};
ghost use Rattle.timetable.specs.Spans.{AreReadings};
ghost use Rattle.timetable.specs.Times.{alive_at, has_none, inits_at, is_quiet, is_still, merges_at, reads_at, splits_at, starts_at, times_of};

use crate::active::regions_of;
use crate::lines::{SpanKind, readings};
use crate::spans::spread;
use detector_graph::Rows;
use patch_layout::Region;
use schedule_reader::Schedule;
use schedule_rules::Program;
use std::alloc::{AllocError, Global};
use std::marker::Model;

/// For each slot of a schedule the lines that begin, go on or end in it, by their numbers among the
/// lines of their kind, ascending.
pub struct Timetable {
    slots: u32,
    inits: Rows,
    reads: Rows,
    starts: Rows,
    splits: Rows,
    alive: Rows,
    merges: Rows,
}

impl Drop for Timetable {
    fn drop(self) {
        let Timetable {
            slots: _,
            inits: _,
            reads: _,
            starts: _,
            splits: _,
            alive: _,
            merges: _,
        } = self;
    }
}

impl Model for Timetable {
    ghost use Rattle.timetable.specs.Spans.{AreReadings};
    ghost use Rattle.timetable.specs.Times.{Times, AreLikeLong};

    ghost Value = { Times };

    ghost view = { λ t. record {
      inits = t.inits.rows;
      reads = t.reads.rows;
      starts = t.starts.rows;
      splits = t.splits.rows;
      alive = t.alive.rows;
      merges = t.merges.rows;
    } };

    ghost invariant = { λ t. AreLikeLong t.slots (record {
      inits = t.inits.rows;
      reads = t.reads.rows;
      starts = t.starts.rows;
      splits = t.splits.rows;
      alive = t.alive.rows;
      merges = t.merges.rows;
    }) };
}

impl Timetable {
    /// The timetable of a schedule.
    pub fn new(alloc: Global, program: &Program) -> Result<Timetable, AllocError>
        ensures { IfOk result (λ t. t ≡ times_of program.now) }
    {
        program.is_accepted();
        let schedule = program.schedule();
        schedule.is_read();
        let readings = readings(alloc, schedule)?;
        let times = Timetable::spread(alloc, schedule, &readings, slots_of(program));
        drop(readings);
        times
    }

    /// The timetable of a schedule of so many slots, by the readings of its patches.
    fn spread(
        alloc: Global,
        schedule: &Schedule,
        readings: &Rows,
        slots: u32,
    ) -> Result<Timetable, AllocError>
        requires ranges { IsInRange schedule.now }
        requires few { length schedule.now.patches ≤ most_patches }
        requires readings { AreReadings schedule.now readings.now.rows }
        requires slots { slots ≡ last_slot schedule.now + 1 }
        requires few_slots { slots ≤ most_slots }
        ensures { IfOk result (λ t. t ≡ times_of schedule.now) }
    {
        Ok(Timetable {
            slots,
            inits: spread(alloc, schedule, readings, SpanKind::Inits, slots)?,
            reads: spread(alloc, schedule, readings, SpanKind::Reads, slots)?,
            starts: spread(alloc, schedule, readings, SpanKind::Starts, slots)?,
            splits: spread(alloc, schedule, readings, SpanKind::Splits, slots)?,
            alive: spread(alloc, schedule, readings, SpanKind::Lives, slots)?,
            merges: spread(alloc, schedule, readings, SpanKind::Merges, slots)?,
        })
    }

    /// How many slots there are, from 0 to the last.
    #[tactic(auto, using(crate::proofs::Timed::slots_are))]
    pub fn slots(&self) -> u32
        ensures count { result ≡ length self.now.inits }
        ensures last { (s : Whole) → self.now ≡ times_of s → result ≡ last_slot s + 1 }
    {
        self.slots
    }

    /// The preparations of a slot.
    #[tactic(auto, using(crate::proofs::Timed::inits_are, crate::proofs::Timed::inits_known))]
    pub fn inits(&self, slot: u32) -> &[u32]
        requires { slot < length self.now.inits }
        ensures lines { (s : Whole) → self.now ≡ times_of s → result.now ≡ inits_at s slot }
        ensures known { (s : Whole) → self.now ≡ times_of s →
            All (λ n. n < length s.inits) result.now }
    {
        self.inits.row(slot)
    }

    /// The readings of a slot.
    pub fn reads(&self, slot: u32) -> &[u32]
        requires { slot < length self.now.inits }
        ensures lines { (s : Whole) → self.now ≡ times_of s → result.now ≡ reads_at s slot }
        ensures known { (s : Whole) → self.now ≡ times_of s →
            All (λ n. n < length s.reads) result.now }
    {
        self.reads.row(slot)
    }

    /// The merges that begin in a slot.
    fn starts(&self, slot: u32) -> &[u32]
        requires { slot < length self.now.inits }
        ensures lines { (s : Whole) → self.now ≡ times_of s → result.now ≡ starts_at s slot }
        ensures known { (s : Whole) → self.now ≡ times_of s →
            All (λ n. n < length s.merges) result.now }
    {
        self.starts.row(slot)
    }

    /// The merges that are split in a slot.
    pub fn splits(&self, slot: u32) -> &[u32]
        requires { slot < length self.now.inits }
        ensures lines { (s : Whole) → self.now ≡ times_of s → result.now ≡ splits_at s slot }
        ensures known { (s : Whole) → self.now ≡ times_of s →
            All (λ n. n < length s.merges) result.now }
    {
        self.splits.row(slot)
    }

    /// The preparations of the patches that are prepared by a slot and not read yet.
    pub fn alive(&self, slot: u32) -> &[u32]
        requires { slot < length self.now.inits }
        ensures lines { (s : Whole) → self.now ≡ times_of s → result.now ≡ alive_at s slot }
        ensures known { (s : Whole) → self.now ≡ times_of s →
            All (λ n. n < length s.inits) result.now }
    {
        self.alive.row(slot)
    }

    /// The merges that are active in a slot.
    pub fn merges(&self, slot: u32) -> &[u32]
        requires { slot < length self.now.inits }
        ensures lines { (s : Whole) → self.now ≡ times_of s → result.now ≡ merges_at s slot }
        ensures known { (s : Whole) → self.now ≡ times_of s →
            All (λ n. n < length s.merges) result.now }
    {
        self.merges.row(slot)
    }

    /// The regions that are active in a slot: the patches that are alone, by their preparations,
    /// and then the merged ones.
    pub fn regions(
        &self,
        alloc: Global,
        schedule: &Schedule,
        slot: u32,
    ) -> Result<Vec<Region>, AllocError>
        requires accepted { IsAccepted schedule.now }
        requires times { self.now ≡ times_of schedule.now }
        requires slot { slot < length self.now.inits }
        ensures regions { IfOk result (λ v. v.items ≡ regions_at schedule.now slot) }
        ensures well_formed { IfOk result (λ v. All IsWellFormed v.items) }
    {
        regions_of(alloc, schedule, self.alive(slot), self.merges(slot))
    }

    /// Whether nothing begins or ends in a slot: no patch is prepared or read and no merge begins
    /// or is split, and no patch was read and no merge split in the slot before.
    pub fn is_quiet(&self, slot: u32) -> bool
        requires { slot < length self.now.inits }
        ensures quiet { (s : Whole) → self.now ≡ times_of s → result ≡ is_quiet s slot }
        ensures same { (s : Whole) → IsAccepted s → self.now ≡ times_of s → result ≡ true →
            regions_at s slot ≡ regions_at s (slot - 1) }
    {
        self.is_still(slot)
    }

    fn is_still(&self, slot: u32) -> bool
        requires { slot < length self.now.inits }
        ensures { result ≡ is_still self.now slot }
    {
        has_none(&self.inits, slot)
            && has_none(&self.starts, slot)
            && self.ends_none(slot)
            && (slot == 0 || self.ends_none(slot - 1))
    }

    /// Whether no patch is read and no merge is split in a slot.
    fn ends_none(&self, slot: u32) -> bool
        requires { slot < length self.now.inits }
        ensures { result ≡ (has_none self.now.reads slot && has_none self.now.splits slot) }
    {
        has_none(&self.reads, slot) && has_none(&self.splits, slot)
    }
}

/// How many slots a program has.
#[tactic(auto, using(crate::proofs::Lined::few_slots))]
fn slots_of(program: &Program) -> u32
    ensures slots { result ≡ last_slot program.now + 1 }
    ensures few { result ≤ most_slots }
{
    program.is_accepted();
    program.last_slot() + 1
}

/// Whether a slot has no numbers.
fn has_none(rows: &Rows, slot: u32) -> bool
    requires { slot < length rows.now.rows }
    ensures { result ≡ has_none rows.now.rows slot }
{
    rows.row(slot).is_empty()
}
