//! The reader of slots.
ghost use Rattle.std.specs.Prelude.{◌≡◌, ◌≤◌, ◌<◌, ◌+◌, ◌-◌, ◌^◌, ◌==◌, [], IfErr, IfOk, IsErrOf, List, ℕ, length};
ghost use Rattle.port_io.specs.Port.{Rose};
ghost use Rattle.port_io.specs.Traffic.{IsAtEnd, KeepsCounts, Moves, taken};
ghost use Rattle.surface_model.specs.Layout.{last_slot};
ghost use Rattle.surface_model.specs.Measurements.{bits_of_slot};
ghost use Rattle.syndrome_source.specs.Rows.{IsNoEnd, IsNoRow, IsRow};
ghost use Rattle.measure_map.specs.Placed.{map_of};
ghost use Rattle.run_rounds.specs.Fed.{IsSlotFed, IsSlotUnfed};
ghost use Rattle.run_rounds.specs.Slots.{At, IsSlotRead, IsSlotUnread, at_first, line_of, most_lines};

use detector_graph::{Bits, Folded};
use measure_map::{MeasureMap, Observable};
use port_io::Port;
use schedule_reader::CondItem;
use schedule_rules::Program;
use std::alloc::{AllocError, Global};
use std::marker::Model;
use syndrome_source::{RowError, RowReader};

/// Reads the rows of a program's slots, one after another, and answers the values that each gives.
pub struct SlotReader<'a> {
    program: &'a Program,
    map: &'a MeasureMap,
    /// The number of slot 0's line.
    first_line: u32,
    last: u32,
    slot: u32,
    /// The row of the slot before, and no bits before slot 0.
    before: Bits,
}

impl<'a> Drop for SlotReader<'a> {
    fn drop(self) {
        let SlotReader {
            program: _,
            map: _,
            first_line: _,
            last: _,
            slot: _,
            before: _,
        } = self;
    }
}

impl<'a> Model for SlotReader<'a> {
    ghost use Rattle.run_rounds.specs.Slots.{At, IsReader};

    ghost Value = { At };

    ghost view = { λ r. record { schedule = r.program.now; slot = r.slot; before = r.before } };

    ghost invariant = { λ r. IsReader r.program.now r.map.now r.first_line r.last r.slot r.before };
}

impl<'a> SlotReader<'a> {
    /// A reader that stands before the row of slot 0, after the program's header.
    pub fn new(
        alloc: Global,
        program: &'a Program,
        map: &'a MeasureMap,
    ) -> Result<SlotReader<'a>, AllocError>
        requires map { map.now ≡ map_of program.now }
        requires lines { program.now.rounds_line ≤ most_lines }
        ensures { IfOk result (λ r. r ≡ at_first program.now) }
    {
        program.is_accepted();
        let first_line = program.schedule().rounds_line + 1;
        let last = program.last_slot();
        let before = Bits::zeros(alloc, 0)?;
        Ok(SlotReader {
            program,
            map,
            first_line,
            last,
            slot: 0,
            before,
        })
    }

    /// How many slots there are, from 0 to the last.
    pub fn slots(&self) -> u32
        ensures { result ≡ last_slot self.now.schedule + 1 }
    {
        self.last + 1
    }

    /// The conditions of the schedule, in the order of their lines.
    pub fn conds(&self) -> &[CondItem]
        ensures { result.now ≡ self.now.schedule.conds }
    {
        self.program.schedule().conds.as_slice()
    }

    /// Reads the row of the next slot, and answers the values that it gives with the row before.
    ///
    /// # Errors
    ///
    /// As those of a row: after the first offending byte, where the input ends before the row, and
    /// where a take fails. The reader then is as before. At want of memory nothing was taken, or
    /// the whole row.
    pub fn next<P: Port>(&mut self, alloc: Global, port: &mut P) -> Result<Folded, RowError>
        requires { self.old.slot ≤ last_slot self.old.schedule }
        ensures read { IfOk result (λ folded. IsSlotRead self.old self.new folded.defects
            folded.raws (P.left port.old) (P.left port.new) (P.tape port.old) (P.tape port.new)) }
        ensures slot { IfOk result (λ folded. folded.slot ≡ self.old.slot) }
        ensures refused { IfErr result (λ error. (bytes : List ℕ)
            × Moves P.Port port.old port.new (taken bytes)
            × IsSlotUnread self.old (P.left port.new) bytes error) }
        ensures kept { IfErr result (λ _. self.new ≡ self.old) }
        ensures fault { IsErrOf result RowError.ReadFault →
            Rose (P.read_faults port.old) (P.read_faults port.new) }
        ensures counts { KeepsCounts P.Port port.old port.new }
    {
        let row = self.row(alloc, port)?;
        let folded = self.map.fold(alloc, self.slot, &self.before, &row)?;
        self.before = row;
        self.slot += 1;
        Ok(folded)
    }

    /// Reads the row of the next slot as `next` does, where a script is to follow the rows: the
    /// last of them has its line feed too.
    ///
    /// # Errors
    ///
    /// As those of `next`; the input may not end in the last row.
    pub fn next_before_more<P: Port>(
        &mut self,
        alloc: Global,
        port: &mut P,
    ) -> Result<Folded, RowError>
        requires { self.old.slot ≤ last_slot self.old.schedule }
        ensures read { IfOk result (λ folded. IsSlotFed self.old self.new folded.defects folded.raws
            (P.left port.old) (P.left port.new) (P.tape port.old) (P.tape port.new)) }
        ensures slot { IfOk result (λ folded. folded.slot ≡ self.old.slot) }
        ensures refused { IfErr result (λ error. (bytes : List ℕ)
            × Moves P.Port port.old port.new (taken bytes)
            × IsSlotUnfed self.old (P.left port.new) bytes error) }
        ensures kept { IfErr result (λ _. self.new ≡ self.old) }
        ensures fault { IsErrOf result RowError.ReadFault →
            Rose (P.read_faults port.old) (P.read_faults port.new) }
        ensures counts { KeepsCounts P.Port port.old port.new }
    {
        let line = self.line();
        let width = self.width();
        let fed = take_row(alloc, port, line, width, false)?;
        let folded = self.map.fold(alloc, self.slot, &self.before, &fed)?;
        self.before = fed;
        self.slot = self.slot + 1;
        Ok(folded)
    }

    /// The row of the next slot.
    fn row<P: Port>(&self, alloc: Global, port: &mut P) -> Result<Bits, RowError>
        requires { self.now.slot ≤ last_slot self.now.schedule }
        ensures row { IfOk result (λ row. (bytes : List ℕ)
            × Moves P.Port port.old port.new (taken bytes)
            × IsRow (length (bits_of_slot self.now.schedule self.now.slot)) (self.now.slot
            == last_slot self.now.schedule) row bytes (P.left port.new)) }
        ensures size { IfOk result (λ row. length row
            ≡ length (bits_of_slot self.now.schedule self.now.slot)) }
        ensures refused { IfErr result (λ error. (bytes : List ℕ)
            × Moves P.Port port.old port.new (taken bytes)
            × IsNoRow (line_of self.now) (length (bits_of_slot self.now.schedule self.now.slot))
            (self.now.slot == last_slot self.now.schedule) bytes (P.left port.new) error) }
        ensures fault { IsErrOf result RowError.ReadFault →
            Rose (P.read_faults port.old) (P.read_faults port.new) }
        ensures counts { KeepsCounts P.Port port.old port.new }
    {
        let line = self.line();
        let width = self.width();
        let is_last = self.slot == self.last;
        take_row(alloc, port, line, width, is_last)
    }

    /// How many bits the row of the next slot has.
    fn width(&self) -> u32
        requires { self.now.slot ≤ last_slot self.now.schedule }
        ensures { result ≡ length (bits_of_slot self.now.schedule self.now.slot) }
    {
        self.map.width(self.slot)
    }

    /// The number of the next line.
    fn line(&self) -> u32
        ensures value { result ≡ line_of self.now }
        ensures small { result < 2 ^ 32 - 1 }
    {
        self.first_line + self.slot
    }

    /// The number of the line after the last row.
    pub fn line_behind(&self) -> u32
        ensures value { result ≡ self.now.schedule.rounds_line + 2 + last_slot self.now.schedule }
        ensures small { result < 2 ^ 31 }
    {
        self.first_line + self.last + 1
    }

    /// The observables of the schedule, in order.
    pub fn observables(&self) -> &[Observable]
        ensures { result.now ≡ (map_of self.now.schedule).observables }
    {
        self.map.observables()
    }

    /// Sees that the input ends after the last row.
    ///
    /// # Errors
    ///
    /// `Fault` of kind `Trailing` after a further byte.
    pub fn finish<P: Port>(&self, port: &mut P) -> Result<(), RowError>
        ensures end { IfOk result (λ _. Moves P.Port port.old port.new []
            × IsAtEnd (P.left port.new)) }
        ensures refused { IfErr result (λ error. (bytes : List ℕ)
            × Moves P.Port port.old port.new (taken bytes)
            × IsNoEnd (line_of self.now) bytes error) }
        ensures fault { IsErrOf result RowError.ReadFault →
            Rose (P.read_faults port.old) (P.read_faults port.new) }
        ensures counts { KeepsCounts P.Port port.old port.new }
    {
        let mut reader = RowReader::new(self.line());
        reader.finish(port)
    }
}

/// Takes a row of so many bits from this line; in the last row the end of input may stand for the
/// line feed.
fn take_row<P: Port>(
    alloc: Global,
    port: &mut P,
    line: u32,
    width: u32,
    is_last: bool,
) -> Result<Bits, RowError>
    requires { line < 2 ^ 32 - 1 }
    ensures row { IfOk result (λ row. (bytes : List ℕ)
        × Moves P.Port port.old port.new (taken bytes)
        × IsRow width is_last row bytes (P.left port.new)) }
    ensures size { IfOk result (λ row. length row ≡ width) }
    ensures refused { IfErr result (λ error. (bytes : List ℕ)
        × Moves P.Port port.old port.new (taken bytes)
        × IsNoRow line width is_last bytes (P.left port.new) error) }
    ensures fault { IsErrOf result RowError.ReadFault →
        Rose (P.read_faults port.old) (P.read_faults port.new) }
    ensures counts { KeepsCounts P.Port port.old port.new }
{
    let mut reader = RowReader::new(line);
    if is_last {
        reader.last_row(alloc, port, width)
    } else {
        reader.next_row(alloc, port, width)
    }
}
