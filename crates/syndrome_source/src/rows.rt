//! The rows of an input, one for each slot.
ghost use Rattle.std.specs.Prelude.{suc, ◌≡◌, ◌<◌, ◌≤◌, ◌++◌, ◌∷◌, ◌+◌, ◌-◌, ◌^◌, ◌⊎◌, [], Bool, true, false, List, ℕ, IfErr, IfOk, IsErrOf, is_ok, length, if◌then◌else◌};
ghost use Rattle.port_io.specs.Port.{Rose};
ghost use Rattle.port_io.specs.Traffic.{IsAtEnd, KeepsCounts, Moves, taken};
ghost use Rattle.syndrome_source.specs.Rows.{IsNoEnd, IsNoRow, IsRow, byte_of, is_last, written};

use crate::{RowError, RowKind};
use detector_graph::Bits;
use port_io::{Port, Take};
use std::alloc::Global;
use std::marker::Model;

/// A reader of rows, seen as the number of the line that it reads next.
#[derive(Drop)]
pub struct RowReader {
    line: u32,
}

impl Model for RowReader {
    ghost use Rattle.std.specs.Prelude.{ℕ};

    ghost Value = { ℕ };

    ghost view = { λ r. r.line };
}

impl RowReader {
    /// The next line to read has this number.
    pub fn new(line: u32) -> RowReader
        ensures { result ≡ line }
    {
        RowReader { line }
    }

    /// Takes a row of so many bits with its line feed. A bit is true where it is written `1`.
    ///
    /// # Errors
    ///
    /// `Fault` after the first offending byte, and `Ended` where the input
    /// ends before the line feed. `Memory` comes before a byte is taken. After
    /// any error the next line has the same number, and a further call goes on
    /// at the next byte.
    pub fn next_row<P: Port>(
        &mut self,
        alloc: Global,
        port: &mut P,
        count: u32,
    ) -> Result<Bits, RowError>
        requires { self.old < 2 ^ 32 - 1 }
        ensures row { IfOk result (λ row. (bytes : List ℕ)
            × Moves P.Port port.old port.new (taken bytes)
            × IsRow count false row bytes (P.left port.new)) }
        ensures size { IfOk result (λ row. length row ≡ count) }
        ensures refused { IfErr result (λ error. (bytes : List ℕ)
            × Moves P.Port port.old port.new (taken bytes)
            × IsNoRow self.old count false bytes (P.left port.new) error) }
        ensures fault { IsErrOf result RowError.ReadFault →
            Rose (P.read_faults port.old) (P.read_faults port.new) }
        ensures memory { IsErrOf result RowError.Memory → port.new ≡ port.old }
        ensures line { self.new ≡ (if is_ok result then self.old + 1 else self.old) }
        ensures counts { KeepsCounts P.Port port.old port.new }
    {
        let row = take_row(alloc, port, self.line, count, RowEnd::LineFeed)?;
        self.line += 1;
        Ok(row)
    }

    /// Takes the last row: as `next_row`, but the end of input may stand for
    /// its line feed.
    ///
    /// # Errors
    ///
    /// As at `next_row`; `Ended` where the input ends within the bits.
    pub fn last_row<P: Port>(
        &mut self,
        alloc: Global,
        port: &mut P,
        count: u32,
    ) -> Result<Bits, RowError>
        requires { self.old < 2 ^ 32 - 1 }
        ensures row { IfOk result (λ row. (bytes : List ℕ)
            × Moves P.Port port.old port.new (taken bytes)
            × IsRow count true row bytes (P.left port.new)) }
        ensures size { IfOk result (λ row. length row ≡ count) }
        ensures refused { IfErr result (λ error. (bytes : List ℕ)
            × Moves P.Port port.old port.new (taken bytes)
            × IsNoRow self.old count true bytes (P.left port.new) error) }
        ensures fault { IsErrOf result RowError.ReadFault →
            Rose (P.read_faults port.old) (P.read_faults port.new) }
        ensures memory { IsErrOf result RowError.Memory → port.new ≡ port.old }
        ensures line { self.new ≡ (if is_ok result then self.old + 1 else self.old) }
        ensures counts { KeepsCounts P.Port port.old port.new }
    {
        let row = take_row(alloc, port, self.line, count, RowEnd::LineFeedOrInput)?;
        self.line += 1;
        Ok(row)
    }

    /// Asks for the end of input.
    ///
    /// # Errors
    ///
    /// `Fault` of kind `Trailing` after a further byte.
    pub fn finish<P: Port>(&mut self, port: &mut P) -> Result<(), RowError>
        ensures end { IfOk result (λ _. Moves P.Port port.old port.new []
            × IsAtEnd (P.left port.new)) }
        ensures refused { IfErr result (λ error. (bytes : List ℕ)
            × Moves P.Port port.old port.new (taken bytes) × IsNoEnd self.old bytes error) }
        ensures fault { IsErrOf result RowError.ReadFault →
            Rose (P.read_faults port.old) (P.read_faults port.new) }
        ensures line { self.new ≡ self.old }
        ensures counts { KeepsCounts P.Port port.old port.new }
    {
        take_nothing(port, self.line)
    }
}

/// What may end a row.
#[derive(Clone, Copy)]
enum RowEnd {
    /// Its line feed.
    LineFeed,
    /// Its line feed or the end of input: so the last row ends.
    LineFeedOrInput,
}

/// Takes the row in this line.
fn take_row<P: Port>(
    alloc: Global,
    port: &mut P,
    line: u32,
    count: u32,
    end: RowEnd,
) -> Result<Bits, RowError>
    ensures row { IfOk result (λ row. (bytes : List ℕ)
        × Moves P.Port port.old port.new (taken bytes)
        × IsRow count (is_last end) row bytes (P.left port.new)) }
    ensures size { IfOk result (λ row. length row ≡ count) }
    ensures refused { IfErr result (λ error. (bytes : List ℕ)
        × Moves P.Port port.old port.new (taken bytes)
        × IsNoRow line count (is_last end) bytes (P.left port.new) error) }
    ensures fault { IsErrOf result RowError.ReadFault →
        Rose (P.read_faults port.old) (P.read_faults port.new) }
    ensures memory { IsErrOf result RowError.Memory → port.new ≡ port.old }
    ensures counts { KeepsCounts P.Port port.old port.new }
{
    let row = take_bits(alloc, port, line, count)?;
    take_end(port, line, end)?;
    Ok(row)
}

/// Takes the bits of a row.
fn take_bits<P: Port>(alloc: Global, port: &mut P, line: u32, count: u32) -> Result<Bits, RowError>
    ensures row { IfOk result (λ row. Moves P.Port port.old port.new (taken (written row))) }
    ensures size { IfOk result (λ row. length row ≡ count) }
    ensures refused { IfErr result (λ error. (bytes : List ℕ)
        × Moves P.Port port.old port.new (taken bytes)
        × ((last : Bool) → IsNoRow line count last bytes (P.left port.new) error)) }
    ensures fault { IsErrOf result RowError.ReadFault →
        Rose (P.read_faults port.old) (P.read_faults port.new) }
    ensures memory { IsErrOf result RowError.Memory → port.new ≡ port.old }
    ensures counts { KeepsCounts P.Port port.old port.new }
{
    let mut row = Bits::zeros(alloc, count)?;
    for at in 0..count {
        let bit = take_bit(port, line)?;
        row.set(at, bit);
    }
    Ok(row)
}

/// Takes a bit of a row.
fn take_bit<P: Port>(port: &mut P, line: u32) -> Result<bool, RowError>
    ensures bit { IfOk result (λ bit. Moves P.Port port.old port.new (taken (byte_of bit ∷ []))) }
    ensures refused { IfErr result (λ error. (bytes : List ℕ)
        × Moves P.Port port.old port.new (taken bytes)
        × ((more : ℕ) (last : Bool) → IsNoRow line (suc more) last bytes (P.left port.new) error)) }
    ensures fault { IsErrOf result RowError.ReadFault →
        Rose (P.read_faults port.old) (P.read_faults port.new) }
    ensures memory { IsErrOf result RowError.Memory → ⊥ }
    ensures counts { KeepsCounts P.Port port.old port.new }
{
    match port.take() {
        Take::Byte(b'0') => Ok(false),
        Take::Byte(b'1') => Ok(true),
        Take::Byte(b'\n') => Err(RowError::Fault {
            line,
            kind: RowKind::Short,
        }),
        Take::Byte(_) => Err(RowError::Fault {
            line,
            kind: RowKind::Byte,
        }),
        Take::End => Err(RowError::Ended { line }),
        Take::Failed => Err(RowError::ReadFault),
    }
}

/// Takes the line feed of a row, for which the end of input may stand in the last row.
fn take_end<P: Port>(port: &mut P, line: u32, end: RowEnd) -> Result<(), RowError>
    ensures end { IfOk result (λ _. (bytes : List ℕ)
        × Moves P.Port port.old port.new (taken bytes)
        × IsRow 0 (is_last end) [] bytes (P.left port.new)) }
    ensures refused { IfErr result (λ error. (bytes : List ℕ)
        × Moves P.Port port.old port.new (taken bytes)
        × IsNoRow line 0 (is_last end) bytes (P.left port.new) error) }
    ensures fault { IsErrOf result RowError.ReadFault →
        Rose (P.read_faults port.old) (P.read_faults port.new) }
    ensures memory { IsErrOf result RowError.Memory → ⊥ }
    ensures counts { KeepsCounts P.Port port.old port.new }
{
    match port.take() {
        Take::Byte(b'\n') => Ok(()),
        Take::Byte(b'0' | b'1') => Err(RowError::Fault {
            line,
            kind: RowKind::Long,
        }),
        Take::Byte(_) => Err(RowError::Fault {
            line,
            kind: RowKind::Byte,
        }),
        Take::End => match end {
            RowEnd::LineFeed => Err(RowError::Ended { line }),
            RowEnd::LineFeedOrInput => Ok(()),
        },
        Take::Failed => Err(RowError::ReadFault),
    }
}

/// Sees that the input ends before this line.
fn take_nothing<P: Port>(port: &mut P, line: u32) -> Result<(), RowError>
    ensures end { IfOk result (λ _. Moves P.Port port.old port.new [] × IsAtEnd (P.left port.new)) }
    ensures refused { IfErr result (λ error. (bytes : List ℕ)
        × Moves P.Port port.old port.new (taken bytes) × IsNoEnd line bytes error) }
    ensures fault { IsErrOf result RowError.ReadFault →
        Rose (P.read_faults port.old) (P.read_faults port.new) }
    ensures counts { KeepsCounts P.Port port.old port.new }
{
    match port.take() {
        Take::Byte(_) => Err(RowError::Fault {
            line,
            kind: RowKind::Trailing,
        }),
        Take::End => Ok(()),
        Take::Failed => Err(RowError::ReadFault),
    }
}
