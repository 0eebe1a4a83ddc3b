//! How an input is made.
ghost use Rattle.std.specs.Prelude.{◌≡◌, ◌≤◌, ◌++◌, IfErr, IfOk, None, OnOk, length};
ghost use Rattle.surface_model.specs.Limits.{most_detectors, most_text_bytes};
ghost use Rattle.surface_model.specs.Measurements.{detectors};
ghost use Rattle.surface_model.specs.Parse.{schedule_of};
ghost use Rattle.surface_model.specs.Rules.{rule_fault};
ghost use Rattle.measure_map.specs.Placed.{map_of};
ghost use Rattle.workload_maker.specs.Digits.{rows_text};
ghost use Rattle.workload_maker.specs.Draws.{made_errors};
ghost use Rattle.workload_maker.specs.Headers.{AreMakeable, made_header};
ghost use Rattle.workload_maker.specs.Inputs.{HaveTooMany, IsRefused, IsSound, made_text, rows_of};
ghost use Rattle.workload_maker.specs.declared.make_error.MakeError.TheVariants.{Memory};

use crate::MakeError;
use crate::digits::text_of;
use crate::errors::happening;
use crate::header::header;
use crate::rows::rows_with;
use detector_graph::Bits;
use error_map::mechanisms;
use measure_map::MeasureMap;
use schedule_reader::{ReadError, Schedule, read};
use schedule_rules::{Program, check};
use std::alloc::{AllocError, Global};

/// The program of a schedule that breaks no rule.
fn ruled(schedule: Schedule) -> Program
    requires { rule_fault schedule ≡ None }
    ensures { result ≡ schedule }
{
    match check(schedule) {
        Ok(program) => program,
        Err(_) => unreachable!(),
    }
}

/// The program of a sound header, for which nothing but memory can be wanting.
fn program_of(alloc: Global, header: &[u8]) -> Result<Program, MakeError>
    requires some { 1 ≤ length header.now }
    requires short { length header.now ≤ most_text_bytes }
    requires sound { IsSound header.now }
    ensures program { IfOk result (λ p. p ≡ schedule_of header.now) }
    ensures memory { IfErr result (λ e. e ≡ Memory) }
{
    match read(alloc, header) {
        Ok(schedule) => Ok(ruled(schedule)),
        Err(ReadError::Memory) => Err(MakeError::Memory),
        Err(ReadError::Fault(_)) => unreachable!(),
    }
}

/// The rows of a program, with the errors that happen under this seed.
fn made_rows(
    alloc: Global,
    program: &Program,
    map: &MeasureMap,
    seed: u64,
) -> Result<Vec<Bits>, AllocError>
    requires { map.now ≡ map_of program.now }
    ensures { IfOk result (λ rows. rows.items
        ≡ rows_of program.now (made_errors program.now seed)) }
{
    let listed = mechanisms(alloc, program, map)?;
    let errors = happening(alloc, &listed, seed);
    drop(listed);
    let errors = errors?;
    rows_with(alloc, program, map, &errors)
}

/// The rows of a program under this seed, or how many detectors it has, where they are too many.
fn rows_of_program(alloc: Global, program: &Program, seed: u64) -> Result<Vec<Bits>, MakeError>
    ensures rows { IfOk result (λ rows. rows.items
        ≡ rows_of program.now (made_errors program.now seed)) }
    ensures few { OnOk result (length (detectors program.now) ≤ most_detectors) }
    ensures refused { IfErr result (HaveTooMany program.now) }
{
    let map = MeasureMap::new(alloc, program)?;
    let rows = made_rows(alloc, program, &map, seed);
    drop(map);
    let rows = rows?;
    Ok(rows)
}

/// The input of a sound header under this seed.
fn input_of(alloc: Global, header: &[u8], seed: u64) -> Result<Vec<u8>, MakeError>
    requires some { 1 ≤ length header.now }
    requires short { length header.now ≤ most_text_bytes }
    requires sound { IsSound header.now }
    ensures text { IfOk result (λ v. v.items ≡ header.now
        ++ rows_text (rows_of (schedule_of header.now)
        (made_errors (schedule_of header.now) seed))) }
    ensures few { OnOk result (length (detectors (schedule_of header.now)) ≤ most_detectors) }
    ensures refused { IfErr result (HaveTooMany (schedule_of header.now)) }
{
    let program = program_of(alloc, header)?;
    let rows = rows_of_program(alloc, &program, seed);
    drop(program);
    let rows = rows?;
    let text = text_of(alloc, header, &rows)?;
    Ok(text)
}

/// An input for the decoder: a schedule of so many patches of this distance over so many slots, and
/// its rows with the errors that happen under this seed.
///
/// The distance is odd, 3 to 11; there are 1 to 64 patches, side by side, and 2 to 4,096 slots. All
/// patches are prepared and read in basis z. Each two neighbours are merged once, if there is time.
/// No line of the header is at fault, and its schedule breaks no rule. One error in 200 happens:
/// one word of the generator PCG XSH RR 64/32 on stream 1 is drawn for each, in the order of their
/// numbers.
///
/// # Errors
///
/// `TooLarge` with the number of detectors, where there are more than 1,000,000; `Memory` where
/// memory is wanting.
pub fn make(
    alloc: Global,
    distance: u32,
    patches: u32,
    slots: u32,
    seed: u64,
) -> Result<Vec<u8>, MakeError>
    requires { AreMakeable distance patches slots }
    ensures text { IfOk result (λ v. v.items ≡ made_text distance patches slots seed) }
    ensures sound { IsSound (made_header distance patches slots) }
    ensures few { OnOk result (length (detectors (schedule_of (made_header distance patches slots)))
        ≤ most_detectors) }
    ensures refused { IfErr result (IsRefused distance patches slots) }
{
    let header = header(alloc, distance, patches, slots)?;
    let input = input_of(alloc, header.as_bytes(), seed);
    drop(header);
    input
}
