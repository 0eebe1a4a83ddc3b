//! A schedule that is opened, and its tables.
ghost use Rattle.std.specs.Prelude.{◌≡◌, ◌<◌, ◌≤◌, Some, length, slice_get};
ghost use Rattle.surface_model.specs.Measurements.{detectors};
ghost use Rattle.measure_map.specs.Placed.{before_slot, map_of};
ghost use Rattle.surface_model.specs.Limits.{most_detectors};

use crate::refusal::Refusal;
use crate::totals::sums;
use crate::words::{BitWord, Digits, ErrorWords, Label, Mask, Places};
use case_lines::{Fault, Listed};
use detector_graph::Bits;
use error_map::{Built, Mechanism, flips, graph, mechanisms};
use measure_map::{Detector, MapError, MeasureMap, Observable};
use schedule_reader::{ReadError, ScheduleFault, read};
use schedule_rules::{Program, RuleError, check};
use std::alloc::{AllocError, Global};

/// A schedule and what is measured in it.
pub(crate) struct Opened {
    program: Program,
    map: MeasureMap,
    ghost made: { map ≡ map_of program },
    ghost few: { length (detectors program) ≤ most_detectors },
}

impl Drop for Opened {
    fn drop(self) {
        let Opened { program: _, map: _ } = self;
    }
}

/// The most bytes that a header may have.
const MOST_HEADER_BYTES: usize = 1_048_577;

/// Opens the schedule of a header. Where it is refused, its fault is reported.
pub(crate) fn open(
    alloc: Global,
    text: &mut String,
    header: &[u8],
) -> Result<Option<Opened>, Fault<Refusal>> {
    if header.is_empty() || header.len() > MOST_HEADER_BYTES {
        return Err(Fault::Refused(Refusal::LongHeader));
    }
    let schedule = match read(alloc, header) {
        Ok(schedule) => schedule,
        Err(ReadError::Fault(fault)) => return refused(text, fault),
        Err(ReadError::Memory) => return Err(Fault::Memory),
    };
    let program = match check(schedule) {
        Ok(program) => program,
        Err(RuleError::Fault(fault)) => return refused(text, fault),
    };
    let map = MeasureMap::new(alloc, &program);
    match map {
        Ok(map) => Ok(Some(Opened { program, map })),
        Err(error) => {
            drop(program);
            too_large(text, error)
        }
    }
}

fn too_large(text: &mut String, error: MapError) -> Result<Option<Opened>, Fault<Refusal>> {
    let MapError::TooLarge { detectors } = error else {
        return Err(Fault::Memory);
    };
    writeln!(text, "refused too large {detectors}")?;
    Ok(None)
}

fn refused(text: &mut String, fault: ScheduleFault) -> Result<Option<Opened>, Fault<Refusal>> {
    let ScheduleFault { line, kind } = fault;
    writeln!(text, "refused line {line} {kind:?}")?;
    Ok(None)
}

/// A slot's row, and the row of the slot before; that of slot 0 has no bits.
#[derive(Clone, Copy)]
pub(crate) struct SlotRow<'a> {
    pub(crate) slot: u32,
    pub(crate) before: &'a Bits,
    pub(crate) row: &'a Bits,
}

impl Opened {
    pub(crate) fn map(&self) -> &MeasureMap {
        &self.map
    }

    /// Writes the bits of each slot, the detectors, the observables and the edges.
    pub(crate) fn add_tables(&self, alloc: Global, text: &mut String) -> Result<(), AllocError> {
        add_slots(text, &self.map)?;
        add_detectors(alloc, text, self.map.detectors())?;
        add_observables(text, self.map.observables())?;
        let built = graph(alloc, &self.program, &self.map)?;
        add_edges(text, &built)
    }

    /// Writes how many errors and edges there are, what the edges weigh together, and how many
    /// observables they flip together.
    pub(crate) fn add_counts(&self, alloc: Global, text: &mut String) -> Result<(), AllocError> {
        let errors = mechanisms(alloc, &self.program, &self.map)?.len();
        let built = graph(alloc, &self.program, &self.map)?;
        let edges = built.graph.edges();
        let (weight, members) = sums(&built.graph);
        writeln!(
            text,
            "counts errors {errors} edges {edges} weight {weight} members {members}"
        )
    }

    /// Writes what the errors of these numbers change, the first and the last with them.
    pub(crate) fn add_flips(
        &self,
        alloc: Global,
        text: &mut String,
        first: u64,
        last: u64,
    ) -> Result<(), Fault<Refusal>> {
        let all = mechanisms(alloc, &self.program, &self.map)?;
        let listed = all.as_slice();
        if first > last || last >= listed.len() as u64 {
            return Err(Fault::Refused(Refusal::NoError));
        }
        for number in first as usize..last as usize + 1 {
            let mechanism = mechanism_at(listed, number);
            let bits = flips(alloc, &self.program, &self.map, mechanism)?;
            let (words, places) = (ErrorWords(mechanism), Places(&bits));
            writeln!(text, "error {number} {words} flips{places}")?;
        }
        Ok(())
    }

    /// Writes the values that a row gives the slot's detectors and observables.
    pub(crate) fn add_values(
        &self,
        alloc: Global,
        text: &mut String,
        read: SlotRow<'_>,
    ) -> Result<(), Fault<Refusal>> {
        let SlotRow { slot, before, row } = read;
        let map = &self.map;
        if slot >= map.slots() {
            return Err(Fault::Refused(Refusal::NoSlot));
        }
        if row.len() != map.width(slot) || before.len() != width_before(map, slot) {
            return Err(Fault::Refused(Refusal::WrongWidth));
        }
        let values = map.fold(alloc, slot, before, row)?;
        writeln!(text, "defects slot {slot}: {}", Digits(&values.defects))?;
        writeln!(text, "raws slot {slot}: {}", Digits(&values.raws))?;
        Ok(())
    }
}

fn add_slots(text: &mut String, map: &MeasureMap) -> Result<(), AllocError> {
    for slot in 0..map.slots() {
        let bits = map.bits_of_slot(slot);
        write!(text, "slot {slot} bits {}:", bits.len())?;
        for bit in bits {
            write!(text, " {}", BitWord(*bit))?;
        }
        writeln!(text)?;
    }
    Ok(())
}

fn add_detectors(
    alloc: Global,
    text: &mut String,
    detectors: &[Detector],
) -> Result<(), AllocError> {
    for (number, detector) in detectors.iter().enumerate() {
        let (tag, corner) = (detector.tag(), detector.corner());
        write!(text, "detector {number} slot {}", tag.slot)?;
        write!(text, " tile ({},{})", tag.tile_row, tag.tile_col)?;
        write!(text, " corner ({},{})", corner.row, corner.col)?;
        let bits = detector.bits(alloc)?;
        writeln!(text, " bits{}", Places(&bits))?;
    }
    Ok(())
}

fn add_observables(text: &mut String, observables: &[Observable]) -> Result<(), AllocError> {
    for (number, observable) in observables.iter().enumerate() {
        let (label, places) = (Label(observable), Listed(&observable.places));
        write!(text, "observable {number} {label}")?;
        writeln!(text, " slot {} places{places}", observable.slot)?;
    }
    Ok(())
}

fn add_edges(text: &mut String, built: &Built) -> Result<(), AllocError> {
    for number in 0..built.graph.edges() {
        let Some(source) = built.sources.get(number as usize) else {
            return Ok(());
        };
        let edge = built.graph.edge(number);
        write!(
            text,
            "edge {number} {} ends {}",
            ErrorWords(*source),
            edge.first
        )?;
        if let Some(second) = edge.second {
            write!(text, " {second}")?;
        }
        let mask = Mask(edge.mask.as_slice());
        writeln!(text, " weight {} mask{mask}", edge.weight)?;
    }
    Ok(())
}

/// The error at this place of a list.
fn mechanism_at(listed: &[Mechanism], number: usize) -> Mechanism
    requires { number < length listed.now }
    ensures { slice_get listed.now number ≡ Some result }
{
    listed[number]
}

/// How many bits the slot before has.
fn width_before(map: &MeasureMap, slot: u32) -> u32
    requires { slot < length map.now.lines }
    ensures { result ≡ length (before_slot map.now.lines slot) }
{
    if slot == 0 {
        return 0;
    }
    map.width(slot - 1)
}
