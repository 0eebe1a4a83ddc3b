//! The edge of a mechanism.
ghost use Rattle.std.specs.Prelude.{◌≡◌, ◌≤◌, Contains, IfOk, None, Some};
ghost use Rattle.surface_model.specs.Layout.{last_slot};
ghost use Rattle.surface_model.specs.Errors.{checked, edge_of, mechanisms, odd_places, watched, weight_of_class};
ghost use Rattle.surface_model.specs.Accepted.{IsAccepted};
ghost use Rattle.surface_model.specs.Limits.{last_named_slot};
ghost use Rattle.measure_map.specs.Placed.{map_of};
ghost use Rattle.error_map.specs.Seen.{class_of, mechanism_of};

use crate::ends::{Ends, ends_of};
use crate::masks::mask;
use crate::readings::Readings;
use crate::spots::Spots;
use crate::types::{Class, Mechanism, Wanted};
use crate::watch::Watch;
use detector_graph::{Edge, Labels};
use measure_map::MeasureMap;
use schedule_reader::Schedule;
use std::alloc::{AllocError, Global};
use std::marker::Model;

/// An accepted schedule with its map, and where the readings of its qubits and its observables are
/// looked up.
pub(crate) struct Lookup<'a> {
    schedule: &'a Schedule,
    spots: Spots<'a>,
    readings: Readings,
    watch: Watch,
}

impl<'a> Drop for Lookup<'a> {
    fn drop(self) {
        let Lookup {
            schedule: _,
            spots: _,
            readings: _,
            watch: _,
        } = self;
    }
}

impl<'a> Model for Lookup<'a> {
    ghost use Rattle.surface_model.specs.Schedules.{Schedule as Whole};
    ghost use Rattle.error_map.specs.Indexes.{AreIndexes};

    ghost Value = { Whole };

    ghost view = { λ l. l.schedule.now };

    ghost invariant = { λ l. AreIndexes l.schedule.now l.spots l.readings l.watch };
}

impl<'a> Lookup<'a> {
    /// That of a schedule whose last slot is this one, with its map.
    pub(crate) fn new(
        alloc: Global,
        schedule: &'a Schedule,
        last: u32,
        map: &'a MeasureMap,
    ) -> Result<Lookup<'a>, AllocError>
        requires accepted { IsAccepted schedule.now }
        requires last { (last ≡ last_slot schedule.now) × (last ≤ last_named_slot) }
        requires made { map.now ≡ map_of schedule.now }
        ensures { IfOk result (λ l. l ≡ schedule.now) }
    {
        let spots = Spots::new(alloc, map)?;
        let watch = Watch::new(alloc, map)?;
        let readings = Readings::new(alloc, schedule, last, &Wanted::Every)?;
        Ok(Lookup {
            schedule,
            spots,
            readings,
            watch,
        })
    }

    /// The edge of a mechanism, where it flips a detector.
    pub(crate) fn edge_of(
        &self,
        alloc: Global,
        mechanism: Mechanism,
    ) -> Result<Option<Edge>, AllocError>
        requires { Contains (mechanisms self.now) (mechanism_of mechanism) }
        ensures { IfOk result (λ o. o ≡ edge_of self.now (checked self.now) (watched self.now)
            (mechanism_of mechanism)) }
    {
        match ends_of(&self.spots, mechanism) {
            Ends::None => Ok(None),
            Ends::One(first) => Ok(Some(self.edge(alloc, mechanism, first, None)?)),
            Ends::Two(first, second) => {
                Ok(Some(self.edge(alloc, mechanism, first, Some(second))?))
            }
        }
    }

    /// The edge of a mechanism that flips these detectors.
    fn edge(
        &self,
        alloc: Global,
        mechanism: Mechanism,
        first: u32,
        second: Option<u32>,
    ) -> Result<Edge, AllocError>
        requires { Contains (mechanisms self.now) (mechanism_of mechanism) }
        ensures { IfOk result (λ edge. edge ≡ record {
          first = first;
          second = second;
          weight = weight_of_class self.now (class_of mechanism.class);
          mask = odd_places self.now (mechanism_of mechanism) (watched self.now);
        }) }
    {
        let effect = self.readings.effect(mechanism);
        let mask = mask(alloc, self.spots.map(), &self.watch, effect)?;
        Ok(Edge {
            first,
            second,
            weight: weight_of(self.schedule, mechanism.class),
            mask: Labels::new(alloc, mask)?,
        })
    }
}

/// What an edge of a mechanism weighs.
fn weight_of(schedule: &Schedule, class: Class) -> u32
    ensures { result ≡ weight_of_class schedule.now (class_of class) }
{
    match class {
        Class::Readout => schedule.space,
        Class::SpaceX => schedule.space,
        Class::SpaceZ => schedule.space,
        Class::Measurement => schedule.time,
    }
}
