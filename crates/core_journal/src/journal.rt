//! Entries in order, with room that was set aside for all of them.
ghost use Rattle.std.specs.Prelude.{◌≡◌, ◌<◌, ◌≤◌, ◌++◌, ◌∷◌, ◌^◌, [], IfOk, length};

use crate::Event;
use std::alloc::{AllocError, Global};
use std::marker::Model;

/// What happened so far, in order. No entry is taken back.
#[derive(Drop)]
pub struct Journal {
    entries: Vec<Event>,
    room: u32,
}

impl Model for Journal {
    ghost use Rattle.std.specs.Prelude.{◌≤◌, vec_len, vec_capacity};
    ghost use Rattle.core_journal.specs.Entries.{Entries, IsWithin};

    ghost Value = { Entries };

    ghost view = { λ j. record { entries = j.entries.items; room = j.room } };

    ghost invariant = { λ j. IsWithin (vec_len j.entries) j.room (vec_capacity j.entries) };
}

impl Journal {
    /// An empty journal with room for so many entries.
    pub fn new(alloc: Global, room: u32) -> Result<Journal, AllocError>
        ensures { IfOk result (λ j. j ≡ record { entries = []; room = room }) }
    {
        let entries = Vec::with_capacity(alloc, room as usize)?;
        Ok(Journal { entries, room })
    }

    /// Adds an entry. There is room for it, so it takes no memory.
    pub fn note(&mut self, event: Event)
        requires { length self.old.entries < self.old.room }
        ensures { self.new ≡ record self.old { entries = self.old.entries ++ event ∷ [] } }
    {
        let _ = self.entries.push(event);
    }

    /// The entries, in order.
    pub fn entries(&self) -> &[Event]
        ensures value { result.now ≡ self.now.entries }
        ensures few { length self.now.entries ≤ self.now.room }
        ensures small { self.now.room < 2 ^ 32 }
    {
        let _room = self.room;
        &self.entries
    }
}
