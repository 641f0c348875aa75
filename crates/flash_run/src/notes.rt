ghost use Rattle.std.specs.Prelude.{◌≡◌, ◌<◌, ◌^◌, length, IfOk, OnOk, OnErr};
ghost use Rattle.flash_run.specs.Notes.{empty_notes, noted, roomier, narrower};

use bay_core::{Event, Events};
use flash_base::NoMemory;
use std::alloc::Global;
use std::marker::Model;

/// The events of a run, oldest first, and room for more of them: contracts see both.
#[derive(Debug, Drop)]
pub struct Notes {
    events: Vec<Event>,
    room: usize,
}

impl Model for Notes {
    ghost use Rattle.std.specs.Prelude.{◌+◌, ◌≤◌, vec_len, vec_capacity};
    ghost use Rattle.flash_run.specs.Notes.{NotesState};

    ghost Value = { NotesState };

    ghost view = { λ l. record { events = l.events.items; room = l.room } };

    ghost invariant = { λ l. vec_len l.events + l.room ≤ vec_capacity l.events };
}

impl Notes {
    /// No event, and room for so many.
    pub fn new(alloc: Global, room: usize) -> Result<Notes, NoMemory>
        ensures { IfOk result (λ l. l ≡ empty_notes room) }
    {
        Ok(Notes {
            events: Vec::with_capacity(alloc, room)?,
            room,
        })
    }

    /// The number of events.
    pub fn count(&self) -> u64
        ensures number { result ≡ length self.now.events }
        ensures few { length self.now.events < 2 ^ 63 }
    {
        self.events.as_slice().len() as u64
    }

    /// Takes room for so many events more.
    pub fn reserve(&mut self, more: usize) -> Result<(), NoMemory>
        ensures ok { OnOk result (self.new ≡ roomier more self.old) }
        ensures err { OnErr result (self.new ≡ self.old) }
    {
        let Some(room) = self.room.checked_add(more) else {
            return Err(NoMemory);
        };
        self.events.reserve(room)?;
        self.room = room;
        Ok(())
    }

    /// Notes an event in room that was taken.
    pub fn note(&mut self, event: Event)
        requires { 0 < self.old.room }
        ensures { self.new ≡ noted event self.old }
    {
        let _ = self.events.push(event);
        self.room -= 1;
    }

    /// Gives back the room for one event.
    pub fn narrow(&mut self)
        requires { 0 < self.old.room }
        ensures { self.new ≡ narrower self.old }
    {
        self.room -= 1;
    }

    /// The events alone.
    pub fn into_events(self) -> Events
        ensures { result ≡ self.events }
    {
        let Notes {
            events,
            room: _room,
        } = self;
        Events::from_vec(events)
    }
}
