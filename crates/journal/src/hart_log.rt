ghost use Rattle.std.specs.Prelude.{◌≡◌, ◌+◌, ◌-◌, ◌≤◌, [], ◌∷◌, ◌++◌, length, vec_capacity, IfOk};
ghost use Rattle.flex_base.specs.Journal.{event};
ghost use Rattle.journal.specs.Log.{Log};
ghost use Rattle.journal.specs.Packing.{view_of, what_of};
ghost use Rattle.journal.specs.Keeping.{IsKept};
ghost use Rattle.journal.specs.Rests.{events_left};

use crate::events::Events;
use crate::kept::{Kept, Last};
use crate::kept_event::KeptEvents;
use crate::parts::Parts;
use crate::rest::Rest;
use flex_base::{Access, EndPart, Engine, Event, HartId, Reply, What};
use std::alloc::{AllocError, Global};
use std::marker::Model;

/// The events of a hart, in order, with room for so many of them. Contracts see the list of events
/// and the room that is left.
#[derive(Drop)]
pub struct HartLog {
    // As many as there is memory for.
    kept: Vec<Kept>,
    // The last numbers of those events in which they aren't small. They are seldom used, and a hart
    // on the move carries its log, so they stand apart.
    beside: Box<Vec<u64>>,
}

const _: () = prove!(size_of::<HartLog>() <= 32);

impl Model for HartLog {
    ghost Value = { Log };

    ghost view = { λ l. view_of l.kept.items l.beside.value.items (vec_capacity l.kept) };

    ghost invariant = { λ l. IsKept l.kept l.beside.value };
}

impl HartLog {
    /// An empty log with room for so many events. The error is want of memory.
    pub fn new(alloc: Global, room: u64) -> Result<HartLog, AllocError>
        ensures { IfOk result (λ log. log ≡ record { events = []; room = room }) }
    {
        let kept = Vec::with_capacity(alloc, room as usize)?;
        let beside = Box::new(alloc, Vec::with_capacity(alloc, room as usize)?)?;
        Ok(HartLog { kept, beside })
    }

    /// Adds an event at the end. It takes no memory.
    #[inline]
    pub fn push(&mut self, event: Event)
        requires { 1 ≤ self.old.room }
        ensures { self.new ≡ record { events = self.old.events ++ event ∷ []; room = self.old.room - 1 } }
    {
        let parts = Parts::of(&event.what);
        self.push_parts(event.number, event.hart, event.engine, parts);
    }

    /// Adds an access and its reply. It takes no memory.
    #[inline(always)]
    pub fn push_access(
        &mut self,
        number: u64,
        hart: HartId,
        engine: Engine,
        access: Access,
        reply: Reply,
    )
        requires { 1 ≤ self.old.room }
        ensures { self.new ≡ record {
          events = self.old.events ++ event number hart.0 engine (What.Acc access reply) ∷ [];
          room = self.old.room - 1;
        } }
    {
        self.push_parts(number, hart, engine, Parts::of_access(access, reply));
    }

    /// Adds the end of an instruction or a trap. It takes no memory.
    #[inline(always)]
    pub fn push_end(&mut self, number: u64, hart: HartId, engine: Engine, end: EndPart)
        requires { 1 ≤ self.old.room }
        ensures { self.new ≡ record {
          events = self.old.events ++ event number hart.0 engine (What.End end) ∷ [];
          room = self.old.room - 1;
        } }
    {
        self.push_parts(number, hart, engine, Parts::of_end(end));
    }

    #[inline(always)]
    fn push_parts(&mut self, number: u64, hart: HartId, engine: Engine, parts: Parts)
        requires { 1 ≤ self.old.room }
        ensures { self.new ≡ record {
          events = self.old.events ++ event number hart.0 engine (what_of parts) ∷ [];
          room = self.old.room - 1;
        } }
    {
        let last = Last::of(parts.last);
        if let Last::Beside = last {
            self.beside.push_reserved(parts.last);
        }
        self.kept.push_reserved(Kept {
            number,
            first: parts.first,
            second: parts.second,
            third: parts.third,
            hart,
            engine,
            kind: parts.kind,
            stop: parts.stop,
            last,
        });
    }

    /// How many events there are.
    #[inline]
    pub fn len(&self) -> u64
        ensures { result ≡ length self.now.events }
    {
        self.kept.len() as u64
    }

    /// How many more events there is room for.
    #[inline]
    pub fn room(&self) -> u64
        ensures { result ≡ self.now.room }
    {
        (self.kept.capacity() - self.kept.len()) as u64
    }

    /// The events in order, by value.
    pub fn events(&self) -> Events<'_>
        ensures { result ≡ self.now.events }
    {
        Events {
            kept_events: self.kept_events(),
        }
    }

    /// The events in order, as they are kept.
    pub fn kept_events(&self) -> KeptEvents<'_>
        ensures { result ≡ self.now.events }
    {
        KeptEvents { rest: self.rest() }
    }

    // All of them, for one who reads several logs.
    pub(crate) fn rest(&self) -> Rest<'_>
        ensures { events_left result ≡ self.now.events }
    {
        Rest {
            kept: &self.kept,
            beside: self.beside.as_slice(),
        }
    }

    /// Leaves no event, and the whole room.
    pub fn clear(&mut self)
        ensures { self.new ≡ record { events = []; room = self.old.room + length self.old.events } }
    {
        self.kept.clear();
        self.beside.clear();
    }
}
