ghost use Rattle.std.specs.Prelude.{◌≡◌, ◌≤◌, [], IfOk, map, Some, vec_len, vec_capacity};
ghost use Rattle.mem_banks.specs.End.{IsFounderOf};
ghost use Rattle.context.specs.Contexts.{Context};
ghost use Rattle.solo.specs.Solo.{settings_of};
ghost use Rattle.solo.specs.Room.{are_empty};
ghost use Rattle.crew.specs.Crews.{IsCrew};
ghost use Rattle.crew.specs.Played.{IsRunnable, HasEnrolled, HasPlayed, IsRunFor};

use crate::coordinator::Crew;
use crate::ending::conclude;
use crate::room::{EndRoom, Room};
use access_record::Founder;
use context::HartContext;
use flex_base::{Gate, Image, Settings};
use mem_banks::{Banks, Ended, PlainBus, RunName};
use solo::begin_harts;
use std::alloc::{AllocError, Global};
use std::marker::Model;
use std::sync::Wait;
use std::thread::Threads;
use transplant_plan::Plan;

/// All harts of the named run, which workers run on threads: its pipes, its kernels and the host. It
/// must be spent, by `run`.
///
/// `prepare` takes all memory. `run` takes none and refuses nothing.
///
/// Contracts see its crew.
pub struct Machine<N: RunName> {
    crew: Crew,
    banks: Banks<N>,
    founder: Founder,
    room: EndRoom,
}

impl<N: RunName> Model for Machine<N> {
    ghost use Rattle.crew.specs.Crews as crews;
    ghost use Rattle.crew.specs.Rooms.{MayPlay};

    ghost Value = { crews.Crew };

    ghost view = { λ m. m.crew };

    ghost invariant = { λ m. MayPlay N.run m.crew m.founder m.room.harts };
}

impl<N: RunName + Send + Sync> Machine<N> {
    /// The machine of a bus that has made no access, with each hart at its start in the engine of fetch.
    ///
    /// The bus and its founder are those of the named run, which is the run of this image and these
    /// settings, with as many banks as the plan says; no hart is enrolled. The error is want of
    /// memory; the bus is then given up.
    pub fn prepare(
        alloc: Global,
        bus: PlainBus,
        founder: Founder,
        image: &Image,
        plan: Plan,
        settings: Settings,
    ) -> Result<Machine<N>, AllocError>
        requires name { bus.run ≡ N.run }
        requires run { IsRunFor bus.run image.now settings plan }
        requires founder { IsFounderOf bus.run founder }
        requires none { founder.harts ≡ [] }
        ensures plan { IfOk result (λ m. m.plan ≡ plan) }
    {
        let Ok(room) = Room::<N>::new(alloc, plan, &settings) else {
            abandon(alloc, bus, founder);
            return Err(AllocError);
        };
        Ok(begin(bus, founder, image.entry, &settings, room))
    }

    /// Runs all harts until each is over or waits and no device wakes it, and tells what is left.
    ///
    /// It works in phases. In a phase the workers run beside one another, each its harts; after it a
    /// coordinator wakes harts, hands them over and deals them out. It may wait.
    pub fn run<R: Threads + Wait + Sync, G: Gate>(self, rt: &R, gate: &G) -> Ended
        ensures { HasPlayed N.run.setup self.plan result }
    {
        let Machine {
            mut crew,
            mut banks,
            founder,
            room,
        } = self;
        for _ in rt.forever() {
            crew.play(rt, &banks, gate);
            let (memory, locks) = banks.dissolve(rt);
            if crew.are_at_rest(&memory.devices) {
                locks.discard();
                return conclude(crew, memory, founder, room);
            }
            banks = Banks::renew(memory, locks);
        }
        unreachable!()
    }
}

// Each hart at its start, with the coordinator, and the memory under its locks.
fn begin<N: RunName>(
    mut bus: PlainBus,
    founder: Founder,
    entry: u64,
    settings: &Settings,
    room: Room<N>,
) -> Machine<N>
    requires name { bus.run ≡ N.run }
    requires runnable { IsRunnable N.run }
    requires settings { settings_of N.run.setup ≡ settings.now }
    requires harts { room.harts ≡ settings.now.harts }
    requires entry { entry ≡ N.run.setup.image.entry }
    requires logs { room.parts.logs.items ≡ are_empty settings.now settings.now.harts }
    requires founder { IsFounderOf N.run founder }
    requires none { founder.harts ≡ [] }
    ensures plan { result.plan ≡ room.plan }
{
    let Room {
        harts,
        plan,
        resting,
        workers,
        contexts,
        mut parts,
        locks,
    } = room;
    let (founder, contexts) = begin_harts(
        &mut bus,
        founder,
        contexts,
        &mut parts.logs,
        entry,
        plan,
        settings,
    );
    let (resting, contexts) = lay_all(contexts, resting);
    let crew = Crew {
        plan,
        resting,
        workers,
    };
    let room = EndRoom {
        harts,
        contexts,
        parts,
    };
    let banks = Banks::renew(bus.dissolve(), locks);
    Machine {
        crew,
        banks,
        founder,
        room,
    }
}

// Lays each context at the place of its number.
fn lay_all(
    mut contexts: Vec<HartContext>,
    mut resting: Vec<Option<HartContext>>,
) -> (Vec<Option<HartContext>>, Vec<HartContext>)
    requires none { vec_len resting ≡ 0 }
    requires room { vec_len contexts ≤ vec_capacity resting }
    ensures resting { result.0.items ≡ map (λ (c : Context). Some c) contexts.items }
    ensures left { vec_len result.1 ≡ 0 }
    ensures room { vec_capacity result.1 ≡ vec_capacity contexts }
{
    while let Some(context) = contexts.pop() {
        resting.push_reserved(Some(context));
    }
    resting.reverse();
    (resting, contexts)
}

// Gives up a bus whose harts aren't enrolled.
fn abandon(alloc: Global, bus: PlainBus, founder: Founder)
    requires founder { IsFounderOf bus.run founder }
    requires none { founder.harts ≡ [] }
{
    let mut memory = bus.dissolve();
    memory.settle(founder, Vec::new(alloc));
    memory.discard();
}
