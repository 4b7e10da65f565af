//! Threads at banks under locks. What they were answered is judged by a plain memory.
ghost use Rattle.std.specs.Prelude.{◌≡◌, ◌+◌, ◌<◌, ◌≤◌, true, [], vec_len, vec_capacity};
ghost use Rattle.std.specs.List.{All};
ghost use Rattle.flex_base.specs.Forms.{IsPlaced};
ghost use Rattle.mem_lines.specs.Bank.{is_bank_count};
ghost use Rattle.access_record.specs.Rule.{occurrences};
ghost use Rattle.access_record.specs.Passes.{add_hart};
ghost use Rattle.mem_banks.specs.End.{IsMemoryOf, IsFounderOf};
ghost use Rattle.mem_banks.specs.Plain.{numbers_below};
ghost use Rattle.mem_banks.specs.Tried.{IsTried, IsSmall, harts_of};

use super::{Tried, after_send, enrol, image, is_placed, is_told_to_wait};
use crate::{Banks, EndMemory, PlainBus, RunName};
use access_record::{Founder, Pass};
use flex_base::{Access, Engine, HartId, Layout, RAM_BASE, Settings};
use std::alloc::{AllocError, Global};
use std::marker::{Brand, Model, PhantomData};
use std::process::Abort;
use std::sync::Wait;
use std::test::*;
use std::thread::{Threads, for_each_mut};

const HARTS: usize = 8;

// How many accesses a hart makes in each of two phases.
const ACCESSES: u64 = 500;

const SETTINGS: Settings = Settings {
    harts: 8,
    ram: 0x10_0000,
    budget: 50,
};

const LAYOUT: Layout = Layout {
    harts: 8,
    ram: 0x10_0000,
};

// An access that was made, by which hart, and what was answered.
#[derive(Clone, Copy, Drop)]
struct Made {
    hart: u8,
    number: u64,
    acc: Access,
    value: u64,
}

// A hart of a thread, and what it has made.
struct Worker<N: RunName> {
    hart: Option<Tried>,
    made: Vec<Made>,
    of: PhantomData<N>,
}

impl<N: RunName> Model for Worker<N> {
    ghost use Rattle.std.specs.Prelude.{◌≡◌, Option, IsSomeAnd};
    ghost use Rattle.mem_banks.specs.Tried.{IsTried};
    ghost use Rattle.mem_banks.specs.declared.tests.Tried.{Tried};

    ghost Value = { Option Tried };

    ghost view = { λ w. w.hart };

    ghost invariant = { λ w. IsSomeAnd w.hart (λ t. IsTried N.run t.pass t.waiting t.left t.bytes)
        × (N.run.setup.harts ≡ 8) × (N.run.setup.ram ≡ 1048576) };
}

impl<N: RunName> Worker<N> {
    fn of(hart: Tried, made: Vec<Made>) -> Worker<N>
        requires tried { IsTried N.run hart.pass hart.waiting hart.left hart.bytes }
        requires harts { N.run.setup.harts ≡ 8 }
        requires ram { N.run.setup.ram ≡ 1048576 }
    {
        Worker {
            hart: Some(hart),
            made,
            of: PhantomData,
        }
    }

    // Makes an access where it may be made, and keeps what was answered.
    fn make<R: Wait>(&mut self, rt: &R, banks: &Banks<N>, acc: Access) {
        if !is_placed(&LAYOUT, &acc) {
            return;
        }
        let Some(hart) = self.hart.take() else {
            unreachable!()
        };
        let (hart, made) = act(rt, banks, hart, acc);
        let left = self.hart.replace(hart);
        let None = left else { unreachable!() };
        if let Some(made) = made
            && self.made.len() < self.made.capacity()
        {
            self.made.push_reserved(made);
        }
    }

    fn into_parts(self) -> (Pass, Vec<Made>)
        ensures record { result.0.id ≡ N.run.book.id }
    {
        let Worker { hart, made, of: _ } = self;
        let Some(hart) = hart else { unreachable!() };
        let Tried {
            pass,
            waiting: _,
            left: _,
            bytes: _,
        } = hart;
        (pass, made)
    }
}

// Makes an access at its bank where it may be made.
fn act<N: RunName, R: Wait>(
    rt: &R,
    banks: &Banks<N>,
    hart: Tried,
    acc: Access,
) -> (Tried, Option<Made>)
    requires tried { IsTried N.run hart.pass hart.waiting hart.left hart.bytes }
    requires placed { IsPlaced N.run.setup.harts N.run.setup.ram acc }
    ensures tried { IsTried N.run result.0.pass result.0.waiting result.0.left result.0.bytes }
{
    if hart.waiting || hart.left == 0 {
        return (hart, None);
    }
    let Some(after) = after_send(&acc, hart.bytes) else {
        return (hart, None);
    };
    let Tried {
        pass,
        waiting: _,
        left,
        bytes: _,
    } = hart;
    let number_of = pass.hart();
    let (pass, number, reply) = banks.make(rt, pass, Engine::Host, acc, |_| {});
    let hart = Tried {
        pass,
        waiting: is_told_to_wait(&acc, &reply),
        left: left - 1,
        bytes: after,
    };
    let made = Made {
        hart: number_of.0,
        number,
        acc,
        value: reply.value,
    };
    (hart, Some(made))
}

// An access at one of 128 doublewords, in 16 lines, or of the devices. A hart stores conditionally only
// where it has reserved last.
fn some_access(random: u64, reserved: Option<u64>) -> Access {
    let address = RAM_BASE + random % 128 * 8;
    let value = random >> 16;
    match random >> 8 & 15 {
        0..6 => Access::Read { address, width: 8 },
        6..10 => Access::Write {
            address,
            width: 8,
            value,
        },
        10..12 => Access::Lr { address, width: 8 },
        12..14 => match reserved {
            Some(address) => Access::Sc {
                address,
                width: 8,
                value,
            },
            None => Access::Time,
        },
        14 => Access::Pulse { tick: true },
        _ => Access::Time,
    }
}

// What a hart has reserved last after an access.
fn after_access(acc: &Access, reserved: Option<u64>) -> Option<u64> {
    match *acc {
        Access::Lr { address, .. } => Some(address),
        Access::Sc { .. } => None,
        _ => reserved,
    }
}

// Makes a hart's accesses, which differ from hart to hart and from phase to phase.
fn work<N: RunName, R: Wait>(
    rt: &R,
    banks: &Banks<N>,
    worker: &mut Worker<N>,
    hart: usize,
    phase: u64,
) {
    let mut random = (hart as u64 % HARTS as u64) * 2 + phase % 2 + 1;
    let mut reserved = None;
    for _ in 0..ACCESSES {
        random ^= random << 13;
        random ^= random >> 7;
        random ^= random << 17;
        let acc = some_access(random, reserved);
        reserved = after_access(&acc, reserved);
        worker.make(rt, banks, acc);
    }
}

// All harts beside one another.
fn work_all<N: RunName + Send + Sync, R: Threads + Wait + Sync>(
    rt: &R,
    banks: &Banks<N>,
    workers: &mut [Worker<N>],
    phase: u64,
) {
    for_each_mut(
        rt,
        workers,
        HARTS,
        &|hart, worker: &mut Worker<N>| { work(rt, banks, worker, hart, phase) },
    );
}

// Lets the harts make their accesses in two phases. Between them the locks are taken away and made again.
// An error is want of memory.
fn phases<N: RunName + Send + Sync, R: Threads + Wait + Sync>(
    rt: &R,
    alloc: Global,
    plain: PlainBus,
    workers: &mut [Worker<N>],
) -> (EndMemory, Result<(), AllocError>)
    requires name { plain.run ≡ N.run }
    ensures memory { IsMemoryOf N.run result.0 }
{
    let banks = match Banks::<N>::new(alloc, plain) {
        Ok(banks) => banks,
        Err(plain) => return (plain.dissolve(), Err(AllocError)),
    };
    work_all(rt, &banks, workers, 0);
    let (memory, room) = banks.dissolve(rt);
    let banks = Banks::renew(memory, room);
    work_all(rt, &banks, workers, 1);
    let (memory, room) = banks.dissolve(rt);
    room.discard();
    (memory, Ok(()))
}

// Enrols a hart for a thread.
fn add_worker<N: RunName>(
    plain: &mut PlainBus,
    founder: Founder,
    workers: &mut Vec<Worker<N>>,
    hart: u8,
    made: Vec<Made>,
) -> Founder
    requires name { plain.old.run ≡ N.run }
    requires small { IsSmall plain.old.run }
    requires founder { founder.id ≡ plain.old.run.book.id }
    requires hart { (hart < 8) × (occurrences hart founder.harts ≡ 0) }
    requires room { vec_len workers.old < vec_capacity workers.old }
    ensures founder { result ≡ add_hart founder (record { 0 = hart }) }
    ensures len { vec_len workers.new ≡ vec_len workers.old + 1 }
    ensures room { vec_capacity workers.new ≡ vec_capacity workers.old }
    ensures same { plain.new ≡ plain.old }
{
    let (founder, tried) = enrol(plain, founder, HartId(hart), 2 * ACCESSES, 0);
    workers.push_reserved(Worker::of(tried, made));
    founder
}

// Enrols all harts, each with its room.
fn add_workers<N: RunName>(
    alloc: Global,
    plain: &mut PlainBus,
    mut founder: Founder,
    workers: &mut Vec<Worker<N>>,
    mut rooms: Vec<Vec<Made>>,
) -> Founder
    requires name { plain.old.run ≡ N.run }
    requires small { IsSmall plain.old.run }
    requires founder { IsFounderOf plain.old.run founder }
    requires none { founder.harts ≡ [] }
    requires room { (vec_len workers.old ≡ 0) × (8 ≤ vec_capacity workers.old) }
    ensures founder { IsFounderOf plain.new.run result }
    ensures harts { result.harts ≡ numbers_below 8 }
    ensures all { vec_len workers.new ≡ 8 }
    ensures same { plain.new ≡ plain.old }
{
    for hart in 0..HARTS as u8 {
        let made = rooms.pop().unwrap_or(Vec::new(alloc));
        founder = add_worker(plain, founder, workers, hart, made);
    }
    founder
}

// Takes a hart from its thread, and puts what it has made where its number is. It returns only where it
// is this hart.
fn take_worker<N: RunName, R: Wait>(
    rt: &R,
    worker: Worker<N>,
    hart: usize,
    all: &mut [Option<Made>],
) -> Pass
    ensures record { result.id ≡ N.run.book.id }
    ensures hart { result.hart.0 ≡ hart }
{
    let (pass, made) = worker.into_parts();
    for one in made.as_slice() {
        if let Some(place) = all.get_mut(one.number as usize) {
            *place = Some(*one);
        }
    }
    if pass.hart().0 as usize != hart {
        for _ in rt.forever() {}
        unreachable!()
    }
    pass
}

// Takes all harts from their threads, the last one first.
fn take_workers<N: RunName, R: Wait>(
    rt: &R,
    mut workers: Vec<Worker<N>>,
    mut passes: Vec<Pass>,
    all: &mut [Option<Made>],
) -> Vec<Pass>
    requires all { vec_len workers ≡ 8 }
    requires room { (vec_len passes ≡ 0) × (8 ≤ vec_capacity passes) }
    ensures record { All (λ p. p.id ≡ N.run.book.id) result.items }
    ensures harts { harts_of result.items ≡ numbers_below 8 }
{
    while let Some(worker) = workers.pop() {
        passes.push_reserved(take_worker(rt, worker, workers.len(), all));
    }
    workers.destroy_empty();
    passes
}

// A whole run under the name of its record. It answers how many events were counted. An error is want of
// memory.
fn run_named<N: RunName + Send + Sync, R: Threads + Wait + Sync>(
    rt: &R,
    alloc: Global,
    mut plain: PlainBus,
    founder: Founder,
    passes: Vec<Pass>,
    rooms: Vec<Vec<Made>>,
    all: &mut [Option<Made>],
) -> Result<u64, AllocError>
    requires name { plain.run ≡ N.run }
    requires small { IsSmall plain.run }
    requires founder { IsFounderOf plain.run founder }
    requires harts { founder.harts ≡ [] }
    requires room { (vec_len passes ≡ 0) × (8 ≤ vec_capacity passes) }
{
    let Ok(mut workers) = Vec::<Worker<N>>::with_capacity(alloc, HARTS) else {
        let mut memory = plain.dissolve();
        memory.settle(founder, passes);
        memory.discard();
        return Err(AllocError);
    };
    let founder = add_workers(alloc, &mut plain, founder, &mut workers, rooms);
    let (mut memory, done) = phases(rt, alloc, plain, workers.as_mut_slice());
    let passes = take_workers(rt, workers, passes, all);
    let closed = memory.settle(founder, passes);
    memory.discard();
    done?;
    Ok(closed.count)
}

// A memory of 128 doublewords, what each hart has reserved, and the time.
#[derive(Drop)]
struct Judge {
    words: [u64; 128],
    places: [Option<usize>; HARTS],
    time: u64,
}

fn word_of(address: u64) -> usize
    ensures { result < 128 }
{
    (address % 1024 / 8) as usize
}

impl Judge {
    // The start: each of the first four lines begins with its number, from 1.
    fn new() -> Judge {
        let mut words = [0; 128];
        words[0] = 1;
        words[8] = 2;
        words[16] = 3;
        words[24] = 4;
        Judge {
            words,
            places: [None; HARTS],
            time: 0,
        }
    }

    fn store(&mut self, hart: usize, word: usize, value: u64)
        requires { word < 128 }
    {
        self.words[word] = value;
        for other in 0..HARTS {
            if other != hart && self.places[other] == Some(word) {
                self.places[other] = None;
            }
        }
    }

    // What this access is answered after those before it.
    fn next(&mut self, made: &Made) -> u64 {
        let hart = made.hart as usize % HARTS;
        match made.acc {
            Access::Read { address, .. } => self.words[word_of(address)],
            Access::Write { address, value, .. } => {
                self.store(hart, word_of(address), value);
                0
            }
            Access::Lr { address, .. } => {
                self.places[hart] = Some(word_of(address));
                self.words[word_of(address)]
            }
            Access::Sc { address, value, .. } => {
                let stands = self.places[hart] == Some(word_of(address));
                self.places[hart] = None;
                if stands {
                    self.store(hart, word_of(address), value);
                }
                !stands as u64
            }
            Access::Pulse { .. } => {
                self.time = self.time.wrapping_add(1);
                0
            }
            Access::Time => self.time,
            _ => u64::MAX,
        }
    }
}

// How many accesses, in the order of their numbers, are answered as the judge has it, up to the first
// that isn't.
fn judged(all: &[Option<Made>]) -> usize {
    let mut judge = Judge::new();
    for (number, made) in all.iter().enumerate() {
        let Some(made) = made else {
            return number;
        };
        if judge.next(made) != made.value {
            return number;
        }
    }
    all.len()
}

// Whether all is answered as the judge has it where RAM has so many banks, and the record counts as many
// events.
fn agree_at<R: Threads + Wait + Sync>(rt: &R, alloc: Global, banks: u8) -> Result<bool, AllocError>
    requires banks { is_bank_count banks ≡ true }
{
    let image = image(alloc)?;
    if !SETTINGS.lawful() || !image.fits(SETTINGS.ram) {
        return Ok(false);
    }
    let places = HARTS * 2 * ACCESSES as usize;
    let mut all = Vec::with_capacity(alloc, places)?;
    for _ in 0..places {
        all.push(None)?;
    }
    let mut rooms = Vec::with_capacity(alloc, HARTS)?;
    for _ in 0..HARTS {
        rooms.push(Vec::with_capacity(alloc, 2 * ACCESSES as usize)?)?;
    }
    let passes = Vec::with_capacity(alloc, HARTS)?;
    let Ok((plain, founder)) = PlainBus::new(alloc, &image, &SETTINGS, banks, Vec::new(alloc))
    else {
        passes.destroy_empty();
        return Err(AllocError);
    };
    let count = run_named::<Brand, R>(
        rt,
        alloc,
        plain,
        founder,
        passes,
        rooms,
        all.as_mut_slice(),
    )?;
    Ok(count == places as u64 && judged(all.as_slice()) == places)
}

#[test]
fn threads_agree_at_one_bank(rt: HostRuntime) -> Result<(), Fail> {
    assert!(rt; agree_at(&rt, rt.alloc(), 1)?);
    Ok(())
}

#[test]
fn threads_agree_at_four_banks(rt: HostRuntime) -> Result<(), Fail> {
    assert!(rt; agree_at(&rt, rt.alloc(), 4)?);
    Ok(())
}

#[test]
fn threads_agree_at_64_banks(rt: HostRuntime) -> Result<(), Fail> {
    assert!(rt; agree_at(&rt, rt.alloc(), 64)?);
    Ok(())
}
