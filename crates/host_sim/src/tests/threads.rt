//! Two harts, each run by the host on a thread of its own, over banks under locks.
ghost use Rattle.std.specs.Prelude.{◌≡◌, ◌+◌, ◌<◌, ◌≤◌, true, [], vec_len, vec_capacity};
ghost use Rattle.flex_base.specs.Loaded.{image_fits};
ghost use Rattle.access_record.specs.Rule.{occurrences};
ghost use Rattle.access_record.specs.Passes.{add_hart};
ghost use Rattle.context.specs.Contexts.{IsOn, IsSame};
ghost use Rattle.mem_banks.specs.End.{IsMemoryOf, IsFounderOf};
ghost use Rattle.host_sim.specs.Tried.{IsTried};

use super::{ROOM, Standing, run, standing};
use access_record::{Bus, Founder, Pass};
use context::{HartContext, Wants};
use flex_base::{HartId, Image, OpenGate, RAM_BASE, Settings, Stop};
use hart_story::Hart;
use journal::HartLog;
use mem_banks::{Banks, EndMemory, PlainBus, RunName, SharedBus};
use std::alloc::{AllocError, Global};
use std::marker::{Brand, Model, PhantomData};
use std::process::Abort;
use std::sync::Wait;
use std::test::Fail;
use std::thread::{Threads, for_each_mut};
use transplant_plan::{Plan, PlanFault, read_plan};

const HARTS: usize = 2;

const BANKS: u8 = 4;

const SETTINGS: Settings = Settings {
    harts: 2,
    ram: 0x10_0000,
    budget: 100,
};

// Hart h draws ten numbers by a generator that starts at h. The top four bits of each choose one of 16
// counters, which gains 1.
const PROGRAM: [u8; 68] = [
    0x97, 0x0f, 0x00, 0x00, // auipc x31, 0
    0x03, 0xb3, 0x0f, 0x10, // ld x6, 256(x31)
    0x83, 0xb3, 0x8f, 0x10, // ld x7, 264(x31)
    0x03, 0xb4, 0x0f, 0x11, // ld x8, 272(x31)
    0xb7, 0x14, 0x00, 0x00, // lui x9, 1
    0xb3, 0x84, 0xf4, 0x01, // add x9, x9, x31
    0x93, 0x05, 0x10, 0x00, // addi x11, x0, 1
    0x33, 0x05, 0x65, 0x02, // mul x10, x10, x6
    0x33, 0x05, 0x75, 0x00, // add x10, x10, x7
    0x13, 0x56, 0xc5, 0x03, // srli x12, x10, 60
    0x13, 0x16, 0x36, 0x00, // slli x12, x12, 3
    0x33, 0x06, 0x96, 0x00, // add x12, x12, x9
    0x2f, 0x30, 0xb6, 0x00, // amoadd.d x0, x11, (x12)
    0x13, 0x04, 0xf4, 0xff, // addi x8, x8, -1
    0xe3, 0x12, 0x04, 0xfe, // bne x8, x0, -28
    0x73, 0x00, 0x50, 0x10, // wfi
    0x6f, 0xf0, 0xdf, 0xff, // jal x0, -4
];

// What stands 256 bytes after the program's start.
const NUMBERS: [u8; 24] = [
    0x2d, 0x7f, 0x95, 0x4c, 0x2d, 0xf4, 0x51, 0x58, // the multiplier
    0x4f, 0x81, 0x67, 0xf7, 0x7e, 0x7b, 0x05, 0x14, // the increment
    0x0a, 0x00, 0x00, 0x00, 0x00, 0x00, 0x00, 0x00, // how many numbers a hart draws
];

// All work is the host's.
const PLAN: &[u8] =
    b"[engine]\nfetch = 'host'\nalu = 'host'\nmuldiv = 'host'\njump = 'host'\nload = 'host'\nstore = 'host'\natomic = 'host'\nfence = 'host'\ncsr = 'host'\nsystem = 'host'\nwalk = 'host'\ntrap = 'host'\npulse = 'host'\ndevice = 'host'";

// More runs than a hart makes until it waits. A run gives it back after 64 ends.
const MOST_RUNS: u64 = 4;

fn image(alloc: Global) -> Result<Image, AllocError> {
    let mut parts = Vec::new(alloc);
    let program = Vec::from_slice(alloc, PROGRAM.as_slice())?;
    parts.push((RAM_BASE, program))?;
    let numbers = Vec::from_slice(alloc, NUMBERS.as_slice())?;
    parts.push((RAM_BASE + 0x100, numbers))?;
    Ok(Image {
        entry: RAM_BASE,
        parts,
    })
}

// The hart of a thread.
struct Worker<N: RunName> {
    slot: Option<HartContext>,
    of: PhantomData<N>,
}

impl<N: RunName> Model for Worker<N> {
    ghost use Rattle.std.specs.Prelude.{Option, IsSomeAnd};
    ghost use Rattle.context.specs.Contexts.{Context, IsOn};

    ghost Value = { Option Context };

    ghost view = { λ w. w.slot };

    ghost invariant = { λ w. IsSomeAnd w.slot (λ c. IsOn N.run c) };
}

impl<N: RunName> Worker<N> {
    fn of(context: HartContext) -> Worker<N>
        requires on { IsOn N.run context }
    {
        Worker {
            slot: Some(context),
            of: PhantomData,
        }
    }

    // Runs the hart until it waits or is over.
    fn run<R: Wait>(&mut self, rt: &R, banks: &Banks<N>) {
        let Some(context) = self.slot.take() else {
            unreachable!()
        };
        let context = run_until_it_waits(context, &mut SharedBus::new(rt, banks, &OpenGate));
        let left = self.slot.replace(context);
        let None = left else { unreachable!() };
    }

    fn into_context(self) -> HartContext
        ensures on { IsOn N.run result }
    {
        let Worker { slot, of: _ } = self;
        let Some(context) = slot else { unreachable!() };
        context
    }
}

// Runs a hart again and again until it is parked or over. The one that waits last is over, since it is
// told that the run stops.
fn run_until_it_waits<B: Bus>(context: HartContext, bus: &mut B) -> HartContext
    requires on { IsOn (B.run bus.old) context }
    ensures on { IsOn (B.run bus.old) result }
{
    let mut context = context;
    for _ in 0..MOST_RUNS {
        let (after, stands) = run(context, bus);
        context = after;
        if matches!(stands.1, Wants::Parked | Wants::Over) {
            return context;
        }
    }
    context
}

// A hart at its start, for a thread.
fn add_worker<N: RunName>(
    plain: &mut PlainBus,
    founder: Founder,
    image: &Image,
    workers: &mut Vec<Worker<N>>,
    id: HartId,
    log: HartLog,
    plan: Plan,
) -> Founder
    requires name { plain.old.run ≡ N.run }
    requires run { IsTried plain.old.run image.now }
    requires fits { image_fits 1048576 image.now ≡ true }
    requires founder { founder.id ≡ plain.old.run.book.id }
    requires in_range { id.0 < 2 }
    requires not_yet { occurrences id.0 founder.harts ≡ 0 }
    requires log { log ≡ record { events = []; room = 2424 } }
    requires room { vec_len workers.old < vec_capacity workers.old }
    ensures founder { result ≡ add_hart founder id }
    ensures len { vec_len workers.new ≡ vec_len workers.old + 1 }
    ensures room { vec_capacity workers.new ≡ vec_capacity workers.old }
    ensures same { plain.new.run ≡ plain.old.run }
{
    let (founder, pass) = plain.enrol(founder, id);
    let hart = Hart::start(id, image.entry);
    let context = HartContext::new(hart, pass, log, plan, &SETTINGS);
    workers.push_reserved(Worker::of(context));
    founder
}

// Takes the last hart from its thread, and answers how it stands. It returns only where it is this
// hart.
fn take_worker<N: RunName, R: Wait>(
    rt: &R,
    workers: &mut Vec<Worker<N>>,
    id: HartId,
) -> (Pass, Standing)
    requires some { 0 < vec_len workers.old }
    ensures record { result.0.id ≡ N.run.book.id }
    ensures hart { result.0.hart ≡ id }
    ensures len { vec_len workers.new + 1 ≡ vec_len workers.old }
{
    let Some(worker) = workers.pop() else {
        unreachable!()
    };
    let context = worker.into_context();
    let stands = standing(&context);
    let (_, pass, _) = context.dissolve();
    if pass.hart().0 != id.0 {
        for _ in rt.forever() {}
        unreachable!()
    }
    (pass, stands)
}

// Runs all harts beside one another, with locks round the banks. An error is want of memory.
fn run_all<N: RunName + Send + Sync, R: Threads + Wait + Sync>(
    rt: &R,
    alloc: Global,
    plain: PlainBus,
    workers: &mut [Worker<N>],
) -> (EndMemory, Result<(), AllocError>)
    requires name { plain.run ≡ N.run }
    ensures memory { IsMemoryOf N.run result.0 }
{
    let banks = match Banks::<N>::new(alloc, plain) {
        Ok(banks) => banks,
        Err(plain) => return (plain.dissolve(), Err(AllocError)),
    };
    for_each_mut(
        rt,
        workers,
        HARTS,
        &|_, worker: &mut Worker<N>| { worker.run(rt, &banks) },
    );
    let (memory, room) = banks.dissolve(rt);
    room.discard();
    (memory, Ok(()))
}

// The sum of the 16 counters of 8 bytes at 0x80001000. Their two lines are in the first two banks, each
// after 16 others.
fn counted(memory: &EndMemory) -> u64 {
    let mut sum: u64 = 0;
    for bank in memory.lines.iter().take(2) {
        for place in 0..64 {
            if let Some(byte) = bank.bytes().get(1024 + place) {
                sum = sum.wrapping_add((*byte as u64) << (place as u64 % 8 * 8));
            }
        }
    }
    sum
}

// How the harts stand after a run, the sum of the counters, and why it stops.
type Left = (Standing, Standing, u64, Option<Stop>);

// A whole run under the name of its record. An error is want of memory.
fn run_named<N: RunName + Send + Sync, R: Threads + Wait + Sync>(
    rt: &R,
    alloc: Global,
    mut plain: PlainBus,
    founder: Founder,
    image: &Image,
    plan: Plan,
    logs: (HartLog, HartLog),
    mut passes: Vec<Pass>,
) -> Result<Left, AllocError>
    requires name { plain.run ≡ N.run }
    requires run { IsTried plain.run image.now }
    requires fits { image_fits 1048576 image.now ≡ true }
    requires founder { IsFounderOf plain.run founder }
    requires harts { founder.harts ≡ [] }
    requires first { logs.0 ≡ record { events = []; room = 2424 } }
    requires second { logs.1 ≡ record { events = []; room = 2424 } }
    requires room { (vec_len passes ≡ 0) × (2 ≤ vec_capacity passes) }
{
    let Ok(mut workers) = Vec::<Worker<N>>::with_capacity(alloc, HARTS) else {
        let mut memory = plain.dissolve();
        memory.settle(founder, passes);
        memory.discard();
        return Err(AllocError);
    };
    let founder = add_worker(
        &mut plain,
        founder,
        image,
        &mut workers,
        HartId(0),
        logs.0,
        plan,
    );
    let founder = add_worker(
        &mut plain,
        founder,
        image,
        &mut workers,
        HartId(1),
        logs.1,
        plan,
    );
    let (mut memory, done) = run_all(rt, alloc, plain, workers.as_mut_slice());
    let (second, second_stands) = take_worker(rt, &mut workers, HartId(1));
    let (first, first_stands) = take_worker(rt, &mut workers, HartId(0));
    workers.destroy_empty();
    passes.push_reserved(second);
    passes.push_reserved(first);
    memory.settle(founder, passes);
    let sum = counted(&memory);
    let stop = memory.devices.stop();
    memory.discard();
    done?;
    Ok((first_stands, second_stands, sum, stop))
}

// Runs the two harts.
fn count<R: Threads + Wait + Abort + Sync>(rt: &R, alloc: Global) -> Result<Left, Fail> {
    let image = image(alloc)?;
    assert!(rt; SETTINGS.lawful() && image.fits(SETTINGS.ram));
    let plan = match read_plan(alloc, PLAN) {
        Ok(plan) => plan,
        Err(PlanFault::OutOfMemory) => return Err(AllocError.into()),
        Err(_) => panic!(rt; "plan"),
    };
    let logs = (HartLog::new(alloc, ROOM)?, HartLog::new(alloc, ROOM)?);
    let passes = Vec::with_capacity(alloc, HARTS)?;
    let Ok((plain, founder)) = PlainBus::new(alloc, &image, &SETTINGS, BANKS, Vec::new(alloc))
    else {
        passes.destroy_empty();
        return Err(AllocError.into());
    };
    Ok(run_named::<Brand, R>(rt, alloc, plain, founder, &image, plan, logs, passes)?)
}

// Whether one hart waits and the other, which waited last, was told that the run stops.
fn is_one_told(first: Wants, second: Wants) -> bool {
    match first {
        Wants::Over => second == Wants::Parked,
        Wants::Parked => second == Wants::Over,
        _ => false,
    }
}

#[test]
fn harts_count_on_threads(rt: HostRuntime) -> Result<(), Fail> {
    let (first, second, sum, stop) = count(&rt, rt.alloc())?;
    assert_eq!(rt; [first.0, second.0, sum], [87, 87, 20]);
    assert!(rt; is_one_told(first.1, second.1) && stop == Some(Stop::Idle));
    Ok(())
}
