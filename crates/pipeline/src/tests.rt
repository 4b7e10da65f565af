ghost use Rattle.std.specs.Prelude.{◌≡◌, ℕ, ◌+◌, ◌-◌, ◌<◌, ◌≤◌, true, List, [], ◌∷◌, ◌++◌, length, vec_len, vec_capacity};
ghost use Rattle.flex_base.specs.Loaded.{image_fits};
ghost use Rattle.flex_base.specs.declared.class.Class.TheVariants as Class;
ghost use Rattle.flex_base.specs.declared.engine.Engine.TheVariants as Engine;
ghost use Rattle.access_record.specs.Rule.{occurrences};
ghost use Rattle.access_record.specs.Passes.{PassOfHart, add_hart};
ghost use Rattle.access_record.specs.Buses.{Run};
ghost use Rattle.transplant_plan.specs.Planning.{engine_at};
ghost use Rattle.context.specs.Contexts.{IsOn};
ghost use Rattle.context.specs.Tried.{IsTried};
ghost use Rattle.pipeline.specs.Pipes.{AreOn};
ghost use Rattle.pipeline.specs.Tried.{harts_in, AreKept};

use super::*;
use access_record::{Bus, Founder, Pass};
use context::HartContext;
use flex_base::{Class, Engine, HartId, Image, RAM_BASE, Settings};
use hart_story::Hart;
use journal::HartLog;
use mem_banks::PlainBus;
use std::alloc::{AllocError, Global};
use std::process::Abort;
use std::test::Fail;
use transplant_plan::{Plan, read_plan};

const SETTINGS: Settings = Settings {
    harts: 2,
    ram: 0x10_0000,
    budget: 16,
};

// The room of a log.
const ROOM: u64 = 408;

// Hart 0 stores to a word and waits. Hart 1 adds and jumps back.
const PROGRAM: [u8; 28] = [
    0x63, 0x18, 0x05, 0x00, // bne x10, x0, 16
    0x97, 0x02, 0x00, 0x00, // auipc x5, 0
    0x23, 0xa0, 0x52, 0x00, // sw x5, 0(x5)
    0x73, 0x00, 0x50, 0x10, // wfi
    0x93, 0x82, 0x12, 0x00, // addi x5, x5, 1
    0x93, 0x82, 0x12, 0x00, // addi x5, x5, 1
    0x6f, 0xf0, 0x9f, 0xff, // jal x0, -8
];

const PLAN: &[u8] = b"";

fn image(alloc: Global) -> Result<Image, AllocError> {
    let mut parts = Vec::new(alloc);
    let bytes = Vec::from_slice(alloc, PROGRAM.as_slice())?;
    parts.push((RAM_BASE, bytes))?;
    Ok(Image {
        entry: RAM_BASE,
        parts,
    })
}

// A hart at its start.
fn start(
    bus: &mut PlainBus,
    founder: Founder,
    image: &Image,
    id: HartId,
    log: HartLog,
    plan: Plan,
) -> (Founder, HartContext)
    requires founder { founder.id ≡ bus.old.run.book.id }
    requires in_range { id.0 < 2 }
    requires not_yet { occurrences id.0 founder.harts ≡ 0 }
    requires run { IsTried bus.old.run image.now }
    requires fits { image_fits 1048576 image.now ≡ true }
    requires log { log ≡ record { events = []; room = 408 } }
    requires fetches { engine_at plan.engines Class.Fetch ≡ Engine.Pipe }
    ensures founder { result.0 ≡ add_hart founder id }
    ensures hart { result.1.pass.hart ≡ id }
    ensures on { IsOn bus.new.run result.1 }
    ensures here { result.1.engine ≡ Engine.Pipe }
    ensures same { bus.new.run ≡ bus.old.run }
{
    let (founder, pass) = bus.enrol(founder, id);
    let hart = Hart::start(id, image.entry);
    let context = HartContext::new(hart, pass, log, plan, &SETTINGS);
    (founder, context)
}

// Admits a hart at its start.
fn begin(
    bus: &mut PlainBus,
    pipe: &mut Pipeline,
    founder: Founder,
    image: &Image,
    id: HartId,
    log: HartLog,
    plan: Plan,
) -> Founder
    requires founder { founder.id ≡ bus.old.run.book.id }
    requires in_range { id.0 < 2 }
    requires not_yet { occurrences id.0 founder.harts ≡ 0 }
    requires run { IsTried bus.old.run image.now }
    requires fits { image_fits 1048576 image.now ≡ true }
    requires log { log ≡ record { events = []; room = 408 } }
    requires fetches { engine_at plan.engines Class.Fetch ≡ Engine.Pipe }
    requires few { length pipe.old.held < 32 }
    ensures founder { result ≡ add_hart founder id }
    ensures kept { (harts : List ℕ) (passes : List PassOfHart) → AreKept bus.old.run harts pipe.old.held passes
        → AreKept bus.new.run (id.0 ∷ harts) pipe.new.held passes }
    ensures held { length pipe.new.held ≡ length pipe.old.held + 1 }
    ensures same { bus.new.run ≡ bus.old.run }
{
    let (founder, context) = start(bus, founder, image, id, log, plan);
    pipe.admit(context);
    founder
}

// What is in the latches after a cycle, and how many events it made.
type Row = ([Option<u8>; 6], u64);

const FIRST: Option<u8> = Some(0);

const OTHER: Option<u8> = Some(1);

// The hart in each latch.
fn row(pipe: &Pipeline) -> Row {
    let [select, fetch, decode, execute, memory, end] = pipe.latches();
    let harts = [
        hart_of(select),
        hart_of(fetch),
        hart_of(decode),
        hart_of(execute),
        hart_of(memory),
        hart_of(end),
    ];
    (harts, pipe.made())
}

fn hart_of(latch: Option<Flight>) -> Option<u8> {
    match latch {
        Some(flight) => Some(flight.place),
        None => None,
    }
}

const ROWS: [Row; 12] = [
    ([OTHER, FIRST, None, None, None, None], 1),
    ([None, OTHER, FIRST, None, None, None], 1),
    ([None, None, OTHER, FIRST, None, None], 0),
    ([None, None, None, OTHER, FIRST, None], 0),
    ([FIRST, None, None, None, OTHER, None], 1),
    ([OTHER, FIRST, None, None, None, None], 2),
    ([None, OTHER, FIRST, None, None, None], 1),
    ([None, None, OTHER, FIRST, None, None], 0),
    ([None, None, None, OTHER, FIRST, None], 0),
    ([FIRST, None, None, None, OTHER, None], 1),
    ([OTHER, FIRST, None, None, None, None], 2),
    ([None, OTHER, FIRST, None, None, None], 1),
];

// A cycle, and what is in the latches after it.
fn turn<B: Bus>(pipe: &mut Pipeline, bus: &mut B) -> Row
    requires on { AreOn (B.run bus.old) pipe.old.held }
    ensures on { AreOn (B.run bus.old) pipe.new.held }
    ensures same { harts_in pipe.new.held ≡ harts_in pipe.old.held }
    ensures bus { B.run bus.new ≡ B.run bus.old }
{
    pipe.cycle(bus);
    row(pipe)
}

// Runs cycles, and counts those that are as the table says.
fn play<B: Bus>(pipe: &mut Pipeline, bus: &mut B, table: &[Row]) -> u64
    requires on { AreOn (B.run bus.old) pipe.old.held }
    ensures on { AreOn (B.run bus.old) pipe.new.held }
    ensures same { harts_in pipe.new.held ≡ harts_in pipe.old.held }
    ensures bus { B.run bus.new ≡ B.run bus.old }
{
    let mut right = 0;
    for wanted in table {
        let row = turn(pipe, bus);
        if row == *wanted && right < u64::MAX {
            right += 1;
        }
    }
    right
}

// Runs so many cycles, and counts their events.
fn cycles<B: Bus>(pipe: &mut Pipeline, bus: &mut B, count: u64) -> u64
    requires on { AreOn (B.run bus.old) pipe.old.held }
    ensures on { AreOn (B.run bus.old) pipe.new.held }
    ensures same { harts_in pipe.new.held ≡ harts_in pipe.old.held }
    ensures bus { B.run bus.new ≡ B.run bus.old }
{
    let mut made: u64 = 0;
    for _ in 0..count {
        let (_, more) = turn(pipe, bus);
        made = made.saturating_add(more);
    }
    made
}

// What a hart has done: its ends and its events.
type Done = (u64, u64);

// Takes a hart apart, and keeps its pass.
fn take_apart(context: HartContext, passes: &mut Vec<Pass>) -> Done
    requires room { vec_len passes.old < vec_capacity passes.old }
    ensures passes { passes.new.items ≡ passes.old.items ++ context.pass ∷ [] }
    ensures room { vec_capacity passes.new ≡ vec_capacity passes.old }
{
    let ends = context.ends();
    let (_, pass, log) = context.dissolve();
    passes.push_reserved(pass);
    (ends, log.len())
}

// Takes apart the first hart that wants another engine.
fn leave(pipe: &mut Pipeline, passes: &mut Vec<Pass>) -> Option<Done>
    requires room { vec_len passes.old + length pipe.old.held ≤ vec_capacity passes.old }
    ensures kept { (run : Run) (harts : List ℕ) → AreKept run harts pipe.old.held passes.old.items
        → AreKept run harts pipe.new.held passes.new.items }
    ensures room { vec_capacity passes.new ≡ vec_capacity passes.old }
{
    match pipe.leave() {
        Some(context) => Some(take_apart(context, passes)),
        None => None,
    }
}

// Takes apart the hart that was admitted last.
fn drain_one(pipe: &mut Pipeline, passes: &mut Vec<Pass>) -> Option<Done>
    requires room { vec_len passes.old + length pipe.old.held ≤ vec_capacity passes.old }
    ensures kept { (run : Run) (harts : List ℕ) → AreKept run harts pipe.old.held passes.old.items
        → AreKept run harts pipe.new.held passes.new.items }
    ensures room { vec_capacity passes.new ≡ vec_capacity passes.old }
    ensures fewer { length pipe.new.held ≡ length pipe.old.held - 1 }
{
    match pipe.drain_one() {
        Some(context) => Some(take_apart(context, passes)),
        None => None,
    }
}

#[test]
fn instructions_go_from_latch_to_latch(rt: HostRuntime) -> Result<(), Fail> {
    let image = image(rt.alloc())?;
    assert!(rt; SETTINGS.lawful() && image.fits(SETTINGS.ram));
    let plan = match read_plan(rt.alloc(), PLAN) {
        Ok(plan) => plan,
        Err(_) => panic!(rt; "plan"),
    };
    let Engine::Pipe = plan.engine_for(Class::Fetch) else {
        panic!(rt; "engine")
    };
    let first = HartLog::new(rt.alloc(), ROOM)?;
    let other = HartLog::new(rt.alloc(), ROOM)?;
    let mut passes = Vec::with_capacity(rt.alloc(), 2)?;
    let Ok(mut pipe) = Pipeline::new(rt.alloc()) else {
        passes.destroy_empty();
        panic!(rt; "pipe")
    };
    let input = Vec::new(rt.alloc());
    let Ok((mut bus, founder)) = PlainBus::new(rt.alloc(), &image, &SETTINGS, 4, input) else {
        passes.destroy_empty();
        pipe.discard();
        panic!(rt; "memory")
    };
    let nobody = [
        leave(&mut pipe, &mut passes),
        drain_one(&mut pipe, &mut passes),
    ];
    let nothing = [u64::from(pipe.count()), pipe.made()];
    let founder = begin(&mut bus, &mut pipe, founder, &image, HartId(0), first, plan);
    let founder = begin(&mut bus, &mut pipe, founder, &image, HartId(1), other, plan);
    let right = play(&mut pipe, &mut bus, ROWS.as_slice());
    let more = cycles(&mut pipe, &mut bus, 200);
    let held = pipe.count();
    let left = leave(&mut pipe, &mut passes);
    let (after, _) = row(&pipe);
    let last = drain_one(&mut pipe, &mut passes);
    let none = drain_one(&mut pipe, &mut passes);
    let empty = pipe.count();
    pipe.discard();
    let mut end = bus.dissolve();
    let closed = end.settle(founder, passes);
    end.discard();
    assert_eq!(rt; nobody, [None; 2]);
    assert_eq!(rt; nothing, [0, 0]);
    assert_eq!(rt; right, 12);
    assert_eq!(rt; [held, empty], [2, 0]);
    assert_eq!(rt; [left, last, none], [Some((3, 8)), Some((16, 32)), None]);
    assert_eq!(rt; more, 40 - 10);
    assert_eq!(rt; after, [None; 6]);
    assert_eq!(rt; closed.count, 40);
    Ok(())
}
