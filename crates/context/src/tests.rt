ghost use Rattle.std.specs.Prelude.{◌≡◌, ◌<◌, true, [], ◌∷◌, ◌++◌, vec_len, vec_capacity};
ghost use Rattle.flex_base.specs.Loaded.{image_fits};
ghost use Rattle.access_record.specs.Rule.{occurrences};
ghost use Rattle.access_record.specs.Passes.{add_hart};
ghost use Rattle.context.specs.declared.wants.Wants.TheVariants as Wants;
ghost use Rattle.context.specs.Contexts.{IsWanting, IsElsewhere, IsOn, IsSame};
ghost use Rattle.context.specs.Tried.{IsTried};

use super::*;
use access_record::{Bus, Founder, Pass};
use flex_base::{Access, Engine, HartId, Image, RAM_BASE, Settings, What};
use hart_story::Hart;
use journal::HartLog;
use mem_banks::PlainBus;
use std::alloc::{AllocError, Global};
use std::process::Abort;
use std::test::Fail;
use transplant_plan::{Plan, read_plan};

const SETTINGS: Settings = Settings {
    harts: 2,
    ram: 0x10_0000,
    budget: 16,
};

// The room of a log.
const ROOM: u64 = 408;

// Hart 0 adds to a word and waits for a software interrupt. Hart 1 sends it.
const PROGRAM: [u8; 32] = [
    0x63, 0x1a, 0x05, 0x00, // bne x10, x0, 20
    0x73, 0x50, 0x44, 0x30, // csrrwi x0, mie, 8
    0x97, 0x03, 0x00, 0x00, // auipc x7, 0
    0x2f, 0xa3, 0x53, 0x00, // amoadd.w x6, x5, (x7)
    0x73, 0x00, 0x50, 0x10, // wfi
    0xb7, 0x02, 0x00, 0x02, // lui x5, 0x2000
    0x13, 0x03, 0x10, 0x00, // addi x6, x0, 1
    0x23, 0xa0, 0x62, 0x00, // sw x6, 0(x5)
];

fn image(alloc: Global) -> Result<Image, AllocError> {
    let mut parts = Vec::new(alloc);
    let bytes = Vec::from_slice(alloc, PROGRAM.as_slice())?;
    parts.push((RAM_BASE, bytes))?;
    Ok(Image {
        entry: RAM_BASE,
        parts,
    })
}

// What a hart did.
#[derive(Clone, Copy, PartialEq, Eq)]
enum Did {
    Accessed(Engine),
    Ended(Engine),
    // A handover, and then the event that was due.
    Moved(Engine),
    Woke,
    Slept,
    Nothing,
}

// Makes a hart's next event, and before it the handover that is due.
fn next<B: Bus>(context: HartContext, bus: &mut B) -> (HartContext, Did)
    requires on { IsOn (B.run bus.old) context }
    ensures on { IsOn (B.run bus.new) result.0 }
    ensures same { IsSame context result.0 }
    ensures bus { B.run bus.new ≡ B.run bus.old }
{
    let mut context = context;
    let wanted = context.wanted_engine();
    match context.go(bus) {
        Went::Accessed => (context, Did::Accessed(wanted)),
        Went::Ended => (context, Did::Ended(wanted)),
        Went::Elsewhere(to) => move_on(context, bus, to),
        Went::Parked => try_to_wake(context, bus),
        Went::Over => (context, Did::Nothing),
    }
}

// Hands a hart over, and makes the event that it wants there.
fn move_on<B: Bus>(context: HartContext, bus: &mut B, to: Engine) -> (HartContext, Did)
    requires on { IsOn (B.run bus.old) context }
    requires elsewhere { IsElsewhere to context }
    ensures on { IsOn (B.run bus.new) result.0 }
    ensures same { IsSame context result.0 }
    ensures bus { B.run bus.new ≡ B.run bus.old }
{
    let context = context.hand_over(bus, to);
    (context.step(bus), Did::Moved(to))
}

fn try_to_wake<B: Bus>(context: HartContext, bus: &mut B) -> (HartContext, Did)
    requires on { IsOn (B.run bus.old) context }
    requires parked { IsWanting context Wants.Parked }
    ensures on { IsOn (B.run bus.new) result.0 }
    ensures same { IsSame context result.0 }
    ensures bus { B.run bus.new ≡ B.run bus.old }
{
    let (context, woken) = context.try_wake(bus);
    let did = if woken { Did::Woke } else { Did::Slept };
    (context, did)
}

// Makes so many calls, and counts those that do what the table says.
fn play<B: Bus>(context: HartContext, bus: &mut B, table: &[Did]) -> (HartContext, u64)
    requires on { IsOn (B.run bus.old) context }
    ensures on { IsOn (B.run bus.new) result.0 }
    ensures same { IsSame context result.0 }
    ensures bus { B.run bus.new ≡ B.run bus.old }
{
    let mut context = context;
    let mut right = 0;
    for did in table {
        let (after, made) = next(context, bus);
        context = after;
        if made == *did && right < u64::MAX {
            right += 1;
        }
    }
    (context, right)
}

// A hart at its start.
fn begin(
    bus: &mut PlainBus,
    founder: Founder,
    image: &Image,
    id: HartId,
    log: HartLog,
    plan: Plan,
) -> (Founder, HartContext)
    requires founder { founder.id ≡ bus.old.run.book.id }
    requires in_range { id.0 < 2 }
    requires not_yet { occurrences id.0 founder.harts ≡ 0 }
    requires run { IsTried bus.old.run image.now }
    requires fits { image_fits 1048576 image.now ≡ true }
    requires log { log ≡ record { events = []; room = 408 } }
    ensures founder { result.0 ≡ add_hart founder id }
    ensures hart { result.1.pass.hart ≡ id }
    ensures on { IsOn bus.new.run result.1 }
    ensures same { bus.new.run ≡ bus.old.run }
{
    let (founder, pass) = bus.enrol(founder, id);
    let hart = Hart::start(id, image.entry);
    let context = HartContext::new(hart, pass, log, plan, &SETTINGS);
    (founder, context)
}

// How many atomic operations a log has.
fn count_amos(log: &HartLog) -> u64 {
    let mut count = 0;
    for event in log.events() {
        if matches!(event.what, What::Acc(Access::Amo { .. }, _)) && count < u64::MAX {
            count += 1;
        }
    }
    count
}

// Hart 0 is handed over between the fetch of its atomic operation and the operation.
const WAITS: [Did; 13] = [
    Did::Accessed(Engine::Pipe),
    Did::Ended(Engine::Pipe),
    Did::Accessed(Engine::Pipe),
    Did::Moved(Engine::Kernel),
    Did::Accessed(Engine::Kernel),
    Did::Moved(Engine::Pipe),
    Did::Ended(Engine::Pipe),
    Did::Accessed(Engine::Pipe),
    Did::Moved(Engine::Kernel),
    Did::Ended(Engine::Kernel),
    Did::Moved(Engine::Pipe),
    Did::Moved(Engine::Kernel),
    Did::Slept,
];

// Hart 1 jumps, and interrupts hart 0.
const SENDS: [Did; 8] = [
    Did::Accessed(Engine::Pipe),
    Did::Ended(Engine::Pipe),
    Did::Accessed(Engine::Pipe),
    Did::Ended(Engine::Pipe),
    Did::Accessed(Engine::Pipe),
    Did::Ended(Engine::Pipe),
    Did::Accessed(Engine::Pipe),
    Did::Moved(Engine::Host),
];

// So hart 0 is woken, and ends its instruction.
const GOES_ON: [Did; 2] = [Did::Woke, Did::Ended(Engine::Kernel)];

#[test]
fn harts_go_from_engine_to_engine(rt: HostRuntime) -> Result<(), Fail> {
    let image = image(rt.alloc())?;
    assert!(rt; SETTINGS.lawful() && image.fits(SETTINGS.ram));
    let plan = match read_plan(rt.alloc(), b"engine.atomic = 'kernel'".as_slice()) {
        Ok(plan) => plan,
        Err(_) => panic!(rt; "plan"),
    };
    let first_log = HartLog::new(rt.alloc(), ROOM)?;
    let second_log = HartLog::new(rt.alloc(), ROOM)?;
    let mut passes = Vec::with_capacity(rt.alloc(), 2)?;
    let input = Vec::new(rt.alloc());
    let Ok((mut bus, founder)) = PlainBus::new(rt.alloc(), &image, &SETTINGS, 4, input) else {
        passes.destroy_empty();
        panic!(rt; "memory")
    };
    let (founder, second) = begin(&mut bus, founder, &image, HartId(1), second_log, plan);
    let (founder, first) = begin(&mut bus, founder, &image, HartId(0), first_log, plan);
    let (first, waits) = play(first, &mut bus, WAITS.as_slice());
    let (second, sends) = play(second, &mut bus, SENDS.as_slice());
    let (first, goes_on) = play(first, &mut bus, GOES_ON.as_slice());
    let (hart, first_pass, log) = first.dissolve();
    let (_, second_pass, second_log) = second.dissolve();
    passes.push_reserved(first_pass);
    passes.push_reserved(second_pass);
    let mut end = bus.dissolve();
    let closed = end.settle(founder, passes);
    end.discard();
    assert_eq!(rt; [waits, sends, goes_on], [13, 8, 2]);
    assert_eq!(rt; [log.len(), second_log.len(), closed.count], [19, 9, 28]);
    assert_eq!(rt;
        [count_amos(&log), hart.regs.get(6), hart.regs.ends],
        [1, 0x397, 5]
    );
    Ok(())
}
