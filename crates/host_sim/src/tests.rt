ghost use Rattle.std.specs.Prelude.{◌≡◌, ◌<◌, true, [], vec_len, vec_capacity};
ghost use Rattle.flex_base.specs.Loaded.{image_fits};
ghost use Rattle.flex_base.specs.declared.engine.Engine.TheVariants as Engine;
ghost use Rattle.access_record.specs.Rule.{occurrences};
ghost use Rattle.access_record.specs.Passes.{add_hart};
ghost use Rattle.context.specs.Contexts.{IsOn, IsSame};
ghost use Rattle.host_sim.specs.Tried.{IsTried};

mod threads;

use super::*;
use access_record::{Bus, Founder};
use context::{HartContext, Wants};
use flex_base::{Class, Engine, HartId, Image, RAM_BASE, Settings};
use hart_story::Hart;
use journal::HartLog;
use mem_banks::PlainBus;
use std::alloc::{AllocError, Global};
use std::process::Abort;
use std::test::Fail;
use transplant_plan::{Plan, PlanFault, read_plan};

const SETTINGS: Settings = Settings {
    harts: 2,
    ram: 0x10_0000,
    budget: 100,
};

// The room of a log.
const ROOM: u64 = 2424;

// Hart 0 jumps to where it is. Hart 1 stores to a device and multiplies.
const PROGRAM: [u8; 20] = [
    0x63, 0x08, 0x05, 0x00, // beq x10, x0, 16
    0xb7, 0x02, 0x00, 0x02, // lui x5, 0x2000
    0x23, 0xa0, 0x62, 0x00, // sw x6, 0(x5)
    0x33, 0x03, 0x63, 0x02, // mul x6, x6, x6
    0x6f, 0x00, 0x00, 0x00, // jal x0, 0
];

// All that these harts do but multiplying.
const PLAN: &[u8] =
    b"engine.fetch = 'host'\nengine.alu = 'host'\nengine.jump = 'host'\nengine.store = 'host'\nengine.system = 'host'\nengine.pulse = 'host'";

fn image(alloc: Global) -> Result<Image, AllocError> {
    let mut parts = Vec::new(alloc);
    let bytes = Vec::from_slice(alloc, PROGRAM.as_slice())?;
    parts.push((RAM_BASE, bytes))?;
    Ok(Image {
        entry: RAM_BASE,
        parts,
    })
}

// A hart at its start.
fn begin(
    bus: &mut PlainBus,
    founder: Founder,
    image: &Image,
    id: HartId,
    log: HartLog,
    plan: Plan,
) -> (Founder, HartContext)
    requires founder { founder.id ≡ bus.old.run.book.id }
    requires in_range { id.0 < 2 }
    requires not_yet { occurrences id.0 founder.harts ≡ 0 }
    requires run { IsTried bus.old.run image.now }
    requires fits { image_fits 1048576 image.now ≡ true }
    requires log { log ≡ record { events = []; room = 2424 } }
    ensures founder { result.0 ≡ add_hart founder id }
    ensures hart { result.1.pass.hart ≡ id }
    ensures on { IsOn bus.new.run result.1 }
    ensures same { bus.new.run ≡ bus.old.run }
{
    let (founder, pass) = bus.enrol(founder, id);
    let hart = Hart::start(id, image.entry);
    let context = HartContext::new(hart, pass, log, plan, &SETTINGS);
    (founder, context)
}

// How a hart stands: its ends, and what it wants.
type Standing = (u64, Wants);

fn standing(context: &HartContext) -> Standing {
    (context.ends(), context.wants())
}

// A run of a hart, where it is in the host.
fn run<B: Bus>(context: HartContext, bus: &mut B) -> (HartContext, Standing)
    requires on { IsOn (B.run bus.old) context }
    ensures on { IsOn (B.run bus.new) result.0 }
    ensures same { IsSame context result.0 }
    ensures bus { B.run bus.new ≡ B.run bus.old }
{
    let mut context = context;
    if context.engine() == Engine::Host {
        context = HostSim::run(context, bus);
    }
    let stands = standing(&context);
    (context, stands)
}

// A hart's next event, where it is the host's.
fn one<B: Bus>(context: HartContext, bus: &mut B) -> (HartContext, Standing)
    requires on { IsOn (B.run bus.old) context }
    ensures on { IsOn (B.run bus.new) result.0 }
    ensures same { IsSame context result.0 }
    ensures bus { B.run bus.new ≡ B.run bus.old }
{
    let mut context = context;
    let may = context.engine() == Engine::Host && 0 < context.round_left();
    if may {
        if let Some(_wanted) = context.wants_here() {
            context = HostSim::one(context, bus);
        }
    }
    let stands = standing(&context);
    (context, stands)
}

#[test]
fn a_run_stops_where_it_must(rt: HostRuntime) -> Result<(), Fail> {
    let image = image(rt.alloc())?;
    assert!(rt; SETTINGS.lawful() && image.fits(SETTINGS.ram));
    let plan = match read_plan(rt.alloc(), PLAN) {
        Ok(plan) => plan,
        Err(PlanFault::OutOfMemory) => return Err(AllocError.into()),
        Err(_) => panic!(rt; "plan"),
    };
    let first_log = HartLog::new(rt.alloc(), ROOM)?;
    let second_log = HartLog::new(rt.alloc(), ROOM)?;
    let mut passes = Vec::with_capacity(rt.alloc(), 2)?;
    let input = Vec::new(rt.alloc());
    let Ok((mut bus, founder)) = PlainBus::new(rt.alloc(), &image, &SETTINGS, 4, input) else {
        passes.destroy_empty();
        return Err(AllocError.into());
    };
    let (founder, second) = begin(&mut bus, founder, &image, HartId(1), second_log, plan);
    let (founder, first) = begin(&mut bus, founder, &image, HartId(0), first_log, plan);
    let (first, after_one) = one(first, &mut bus);
    let (first, after_ends) = run(first, &mut bus);
    let (second, other) = run(second, &mut bus);
    let (first, at_last) = run(first, &mut bus);
    let (_, first_pass, log) = first.dissolve();
    let (_, second_pass, second_log) = second.dissolve();
    passes.push_reserved(first_pass);
    passes.push_reserved(second_pass);
    let mut end = bus.dissolve();
    let closed = end.settle(founder, passes);
    end.discard();
    assert_eq!(rt; after_one, (0, Wants::Finish(Class::Jump)));
    assert_eq!(rt; after_ends, (64, Wants::Ask(Class::Pulse)));
    assert_eq!(rt; at_last, (100, Wants::Over));
    assert_eq!(rt; other, (3, Wants::Finish(Class::Muldiv)));
    assert_eq!(rt; log.len() + second_log.len(), closed.count);
    Ok(())
}
