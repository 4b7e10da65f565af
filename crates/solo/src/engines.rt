ghost use Rattle.std.specs.Prelude.{◌≡◌, ℕ, [], ◌∷◌};
ghost use Rattle.flex_base.specs.declared.class.Class.{Class};
ghost use Rattle.flex_base.specs.declared.engine.Engine.{Engine};
ghost use Rattle.flex_base.specs.declared.engine.Engine.TheVariants as engine;
ghost use Rattle.context.specs.Contexts.{IsOn, IsSame, HasGone};
ghost use Rattle.context.specs.Obeying.{IsFor};
ghost use Rattle.context.specs.Runs.{MakesNone};
ghost use Rattle.pipeline.specs.declared.flight.Flight.{Flight};
ghost use Rattle.pipeline.specs.Pipes.{AreInFlight, IsAt};
ghost use Rattle.solo.specs.Engines.{MakesNo, HasMade, IsToldBy};

use access_record::Bus;
use context::{HartContext, Wants, Went};
use flex_base::Engine;
use host_sim::HostSim;
use micro_kernel::Kernel;
use pipeline::Latches;
use std::slice;

// The engine that a hart is in makes its next event, where the plan gives it to that engine. In all
// else nothing happens.
//
// What is in the latches is the hart's. In the kernel and the host nothing is.
#[inline(always)]
pub(crate) fn go_in_engine<B: Bus>(
    latches: &mut Latches,
    context: &mut HartContext,
    bus: &mut B,
) -> Went
    requires on { IsOn (B.run bus.old) context.old }
    requires flying { AreInFlight (context.old ∷ []) latches.old }
    ensures went { HasGone (B.run bus.old) (B.history bus.old) (B.history bus.new) context.old context.new result }
    ensures same { IsSame context.old context.new }
    ensures on { IsOn (B.run bus.old) context.new }
    ensures bus { B.run bus.new ≡ B.run bus.old }
    ensures flying { AreInFlight (context.new ∷ []) latches.new }
{
    match context.engine() {
        Engine::Pipe => in_pipe(latches, context, bus),
        Engine::Kernel => {
            *latches = Latches::new();
            in_kernel(context, bus)
        }
        Engine::Host => {
            *latches = Latches::new();
            in_host(context, bus)
        }
    }
}

// A hart in the pipe. Where it isn't in flight, its instruction is laid into the latches first.
#[inline(always)]
fn in_pipe<B: Bus>(latches: &mut Latches, context: &mut HartContext, bus: &mut B) -> Went
    requires on { IsOn (B.run bus.old) context.old }
    requires flying { AreInFlight (context.old ∷ []) latches.old }
    ensures went { HasGone (B.run bus.old) (B.history bus.old) (B.history bus.new) context.old context.new result }
    ensures same { IsSame context.old context.new }
    ensures on { IsOn (B.run bus.old) context.new }
    ensures bus { B.run bus.new ≡ B.run bus.old }
    ensures flying { AreInFlight (context.new ∷ []) latches.new }
{
    if latches.is_empty() && !latches.lay(0, context) {
        return without_event(context);
    }
    move_on(latches, context, bus)
}

// Moves the latches on until the hart in them has made its event.
#[inline(always)]
fn move_on<B: Bus>(latches: &mut Latches, context: &mut HartContext, bus: &mut B) -> Went
    requires on { IsOn (B.run bus.old) context.old }
    requires flying { AreInFlight (context.old ∷ []) latches.old }
    requires some { (latch : ℕ) × (f : Flight) × IsAt latches.old latch f }
    ensures made { HasMade (B.run bus.old) (B.history bus.old) (B.history bus.new) context.old context.new result }
    ensures same { IsSame context.old context.new }
    ensures on { IsOn (B.run bus.old) context.new }
    ensures bus { B.run bus.new ≡ B.run bus.old }
    ensures flying { AreInFlight (context.new ∷ []) latches.new }
{
    for _ in 0..6u8 {
        let made = latches.advance(slice::from_mut(context), bus);
        if made.ends != 0 {
            return Went::Ended;
        }
        if made.accesses != 0 {
            return Went::Accessed;
        }
    }
    unreachable!()
}

// A hart in the kernel.
#[inline(never)]
fn in_kernel<B: Bus>(context: &mut HartContext, bus: &mut B) -> Went
    requires on { IsOn (B.run bus.old) context.old }
    requires here { context.old.engine ≡ engine.Kernel }
    ensures went { HasGone (B.run bus.old) (B.history bus.old) (B.history bus.new) context.old context.new result }
    ensures same { IsSame context.old context.new }
    ensures on { IsOn (B.run bus.old) context.new }
    ensures bus { B.run bus.new ≡ B.run bus.old }
{
    let _some = context.round_left();
    match context.wants_here() {
        Some(wants) => {
            Kernel::one_in_place(context, bus);
            went_by(wants)
        }
        None => without_event(context),
    }
}

// A hart in the host.
#[inline(never)]
fn in_host<B: Bus>(context: &mut HartContext, bus: &mut B) -> Went
    requires on { IsOn (B.run bus.old) context.old }
    requires here { context.old.engine ≡ engine.Host }
    ensures went { HasGone (B.run bus.old) (B.history bus.old) (B.history bus.new) context.old context.new result }
    ensures same { IsSame context.old context.new }
    ensures on { IsOn (B.run bus.old) context.new }
    ensures bus { B.run bus.new ≡ B.run bus.old }
{
    let _some = context.round_left();
    match context.wants_here() {
        Some(wants) => {
            HostSim::one_in_place(context, bus);
            went_by(wants)
        }
        None => without_event(context),
    }
}

// What has come of a hart whose engine made what it wanted.
fn went_by(wants: Wants) -> Went
    requires event { (plan : Class → Engine) × (engine : Engine) × IsFor plan wants engine }
    ensures { IsToldBy wants result }
{
    match wants {
        Wants::Ask(_) => Went::Accessed,
        Wants::Finish(_) => Went::Ended,
        Wants::Parked => unreachable!(),
        Wants::Over => unreachable!(),
    }
}

// Why a hart makes no event in its engine.
#[cold]
fn without_event(context: &HartContext) -> Went
    requires { MakesNone context.now }
    ensures { MakesNo context.now result }
{
    match context.wants() {
        Wants::Ask(_) => Went::Elsewhere(context.wanted_engine()),
        Wants::Finish(_) => Went::Elsewhere(context.wanted_engine()),
        Wants::Parked => Went::Parked,
        Wants::Over => Went::Over,
    }
}
