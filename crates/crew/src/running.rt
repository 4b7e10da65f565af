ghost use Rattle.std.specs.Prelude.{◌≡◌, [], IfOk};
ghost use Rattle.mem_banks.specs.End.{IsFounderOf};
ghost use Rattle.crew.specs.Played.{IsRunFor, HasPlayed};

use crate::machine::Machine;
use access_record::Founder;
use flex_base::{Gate, Image, Settings};
use mem_banks::{Ended, PlainBus, RunName};
use std::alloc::{AllocError, Global};
use std::marker::Brand;
use std::sync::Wait;
use std::thread::Threads;
use transplant_plan::Plan;

/// Runs all harts of a run on threads, and tells what is left.
///
/// The bus has made no access, and its founder has enrolled no hart. It is a bus of this image and
/// these settings, with as many banks as the plan says. The error is want of memory, which comes
/// before any hart has run.
///
/// Merged by their numbers, the harts' events are a legal journal that obeys the plan; it has ended,
/// and what is left is what it leads to. It may wait.
pub fn run<R: Threads + Wait + Sync, G: Gate>(
    rt: &R,
    alloc: Global,
    bus: PlainBus,
    founder: Founder,
    image: &Image,
    plan: Plan,
    settings: Settings,
    gate: &G,
) -> Result<Ended, AllocError>
    requires run { IsRunFor bus.run image.now settings plan }
    requires founder { IsFounderOf bus.run founder }
    requires none { founder.harts ≡ [] }
    ensures { IfOk result (HasPlayed bus.run.setup plan) }
{
    run_named::<Brand, R, G>(rt, alloc, bus, founder, image, plan, settings, gate)
}

// The same, where the run has a name.
fn run_named<N: RunName + Send + Sync, R: Threads + Wait + Sync, G: Gate>(
    rt: &R,
    alloc: Global,
    bus: PlainBus,
    founder: Founder,
    image: &Image,
    plan: Plan,
    settings: Settings,
    gate: &G,
) -> Result<Ended, AllocError>
    requires name { bus.run ≡ N.run }
    requires run { IsRunFor bus.run image.now settings plan }
    requires founder { IsFounderOf bus.run founder }
    requires none { founder.harts ≡ [] }
    ensures { IfOk result (HasPlayed bus.run.setup plan) }
{
    let machine = Machine::<N>::prepare(alloc, bus, founder, image, plan, settings)?;
    Ok(machine.run(rt, gate))
}
