ghost use Rattle.std.specs.Prelude.{◌≡◌, ◌≢◌, ◌*◌, ◌≤◌, true, IfOk};
ghost use Rattle.flex_base.specs.Limits.{is_lawful};
ghost use Rattle.flex_base.specs.Loaded.{Loaded, image_fits};
ghost use Rattle.flex_base.specs.Outside.{Writes};
ghost use Rattle.image_loader.specs.Loading.{IsSameStart};
ghost use Rattle.crew.specs.Played.{HasPlayed};
ghost use Rattle.transplant_plan.specs.Shown.{shown};
ghost use Rattle.flex_top.specs.Answer.{setup_of, IsRunOutcome};
ghost use Rattle.flex_top.specs.Does.{LeavesOne, LeavesPartOfOne, LeavesNothing};
ghost use Rattle.flex_top.specs.Taking.{IsOfRun};
ghost use Rattle.flex_top.specs.Written.{OnlyLeaves};
ghost use Rattle.flex_top.specs.Words.{reading_of_command, IsLimited};

use crate::leaving::conclude;
use crate::pieces::Pieces;
use crate::sources::Inputs;
use crate::status::Status;
use crate::words::Command;
use flex_base::{Gate, Outer, Settings};
use mem_banks::{Ended, PlainBus};
use std::alloc::{AllocError, Global};
use std::sync::Wait;
use std::thread::Threads;
use tracer::Tail;

// A run on threads that has ended, and the room for its trace. What is left of it must be spent.
struct Played {
    ended: Ended,
    pieces: Pieces,
    tail: Tail,
}

// Runs the image with this input on threads, says what the run sent to the console, and writes its
// trace, in which each event is in the engine that the plan names. It is a run of each image with the
// same start.
pub(crate) fn run<R: Threads + Wait + Sync, O: Outer, G: Gate>(
    rt: &R,
    alloc: Global,
    command: &Command,
    inputs: Inputs,
    outer: &mut O,
    gate: &G,
) -> Status
    requires limits { IsLimited command.now }
    requires fits { image_fits command.now.settings.ram inputs.image ≡ true }
    ensures answer { IsOfRun result }
    ensures ended { (start : Loaded) → IsSameStart start inputs.image → result ≡ Status.Ended
        → LeavesOne (IsRunOutcome (reading_of_command command.now) (shown inputs.plan).engines (setup_of start inputs.input.items command.now.settings))
        (O.outside outer.old) (O.outside outer.new) }
    ensures cut { (start : Loaded) → IsSameStart start inputs.image → result ≡ Status.WriteFault
        → LeavesPartOfOne (IsRunOutcome (reading_of_command command.now) (shown inputs.plan).engines (setup_of start inputs.input.items command.now.settings))
        (O.outside outer.old) (O.outside outer.new) }

    ensures nothing { result ≢ Status.Ended → result ≢ Status.WriteFault
        → LeavesNothing (O.outside outer.old) (O.outside outer.new) }
    ensures others { Writes (O.outside outer.old) (O.outside outer.new) command.now.trace.now (λ was is. Unit {0}) }
    ensures frame { OnlyLeaves (O.outside outer.old) (O.outside outer.new) (result ≡ Status.WriteFault) }
{
    let Played {
        ended,
        mut pieces,
        mut tail,
    } = match play(rt, alloc, inputs, command.settings, gate) {
        Ok(played) => played,
        Err(_) => return Status::OutOfMemory,
    };
    conclude(outer, command, ended, &mut pieces, &mut tail)
}

// Runs the image to its end. All memory is taken before any hart makes an event. The error is want
// of memory.
fn play<R: Threads + Wait + Sync, G: Gate>(
    rt: &R,
    alloc: Global,
    inputs: Inputs,
    settings: Settings,
    gate: &G,
) -> Result<Played, AllocError>
    requires lawful { is_lawful settings ≡ true }
    requires few { settings.harts * settings.budget ≤ 262144 }
    requires fits { image_fits settings.ram inputs.image ≡ true }
    ensures { IfOk result (λ p. HasPlayed (setup_of inputs.image inputs.input.items settings) inputs.plan p.ended) }
{
    let pieces = Pieces::new(alloc)?;
    let tail = Tail::new(alloc)?;
    let Inputs { plan, image, input } = inputs;
    let Ok((bus, founder)) = PlainBus::new(alloc, &image, &settings, plan.banks(), input) else {
        return Err(AllocError);
    };
    let ended = crew::run(rt, alloc, bus, founder, &image, plan, settings, gate)?;
    Ok(Played {
        ended,
        pieces,
        tail,
    })
}
