ghost use Rattle.std.specs.Prelude.{◌≡◌, ◌≢◌, true};
ghost use Rattle.flex_base.specs.Loaded.{Loaded, image_fits};
ghost use Rattle.flex_base.specs.Outside.{Writes};
ghost use Rattle.flex_base.specs.Setup.{Setup};
ghost use Rattle.flex_base.specs.Unsplit.{begin, reach};
ghost use Rattle.image_loader.specs.Loading.{IsSameStart};
ghost use Rattle.solo.specs.Standing.{IsAt, IsPlayedOut};
ghost use Rattle.transplant_plan.specs.Shown.{shown};
ghost use Rattle.flex_top.specs.Answer.{setup_of, outcome_of_run};
ghost use Rattle.flex_top.specs.Does.{Leaves, LeavesPart, LeavesNothing};
ghost use Rattle.flex_top.specs.Taking.{IsOfRun};
ghost use Rattle.flex_top.specs.Written.{OnlyLeaves};
ghost use Rattle.flex_top.specs.Words.{reading_of_command, IsLimited};

use crate::leaving::conclude;
use crate::prepared::{Prepared, prepare};
use crate::sources::Inputs;
use crate::status::Status;
use crate::words::Command;
use flex_base::Outer;
use solo::SoloMachine;
use std::alloc::Global;

// Plays the image with this input in the order that the command gives, says what the run sent to the
// console, and writes its trace, split by the plan. It is the run of each image with the same start.
pub(crate) fn solo<O: Outer>(
    alloc: Global,
    command: &Command,
    inputs: Inputs,
    outer: &mut O,
) -> Status
    requires limits { IsLimited command.now }
    requires fits { image_fits command.now.settings.ram inputs.image ≡ true }
    ensures answer { IsOfRun result }
    ensures ended { (start : Loaded) → IsSameStart start inputs.image → result ≡ Status.Ended
        → Leaves (outcome_of_run (reading_of_command command.now) (shown inputs.plan).engines (setup_of start inputs.input.items command.now.settings))
        (O.outside outer.old) (O.outside outer.new) }
    ensures cut { (start : Loaded) → IsSameStart start inputs.image → result ≡ Status.WriteFault
        → LeavesPart (outcome_of_run (reading_of_command command.now) (shown inputs.plan).engines (setup_of start inputs.input.items command.now.settings))
        (O.outside outer.old) (O.outside outer.new) }

    ensures nothing { result ≢ Status.Ended → result ≢ Status.WriteFault
        → LeavesNothing (O.outside outer.old) (O.outside outer.new) }
    ensures others { Writes (O.outside outer.old) (O.outside outer.new) command.now.trace.now (λ was is. Unit {0}) }
    ensures frame { OnlyLeaves (O.outside outer.old) (O.outside outer.new) (result ≡ Status.WriteFault) }
{
    let Prepared {
        mut machine,
        order,
        mut pieces,
        mut tail,
    } = match prepare(alloc, inputs, &command.settings, command.order) {
        Ok(prepared) => prepared,
        Err(_) => return Status::OutOfMemory,
    };
    play(&mut machine, &order);
    conclude(outer, command, machine.finish(), &mut pieces, &mut tail)
}

// Plays the order, and then the rounds.
fn play(machine: &mut SoloMachine, order: &[u8])
    requires at { (setup : Setup) × IsAt setup (begin setup) machine.old }
    ensures at { (setup : Setup) → IsAt setup (begin setup) machine.old → IsPlayedOut setup (reach setup order.now) machine.new }
    ensures plan { machine.new.plan ≡ machine.old.plan }
{
    machine.play(order);
    machine.play_out();
}
