ghost use Rattle.std.specs.Prelude.{◌≡◌, ◌≢◌, ◌↔◌, ◌<◌, List, ℕ, map, Some, None, string_bytes};
ghost use Rattle.flex_base.specs.Setup.{Setup};
ghost use Rattle.flex_base.specs.EndOfRun.{GoesOn};
ghost use Rattle.flex_top.specs.Words.{Reading, reading, run_reading};
ghost use Rattle.transplant_plan.specs.Split.{Plan};
ghost use Rattle.flex_top.specs.Answer.{IsOutcome, IsOutcomeOfRun, IsWhole, SplitsAlike};
ghost use Rattle.flex_top.specs.Does.{Does, TellsFaults};

use crate::run_command::run;
use crate::solo_command::solo;
use crate::sources::take_inputs;
use crate::status::Status;
use crate::words::{read_run, read_solo};
use flex_base::{Gate, Outer};
use image_loader::ImageFault;
use std::alloc::Global;
use std::sync::Wait;
use std::thread::Threads;
use transplant_plan::PlanFault;

/// Does what the words ask for but `run`; the program's name isn't among them.
///
/// `solo IMAGE TRACE`, which options may follow, plays the harts over the image in the file of that
/// name, in the given order and then in rounds until the run has ended, with the file that
/// `--input=` names as the console's input. The file that `--plan=` names says which engine does
/// each class of work. It says the bytes that the run sent to the console, and
/// then writes the trace of the run under the other name. No other file is touched. After an answer
/// other than `Ended` and `WriteFault` nothing is said or written; after `WriteFault` either the first
/// of the bytes are said, or all of them, and the file is as it was or the beginning of the trace.
#[tactic(auto, using(flex_base::proofs::EndOfRun::run_goes_on, crate::proofs::Writing::run_whole, crate::proofs::Writing::splits_alike))]
pub fn flex_top<O: Outer>(alloc: Global, words: &[String], outer: &mut O) -> Status
    ensures usage { (result ≡ Status.Usage) ↔ (reading (map string_bytes words.now) ≡ None) }
    ensures does { (r : Reading) → reading (map string_bytes words.now) ≡ Some r
        → Does (IsOutcome r) r (O.outside outer.old) result (O.outside outer.new) }
    ensures idle { reading (map string_bytes words.now) ≡ None → O.outside outer.new ≡ O.outside outer.old }
    ensures faults { TellsFaults (O.outside outer.old) result (O.outside outer.new) }

    // Want of memory is no refusal of the image or of the plan.
    ensures memory { result ≢ Status.ImageRefused ImageFault.OutOfMemory }
    ensures plan_memory { result ≢ Status.PlanRefused PlanFault.OutOfMemory }

    // Of each run with a hart and each plan: its journal is legal, obeys the plan and has ended; the
    // run goes on until it has ended, and no hart has an event for ever.
    ensures whole { (plan : Plan) (setup : Setup) (order : List ℕ) → 0 < setup.harts → IsWhole plan setup order }
    ensures goes_on { (setup : Setup) (order : List ℕ) → 0 < setup.harts → GoesOn setup order }

    // Two plans split the same run: what is said, the events but for handovers, engines and numbers,
    // and the lines after them are the same.
    ensures split { (r : Reading) (setup : Setup) (one other : Plan) → SplitsAlike r setup one other }
{
    let Some(command) = read_solo(words) else {
        return Status::Usage;
    };
    match take_inputs(alloc, &command, outer) {
        Ok(inputs) => solo(alloc, &command, inputs, outer),
        Err(refusal) => refusal,
    }
}

/// Does the command `run`; the program's name isn't among the words. It may wait.
///
/// `run IMAGE TRACE` takes the options of `solo` but `--order=`. All harts run on threads, in whatever
/// order these take. What is said and written is that of a legal run that obeys the plan and has
/// ended. In all else it does what `solo` does.
pub fn flex_run<R: Threads + Wait + Sync, O: Outer, G: Gate>(
    rt: &R,
    alloc: Global,
    words: &[String],
    outer: &mut O,
    gate: &G,
) -> Status
    ensures usage { (result ≡ Status.Usage) ↔ (run_reading (map string_bytes words.now) ≡ None) }
    ensures does { (r : Reading) → run_reading (map string_bytes words.now) ≡ Some r
        → Does (IsOutcomeOfRun r) r (O.outside outer.old) result (O.outside outer.new) }
    ensures idle { run_reading (map string_bytes words.now) ≡ None → O.outside outer.new ≡ O.outside outer.old }
    ensures faults { TellsFaults (O.outside outer.old) result (O.outside outer.new) }

    // Want of memory is no refusal of the image or of the plan.
    ensures memory { result ≢ Status.ImageRefused ImageFault.OutOfMemory }
    ensures plan_memory { result ≢ Status.PlanRefused PlanFault.OutOfMemory }
{
    let Some(command) = read_run(words) else {
        return Status::Usage;
    };
    match take_inputs(alloc, &command, outer) {
        Ok(inputs) => run(rt, alloc, &command, inputs, outer, gate),
        Err(refusal) => refusal,
    }
}
