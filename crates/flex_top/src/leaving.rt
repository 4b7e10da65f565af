ghost use Rattle.std.specs.Prelude.{◌≡◌, ◌≢◌, List, ℕ, Some, OnOk, OnErr, IsErr};
ghost use Rattle.flex_base.specs.Files.{Said, SaidPart};
ghost use Rattle.flex_base.specs.Outside.{OnlySays, Says, Writes};
ghost use Rattle.flex_base.specs.Setup.{Setup};
ghost use Rattle.flex_base.specs.Unsplit.{Machine};
ghost use Rattle.flex_base.specs.declared.event.Event.{Event};
ghost use Rattle.solo.specs.End.{IsEndOf};
ghost use Rattle.tracer.specs.Trace.{settings_of, whole_text};
ghost use Rattle.flex_top.specs.Answer.{outcome_with};
ghost use Rattle.flex_top.specs.Does.{Leaves, LeavesPart, LeavesNothing};
ghost use Rattle.flex_top.specs.Ended.{outcome_at};
ghost use Rattle.flex_top.specs.Taking.{IsOfRun};
ghost use Rattle.flex_top.specs.Words.{IsLimited};
ghost use Rattle.flex_top.specs.Written.{OnlyLeaves};

use crate::pieces::Pieces;
use crate::ram_digest::ram_digest;
use crate::status::Status;
use crate::trace_file::write_trace;
use crate::words::Command;
use flex_base::{Failed, Outer, Settings};
use journal::{ByNumber, by_number};
use mem_banks::Ended;
use tracer::{Tail, TailLine};

// Leaves a run that has ended, and gives up what is left of it.
pub(crate) fn conclude<O: Outer>(
    outer: &mut O,
    command: &Command,
    ended: Ended,
    pieces: &mut Pieces,
    tail: &mut Tail,
) -> Status
    requires limits { IsLimited command.now }
    requires ended { (journal : List Event) × (setup : Setup) × (u : Machine) × (settings_of setup ≡ command.now.settings)
        × IsEndOf setup journal u ended }
    ensures answer { IsOfRun result }
    ensures ended { (journal : List Event) (setup : Setup) (u : Machine) → settings_of setup ≡ command.now.settings → IsEndOf setup journal u ended
        → result ≡ Status.Ended → Leaves (outcome_at journal setup u command.now.trace.now) (O.outside outer.old) (O.outside outer.new) }
    ensures cut { (journal : List Event) (setup : Setup) (u : Machine) → settings_of setup ≡ command.now.settings → IsEndOf setup journal u ended
        → result ≡ Status.WriteFault → LeavesPart (outcome_at journal setup u command.now.trace.now) (O.outside outer.old) (O.outside outer.new) }
    ensures nothing { result ≢ Status.Ended → result ≢ Status.WriteFault
        → LeavesNothing (O.outside outer.old) (O.outside outer.new) }
    ensures others { Writes (O.outside outer.old) (O.outside outer.new) command.now.trace.now (λ was is. Unit {0}) }
    ensures frame { OnlyLeaves (O.outside outer.old) (O.outside outer.new) (result ≡ Status.WriteFault) }
{
    let left = leave_run(outer, command, &ended, pieces, tail);
    ended.discard();
    match left {
        Ok(()) => Status::Ended,
        Err(Failed) => Status::WriteFault,
    }
}

// Says what a run that has ended sent to the console, and writes its trace.
fn leave_run<O: Outer>(
    outer: &mut O,
    command: &Command,
    ended: &Ended,
    pieces: &mut Pieces,
    tail: &mut Tail,
) -> Result<(), Failed>
    requires limits { IsLimited command.now }
    requires ended { (journal : List Event) × (setup : Setup) × (u : Machine) × (settings_of setup ≡ command.now.settings)
        × IsEndOf setup journal u ended.now }
    ensures ok { (journal : List Event) (setup : Setup) (u : Machine) → settings_of setup ≡ command.now.settings → IsEndOf setup journal u ended.now
        → OnOk result (Leaves (outcome_at journal setup u command.now.trace.now) (O.outside outer.old) (O.outside outer.new)) }
    ensures err { (journal : List Event) (setup : Setup) (u : Machine) → settings_of setup ≡ command.now.settings → IsEndOf setup journal u ended.now
        → OnErr result (LeavesPart (outcome_at journal setup u command.now.trace.now) (O.outside outer.old) (O.outside outer.new)) }
    ensures others { Writes (O.outside outer.old) (O.outside outer.new) command.now.trace.now (λ was is. Unit {0}) }
    ensures frame { OnlyLeaves (O.outside outer.old) (O.outside outer.new) (IsErr result) }
{
    let settings = &command.settings;
    let digest = ram_digest(&ended.memory.lines, settings.ram);
    tail.fill(Some(ended.stop), &ended.harts, digest);
    leave(
        outer,
        ended.memory.devices.console(),
        command.trace,
        pieces,
        settings,
        by_number(&ended.logs),
        tail.lines(),
    )
}

// Says the bytes of the console, and then writes the trace. It takes no memory.
//
// Where a call fails, no other comes after it.
fn leave<O: Outer>(
    outer: &mut O,
    console: &[u8],
    name: &str,
    pieces: &mut Pieces,
    settings: &Settings,
    events: ByNumber<'_>,
    tail: &[TailLine],
) -> Result<(), Failed>
    ensures ok { OnOk result (Leaves
        (outcome_with console.now name.now (whole_text settings.now events.entry tail.now))
        (O.outside outer.old) (O.outside outer.new)) }
    ensures err { OnErr result (LeavesPart
        (outcome_with console.now name.now (whole_text settings.now events.entry tail.now))
        (O.outside outer.old) (O.outside outer.new)) }
    ensures others { Writes (O.outside outer.old) (O.outside outer.new) name.now (λ was is. Unit {0}) }
    ensures frame { OnlyLeaves (O.outside outer.old) (O.outside outer.new) (IsErr result) }
{
    match say_bytes(outer, console) {
        Ok(()) => {}
        Err(failed) => return Err(failed),
    }
    match write_trace(outer, name, pieces, settings, events, tail) {
        Ok(()) => Ok(()),
        Err(failed) => Err(failed),
    }
}

// Says bytes, by no call where there are none.
fn say_bytes<O: Outer>(outer: &mut O, bytes: &[u8]) -> Result<(), Failed>
    ensures ok { OnOk result (Says (O.outside outer.old) (O.outside outer.new) (Said bytes.now)) }
    ensures err { OnErr result (Says (O.outside outer.old) (O.outside outer.new) (SaidPart bytes.now)) }
    ensures frame { OnlySays (O.outside outer.old) (O.outside outer.new) (IsErr result) }
{
    if bytes.is_empty() {
        return Ok(());
    }
    outer.say(bytes)
}
