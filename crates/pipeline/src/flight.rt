ghost use Rattle.std.specs.Prelude.{◌≡◌, ◌<◌, ◌≤◌, MatchOption, IfSome, Some, nat_eq};
ghost use Rattle.flex_base.specs.declared.engine.Engine.{Engine};
ghost use Rattle.context.specs.Contexts.{IsElsewhere};
ghost use Rattle.context.specs.Runs.{MakesNone};
ghost use Rattle.pipeline.specs.declared.flight.Flight.{Flight};
ghost use Rattle.pipeline.specs.Pipes.{IsDue, latch_for, flight_in, IsNotDue, without_place};

use context::{HartContext, Wants};
use flex_base::{Class, Engine};

// The latches in which events are made.
pub(crate) const FETCH: u8 = 1;

pub(crate) const MEMORY: u8 = 4;

pub(crate) const END: u8 = 5;

/// An instruction in flight.
#[derive(Clone, Copy, Debug, PartialEq, Eq)]
pub struct Flight {
    /// The place of its hart among those that are held.
    pub place: u8,
    /// The latch in which its next event is made, by its number from select, which is 0, to end.
    pub due: u8,
}

/// What was made when the latches moved on.
#[derive(Clone, Copy, Debug, PartialEq, Eq)]
pub struct Made {
    /// How many accesses.
    pub accesses: u8,
    /// How many ends.
    pub ends: u8,
}

// What is in a latch is a byte: 255 where nothing is, else eight times the place of the hart and the
// latch in which its next event is made.

pub(crate) const EMPTY: u8 = 255;

#[inline(always)]
pub(crate) fn packed(place: u8, due: u8) -> u8
    requires place { place < 32 }
    requires due { due < 6 }
    ensures { flight_in result ≡ Some (record { place = place; due = due }) }
{
    place * 8 + due
}

// The place of the hart whose event is due in this latch.
#[inline(always)]
pub(crate) fn due_here(slot: u8, latch: u8) -> Option<u8>
    requires latch { latch < 6 }
    ensures { MatchOption result (IsNotDue latch (flight_in slot)) (λ place. flight_in slot ≡ Some (record { place = place; due = latch })) }
{
    if slot % 8 == latch {
        Some(slot / 8)
    } else {
        None
    }
}

pub(crate) fn is_empty(slot: u8) -> bool
    ensures { result ≡ nat_eq slot 255 }
{
    slot == EMPTY
}

pub(crate) fn read(slot: u8) -> Option<Flight>
    ensures { result ≡ flight_in slot }
{
    if slot == EMPTY {
        return None;
    }
    Some(Flight {
        place: slot / 8,
        due: slot % 8,
    })
}

// The latch in which a hart's next event is made, where it is the work of the engine that it is in.
#[inline(always)]
pub(crate) fn due_latch(context: &HartContext) -> Option<u8>
    ensures due { MatchOption result (MakesNone context.now) (λ latch. IsDue context.now latch) }
    ensures range { IfSome result (λ latch. (0 < latch) × (latch ≤ 5)) }
{
    match context.wants_here() {
        Some(wants) => Some(latch_for(wants)),
        None => None,
    }
}

fn latch_for(wants: Wants) -> u8
    ensures latch { result ≡ latch_for wants }
{
    match wants {
        Wants::Ask(Class::Fetch) => FETCH,
        Wants::Ask(_) => MEMORY,
        Wants::Finish(_) => END,
        Wants::Parked => 0,
        Wants::Over => 0,
    }
}

// The other engine to which the plan gives what a hart wants.
pub(crate) fn other_engine(context: &HartContext) -> Option<Engine>
    ensures other { MatchOption result ((to : Engine) → IsElsewhere to context.now → ⊥) (λ to. IsElsewhere to context.now) }
{
    if context.round_left() == 0 {
        return None;
    }
    let _wants = context.wants();
    let engine = context.wanted_engine();
    if engine == context.engine() {
        return None;
    }
    Some(engine)
}

// What is in a latch once the hart at this place is taken out, so that those after it move up.
pub(crate) fn without(slot: u8, place: u8) -> u8
    ensures { flight_in result ≡ without_place place (flight_in slot) }
{
    if slot == EMPTY {
        return EMPTY;
    }
    let at = slot / 8;
    if at == place {
        return EMPTY;
    }
    if at < place {
        return slot;
    }
    slot - 8
}
