ghost use Rattle.std.specs.Prelude.{◌≡◌, ◌<◌, ◌≤◌, ◌+◌, ◌∷◌, ℕ, List, Option, take, length, slice_index_or, slice_set, true, false, None, Some, IfSome, IfNone};
ghost use Rattle.flex_base.specs.declared.engine.Engine.TheVariants as engine;
ghost use Rattle.context.specs.Contexts.{Context, IsWantedIn};
ghost use Rattle.context.specs.declared.wants.Wants.TheVariants as Wants;
ghost use Rattle.pipeline.specs.declared.flight.Flight.{Flight};
ghost use Rattle.pipeline.specs.Pipes.{flight_in, flights_in, no_flights, moved, without_in, is_of, is_among, IsAt, AreOn, AreHere, AreInFlight, AreMoving, HasAdvanced, HasWorked, IsLeft, IsGoingOn, HasLaid, HasHart, IsDue, MayStart, NoneMayStart, NoneBefore};

use crate::flight::{
    EMPTY, END, FETCH, Flight, MEMORY, Made, due_here, due_latch, is_empty, packed, read, without,
};
use access_record::Bus;
use context::HartContext;
use std::marker::Model;

/// The six latches of a pipe, over a list of harts that is lent to each call.
#[derive(Drop)]
pub struct Latches {
    // What is in each latch, select first.
    slots: [u8; 6],
}

impl Model for Latches {
    ghost use Rattle.std.specs.Prelude.{◌≡◌, List, Option, length};
    ghost use Rattle.pipeline.specs.declared.flight.Flight.{Flight};
    ghost use Rattle.pipeline.specs.Pipes.{flights_in};

    ghost Value = { List (Option Flight) };

    ghost view = { λ l. flights_in l.slots };

    ghost invariant = { λ l. length l.slots ≡ 6 };
}

impl Latches {
    /// Latches with nothing in them.
    pub fn new() -> Latches
        ensures { result ≡ no_flights }
    {
        Latches { slots: [EMPTY; 6] }
    }

    /// Whether nothing is in them.
    pub fn is_empty(&self) -> bool
        ensures none { result ≡ true → self.now ≡ no_flights }
        ensures some { result ≡ false → (latch : ℕ) × (f : Flight) × IsAt self.now latch f }
    {
        let [select, fetch, decode, execute, memory, end] = self.slots;
        is_empty(select)
            && is_empty(fetch)
            && is_empty(decode)
            && is_empty(execute)
            && is_empty(memory)
            && is_empty(end)
    }

    /// Lays the instruction of the hart at this place into the latch before the one in which its next
    /// event is made, where that latch is free, and answers whether it did. Where nothing is in the
    /// latches, it does so for every hart that has an event of its engine due.
    pub fn lay(&mut self, place: u8, context: &HartContext) -> bool
        requires place { place < 32 }
        ensures laid { HasLaid place context.now self.old self.new result }
        ensures empty { self.old ≡ no_flights → IsWantedIn context.now context.now.engine → result ≡ true }
    {
        match due_latch(context) {
            Some(due) => self.put(place, due),
            None => false,
        }
    }

    // Puts an instruction into the latch before the one in which its event is due, where that is free.
    fn put(&mut self, place: u8, due: u8) -> bool
        requires place { place < 32 }
        requires due { (0 < due) × (due ≤ 5) }
        ensures laid { (c : Context) → IsDue c due → HasLaid place c self.old self.new result }
    {
        let before = usize::from(due - 1);
        if is_empty(self.slots[before]) {
            self.slots[before] = packed(place, due);
            return true;
        }
        false
    }

    /// Moves each latch on by one, and lets the harts in them make their events, that in end first.
    ///
    /// A hart makes one event at most. Its instruction leaves the latches with its end, and where what
    /// comes next isn't the work of the hart's engine.
    #[inline(always)]
    pub fn advance<B: Bus>(&mut self, held: &mut [HartContext], bus: &mut B) -> Made
        requires few { length held.old ≤ 32 }
        requires on { AreOn (B.run bus.old) held.old }
        requires flights { AreInFlight held.old self.old }
        ensures advanced { HasAdvanced (B.run bus.old) (B.history bus.old) (B.history bus.new) result self.old self.new held.old held.new }
        ensures flights { AreInFlight held.new self.new }
        ensures free { slice_index_or self.new 0 None ≡ None }
        ensures on { AreOn (B.run bus.old) held.new }
        ensures here { AreHere held.old → AreHere held.new }
        ensures bus { B.run bus.new ≡ B.run bus.old }
    {
        move_on(&mut self.slots);
        let ends = end_in(&mut self.slots, held, bus);
        let memory = ask_in(&mut self.slots, MEMORY, held, bus);
        let fetch = ask_in(&mut self.slots, FETCH, held, bus);
        Made {
            accesses: memory + fetch,
            ends,
        }
    }

    /// Takes the next hart, in turn from this place on and round, that isn't in flight and has an
    /// event due, and lays its instruction into select, which is free.
    pub fn select(&mut self, held: &[HartContext], next: u8) -> Option<Flight>
        requires few { length held.now ≤ 32 }
        ensures found { IfSome result (λ f. MayStart held.now self.old f × (self.new ≡ slice_set self.old 0 (Some f))) }
        ensures turn { IfSome result (λ f. NoneBefore held.now self.old next f.place) }
        ensures none { IfNone result (NoneMayStart held.now self.old 0 (length held.now) × (self.new ≡ self.old)) }
    {
        let selected = select(held, &self.slots, usize::from(next));
        if let Some(flight) = selected {
            self.slots[0] = packed(flight.place, flight.due);
        }
        selected
    }

    /// What is in the latches, from select to end.
    pub fn flights(&self) -> [Option<Flight>; 6]
        ensures { result ≡ self.now }
    {
        let [select, fetch, decode, execute, memory, end] = self.slots;
        [
            read(select),
            read(fetch),
            read(decode),
            read(execute),
            read(memory),
            read(end),
        ]
    }

    /// Takes the hart at this place out of the latches. Those after it move up.
    pub fn take_out(&mut self, place: u8)
        ensures { self.new ≡ without_in place self.old }
    {
        let [select, fetch, decode, execute, memory, end] = self.slots;
        self.slots = [
            without(select, place),
            without(fetch, place),
            without(decode, place),
            without(execute, place),
            without(memory, place),
            without(end, place),
        ];
    }
}

// Each latch's content goes to the next one. What was in end has left.
#[inline(always)]
fn move_on(slots: &mut [u8; 6])
    requires { length slots.old ≡ 6 }
    ensures { slots.new ≡ 255 ∷ take 5 slots.old }
{
    slots.copy_within(0..5, 1);
    slots[0] = EMPTY;
}

// Makes the end that is due in end, with which its instruction leaves, and answers how many that is.
#[inline(always)]
fn end_in<B: Bus>(slots: &mut [u8; 6], held: &mut [HartContext], bus: &mut B) -> u8
    requires on { AreOn (B.run bus.old) held.old }
    requires moving { AreMoving held.old (flights_in slots.old) }
    ensures worked { HasWorked (B.run bus.old) (B.history bus.old) (B.history bus.new) Wants.Finish 5 result (slice_index_or (flights_in slots.old) 5 None) held.old held.new }
    ensures left { flights_in slots.new ≡ slice_set (flights_in slots.old) 5 None }
    ensures moving { AreMoving held.new (flights_in slots.new) }
    ensures on { AreOn (B.run bus.old) held.new }
    ensures here { AreHere held.old → AreHere held.new }
    ensures bus { B.run bus.new ≡ B.run bus.old }
{
    let Some(place) = due_here(slots[usize::from(END)], END) else {
        return 0;
    };
    held[usize::from(place)].finish(bus);
    slots[usize::from(END)] = EMPTY;
    1
}

// Makes the access that is due in this latch, and answers how many that is. Its instruction goes on
// where its next event is due in a later one.
#[inline(always)]
fn ask_in<B: Bus>(slots: &mut [u8; 6], latch: u8, held: &mut [HartContext], bus: &mut B) -> u8
    requires few { length held.old ≤ 32 }
    requires latch { latch < 5 }
    requires on { AreOn (B.run bus.old) held.old }
    requires moving { AreMoving held.old (flights_in slots.old) }
    ensures worked { HasWorked (B.run bus.old) (B.history bus.old) (B.history bus.new) Wants.Ask latch result (slice_index_or (flights_in slots.old) latch None) held.old held.new }
    ensures left { (f : Option Flight) × (flights_in slots.new ≡ slice_set (flights_in slots.old) latch f)
        × IsLeft held.new latch result (slice_index_or (flights_in slots.old) latch None) f }
    ensures moving { AreMoving held.new (flights_in slots.new) }
    ensures on { AreOn (B.run bus.old) held.new }
    ensures here { AreHere held.old → AreHere held.new }
    ensures bus { B.run bus.new ≡ B.run bus.old }
{
    let Some(place) = due_here(slots[usize::from(latch)], latch) else {
        return 0;
    };
    let context = &mut held[usize::from(place)];
    context.ask(bus);
    slots[usize::from(latch)] = goes_on(place, latch, context);
    1
}

// After an access in a latch the instruction goes on where its next event is due in a later one.
#[inline(always)]
fn goes_on(place: u8, latch: u8, context: &HartContext) -> u8
    requires place { place < 32 }
    ensures on { IsGoingOn context.now place latch (flight_in result) }
{
    match due_latch(context) {
        Some(due) => {
            if due <= latch {
                return EMPTY;
            }
            packed(place, due)
        }
        None => EMPTY,
    }
}

// The next hart that isn't in flight and wants an event here, from this place on and round.
fn select(held: &[HartContext], slots: &[u8; 6], next: usize) -> Option<Flight>
    requires few { length held.now ≤ 32 }
    ensures found { IfSome result (λ f. MayStart held.now (flights_in slots.now) f) }
    ensures turn { IfSome result (λ f. NoneBefore held.now (flights_in slots.now) next f.place) }
    ensures none { IfNone result (NoneMayStart held.now (flights_in slots.now) 0 (length held.now)) }
{
    let next = next.min(held.len());
    match first_due(held, slots, next, held.len()) {
        Some(flight) => Some(flight),
        None => first_due(held, slots, 0, next),
    }
}

// The first hart among these places that isn't in flight and wants an event here.
fn first_due(held: &[HartContext], slots: &[u8; 6], from: usize, to: usize) -> Option<Flight>
    requires few { length held.now ≤ 32 }
    requires within { to ≤ length held.now }
    ensures found { IfSome result (λ f. MayStart held.now (flights_in slots.now) f) }
    ensures first { IfSome result (λ f. (from ≤ f.place) × (f.place < to) × NoneMayStart held.now (flights_in slots.now) from f.place) }
    ensures none { IfNone result (NoneMayStart held.now (flights_in slots.now) from to) }
{
    for place in from..to {
        if !is_in_flight(slots, place) {
            if let Some(due) = due_latch(&held[place]) {
                return Some(Flight {
                    place: place as u8,
                    due,
                });
            }
        }
    }
    None
}

// Whether an instruction of the hart at this place is in flight.
fn is_in_flight(slots: &[u8; 6], place: usize) -> bool
    ensures { result ≡ is_among (flights_in slots.now) place }
{
    let [select, fetch, decode, execute, memory, end] = *slots;
    is_of(select, place)
        || is_of(fetch, place)
        || is_of(decode, place)
        || is_of(execute, place)
        || is_of(memory, place)
        || is_of(end, place)
}

fn is_of(slot: u8, place: usize) -> bool
    ensures { result ≡ is_of (flight_in slot) place }
{
    match read(slot) {
        Some(flight) => usize::from(flight.place) == place,
        None => false,
    }
}
