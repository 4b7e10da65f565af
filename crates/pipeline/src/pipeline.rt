ghost use Rattle.std.specs.Prelude.{◌≡◌, ◌<◌, ◌≤◌, ◌+◌, [], ◌∷◌, ◌++◌, Bool, length, MatchOption, IfOk, IfSome, IfNone};
ghost use Rattle.flex_base.specs.declared.engine.Engine.{Engine};
ghost use Rattle.flex_base.specs.declared.engine.Engine.TheVariants as engine;
ghost use Rattle.context.specs.Contexts.{IsElsewhere};
ghost use Rattle.pipeline.specs.Pipes.{Passes, moved_places, AreMovedOn, HaveGoneOn, IsNearer, IsTurn, AreNearerToStart, without_in, next_without, IsOut, AreOn, NoneElsewhere, AreInFlight, HasHart, HasLaid, IsTakenOut};

use crate::flight::{Flight, other_engine};
use crate::latches::Latches;
use access_record::Bus;
use context::HartContext;
use std::alloc::{AllocError, Global};
use std::marker::Model;

// So many harts are held at most.
const MOST_HELD: usize = 32;

/// A pipe with the harts that it holds.
pub struct Pipeline {
    // Room for 32.
    held: Vec<HartContext>,
    latches: Latches,
    // Where select looks first for a hart whose instruction it starts.
    next: u8,
    // How many events the last cycle made.
    made: u64,
}

impl Model for Pipeline {
    ghost use Rattle.std.specs.Prelude.{vec_capacity};
    ghost use Rattle.pipeline.specs.Pipes.{Pipe, pipe_of, IsPipe};

    ghost Value = { Pipe };

    ghost view = { λ p. pipe_of p.held.items p.latches p.next p.made };

    ghost invariant = { λ p. IsPipe p.held.items p.latches p.next (vec_capacity p.held) };
}

impl Pipeline {
    /// A pipe that holds no hart.
    pub fn new(alloc: Global) -> Result<Pipeline, AllocError>
        ensures empty { IfOk result (λ p. p.held ≡ []) }
        ensures turn { IfOk result (λ p. p.next ≡ 0) }
        ensures made { IfOk result (λ p. p.made ≡ 0) }
    {
        Ok(Pipeline {
            held: Vec::with_capacity(alloc, MOST_HELD)?,
            latches: Latches::new(),
            next: 0,
            made: 0,
        })
    }

    /// Takes a hart in.
    ///
    /// The hart is in the pipe, and fewer than 32 are held. One that comes back in the middle of an
    /// instruction goes on where the instruction is: it is laid into the latch before the one in which
    /// its next event is made, if that latch is free.
    pub fn admit(&mut self, ctx: HartContext)
        requires here { ctx.engine ≡ engine.Pipe }
        requires room { length self.old.held < 32 }
        ensures held { self.new.held ≡ self.old.held ++ ctx ∷ [] }
        ensures laid { (laid : Bool) × HasLaid (length self.old.held) ctx self.old.latches self.new.latches laid }
        ensures turn { self.new.next ≡ self.old.next }
        ensures made { self.new.made ≡ self.old.made }
    {
        let place = self.count();
        self.latches.lay(place, &ctx);
        self.held.push_reserved(ctx);
    }

    /// Moves each latch on by one, and lets the harts in them make their events, that in end first.
    /// Then select takes the next hart, in turn, that isn't in flight and has an event due.
    ///
    /// A hart makes one event at most. Its instruction leaves the latches with its end, and where what
    /// comes next isn't the pipe's. A hart that has an event due and isn't in flight is nearer to its
    /// turn after each cycle.
    pub fn cycle<B: Bus>(&mut self, bus: &mut B)
        requires on { AreOn (B.run bus.old) self.old.held }
        ensures passes { Passes (B.run bus.old) (B.history bus.old) (B.history bus.new) self.new.made (moved_places self.old) self.old.held self.new.held }
        ensures moves { AreMovedOn self.old.latches self.new.latches }
        ensures goes_on { HaveGoneOn self.new.held self.old.latches self.new.latches }
        ensures nearer { IsNearer self.old self.new }
        ensures turn { IsTurn self.new.held self.new.latches self.old.next self.new.next }
        ensures fair { AreNearerToStart self.old self.new }
        ensures on { AreOn (B.run bus.old) self.new.held }
        ensures bus { B.run bus.new ≡ B.run bus.old }
    {
        let made = self.latches.advance(&mut self.held, bus);
        self.made = u64::from(made.ends) + u64::from(made.accesses);
        let selected = self.latches.select(&self.held, self.next);
        let next = turn_after(selected, self.next);
        self.next = next;
    }

    /// Takes out the first hart that wants another engine.
    pub fn leave(&mut self) -> Option<HartContext>
        ensures out { IfSome result (λ c. IsOut self.old self.new c) }
        ensures elsewhere { IfSome result (λ c. (to : Engine) × IsElsewhere to c) }
        ensures none { IfNone result (NoneElsewhere self.old.held) }
        ensures stays { IfNone result (self.new ≡ self.old) }
    {
        match first_elsewhere(&self.held) {
            Some(place) => Some(self.take_out(place)),
            None => None,
        }
    }

    /// Takes out the hart that was admitted last.
    pub fn drain_one(&mut self) -> Option<HartContext>
        ensures out { IfSome result (λ c. self.old.held ≡ self.new.held ++ c ∷ []) }
        ensures latches { IfSome result (λ c. self.new.latches ≡ without_in (length self.new.held) self.old.latches) }
        ensures turn { IfSome result (λ c. self.new.next ≡ next_without (length self.new.held) self.old.next) }
        ensures none { IfNone result (self.old.held ≡ []) }
        ensures stays { IfNone result (self.new ≡ self.old) }
        ensures made { self.new.made ≡ self.old.made }
    {
        let count = self.held.len();
        if count == 0 {
            return None;
        }
        Some(self.take_out(count - 1))
    }

    /// How many harts are held.
    pub fn count(&self) -> u8
        ensures { result ≡ length self.now.held }
    {
        self.held.len() as u8
    }

    /// How many events were made in the last cycle, 0 before the first.
    pub fn made(&self) -> u64
        ensures { result ≡ self.now.made }
    {
        self.made
    }

    /// What is in the latches, from select to end.
    pub fn latches(&self) -> [Option<Flight>; 6]
        ensures latches { result ≡ self.now.latches }
        ensures flights { AreInFlight self.now.held result }
    {
        self.latches.flights()
    }

    /// Ends a pipe that holds no hart.
    pub fn discard(self)
        requires none { self.held ≡ [] }
    {
        let Pipeline {
            held,
            latches: _,
            next: _,
            made: _,
        } = self;
        held.destroy_empty();
    }

    // Takes a hart out, and its instruction out of the latches.
    fn take_out(&mut self, place: usize) -> HartContext
        requires place { place < length self.old.held }
        ensures out { IsTakenOut place self.old self.new result }
    {
        let context = self.held.remove(place);
        self.latches.take_out(place as u8);
        let next = next_without(place, self.next);
        self.next = next;
        context
    }
}

// Whose turn it is after select has taken this hart, or none.
fn turn_after(selected: Option<Flight>, next: u8) -> u8
    requires place { IfSome selected (λ f. f.place < 32) }
    ensures { MatchOption selected (result ≡ next) (λ f. result ≡ f.place + 1) }
{
    match selected {
        Some(flight) => flight.place + 1,
        None => next,
    }
}

// Whose turn it is once the hart at this place is taken out, and those after it have moved up.
fn next_without(place: usize, next: u8) -> u8
    ensures { result ≡ next_without place next }
{
    if place < usize::from(next) {
        return next - 1;
    }
    next
}

// The place of the first hart that wants another engine.
fn first_elsewhere(held: &[HartContext]) -> Option<usize>
    ensures found { IfSome result (λ place. HasHart held.now place (λ c. (to : Engine) × IsElsewhere to c)) }
    ensures none { IfNone result (NoneElsewhere held.now) }
{
    for place in 0..held.len() {
        match other_engine(&held[place]) {
            Some(_) => return Some(place),
            None => {}
        }
    }
    None
}
