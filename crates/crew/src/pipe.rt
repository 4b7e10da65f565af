ghost use Rattle.std.specs.Prelude.{◌≡◌, ◌+◌, ◌<◌, ◌≤◌, ℕ, true, false, List, All, length};
ghost use Rattle.flex_base.specs.declared.engine.Engine.TheVariants as engine;
ghost use Rattle.access_record.specs.Buses.{Run};
ghost use Rattle.context.specs.Contexts.{Context, IsOn};
ghost use Rattle.pipeline.specs.Pipes.{no_flights};
ghost use Rattle.crew.specs.Crews.{HaveWorked};
ghost use Rattle.crew.specs.Passing.{IsPassing};

use access_record::Bus;
use context::HartContext;
use pipeline::Latches;

// So many times a pipe lets its harts pass in a phase.
const PASSES: usize = 16;

// In no more cycles than these an instruction leaves the latches.
const CYCLES: usize = 6;

// Lets the harts pass through the latches of a pipe, until each wants another engine, is parked or
// over, or has passed as often as a phase has it.
pub(crate) fn run_through<B: Bus>(contexts: &mut [HartContext], bus: &mut B)
    requires few { length contexts.old ≤ 32 }
    requires on { All (λ c. IsOn (B.run bus.old) c) contexts.old }
    requires here { All (λ c. c.engine ≡ engine.Pipe) contexts.old }
    ensures worked { HaveWorked (B.run bus.old) 16 contexts.old contexts.new }
    ensures bus { B.run bus.new ≡ B.run bus.old }
{
    for _pass in 0..PASSES {
        if !pass_through(contexts, bus) {
            break;
        }
    }
}

// Lets each hart go through the latches once at most, beside the others, so that it makes one end at
// most. Answers whether any went.
fn pass_through<B: Bus>(contexts: &mut [HartContext], bus: &mut B) -> bool
    requires few { length contexts.old ≤ 32 }
    requires on { All (λ c. IsOn (B.run bus.old) c) contexts.old }
    requires here { All (λ c. c.engine ≡ engine.Pipe) contexts.old }
    ensures worked { HaveWorked (B.run bus.old) 1 contexts.old contexts.new }
    ensures bus { B.run bus.new ≡ B.run bus.old }
{
    let mut latches = Latches::new();
    let any = lay_all(&mut latches, contexts, bus);
    drain(&mut latches, contexts, bus);
    any
}

// Lays one hart after another into the latches, one a cycle. Answers whether it laid any.
fn lay_all<B: Bus>(latches: &mut Latches, contexts: &mut [HartContext], bus: &mut B) -> bool
    requires passing { (start : List Context) × IsPassing (B.run bus.old) 0 start contexts.old latches.old }
    ensures passing { (start : List Context) → IsPassing (B.run bus.old) 0 start contexts.old latches.old
        → (place : ℕ) × IsPassing (B.run bus.old) place start contexts.new latches.new }
    ensures bus { B.run bus.new ≡ B.run bus.old }
{
    let mut any = false;
    for place in 0..contexts.len() {
        if lay_one(latches, place, contexts, bus) {
            any = true;
        }
    }
    any
}

// Lays the hart at this place into the latches, as soon as its latch is free, and moves them on.
// Answers whether it did: a hart that has no event due here is passed over.
fn lay_one<B: Bus>(
    latches: &mut Latches,
    place: usize,
    contexts: &mut [HartContext],
    bus: &mut B,
) -> bool
    requires place { place < length contexts.old }
    requires passing { (start : List Context) × IsPassing (B.run bus.old) place start contexts.old latches.old }
    ensures passing { (start : List Context) → IsPassing (B.run bus.old) place start contexts.old latches.old
        → IsPassing (B.run bus.old) (place + 1) start contexts.new latches.new }
    ensures bus { B.run bus.new ≡ B.run bus.old }
{
    for _cycle in 0..CYCLES {
        if lay(latches, place, contexts) {
            advance(latches, contexts, bus);
            return true;
        }
        if contexts[place].wants_here().is_none() {
            return false;
        }
        advance(latches, contexts, bus);
    }
    false
}

// Lays the hart at this place into the latches, where it has an event due here and its latch is free.
fn lay(latches: &mut Latches, place: usize, contexts: &[HartContext]) -> bool
    requires place { place < length contexts.now }
    requires few { length contexts.now ≤ 32 }
    ensures laid { (run : Run) (start : List Context) → IsPassing run place start contexts.now latches.old → result ≡ true
        → IsPassing run (place + 1) start contexts.now latches.new }
    ensures same { result ≡ false → latches.new ≡ latches.old }
{
    latches.lay(place as u8, &contexts[place])
}

// Moves the latches on until nothing is in them.
fn drain<B: Bus>(latches: &mut Latches, contexts: &mut [HartContext], bus: &mut B)
    requires passing { (place : ℕ) × (start : List Context) × IsPassing (B.run bus.old) place start contexts.old latches.old }
    ensures passing { (place : ℕ) (start : List Context) → IsPassing (B.run bus.old) place start contexts.old latches.old
        → IsPassing (B.run bus.old) place start contexts.new latches.new }
    ensures bus { B.run bus.new ≡ B.run bus.old }
{
    for _cycle in 0..CYCLES {
        if latches.is_empty() {
            break;
        }
        advance(latches, contexts, bus);
    }
}

// Moves the latches on by a cycle.
fn advance<B: Bus>(latches: &mut Latches, contexts: &mut [HartContext], bus: &mut B)
    requires passing { (place : ℕ) × (start : List Context) × IsPassing (B.run bus.old) place start contexts.old latches.old }
    ensures passing { (place : ℕ) (start : List Context) → IsPassing (B.run bus.old) place start contexts.old latches.old
        → IsPassing (B.run bus.old) place start contexts.new latches.new }
    ensures bus { B.run bus.new ≡ B.run bus.old }
{
    let _made = latches.advance(contexts, bus);
}
