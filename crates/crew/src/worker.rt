ghost use Rattle.std.specs.Prelude.{◌≡◌, ◌≢◌, ◌++◌, ◌∷◌, ◌<◌, ◌≤◌, true, [], IfOk, All, length, option_to_list, None, vec_capacity};
ghost use Rattle.flex_base.specs.declared.engine.Engine.TheVariants as engines;
ghost use Rattle.context.specs.Contexts.{IsOn};
ghost use Rattle.crew.specs.Crews.{HaveWorked, HasWorked, most_ends};

use crate::pipe::run_through;
use access_record::Bus;
use context::HartContext;
use flex_base::Engine;
use host_sim::HostSim;
use micro_kernel::Kernel;
use std::alloc::{AllocError, Global};
use std::marker::Model;

/// A pipe, a kernel or the host, with the harts that it runs.
pub(crate) struct Worker {
    pub(crate) engine: Engine,
    pub(crate) contexts: Vec<HartContext>,
}

impl Model for Worker {
    ghost use Rattle.std.specs.Prelude.{vec_capacity};
    ghost use Rattle.crew.specs.Crews.{Berth};

    ghost Value = { Berth };

    ghost view = { λ w. record { engine = w.engine; contexts = w.contexts.items; room = vec_capacity w.contexts } };
}

impl Worker {
    // A worker that holds no hart, with room for so many.
    pub(crate) fn new(alloc: Global, engine: Engine, room: usize) -> Result<Worker, AllocError>
        ensures engine { IfOk result (λ w. w.engine ≡ engine) }
        ensures none { IfOk result (λ w. w.contexts ≡ []) }
        ensures room { IfOk result (λ w. room ≤ w.room) }
    {
        let contexts = Vec::with_capacity(alloc, room)?;
        Ok(Worker { engine, contexts })
    }

    // Takes a hart in.
    pub(crate) fn take_in(&mut self, context: HartContext)
        requires room { length self.old.contexts < self.old.room }
        ensures contexts { self.new.contexts ≡ self.old.contexts ++ context ∷ [] }
        ensures engine { self.new.engine ≡ self.old.engine }
        ensures room { self.new.room ≡ self.old.room }
    {
        self.contexts.push_reserved(context);
    }

    // Whether it holds no hart.
    pub(crate) fn is_idle(&self) -> bool
        ensures { result ≡ true → self.now.contexts ≡ [] }
    {
        self.contexts.is_empty()
    }

    // Gives a hart back, where it has one.
    pub(crate) fn give_back(&mut self) -> Option<HartContext>
        ensures given { self.old.contexts ≡ self.new.contexts ++ option_to_list result }
        ensures none { result ≡ None → self.new.contexts ≡ [] }
        ensures engine { self.new.engine ≡ self.old.engine }
        ensures room { self.new.room ≡ self.old.room }
    {
        self.contexts.pop()
    }

    // Runs each of its harts until it wants another engine, is parked or over, or has made the ends of
    // a phase.
    pub(crate) fn run<B: Bus>(&mut self, bus: &mut B)
        requires few { length self.old.contexts ≤ 32 }
        requires on { All (λ c. IsOn (B.run bus.old) c) self.old.contexts }
        requires here { All (λ c. c.engine ≡ self.old.engine) self.old.contexts }
        ensures worked { HaveWorked (B.run bus.old) (most_ends self.old.engine) self.old.contexts self.new.contexts }
        ensures engine { self.new.engine ≡ self.old.engine }
        ensures room { self.new.room ≡ self.old.room }
        ensures bus { B.run bus.new ≡ B.run bus.old }
    {
        match self.engine {
            Engine::Pipe => run_pipe(&mut self.contexts, bus),
            Engine::Kernel => run_in_turn(Engine::Kernel, &mut self.contexts, bus),
            Engine::Host => run_in_turn(Engine::Host, &mut self.contexts, bus),
        }
    }

    // Gives up a worker that holds no hart.
    pub(crate) fn discard(self)
        requires none { self.contexts ≡ [] }
    {
        let Worker {
            engine: _,
            contexts,
        } = self;
        contexts.destroy_empty();
    }
}

// Runs the harts of a pipe, which pass through its latches beside one another.
fn run_pipe<B: Bus>(contexts: &mut Vec<HartContext>, bus: &mut B)
    requires few { length contexts.old.items ≤ 32 }
    requires on { All (λ c. IsOn (B.run bus.old) c) contexts.old.items }
    requires here { All (λ c. c.engine ≡ engines.Pipe) contexts.old.items }
    ensures worked { HaveWorked (B.run bus.old) 16 contexts.old.items contexts.new.items }
    ensures room { vec_capacity contexts.new ≡ vec_capacity contexts.old }
    ensures bus { B.run bus.new ≡ B.run bus.old }
{
    run_through(contexts, bus);
}

// Runs the harts of a kernel or of the host, one after another.
fn run_in_turn<B: Bus>(engine: Engine, contexts: &mut Vec<HartContext>, bus: &mut B)
    requires other { engine ≢ engines.Pipe }
    requires on { All (λ c. IsOn (B.run bus.old) c) contexts.old.items }
    requires here { All (λ c. c.engine ≡ engine) contexts.old.items }
    ensures worked { HaveWorked (B.run bus.old) (most_ends engine) contexts.old.items contexts.new.items }
    ensures room { vec_capacity contexts.new ≡ vec_capacity contexts.old }
    ensures bus { B.run bus.new ≡ B.run bus.old }
{
    for place in 0..contexts.len() {
        run_one(engine, &mut contexts[place], bus);
    }
}

// Runs a hart in a kernel or in the host.
fn run_one<B: Bus>(engine: Engine, context: &mut HartContext, bus: &mut B)
    requires other { engine ≢ engines.Pipe }
    requires on { IsOn (B.run bus.old) context.old }
    requires here { context.old.engine ≡ engine }
    ensures worked { HasWorked (B.run bus.old) (most_ends engine) context.old context.new }
    ensures bus { B.run bus.new ≡ B.run bus.old }
{
    match engine {
        Engine::Pipe => unreachable!(),
        Engine::Kernel => Kernel::run_in_place(context, bus),
        Engine::Host => HostSim::run_in_place(context, bus),
    }
}
