ghost use Rattle.std.specs.Prelude.{◌≡◌, ◌<◌, ◌≤◌, true, All, length, IfSome, Some};
ghost use Rattle.access_record.specs.Buses.{Run};
ghost use Rattle.context.specs.Contexts.{IsOn, IsSame};
ghost use Rattle.crew.specs.Crews.{IsCrew, IsCrewBut, AreHome, Empties, TakesBack, MayWork, WorkerHasWorked, AllHaveWorked, AreIdleFrom, count_by, engine_of_worker};
ghost use Rattle.crew.specs.Played.{IsAtRest, IsAtRestAt, AreAtRest};

use crate::worker::Worker;
use access_record::Bus;
use context::{HartContext, Wants};
use devices::Devices;
use flex_base::{Engine, Gate};
use mem_banks::{Banks, RunName, SharedBus};
use std::marker::Model;
use std::sync::Wait;
use std::thread::{Threads, for_each_mut};
use transplant_plan::Plan;

/// All harts of a run: those that rest with the coordinator, and those that workers hold.
pub(crate) struct Crew {
    pub(crate) plan: Plan,
    // A place for each hart.
    pub(crate) resting: Vec<Option<HartContext>>,
    // The pipes, then the kernels, then the host.
    pub(crate) workers: Vec<Worker>,
}

impl Model for Crew {
    ghost use Rattle.crew.specs.Crews as crews;

    ghost Value = { crews.Crew };

    ghost view = { λ c. crews.crew_of c.plan c.resting.items c.workers.items };
}

impl Crew {
    // Phases, one after another, until no hart goes on.
    //
    // The calls may wait.
    pub(crate) fn play<N: RunName + Send + Sync, R: Threads + Wait + Sync, G: Gate>(
        &mut self,
        rt: &R,
        banks: &Banks<N>,
        gate: &G,
    )
        requires crew { IsCrew N.run self.old }
        ensures crew { IsCrew N.run self.new }
        ensures home { AreHome self.new }
        ensures plan { self.new.plan ≡ self.old.plan }
    {
        for _ in rt.forever() {
            self.collect();
            if !self.deal_over(rt, banks, gate) {
                break;
            }
            self.phase(rt, banks, gate);
        }
        self.collect();
    }

    // Deals the harts out over a bus of the coordinator's own.
    fn deal_over<N: RunName, R: Wait, G: Gate>(
        &mut self,
        rt: &R,
        banks: &Banks<N>,
        gate: &G,
    ) -> bool
        requires crew { IsCrew N.run self.old }
        ensures crew { IsCrew N.run self.new }
        ensures plan { self.new.plan ≡ self.old.plan }
    {
        let mut bus = SharedBus::new(rt, banks, gate);
        self.deal(&mut bus)
    }

    // Each hart that goes on is woken where it is parked, is handed over where its engine changes, and
    // goes to a worker of its engine. Answers whether any did. One that is over, or waits unwoken, stays.
    fn deal<B: Bus>(&mut self, bus: &mut B) -> bool
        requires crew { IsCrew (B.run bus.old) self.old }
        ensures crew { IsCrew (B.run bus.old) self.new }
        ensures plan { self.new.plan ≡ self.old.plan }
        ensures bus { B.run bus.new ≡ B.run bus.old }
    {
        let mut any = false;
        for hart in 0..self.resting.len() {
            if self.deal_one(hart, bus) {
                any = true;
            }
        }
        any
    }

    // The same for the hart of this number, where it rests.
    fn deal_one<B: Bus>(&mut self, hart: usize, bus: &mut B) -> bool
        requires crew { IsCrew (B.run bus.old) self.old }
        ensures crew { IsCrew (B.run bus.old) self.new }
        ensures plan { self.new.plan ≡ self.old.plan }
        ensures bus { B.run bus.new ≡ B.run bus.old }
    {
        let Some(mut context) = self.take(hart) else {
            return false;
        };
        match make_ready(&mut context, bus) {
            Some(engine) => {
                self.send(context, engine);
                true
            }
            None => {
                self.rest(context);
                false
            }
        }
    }

    // Takes the hart of this number, where it rests.
    fn take(&mut self, hart: usize) -> Option<HartContext>
        requires crew { (run : Run) × IsCrew run self.old }
        ensures crew { (run : Run) → IsCrew run self.old → IsCrewBut run result self.new }
        ensures plan { self.new.plan ≡ self.old.plan }
    {
        if hart >= self.resting.len() {
            return None;
        }
        self.resting[hart].take()
    }

    // Lays a hart at its place.
    fn rest(&mut self, context: HartContext)
        requires crew { (run : Run) × IsCrewBut run (Some context) self.old }
        ensures crew { (run : Run) → IsCrewBut run (Some context) self.old → IsCrew run self.new }
        ensures workers { self.new.workers ≡ self.old.workers }
        ensures plan { self.new.plan ≡ self.old.plan }
    {
        let hart = context.id().0 as usize;
        let left = self.resting[hart].replace(context);
        let None = left else { unreachable!() };
    }

    // Gives a hart to a worker of its engine, always to the same.
    fn send(&mut self, context: HartContext, engine: Engine)
        requires crew { (run : Run) × IsCrewBut run (Some context) self.old }
        requires engine { context.engine ≡ engine }
        ensures crew { (run : Run) → IsCrewBut run (Some context) self.old → IsCrew run self.new }
        ensures plan { self.new.plan ≡ self.old.plan }
    {
        let number = self.number_for(context.id().0, engine);
        self.workers[number].take_in(context);
    }

    // The worker of an engine for the hart of this number.
    fn number_for(&self, hart: u8, engine: Engine) -> usize
        ensures below { result < count_by self.now.plan }
        ensures engine { engine_of_worker self.now.plan result ≡ engine }
    {
        let pipes = self.plan.pipes();
        let kernels = self.plan.kernels();
        match engine {
            Engine::Pipe => (hart % pipes) as usize,
            Engine::Kernel => (pipes + hart % kernels) as usize,
            Engine::Host => (pipes + kernels) as usize,
        }
    }

    // Whether each hart that rests is over, or waits and these devices don't wake it.
    pub(crate) fn are_at_rest(&self, devices: &Devices) -> bool
        ensures { result ≡ true → AreAtRest devices.now self.now }
    {
        for place in &self.resting {
            if !is_at_rest_at(place, devices) {
                return false;
            }
        }
        true
    }

    // All harts come back to the coordinator.
    fn collect(&mut self)
        requires crew { (run : Run) × IsCrew run self.old }
        ensures crew { (run : Run) → IsCrew run self.old → IsCrew run self.new }
        ensures home { AreHome self.new }
        ensures plan { self.new.plan ≡ self.old.plan }
    {
        for number in 0..self.workers.len() {
            self.empty(number);
        }
    }

    // All harts of a worker come back.
    fn empty(&mut self, number: usize)
        requires crew { (run : Run) × IsCrew run self.old }
        requires number { number < length self.old.workers }
        ensures crew { (run : Run) → IsCrew run self.old → IsCrew run self.new }
        ensures empties { Empties number self.old.workers self.new.workers }
        ensures plan { self.new.plan ≡ self.old.plan }
    {
        while let Some(context) = self.take_back(number) {
            self.rest(context);
        }
    }

    // Takes a hart back from a worker, where it has one.
    fn take_back(&mut self, number: usize) -> Option<HartContext>
        requires crew { (run : Run) × IsCrew run self.old }
        requires number { number < length self.old.workers }
        ensures crew { (run : Run) → IsCrew run self.old → IsCrewBut run result self.new }
        ensures workers { TakesBack number result self.old.workers self.new.workers }
        ensures plan { self.new.plan ≡ self.old.plan }
    {
        self.workers[number].give_back()
    }

    // All workers run their harts beside one another.
    fn phase<N: RunName + Send + Sync, R: Threads + Wait + Sync, G: Gate>(
        &mut self,
        rt: &R,
        banks: &Banks<N>,
        gate: &G,
    )
        requires crew { IsCrew N.run self.old }
        ensures crew { IsCrew N.run self.new }
        ensures plan { self.new.plan ≡ self.old.plan }
    {
        if self.busy() > 1 {
            side_by_side(rt, banks, gate, &mut self.workers);
        } else {
            one_by_one(rt, banks, gate, &mut self.workers);
        }
    }

    // How many workers hold harts.
    fn busy(&self) -> usize {
        let mut busy = 0;
        for worker in &self.workers {
            if !worker.is_idle() {
                busy += 1;
            }
        }
        busy
    }
}

// The workers run their harts beside one another. No thread is started for those after the last one
// that holds a hart.
fn side_by_side<N: RunName + Send + Sync, R: Threads + Wait + Sync, G: Gate>(
    rt: &R,
    banks: &Banks<N>,
    gate: &G,
    workers: &mut [Worker],
)
    requires manned { All (λ w. MayWork N.run w) workers.old }
    ensures worked { AllHaveWorked N.run workers.old workers.new }
{
    let count = up_to_last_busy(workers);
    let (first, _idle) = workers.split_at_mut(count);
    in_threads(rt, banks, gate, first);
}

// How many workers there are up to the last one that holds a hart.
fn up_to_last_busy(workers: &[Worker]) -> usize
    ensures within { result ≤ length workers.now }
    ensures idle { AreIdleFrom result workers.now }
{
    for number in (0..workers.len()).rev() {
        if !workers[number].is_idle() {
            return number + 1;
        }
    }
    0
}

// The workers run their harts, each in a thread of its own where one can be made.
fn in_threads<N: RunName + Send + Sync, R: Threads + Wait + Sync, G: Gate>(
    rt: &R,
    banks: &Banks<N>,
    gate: &G,
    workers: &mut [Worker],
)
    requires manned { All (λ w. MayWork N.run w) workers.old }
    ensures worked { AllHaveWorked N.run workers.old workers.new }
{
    let threads = workers.len().max(1);
    for_each_mut(
        rt,
        workers,
        threads,
        &|_, worker: &mut Worker|
            requires { MayWork N.run worker.old }
            ensures { WorkerHasWorked N.run worker.old worker.new }
        { work(rt, banks, gate, worker) },
    );
}

// The workers run their harts, one after another.
fn one_by_one<N: RunName, R: Wait, G: Gate>(
    rt: &R,
    banks: &Banks<N>,
    gate: &G,
    workers: &mut [Worker],
)
    requires manned { All (λ w. MayWork N.run w) workers.old }
    ensures worked { AllHaveWorked N.run workers.old workers.new }
{
    for number in 0..workers.len() {
        work(rt, banks, gate, &mut workers[number]);
    }
}

// A worker runs its harts over a bus of its own.
fn work<N: RunName, R: Wait, G: Gate>(rt: &R, banks: &Banks<N>, gate: &G, worker: &mut Worker)
    requires { MayWork N.run worker.old }
    ensures { WorkerHasWorked N.run worker.old worker.new }
{
    let mut bus = SharedBus::new(rt, banks, gate);
    worker.run(&mut bus);
}

// Wakes a hart where it is parked and woken, and hands it over where another engine makes its next
// event. Answers the engine, where the hart goes on.
fn make_ready<B: Bus>(context: &mut HartContext, bus: &mut B) -> Option<Engine>
    requires on { IsOn (B.run bus.old) context.old }
    ensures on { IsOn (B.run bus.old) context.new }
    ensures same { IsSame context.old context.new }
    ensures engine { IfSome result (λ e. context.new.engine ≡ e) }
    ensures bus { B.run bus.new ≡ B.run bus.old }
{
    match context.wants() {
        Wants::Ask(_) => {}
        Wants::Finish(_) => {}
        Wants::Parked => {
            if !context.wake(bus) {
                return None;
            }
        }
        Wants::Over => return None,
    }
    Some(hand_over(context, bus))
}

// Hands a hart over to the engine of its next event, and answers that engine.
fn hand_over<B: Bus>(context: &mut HartContext, bus: &mut B) -> Engine
    requires on { IsOn (B.run bus.old) context.old }
    ensures on { IsOn (B.run bus.old) context.new }
    ensures same { IsSame context.old context.new }
    ensures engine { context.new.engine ≡ result }
    ensures bus { B.run bus.new ≡ B.run bus.old }
{
    let _wants = context.wants();
    let engine = context.wanted_engine();
    let _left = context.round_left();
    if engine != context.engine() {
        context.move_to(bus, engine);
    }
    engine
}

// Whether the hart at a place, if any, is at rest.
fn is_at_rest_at(place: &Option<HartContext>, devices: &Devices) -> bool
    ensures { result ≡ true → IsAtRestAt devices.now place.now }
{
    match place {
        Some(context) => is_at_rest(context, devices),
        None => true,
    }
}

// Whether the hart is over, or waits and these devices don't wake it.
fn is_at_rest(context: &HartContext, devices: &Devices) -> bool
    ensures { result ≡ true → IsAtRest devices.now context.now }
{
    match context.wants() {
        Wants::Ask(_) => false,
        Wants::Finish(_) => false,
        Wants::Parked => !devices.woken(context.id()),
        Wants::Over => true,
    }
}
