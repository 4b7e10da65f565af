ghost use Rattle.std.specs.Prelude.{◌≡◌, ◌+◌, ◌++◌, ◌*◌, ◌<◌, ◌≤◌, ℕ, List, true, [], length, IfOk, slice_index_or, vec_len, vec_capacity};
ghost use Rattle.flex_base.specs.Setup.{Setup};
ghost use Rattle.flex_base.specs.Limits.{is_lawful};
ghost use Rattle.flex_base.specs.Loaded.{image_fits};
ghost use Rattle.flex_base.specs.Unsplit.{Machine, begin, reach_from, step, has_ended, hart_numbers, is_idle, want_of};
ghost use Rattle.flex_base.specs.Rounds.{most_rounds, rounds};
ghost use Rattle.flex_base.specs.Devices.{device_stop};
ghost use Rattle.context.specs.Contexts.{Context, IsRunOf, IsWanting, IsElsewhere};
ghost use Rattle.context.specs.declared.wants.Wants.TheVariants as Wants;
ghost use Rattle.solo.specs.Solo.{setup_of};
ghost use Rattle.solo.specs.Standing.{IsAt, IsPlayedOut};
ghost use Rattle.solo.specs.Playing.{AfterStep, IsTurned, Playing, TellsIdle};
ghost use Rattle.solo.specs.End.{IsEnd};
ghost use Rattle.solo.specs.Engines.{IsFlying};
ghost use Rattle.solo.specs.Begun.{AreBegun};
ghost use Rattle.solo.specs.Room.{are_empty};

use crate::engines::go_in_engine;
use crate::room::{Parts, empty_logs, take_apart};
use access_record::Founder;
use context::{HartContext, Wants, Went};
use flex_base::{Engine, HartId, Image, Settings, Stop};
use hart_story::Hart;
use journal::HartLog;
use mem_banks::{Ended, PlainBus};
use pipeline::Latches;
use std::alloc::{AllocError, Global};
use std::marker::Model;
use transplant_plan::Plan;

/// All harts of a run on one thread. It must be spent, by `finish`.
///
/// Contracts tell which state of the unsplit machine it stands for: each hart is where it is there,
/// the memory and the devices are as they are there, and the events so far, numbered in the order in
/// which they were made, are the plan's split of those of that machine.
///
/// `prepare` takes all memory. No other call takes any or refuses.
pub struct SoloMachine {
    // Each hart's context at the place of its number.
    contexts: Vec<HartContext>,
    bus: PlainBus,
    founder: Founder,
    plan: Plan,
    settings: Settings,
    // Where the parts of the contexts go at the end.
    parts: Parts,
}

impl Model for SoloMachine {
    ghost use Rattle.std.specs.Prelude.{◌≡◌, ◌≤◌, vec_len, vec_capacity};
    ghost use Rattle.solo.specs.Solo.{Solo, solo_of};

    ghost Value = { Solo };

    ghost view = { λ m. solo_of m.contexts.items m.bus m.founder m.plan m.settings };

    ghost invariant = { λ m. (vec_len m.contexts ≡ m.settings.harts)
        × (vec_len m.parts.harts ≡ 0) × (vec_len m.parts.logs ≡ 0) × (vec_len m.parts.passes ≡ 0)
        × (m.settings.harts ≤ vec_capacity m.parts.harts) × (m.settings.harts ≤ vec_capacity m.parts.logs)
        × (m.settings.harts ≤ vec_capacity m.parts.passes) };
}

/// What came of a step.
#[derive(Clone, Copy)]
enum Step {
    /// An access was made, and the instruction goes on.
    Accessed,
    /// An instruction ended.
    Ended,
    /// The hart has no next event: it is over, or waits unwoken.
    Rested,
}

impl SoloMachine {
    /// The machine of an image, a plan, settings and a console input, with each hart at its start in
    /// the engine of fetch.
    ///
    /// The settings are lawful, the image fits their RAM, and together the harts make at most 262,144
    /// ends. The error is want of memory.
    pub fn prepare(
        alloc: Global,
        image: &Image,
        plan: Plan,
        settings: Settings,
        input: Vec<u8>,
    ) -> Result<SoloMachine, AllocError>
        requires lawful { is_lawful settings ≡ true }
        requires fits { image_fits settings.ram image.now ≡ true }
        requires few { settings.harts * settings.budget ≤ 262144 }
        ensures at { IfOk result (λ machine. IsAt (setup_of image.now settings input.items)
            (begin (setup_of image.now settings input.items)) machine) }
        ensures plan { IfOk result (λ machine. machine.plan ≡ plan) }
    {
        let count = settings.harts as usize;
        let mut logs = empty_logs(alloc, &settings)?;
        let harts = Vec::with_capacity(alloc, count)?;
        let Ok(passes) = Vec::with_capacity(alloc, count) else {
            return Err(AllocError);
        };
        let Ok(contexts) = Vec::with_capacity(alloc, count) else {
            passes.destroy_empty();
            return Err(AllocError);
        };
        let Ok((mut bus, founder)) = PlainBus::new(alloc, image, &settings, plan.banks(), input)
        else {
            passes.destroy_empty();
            contexts.destroy_empty();
            return Err(AllocError);
        };
        let (founder, contexts) = begin_harts(
            &mut bus,
            founder,
            contexts,
            &mut logs,
            image.entry,
            plan,
            &settings,
        );
        let parts = Parts {
            harts,
            logs,
            passes,
        };
        Ok(SoloMachine {
            contexts,
            bus,
            founder,
            plan,
            settings,
            parts,
        })
    }

    /// The harts make their next events in this order, each with the handover before it where one is
    /// due. A hart that can make none, or that doesn't exist, is passed over.
    pub fn play(&mut self, order: &[u8])
        requires at { (setup : Setup) × (u : Machine) × IsAt setup u self.old }
        ensures at { (setup : Setup) (u : Machine) → IsAt setup u self.old
            → IsAt setup (reach_from setup u order.now) self.new }
        ensures plan { self.new.plan ≡ self.old.plan }
    {
        let mut latches = Latches::new();
        let mut last = 0;
        for h in order {
            if *h != last {
                latches = Latches::new();
                last = *h;
            }
            self.next(&mut latches, *h);
        }
    }

    /// Takes the harts in rising order, round and round. Each makes its events up to its next end, or
    /// until it can make none. It returns where the run has ended.
    pub fn play_out(&mut self)
        requires at { (setup : Setup) × (u : Machine) × IsAt setup u self.old }
        ensures at { (setup : Setup) (u : Machine) → IsAt setup u self.old → IsPlayedOut setup u self.new }
        ensures plan { self.new.plan ≡ self.old.plan }
    {
        // Each round of a run that goes on has an event.
        'rounds: for _ in 0..self.most_events() {
            if self.has_ended() {
                return;
            }
            self.round();
        }
    }

    /// Ends a run: why it stopped, its harts in rising order with their logs, and its memory, which is
    /// settled.
    ///
    /// The run has ended.
    pub fn finish(self) -> Ended
        requires ended { (setup : Setup) × (u : Machine) × IsAt setup u self × (has_ended setup u ≡ true) }
        ensures { (setup : Setup) (u : Machine) → IsAt setup u self → has_ended setup u ≡ true
            → IsEnd setup self.plan u result }
    {
        let SoloMachine {
            contexts,
            bus,
            founder,
            plan: _,
            settings: _,
            parts,
        } = self;
        let Parts {
            harts,
            logs,
            passes,
        } = take_apart(contexts, parts);
        let mut memory = bus.dissolve();
        memory.settle(founder, passes);
        let Some(stop) = memory.devices.stop() else {
            unreachable!()
        };
        Ended {
            stop,
            harts,
            logs,
            memory,
        }
    }

    // As many events as there can be: 10 for each end that a hart may make, and its retirement.
    fn most_events(&self) -> u64
        requires { (setup : Setup) × (u : Machine) × IsAt setup u self.now }
        ensures { (setup : Setup) (u : Machine) → IsAt setup u self.now → result ≡ most_rounds setup }
    {
        let settings = self.settings();
        let harts = u64::from(settings.harts);
        10 * (harts * settings.budget) + harts
    }

    fn settings(&self) -> Settings
        ensures { result ≡ self.now.settings }
    {
        self.settings
    }

    // How many harts there are.
    fn count(&self) -> usize
        ensures { result ≡ self.now.settings.harts }
    {
        self.settings.harts as usize
    }

    // Why the run stops, once a stop stands.
    fn stop(&self) -> Option<Stop>
        ensures { (setup : Setup) (u : Machine) → IsAt setup u self.now → result ≡ device_stop setup.harts u.devices }
    {
        self.bus.stop()
    }

    // A stop stands, and each hart is over or waits, woken or not.
    fn has_ended(&self) -> bool
        requires { (setup : Setup) × (u : Machine) × IsAt setup u self.now }
        ensures { (setup : Setup) (u : Machine) → IsAt setup u self.now → result ≡ has_ended setup u }
    {
        self.stop().is_some() && self.are_idle()
    }

    // Whether no hart goes on by itself.
    fn are_idle(&self) -> bool
        requires { (setup : Setup) × (u : Machine) × IsAt setup u self.now }
        ensures { (setup : Setup) (u : Machine) → IsAt setup u self.now → TellsIdle setup u result }
    {
        for h in 0..self.count() {
            if !self.is_idle(h) {
                return false;
            }
        }
        true
    }

    // Whether this hart is over or waits.
    fn is_idle(&self, h: usize) -> bool
        requires hart { h < self.now.settings.harts }
        requires at { (setup : Setup) × (u : Machine) × IsAt setup u self.now }
        ensures { (setup : Setup) (u : Machine) → IsAt setup u self.now → result ≡ is_idle (want_of setup u h) }
    {
        match self.contexts[h].wants() {
            Wants::Ask(_) => false,
            Wants::Finish(_) => false,
            Wants::Parked => true,
            Wants::Over => true,
        }
    }

    // The hart of this number makes its next event. A number without a hart is passed over.
    fn next(&mut self, latches: &mut Latches, h: u8)
        requires at { (setup : Setup) × (u : Machine) × IsAt setup u self.old }
        requires flying { IsFlying self.old h latches.old }
        ensures at { (setup : Setup) (u : Machine) → IsAt setup u self.old → IsAt setup (step setup u h) self.new }
        ensures flying { IsFlying self.new h latches.new }
        ensures plan { self.new.plan ≡ self.old.plan }
    {
        if (h as usize) < self.count() {
            self.step(latches, h as usize);
        }
    }

    // Each hart makes its turn, in rising order, unless the run has ended.
    fn round(&mut self)
        requires { (setup : Setup) × (u : Machine) × (done : List ℕ) × (rest : List ℕ)
            × Playing setup u done (hart_numbers setup ++ rest) self.old }
        ensures at { (setup : Setup) (u : Machine) (done rest : List ℕ)
            → Playing setup u done (hart_numbers setup ++ rest) self.old
            → Playing setup u (done ++ hart_numbers setup) rest self.new }
        ensures plan { self.new.plan ≡ self.old.plan }
    {
        for h in 0..self.count() {
            if !self.has_ended() {
                self.turn(h);
            }
        }
    }

    // Makes a hart's events up to and including its next end, or until it has none.
    fn turn(&mut self, h: usize)
        requires hart { h < self.old.settings.harts }
        requires at { (setup : Setup) × (u : Machine) × IsAt setup u self.old }
        ensures at { (setup : Setup) (u : Machine) → IsAt setup u self.old → IsTurned setup u h self.new }
        ensures plan { self.new.plan ≡ self.old.plan }
    {
        let mut latches = Latches::new();
        'turn: for _ in 0..self.most_events() {
            match self.step(&mut latches, h) {
                Step::Accessed => {}
                Step::Ended => return,
                Step::Rested => return,
            }
        }
    }

    // Makes the next event of a hart, where there is one, with the handover before it where one is
    // due. A hart that waits makes a pulse, and only once the devices have woken it.
    #[inline(always)]
    fn step(&mut self, latches: &mut Latches, h: usize) -> Step
        requires hart { h < self.old.settings.harts }
        requires at { (setup : Setup) × (u : Machine) × IsAt setup u self.old }
        requires flying { IsFlying self.old h latches.old }
        ensures after { (setup : Setup) (u : Machine) → IsAt setup u self.old → AfterStep setup u h result self.new }
        ensures flying { IsFlying self.new h latches.new }
        ensures plan { self.new.plan ≡ self.old.plan }
    {
        match go_in_engine(latches, &mut self.contexts[h], &mut self.bus) {
            Went::Accessed => Step::Accessed,
            Went::Ended => Step::Ended,
            Went::Elsewhere(engine) => self.go_over(latches, h, engine),
            Went::Parked => {
                *latches = Latches::new();
                self.wake(h)
            }
            Went::Over => Step::Rested,
        }
    }

    // Hands a hart over to the engine of its next event, and makes the event there.
    #[cold]
    fn go_over(&mut self, latches: &mut Latches, h: usize, engine: Engine) -> Step
        requires hart { h < self.old.settings.harts }
        requires at { (setup : Setup) × (u : Machine) × IsAt setup u self.old }
        requires elsewhere { (other : Context) → IsElsewhere engine (slice_index_or self.old.contexts h other) }
        ensures after { (setup : Setup) (u : Machine) → IsAt setup u self.old → AfterStep setup u h result self.new }
        ensures flying { IsFlying self.new h latches.new }
        ensures plan { self.new.plan ≡ self.old.plan }
    {
        let context = &mut self.contexts[h];
        context.move_to(&mut self.bus, engine);
        *latches = Latches::new();
        match go_in_engine(latches, context, &mut self.bus) {
            Went::Accessed => Step::Accessed,
            Went::Ended => Step::Ended,
            Went::Elsewhere(_) => unreachable!(),
            Went::Parked => unreachable!(),
            Went::Over => unreachable!(),
        }
    }

    // A hart that waits makes its pulse, where the devices have woken it.
    #[cold]
    fn wake(&mut self, h: usize) -> Step
        requires hart { h < self.old.settings.harts }
        requires at { (setup : Setup) × (u : Machine) × IsAt setup u self.old }
        requires parked { (other : Context) → IsWanting (slice_index_or self.old.contexts h other) Wants.Parked }
        ensures after { (setup : Setup) (u : Machine) → IsAt setup u self.old → AfterStep setup u h result self.new }
        ensures plan { self.new.plan ≡ self.old.plan }
    {
        if self.contexts[h].wake(&mut self.bus) {
            Step::Accessed
        } else {
            Step::Rested
        }
    }
}

/// Each hart of the settings at its start, in a context with one of these logs.
///
/// The bus has enrolled no hart.
pub fn begin_harts(
    bus: &mut PlainBus,
    mut founder: Founder,
    mut contexts: Vec<HartContext>,
    logs: &mut Vec<HartLog>,
    entry: u64,
    plan: Plan,
    settings: &Settings,
) -> (Founder, Vec<HartContext>)
    requires lawful { is_lawful settings.now ≡ true }
    requires image { image_fits settings.now.ram bus.old.run.setup.image ≡ true }
    requires entry { entry ≡ bus.old.run.setup.image.entry }
    requires run { IsRunOf entry settings.now bus.old.run.setup }
    requires limits { (bus.old.run.book.limits.harts ≡ settings.now.harts)
        × (bus.old.run.book.limits.room ≡ 24 * settings.now.budget + 24) }
    requires founder { (founder.id ≡ bus.old.run.book.id) × (founder.harts ≡ []) }
    requires logs { logs.old.items ≡ are_empty settings.now settings.now.harts }
    requires room { (vec_len contexts ≡ 0) × (settings.now.harts ≤ vec_capacity contexts) }
    ensures begun { AreBegun bus.old.run plan settings.now settings.now.harts founder result.0 result.1.items }
    ensures left { vec_len logs.new ≡ 0 }
    ensures room { vec_capacity logs.new ≡ vec_capacity logs.old }
    ensures spare { vec_capacity result.1 ≡ vec_capacity contexts }
    ensures same { bus.new ≡ bus.old }
{
    for h in 0..settings.harts {
        let Some(log) = logs.pop() else {
            unreachable!()
        };
        let (next, pass) = bus.enrol(founder, HartId(h));
        founder = next;
        let hart = Hart::start(HartId(h), entry);
        contexts.push_reserved(HartContext::new(hart, pass, log, plan, settings));
    }
    (founder, contexts)
}
