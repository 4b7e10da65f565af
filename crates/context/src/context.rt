ghost use Rattle.std.specs.Prelude.{◌≡◌, ◌≢◌, ◌+◌, ◌*◌, ◌<◌, true, [], MatchOption};
ghost use Rattle.flex_base.specs.Setup.{Setup};
ghost use Rattle.flex_base.specs.State.{start};
ghost use Rattle.flex_base.specs.Loaded.{Loaded, image_fits};
ghost use Rattle.flex_base.specs.Limits.{is_lawful};
ghost use Rattle.hart_story.specs.StandsFor.{StandsFor};
ghost use Rattle.flex_base.specs.Following.{wanted};
ghost use Rattle.hart_story.specs.Need.{need_of, AsksPlaced};
ghost use Rattle.access_record.specs.Buses.{Run};
ghost use Rattle.context.specs.declared.wants.Wants.TheVariants as Wants;
ghost use Rattle.context.specs.declared.wants.Wants.{Wants};
ghost use Rattle.context.specs.Obeying.{IsFor, engine_wanted};
ghost use Rattle.context.specs.Contexts.{new_context, plan_of, layout_of, IsRunOf, instruction_at, IsWanting, IsWantedIn, IsAsking, IsEnding, IsContext, IsOn, IsSame, Steps, Moves, HasTried, HasGone, WantsHere, Goes};
ghost use Rattle.context.specs.Runs.{MakesNone};

use crate::held::HeldPass;
use crate::wants::{Wants, Went};
use access_record::{Bus, Entry, Pass};
use flex_base::{Access, Class, Engine, Event, HartId, Layout, Settings, What};
use hart_story::{Hart, Need, Progress, finish_in_place, give, lead_in, need};
use journal::HartLog;
use std::marker::Model;
use transplant_plan::Plan;

/// A hart on the move: its state, its instruction in flight, its events and its pass. It can't be
/// copied and must be spent.
///
/// Its events follow the story of the hart from the entry of its image on and obey the plan so far,
/// its hart and its progress are where they lead, and there is room for all that may still come: so
/// it is of every context, and no caller need say it.
///
/// A call by value moves a context, which costs more than an event. `advance`, `wake` and `move_to`
/// do in place what `step`, `try_wake` and `hand_over` do.
pub struct HartContext {
    // At the start of its instruction.
    hart: Hart,
    progress: Progress,
    pass: HeldPass,
    log: HartLog,
    // Where the image begins. Contracts alone ask for it.
    entry: u64,
    left: u64,
    settings: Settings,
    plan: Plan,
    engine: Engine,
}

const _: () = prove!(size_of::<HartContext>() <= 872);

impl Model for HartContext {
    ghost use Rattle.context.specs.Contexts.{Context, context_of, IsContext};

    ghost Value = { Context };

    ghost view = { λ c. context_of c.hart c.progress c.pass c.log c.plan c.settings c.entry c.engine c.left };

    ghost invariant = { λ c. IsContext (context_of c.hart c.progress c.pass c.log c.plan c.settings c.entry c.engine c.left) };
}

impl HartContext {
    /// The context of a hart that has made no event, in the engine of fetch.
    ///
    /// The hart is at its start in an image that fits. The pass is of that hart and its log is empty;
    /// so is the log, which has room for 24 events an end and 24 more.
    pub fn new(hart: Hart, pass: Pass, log: HartLog, plan: Plan, settings: &Settings) -> HartContext
        requires lawful { is_lawful settings.now ≡ true }
        requires image { (image : Loaded) × (image_fits settings.now.ram image ≡ true)
            × StandsFor hart (start pass.hart.0 image.entry) }
        requires below { pass.hart.0 < settings.now.harts }
        requires none { pass.log ≡ [] }
        requires log { log ≡ record { events = []; room = 24 * settings.now.budget + 24 } }
        ensures context { result ≡ new_context hart pass log plan settings.now }
        ensures entry { (image : Loaded) → StandsFor hart (start pass.hart.0 image.entry) → result.entry ≡ image.entry }
        ensures on { (run : Run) → pass.id ≡ run.book.id → IsRunOf result.entry settings.now run.setup
            → run.book.limits.room ≡ 24 * settings.now.budget + 24 → IsOn run result }
    {
        let entry = hart.regs.pc;
        let engine = plan.engine_for(Class::Fetch);
        let pass = HeldPass::new(pass);
        HartContext {
            hart,
            progress: Progress::begin(),
            pass,
            log,
            entry,
            left: settings.budget + 1,
            settings: *settings,
            plan,
            engine,
        }
    }

    /// The hart's number.
    pub fn id(&self) -> HartId
        ensures { result ≡ self.now.pass.hart }
    {
        self.pass.hart()
    }

    /// The engine that the hart is in.
    pub fn engine(&self) -> Engine
        ensures { result ≡ self.now.engine }
    {
        self.engine
    }

    /// What the hart wants next.
    pub fn wants(&self) -> Wants
        ensures { IsWanting self.now result }
    {
        match self.need() {
            Need::Ask(_, class) => Wants::Ask(class),
            Need::Finish(class) => Wants::Finish(class),
            Need::Parked => Wants::Parked,
            Need::Over => Wants::Over,
        }
    }

    /// The engine to which the plan gives what the hart wants. One that is parked or over wants the
    /// engine that it is in.
    pub fn wanted_engine(&self) -> Engine
        ensures { (w : Wants) → IsWanting self.now w → result ≡ engine_wanted (plan_of self.now) self.now.engine w }
    {
        match self.wants() {
            Wants::Ask(class) => self.plan.engine_for(class),
            Wants::Finish(class) => self.plan.engine_for(class),
            Wants::Parked => self.engine,
            Wants::Over => self.engine,
        }
    }

    /// What the hart wants next, where the plan gives it to the engine that the hart is in.
    #[inline(always)]
    pub fn wants_here(&self) -> Option<Wants>
        ensures { MatchOption result (MakesNone self.now) (λ w. IsWanting self.now w × IsFor (plan_of self.now) w self.now.engine) }
    {
        match self.need() {
            Need::Ask(_, class) => {
                let engine = self.plan.engine_for(class);
                if engine != self.engine {
                    return None;
                }
                Some(Wants::Ask(class))
            }
            Need::Finish(class) => {
                let engine = self.plan.engine_for(class);
                if engine != self.engine {
                    return None;
                }
                Some(Wants::Finish(class))
            }
            Need::Parked => None,
            Need::Over => None,
        }
    }

    /// How many instructions and traps of the hart have ended.
    pub fn ends(&self) -> u64
        ensures { (setup : Setup) → IsRunOf self.now.entry self.now.settings setup
            → result ≡ (instruction_at setup self.now).state.ends }
    {
        self.hart.regs.ends
    }

    /// How many ends the hart may still make in its round. A round begins with one more than the
    /// budget, so this is never 0.
    pub fn round_left(&self) -> u64
        ensures left { result ≡ self.now.left }
        ensures some { 0 < result }
    {
        self.left
    }

    /// Makes the hart's next event.
    ///
    /// It wants one of a class that the plan gives this engine, and has an end left in its round.
    pub fn step<B: Bus>(self, bus: &mut B) -> HartContext
        requires on { IsOn (B.run bus.old) self }
        requires wanted { IsWantedIn self self.engine }
        requires left { 0 < self.left }
        ensures one { Steps (B.run bus.old) (B.history bus.old) (B.history bus.new) self result }
        ensures same { IsSame self result }
        ensures on { IsOn (B.run bus.old) result }
        ensures bus { B.run bus.new ≡ B.run bus.old }
    {
        let mut context = self;
        context.advance(bus);
        context
    }

    /// Makes the pulse of a hart that is parked, where the devices have woken it, and answers whether
    /// they have.
    pub fn try_wake<B: Bus>(self, bus: &mut B) -> (HartContext, bool)
        requires on { IsOn (B.run bus.old) self }
        requires parked { IsWanting self Wants.Parked }
        ensures one { HasTried (B.run bus.old) (B.history bus.old) (B.history bus.new) self result.0 result.1 }
        ensures same { IsSame self result.0 }
        ensures on { IsOn (B.run bus.old) result.0 }
        ensures bus { B.run bus.new ≡ B.run bus.old }
    {
        let mut context = self;
        let woken = context.wake(bus);
        (context, woken)
    }

    /// Hands the hart over to the engine to which the plan gives what it wants.
    ///
    /// It isn't in that engine, and has an end left in its round.
    pub fn hand_over<B: Bus>(self, bus: &mut B, to: Engine) -> HartContext
        requires on { IsOn (B.run bus.old) self }
        requires wanted { IsWantedIn self to }
        requires other { to ≢ self.engine }
        requires left { 0 < self.left }
        ensures one { Moves (B.run bus.old) (B.history bus.old) (B.history bus.new) to self result }
        ensures same { IsSame self result }
        ensures on { IsOn (B.run bus.old) result }
        ensures bus { B.run bus.new ≡ B.run bus.old }
    {
        let mut context = self;
        context.move_to(bus, to);
        context
    }

    /// Does in place what `step` does.
    pub fn advance<B: Bus>(&mut self, bus: &mut B)
        requires on { IsOn (B.run bus.old) self.old }
        requires wanted { IsWantedIn self.old self.old.engine }
        requires left { 0 < self.old.left }
        ensures one { Steps (B.run bus.old) (B.history bus.old) (B.history bus.new) self.old self.new }
        ensures same { IsSame self.old self.new }
        ensures on { IsOn (B.run bus.old) self.new }
        ensures bus { B.run bus.new ≡ B.run bus.old }
    {
        match self.need() {
            Need::Ask(access, _) => self.make_access(bus, access),
            Need::Finish(_) => self.make_end(bus),
            Need::Parked => unreachable!(),
            Need::Over => unreachable!(),
        }
    }

    /// Makes the hart's next event where the plan gives its class to the engine that the hart is in,
    /// and answers what came of it. In all else nothing happens.
    ///
    /// It asks but once what the hart wants, so it is the call for loops.
    pub fn go<B: Bus>(&mut self, bus: &mut B) -> Went
        requires on { IsOn (B.run bus.old) self.old }
        ensures went { HasGone (B.run bus.old) (B.history bus.old) (B.history bus.new) self.old self.new result }
        ensures same { IsSame self.old self.new }
        ensures on { IsOn (B.run bus.old) self.new }
        ensures bus { B.run bus.new ≡ B.run bus.old }
    {
        match self.need() {
            Need::Ask(access, class) => {
                let engine = self.plan.engine_for(class);
                if engine != self.engine {
                    return Went::Elsewhere(engine);
                }
                self.make_access(bus, access);
                Went::Accessed
            }
            Need::Finish(class) => {
                let engine = self.plan.engine_for(class);
                if engine != self.engine {
                    return Went::Elsewhere(engine);
                }
                self.make_end(bus);
                Went::Ended
            }
            Need::Parked => Went::Parked,
            Need::Over => Went::Over,
        }
    }

    /// Makes the access that the hart wants, of a class that the plan gives the engine that it is in.
    pub fn ask<B: Bus>(&mut self, bus: &mut B)
        requires on { IsOn (B.run bus.old) self.old }
        requires wanted { WantsHere Wants.Ask self.old }
        ensures goes { Goes (B.run bus.old) (B.history bus.old) (B.history bus.new) Wants.Ask self.old self.new }
        ensures same { IsSame self.old self.new }
        ensures on { IsOn (B.run bus.old) self.new }
        ensures bus { B.run bus.new ≡ B.run bus.old }
    {
        match self.need() {
            Need::Ask(access, _) => self.make_access(bus, access),
            Need::Finish(_) => unreachable!(),
            Need::Parked => unreachable!(),
            Need::Over => unreachable!(),
        }
    }

    /// Ends the hart's instruction, which is what it wants, with an end of a class that the plan gives
    /// the engine that it is in. It needn't ask the story.
    pub fn finish<B: Bus>(&mut self, bus: &mut B)
        requires on { IsOn (B.run bus.old) self.old }
        requires wanted { WantsHere Wants.Finish self.old }
        ensures goes { Goes (B.run bus.old) (B.history bus.old) (B.history bus.new) Wants.Finish self.old self.new }
        ensures same { IsSame self.old self.new }
        ensures on { IsOn (B.run bus.old) self.new }
        ensures bus { B.run bus.new ≡ B.run bus.old }
    {
        let _some = self.round_left();
        self.make_end(bus);
    }

    /// Does in place what `try_wake` does.
    pub fn wake<B: Bus>(&mut self, bus: &mut B) -> bool
        requires on { IsOn (B.run bus.old) self.old }
        requires parked { IsWanting self.old Wants.Parked }
        ensures one { HasTried (B.run bus.old) (B.history bus.old) (B.history bus.new) self.old self.new result }
        ensures same { IsSame self.old self.new }
        ensures on { IsOn (B.run bus.old) self.new }
        ensures bus { B.run bus.new ≡ B.run bus.old }
    {
        match self.pass.wake(bus, self.engine) {
            Some((number, reply)) => {
                let layout = layout_of(&self.settings);
                give(
                    &self.hart,
                    &mut self.progress,
                    &layout,
                    self.settings.budget,
                    reply,
                );
                let access = Access::Pulse { tick: false };
                self.log
                    .push_access(number, self.pass.hart(), self.engine, access, reply);
                true
            }
            None => false,
        }
    }

    /// Does in place what `hand_over` does.
    pub fn move_to<B: Bus>(&mut self, bus: &mut B, to: Engine)
        requires on { IsOn (B.run bus.old) self.old }
        requires wanted { IsWantedIn self.old to }
        requires other { to ≢ self.old.engine }
        requires left { 0 < self.old.left }
        ensures one { Moves (B.run bus.old) (B.history bus.old) (B.history bus.new) to self.old self.new }
        ensures same { IsSame self.old self.new }
        ensures on { IsOn (B.run bus.old) self.new }
        ensures bus { B.run bus.new ≡ B.run bus.old }
    {
        let entry = Entry {
            engine: self.engine,
            what: What::Handover(to),
        };
        let number = self.pass.note(bus, entry);
        self.log.push(Event {
            number,
            hart: self.pass.hart(),
            engine: self.engine,
            what: What::Handover(to),
        });
        self.engine = to;
    }

    // What the story says of the hart.
    #[inline(always)]
    fn need(&self) -> Need
        ensures told { (setup : Setup) → IsRunOf self.now.entry self.now.settings setup
            → result ≡ need_of (wanted setup (instruction_at setup self.now)) }
        ensures placed { (setup : Setup) → IsRunOf self.now.entry self.now.settings setup → AsksPlaced setup result }
    {
        let layout = layout_of(&self.settings);
        need(&self.hart, &self.progress, &layout, self.settings.budget)
    }

    // Makes the access that the hart asks, in an engine that runs its class.
    fn make_access<B: Bus>(&mut self, bus: &mut B, access: Access)
        requires on { IsOn (B.run bus.old) self.old }
        requires asks { IsAsking self.old access }
        ensures one { Steps (B.run bus.old) (B.history bus.old) (B.history bus.new) self.old self.new }
        ensures same { IsSame self.old self.new }
        ensures on { IsOn (B.run bus.old) self.new }
        ensures bus { B.run bus.new ≡ B.run bus.old }
    {
        let (number, reply) = self.pass.access(bus, self.engine, access);
        let layout = layout_of(&self.settings);
        give(
            &self.hart,
            &mut self.progress,
            &layout,
            self.settings.budget,
            reply,
        );
        self.log
            .push_access(number, self.pass.hart(), self.engine, access, reply);
    }

    // Ends the hart's instruction, in an engine that runs the class of the end, and leads the hart into
    // the next one.
    fn make_end<B: Bus>(&mut self, bus: &mut B)
        requires on { IsOn (B.run bus.old) self.old }
        requires ends { IsEnding self.old }
        requires left { 0 < self.old.left }
        ensures one { Steps (B.run bus.old) (B.history bus.old) (B.history bus.new) self.old self.new }
        ensures same { IsSame self.old self.new }
        ensures on { IsOn (B.run bus.old) self.new }
        ensures bus { B.run bus.new ≡ B.run bus.old }
    {
        let layout = layout_of(&self.settings);
        let part = finish_in_place(
            &mut self.hart,
            &mut self.progress,
            &layout,
            self.settings.budget,
        );
        lead_in(
            &self.hart,
            &mut self.progress,
            &layout,
            self.settings.budget,
        );
        let entry = Entry {
            engine: self.engine,
            what: What::End(part),
        };
        let number = self.pass.note(bus, entry);
        self.log
            .push_end(number, self.pass.hart(), self.engine, part);
        self.left -= 1;
    }

    /// The hart at the start of its instruction, its pass and its events.
    pub fn dissolve(self) -> (Hart, Pass, HartLog)
        ensures hart { result.0 ≡ self.hart }
        ensures pass { result.1 ≡ self.pass }
        ensures log { result.2 ≡ self.log }
        ensures context { IsContext self }
    {
        let HartContext {
            hart,
            progress: _,
            pass,
            log,
            entry: _,
            left: _,
            settings: _,
            plan: _,
            engine: _,
        } = self;
        (hart, pass.into_pass(), log)
    }
}

fn layout_of(settings: &Settings) -> Layout
    ensures { result ≡ layout_of settings.now }
{
    Layout {
        harts: settings.harts,
        ram: settings.ram,
    }
}
