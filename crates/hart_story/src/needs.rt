// What a hart needs next, by how far it is in its instruction.
ghost use Rattle.std.specs.Prelude.{◌≡◌, ◌≢◌, ◌&&◌, ◌↔◌, ℕ, false, true};
ghost use Rattle.flex_base.specs.Setup.{Setup};
ghost use Rattle.flex_base.specs.State.{State, IsFit};
ghost use Rattle.flex_base.specs.Word.{is_multiple};
ghost use Rattle.flex_base.specs.StoryTree.{Story, want};
ghost use Rattle.flex_base.specs.Story.{story, begins, fetches, fetches_at, is_tick};
ghost use Rattle.flex_base.specs.Unsplit.{Instruction};
ghost use Rattle.flex_base.specs.declared.access.Access.{Access};
ghost use Rattle.flex_base.specs.declared.settings.Layout.{Layout};
ghost use Rattle.flex_base.specs.declared.translation.Kind.{Kind};
ghost use Rattle.hart_story.specs.declared.hart.Hart.{Hart};
ghost use Rattle.hart_story.specs.declared.outcome.Outcome.TheVariants as Outcome;
ghost use Rattle.hart_story.specs.declared.progress.Need.TheVariants as Need;
ghost use Rattle.hart_story.specs.declared.stage.Stage.TheVariants as Stage;
ghost use Rattle.hart_story.specs.Memory.{access_of, asking, device_access_of, asking_device, IsMemoryWork};
ghost use Rattle.hart_story.specs.Need.{need_of, AsksPlaced, NeedsReserved};
ghost use Rattle.hart_story.specs.Outcome.{IsOf, outcome_of, IsSoundOutcome};
ghost use Rattle.hart_story.specs.Progress.{is_done, is_parked, IsIn, want_in};
ghost use Rattle.hart_story.specs.StandsFor.{StandsFor, Shows};
ghost use Rattle.hart_story.specs.Stage.{walking, is_parked_at, IsReading, IsSoundAccess};

use crate::found::Found;
use crate::hart::Hart;
use crate::memory::{access_of, class_of, device_access_of, is_in_ram};
use crate::memory_work::MemoryWork;
use crate::outcome::Outcome;
use crate::progress::{Need, Progress};
use crate::stage::Stage;
use crate::translation::{Translated, translate};
use flex_base::{Access, Class, Kind, Layout};
use sv39::{Walk, WalkStep};

/// What the hart does next, with its class.
#[inline(always)]
pub fn need(hart: &Hart, progress: &Progress, layout: &Layout, budget: u64) -> Need
    ensures told { (setup : Setup) (i : Instruction) → IsIn setup i hart.now progress.now layout.now budget
        → result ≡ need_of (want_in setup i) }
    ensures placed { (setup : Setup) (i : Instruction) → IsIn setup i hart.now progress.now layout.now budget
        → AsksPlaced setup result }
    ensures reserved { (setup : Setup) (i : Instruction) → IsIn setup i hart.now progress.now layout.now budget
        → NeedsReserved i.state result }
    ensures over { result ≡ Need.Over → is_done progress.now ≡ true }
    ensures parked { (result ≡ Need.Parked) ↔ (is_parked progress.now ≡ true) }
{
    match progress.stage {
        Stage::Begun => first_need(hart, layout, budget),
        Stage::FetchWalk(walk) => walk_need(&walk),
        Stage::Fetch(address) => Need::Ask(Access::Fetch { address }, Class::Fetch),
        Stage::AccessWalk(walk, _) => walk_need(&walk),
        Stage::Access(address, work) => access_need(&work, address),
        Stage::Device(address, work) => device_need(&work, address),
        Stage::Working(outcome) => outcome_need(&outcome),
        Stage::Over => Need::Over,
    }
}

// A hart that has spent its budget retires, also where a pulse is due.
fn first_need(hart: &Hart, layout: &Layout, budget: u64) -> Need
    ensures told { (setup : Setup) (a : State) → IsOf setup layout.now budget → StandsFor hart.now a
        → IsFit setup.harts setup.ram setup.budget a → result ≡ need_of (want (story setup a)) }
    ensures placed { (setup : Setup) (a : State) → IsOf setup layout.now budget → StandsFor hart.now a
        → IsFit setup.harts setup.ram setup.budget a → AsksPlaced setup result }
    ensures reserved { (a : State) → NeedsReserved a result }
    ensures goes_on { result ≢ Need.Over }
    ensures unparked { result ≢ Need.Parked }
{
    if hart.regs.ends == budget {
        Need::Ask(Access::Retire, Class::Pulse)
    } else if hart.regs.due {
        let tick = is_tick(hart);
        Need::Ask(Access::Pulse { tick }, Class::Pulse)
    } else {
        begin_need(hart, layout)
    }
}

// An interrupt that can be taken is.
fn begin_need(hart: &Hart, layout: &Layout) -> Need
    ensures told { (setup : Setup) (budget : ℕ) (a : State) → IsOf setup layout.now budget → StandsFor hart.now a
        → IsFit setup.harts setup.ram setup.budget a → result ≡ need_of (want (begins setup a)) }
    ensures placed { (setup : Setup) (budget : ℕ) (a : State) → IsOf setup layout.now budget → StandsFor hart.now a
        → IsFit setup.harts setup.ram setup.budget a → AsksPlaced setup result }
    ensures reserved { (a : State) → NeedsReserved a result }
    ensures goes_on { result ≢ Need.Over }
    ensures unparked { result ≢ Need.Parked }
{
    match hart.csrs.takeable(hart.regs.lines, hart.regs.mode) {
        Some(_) => Need::Finish(Class::Trap),
        None => fetch_need(hart, layout),
    }
}

// Time goes on with a pulse after each 64th end.
fn is_tick(hart: &Hart) -> bool
    ensures { (a : State) → StandsFor hart.now a → result ≡ is_tick a }
{
    hart.regs.ends != 0 && hart.regs.ends % 64 == 0
}

// The fetch, as far as its translation comes without a read of memory.
fn fetch_need(hart: &Hart, layout: &Layout) -> Need
    ensures told { (setup : Setup) (budget : ℕ) (a : State) → IsOf setup layout.now budget → StandsFor hart.now a
        → IsFit setup.harts setup.ram setup.budget a → result ≡ need_of (want (fetches setup a)) }
    ensures placed { (setup : Setup) (budget : ℕ) (a : State) → IsOf setup layout.now budget → StandsFor hart.now a
        → IsFit setup.harts setup.ram setup.budget a → AsksPlaced setup result }
    ensures reserved { (a : State) → NeedsReserved a result }
    ensures goes_on { result ≢ Need.Over }
    ensures unparked { result ≢ Need.Parked }
{
    let came = translate(hart, layout, &Found::none(), Kind::Fetch, hart.regs.pc);
    match came {
        Translated::Walks(walk) => walk_need(&walk),
        Translated::To(address) => fetch_need_at(layout, address),
        Translated::Found(address, _) => fetch_need_at(layout, address),
        Translated::Fails(_) => Need::Finish(Class::Trap),
    }
}

fn fetch_need_at(layout: &Layout, address: u64) -> Need
    ensures told { (setup : Setup) (budget : ℕ) (a : State) → IsOf setup layout.now budget
        → result ≡ need_of (want (fetches_at setup a address)) }
    ensures placed { (setup : Setup) (budget : ℕ) → IsOf setup layout.now budget → is_multiple address 4 ≡ true
        → AsksPlaced setup result }
    ensures reserved { (a : State) → NeedsReserved a result }
    ensures goes_on { result ≢ Need.Over }
    ensures unparked { result ≢ Need.Parked }
{
    if is_in_ram(layout, address, 4) {
        Need::Ask(Access::Fetch { address }, Class::Fetch)
    } else {
        Need::Finish(Class::Trap)
    }
}

// A walk asks for its next entry.
fn walk_need(walk: &Walk) -> Need
    ensures told { (ram : ℕ) (a : State) (k : Kind) (va : ℕ) (next : State → ℕ → Story) → IsReading ram walk.now
        → result ≡ need_of (want (walking ram a k va next walk.now)) }
    ensures placed { (setup : Setup) → IsReading setup.ram walk.now → AsksPlaced setup result }
    ensures reserved { (a : State) → NeedsReserved a result }
    ensures goes_on { result ≢ Need.Over }
    ensures unparked { result ≢ Need.Parked }
{
    match walk.next() {
        WalkStep::Need(address) => Need::Ask(Access::Pte { address }, Class::Walk),
        _ => Need::Finish(Class::Trap),
    }
}

fn access_need(work: &MemoryWork, address: u64) -> Need
    ensures told { (a : State) → IsMemoryWork work.now → result ≡ need_of (want (asking work.now a address)) }
    ensures placed { (setup : Setup) (budget : ℕ) (layout : Layout) (hart : Hart) → IsOf setup layout budget
        → IsSoundAccess layout hart work.now (access_of work.now address) → AsksPlaced setup result }
    ensures reserved { (layout : Layout) (hart : Hart) (a : State) → Shows hart a
        → IsSoundAccess layout hart work.now (access_of work.now address) → NeedsReserved a result }
    ensures goes_on { result ≢ Need.Over }
    ensures unparked { result ≢ Need.Parked }
{
    Need::Ask(access_of(work, address), class_of(work.op))
}

fn device_need(work: &MemoryWork, address: u64) -> Need
    ensures told { (a : State) → IsMemoryWork work.now → result ≡ need_of (want (asking_device work.now a address)) }
    ensures placed { (setup : Setup) (budget : ℕ) (layout : Layout) (hart : Hart) → IsOf setup layout budget
        → IsSoundAccess layout hart work.now (device_access_of work.now address) → AsksPlaced setup result }
    ensures reserved { (layout : Layout) (hart : Hart) (a : State) → Shows hart a
        → IsSoundAccess layout hart work.now (device_access_of work.now address) → NeedsReserved a result }
    ensures goes_on { result ≢ Need.Over }
    ensures unparked { result ≢ Need.Parked }
{
    Need::Ask(device_access_of(work, address), Class::Device)
}

fn outcome_need(outcome: &Outcome) -> Need
    ensures told { (a : State) → result ≡ need_of (want (outcome_of a outcome.now)) }
    ensures placed { (setup : Setup) (budget : ℕ) (layout : Layout) (hart : Hart) → IsOf setup layout budget
        → IsSoundOutcome layout hart outcome.now → AsksPlaced setup result }
    ensures reserved { (layout : Layout) (hart : Hart) (a : State) → Shows hart a
        → IsSoundOutcome layout hart outcome.now → NeedsReserved a result }
    ensures goes_on { result ≢ Need.Over }
    ensures parked { (result ≡ Need.Parked) ↔ (is_parked_at (Stage.Working outcome.now) ≡ true) }
{
    match *outcome {
        Outcome::End(end) => Need::Finish(end.class),
        Outcome::Trap { .. } => Need::Finish(Class::Trap),
        Outcome::AskPending { .. } => Need::Ask(Access::Pulse { tick: false }, Class::Pulse),
        Outcome::AskTime { .. } => Need::Ask(Access::Time, Class::Csr),
        Outcome::WriteCsr { .. } => Need::Finish(Class::Csr),
        Outcome::Mret | Outcome::Sret | Outcome::FenceMemory => Need::Finish(Class::System),
        Outcome::WaitPulse => Need::Ask(Access::Pulse { tick: false }, Class::Pulse),
        Outcome::Wait { mie } => Need::Ask(Access::Wait { mie }, Class::Pulse),
        Outcome::Parked => Need::Parked,
    }
}
