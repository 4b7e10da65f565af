// Where an instruction begins, and its end.
ghost use Rattle.std.specs.Prelude.{◌≡◌, ◌≢◌, ◌+◌, ◌<◌, ◌≤◌, ◌&&◌, ℕ, false, true};
ghost use Rattle.flex_base.specs.Setup.{Setup};
ghost use Rattle.flex_base.specs.State.{State, IsFit};
ghost use Rattle.flex_base.specs.Reservations.{IsOwn};
ghost use Rattle.flex_base.specs.Word.{is_multiple};
ghost use Rattle.flex_base.specs.StoryTree.{Ends};
ghost use Rattle.flex_base.specs.Story.{begins, fetches, fetches_at};
ghost use Rattle.flex_base.specs.Unsplit.{Instruction};
ghost use Rattle.flex_base.specs.declared.event.EndPart.{EndPart};
ghost use Rattle.flex_base.specs.declared.settings.Layout.{Layout};
ghost use Rattle.flex_base.specs.declared.translation.Kind.{Kind};
ghost use Rattle.flex_base.specs.declared.translation.Kind.TheVariants as kind;
ghost use Rattle.hart_story.specs.declared.hart.Hart.{Hart};
ghost use Rattle.hart_story.specs.declared.outcome.Outcome.TheVariants as Outcome;
ghost use Rattle.hart_story.specs.declared.stage.Stage.TheVariants as Stage;
ghost use Rattle.hart_story.specs.Outcome.{IsOf};
ghost use Rattle.hart_story.specs.Progress.{node, left, is_done, IsSoundProgress, IsIn, want_in, IsEnding, EndsWith, own_in, begun};
ghost use Rattle.hart_story.specs.StandsFor.{StandsFor, Shows};
ghost use Rattle.hart_story.specs.Stage.{stage_of, has_begun, is_end_at, left_at, is_over_at, IsSoundStage};
ghost use Rattle.hart_story.specs.Translated.{translated_of, state_after, entries_in, fetch_left, IsSoundTranslated};

use crate::causes::INSTRUCTION_ACCESS_FAULT;
use crate::ending::commit;
use crate::found::Found;
use crate::hart::Hart;
use crate::memory::is_in_ram;
use crate::outcome::Outcome;
use crate::progress::Progress;
use crate::stage::Stage;
use crate::translation::{Translated, translate};
use flex_base::{EndPart, Kind, Layout};

/// Ends the instruction: its results, `pc`, the counts and what its walks have found become the
/// hart's.
pub fn finish(hart: &mut Hart, progress: Progress, layout: &Layout, budget: u64) -> EndPart
    requires { (setup : Setup) × (i : Instruction) × (part : EndPart) × (after : State)
        × IsIn setup i hart.old progress layout.now budget × IsEnding setup i part after }
    ensures ends { (setup : Setup) (i : Instruction) (part : EndPart) (after : State)
        → IsIn setup i hart.old progress layout.now budget → IsEnding setup i part after
        → EndsWith setup (want_in setup i) result hart.new }
    // The reservation that it leaves is the one before, or this instruction's own load-reserved's, or none.
    ensures reservation { (setup : Setup) (i : Instruction) (part : EndPart) (after : State)
        → IsIn setup i hart.old progress layout.now budget → IsEnding setup i part after
        → IsOwn (own_in setup i) hart.new.regs.reservation }
    ensures count { hart.new.regs.ends ≡ hart.old.regs.ends + 1 }
{
    let mut progress = progress;
    finish_in_place(hart, &mut progress, layout, budget)
}

/// Ends the instruction as `finish` does, and the progress is at the beginning of the next one. A
/// progress is not copied for it.
pub fn finish_in_place(
    hart: &mut Hart,
    progress: &mut Progress,
    layout: &Layout,
    budget: u64,
) -> EndPart
    requires { (setup : Setup) × (i : Instruction) × (part : EndPart) × (after : State)
        × IsIn setup i hart.old progress.old layout.now budget × IsEnding setup i part after }
    ensures ends { (setup : Setup) (i : Instruction) (part : EndPart) (after : State)
        → IsIn setup i hart.old progress.old layout.now budget → IsEnding setup i part after
        → EndsWith setup (want_in setup i) result hart.new }
    ensures reservation { (setup : Setup) (i : Instruction) (part : EndPart) (after : State)
        → IsIn setup i hart.old progress.old layout.now budget → IsEnding setup i part after
        → IsOwn (own_in setup i) hart.new.regs.reservation }
    ensures count { hart.new.regs.ends ≡ hart.old.regs.ends + 1 }
    ensures begun { progress.new ≡ begun }
{
    reach_end(hart, progress, layout);
    progress.found.keep_in(&mut hart.kept);
    let part = commit(hart, progress.lines, progress.outcome());
    *progress = Progress::begin();
    part
}

/// Leads a hart at the beginning of an instruction to its fetch, as far as that needs no access; where
/// it retires or makes a pulse first, nothing changes. What the hart needs is the same, but is found
/// without beginning again.
pub fn lead_in(hart: &Hart, progress: &mut Progress, layout: &Layout, budget: u64)
    ensures same { (setup : Setup) (i : Instruction) → IsIn setup i hart.now progress.old layout.now budget
        → IsIn setup i hart.now progress.new layout.now budget }
    ensures no_farther { left progress.new ≤ left progress.old }
    ensures begun { hart.now.regs.ends ≢ budget → hart.now.regs.due ≡ false → has_begun progress.new.stage ≡ true }
{
    if progress.has_begun() {
        return;
    }
    if hart.regs.ends != budget && !hart.regs.due {
        begin(hart, progress, layout, hart.regs.lines);
    }
}

// An instruction may end where it begins: an interrupt is taken, or the fetch is an exception.
fn reach_end(hart: &Hart, progress: &mut Progress, layout: &Layout)
    requires { (setup : Setup) × (i : Instruction) × (part : EndPart) × (after : State) × (budget : ℕ)
        × IsIn setup i hart.now progress.old layout.now budget × IsEnding setup i part after }
    ensures node { (setup : Setup) (i : Instruction) (part : EndPart) (after : State) (budget : ℕ)
        → IsIn setup i hart.now progress.old layout.now budget → IsEnding setup i part after
        → node setup i.state progress.old ≡ node setup i.state progress.new }
    ensures sound { IsSoundProgress layout.now hart.now progress.new }
    ensures end { is_end_at progress.new.stage ≡ true }
{
    if progress.has_begun() {
        return;
    }
    begin(hart, progress, layout, hart.regs.lines);
}

// After its pulse, if it makes one, the instruction begins with these interrupt lines: an interrupt
// that can be taken is, and else the word is fetched.
pub(crate) fn begin(hart: &Hart, progress: &mut Progress, layout: &Layout, lines: u64)
    ensures node { (setup : Setup) (budget : ℕ) (a : State) → IsOf setup layout.now budget → StandsFor hart.now a
        → IsFit setup.harts setup.ram setup.budget a
        → begins setup (record a { lines = lines }) ≡ node setup a progress.new }
    ensures sound { is_multiple hart.now.regs.pc 4 ≡ true → IsSoundProgress layout.now hart.now progress.new }
    ensures nearer { left progress.new < 12 }
    ensures begun { has_begun progress.new.stage ≡ true }
    ensures goes_on { is_done progress.new ≡ false }
{
    progress.lines = lines;
    progress.found.clear();
    match hart.csrs.takeable(lines, hart.regs.mode) {
        Some(cause) => progress.stage = trap(cause, 0),
        None => {
            let came = translate(hart, layout, &progress.found, Kind::Fetch, hart.regs.pc);
            set_fetch_stage(hart, layout, &mut progress.stage, &came);
        }
    }
}

// The fetch by what the translation of pc has come to. The stage is written in place, since it is
// large.
#[inline(always)]
pub(crate) fn set_fetch_stage(hart: &Hart, layout: &Layout, stage: &mut Stage, came: &Translated)
    ensures goes { (setup : Setup) (budget : ℕ) (a : State) → IsOf setup layout.now budget → Shows hart.now a
        → translated_of setup.ram a kind.Fetch a.pc (fetches_at setup) came.now
        ≡ stage_of setup (state_after a came.now) stage.new }
    ensures sound { (count : ℕ) → is_multiple hart.now.regs.pc 4 ≡ true
        → IsSoundTranslated layout.now.ram hart.now.regs.pc came.now
        → (entries_in came.now ≢ 0 → count ≡ 0) → count ≤ 1 → IsSoundStage layout.now hart.now count stage.new }
    ensures nearer { left_at stage.new ≤ fetch_left came.now }
    ensures begun { has_begun stage.new ≡ true }
    ensures goes_on { is_over_at stage.new ≡ false }
{
    match *came {
        Translated::Walks(walk) => *stage = Stage::FetchWalk(walk),
        Translated::To(address) => fetch_at(hart, layout, stage, address),
        Translated::Found(address, _) => fetch_at(hart, layout, stage, address),
        Translated::Fails(cause) => *stage = trap(cause, hart.regs.pc),
    }
}

// The fetch at its physical address, which lies in RAM or is an exception.
#[inline(always)]
fn fetch_at(hart: &Hart, layout: &Layout, stage: &mut Stage, address: u64)
    ensures fetches { (setup : Setup) (budget : ℕ) (a : State) → IsOf setup layout.now budget → Shows hart.now a
        → fetches_at setup a address ≡ stage_of setup a stage.new }
    ensures sound { (count : ℕ) → is_multiple address 4 ≡ true → count ≤ 1
        → IsSoundStage layout.now hart.now count stage.new }
    ensures nearer { left_at stage.new ≤ 6 }
    ensures begun { has_begun stage.new ≡ true }
    ensures goes_on { is_over_at stage.new ≡ false }
{
    if is_in_ram(layout, address, 4) {
        *stage = Stage::Fetch(address);
    } else {
        *stage = trap(INSTRUCTION_ACCESS_FAULT, hart.regs.pc);
    }
}

fn trap(cause: u64, tval: u64) -> Stage
    ensures { result ≡ Stage.Working (Outcome.Trap cause tval) }
{
    Stage::Working(Outcome::Trap { cause, tval })
}
