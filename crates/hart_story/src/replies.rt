// How a hart goes on with the reply to an access of its instruction.
ghost use Rattle.std.specs.Prelude.{◌≡◌, ◌≢◌, ◌+◌, ◌^◌, ◌<◌, ◌≤◌, ◌&&◌, [], ◌∷◌, ◌++◌, ℕ, false, true};
ghost use Rattle.flex_base.specs.Setup.{Setup};
ghost use Rattle.flex_base.specs.State.{State, IsFit};
ghost use Rattle.flex_base.specs.Reservations.{asked};
ghost use Rattle.flex_base.specs.Translation.{AreLeaves};
ghost use Rattle.flex_base.specs.Word.{is_multiple};
ghost use Rattle.flex_base.specs.StoryTree.{Ends, Story, after_one};
ghost use Rattle.flex_base.specs.Story.{story, begins, after_pulse, after_wait, after_wait_pulse, ends_wait};
ghost use Rattle.flex_base.specs.Forms.{HasForm};
ghost use Rattle.flex_base.specs.Unsplit.{Instruction};
ghost use Rattle.flex_base.specs.declared.access.Access.{Access};
ghost use Rattle.flex_base.specs.declared.settings.Layout.{Layout};
ghost use Rattle.flex_base.specs.declared.translation.Kind.{Kind};
ghost use Rattle.flex_base.specs.declared.translation.Kind.TheVariants as kind;
ghost use Rattle.sv39.specs.IsAfter.{entries_left};
ghost use Rattle.hart_story.specs.declared.hart.Hart.{Hart};
ghost use Rattle.hart_story.specs.declared.outcome.Outcome.TheVariants as Outcome;
ghost use Rattle.hart_story.specs.declared.stage.Stage.TheVariants as Stage;
ghost use Rattle.hart_story.specs.Found.{leaves_of, state_at};
ghost use Rattle.hart_story.specs.Outcome.{IsOf, outcome_of, IsSoundOutcome};
ghost use Rattle.hart_story.specs.Progress.{node, left, is_done, is_parked, IsSoundProgress, IsHere, IsIn, IsAsking, leaves_over, begun};
ghost use Rattle.hart_story.specs.StandsFor.{StandsFor, Shows};
ghost use Rattle.hart_story.specs.Stage.{has_begun, walking, left_at, is_walk_at, is_fetch_at, is_access_at, is_parked_at, tells_stop, IsReading, IsSoundStage};
ghost use Rattle.hart_story.specs.Translated.{translated_of, entries_in, IsSoundTranslated};

use crate::csr::{csr_value, update_csr};
use crate::ends::end_without;
use crate::hart::Hart;
use crate::memory::{kind_of, set_access_stage};
use crate::outcome::Outcome;
use crate::progress::Progress;
use crate::reply::{end_by_device, end_by_reply};
use crate::stage::Stage;
use crate::story::{begin, set_fetch_stage};
use crate::translation::{Translated, arrive};
use crate::work::work;
use flex_base::{Access, Class, Kind, Layout, Reply};
use sv39::Walk;

/// Goes on with the reply to the access that `need` asks. A parked hart goes on with the reply to a
/// pulse, which one of value 1 leaves parked.
pub fn give(hart: &Hart, progress: &mut Progress, layout: &Layout, budget: u64, reply: Reply)
    requires { (setup : Setup) × (i : Instruction) × (access : Access)
        × IsIn setup i hart.now progress.old layout.now budget × IsAsking setup i access × HasForm access reply }
    ensures reached { (setup : Setup) (i : Instruction) (access : Access)
        → IsIn setup i hart.now progress.old layout.now budget → IsAsking setup i access
        → IsIn setup (record i { replies = i.replies ++ reply ∷ [] }) hart.now progress.new layout.now budget }
    ensures nearer { is_parked progress.old ≡ false → left progress.new < left progress.old }
    ensures woken { reply.value ≢ 1 → left progress.new < left progress.old }
    ensures over { (setup : Setup) (i : Instruction) (access : Access)
        → IsIn setup i hart.now progress.old layout.now budget → IsAsking setup i access → HasForm access reply
        → is_done progress.new ≡ leaves_over access reply }
{
    if progress.has_begun() {
        go_on(hart, progress, layout, reply);
    } else {
        after_first(hart, progress, layout, budget, reply);
    }
}

// Goes on with the reply to the first access of the instruction.
fn after_first(hart: &Hart, progress: &mut Progress, layout: &Layout, budget: u64, reply: Reply)
    requires { (setup : Setup) × (a : State) × (access : Access) × IsHere setup a hart.now progress.old layout.now budget
        × (asked (story setup a) ≡ access ∷ []) × HasForm access reply }
    ensures node { (setup : Setup) (a : State) (access : Access) → IsHere setup a hart.now progress.old layout.now budget
        → asked (story setup a) ≡ access ∷ [] → after_one (story setup a) reply ≡ node setup a progress.new }
    ensures sound { IsSoundProgress layout.now hart.now progress.new }
    ensures nearer { left progress.new < 12 }
    ensures over { (setup : Setup) (a : State) (access : Access) → IsHere setup a hart.now progress.old layout.now budget
        → asked (story setup a) ≡ access ∷ [] → HasForm access reply
        → is_done progress.new ≡ leaves_over access reply }
{
    if hart.regs.ends == budget {
        progress.stage = Stage::Over;
        return;
    }
    if hart.regs.due {
        after_pulse(hart, progress, layout, reply);
        return;
    }
    begin(hart, progress, layout, hart.regs.lines);
    go_on(hart, progress, layout, reply);
}

// A pulse tells the interrupt lines, with which the instruction then begins, or that the run is to
// stop.
fn after_pulse(hart: &Hart, progress: &mut Progress, layout: &Layout, reply: Reply)
    ensures node { (setup : Setup) (budget : ℕ) (a : State) → IsOf setup layout.now budget → StandsFor hart.now a
        → IsFit setup.harts setup.ram setup.budget a → after_pulse setup a reply ≡ node setup a progress.new }
    ensures sound { is_multiple hart.now.regs.pc 4 ≡ true → AreLeaves (leaves_of progress.old.found)
        → IsSoundProgress layout.now hart.now progress.new }
    ensures nearer { left progress.new < 12 }
    ensures over { is_done progress.new ≡ reply.stop }
{
    if reply.stop {
        progress.stage = Stage::Over;
    } else {
        begin(hart, progress, layout, reply.lines);
    }
}

// Goes on with a reply in the middle of the instruction.
fn go_on(hart: &Hart, progress: &mut Progress, layout: &Layout, reply: Reply)
    requires here { (setup : Setup) × (a : State) × (access : Access) × (budget : ℕ)
        × IsHere setup a hart.now progress.old layout.now budget
        × (asked (node setup a progress.old) ≡ access ∷ []) × HasForm access reply }
    requires begun { has_begun progress.old.stage ≡ true }
    ensures node { (setup : Setup) (a : State) (access : Access) (budget : ℕ)
        → IsHere setup a hart.now progress.old layout.now budget → asked (node setup a progress.old) ≡ access ∷ []
        → after_one (node setup a progress.old) reply ≡ node setup a progress.new }
    ensures sound { IsSoundProgress layout.now hart.now progress.new }
    ensures nearer { is_parked progress.old ≡ false → left progress.new < left progress.old }
    ensures woken { reply.value ≢ 1 → left progress.new < left progress.old }
    ensures no_farther { left progress.new ≤ left progress.old }
    ensures over { is_done progress.new ≡ (tells_stop progress.old.stage && reply.stop) }
{
    match progress.stage {
        Stage::FetchWalk(_) => after_read(hart, progress, layout, reply),
        Stage::Fetch(_) => after_fetch(hart, progress, layout, reply),
        Stage::AccessWalk(_, _) => after_read(hart, progress, layout, reply),
        Stage::Access(_, _) => after_access(hart, progress, layout, reply),
        Stage::Device(_, _) => after_access(hart, progress, layout, reply),
        Stage::Working(outcome) => after_outcome(hart, progress, outcome, reply),
        Stage::Begun => unreachable!(),
        Stage::Over => unreachable!(),
    }
}

// Goes on with the entry that a walk reads.
#[inline(never)]
fn after_read(hart: &Hart, progress: &mut Progress, layout: &Layout, reply: Reply)
    requires here { (setup : Setup) × (a : State) × (budget : ℕ) × IsHere setup a hart.now progress.old layout.now budget }
    requires walk { is_walk_at progress.old.stage ≡ true }
    ensures node { (setup : Setup) (a : State) (budget : ℕ) → IsHere setup a hart.now progress.old layout.now budget
        → after_one (node setup a progress.old) reply ≡ node setup a progress.new }
    ensures sound { IsSoundProgress layout.now hart.now progress.new }
    ensures nearer { left progress.new < left progress.old }
    ensures goes_on { is_done progress.new ≡ false }
{
    match progress.stage {
        Stage::FetchWalk(walk) => {
            let came = after_entry(hart, layout, Kind::Fetch, hart.regs.pc, walk, reply);
            progress.found.note(&came);
            set_fetch_stage(hart, layout, &mut progress.stage, &came);
        }
        Stage::AccessWalk(walk, work) => {
            let kind = kind_of(work.op);
            let came = after_entry(hart, layout, kind, work.address, walk, reply);
            progress.found.note(&came);
            set_access_stage(hart, layout, &mut progress.stage, work, &came);
        }
        _ => unreachable!(),
    }
}

// What the walk comes to by the entry that it needed.
#[inline(never)]
fn after_entry(
    hart: &Hart,
    layout: &Layout,
    kind: Kind,
    va: u64,
    walk: Walk,
    reply: Reply,
) -> Translated
    requires { IsReading layout.now.ram walk }
    ensures arrives { (setup : Setup) (budget : ℕ) (a : State) (next : State → ℕ → Story) → IsOf setup layout.now budget
        → Shows hart.now a → after_one (walking setup.ram a kind va next walk) reply
        ≡ translated_of setup.ram a kind va next result }
    ensures nearer { entries_in result ≢ 0 → entries_in result < entries_left walk }
    ensures sound { IsSoundTranslated layout.now.ram va result }
{
    let mut walk = walk;
    walk.give(reply.value);
    arrive(hart, layout, kind, va, walk)
}

// Goes on with the word that is fetched.
#[inline(never)]
fn after_fetch(hart: &Hart, progress: &mut Progress, layout: &Layout, reply: Reply)
    requires here { (setup : Setup) × (a : State) × (budget : ℕ) × IsHere setup a hart.now progress.old layout.now budget }
    requires fetch { is_fetch_at progress.old.stage ≡ true }
    requires word { reply.value < 2 ^ 32 }
    ensures node { (setup : Setup) (a : State) (budget : ℕ) → IsHere setup a hart.now progress.old layout.now budget
        → after_one (node setup a progress.old) reply ≡ node setup a progress.new }
    ensures sound { IsSoundProgress layout.now hart.now progress.new }
    ensures nearer { left progress.new < left progress.old }
    ensures goes_on { is_done progress.new ≡ false }
{
    match progress.stage {
        Stage::Fetch(_) => {
            work(
                hart,
                layout,
                &progress.found,
                &mut progress.stage,
                reply.value as u32,
            );
        }
        _ => unreachable!(),
    }
}

// Ends the instruction by the reply to its access of RAM or of a device register.
#[inline(never)]
fn after_access(hart: &Hart, progress: &mut Progress, layout: &Layout, reply: Reply)
    requires here { (setup : Setup) × (a : State) × (budget : ℕ) × IsHere setup a hart.now progress.old layout.now budget }
    requires access { is_access_at progress.old.stage ≡ true }
    ensures node { (setup : Setup) (a : State) (budget : ℕ) → IsHere setup a hart.now progress.old layout.now budget
        → after_one (node setup a progress.old) reply ≡ node setup a progress.new }
    ensures sound { IsSoundProgress layout.now hart.now progress.new }
    ensures nearer { left progress.new < left progress.old }
    ensures goes_on { is_done progress.new ≡ false }
{
    match progress.stage {
        Stage::Access(address, work) => {
            let end = end_by_reply(hart, &work, address, reply.value);
            progress.stage = Stage::Working(Outcome::End(end));
        }
        Stage::Device(_, work) => {
            let end = end_by_device(hart, &work, reply.value);
            progress.stage = Stage::Working(Outcome::End(end));
        }
        _ => unreachable!(),
    }
}

// After the access that the instruction has come to.
#[inline(never)]
fn after_outcome(hart: &Hart, progress: &mut Progress, outcome: Outcome, reply: Reply)
    requires stage { progress.old.stage ≡ Stage.Working outcome }
    requires asks { left_at (Stage.Working outcome) ≢ 0 }
    requires sound { (layout : Layout) × IsSoundOutcome layout hart.now outcome }
    ensures node { (setup : Setup) (a : State) → StandsFor hart.now a
        → after_one (outcome_of (state_at a progress.old.lines progress.old.found) outcome) reply ≡ node setup a progress.new }
    ensures sound { (layout : Layout) (count : ℕ) → IsSoundStage layout hart.now count progress.new.stage }
    ensures found { progress.new.found ≡ progress.old.found }
    ensures nearer { is_parked_at (Stage.Working outcome) ≡ false → left progress.new < left_at (Stage.Working outcome) }
    ensures woken { reply.value ≢ 1 → left progress.new < left_at (Stage.Working outcome) }
    ensures no_farther { left progress.new ≤ left_at (Stage.Working outcome) }
    ensures over { is_done progress.new ≡ (tells_stop (Stage.Working outcome) && reply.stop) }
{
    match outcome {
        Outcome::AskPending {
            op,
            rd,
            rs1,
            number,
        } => {
            if reply.stop {
                progress.stage = Stage::Over;
            } else {
                let old = csr_value(hart, number, reply.lines, 0);
                progress.lines = reply.lines;
                progress.stage = Stage::Working(update_csr(hart, op, rd, rs1, number, old));
            }
        }
        Outcome::AskTime {
            op,
            rd,
            rs1,
            number,
        } => {
            let old = csr_value(hart, number, 0, reply.value);
            progress.stage = Stage::Working(update_csr(hart, op, rd, rs1, number, old));
        }
        Outcome::WaitPulse => after_wait_pulse(hart, progress, reply),
        Outcome::Wait { .. } => after_wait(hart, progress, reply),
        Outcome::Parked => after_wait(hart, progress, reply),
        _ => unreachable!(),
    }
}

// After the pulse of a WFI that has nothing to wait for.
fn after_wait_pulse(hart: &Hart, progress: &mut Progress, reply: Reply)
    ensures node { (setup : Setup) (a : State) → StandsFor hart.now a
        → after_wait_pulse (state_at a progress.old.lines progress.old.found) reply ≡ node setup a progress.new }
    ensures sound { (layout : Layout) (count : ℕ) → IsSoundStage layout hart.now count progress.new.stage }
    ensures found { progress.new.found ≡ progress.old.found }
    ensures last { left progress.new ≡ 0 }
    ensures over { is_done progress.new ≡ reply.stop }
{
    if reply.stop {
        progress.stage = Stage::Over;
    } else {
        end_wait(hart, progress, reply.lines);
    }
}

// After a wait, or a pulse of a parked hart: a reply of value 1 tells that the hart still waits.
fn after_wait(hart: &Hart, progress: &mut Progress, reply: Reply)
    ensures node { (setup : Setup) (a : State) → StandsFor hart.now a
        → after_wait (state_at a progress.old.lines progress.old.found) reply ≡ node setup a progress.new }
    ensures sound { (layout : Layout) (count : ℕ) → IsSoundStage layout hart.now count progress.new.stage }
    ensures found { progress.new.found ≡ progress.old.found }
    ensures woken { reply.value ≢ 1 → left progress.new ≡ 0 }
    ensures no_farther { left progress.new ≤ 1 }
    ensures over { is_done progress.new ≡ reply.stop }
{
    if reply.stop {
        progress.stage = Stage::Over;
    } else if reply.value == 1 {
        progress.stage = Stage::Working(Outcome::Parked);
    } else {
        end_wait(hart, progress, reply.lines);
    }
}

// A WFI ends, with these interrupt lines from then on.
fn end_wait(hart: &Hart, progress: &mut Progress, lines: u64)
    ensures node { (setup : Setup) (a : State) → StandsFor hart.now a
        → ends_wait (state_at a progress.old.lines progress.old.found) lines ≡ node setup a progress.new }
    ensures sound { (layout : Layout) (count : ℕ) → IsSoundStage layout hart.now count progress.new.stage }
    ensures found { progress.new.found ≡ progress.old.found }
    ensures last { left progress.new ≡ 0 }
    ensures goes_on { is_done progress.new ≡ false }
{
    progress.lines = lines;
    progress.stage = Stage::Working(Outcome::End(end_without(hart, Class::System)));
}
