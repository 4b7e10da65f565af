// Playing one instruction of a hart with the replies that are handed in.
ghost use Rattle.std.specs.Prelude.{◌≡◌, ◌*◌, ◌^◌, ◌<◌, true};
ghost use Rattle.hart_story.specs.CanBegin.{CanBegin};
ghost use Rattle.flex_base.specs.Forms.{HasForm, TellsValue, TellsLines};
ghost use Rattle.flex_base.specs.Setup.{Setup};
ghost use Rattle.flex_base.specs.State.{State, IsFit, IsReservation};
ghost use Rattle.flex_base.specs.Translation.{AreLeaves};
ghost use Rattle.flex_base.specs.Unsplit.{Instruction};
ghost use Rattle.hart_story.specs.Progress.{IsIn};
ghost use Rattle.hart_story.specs.StandsFor.{StandsFor};

use super::{BUDGET, layout};
use crate::{Hart, Need, Progress, finish, give, need};
use flex_base::{Access, EndPart, Layout, Place, Reply};
use std::process::Abort;

// Makes the hart's next instruction with these replies to its accesses, of which it makes as many.
pub(super) fn play(rt: &impl Abort, hart: &mut Hart, replies: &[Reply]) -> EndPart
    requires { CanBegin 4 hart.old }
    ensures { CanBegin 4 hart.new }
{
    let layout = layout();
    let mut progress = begin(rt, hart, &layout, BUDGET);
    'replies: for reply in replies {
        answer(rt, hart, &mut progress, &layout, BUDGET, *reply);
    }
    end(rt, hart, progress, &layout, BUDGET)
}

// The beginning of an instruction, in 1 MiB of RAM.
pub(super) fn begin(rt: &impl Abort, hart: &Hart, layout: &Layout, budget: u64) -> Progress
    requires fit { CanBegin 4 hart.now }
    requires layout { layout.now ≡ record { harts = 4; ram = 1048576 } }
    ensures { (setup : Setup) × (i : Instruction) × IsIn setup i hart.now result layout.now budget }
{
    assert_fit(rt, hart, budget);
    Progress::begin()
}

// Goes on with the reply to the access that the hart asks, or to the pulse of a parked one.
pub(super) fn answer(
    rt: &impl Abort,
    hart: &Hart,
    progress: &mut Progress,
    layout: &Layout,
    budget: u64,
    reply: Reply,
)
    requires { (setup : Setup) × (i : Instruction) × IsIn setup i hart.now progress.old layout.now budget }
    ensures { (setup : Setup) × (i : Instruction) × IsIn setup i hart.now progress.new layout.now budget }
{
    match need(hart, progress, layout, budget) {
        Need::Ask(access, _) => {
            assert_form(rt, &access, reply);
            give(hart, progress, layout, budget, reply);
        }
        Need::Parked => {
            assert_lines(rt, reply);
            give(hart, progress, layout, budget, reply);
        }
        _ => rt.abort(),
    }
}

// Goes on with these values, where the hart needs these accesses in turn.
pub(super) fn go_through(
    rt: &impl Abort,
    hart: &Hart,
    progress: &mut Progress,
    layout: &Layout,
    accesses: &[(Need, u64)],
)
    requires { (setup : Setup) × (i : Instruction) × IsIn setup i hart.now progress.old layout.now 100 }
    ensures { (setup : Setup) × (i : Instruction) × IsIn setup i hart.now progress.new layout.now 100 }
{
    'accesses: for &(needed, value) in accesses {
        assert_eq!(rt; need(hart, progress, layout, BUDGET), needed);
        answer(rt, hart, progress, layout, BUDGET, Reply::with_value(value));
    }
}

// Ends the instruction.
pub(super) fn end(
    rt: &impl Abort,
    hart: &mut Hart,
    progress: Progress,
    layout: &Layout,
    budget: u64,
) -> EndPart
    requires { (setup : Setup) × (i : Instruction) × IsIn setup i hart.old progress layout.now budget }
    ensures { CanBegin layout.now.harts hart.new }
{
    match need(hart, &progress, layout, budget) {
        Need::Finish(class) => {
            let part = finish(hart, progress, layout, budget);
            assert_eq!(rt; part.class, class);
            part
        }
        _ => rt.abort(),
    }
}

fn assert_fit(rt: &impl Abort, hart: &Hart, budget: u64)
    requires { CanBegin 4 hart.now }
    ensures { (a : State) → StandsFor hart.now a → AreLeaves a.leaves → IsFit 4 1048576 budget a }
{
    assert!(rt; hart.regs.pc % 4 == 0);
    assert!(rt; hart.regs.ends <= budget);
    assert!(rt; is_reservation(hart.regs.reservation));
}

// Whether this is a reservation of 8 aligned bytes of RAM.
fn is_reservation(reservation: Option<u64>) -> bool
    ensures { result ≡ true → IsReservation 1048576 reservation }
{
    match reservation {
        None => true,
        Some(address) => address % 8 == 0 && matches!(layout().place(address, 8), Place::Ram),
    }
}

// Stops where the access can't have this reply.
fn assert_form(rt: &impl Abort, access: &Access, reply: Reply)
    ensures { HasForm access.now reply }
{
    match *access {
        Access::Fetch { .. } => assert_value(rt, 4, reply),
        Access::Read { width, .. }
        | Access::Lr { width, .. }
        | Access::Amo { width, .. }
        | Access::DevRead { width, .. } => assert_value(rt, width, reply),
        Access::Write { .. } | Access::DevWrite { .. } | Access::Retire => assert!(rt;
            reply == Reply::with_value(0)
        ),
        Access::Sc { .. } => {
            assert_value(rt, 1, reply);
            assert!(rt; reply.value < 2);
        }
        Access::Pte { .. } | Access::Time => assert_value(rt, 8, reply),
        Access::Pulse { .. } | Access::Wait { .. } => assert_lines(rt, reply),
    }
}

// Stops where the reply isn't a value of so many bytes.
fn assert_value(rt: &impl Abort, width: u8, reply: Reply)
    ensures { TellsValue (8 * width) reply }
{
    assert!(rt; fits(width, reply.value));
    assert_eq!(rt; reply.lines, 0);
    assert!(rt; !reply.stop);
}

fn assert_lines(rt: &impl Abort, reply: Reply)
    ensures { TellsLines reply }
{
    assert!(rt; reply.value < 2);
}

// Whether so many bytes hold the value.
fn fits(width: u8, value: u64) -> bool
    ensures { result ≡ true → value < 2 ^ (8 * width) }
{
    match width {
        1 => value < 0x100,
        2 => value < 0x1_0000,
        4 => value < 0x1_0000_0000,
        8 => true,
        _ => false,
    }
}
