// Privileged instructions (Volume II, "Machine-Mode Privileged Instructions", "Supervisor
// Instructions").
ghost use Rattle.std.specs.Prelude.{◌≡◌, ◌<◌, if◌then◌else◌};
ghost use Rattle.flex_base.specs.State.{State};
ghost use Rattle.flex_base.specs.Csrs.{TSR, TW, TVM};
ghost use Rattle.flex_base.specs.Causes.{illegal_instruction, breakpoint, ecall_from};
ghost use Rattle.flex_base.specs.Traps.{mret, sret};
ghost use Rattle.flex_base.specs.Ends.{traps, traps_illegal, returns};
ghost use Rattle.flex_base.specs.Story.{supervises, is_machine, fences_memory, has_pending, waits};
ghost use Rattle.flex_base.specs.declared.settings.Layout.{Layout};
ghost use Rattle.hart_story.specs.StandsFor.{Shows};
ghost use Rattle.hart_story.specs.Outcome.{ComesAs, IsSoundOutcome};

use crate::causes::{BREAKPOINT, ECALL_FROM_M, ECALL_FROM_S, ECALL_FROM_U, ILLEGAL_INSTRUCTION};
use crate::hart::Hart;
use crate::outcome::Outcome;
use flex_base::Mode;

// Bits of mstatus that keep S from an instruction (Volume II, "Virtualization Support in mstatus
// Register").
const TVM: u32 = 20;

const TW: u32 = 21;

const TSR: u32 = 22;

pub(crate) fn illegal(word: u32) -> Outcome
    ensures { result ≡ Outcome.Trap illegal_instruction word }
{
    Outcome::Trap {
        cause: ILLEGAL_INSTRUCTION,
        tval: word as u64,
    }
}

pub(crate) fn ecall(hart: &Hart) -> Outcome
    ensures works { ComesAs hart.now (λ a. traps a (ecall_from a.mode) 0) result }
    ensures sound { (layout : Layout) → IsSoundOutcome layout hart.now result }
{
    let cause = match hart.regs.mode {
        Mode::U => ECALL_FROM_U,
        Mode::S => ECALL_FROM_S,
        Mode::M => ECALL_FROM_M,
    };
    Outcome::Trap { cause, tval: 0 }
}

pub(crate) fn ebreak() -> Outcome
    ensures { result ≡ Outcome.Trap breakpoint 0 }
{
    Outcome::Trap {
        cause: BREAKPOINT,
        tval: 0,
    }
}

pub(crate) fn mret(hart: &Hart, word: u32) -> Outcome
    ensures works { ComesAs hart.now
        (λ a. if is_machine a.mode then returns a (mret a.csrs) else traps_illegal a word) result }
    ensures sound { (layout : Layout) → IsSoundOutcome layout hart.now result }
{
    match hart.regs.mode {
        Mode::M => Outcome::Mret,
        _ => illegal(word),
    }
}

pub(crate) fn sret(hart: &Hart, word: u32) -> Outcome
    ensures works { ComesAs hart.now
        (λ a. if supervises TSR a.csrs a.mode then returns a (sret a.csrs) else traps_illegal a word) result }
    ensures sound { (layout : Layout) → IsSoundOutcome layout hart.now result }
{
    if supervises(hart, TSR) {
        Outcome::Sret
    } else {
        illegal(word)
    }
}

pub(crate) fn wfi(hart: &Hart, word: u32) -> Outcome
    ensures works { ComesAs hart.now
        (λ a. if supervises TW a.csrs a.mode then waits a else traps_illegal a word) result }
    ensures sound { (layout : Layout) → IsSoundOutcome layout hart.now result }
{
    if supervises(hart, TW) {
        wait(hart)
    } else {
        illegal(word)
    }
}

// Where an interrupt is pending there is nothing to wait for.
fn wait(hart: &Hart) -> Outcome
    ensures works { ComesAs hart.now (λ a. waits a) result }
    ensures sound { (layout : Layout) → IsSoundOutcome layout hart.now result }
{
    if has_pending(hart) {
        Outcome::WaitPulse
    } else {
        Outcome::Wait {
            mie: hart.csrs.mie(),
        }
    }
}

// Whether an interrupt is pending and enabled by the software bits of mip; what the devices have
// pending comes with the reply.
fn has_pending(hart: &Hart) -> bool
    ensures { (a : State) → Shows hart.now a → result ≡ has_pending a.csrs }
{
    hart.csrs.mip() & hart.csrs.mie() != 0
}

pub(crate) fn sfence_vma(hart: &Hart, word: u32) -> Outcome
    ensures works { ComesAs hart.now
        (λ a. if supervises TVM a.csrs a.mode then fences_memory a else traps_illegal a word) result }
    ensures sound { (layout : Layout) → IsSoundOutcome layout hart.now result }
{
    if supervises(hart, TVM) {
        Outcome::FenceMemory
    } else {
        illegal(word)
    }
}

// Whether the hart may make an instruction of supervisors that this bit of mstatus keeps from S.
fn supervises(hart: &Hart, bit: u32) -> bool
    requires { bit < 64 }
    ensures { (a : State) → Shows hart.now a → result ≡ supervises bit a.csrs a.mode }
{
    match hart.regs.mode {
        Mode::M => true,
        Mode::S => hart.csrs.mstatus() >> bit & 1 == 0,
        Mode::U => false,
    }
}
