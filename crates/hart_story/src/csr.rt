// CSR instructions (Volume I, "Zicsr").
ghost use Rattle.std.specs.Prelude.{◌≡◌, ◌<◌};
ghost use Rattle.flex_base.specs.State.{State};
ghost use Rattle.flex_base.specs.Zicsr.{reads_csr, writes_csr, csr_operand, csr_result, may_use_csr, is_pending_csr, csr_value, makes_due, turns_satp};
ghost use Rattle.flex_base.specs.Story.{uses_csr, updates_csr};
ghost use Rattle.flex_base.specs.declared.settings.Layout.{Layout};
ghost use Rattle.hart_story.specs.StandsFor.{Shows};
ghost use Rattle.hart_story.specs.Outcome.{ComesAs, IsSoundOutcome};
ghost use Rattle.hart_story.specs.Stage.{left_at};
ghost use Rattle.hart_story.specs.declared.stage.Stage.TheVariants as Stage;

use crate::ends::end_with;
use crate::hart::{Hart, read};
use crate::outcome::Outcome;
use crate::system::illegal;
use flex_base::{Class, CsrOp};

// Numbers of registers (Volume II, "CSR Listing").
const CSR_SSTATUS: u16 = 0x100;

const CSR_SIE: u16 = 0x104;

const CSR_SIP: u16 = 0x144;

const CSR_SATP: u16 = 0x180;

const CSR_MSTATUS: u16 = 0x300;

const CSR_MIDELEG: u16 = 0x303;

const CSR_MIE: u16 = 0x304;

const CSR_MIP: u16 = 0x344;

pub(crate) const CSR_MCYCLE: u16 = 0xb00;

pub(crate) const CSR_MINSTRET: u16 = 0xb02;

const CSR_TIME: u16 = 0xc01;

// The MODEs of satp: none, and Sv39.
const BARE: u64 = 0;

const SV39: u64 = 8;

// A CSR instruction, which is tested whole before anything happens.
pub(crate) fn use_csr(hart: &Hart, word: u32, op: CsrOp, rd: u8, rs1: u8, number: u16) -> Outcome
    requires rd { rd < 32 }
    requires rs1 { rs1 < 32 }
    ensures works { ComesAs hart.now (λ a. uses_csr a word op rd rs1 number) result }
    ensures sound { (layout : Layout) → IsSoundOutcome layout hart.now result }
{
    if !may_use(hart, op, rd, rs1, number) {
        return illegal(word);
    }
    if !reads(op, rd) {
        return update_csr(hart, op, rd, rs1, number, 0);
    }
    if is_pending_csr(number) {
        return Outcome::AskPending {
            op,
            rd,
            rs1,
            number,
        };
    }
    if number == CSR_TIME {
        return Outcome::AskTime {
            op,
            rd,
            rs1,
            number,
        };
    }
    update_csr(hart, op, rd, rs1, number, csr_value(hart, number, 0, 0))
}

// What follows once the instruction has the old value, which is 0 where it doesn't read.
pub(crate) fn update_csr(hart: &Hart, op: CsrOp, rd: u8, rs1: u8, number: u16, old: u64) -> Outcome
    requires rd { rd < 32 }
    requires rs1 { rs1 < 32 }
    ensures works { ComesAs hart.now (λ a. updates_csr a op rd rs1 number old) result }
    ensures sound { (layout : Layout) → IsSoundOutcome layout hart.now result }
    ensures last { left_at (Stage.Working result) ≡ 0 }
{
    if !writes(op, rs1) {
        return Outcome::End(end_with(hart, Class::Csr, rd, old));
    }
    Outcome::WriteCsr {
        number,
        rd,
        old,
        value: result_of(op, old, operand(hart, op, rs1)),
    }
}

// What the register reads as, with these interrupt lines and at this time.
pub(crate) fn csr_value(hart: &Hart, number: u16, lines: u64, time: u64) -> u64
    ensures { (a : State) → Shows hart.now a → result ≡ csr_value a number lines time }
{
    match hart.csrs.read(number, hart.regs.mode, lines, time) {
        Ok(value) => value,
        Err(_) => 0,
    }
}

// Whether a write of the register makes a pulse due: it can change which interrupts are taken.
pub(crate) fn makes_due(number: u16) -> bool
    ensures { result ≡ makes_due number }
{
    number == CSR_MSTATUS
        || number == CSR_MIE
        || number == CSR_MIP
        || number == CSR_MIDELEG
        || number == CSR_SSTATUS
        || number == CSR_SIE
        || number == CSR_SIP
}

fn may_use(hart: &Hart, op: CsrOp, rd: u8, rs1: u8, number: u16) -> bool
    ensures { (a : State) → Shows hart.now a → result ≡ may_use_csr a op rd rs1 number }
{
    let mode = hart.regs.mode;
    (!reads(op, rd) || hart.csrs.may_read(number, mode))
        && (!writes(op, rs1) || hart.csrs.may_write(number, mode))
}

fn reads(op: CsrOp, rd: u8) -> bool
    ensures { result ≡ reads_csr op rd }
{
    match op {
        CsrOp::Rw | CsrOp::Rwi => rd != 0,
        _ => true,
    }
}

fn writes(op: CsrOp, rs1: u8) -> bool
    ensures { result ≡ writes_csr op rs1 }
{
    match op {
        CsrOp::Rw | CsrOp::Rwi => true,
        _ => rs1 != 0,
    }
}

fn operand(hart: &Hart, op: CsrOp, rs1: u8) -> u64
    requires { rs1 < 32 }
    ensures { (a : State) → Shows hart.now a → result ≡ csr_operand op a.x rs1 }
{
    match op {
        CsrOp::Rw | CsrOp::Rs | CsrOp::Rc => read(hart, rs1),
        CsrOp::Rwi | CsrOp::Rsi | CsrOp::Rci => rs1 as u64,
    }
}

fn result_of(op: CsrOp, old: u64, operand: u64) -> u64
    ensures { result ≡ csr_result op old operand }
{
    match op {
        CsrOp::Rw | CsrOp::Rwi => operand,
        CsrOp::Rs | CsrOp::Rsi => old | operand,
        CsrOp::Rc | CsrOp::Rci => old & !operand,
    }
}

fn is_pending_csr(number: u16) -> bool
    ensures { result ≡ is_pending_csr number }
{
    number == CSR_MIP || number == CSR_SIP
}

// Whether a write of the register is one of satp that takes effect, with a MODE that there is.
pub(crate) fn turns_satp(number: u16, value: u64) -> bool
    ensures { result ≡ turns_satp number value }
{
    number == CSR_SATP && matches!(value >> 60, BARE | SV39)
}
