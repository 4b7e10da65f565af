// Each exception from each mode, delegated and not, by the manual's text.
ghost use Rattle.hart_story.specs.CanBegin.{CanBegin};

use super::{
    MCAUSE, MCYCLE, MEDELEG, MEPC, MODES, MSTATUS, MTVAL, MTVEC, SCAUSE, SEPC, STVAL, STVEC,
    assert_becomes, hart_at, hart_in, word, written,
};
use crate::Hart;
use flex_base::{Class, Mode, Reply};
use std::process::Abort;

// A word, its cause and what stands in mtval.
#[rattlefmt::skip]
const EXCEPTIONS: [(u32, u32, u64); 22] = [
    // jal x1, 2, jalr x1, 3(x6) and beq x0, x0, 2
    (0x002000ef, 0, 0x8000_0042), (0x003300e7, 0, 0x8000_0102), (0x00000163, 0, 0x8000_0042),
    // no instruction
    (0x00000000, 2, 0), (0xffffffff, 2, 0xffff_ffff),
    // ebreak
    (0x00100073, 3, 0),
    // lh x5, 1(x6), lr.d x10, (x8), and lh x5, 1(x7), which isn't in RAM either
    (0x00131283, 4, 0x8000_0101), (0x1004352f, 4, 0x8000_0104), (0x00139283, 4, 0x8010_0001),
    // ld x5, 0(x7) and lr.w x10, (x7)
    (0x0003b283, 5, 0x8010_0000), (0x1003a52f, 5, 0x8010_0000),
    // sw x5, 2(x6), sc.d x10, x5, (x8), amoswap.d x10, x5, (x8), and sw x5, 2(x7), which isn't in RAM either
    (0x00532123, 6, 0x8000_0102), (0x1854352f, 6, 0x8000_0104), (0x0854352f, 6, 0x8000_0104),
    (0x0053a123, 6, 0x8010_0002),
    // sd x5, 0(x7), sc.w x10, x5, (x7) and amoor.w x10, x5, (x7)
    (0x0053b023, 7, 0x8010_0000), (0x1853a52f, 7, 0x8010_0000), (0x4053a52f, 7, 0x8010_0000),
    // lr.w x10, (x9), sc.w x10, x5, (x9) and amoswap.w x10, x5, (x9), which is a device register
    (0x1004a52f, 5, 0x0200_0000), (0x1854a52f, 7, 0x0200_0000), (0x0854a52f, 7, 0x0200_0000),
    // sc.w x10, x5, (x0)
    (0x1850252f, 7, 0),
];

#[test]
fn exceptions_trap(rt: HostRuntime) {
    for mode in MODES {
        for (made, cause, tval) in EXCEPTIONS {
            assert_exception(&rt, mode, 0x8000_0040, &[word(made)], cause, tval);
        }
        // The word doesn't lie in RAM.
        assert_exception(&rt, mode, 0x8010_0000, &[], 1, 0x8010_0000);
    }
    for (mode, cause) in [(Mode::U, 8), (Mode::S, 9), (Mode::M, 11)] {
        assert_exception(&rt, mode, 0x8000_0040, &[word(0x0000_0073)], cause, 0);
    }
}

// Delegated by the bit of its cause alone, and not by all others.
fn assert_exception(
    rt: &impl Abort,
    mode: Mode,
    pc: u64,
    replies: &[Reply],
    cause: u32,
    tval: u64,
) {
    let hart = hart_of_traps(mode, pc, 1u64.wrapping_shl(cause));
    let to = if mode == Mode::M { Mode::M } else { Mode::S };
    assert_traps(rt, &hart, replies, cause, tval, to);
    let hart = hart_of_traps(mode, pc, !1u64.wrapping_shl(cause));
    assert_traps(rt, &hart, replies, cause, tval, Mode::M);
}

// Both levels have their interrupts on; their handlers of interrupts are vectored.
pub(super) fn hart_of_traps(mode: Mode, pc: u64, medeleg: u64) -> Hart
    ensures { CanBegin 4 result }
{
    let mut hart = hart_in(
        mode,
        &[
            (MEDELEG, medeleg),
            (STVEC, 0x8000_0201),
            (MTVEC, 0x8000_0301),
            (MSTATUS, 0xa),
        ],
    );
    hart.regs.pc = pc;
    hart.regs.x[5] = 5;
    hart.regs.x[6] = 0x8000_0100;
    hart.regs.x[7] = 0x8010_0000;
    hart.regs.x[8] = 0x8000_0104;
    hart.regs.x[9] = 0x0200_0000;
    hart.regs.reservation = Some(0x8000_0100);
    hart
}

// The instruction is an exception of this cause, which is taken to this mode. Nothing else changes:
// no register, no reservation, no other CSR, and no instruction is counted.
pub(super) fn assert_traps(
    rt: &impl Abort,
    hart: &Hart,
    replies: &[Reply],
    cause: u32,
    tval: u64,
    to: Mode,
)
    requires { CanBegin 4 hart.now }
{
    let cause = cause as u64;
    let pc = hart.regs.pc;
    let (next, values) = if to == Mode::S {
        (0x8000_0200, [(SEPC, pc), (SCAUSE, cause), (STVAL, tval)])
    } else {
        (0x8000_0300, [(MEPC, pc), (MCAUSE, cause), (MTVAL, tval)])
    };
    let status = status_after(hart.regs.mode, to) | hart.csrs.mstatus() & 0x70_0000;
    let mut after = *hart;
    after.regs.pc = next;
    after.regs.mode = to;
    after.regs.ends = 1;
    after.csrs = written(after.csrs, &values);
    after.csrs = written(after.csrs, &[(MSTATUS, status), (MCYCLE, 1)]);
    assert_becomes(rt, hart, replies, (Class::Trap, cause, tval), &after);
}

// mstatus in the handler, where MIE (8) and SIE (2) were set: MPIE (80) and the mode that was left in
// MPP (1800), or SPIE (20) and SPP (100).
fn status_after(from: Mode, to: Mode) -> u64 {
    match (from, to) {
        (Mode::U, Mode::S) => 0x28,
        (Mode::S, Mode::S) => 0x128,
        (Mode::U, _) => 0x82,
        (Mode::S, _) => 0x882,
        (Mode::M, _) => 0x1882,
    }
}
