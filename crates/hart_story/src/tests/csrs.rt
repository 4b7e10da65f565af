// CSR instructions, by the text of Zicsr and of the privileged manual.
ghost use Rattle.hart_story.specs.CanBegin.{CanBegin};

use super::needs::need_of;
use super::playing::play;
use super::traps::{assert_traps, hart_of_traps};
use super::{
    MCYCLE, MIDELEG, MIE, MINSTRET, MIP, MODES, MSCRATCH, MSTATUS, SATP, SIE, SIP, SSTATUS,
    assert_becomes, assert_made, hart_at, hart_in, pulse_reply, word, written,
};
use crate::{Hart, Need};
use flex_base::{Access, Class, Mode};
use std::process::Abort;

// Operations by their three bits.
const RW: u32 = 1;

const RS: u32 = 2;

const RC: u32 = 3;

const RWI: u32 = 5;

const RSI: u32 = 6;

const RCI: u32 = 7;

// Counters that are read alone, and a number without a register.
const CYCLE: u16 = 0xc00;

const TIME: u16 = 0xc01;

const MHARTID: u16 = 0xf14;

const NOTHING: u16 = 0x7a0;

const FINISH: Need = Need::Finish(Class::Csr);

// Reading is a pulse of its own, and time doesn't go on with it.
const PULSE: Need = Need::Ask(Access::Pulse { tick: false }, Class::Pulse);

fn csr_word(op: u32, number: u16, rd: u32, rs1: u32) -> u32 {
    (number as u32) << 20 | rs1 << 15 | op << 12 | rd << 7 | 0x73
}

#[test]
fn csr_instructions_read_and_write(rt: HostRuntime) {
    for rd in [0, 10] {
        operates(&rt, rd);
    }
    for mode in MODES {
        refuses_writes_of_read_only(&rt, mode);
    }
    refuses_by_mode(&rt);
    asks_what_is_pending(&rt);
    reads_what_is_pending(&rt);
    makes_pulses_due(&rt);
    counts(&rt);
}

// Each operation with the register 21 or the immediate 21, and with 0, on a CSR that holds f0. The
// register holds 3c.
#[rattlefmt::skip]
fn operates(rt: &impl Abort, rd: u8) {
    let table = [
        (RW, 21, 0x3c), (RS, 21, 0xfc), (RC, 21, 0xc0), (RWI, 21, 0x15), (RSI, 21, 0xf5), (RCI, 21, 0xe0),
        (RW, 0, 0), (RS, 0, 0xf0), (RC, 0, 0xf0), (RWI, 0, 0), (RSI, 0, 0xf0), (RCI, 0, 0xf0),
    ];
    for (op, rs1, value) in table {
        let mut hart = hart_in(Mode::M, &[(MSCRATCH, 0xf0)]);
        hart.regs.x[21] = 0x3c;
        let mut after = hart;
        after.regs.pc = 0x8000_0044;
        after.regs.ends = 1;
        after.csrs = written(after.csrs, &[(MSCRATCH, value), (MCYCLE, 1), (MINSTRET, 1)]);
        let mut second = 0;
        if rd != 0 {
            after.regs.x[10] = 0xf0;
            second = 0xf0;
        }
        let told = (Class::Csr, rd as u64, second);
        let made = csr_word(op, MSCRATCH, rd as u32, rs1);
        assert_becomes(rt, &hart, &[word(made)], told, &after);
    }
}

// Setting and clearing with x0 or the immediate 0 writes nothing, and nothing else is no write: not
// a register that holds 0.
fn refuses_writes_of_read_only(rt: &impl Abort, mode: Mode) {
    let hart = hart_of_traps(mode, 0x8000_0040, 0);
    let reads = if mode == Mode::M {
        FINISH
    } else {
        Need::Finish(Class::Trap)
    };
    for op in [RS, RC, RSI, RCI] {
        let made = csr_word(op, MHARTID, 10, 0);
        assert_eq!(rt; need_of(&hart, made), reads, "{op}");
        assert_illegal(rt, &hart, csr_word(op, MHARTID, 10, 31));
    }
    for op in [RW, RWI] {
        assert_illegal(rt, &hart, csr_word(op, MHARTID, 0, 0));
        assert_illegal(rt, &hart, csr_word(op, MHARTID, 10, 31));
    }
}

fn assert_illegal(rt: &impl Abort, hart: &Hart, made: u32)
    requires { CanBegin 4 hart.now }
{
    assert_traps(rt, hart, &[word(made)], 2, made as u64, Mode::M);
}

// A mode below the number's, no register, satp in S with TVM, and counters that aren't enabled.
#[rattlefmt::skip]
fn refuses_by_mode(rt: &impl Abort) {
    let tvm = 0x10_000a;
    let table = [
        (Mode::S, 0xa, csr_word(RS, MSTATUS, 10, 0)), (Mode::S, 0xa, csr_word(RW, MSCRATCH, 0, 5)),
        (Mode::U, 0xa, csr_word(RS, SSTATUS, 10, 0)), (Mode::U, 0xa, csr_word(RW, SIE, 0, 5)),
        (Mode::S, 0xa, csr_word(RS, MIP, 10, 0)), (Mode::U, 0xa, csr_word(RS, SIP, 10, 5)),
        (Mode::M, 0xa, csr_word(RS, NOTHING, 10, 0)), (Mode::M, 0xa, csr_word(RW, NOTHING, 0, 5)),
        (Mode::S, tvm, csr_word(RS, SATP, 10, 0)), (Mode::S, tvm, csr_word(RW, SATP, 0, 5)),
        (Mode::S, 0xa, csr_word(RS, CYCLE, 10, 0)), (Mode::U, 0xa, csr_word(RS, TIME, 10, 0)),
        (Mode::M, 0xa, csr_word(RW, TIME, 10, 5)),
    ];
    for (mode, status, made) in table {
        let mut hart = hart_of_traps(mode, 0x8000_0040, 0);
        hart.csrs = written(hart.csrs, &[(MSTATUS, status)]);
        assert_illegal(rt, &hart, made);
    }
}

// What a CSR instruction needs after its fetch.
#[rattlefmt::skip]
fn asks_what_is_pending(rt: &impl Abort) {
    let time = Need::Ask(Access::Time, Class::Csr);
    let table = [
        (csr_word(RS, MIP, 10, 0), PULSE), (csr_word(RC, SIP, 10, 0), PULSE), (csr_word(RSI, MIP, 0, 0), PULSE),
        (csr_word(RCI, SIP, 0, 2), PULSE), (csr_word(RW, MIP, 10, 5), PULSE), (csr_word(RWI, SIP, 10, 0), PULSE),
        // A swap with x0 doesn't read.
        (csr_word(RW, MIP, 0, 5), FINISH), (csr_word(RWI, SIP, 0, 2), FINISH),
        (csr_word(RS, TIME, 10, 0), time), (csr_word(RCI, TIME, 0, 0), time),
        (csr_word(RS, CYCLE, 10, 0), FINISH), (csr_word(RS, MIE, 10, 0), FINISH),
    ];
    let mut hart = hart_in(Mode::M, &[]);
    hart.regs.ends = 64;
    for (made, wanted) in table {
        assert_eq!(rt; need_of(&hart, made), wanted, "{made:x}");
    }
}

// The lines are those of the pulse, and what is written of them isn't kept.
#[rattlefmt::skip]
fn reads_what_is_pending(rt: &impl Abort) {
    let table = [
        // What is read by the lines 88, what software has raised then, and whether a pulse is due
        (csr_word(RS, MIP, 10, 0), pulse_reply(0x88), 0x28a, 0x202, false),
        (csr_word(RS, MIP, 10, 5), pulse_reply(0x88), 0x28a, 0x222, true),
        (csr_word(RC, MIP, 10, 6), pulse_reply(0x88), 0x28a, 0x200, true),
        (csr_word(RW, MIP, 10, 5), pulse_reply(0), 0x202, 0x020, true),
        // Of the interrupts that are delegated, 2 and 20, S itself raises and clears 2 alone.
        (csr_word(RS, SIP, 10, 0), pulse_reply(0x88), 0x002, 0x202, false),
        (csr_word(RC, SIP, 10, 6), pulse_reply(0x88), 0x002, 0x200, true),
        (csr_word(RS, SIP, 10, 5), pulse_reply(0), 0x002, 0x202, true),
        (csr_word(RS, TIME, 10, 0), word(77), 77, 0x202, false),
    ];
    for (made, reply, value, mip, due) in table {
        let mut hart = hart_in(Mode::M, &[(MIP, 0x202), (MIDELEG, 0x022)]);
        hart.regs.lines = 0x80;
        hart.regs.x[5] = 0x020;
        hart.regs.x[6] = 0x0aa;
        let part = play(rt, &mut hart, &[word(made), reply]);
        assert_eq!(rt; (part.first, part.second), (10, value), "{made:x}");
        assert_eq!(rt; hart.regs.x[10], value, "{made:x}");
        assert_eq!(rt; (hart.csrs.mip(), hart.regs.due), (mip, due), "{made:x}");
        let lines = if value == 77 { 0x80 } else { reply.lines };
        assert_eq!(rt; hart.regs.lines, lines, "{made:x}");
    }
}

// A pulse is due after a write of a register on which it depends which interrupts are taken.
#[rattlefmt::skip]
fn makes_pulses_due(rt: &impl Abort) {
    for number in [0x300, 0x303, 0x304, 0x344, 0x100, 0x104, 0x144] {
        assert_due(rt, 0, csr_word(RW, number, 0, 5), true);
        assert_due(rt, 0, csr_word(RCI, number, 10, 0), false);
    }
    let others = [
        0x105, 0x106, 0x140, 0x141, 0x142, 0x143, 0x180, 0x301, 0x302, 0x305, 0x306, 0x340, 0x341, 0x342, 0x343, 0x3a0,
        0x3b0, 0xb00, 0xb02,
    ];
    for number in others {
        assert_due(rt, 0, csr_word(RW, number, 10, 5), false);
        assert_due(rt, 63, csr_word(RW, number, 10, 5), true);
    }
    // ecall, and an addi
    for made in [0x0000_0073, 0x0070_0293] {
        for (ends, due) in [(0, false), (61, false), (62, false), (63, true), (64, false)] {
            assert_due(rt, ends, made, due);
        }
    }
}

fn assert_due(rt: &impl Abort, ends: u64, made: u32, due: bool) {
    let mut hart = hart_at(0x8000_0000, ends, false);
    let _ = match need_of(&hart, made) {
        Need::Ask(_, _) => play(rt, &mut hart, &[word(made), pulse_reply(0)]),
        _ => play(rt, &mut hart, &[word(made)]),
    };
    assert_eq!(rt; hart.regs.due, due, "{made:x} after {ends}");
}

// An instruction that writes a counter doesn't count in it, and reads it as it stood before. A trap
// is a cycle and no instruction.
#[rattlefmt::skip]
fn counts(rt: &impl Abort) {
    let mut hart = hart_in(Mode::M, &[]);
    hart.regs.x[5] = 1000;
    let before = [
        // addi x10, x0, 7
        (0x00700513, 0, Need::Finish(Class::Alu), 7),
        (csr_word(RW, MCYCLE, 10, 5), 0, FINISH, 1),
        (csr_word(RS, MCYCLE, 10, 0), 0, FINISH, 1000),
        (csr_word(RS, CYCLE, 10, 0), 0, FINISH, 1001),
        (csr_word(RW, MINSTRET, 10, 5), 0, FINISH, 4),
        (csr_word(RSI, MINSTRET, 10, 0), 0, FINISH, 1000),
    ];
    assert_made(rt, &mut hart, &before);
    // ecall
    let _ = play(rt, &mut hart, &[word(0x0000_0073)]);
    let after = written(hart.csrs, &[(MCYCLE, 1005), (MINSTRET, 1001)]);
    assert_eq!(rt; hart.csrs, after);
    let across = [
        (csr_word(RS, MCYCLE, 10, 0), 0, FINISH, 1005),
        (csr_word(RS, MINSTRET, 10, 0), 0, FINISH, 1002),
    ];
    hart.regs.pc = 0x8000_0000;
    assert_made(rt, &mut hart, &across);
}
