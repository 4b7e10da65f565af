// Interrupts, by the manual's text.
ghost use Rattle.hart_story.specs.CanBegin.{CanBegin};

use super::playing::play;
use super::{
    MCAUSE, MCYCLE, MEPC, MIDELEG, MIE, MINSTRET, MIP, MSTATUS, MTVAL, MTVEC, SCAUSE, SEPC, STVAL,
    STVEC, assert_becomes, hart_in, layout, pulse_reply, word, written,
};
use crate::{Hart, Need, Progress, need};
use flex_base::{Class, Mode, Reply};
use std::process::Abort;

// Interrupts by their numbers.
const SSI: u64 = 1;

const MSI: u64 = 3;

const STI: u64 = 5;

const MTI: u64 = 7;

const SEI: u64 = 9;

// mideleg, mstatus, the mode, what software has raised, the interrupt that is taken, to which mode, and
// mstatus then. Both handlers are vectored.
#[rattlefmt::skip]
const TAKEN: [(u64, u64, Mode, u64, u64, Mode, u64); 18] = [
    (0, 0x8, Mode::M, 0x222, SEI, Mode::M, 0x1880),
    (0, 0x8, Mode::M, 0x022, SSI, Mode::M, 0x1880),
    (0, 0xa, Mode::M, 0x020, STI, Mode::M, 0x1882),
    // What is delegated isn't taken in M, and what isn't goes first.
    (0x200, 0xa, Mode::M, 0x202, SSI, Mode::M, 0x1882),
    (0x200, 0x2, Mode::S, 0x202, SSI, Mode::M, 0x802),
    (0x022, 0x2, Mode::S, 0x222, SEI, Mode::M, 0x802),
    (0x202, 0x2, Mode::S, 0x222, STI, Mode::M, 0x802),
    // To M, S and U are always on.
    (0, 0, Mode::S, 0x222, SEI, Mode::M, 0x800),
    (0, 0x8, Mode::S, 0x022, SSI, Mode::M, 0x880),
    (0, 0, Mode::U, 0x222, SEI, Mode::M, 0),
    (0, 0x8, Mode::U, 0x020, STI, Mode::M, 0x80),
    // To S, U always is.
    (0x222, 0x2, Mode::S, 0x222, SEI, Mode::S, 0x120),
    (0x222, 0xa, Mode::S, 0x022, SSI, Mode::S, 0x128),
    (0x222, 0x2, Mode::S, 0x020, STI, Mode::S, 0x120),
    (0x222, 0, Mode::U, 0x222, SEI, Mode::S, 0),
    (0x222, 0x2, Mode::U, 0x022, SSI, Mode::S, 0x20),
    (0x222, 0x8, Mode::U, 0x020, STI, Mode::S, 0x8),
    (0x020, 0, Mode::U, 0x020, STI, Mode::S, 0),
];

#[test]
fn interrupts_are_taken(rt: HostRuntime) {
    for pc in [0x8000_0040, 0x8010_0000] {
        for (mideleg, status, mode, mip, number, to, left) in TAKEN {
            let hart = hart_of_interrupts(mode, pc, mideleg, status, mip);
            // It isn't taken while it isn't enabled.
            assert_eq!(rt; needs_trap(&hart), pc == 0x8010_0000);
            let enabled = enabling(&hart, 0xaaa);
            assert_eq!(rt; needs_trap(&enabled), true);
            assert_interrupted(&rt, &enabled, &[], number, (to, left));
        }
    }
    leaves_what_is_off(&rt);
    takes_what_a_pulse_tells(&rt);
    ends_csr_instructions_first(&rt);
}

fn hart_of_interrupts(mode: Mode, pc: u64, mideleg: u64, status: u64, mip: u64) -> Hart
    ensures { CanBegin 4 result }
{
    let mut hart = hart_in(
        mode,
        &[
            (STVEC, 0x8000_0201),
            (MTVEC, 0x8000_0301),
            (MIDELEG, mideleg),
            (MSTATUS, status),
            (MIP, mip),
        ],
    );
    hart.regs.pc = pc;
    hart.regs.x[5] = 5;
    hart.regs.reservation = Some(0x8000_0100);
    hart
}

fn enabling(hart: &Hart, mie: u64) -> Hart
    requires { CanBegin 4 hart.now }
    ensures { CanBegin 4 result }
{
    let mut enabled = *hart;
    enabled.csrs = written(enabled.csrs, &[(MIE, mie)]);
    enabled
}

// Whether the hart's next instruction is a trap before its fetch.
fn needs_trap(hart: &Hart) -> bool {
    need(hart, &Progress::begin(), &layout(), 100) == Need::Finish(Class::Trap)
}

// The interrupt is taken to this mode, with this mstatus. Its value is 0, and the instruction that
// hasn't begun is where the return leads. Nothing else changes but the lines.
fn assert_interrupted(rt: &impl Abort, hart: &Hart, replies: &[Reply], number: u64, to: (Mode, u64))
    requires { CanBegin 4 hart.now }
{
    let (mode, status) = to;
    let cause = 0x8000_0000_0000_0000 | number;
    let pc = hart.regs.pc;
    let (base, values) = if mode == Mode::S {
        (0x8000_0200, [(SEPC, pc), (SCAUSE, cause), (STVAL, 0)])
    } else {
        (0x8000_0300, [(MEPC, pc), (MCAUSE, cause), (MTVAL, 0)])
    };
    let mut after = *hart;
    after.regs.pc = base | number << 2;
    after.regs.mode = mode;
    after.regs.ends = 1;
    after.regs.due = false;
    'told: for reply in replies {
        after.regs.lines = reply.lines;
    }
    after.csrs = written(after.csrs, &values);
    after.csrs = written(after.csrs, &[(MSTATUS, status), (MCYCLE, 1)]);
    assert_becomes(rt, hart, replies, (Class::Trap, cause, 0), &after);
}

// mideleg, mstatus, and a mode in which none of the three is taken.
fn leaves_what_is_off(rt: &impl Abort) {
    let table = [
        (0, 0, Mode::M),
        (0, 0x2, Mode::M),
        (0x222, 0xa, Mode::M),
        (0x222, 0, Mode::S),
        (0x222, 0x8, Mode::S),
    ];
    for (mideleg, status, mode) in table {
        let hart = hart_of_interrupts(mode, 0x8000_0040, mideleg, status, 0x222);
        let mut enabled = enabling(&hart, 0xaaa);
        // addi x5, x0, 7
        let part = play(rt, &mut enabled, &[word(0x0070_0293)]);
        assert_eq!(rt; part.class, Class::Alu, "{mideleg:x}");
    }
}

// After a pulse it is by the lines that it tells; else by those that it told last.
fn takes_what_a_pulse_tells(rt: &impl Abort) {
    let hart = hart_of_interrupts(Mode::U, 0x8000_0040, 0, 0, 0);
    let mut due = enabling(&hart, 0x88);
    due.regs.due = true;
    assert_interrupted(rt, &due, &[pulse_reply(0x88)], MSI, (Mode::M, 0));
    assert_interrupted(rt, &due, &[pulse_reply(0x80)], MTI, (Mode::M, 0));
    due.regs.pc = 0x8010_0000;
    assert_interrupted(rt, &due, &[pulse_reply(0x80)], MTI, (Mode::M, 0));
    let masked = enabling(&due, 0x80);
    assert_interrupted(rt, &masked, &[pulse_reply(0x88)], MTI, (Mode::M, 0));
    // A pulse that tells nothing, where the last one told the timer's line.
    due.regs.lines = 0x80;
    due.regs.pc = 0x8000_0040;
    let mut passed = due;
    let part = play(rt, &mut passed, &[pulse_reply(0), word(0x0070_0293)]);
    assert_eq!(rt; (part.class, passed.regs.lines), (Class::Alu, 0));
    due.regs.due = false;
    assert_interrupted(rt, &due, &[], MTI, (Mode::M, 0));
}

// What a CSR instruction's own pulse tells is taken before the next instruction.
fn ends_csr_instructions_first(rt: &impl Abort) {
    let hart = hart_of_interrupts(Mode::M, 0x8000_0040, 0, 0x8, 0);
    let mut hart = enabling(&hart, 0x80);
    // csrr x10, mip
    let part = play(rt, &mut hart, &[word(0x3440_2573), pulse_reply(0x80)]);
    assert_eq!(rt; (part.class, part.second), (Class::Csr, 0x80));
    let part = play(rt, &mut hart, &[]);
    assert_eq!(rt; (part.first, part.second), (0x8000_0000_0000_0007, 0));
    let after = written(
        hart.csrs,
        &[(MEPC, 0x8000_0044), (MCYCLE, 2), (MINSTRET, 1)],
    );
    assert_eq!(rt; hart.csrs, after);
}
