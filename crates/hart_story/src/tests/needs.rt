// What a hart needs at each place of an instruction.
ghost use Rattle.hart_story.specs.CanBegin.{CanBegin};

use super::playing::{answer, begin};
use super::{BUDGET, hart_at, layout, pulse_reply, read, word};
use crate::found::Found;
use crate::work::work;
use crate::{Hart, Need, Progress, need};
use flex_base::{Access, Class, Reply};
use std::process::Abort;

const TRAP: Need = Need::Finish(Class::Trap);

#[test]
fn needs_what_its_place_in_the_run_says(rt: HostRuntime) {
    needs_at_the_beginning(&rt);
    needs_after_the_pulse(&rt);
    needs_after_the_fetch(&rt);
    needs_of_loads_and_stores(&rt);
    stops(&rt, 0);
    stops(&rt, 0x88);
    for ends in [1, 64, 100] {
        let hart = hart_at(0x8000_0000, ends, ends % 64 == 0);
        let progress = retire(&rt, &hart, ends);
        assert_eq!(rt;
            need(&hart, &progress, &layout(), ends),
            Need::Over,
            "at {ends}"
        );
    }
}

// By the pc, the ends and whether a pulse is due, at a budget of 100.
fn needs_at_the_beginning(rt: &impl Abort) {
    let retirement = Need::Ask(Access::Retire, Class::Pulse);
    let table = [
        (0x8000_0000, 0, false, fetch(0x8000_0000)),
        (0x800f_fffc, 1, false, fetch(0x800f_fffc)),
        (0x8010_0000, 1, false, TRAP),
        (0x7fff_fffc, 1, false, TRAP),
        (0x8000_0000, 64, false, fetch(0x8000_0000)),
        (0x8000_0000, 64, true, pulse(true)),
        (0x8010_0000, 64, true, pulse(true)),
        (0x8000_0000, 65, true, pulse(false)),
        (0x8000_0000, 0, true, pulse(false)),
        (0x8000_0000, 99, false, fetch(0x8000_0000)),
        (0x8000_0000, 100, true, retirement),
        (0x8010_0000, 100, false, retirement),
    ];
    for (pc, ends, due, want) in table {
        let hart = hart_at(pc, ends, due);
        let told = need(&hart, &Progress::begin(), &layout(), BUDGET);
        assert_eq!(rt; told, want, "at {pc:x} after {ends}, {due}");
    }
    let hart = hart_at(0x8000_0000, 128, true);
    let told = need(&hart, &Progress::begin(), &layout(), 129);
    assert_eq!(rt; told, pulse(true));
}

pub(super) fn pulse(tick: bool) -> Need {
    Need::Ask(Access::Pulse { tick }, Class::Pulse)
}

pub(super) fn fetch(address: u64) -> Need {
    Need::Ask(Access::Fetch { address }, Class::Fetch)
}

// A pulse comes before the fetch, at the same ends.
fn needs_after_the_pulse(rt: &impl Abort) {
    for (pc, want) in [(0x8000_0000, fetch(0x8000_0000)), (0x8010_0000, TRAP)] {
        let layout = layout();
        let hart = hart_at(pc, 64, true);
        let mut progress = begin(rt, &hart, &layout, BUDGET);
        answer(rt, &hart, &mut progress, &layout, BUDGET, pulse_reply(0));
        let told = need(&hart, &progress, &layout, BUDGET);
        assert_eq!(rt; told, want, "at {pc:x}");
    }
}

// What a hart needs that has fetched this word.
pub(super) fn need_of(hart: &Hart, word: u32) -> Need {
    let layout = layout();
    let mut progress = Progress::begin();
    work(hart, &layout, &Found::none(), &mut progress.stage, word);
    need(hart, &progress, &layout, BUDGET)
}

fn needs_after_the_fetch(rt: &impl Abort) {
    let table = [
        // addi x5, x0, 7
        (0x00700293, Need::Finish(Class::Alu)),
        // jal x0, 0
        (0x0000006f, Need::Finish(Class::Jump)),
        // jal x0, 2
        (0x0020006f, TRAP),
        // jalr x1, 3(x0), whose lowest bit is cleared
        (0x003000e7, TRAP),
        // beq x0, x0, 8 and bne x0, x0, 2
        (0x00000463, Need::Finish(Class::Jump)),
        (0x00001163, Need::Finish(Class::Jump)),
        // beq x0, x0, 2
        (0x00000163, TRAP),
        // fence and fence.i
        (0x0ff0000f, Need::Finish(Class::Fence)),
        (0x0000100f, Need::Finish(Class::Fence)),
        // lui x5, 1 and sub x5, x6, x7
        (0x000012b7, Need::Finish(Class::Alu)),
        (0x407302b3, Need::Finish(Class::Alu)),
        // mul x5, x6, x7
        (0x027302b3, Need::Finish(Class::Muldiv)),
        // ecall and no instruction
        (0x00000073, TRAP),
        (0x00000000, TRAP),
    ];
    for (word, want) in table {
        assert_eq!(rt;
            need_of(&hart_at(0x8000_0000, 0, false), word),
            want,
            "{word:x}"
        );
    }
}

// `x6` is the start of RAM, `x7` its end, and `x5` what a store writes.
fn hart_of_accesses() -> Hart {
    let mut hart = hart_at(0x8000_0000, 0, false);
    hart.regs.x[5] = 0x0123_4567_89ab_cdef;
    hart.regs.x[6] = 0x8000_0000;
    hart.regs.x[7] = 0x8010_0000;
    hart.regs.x[8] = 0x0200_0000;
    hart
}

pub(super) fn write(address: u64, width: u8, value: u64) -> Need {
    Need::Ask(
        Access::Write {
            address,
            width,
            value,
        },
        Class::Store,
    )
}

pub(super) fn dev_read(address: u64, width: u8) -> Need {
    Need::Ask(Access::DevRead { address, width }, Class::Device)
}

pub(super) fn dev_write(address: u64, width: u8, value: u64) -> Need {
    Need::Ask(
        Access::DevWrite {
            address,
            width,
            value,
        },
        Class::Device,
    )
}

fn needs_of_loads_and_stores(rt: &impl Abort) {
    let table = [
        // lb, lh, lw, ld, lbu, lhu and lwu x5, 0(x6)
        (0x00030283, read(0x8000_0000, 1)),
        (0x00031283, read(0x8000_0000, 2)),
        (0x00032283, read(0x8000_0000, 4)),
        (0x00033283, read(0x8000_0000, 8)),
        (0x00034283, read(0x8000_0000, 1)),
        (0x00035283, read(0x8000_0000, 2)),
        (0x00036283, read(0x8000_0000, 4)),
        // sb, sh, sw and sd x5, 0(x6)
        (0x00530023, write(0x8000_0000, 1, 0xef)),
        (0x00531023, write(0x8000_0000, 2, 0xcdef)),
        (0x00532023, write(0x8000_0000, 4, 0x89ab_cdef)),
        (0x00533023, write(0x8000_0000, 8, 0x0123_4567_89ab_cdef)),
        // lb x5, -1(x7), ld x5, -8(x7) and sd x5, -8(x7)
        (0xfff38283, read(0x800f_ffff, 1)),
        (0xff83b283, read(0x800f_fff8, 8)),
        (0xfe53bc23, write(0x800f_fff8, 8, 0x0123_4567_89ab_cdef)),
        // ld x5, 0(x7), and lb x5, -1(x6)
        (0x0003b283, TRAP),
        (0xfff30283, TRAP),
        // lh x5, 1(x6), lw x5, 2(x6), ld x5, 4(x6), and sw x5, 0(x0)
        (0x00131283, TRAP),
        (0x00232283, TRAP),
        (0x00433283, TRAP),
        (0x00502023, TRAP),
        // lw x5, 0(x8) and sw x5, 0(x8), which is a device register
        (0x00042283, dev_read(0x0200_0000, 4)),
        (0x00542023, dev_write(0x0200_0000, 4, 0x89ab_cdef)),
        // lh x5, 0(x8) and sd x5, 0(x8), of which there is no register, and lr.w x5, (x8)
        (0x00041283, TRAP),
        (0x00543023, TRAP),
        (0x100422af, TRAP),
    ];
    for (word, want) in table {
        assert_eq!(rt; need_of(&hart_of_accesses(), word), want, "{word:x}");
    }
}

// How far the hart has come that has spent its budget and retires.
fn retire(rt: &impl Abort, hart: &Hart, budget: u64) -> Progress
    requires { CanBegin 4 hart.now }
{
    let layout = layout();
    let mut progress = begin(rt, hart, &layout, budget);
    let retirement = Need::Ask(Access::Retire, Class::Pulse);
    assert_eq!(rt; need(hart, &progress, &layout, budget), retirement);
    answer(
        rt,
        hart,
        &mut progress,
        &layout,
        budget,
        Reply::with_value(0),
    );
    progress
}

// A pulse that tells a stop leaves the hart nothing to do, whatever lines it tells.
fn stops(rt: &impl Abort, lines: u64) {
    let layout = layout();
    let hart = hart_at(0x8000_0000, 64, true);
    let mut progress = begin(rt, &hart, &layout, BUDGET);
    answer(rt, &hart, &mut progress, &layout, BUDGET, stop(lines));
    assert_eq!(rt; need(&hart, &progress, &layout, BUDGET), Need::Over);
    // So does that of a CSR instruction, here csrr x10, mip.
    let hart = hart_at(0x8000_0000, 1, false);
    let mut progress = begin(rt, &hart, &layout, BUDGET);
    answer(rt, &hart, &mut progress, &layout, BUDGET, word(0x3440_2573));
    answer(rt, &hart, &mut progress, &layout, BUDGET, stop(lines));
    assert_eq!(rt; need(&hart, &progress, &layout, BUDGET), Need::Over);
}

pub(super) fn stop(lines: u64) -> Reply {
    Reply {
        value: 0,
        lines,
        stop: true,
    }
}
