// Loads and stores of device registers, by this project's rules.
ghost use Rattle.hart_story.specs.CanBegin.{CanBegin};

use super::needs::{dev_read, dev_write};
use super::{hart_at, make};
use crate::{Hart, Need};
use flex_base::{Class, EndPart};
use std::process::Abort;

// Device registers: a software interrupt bit, the time, and the UART.
const MSIP: u64 = 0x0200_0004;

const MTIME: u64 = 0x0200_bff8;

const UART: u64 = 0x1000_0000;

#[test]
fn accesses_of_devices_make_a_pulse_due(rt: HostRuntime) {
    let stored = 0x0123_4567_89ab_cdef;
    let table = [
        // lw and lwu x10, 0(x8)
        (
            0x00042503,
            0x8000_0001,
            dev_read(MSIP, 4),
            10,
            0xffff_ffff_8000_0001,
        ),
        (0x00046503, 0x8000_0001, dev_read(MSIP, 4), 10, 0x8000_0001),
        // ld x10, 0(x9)
        (0x0004b503, stored, dev_read(MTIME, 8), 10, stored),
        // lb and lbu x10, 0(x11)
        (
            0x00058503,
            0x80,
            dev_read(UART, 1),
            10,
            0xffff_ffff_ffff_ff80,
        ),
        (0x0005c503, 0x80, dev_read(UART, 1), 10, 0x80),
        // sw x5, 0(x8), sd x5, 0(x9) and sb x5, 0(x11)
        (0x00542023, 0, dev_write(MSIP, 4, 0x89ab_cdef), 0, 0),
        (0x0054b023, 0, dev_write(MTIME, 8, stored), 0, 0),
        (0x00558023, 0, dev_write(UART, 1, 0xef), 0, 0),
    ];
    for (word, value, needed, rd, written) in table {
        let told = (Class::Device, 0x8000_0004, rd, written);
        assert_ends(&rt, (word, value), needed, told, true);
    }
    refuses_what_is_no_register(&rt);
}

// The trap that is made instead makes no pulse due.
fn refuses_what_is_no_register(rt: &impl Abort) {
    let trap = Need::Finish(Class::Trap);
    let table = [
        // lh x10, 0(x8), ld x10, 4(x8), lw x10, 4(x11) and lr.w x10, (x8)
        (0x00041503, 5, MSIP),
        (0x00443503, 5, MSIP + 4),
        (0x0045a503, 5, UART + 4),
        (0x1004252f, 5, MSIP),
        // sh x5, 0(x8), sw x5, 0(x11) and amoadd.w x10, x5, (x8)
        (0x00541023, 7, MSIP),
        (0x0055a023, 7, UART),
        (0x0054252f, 7, MSIP),
    ];
    for (word, cause, address) in table {
        assert_ends(rt, (word, 0), trap, (Class::Trap, 0, cause, address), false);
    }
}

// The word, with this reply to its access, needs this after its fetch, and ends so.
fn assert_ends(
    rt: &impl Abort,
    made: (u32, u64),
    needed: Need,
    told: (Class, u64, u64, u64),
    due: bool,
) {
    let (word, value) = made;
    let (class, next, first, second) = told;
    let mut hart = hart_of_devices();
    let part = EndPart {
        class,
        pc: 0x8000_0000,
        next,
        first,
        second,
    };
    assert_eq!(rt;
        make(rt, &mut hart, word, value),
        (needed, part),
        "{word:x}"
    );
    assert_eq!(rt; hart.regs.due, due, "{word:x}");
}

fn hart_of_devices() -> Hart
    ensures { CanBegin 4 result }
{
    let mut hart = hart_at(0x8000_0000, 0, false);
    hart.regs.x[5] = 0x0123_4567_89ab_cdef;
    hart.regs.x[8] = MSIP;
    hart.regs.x[9] = MTIME;
    hart.regs.x[11] = UART;
    hart
}
