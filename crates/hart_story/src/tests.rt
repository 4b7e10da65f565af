ghost use Rattle.std.specs.Prelude.{◌≡◌};
ghost use Rattle.flex_base.specs.Csrs.{AreFit};
ghost use Rattle.hart_story.specs.CanBegin.{AreKept, CanBegin};

use super::*;
use csr_traps::Csrs;
use flex_base::{Access, AmoOp, Class, EndPart, HartId, Layout, Mode, Reply};
use hart_state::{Kept, Regs};
use needs::need_of;
use playing::play;
use std::process::Abort;

mod csrs;
mod device_accesses;
mod interrupts;
mod needs;
mod page_faults;
mod pages;
mod playing;
mod returns;
mod translations;
mod traps;
mod waits;

const BUDGET: u64 = 100;

// Numbers of registers.
const SSTATUS: u16 = 0x100;

const SIE: u16 = 0x104;

const STVEC: u16 = 0x105;

const SEPC: u16 = 0x141;

const SCAUSE: u16 = 0x142;

const STVAL: u16 = 0x143;

const SIP: u16 = 0x144;

const SATP: u16 = 0x180;

const MSTATUS: u16 = 0x300;

const MEDELEG: u16 = 0x302;

const MIDELEG: u16 = 0x303;

const MIE: u16 = 0x304;

const MTVEC: u16 = 0x305;

const MSCRATCH: u16 = 0x340;

const MEPC: u16 = 0x341;

const MCAUSE: u16 = 0x342;

const MTVAL: u16 = 0x343;

const MIP: u16 = 0x344;

const MCYCLE: u16 = 0xb00;

const MINSTRET: u16 = 0xb02;

const MODES: [Mode; 3] = [Mode::U, Mode::S, Mode::M];

// Four harts in 1 MiB of RAM.
fn layout() -> Layout
    ensures { result ≡ record { harts = 4; ram = 1048576 } }
{
    Layout {
        harts: 4,
        ram: 1_048_576,
    }
}

fn hart_at(pc: u64, ends: u64, due: bool) -> Hart
    ensures { CanBegin 4 result }
{
    Hart {
        regs: Regs {
            pc,
            x: [0; 32],
            mode: Mode::M,
            reservation: None,
            ends,
            lines: 0,
            due,
        },
        csrs: Csrs::new(HartId(3)),
        kept: nothing_kept(),
    }
}

fn nothing_kept() -> Kept
    ensures { AreKept result }
{
    Kept::new()
}

// A hart in this mode, after these writes of its CSRs.
fn hart_in(mode: Mode, csrs: &[(u16, u64)]) -> Hart
    ensures { CanBegin 4 result }
{
    let mut hart = hart_at(0x8000_0040, 0, false);
    hart.regs.mode = mode;
    hart.csrs = written(hart.csrs, csrs);
    hart
}

// The registers after these writes in M.
fn written(csrs: Csrs, values: &[(u16, u64)]) -> Csrs
    ensures { AreFit 4 csrs → AreFit 4 result }
{
    let mut after = csrs;
    'writes: for (number, value) in values {
        let _ = after.write(*number, Mode::M, *value);
    }
    after
}

// Stops where the hart's next instruction, with these replies, has an end that tells something else
// than this, or leaves another hart.
fn assert_becomes(
    rt: &impl Abort,
    hart: &Hart,
    replies: &[Reply],
    told: (Class, u64, u64),
    after: &Hart,
)
    requires { CanBegin 4 hart.now }
{
    let (class, first, second) = told;
    let mut made = *hart;
    let part = play(rt, &mut made, replies);
    let wanted = EndPart {
        class,
        pc: hart.regs.pc,
        next: after.regs.pc,
        first,
        second,
    };
    assert_eq!(rt; part, wanted);
    assert_eq!(rt; made, *after);
}

// The reply to the fetch of a word.
fn word(word: u32) -> Reply {
    Reply::with_value(word as u64)
}

fn pulse_reply(lines: u64) -> Reply {
    Reply {
        value: 0,
        lines,
        stop: false,
    }
}

// Makes the hart's next instruction, which is this word, with this reply to its access. It gives
// what the hart needs after the fetch, and the end.
fn make(rt: &impl Abort, hart: &mut Hart, word: u32, value: u64) -> (Need, EndPart)
    requires { CanBegin 4 hart.old }
    ensures { CanBegin 4 hart.new }
{
    let needed = need_of(hart, word);
    let fetched = Reply::with_value(word as u64);
    let part = match needed {
        Need::Ask(_, _) => play(rt, hart, &[fetched, Reply::with_value(value)]),
        _ => play(rt, hart, &[fetched]),
    };
    (needed, part)
}

#[test]
fn makes_instructions(rt: HostRuntime) {
    let mut registers = [0; 32];
    registers[10] = 3;
    let mut hart = hart_at(0x8000_0000, 0, false);
    hart.regs.x = registers;
    assert_eq!(rt; Hart::start(HartId(3), 0x8000_0000), hart);
    let minus_1 = 0xffff_ffff_ffff_ffff;
    let table = [
        // addi x5, x0, 7
        (0x00700293, Class::Alu, 0x8000_0004, 5, 7),
        // jal x0, 0
        (0x0000006f, Class::Jump, 0x8000_0004, 0, 0),
        // jal x1, 8
        (0x008000ef, Class::Jump, 0x8000_000c, 1, 0x8000_0008),
        // addi x0, x5, 1
        (0x00128013, Class::Alu, 0x8000_0010, 0, 0),
        // addi x6, x5, -8
        (0xff828313, Class::Alu, 0x8000_0014, 6, minus_1),
        // addi x31, x6, 1
        (0x00130f93, Class::Alu, 0x8000_0018, 31, 0),
        // addi x10, x10, 1
        (0x00150513, Class::Alu, 0x8000_001c, 10, 4),
        // jal x2, -28
        (0xfe5ff16f, Class::Jump, 0x8000_0000, 2, 0x8000_0020),
        // auipc x7, 1
        (0x00001397, Class::Alu, 0x8000_0004, 7, 0x8000_1000),
        // jalr x8, 5(x7)
        (0x00538467, Class::Jump, 0x8000_1004, 8, 0x8000_0008),
        // bltu x5, x7, -4
        (0xfe72eee3, Class::Jump, 0x8000_1000, 0, 0),
        // blt x5, x6, 8
        (0x0062c463, Class::Jump, 0x8000_1004, 0, 0),
        // sraiw x9, x6, 4
        (0x4043549b, Class::Alu, 0x8000_1008, 9, minus_1),
        // fence
        (0x0ff0000f, Class::Fence, 0x8000_100c, 0, 0),
    ];
    'made: for (word, class, next, first, second) in table {
        let part = EndPart {
            class,
            pc: hart.regs.pc,
            next,
            first,
            second,
        };
        let made = make(&rt, &mut hart, word, 0);
        assert_eq!(rt; made, (Need::Finish(class), part), "{word:x}");
    }
    registers[1] = 0x8000_0008;
    registers[2] = 0x8000_0020;
    registers[5] = 7;
    registers[6] = minus_1;
    registers[7] = 0x8000_1000;
    registers[8] = 0x8000_0008;
    registers[9] = minus_1;
    registers[10] = 4;
    let mut ended = hart_at(0x8000_100c, 14, false);
    ended.regs.x = registers;
    ended.csrs = written(ended.csrs, &[(MCYCLE, 14), (MINSTRET, 14)]);
    assert_eq!(rt; hart, ended);
}

// `x6` and `x7` are addresses in different lines, `x8` lies in the 8 bytes of `x6`, and `x5` is what
// is written.
fn hart_of_atomics() -> Hart
    ensures { CanBegin 4 result }
{
    let mut hart = hart_at(0x8000_0000, 0, false);
    hart.regs.x[5] = 0x0123_4567_89ab_cdef;
    hart.regs.x[6] = 0x8000_0100;
    hart.regs.x[7] = 0x8000_0140;
    hart.regs.x[8] = 0x8000_0104;
    hart.regs.x[9] = 0x8000_0000_0000_0000;
    hart.regs.x[11] = 0x0000_0001_0000_0003;
    hart.regs.x[12] = 0x0000_0001_8000_0001;
    hart.regs.x[13] = 3;
    hart
}

// Makes each word in turn. A row has the word, the reply to its access, what is needed after the
// fetch, and what is written to `x10`.
fn assert_made(rt: &impl Abort, hart: &mut Hart, table: &[(u32, u64, Need, u64)])
    requires { CanBegin 4 hart.old }
    ensures { CanBegin 4 hart.new }
{
    'made: for &(word, value, needed, written) in table {
        let (told, part) = make(rt, hart, word, value);
        assert_eq!(rt; told, needed, "{word:x}");
        assert_eq!(rt; (part.first, part.second), (10, written), "{word:x}");
        assert_eq!(rt; hart.regs.x[10], written, "{word:x}");
    }
}

#[test]
fn ends_what_it_computed_or_accessed(rt: HostRuntime) {
    ends_computations_and_loads(&rt);
    ends_atomics(&rt);
    ends_without_a_register(&rt);
}

#[rattlefmt::skip]
fn ends_computations_and_loads(rt: &impl Abort) {
    let muldiv = Need::Finish(Class::Muldiv);
    let table = [
        // mulw x10, x11, x12, mul x10, x9, x13, divu x10, x9, x13 and divu x10, x9, x0
        (0x02c5853b, 0, muldiv, 0xffff_ffff_8000_0003),
        (0x02d48533, 0, muldiv, 0x8000_0000_0000_0000),
        (0x02d4d533, 0, muldiv, 0x2aaa_aaaa_aaaa_aaaa),
        (0x0204d533, 0, muldiv, 0xffff_ffff_ffff_ffff),
        // lb, lh, lw, ld, lbu, lhu and lwu x10, 0(x6)
        (0x00030503, 0x80, read(0x8000_0100, 1), 0xffff_ffff_ffff_ff80),
        (0x00030503, 0x7f, read(0x8000_0100, 1), 0x7f),
        (0x00031503, 0x8001, read(0x8000_0100, 2), 0xffff_ffff_ffff_8001),
        (0x00032503, 0x8000_0002, read(0x8000_0100, 4), 0xffff_ffff_8000_0002),
        (0x00033503, 0x8000_0000_0000_0003, read(0x8000_0100, 8), 0x8000_0000_0000_0003),
        (0x00034503, 0x80, read(0x8000_0100, 1), 0x80),
        (0x00035503, 0x8001, read(0x8000_0100, 2), 0x8001),
        (0x00036503, 0x8000_0002, read(0x8000_0100, 4), 0x8000_0002),
    ];
    assert_made(rt, &mut hart_of_atomics(), table.as_slice());
}

#[rattlefmt::skip]
fn ends_atomics(rt: &impl Abort) {
    let concluded = Need::Finish(Class::Atomic);
    let table = [
        // sc.w x10, x5, (x6), with no reservation
        (0x1853252f, 0, concluded, 1),
        // lr.w x10, (x6), sc.d x10, x5, (x6) and sc.d again
        (0x1003252f, 0x8000_0000, lr(0x8000_0100, 4), 0xffff_ffff_8000_0000),
        (0x1853352f, 0, sc(0x8000_0100, 8, 0x0123_4567_89ab_cdef), 0),
        (0x1853352f, 0, concluded, 1),
        // lr.d x10, (x6), and sc.w x10, x5, (x8), which another hart's write makes fail
        (0x1003352f, 0x8000_0000_0000_0000, lr(0x8000_0100, 8), 0x8000_0000_0000_0000),
        (0x1854252f, 1, sc(0x8000_0104, 4, 0x89ab_cdef), 1),
        // lr.w x10, (x6), lr.w x10, (x7), sc.w x10, x5, (x6) and sc.w x10, x5, (x7)
        (0x1003252f, 1, lr(0x8000_0100, 4), 1),
        (0x1003a52f, 2, lr(0x8000_0140, 4), 2),
        (0x1853252f, 0, concluded, 1),
        (0x1853a52f, 0, concluded, 1),
        // lr.w x10, (x8), amomax.w x10, x5, (x6), and sc.w x10, x5, (x6)
        (0x1004252f, 3, lr(0x8000_0104, 4), 3),
        (0xa053252f, 0x8000_0004, amo_max(0x8000_0100, 0x89ab_cdef), 0xffff_ffff_8000_0004),
        (0x1853252f, 0, sc(0x8000_0100, 4, 0x89ab_cdef), 0),
    ];
    let mut hart = hart_of_atomics();
    assert_made(rt, &mut hart, table.as_slice());
    assert_eq!(rt; hart.regs.ends, 13);
    assert_eq!(rt; hart.regs.reservation, None);
}

fn ends_without_a_register(rt: &impl Abort) {
    let mut hart = hart_of_atomics();
    let before = hart.regs.x;
    // sw x5, 0(x6) and amoadd.d x0, x5, (x7)
    'made: for (word, class) in [(0x00532023, Class::Store), (0x0053b02f, Class::Atomic)] {
        let (_, part) = make(rt, &mut hart, word, 0);
        let ended = (part.class, part.first, part.second);
        assert_eq!(rt; ended, (class, 0, 0), "{word:x}");
        assert_eq!(rt; hart.regs.x, before, "{word:x}");
    }
}

fn read(address: u64, width: u8) -> Need {
    Need::Ask(Access::Read { address, width }, Class::Load)
}

fn lr(address: u64, width: u8) -> Need {
    Need::Ask(Access::Lr { address, width }, Class::Atomic)
}

fn sc(address: u64, width: u8, value: u64) -> Need {
    Need::Ask(
        Access::Sc {
            address,
            width,
            value,
        },
        Class::Atomic,
    )
}

fn amo_max(address: u64, value: u64) -> Need {
    Need::Ask(
        Access::Amo {
            op: AmoOp::Max,
            address,
            width: 4,
            value,
        },
        Class::Atomic,
    )
}
