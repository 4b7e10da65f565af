// What each register reads as and takes, by the manual's masks, and traps, returns and interrupts by
// its text.
use super::*;
use flex_base::{HartId, Mode};

const MODES: [Mode; 3] = [Mode::U, Mode::S, Mode::M];

// What time reads as.
const TIME: u64 = 0x77;

// The lines of the timer and of the software interrupt of M.
const LINES: u64 = 0x88;

const ONES: u64 = 0xffff_ffff_ffff_ffff;

// Causes of interrupts.
const SSI: u64 = 0x8000_0000_0000_0001;

const MSI: u64 = 0x8000_0000_0000_0003;

const STI: u64 = 0x8000_0000_0000_0005;

const MTI: u64 = 0x8000_0000_0000_0007;

const SEI: u64 = 0x8000_0000_0000_0009;

const MEI: u64 = 0x8000_0000_0000_000b;

// The registers of hart 5 after these writes in M.
fn csrs_after(values: &[(u16, u64)]) -> Csrs {
    let mut csrs = Csrs::new(HartId(5));
    for (number, value) in values {
        let _ = csrs.write(*number, Mode::M, *value);
    }
    csrs
}

// Number, lowest mode, whether it can be written, and what it reads as: before any write, after a
// write of all ones, and then after one of all zeros.
type Register = (u16, Mode, bool, u64, u64, u64);

#[rattlefmt::skip]
const REGISTERS: &[Register] = &[
    (0xc00, Mode::U, false, 0, 0, 0),
    (0xc01, Mode::U, false, TIME, TIME, TIME),
    (0xc02, Mode::U, false, 0, 0, 0),
    (0x100, Mode::S, true, 0x2_0000_0000, 0x2_000c_0122, 0x2_0000_0000),
    (0x104, Mode::S, true, 0, 0x222, 0),
    (0x105, Mode::S, true, 0, 0xffff_ffff_ffff_fffd, 0),
    (0x106, Mode::S, true, 7, 7, 0),
    (0x140, Mode::S, true, 0, ONES, 0),
    (0x141, Mode::S, true, 0, 0xffff_ffff_ffff_fffc, 0),
    (0x142, Mode::S, true, 0, 0x8000_0000_0000_003f, 0),
    (0x143, Mode::S, true, 0, ONES, 0),
    (0x144, Mode::S, true, 0, 2, 0),
    // MODE 15 is reserved.
    (0x180, Mode::S, true, 0, 0, 0),
    (0xf11, Mode::M, false, 0, 0, 0),
    (0xf12, Mode::M, false, 0, 0, 0),
    (0xf13, Mode::M, false, 0, 0, 0),
    (0xf14, Mode::M, false, 5, 5, 5),
    (0x300, Mode::M, true, 0xa_0000_0000, 0xa_007e_19aa, 0xa_0000_0000),
    (0x301, Mode::M, true, 0x8000_0000_0014_1101, 0x8000_0000_0014_1101, 0x8000_0000_0014_1101),
    (0x302, Mode::M, true, 0, 0xb3ff, 0),
    (0x303, Mode::M, true, 0x222, 0x222, 0),
    (0x304, Mode::M, true, 0, 0xaaa, 0),
    (0x305, Mode::M, true, 0, 0xffff_ffff_ffff_fffd, 0),
    (0x306, Mode::M, true, 7, 7, 0),
    (0x340, Mode::M, true, 0, ONES, 0),
    (0x341, Mode::M, true, 0, 0xffff_ffff_ffff_fffc, 0),
    (0x342, Mode::M, true, 0, 0x8000_0000_0000_003f, 0),
    (0x343, Mode::M, true, 0, ONES, 0),
    (0x344, Mode::M, true, LINES, 0x2aa, LINES),
    (0x3a0, Mode::M, true, 0, 0, 0),
    (0x3a2, Mode::M, true, 0, 0, 0),
    (0x3b0, Mode::M, true, 0, 0, 0),
    (0x3b1, Mode::M, true, 0, 0, 0),
    (0x3b2, Mode::M, true, 0, 0, 0),
    (0x3b3, Mode::M, true, 0, 0, 0),
    (0x3b4, Mode::M, true, 0, 0, 0),
    (0x3b5, Mode::M, true, 0, 0, 0),
    (0x3b6, Mode::M, true, 0, 0, 0),
    (0x3b7, Mode::M, true, 0, 0, 0),
    (0x3b8, Mode::M, true, 0, 0, 0),
    (0x3b9, Mode::M, true, 0, 0, 0),
    (0x3ba, Mode::M, true, 0, 0, 0),
    (0x3bb, Mode::M, true, 0, 0, 0),
    (0x3bc, Mode::M, true, 0, 0, 0),
    (0x3bd, Mode::M, true, 0, 0, 0),
    (0x3be, Mode::M, true, 0, 0, 0),
    (0x3bf, Mode::M, true, 0, 0, 0),
    (0xb00, Mode::M, true, 0, ONES, 0),
    (0xb02, Mode::M, true, 0, ONES, 0),
];

// Numbers of no register, or of one that isn't there: senvcfg, menvcfg, mcountinhibit, mconfigptr.
#[rattlefmt::skip]
const UNLISTED: &[u16] = &[
    0, 0x101, 0x10a, 0x30a, 0x320, 0x3a1, 0x3c0, 0x7a0, 0xb01, 0xb03, 0xc03, 0xf15, 0x1300,
];

fn is_at_least(mode: Mode, lowest: Mode) -> bool {
    match lowest {
        Mode::U => true,
        Mode::S => mode != Mode::U,
        Mode::M => mode == Mode::M,
    }
}

// Whether a read and a write in this mode are legal exactly where they should be, and what M reads
// after the write.
fn takes(csrs: &mut Csrs, at: (u16, Mode), value: u64, legal: (bool, bool), after: u64) -> bool {
    csrs.write(at.0, at.1, value).is_ok() == legal.1
        && csrs.read(at.0, at.1, LINES, TIME).is_ok() == legal.0
        && csrs.read(at.0, Mode::M, LINES, TIME) == Ok(after)
}

// The counters are open to all modes, and S's interrupts are delegated.
fn is_as_listed_in(row: &Register, mode: Mode) -> bool {
    let (number, lowest, writable, before, ones, zeros) = *row;
    let reads = is_at_least(mode, lowest);
    let legal = (reads, reads && writable);
    let (ones, zeros) = if legal.1 {
        (ones, zeros)
    } else {
        (before, before)
    };
    let mut csrs = csrs_after(&[(0x303, ONES), (0x306, 7), (0x106, 7)]);
    csrs.may_read(number, mode) == legal.0
        && csrs.may_write(number, mode) == legal.1
        && takes(&mut csrs, (number, mode), ONES, legal, ones)
        && takes(&mut csrs, (number, mode), 0, legal, zeros)
}

fn is_as_listed(row: &Register) -> bool {
    is_as_listed_in(row, Mode::U) && is_as_listed_in(row, Mode::S) && is_as_listed_in(row, Mode::M)
}

fn is_refused_in(number: u16, mode: Mode) -> bool {
    let mut csrs = csrs_after(&[]);
    csrs.read(number, mode, 0, 0).is_err() && csrs.write(number, mode, 0).is_err()
}

fn is_refused(number: &u16) -> bool {
    is_refused_in(*number, Mode::U)
        && is_refused_in(*number, Mode::S)
        && is_refused_in(*number, Mode::M)
}

#[test]
fn registers_show_and_take_their_bits(rt: HostRuntime) {
    // The place of the first row that isn't met.
    assert_eq!(rt; REGISTERS.iter().position(|case| !is_as_listed(case)), None);
    assert_eq!(rt; UNLISTED.iter().position(|case| !is_refused(case)), None);
}

// What stands in mcounteren and scounteren, a counter, and whether U and S may read it.
type Counter = (u64, u64, u16, bool, bool);

#[rattlefmt::skip]
const COUNTERS: &[Counter] = &[
    (0, 7, 0xc00, false, false),
    (1, 6, 0xc00, false, true),
    (1, 1, 0xc00, true, true),
    (2, 0, 0xc01, false, true),
    (2, 2, 0xc01, true, true),
    (5, 7, 0xc01, false, false),
    (4, 3, 0xc02, false, true),
    (4, 4, 0xc02, true, true),
];

fn is_guarded(case: &Counter) -> bool {
    let (machine, supervisor, number, in_u, in_s) = *case;
    let csrs = csrs_after(&[(0x306, machine), (0x106, supervisor)]);
    csrs.read(number, Mode::U, 0, 0).is_ok() == in_u
        && csrs.read(number, Mode::S, 0, 0).is_ok() == in_s
        && csrs.read(number, Mode::M, 0, 0) == Ok(0)
}

// Writes of satp and mstatus, one after another, and what stands there then: satp takes MODE 0 and 8
// alone, and MPP keeps what it has where the reserved mode is written.
type Write = (u16, u64, u64);

#[rattlefmt::skip]
const WRITES: &[Write] = &[
    (0x180, 0x9000_0000_0008_0000, 0),
    (0x180, 0x8000_0000_0008_0000, 0x8000_0000_0008_0000),
    (0x180, 0x9000_0000_0000_0000, 0x8000_0000_0008_0000),
    (0x180, 0x8fff_0000_0008_0001, 0x8000_0000_0008_0001),
    (0x180, 0x0000_0fff_ffff_ffff, 0x0000_0fff_ffff_ffff),
    (0x300, 0x800, 0x800),
    (0x300, 0x1008, 0x808),
    (0x300, 0x1800, 0x1800),
    (0x300, 0x11_1000, 0x10_1800),
];

// Makes the write.
fn stands_after(csrs: &mut Csrs, case: &Write) -> bool {
    let (number, value, stands) = *case;
    let legal = csrs.write(number, Mode::M, value).is_ok();
    let store = if number == 0x180 {
        csrs.satp()
    } else {
        csrs.mstatus()
    };
    legal && store == stands
}

#[test]
fn guards_refuse(rt: HostRuntime) {
    assert_eq!(rt; COUNTERS.iter().position(|case| !is_guarded(case)), None);
    let mut csrs = csrs_after(&[]);
    for case in WRITES {
        assert!(rt; stands_after(&mut csrs, case), "{:x}", case.1);
    }
    // TVM, bit 20, is set now.
    assert!(rt; csrs.write(0x180, Mode::S, 0).is_err());
    assert!(rt; csrs.read(0x180, Mode::S, 0, 0).is_err());
    assert!(rt; csrs.read(0x180, Mode::M, 0, 0) == Ok(0x0000_0fff_ffff_ffff));
}

// mideleg, mstatus, the mode, the lines and software bits that stand, and what is taken: the first of
// the order MEI, MSI, MTI, SEI, SSI, STI of those that go to M, else of those that go to S.
type Interrupt = (u64, u64, Mode, u64, Option<u64>);

#[rattlefmt::skip]
const INTERRUPTS: &[Interrupt] = &[
    (0, 0, Mode::U, 0xaaa, Some(MEI)),
    (0, 0, Mode::U, 0x2aa, Some(MSI)),
    (0, 0, Mode::U, 0x2a2, Some(MTI)),
    (0, 0, Mode::U, 0x222, Some(SEI)),
    (0, 0, Mode::U, 0x022, Some(SSI)),
    (0, 0, Mode::U, 0x020, Some(STI)),
    (0, 0, Mode::U, 0, None),
    (0, 0, Mode::S, 0x222, Some(SEI)),
    (0, 0, Mode::M, 0xaaa, None),
    (0, 8, Mode::M, 0xaaa, Some(MEI)),
    (0, 8, Mode::M, 0x020, Some(STI)),
    (0x222, 0, Mode::U, 0xaaa, Some(MEI)),
    (0x222, 0, Mode::U, 0x2a2, Some(MTI)),
    (0x222, 0, Mode::U, 0x222, Some(SEI)),
    (0x222, 0, Mode::U, 0x022, Some(SSI)),
    (0x222, 0, Mode::U, 0x020, Some(STI)),
    (0x222, 0, Mode::S, 0x222, None),
    (0x222, 2, Mode::S, 0x222, Some(SEI)),
    (0x222, 2, Mode::S, 0x022, Some(SSI)),
    (0x222, 0, Mode::S, 0x080, Some(MTI)),
    (0x222, 10, Mode::M, 0x222, None),
    (0x222, 10, Mode::M, 0xaaa, Some(MEI)),
    // What isn't delegated goes first, whatever its place in the order.
    (0x200, 2, Mode::S, 0x222, Some(SSI)),
    (0x202, 2, Mode::S, 0x222, Some(STI)),
    (0x202, 2, Mode::S, 0x202, Some(SEI)),
];

// Software raises those of S itself.
fn is_taken_so(case: &Interrupt) -> bool {
    let (mideleg, mstatus, mode, pending, cause) = *case;
    let mut csrs = csrs_after(&[(0x303, mideleg), (0x300, mstatus)]);
    if csrs.takeable(pending, mode).is_some() || csrs.write(0x304, Mode::M, ONES).is_err() {
        return false;
    }
    let by_lines = csrs.takeable(pending, mode);
    let raised = csrs.write(0x344, Mode::M, pending).is_ok();
    let by_both = csrs.takeable(pending & 0x888, mode);
    raised
        && csrs.mie() == 0xaaa
        && csrs.mip() == pending & 0x222
        && by_lines == cause
        && by_both == cause
}

#[test]
fn interrupts_come_in_order(rt: HostRuntime) {
    assert_eq!(rt; INTERRUPTS.iter().position(|case| !is_taken_so(case)), None);
}

// medeleg, mstatus, the mode and the cause; then the mode of the handler, its address and mstatus in
// it; and mstatus and the mode after the return.
type Trap = (u64, u64, Mode, u64, Mode, u64, u64, u64, Mode);

#[rattlefmt::skip]
const TRAPS: &[Trap] = &[
    (0x100, 0, Mode::U, 8, Mode::S, 0x8000_0200, 0, 0x20, Mode::U),
    (0x200, 2, Mode::S, 9, Mode::S, 0x8000_0200, 0x120, 0x22, Mode::S),
    (0x0ff, 0xa, Mode::U, 8, Mode::M, 0x8000_0300, 0x82, 0x8a, Mode::U),
    (4, 0, Mode::M, 2, Mode::M, 0x8000_0300, 0x1800, 0x80, Mode::M),
    (4, 0x2_0008, Mode::M, 2, Mode::M, 0x8000_0300, 0x2_1880, 0x2_0088, Mode::M),
    (4, 0x2_0008, Mode::S, 5, Mode::M, 0x8000_0300, 0x2_0880, 0x88, Mode::S),
    (4, 0x2_0002, Mode::S, 2, Mode::S, 0x8000_0200, 0x2_0120, 0x22, Mode::S),
    // mtvec is vectored: the handler of an interrupt begins 4 bytes further for each number.
    (0, 8, Mode::M, MTI, Mode::M, 0x8000_031c, 0x1880, 0x88, Mode::M),
    (0, 2, Mode::S, SSI, Mode::S, 0x8000_0200, 0x120, 0x22, Mode::S),
];

// Whether these registers have a trap's address, cause and value.
fn have_values(csrs: &Csrs, numbers: (u16, u16, u16), cause: u64) -> bool {
    csrs.read(numbers.0, Mode::M, 0, 0) == Ok(0x8000_0040)
        && csrs.read(numbers.1, Mode::M, 0, 0) == Ok(cause)
        && csrs.read(numbers.2, Mode::M, 0, 0) == Ok(0x1234)
}

fn is_taken_and_left(case: &Trap) -> bool {
    let (medeleg, mstatus, mode, cause, to, pc, inside, after, back) = *case;
    let mut csrs = csrs_after(&[
        (0x302, medeleg),
        (0x303, 2),
        (0x105, 0x8000_0200),
        (0x305, 0x8000_0301),
        (0x300, mstatus),
    ]);
    let entered = csrs.enter_trap(0x8000_0040, mode, cause, 0x1234) == (pc, to);
    let entered = entered && csrs.mstatus() == inside;
    let (told, left) = if to == Mode::S {
        (
            have_values(&csrs, (0x141, 0x142, 0x143), cause),
            csrs.sret(),
        )
    } else {
        (
            have_values(&csrs, (0x341, 0x342, 0x343), cause),
            csrs.mret(),
        )
    };
    entered && told && left == (0x8000_0040, back) && csrs.mstatus() == after
}

#[test]
fn traps_are_taken_and_left(rt: HostRuntime) {
    assert_eq!(rt;
        TRAPS.iter().position(|case| !is_taken_and_left(case)),
        None
    );

    // A counter begins anew after its last value.
    let mut csrs = csrs_after(&[(0xb00, ONES)]);
    for (cycle, instret) in [(true, true), (false, true), (true, false), (false, false)] {
        csrs.count(cycle, instret);
    }
    assert!(rt; csrs.read(0xb00, Mode::M, 0, 0) == Ok(1));
    assert!(rt; csrs.read(0xb02, Mode::M, 0, 0) == Ok(2));
}
