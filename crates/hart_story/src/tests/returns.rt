// Returns from traps, and instructions of supervisors, by the manual's text.
use super::needs::need_of;
use super::traps::{assert_traps, hart_of_traps};
use super::{MCYCLE, MEPC, MINSTRET, MSTATUS, SEPC, assert_becomes, hart_in, word, written};
use crate::Need;
use flex_base::{Access, Class, Mode};
use std::process::Abort;

const MRET: u32 = 0x3020_0073;

const SRET: u32 = 0x1020_0073;

pub(super) const WFI: u32 = 0x1050_0073;

pub(super) const SFENCE_VMA: u32 = 0x1200_0073;

// Bits of mstatus.
pub(super) const TVM: u64 = 0x10_0000;

pub(super) const TW: u64 = 0x20_0000;

pub(super) const TSR: u64 = 0x40_0000;

#[test]
fn returns_lead_back(rt: HostRuntime) {
    leads_back_from_m(&rt);
    leads_back_from_s(&rt);
    refuses_by_mode(&rt);
    permits_by_mode(&rt);
}

// mstatus before and after, and the mode after: MIE (8) is what MPIE (80) was, which is then set, and
// MPP (1800) is U; MPRV (20000) is cleared but where the mode is M.
fn leads_back_from_m(rt: &impl Abort) {
    let table = [
        (0x0, 0x80, Mode::U),
        (0x2_0088, 0x88, Mode::U),
        (0x808, 0x80, Mode::S),
        (0x2_0880, 0x88, Mode::S),
        (0x2_1880, 0x2_0088, Mode::M),
        (0x7c_1808, 0x7c_0080, Mode::M),
    ];
    for (status, left, mode) in table {
        assert_returns(rt, Mode::M, MRET, status, (left, mode, 0x8000_0400));
    }
}

// SIE (2) is what SPIE (20) was, which is then set, and SPP (100) is U; MPRV is cleared.
fn leads_back_from_s(rt: &impl Abort) {
    let table = [
        (0x2, 0x20, Mode::U),
        (0x2_0020, 0x22, Mode::U),
        (0x2_0102, 0x20, Mode::S),
        (0x1920, 0x1822, Mode::S),
    ];
    for (status, left, mode) in table {
        assert_returns(rt, Mode::S, SRET, status, (left, mode, 0x8000_0500));
        // TSR doesn't keep M from it.
        let (status, left) = (status | TSR, left | TSR);
        assert_returns(rt, Mode::M, SRET, status, (left, mode, 0x8000_0500));
    }
}

// The return leaves this mstatus, and leads to this mode and address.
fn assert_returns(rt: &impl Abort, from: Mode, made: u32, status: u64, to: (u64, Mode, u64)) {
    let (left, mode, next) = to;
    let hart = hart_in(
        from,
        &[(MEPC, 0x8000_0400), (SEPC, 0x8000_0500), (MSTATUS, status)],
    );
    let mut after = hart;
    after.regs.pc = next;
    after.regs.mode = mode;
    after.regs.ends = 1;
    after.regs.due = true;
    after.csrs = written(after.csrs, &[(MSTATUS, left), (MCYCLE, 1), (MINSTRET, 1)]);
    assert_becomes(rt, &hart, &[word(made)], (Class::System, 0, 0), &after);
}

fn refuses_by_mode(rt: &impl Abort) {
    let table = [
        (Mode::U, MRET, 0),
        (Mode::S, MRET, 0),
        (Mode::U, SRET, 0),
        (Mode::S, SRET, TSR),
        (Mode::U, WFI, 0),
        (Mode::S, WFI, TW),
        (Mode::U, SFENCE_VMA, 0),
        (Mode::S, SFENCE_VMA, TVM),
    ];
    for (mode, made, bits) in table {
        let mut hart = hart_of_traps(mode, 0x8000_0040, 0);
        hart.csrs = written(hart.csrs, &[(MSTATUS, 0xa | bits)]);
        assert_traps(rt, &hart, &[word(made)], 2, made as u64, Mode::M);
    }
}

// M and S may wait, M whatever TW says.
fn permits_by_mode(rt: &impl Abort) {
    let wait = Need::Ask(Access::Wait { mie: 0 }, Class::Pulse);
    for (mode, bits) in [(Mode::S, TVM | TSR), (Mode::M, TW)] {
        let hart = hart_in(mode, &[(MSTATUS, bits)]);
        assert_eq!(rt; need_of(&hart, WFI), wait);
    }
}
