// Page faults, and access faults of translated addresses, by the manual's text.
use super::needs::fetch;
use super::pages::{
    DATA, LD, PAGE, SV39, TO_DATA, assert_faults, data_leaf, hart_keeping, hart_under, make_all,
    pte, walk_to, walking_hart,
};
use super::{SATP, written};
use crate::{Hart, Need};
use flex_base::{Class, Mode};
use std::process::Abort;

// sd x5, 0(x6), lr.d x10, (x6), sc.d x10, x5, (x6) and amomax.d x10, x5, (x6)
pub(super) const SD: u32 = 0x0053_3023;

pub(super) const LR: u32 = 0x1003_352f;

pub(super) const SC: u32 = 0x1853_352f;

pub(super) const AMO: u32 = 0xa053_352f;

// The page fault of each, and its access fault.
const CAUSES: [(u32, u64, u64); 5] = [
    (LD, 13, 5),
    (SD, 15, 7),
    (LR, 13, 5),
    (SC, 15, 7),
    (AMO, 15, 7),
];

// An entry that leads to frame 80100, at the end of RAM.
const TO_NOWHERE: u64 = 0x2004_0000;

// Entries that aren't valid, lead to a table outside RAM and to one more table, and a leaf that
// wasn't accessed.
#[test]
fn walks_fault_by_what_walks(rt: HostRuntime) {
    for (word, page_fault, access_fault) in CAUSES {
        assert_refused(&rt, word, &[(pte(0x8001_0008), 0)], page_fault);
        assert_refused(
            &rt,
            word,
            &[(pte(0x8001_0008), TO_NOWHERE | 1)],
            access_fault,
        );
        assert_refused(&rt, word, &walk_to(TO_DATA | 1), page_fault);
        assert_refused(&rt, word, &walk_to(TO_DATA | 0x8f), page_fault);
    }
}

// Nothing more is kept than before.
fn assert_refused(rt: &impl Abort, word: u32, walk: &[(Need, u64)], cause: u64) {
    let mut hart = hart_under(Mode::S, 0);
    let kept = hart.kept;
    assert_faults(rt, &mut hart, word, walk, cause);
    assert_eq!(rt; hart.kept, kept, "{word:x}");
}

// The walk has found the page, which is kept, but its frame isn't in RAM.
#[test]
fn pages_outside_ram_are_access_faults(rt: HostRuntime) {
    for (word, _, access_fault) in CAUSES {
        let mut hart = hart_under(Mode::S, 0);
        assert_faults(
            &rt,
            &mut hart,
            word,
            &walk_to(TO_NOWHERE | 0xcf),
            access_fault,
        );
        assert_eq!(rt; frame_of(&hart), 0x8_0100);
    }
}

// The frame that is kept for the page of the data, or 0.
fn frame_of(hart: &Hart) -> u64 {
    match hart.kept.look(PAGE) {
        Some(leaf) => leaf.frame,
        None => 0,
    }
}

// As for the data, and a page that can't be fetched from, and one of U. What is outside RAM is kept.
#[test]
fn fetches_fault_at_pc(rt: HostRuntime) {
    assert_unfetched(&rt, DATA, &[(pte(0x8001_0008), 0)], 12, 0);
    assert_unfetched(&rt, DATA, &[(pte(0x8001_0008), TO_NOWHERE | 1)], 1, 0);
    assert_unfetched(&rt, DATA, &walk_to(TO_DATA | 0xc7), 12, 0);
    assert_unfetched(&rt, DATA, &walk_to(TO_DATA | 0x5b), 12, 0);
    assert_unfetched(&rt, DATA, &walk_to(TO_NOWHERE | 0x4b), 1, 0x8_0100);
    assert_unfetched(&rt, 0x40_0000_0000, &[], 12, 0);
}

// The fetch at this pc is an exception after this walk, and this frame is kept.
fn assert_unfetched(rt: &impl Abort, pc: u64, walk: &[(Need, u64)], cause: u64, frame: u64) {
    let mut hart = walking_hart(Mode::S, 0);
    hart.regs.pc = pc;
    let told = make_all(rt, &mut hart, walk);
    assert_eq!(rt; told, (Class::Trap, cause, pc));
    assert_eq!(rt; frame_of(&hart), frame);
}

// Also where the rest of the address names a page that is kept.
#[test]
fn addresses_that_are_not_canonical_fault_without_a_walk(rt: HostRuntime) {
    for va in [0x40_0000_0000, 0x80_4040_3108, 0x8000_0000_4040_3108] {
        let mut hart = hart_keeping(Mode::S, 0, 0xcf);
        hart.regs.x[6] = va;
        assert_faults(&rt, &mut hart, LD, &[], 13);
    }
}

#[test]
fn a_root_outside_ram_is_not_read(rt: HostRuntime) {
    let mut hart = hart_under(Mode::S, 0);
    hart.csrs = written(hart.csrs, &[(SATP, SV39 + 0xf0)]);
    assert_faults(&rt, &mut hart, SD, &[], 7);
}

// What the fetch of an instruction found is kept, though its load faults.
#[test]
fn faults_keep_the_page_of_the_fetch(rt: HostRuntime) {
    let mut hart = walking_hart(Mode::S, 0);
    hart.regs.pc = 0x4040_3040;
    hart.regs.x[6] = DATA + 0x1000;
    let [root, middle, last] = walk_to(TO_DATA | 0x4b);
    let fetched = (fetch(0x8002_0040), LD as u64);
    let told = make_all(
        &rt,
        &mut hart,
        &[root, middle, last, fetched, root, (pte(0x8001_1010), 0)],
    );
    assert_eq!(rt; told, (Class::Trap, 13, DATA + 0x1000));
    assert_eq!(rt; hart.kept.look(PAGE), Some(data_leaf(0x4b)));
}
