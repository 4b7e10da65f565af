// What a hart keeps of its walks, by this project's rule.
ghost use Rattle.hart_story.specs.CanBegin.{CanBegin};

use super::needs::{fetch, write};
use super::page_faults::{AMO, LR, SC, SD};
use super::pages::{
    LD, MPP_S, MPRV, PAGE, PLACE, TO_DATA, TO_LAST, TO_MIDDLE, assert_faults, assert_loads,
    data_leaf, hart_keeping, make_all, make_word, pte, walk_to, walking_hart,
};
use super::returns::{SFENCE_VMA, TSR, TVM, TW};
use super::{MSTATUS, SATP, lr, sc, written};
use crate::Hart;
use flex_base::{Class, Leaf, Mode};
use hart_state::Kept;
use std::process::Abort;

const SUM: u64 = 0x4_0000;

const MXR: u64 = 0x8_0000;

// The mode, mstatus, the flags that are kept, and an instruction that they don't permit, with its
// cause.
#[rattlefmt::skip]
const REFUSED: [(Mode, u64, u8, u32, u64); 9] = [
    (Mode::S, 0, 0x49, LD, 13), (Mode::S, 0, 0x49, LR, 13), (Mode::S, MXR, 0x53, LD, 13),
    (Mode::S, 0, 0xcb, SD, 15), (Mode::S, 0, 0xcb, SC, 15), (Mode::S, 0, 0x47, AMO, 15),
    (Mode::U, SUM, 0x43, LD, 13), (Mode::S, 0, 0xd7, SD, 15), (Mode::M, MPRV | MPP_S, 0x53, LD, 13),
];

// And those by which a load is permitted.
#[rattlefmt::skip]
const PERMITTED: [(Mode, u64, u8); 6] = [
    (Mode::S, 0, 0x43), (Mode::S, MXR, 0x49), (Mode::S, SUM, 0x53), (Mode::U, 0, 0x53), (Mode::M, MPRV, 0x53),
    (Mode::M, MPRV | MPP_S | SUM, 0x53),
];

// No row walks, and what is kept stays.
#[test]
fn kept_pages_are_tested_anew(rt: HostRuntime) {
    for (mode, status, flags, word, cause) in REFUSED {
        let mut hart = hart_keeping(mode, status, flags);
        assert_faults(&rt, &mut hart, word, &[], cause);
        assert_eq!(rt; hart.kept.look(PAGE), Some(data_leaf(flags)));
    }
    for (mode, status, flags) in PERMITTED {
        assert_loads(&rt, &mut hart_keeping(mode, status, flags), &[], PLACE);
    }
}

// A load finds a page of U while SUM is set. When SUM is cleared it is kept, and not S's to load.
#[test]
fn pages_that_a_load_found_are_tested_anew(rt: HostRuntime) {
    let mut hart = walking_hart(Mode::M, MPRV | MPP_S | SUM);
    assert_loads(&rt, &mut hart, &walk_to(TO_DATA | 0x53), PLACE);
    assert_loads(&rt, &mut hart, &[], PLACE);
    hart.csrs = written(hart.csrs, &[(MSTATUS, MPRV | MPP_S)]);
    assert_faults(&rt, &mut hart, LD, &[], 13);
}

// What its own fetch found is dropped too.
#[test]
fn fences_drop_what_is_kept(rt: HostRuntime) {
    for (mode, bits) in [(Mode::S, TW | TSR), (Mode::M, TVM)] {
        let mut hart = hart_keeping(mode, bits, 0x43);
        let told = make_word(&rt, &mut hart, SFENCE_VMA, &[], &[]);
        assert_eq!(rt; told, (Class::System, 0, 0));
        assert_eq!(rt; hart.kept, Kept::new());
    }
    assert_eq!(rt; kept_after(&rt, SFENCE_VMA), None);
    // addi x10, x0, 7
    assert_eq!(rt; kept_after(&rt, 0x0070_0513), Some(data_leaf(0x4b)));
}

// The leaf of the page of pc after this word, to which its fetch walks.
fn kept_after(rt: &impl Abort, word: u32) -> Option<Leaf> {
    let mut hart = walking_hart(Mode::S, 0);
    hart.regs.pc = 0x4040_3040;
    let [root, middle, last] = walk_to(TO_DATA | 0x4b);
    let _ = make_all(
        rt,
        &mut hart,
        &[root, middle, last, (fetch(0x8002_0040), word as u64)],
    );
    hart.kept.look(PAGE)
}

// csrw satp, x5
const CSRW: u32 = 0x1802_9073;

// A MODE that there isn't changes nothing, and ASID reads 0.
#[test]
fn writes_of_satp_that_take_effect_drop_what_is_kept(rt: HostRuntime) {
    let kept = hart_keeping(Mode::M, 0, 0x43).kept;
    assert_left(&rt, 0x9000_0000_0008_0000, 0, &kept);
    assert_left(
        &rt,
        0x8000_0000_0008_0000,
        0x8000_0000_0008_0000,
        &Kept::new(),
    );
    assert_left(
        &rt,
        0x8fff_0000_0008_0000,
        0x8000_0000_0008_0000,
        &Kept::new(),
    );
    assert_left(&rt, 0, 0, &Kept::new());
    assert_eq!(rt; kept_after(&rt, CSRW), None);
}

// What satp, which is 0, and what is kept are after this write.
fn assert_left(rt: &impl Abort, value: u64, satp: u64, kept: &Kept) {
    let mut hart = hart_keeping(Mode::M, 0, 0x43);
    hart.csrs = written(hart.csrs, &[(SATP, 0)]);
    hart.regs.x[5] = value;
    let _ = make_word(rt, &mut hart, CSRW, &[], &[]);
    assert_eq!(rt; hart.csrs.satp(), satp);
    assert_eq!(rt; hart.kept, *kept, "{value:x}");
}

// A load-reserved and a store-conditional reserve by the physical address.
#[test]
fn reserves_where_the_page_leads(rt: HostRuntime) {
    let mut hart = hart_keeping(Mode::S, 0, 0xc7);
    let told = make_word(&rt, &mut hart, LR, &[(lr(PLACE, 8), 77)], &[]);
    assert_eq!(rt; told, (Class::Atomic, 10, 77));
    assert_eq!(rt; hart.regs.reservation, Some(PLACE));
    let told = make_word(&rt, &mut hart, SC, &[(sc(PLACE, 8, 5), 0)], &[]);
    assert_eq!(rt; told, (Class::Atomic, 10, 0));
}

// A store writes the entry by which its own page was found. The page is kept as it was until a fence.
#[test]
fn stores_into_the_table_of_their_page(rt: HostRuntime) {
    let mut hart = walking_hart(Mode::M, MPRV | MPP_S);
    hart.regs.x[5] = TO_DATA | 0x43;
    hart.regs.x[6] = 0x4040_3018;
    let stored = (write(0x8001_2018, 8, TO_DATA | 0x43), 0);
    let told = make_word(&rt, &mut hart, SD, &walk_to(TO_LAST | 0xc6), &[stored]);
    assert_eq!(rt; told, (Class::Store, 0, 0));
    assert_loads(&rt, &mut hart, &[], 0x8001_2018);
    let _ = make_word(&rt, &mut hart, SFENCE_VMA, &[], &[]);
    assert_loads(&rt, &mut hart, &walk_to(TO_DATA | 0x43), 0x8002_0018);
}

// The last page takes the place of the first, which has the same remainder.
#[test]
fn seventeen_pages_have_sixteen_places(rt: HostRuntime) {
    let mut hart = walking_hart(Mode::M, MPRV | MPP_S);
    'walks: for page in 0..17 {
        walks_to_page(&rt, &mut hart, page);
    }
    'kept: for page in 1..17 {
        hart.regs.x[6] = 0x4040_0108 | page << 12;
        assert_loads(&rt, &mut hart, &[], 0x8002_0108 | page << 12);
    }
    walks_to_page(&rt, &mut hart, 0);
}

// By the entry of this number in the last table.
fn walks_to_page(rt: &impl Abort, hart: &mut Hart, page: u64)
    requires { CanBegin 4 hart.old }
    ensures { CanBegin 4 hart.new }
{
    hart.regs.x[6] = 0x4040_0108 | page << 12;
    let walk = [
        (pte(0x8001_0008), TO_MIDDLE),
        (pte(0x8001_1010), TO_LAST),
        (pte(0x8001_2000 | page << 3), TO_DATA | page << 10 | 0x43),
    ];
    assert_loads(rt, hart, &walk, 0x8002_0108 | page << 12);
}
