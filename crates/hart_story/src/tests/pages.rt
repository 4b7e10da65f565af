// Walks of page tables for fetches, loads, stores and atomic instructions, by the manual's text.
ghost use Rattle.flex_base.specs.Translation.{IsLeaf};
ghost use Rattle.hart_story.specs.CanBegin.{AreKept, CanBegin};

use super::needs::{fetch, pulse};
use super::playing::{begin, end, go_through};
use super::{BUDGET, MSTATUS, SATP, hart_in, layout, read};
use crate::{Hart, Need};
use flex_base::{Access, Class, Leaf, Mode};
use hart_state::Kept;
use std::process::Abort;

// Sv39, with the root table in frame 80010.
pub(super) const SV39: u64 = 0x8000_0000_0008_0010;

// The indices of this address are 1, 2 and 3.
pub(super) const DATA: u64 = 0x4040_3108;

pub(super) const PAGE: u64 = 0x4_0403;

// The entries of its walk: tables in frames 80011 and 80012, and frame 80020, to which flags are
// added. There it leads to this address.
pub(super) const TO_MIDDLE: u64 = 0x2000_4401;

pub(super) const TO_LAST: u64 = 0x2000_4801;

pub(super) const TO_DATA: u64 = 0x2000_8000;

pub(super) const PLACE: u64 = 0x8002_0108;

// ld x10, 0(x6)
pub(super) const LD: u32 = 0x0003_3503;

// Bits of mstatus; with the last, MPP is S.
pub(super) const MPRV: u64 = 0x2_0000;

pub(super) const MPP_S: u64 = 0x800;

// `x6` is the address of the data. Nothing is kept.
pub(super) fn walking_hart(mode: Mode, status: u64) -> Hart
    ensures { CanBegin 4 result }
{
    let mut hart = hart_in(mode, &[(SATP, SV39), (MSTATUS, status)]);
    hart.regs.x[5] = 5;
    hart.regs.x[6] = DATA;
    hart.regs.x[10] = 10;
    hart
}

// The page of pc is kept, in which virtual and physical addresses are the same.
pub(super) fn hart_under(mode: Mode, status: u64) -> Hart
    ensures { CanBegin 4 result }
{
    let mut hart = walking_hart(mode, status);
    let code = Leaf {
        page: 0x8_0000,
        frame: 0x8_0000,
        flags: if mode == Mode::U { 0x5b } else { 0x4b },
    };
    hart.kept = keeping(hart.kept, code);
    hart
}

// The page of the data is kept too, with these flags.
pub(super) fn hart_keeping(mode: Mode, status: u64, flags: u8) -> Hart
    ensures { CanBegin 4 result }
{
    let mut hart = hart_under(mode, status);
    hart.kept = keeping(hart.kept, data_leaf(flags));
    hart
}

pub(super) fn data_leaf(flags: u8) -> Leaf
    ensures { IsLeaf result }
{
    Leaf {
        page: PAGE,
        frame: 0x8_0020,
        flags,
    }
}

fn keeping(kept: Kept, leaf: Leaf) -> Kept
    requires { IsLeaf leaf }
    ensures { AreKept kept → AreKept result }
{
    let mut more = kept;
    more.keep(leaf);
    more
}

pub(super) fn pte(address: u64) -> Need {
    Need::Ask(Access::Pte { address }, Class::Walk)
}

// The walk of the data's page, which comes to this entry.
pub(super) fn walk_to(entry: u64) -> [(Need, u64); 3] {
    [
        (pte(0x8001_0008), TO_MIDDLE),
        (pte(0x8001_1010), TO_LAST),
        (pte(0x8001_2018), entry),
    ]
}

pub(super) type Told = (Class, u64, u64);

// The hart's next instruction makes these accesses in turn and gets these values. It tells its
// class and two values.
pub(super) fn make_all(rt: &impl Abort, hart: &mut Hart, accesses: &[(Need, u64)]) -> Told
    requires { CanBegin 4 hart.old }
    ensures { CanBegin 4 hart.new }
{
    make_parts(rt, hart, accesses, &[], &[])
}

// It is this word, fetched where pc is a physical address.
pub(super) fn make_word(
    rt: &impl Abort,
    hart: &mut Hart,
    word: u32,
    walk: &[(Need, u64)],
    last: &[(Need, u64)],
) -> Told
    requires { CanBegin 4 hart.old }
    ensures { CanBegin 4 hart.new }
{
    let fetched = (fetch(hart.regs.pc), word as u64);
    make_parts(rt, hart, &[fetched], walk, last)
}

fn make_parts(
    rt: &impl Abort,
    hart: &mut Hart,
    first: &[(Need, u64)],
    walk: &[(Need, u64)],
    last: &[(Need, u64)],
) -> Told
    requires { CanBegin 4 hart.old }
    ensures { CanBegin 4 hart.new }
{
    let layout = layout();
    let mut progress = begin(rt, hart, &layout, BUDGET);
    go_through(rt, hart, &mut progress, &layout, first);
    go_through(rt, hart, &mut progress, &layout, walk);
    go_through(rt, hart, &mut progress, &layout, last);
    let part = end(rt, hart, progress, &layout, BUDGET);
    (part.class, part.first, part.second)
}

// A load reads from this address, after this walk.
pub(super) fn assert_loads(rt: &impl Abort, hart: &mut Hart, walk: &[(Need, u64)], from: u64)
    requires { CanBegin 4 hart.old }
    ensures { CanBegin 4 hart.new }
{
    let told = make_word(rt, hart, LD, walk, &[(read(from, 8), 77)]);
    assert_eq!(rt; told, (Class::Load, 10, 77), "{from:x}");
}

// The word is an exception after this walk, and writes no register.
pub(super) fn assert_faults(
    rt: &impl Abort,
    hart: &mut Hart,
    word: u32,
    walk: &[(Need, u64)],
    cause: u64,
)
    requires { CanBegin 4 hart.old }
    ensures { CanBegin 4 hart.new }
{
    let before = hart.regs.x;
    let told = make_word(rt, hart, word, walk, &[]);
    assert_eq!(rt; told, (Class::Trap, cause, before[6]), "{word:x}");
    assert_eq!(rt; hart.regs.x, before, "{word:x}");
}

#[test]
fn walks_three_levels_for_the_fetch_and_for_the_load(rt: HostRuntime) {
    let mut hart = walking_hart(Mode::S, 0);
    hart.regs.pc = 0x4060_4040;
    hart.regs.due = true;
    let accesses = [
        (pulse(false), 0),
        (pte(0x8001_0008), TO_MIDDLE),
        (pte(0x8001_1018), TO_LAST),
        (pte(0x8001_2020), 0x2000_004b),
        (fetch(0x8000_0040), LD as u64),
        (pte(0x8001_0008), TO_MIDDLE),
        (pte(0x8001_1010), TO_LAST),
        (pte(0x8001_2018), TO_DATA | 0x43),
        (read(PLACE, 8), 77),
    ];
    let told = make_all(&rt, &mut hart, &accesses);
    assert_eq!(rt; told, (Class::Load, 10, 77));
    // Then both are kept.
    let accesses = [(fetch(0x8000_0044), LD as u64), (read(PLACE, 8), 78)];
    let told = make_all(&rt, &mut hart, &accesses);
    assert_eq!(rt; told, (Class::Load, 10, 78));
}

// Of 2 MiB and of 1 GiB. What is kept is the page of 4 KiB alone.
#[test]
fn finds_superpages(rt: HostRuntime) {
    let mut hart = hart_under(Mode::S, 0);
    let walk = [
        (pte(0x8001_0008), TO_MIDDLE),
        (pte(0x8001_1010), 0x2000_0043),
    ];
    assert_loads(&rt, &mut hart, &walk, 0x8000_3108);
    assert_loads(&rt, &mut hart, &[], 0x8000_3108);
    hart.regs.x[6] = DATA + 0x1000;
    assert_loads(&rt, &mut hart, &walk, 0x8000_4108);
    hart.regs.x[6] = 0x4000_5108;
    assert_loads(
        &rt,
        &mut hart,
        &[(pte(0x8001_0008), 0x2000_0043)],
        0x8000_5108,
    );
}

// The load sees what the fetch of its own instruction found.
#[test]
fn loads_from_the_page_of_the_fetch_without_a_walk(rt: HostRuntime) {
    let mut hart = walking_hart(Mode::S, 0);
    hart.regs.pc = 0x4040_3040;
    let [root, middle, last] = walk_to(TO_DATA | 0x4b);
    let fetched = (fetch(0x8002_0040), LD as u64);
    let told = make_all(
        &rt,
        &mut hart,
        &[root, middle, last, fetched, (read(PLACE, 8), 77)],
    );
    assert_eq!(rt; told, (Class::Load, 10, 77));
    assert_eq!(rt; hart.kept.look(PAGE), Some(data_leaf(0x4b)));
}

// With MPRV set M loads as the mode in MPP does. Its fetch is never translated.
#[test]
fn loads_in_m_as_the_mode_in_mpp(rt: HostRuntime) {
    for (status, flags) in [(MPRV | MPP_S, 0x43), (MPRV, 0x53)] {
        let walk = walk_to(TO_DATA | flags);
        assert_loads(&rt, &mut walking_hart(Mode::M, status), &walk, PLACE);
        let walk = walk_to(TO_DATA | flags ^ 0x10);
        assert_faults(&rt, &mut walking_hart(Mode::M, status), LD, &walk, 13);
    }
    // As in M, where there is no RAM at the address.
    for status in [MPRV | 0x1800, MPP_S, 0] {
        assert_faults(&rt, &mut hart_keeping(Mode::M, status, 0x53), LD, &[], 5);
    }
    // S is S with any MPP.
    assert_loads(
        &rt,
        &mut hart_keeping(Mode::S, MPRV | 0x1800, 0x43),
        &[],
        PLACE,
    );
}
