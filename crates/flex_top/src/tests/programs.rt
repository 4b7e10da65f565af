// Whole programs: what a clause says of each event is here seen to come to what it should.

use super::{ENDED, run, text_of};
use crate::status::status_code;
use flex_base::MemoryOuter;
use std::alloc::{AllocError, Global};
use std::process::Abort;

// The bytes of an image of these words.
pub(super) fn image_of(alloc: Global, words: &[u32]) -> Result<Vec<u8>, AllocError> {
    let mut image = Vec::new(alloc);
    for word in words {
        image.extend_from_slice(&word.to_le_bytes())?;
    }
    Ok(image)
}

// What is left by a run of these words that comes to an end.
pub(super) fn run_to_end(
    rt: &impl Abort,
    alloc: Global,
    words: &[u32],
    line: &str,
) -> Result<MemoryOuter, AllocError> {
    let image = image_of(alloc, words)?;
    let (status, outer) = run(alloc, &image, line, &[])?;
    assert!(rt; status_code(&status) == ENDED);
    Ok(outer)
}

// That the trace has each of these parts.
pub(super) fn assert_parts(rt: &impl Abort, outer: &MemoryOuter, parts: &[&str]) {
    let text = text_of(outer);
    for part in parts {
        assert!(rt; text.contains(*part), "no {part}");
    }
}

// Stores -2 of every width at the end of 1 MiB of RAM and at its beginning, and loads it again; the last store is outside.
const ENDS_OF_RAM: [u32; 22] = [
    0x00000297, 0x00100337, 0x00530333, 0xffe00393, 0xfe730fa3, 0xfff34403, 0xfe731f23, 0xffe35483,
    0xfe732e23, 0xffc36583, 0xfe733c23, 0xff832603, 0xff833683, 0x0072b023, 0x0002b703, 0x0002a023,
    0x00429783, 0x00029323, 0x00528803, 0x00028223, 0x0002b883, 0x00730023,
];

const AT_BOTH_ENDS: [&str; 18] = [
    " p write 00000000800fffff 1 00000000000000fe\n",
    " p read 00000000800fffff 1 00000000000000fe\n",
    " p write 00000000800ffffe 2 000000000000fffe\n",
    " p read 00000000800ffffe 2 000000000000fffe\n",
    " p write 00000000800ffffc 4 00000000fffffffe\n",
    " p read 00000000800ffffc 4 00000000fffffffe\n",
    " p write 00000000800ffff8 8 fffffffffffffffe\n",
    " p read 00000000800ffff8 4 00000000fffffffe\n",
    " p read 00000000800ffff8 8 fffffffffffffffe\n",
    " p write 0000000080000000 8 fffffffffffffffe\n",
    " p write 0000000080000000 4 0000000000000000\n",
    " p read 0000000080000004 2 000000000000ffff\n",
    " p write 0000000080000006 2 0000000000000000\n",
    " p read 0000000080000005 1 00000000000000ff\n",
    " p write 0000000080000004 1 0000000000000000\n",
    " p read 0000000080000000 8 0000ff0000000000\n",
    "\nhart 0 x8 00000000000000fe\nhart 0 x9 000000000000fffe\nhart 0 x11 00000000fffffffe\nhart 0 x12 fffffffffffffffe\n",
    "\nhart 0 x15 ffffffffffffffff\nhart 0 x16 ffffffffffffffff\nhart 0 x17 0000ff0000000000\n",
];

#[test]
fn reaches_both_ends_of_ram(rt: HostRuntime) -> Result<(), AllocError> {
    let line = "solo img out --ram=1 --budget=21";
    let outer = run_to_end(&rt, rt.alloc(), &ENDS_OF_RAM, line)?;
    assert_parts(&rt, &outer, &AT_BOTH_ENDS);
    let image = image_of(rt.alloc(), &ENDS_OF_RAM)?;
    let line = "solo img out --ram=1 --budget=22";
    let (status, _) = run(rt.alloc(), &image, line, &[])?;
    assert!(rt; status_code(&status) == ENDED);
    Ok(())
}

// Atomic instructions, multiplications and divisions on the word at 80000100 and the 8 bytes at 80000140: AMOMAX.W and
// AMOMAXU.W of 1 where all bits are set; LR at either place, so that neither SC after them makes an access; LR.D, an SC.W
// in its 8 bytes, and an SC.D after that; MUL of -1 by itself, DIVU of all bits by 1, and REM of -1 by 0.
const ATOMICS: [u32; 20] = [
    0x00000297, 0x10028293, 0x04028593, 0xfff00313, 0x00100393, 0x0062a023, 0xa072a42f, 0x0002a483,
    0x0062a023, 0xe072a62f, 0x1002a6af, 0x1005b72f, 0x1872a7af, 0x1875b82f, 0x1002b8af, 0x1872a92f,
    0x1872b9af, 0x02630a33, 0x02735ab3, 0x02036b33,
];

// The last number tells that one of the four store-conditionals makes an access: 20 fetches, 20 ends, 9 accesses of data
// and a handover come before it.
const OF_ATOMICS: [&str; 17] = [
    " p amo max 0000000080000100 4 0000000000000001 00000000ffffffff\n",
    " p end atomic 0000000080000018 000000008000001c x8 ffffffffffffffff\n",
    " p end load 000000008000001c 0000000080000020 x9 0000000000000001\n",
    " p amo maxu 0000000080000100 4 0000000000000001 00000000ffffffff\n",
    " p lr 0000000080000100 4 00000000ffffffff\n",
    " p end atomic 0000000080000028 000000008000002c x13 ffffffffffffffff\n",
    " p lr 0000000080000140 8 0000000000000000\n",
    " p end atomic 0000000080000030 0000000080000034 x15 0000000000000001\n",
    " p end atomic 0000000080000034 0000000080000038 x16 0000000000000001\n",
    " p lr 0000000080000100 8 00000000ffffffff\n",
    " p sc 0000000080000100 4 0000000000000001 0\n",
    " p end atomic 000000008000003c 0000000080000040 x18 0000000000000000\n",
    " p end atomic 0000000080000040 0000000080000044 x19 0000000000000001\n",
    " p end muldiv 0000000080000044 0000000080000048 x20 0000000000000001\n",
    " p end muldiv 0000000080000048 000000008000004c x21 ffffffffffffffff\n",
    " p end muldiv 000000008000004c 0000000080000050 x22 ffffffffffffffff\n",
    "\n50 0 k retire\n",
];

#[test]
fn makes_atomic_instructions(rt: HostRuntime) -> Result<(), AllocError> {
    let line = "solo img out --ram=1 --budget=20";
    let outer = run_to_end(&rt, rt.alloc(), &ATOMICS, line)?;
    assert_parts(&rt, &outer, &OF_ATOMICS);
    Ok(())
}

// All nine operations of -2 or 3 on the word at 80000200, from 0 on, and on the 8 bytes at 80000208; each place is then read.
const OPERATIONS: [u32; 25] = [
    0x00000297, 0x20028293, 0x00828593, 0xffe00313, 0x00300393, 0x0872a42f, 0x0062a42f, 0x2072a42f,
    0x4072a42f, 0x6062a42f, 0x8062a42f, 0xa072a42f, 0xc062a42f, 0xe062a42f, 0x0002a483, 0x0875b42f,
    0x0065b42f, 0x2075b42f, 0x4075b42f, 0x6065b42f, 0x8065b42f, 0xa075b42f, 0xc065b42f, 0xe065b42f,
    0x0005b603,
];

const OF_OPERATIONS: [&str; 20] = [
    " p amo swap 0000000080000200 4 0000000000000003 0000000000000000\n",
    " p amo add 0000000080000200 4 00000000fffffffe 0000000000000003\n",
    " p amo xor 0000000080000200 4 0000000000000003 0000000000000001\n",
    " p amo or 0000000080000200 4 0000000000000003 0000000000000002\n",
    " p amo and 0000000080000200 4 00000000fffffffe 0000000000000003\n",
    " p amo min 0000000080000200 4 00000000fffffffe 0000000000000002\n",
    " p amo max 0000000080000200 4 0000000000000003 00000000fffffffe\n",
    " p amo minu 0000000080000200 4 00000000fffffffe 0000000000000003\n",
    " p amo maxu 0000000080000200 4 00000000fffffffe 0000000000000003\n",
    " p read 0000000080000200 4 00000000fffffffe\n",
    " p amo swap 0000000080000208 8 0000000000000003 0000000000000000\n",
    " p amo add 0000000080000208 8 fffffffffffffffe 0000000000000003\n",
    " p amo xor 0000000080000208 8 0000000000000003 0000000000000001\n",
    " p amo or 0000000080000208 8 0000000000000003 0000000000000002\n",
    " p amo and 0000000080000208 8 fffffffffffffffe 0000000000000003\n",
    " p amo min 0000000080000208 8 fffffffffffffffe 0000000000000002\n",
    " p amo max 0000000080000208 8 0000000000000003 fffffffffffffffe\n",
    " p amo minu 0000000080000208 8 fffffffffffffffe 0000000000000003\n",
    " p amo maxu 0000000080000208 8 fffffffffffffffe 0000000000000003\n",
    " p read 0000000080000208 8 fffffffffffffffe\n",
];

#[test]
fn makes_each_atomic_operation(rt: HostRuntime) -> Result<(), AllocError> {
    let line = "solo img out --ram=1 --budget=25";
    let outer = run_to_end(&rt, rt.alloc(), &OPERATIONS, line)?;
    assert_parts(&rt, &outer, &OF_OPERATIONS);
    Ok(())
}

// A table of one entry, by which the GiB of RAM stands for itself: `satp` is written, and `mret` leads into S, where the
// word at its own address is loaded, no translation is kept any more, and address 0 is loaded from.
const TRANSLATED: [u32; 19] = [
    0x00001297, 0x20000337, 0x0cf30313, 0x0062b823, 0x00c2d293, 0x00800393, 0x03c39393, 0x0072e2b3,
    0x18029073, 0x00001437, 0x00145413, 0x30042073, 0x00000497, 0x01048493, 0x34149073, 0x30200073,
    0x0004a503, 0x12000073, 0x00002583,
];

// The fetch's leaf serves the load of the same instruction and the next fetch, up to the fence.
const BY_ONE_ENTRY: [&str; 3] = [
    " k end system 000000008000003c 0000000080000040 x0 0000000000000000
41 0 k pulse 0 0000000000000000 0 0
42 0 k pte 0000000080001010 00000000200000cf
43 0 k to p
44 0 p fetch 0000000080000040 0004a503
45 0 p read 0000000080000040 4 000000000004a503
46 0 p end load 0000000080000040 0000000080000044 x10 000000000004a503
47 0 p fetch 0000000080000044 12000073
48 0 p to k
49 0 k end system 0000000080000044 0000000080000048 x0 0000000000000000
50 0 k pte 0000000080001010 00000000200000cf
51 0 k to p
52 0 p fetch 0000000080000048 00002583
53 0 p to k
54 0 k pte 0000000080001000 0000000000000000
55 0 k end trap 0000000080000048 0000000000000000 000000000000000d 0000000000000000
56 0 k retire
",
    "\nhart 0 csr 180 8000000000080001\n",
    "\nhart 0 csr 342 000000000000000d\n",
];

#[test]
fn translates_addresses(rt: HostRuntime) -> Result<(), AllocError> {
    let line = "solo img out --ram=1 --budget=19";
    let outer = run_to_end(&rt, rt.alloc(), &TRANSLATED, line)?;
    assert_parts(&rt, &outer, &BY_ONE_ENTRY);
    Ok(())
}

// The pulses come after 64 and 128 ends of 129.
const PULSES: [&str; 3] = [
    "\n128 0 p to k\n129 0 k pulse 1 0000000000000000 0 0\n130 0 k to p\n",
    "\n259 0 p to k\n260 0 k pulse 1 0000000000000000 0 0\n261 0 k to p\n",
    "\n265 0 k retire\nstop budget\n",
];

#[test]
fn pulses_after_each_64_ends(rt: HostRuntime) -> Result<(), AllocError> {
    let line = "solo img out --ram=1 --budget=129";
    let outer = run_to_end(&rt, rt.alloc(), &[0x0000006f], line)?;
    assert_parts(&rt, &outer, &PULSES);
    Ok(())
}

// Each adds 1 to the word at 80000200 five times, and then jumps to itself: by one atomic operation, by a load-reserved and
// a store-conditional, under a lock that an atomic swap takes, and under Peterson's algorithm by plain loads and stores.
const BY_AMO: [u32; 8] = [
    0x00000297, 0x20028293, 0x00100313, 0x00500393, 0x0062a42f, 0xfff38393, 0xfe039ce3, 0x0000006f,
];

const BY_RESERVATION: [u32; 10] = [
    0x00000297, 0x20028293, 0x00500393, 0x1002a42f, 0x00140413, 0x1882a4af, 0xfe049ae3, 0xfff38393,
    0xfe0396e3, 0x0000006f,
];

const UNDER_A_SPINLOCK: [u32; 14] = [
    0x00000297, 0x20028293, 0x04028593, 0x00100313, 0x00500393, 0x0865a4af, 0xfe049ee3, 0x0002a403,
    0x00140413, 0x0082a023, 0x0005a023, 0xfff38393, 0xfe0392e3, 0x0000006f,
];

const BY_PETERSON: [u32; 21] = [
    0x00000297, 0x20028293, 0x04028593, 0x00a58633, 0x00100313, 0x40a306b3, 0x00d58733, 0x00500393,
    0x00660023, 0x00d58123, 0x00074483, 0x00048663, 0x0025c483, 0xfed48ae3, 0x0002a403, 0x00140413,
    0x0082a023, 0x00060023, 0xfff38393, 0xfc039ae3, 0x0000006f,
];

// The words for a run of two harts in the order of this number: they take turns of one event more than that, and from number 5 on
// of pseudorandom lengths.
fn line_of(alloc: Global, number: u64) -> Result<String, AllocError> {
    let mut line = String::from_str(
        alloc,
        "solo img out --harts=2 --ram=1 --budget=600 --order=",
    )?;
    let mut state = number;
    for i in 0..3000 {
        state = state.wrapping_mul(1_103_515_245).wrapping_add(12_345) % 2_147_483_648;
        let second = if number < 5 {
            i / (number + 1) % 2 == 1
        } else {
            state / 65_536 % 2 == 1
        };
        line.push(if second { '1' } else { '0' })?;
    }
    Ok(line)
}

#[test]
fn loses_no_update(rt: HostRuntime) -> Result<(), AllocError> {
    for (words, last) in [
        (
            BY_AMO.as_slice(),
            " amo add 0000000080000200 4 0000000000000001 0000000000000009\n",
        ),
        (
            BY_RESERVATION.as_slice(),
            " sc 0000000080000200 4 000000000000000a 0\n",
        ),
        (
            UNDER_A_SPINLOCK.as_slice(),
            " write 0000000080000200 4 000000000000000a\n",
        ),
        (
            BY_PETERSON.as_slice(),
            " write 0000000080000200 4 000000000000000a\n",
        ),
    ] {
        for number in 0..10 {
            assert_last(&rt, rt.alloc(), words, number, last)?;
        }
    }
    Ok(())
}

// That the run in the order of this number comes to this event.
fn assert_last(
    rt: &impl Abort,
    alloc: Global,
    words: &[u32],
    number: u64,
    last: &str,
) -> Result<(), AllocError> {
    let line = line_of(alloc, number)?;
    let outer = run_to_end(rt, alloc, words, &line)?;
    assert!(rt; text_of(&outer).contains(last), "order {number}: no {last}");
    Ok(())
}
