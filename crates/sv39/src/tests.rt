use super::*;
use flex_base::Mode;

// The root table in frame 80000.
const SATP: u64 = 0x8000_0000_0008_0000;

// The indices of this address are 1, 2 and 3.
const VA: u64 = 0x4040_3567;

const PAGE: u64 = 0x40403;

// Tables in frames 80001 and 80002.
const MIDDLE: u64 = 0x2000_0401;

const LAST: u64 = 0x2000_0801;

// The step after the entries were given in order, from the root's on.
fn step_after(satp: u64, va: u64, entries: &[u64]) -> WalkStep {
    let mut walk = Walk::start(satp, va);
    for pte in entries {
        walk.give(*pte);
    }
    walk.next()
}

// The step after this entry of the table of a level.
fn step_at(level: u8, pte: u64) -> WalkStep {
    match level {
        2 => step_after(SATP, VA, &[pte]),
        1 => step_after(SATP, VA, &[MIDDLE, pte]),
        _ => step_after(SATP, VA, &[MIDDLE, LAST, pte]),
    }
}

fn need(address: u64) -> WalkStep {
    WalkStep::Need(address)
}

fn leaf(frame: u64, flags: u8) -> WalkStep {
    WalkStep::Leaf(Leaf {
        page: PAGE,
        frame,
        flags,
    })
}

#[test]
fn begins_by_the_address(rt: HostRuntime) {
    for (satp, va, wanted) in [
        (SATP, VA, need(0x8000_0008)),
        (SATP, 0x3f_ffff_ffff, need(0x8000_07f8)),
        (SATP, 0x40_0000_0000, WalkStep::Fault),
        (SATP, 0xffff_ffc0_0000_0000, need(0x8000_0800)),
        (SATP, 0xffff_ffbf_ffff_ffff, WalkStep::Fault),
        (SATP, 0x7fff_ffc0_0000_0000, WalkStep::Fault),
        // The mode and the address space of satp change nothing.
        (0x8000_0000_0008_0001, 0x8000_0004, need(0x8000_1010)),
        (0x0fff_f000_0008_0001, 0x8000_0004, need(0x8000_1010)),
    ] {
        assert_eq!(rt; step_after(satp, va, &[]), wanted, "{satp:x} {va:x}");
    }
    let gigapage = Leaf {
        page: 0x80000,
        frame: 0x80000,
        flags: 0xcf,
    };
    assert_eq!(rt;
        step_after(0x8000_0000_0008_0001, 0x8000_0004, &[0x2000_00cf]),
        WalkStep::Leaf(gigapage)
    );
}

#[test]
fn follows_tables_and_leaves(rt: HostRuntime) {
    for (level, pte, wanted) in [
        (2, 0x2000_0c01, need(0x8000_3010)),
        (1, 0x2000_0c01, need(0x8000_3018)),
        (0, 0x2000_0c01, WalkStep::Fault),
        // G and RSW may be set.
        (2, 0x2000_0f21, need(0x8000_3010)),
        (1, 0x3f_ffff_ffff_ff21, need(0xff_ffff_ffff_f018)),
        // A frame that is a multiple of a gigapage, one of a megapage, one of a page.
        (2, 0x2000_00cf, leaf(0x80403, 0xcf)),
        (1, 0x2000_00cf, leaf(0x80003, 0xcf)),
        (0, 0x2000_00cf, leaf(0x80000, 0xcf)),
        (2, 0x2008_0053, WalkStep::Fault),
        (1, 0x2008_0053, leaf(0x80203, 0x53)),
        (0, 0x2008_0053, leaf(0x80200, 0x53)),
        (2, 0x2000_0443, WalkStep::Fault),
        (1, 0x2000_0443, WalkStep::Fault),
        (0, 0x2000_0443, leaf(0x80001, 0x43)),
        (0, 0x2000_0403, leaf(0x80001, 0x03)),
        (0, 0x2000_0729, leaf(0x80001, 0x29)),
        (0, 0x3f_ffff_ffff_fccf, leaf(0xfff_ffff_ffff, 0xcf)),
    ] {
        assert_eq!(rt; step_at(level, pte), wanted, "{level} {pte:x}");
    }
    // A walk that has ended stays as it is.
    assert_eq!(rt;
        step_after(SATP, VA, &[0x2000_00cf, MIDDLE]),
        leaf(0x80403, 0xcf)
    );
    assert_eq!(rt; step_after(SATP, VA, &[0, MIDDLE]), WalkStep::Fault);
}

#[test]
fn faults_by_the_entry(rt: HostRuntime) {
    for pte in [
        // No V.
        0,
        0x2000_00ce,
        0x2000_0c00,
        // W without R.
        0x2000_00c5,
        0x2000_00cd,
        // The lowest and the highest of the bits that have to be 0.
        0x40_0000_2000_00cf,
        0x8000_0000_2000_00cf,
        0x40_0000_2000_0c01,
        0x8000_0000_2000_0c01,
        // Tables with U, A or D.
        0x2000_0c11,
        0x2000_0c41,
        0x2000_0c81,
    ] {
        for level in 0..3u8 {
            assert_eq!(rt; step_at(level, pte), WalkStep::Fault, "{level} {pte:x}");
        }
    }
}

#[test]
fn permits_by_the_flags(rt: HostRuntime) {
    // Kind, mode, SUM, MXR, flags that are permitted, and the bits that may not change alone:
    // V R W X U G A D are 01 02 04 08 10 20 40 80.
    for (kind, mode, sum, mxr, flags, fixed) in [
        (Kind::Fetch, Mode::U, false, false, 0x59u8, 0x58u8),
        (Kind::Fetch, Mode::U, false, true, 0x59, 0x58),
        (Kind::Fetch, Mode::U, true, false, 0x59, 0x58),
        (Kind::Fetch, Mode::U, true, true, 0x59, 0x58),
        (Kind::Fetch, Mode::S, false, false, 0x49, 0x58),
        (Kind::Fetch, Mode::S, false, true, 0x49, 0x58),
        (Kind::Fetch, Mode::S, true, false, 0x49, 0x58),
        (Kind::Fetch, Mode::S, true, true, 0x49, 0x58),
        (Kind::Load, Mode::U, false, false, 0x5b, 0x52),
        (Kind::Load, Mode::U, false, true, 0x59, 0x58),
        (Kind::Load, Mode::U, true, false, 0x5b, 0x52),
        (Kind::Load, Mode::U, true, true, 0x59, 0x58),
        (Kind::Load, Mode::S, false, false, 0x4b, 0x52),
        (Kind::Load, Mode::S, false, true, 0x49, 0x58),
        (Kind::Load, Mode::S, true, false, 0x5b, 0x42),
        (Kind::Load, Mode::S, true, true, 0x59, 0x48),
        (Kind::Load, Mode::S, true, true, 0x5b, 0x40),
        (Kind::Store, Mode::U, false, false, 0xdf, 0xd4),
        (Kind::Store, Mode::U, false, true, 0xdf, 0xd4),
        (Kind::Store, Mode::U, true, false, 0xdf, 0xd4),
        (Kind::Store, Mode::U, true, true, 0xdf, 0xd4),
        (Kind::Store, Mode::S, false, false, 0xcf, 0xd4),
        (Kind::Store, Mode::S, false, true, 0xcf, 0xd4),
        (Kind::Store, Mode::S, true, false, 0xdf, 0xc4),
        (Kind::Store, Mode::S, true, true, 0xdf, 0xc4),
        // Mode M has no owner to ask.
        (Kind::Fetch, Mode::M, false, false, 0x49, 0x48),
        (Kind::Load, Mode::M, false, false, 0x4b, 0x42),
        (Kind::Store, Mode::M, false, false, 0xcf, 0xc4),
    ] {
        let page = Leaf {
            page: 0,
            frame: 0x80001,
            flags,
        };
        assert_eq!(rt; permit(&page, kind, mode, sum, mxr), Ok(0x80001));
        for at in 0..8u32 {
            let bit = 1 << at;
            let changed = Leaf {
                flags: flags ^ bit,
                ..page
            };
            let wanted = if fixed & bit == 0 {
                Ok(0x80001)
            } else {
                Err(PageFault)
            };
            assert_eq!(rt;
                permit(&changed, kind, mode, sum, mxr),
                wanted,
                "{kind:?} {mode:?} {flags:x} {at}"
            );
        }
    }
}
