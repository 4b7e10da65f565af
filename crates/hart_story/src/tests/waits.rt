// WFI and harts that wait, by the manual's text and this project's rules.
use super::needs::{need_of, stop};
use super::playing::{answer, begin, end};
use super::returns::WFI;
use super::{
    BUDGET, MCYCLE, MIE, MINSTRET, MIP, assert_becomes, hart_in, layout, pulse_reply, word, written,
};
use crate::{Hart, Need, need};
use flex_base::{Access, Class, Mode, Reply};
use std::process::Abort;

const PULSE: Need = Need::Ask(Access::Pulse { tick: false }, Class::Pulse);

#[test]
fn waits_for_interrupts(rt: HostRuntime) {
    waits_where_none_is_pending(&rt);
    for lines in [0x8, 0x80, 0x200, 0x800, 0x888, 0] {
        goes_on_with(&rt, lines);
        stays_parked(&rt, lines);
    }
    stops_where_it_waits(&rt);
}

// What software has raised in mip, mie, and what a WFI asks. An interrupt that isn't enabled isn't
// waited for.
fn waits_where_none_is_pending(rt: &impl Abort) {
    let table = [
        (0x0, 0x0, wait(0x0)),
        (0x0, 0xaaa, wait(0xaaa)),
        (0x222, 0x0, wait(0x0)),
        (0x222, 0x888, wait(0x888)),
        (0x2, 0x20, wait(0x20)),
        (0x2, 0x2, PULSE),
        (0x20, 0x20, PULSE),
        (0x200, 0x200, PULSE),
        (0x222, 0xaaa, PULSE),
    ];
    for (mip, mie, asked) in table {
        let hart = hart_in(Mode::M, &[(MIP, mip), (MIE, mie)]);
        assert_eq!(rt; need_of(&hart, WFI), asked, "{mip:x}, {mie:x}");
    }
}

fn wait(mie: u64) -> Need {
    Need::Ask(Access::Wait { mie }, Class::Pulse)
}

// It ends with the lines that the reply tells, whether it asked for a wait or a pulse. No interrupt is
// taken here, since mstatus has them off.
fn goes_on_with(rt: &impl Abort, lines: u64) {
    for (mip, mie) in [(0, 0x888), (0x2, 0x2)] {
        let hart = hart_in(Mode::M, &[(MIP, mip), (MIE, mie)]);
        let replies = [word(WFI), pulse_reply(lines)];
        assert_becomes(
            rt,
            &hart,
            &replies,
            (Class::System, 0, 0),
            &ended(&hart, lines),
        );
    }
}

// The hart after a WFI with these lines.
fn ended(hart: &Hart, lines: u64) -> Hart {
    let mut after = *hart;
    after.regs.pc = 0x8000_0044;
    after.regs.ends = 1;
    after.regs.lines = lines;
    after.csrs = written(after.csrs, &[(MCYCLE, 1), (MINSTRET, 1)]);
    after
}

// A wait that is told 1 parks the hart, and a pulse that is told 1 leaves it parked, whatever lines
// they tell. One that is told 0 is followed by the end.
fn stays_parked(rt: &impl Abort, lines: u64) {
    let layout = layout();
    let mut hart = hart_in(Mode::M, &[(MIE, 0x888)]);
    let after = ended(&hart, lines);
    let mut progress = begin(rt, &hart, &layout, BUDGET);
    answer(rt, &hart, &mut progress, &layout, BUDGET, word(WFI));
    assert_eq!(rt; progress.is_parked(), false);
    assert_eq!(rt; need(&hart, &progress, &layout, BUDGET), wait(0x888));
    'told: for told in [0x888, 0, lines] {
        answer(rt, &hart, &mut progress, &layout, BUDGET, still_waits(told));
        assert_eq!(rt; (progress.is_parked(), progress.is_over()), (true, false));
        assert_eq!(rt; need(&hart, &progress, &layout, BUDGET), Need::Parked);
    }
    answer(
        rt,
        &hart,
        &mut progress,
        &layout,
        BUDGET,
        pulse_reply(lines),
    );
    assert_eq!(rt; progress.is_parked(), false);
    let part = end(rt, &mut hart, progress, &layout, BUDGET);
    assert_eq!(rt; (part.class, part.next), (Class::System, 0x8000_0044));
    assert_eq!(rt; hart, after);
}

fn still_waits(lines: u64) -> Reply {
    Reply {
        value: 1,
        lines,
        stop: false,
    }
}

// A stop leaves a hart nothing to do that waits, only makes a pulse, or is parked.
fn stops_where_it_waits(rt: &impl Abort) {
    stops_at_once(rt, 0);
    stops_at_once(rt, 0x2);
    stops_where_it_is_parked(rt);
}

fn stops_at_once(rt: &impl Abort, mip: u64) {
    let layout = layout();
    let hart = hart_in(Mode::M, &[(MIP, mip), (MIE, 0x2)]);
    let mut progress = begin(rt, &hart, &layout, BUDGET);
    answer(rt, &hart, &mut progress, &layout, BUDGET, word(WFI));
    answer(rt, &hart, &mut progress, &layout, BUDGET, stop(0x2));
    assert_eq!(rt; need(&hart, &progress, &layout, BUDGET), Need::Over);
}

fn stops_where_it_is_parked(rt: &impl Abort) {
    let layout = layout();
    let hart = hart_in(Mode::M, &[(MIE, 0x2)]);
    let mut progress = begin(rt, &hart, &layout, BUDGET);
    answer(rt, &hart, &mut progress, &layout, BUDGET, word(WFI));
    answer(rt, &hart, &mut progress, &layout, BUDGET, still_waits(0));
    answer(rt, &hart, &mut progress, &layout, BUDGET, stop(0x2));
    assert_eq!(rt; need(&hart, &progress, &layout, BUDGET), Need::Over);
}
