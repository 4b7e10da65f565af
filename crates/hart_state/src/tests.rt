use super::*;
use flex_base::{HartId, Mode};

#[test]
fn keeps_registers_apart(rt: HostRuntime) {
    let mut regs = Regs::start(HartId(7), 0x8000_1000);
    assert_eq!(rt; regs.get(10), 7);
    let minus_1 = 0xffff_ffff_ffff_ffff;
    for (r, value, read) in [
        (0, minus_1, 0),
        (1, minus_1, minus_1),
        (31, 0x8000_0000_0000_0000, 0x8000_0000_0000_0000),
        (10, 1, 1),
        (2, 2, 2),
        (1, 0, 0),
    ] {
        regs.set(r, value);
        assert_eq!(rt; regs.get(r), read, "x{r}");
    }
    let mut x = [0; 32];
    x[2] = 2;
    x[10] = 1;
    x[31] = 0x8000_0000_0000_0000;
    // What stands at 0 is never read.
    regs.x[0] = 5;
    x[0] = 5;
    assert_eq!(rt; regs.get(0), 0);
    let wanted = Regs {
        pc: 0x8000_1000,
        x,
        mode: Mode::M,
        reservation: None,
        ends: 0,
        lines: 0,
        due: false,
    };
    assert_eq!(rt; regs, wanted);
}
