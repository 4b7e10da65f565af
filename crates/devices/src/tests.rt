ghost use Rattle.std.specs.Prelude.{◌≡◌, true};
ghost use Rattle.devices.specs.View.{HasRoom};

use crate::Devices;
use flex_base::{
    Access, FINISHER, HartId, MSIP, MTIME, MTIMECMP, Reply, Settings, Stop, UART, UART_LSR,
};
use std::alloc::{AllocError, Global};
use std::process::Abort;
use std::test::Fail;

const MSI: u64 = 1 << 3;

const MTI: u64 = 1 << 7;

const PULSE: Access = Access::Pulse { tick: false };

const TICK: Access = Access::Pulse { tick: true };

// The devices of so many harts, each of which may end two instructions.
fn devices(rt: &impl Abort, alloc: Global, harts: u8, input: &[u8]) -> Result<Devices, AllocError> {
    let settings = Settings {
        harts,
        ram: 0x10_0000,
        budget: 2,
    };
    assert!(rt; settings.lawful());
    Devices::new(alloc, &settings, Vec::from_slice(alloc, input)?)
}

// Whether the access may be made.
fn may_act(devices: &Devices, acc: &Access) -> bool
    ensures { result ≡ true → HasRoom devices.now acc.now }
{
    match *acc {
        Access::DevWrite { address, .. } => address != UART || devices.has_room(),
        _ => true,
    }
}

fn act(rt: &impl Abort, devices: &mut Devices, hart: u8, acc: Access) -> Reply {
    assert!(rt; may_act(devices, &acc));
    devices.act(HartId(hart), &acc)
}

fn read(address: u64, width: u8) -> Access {
    Access::DevRead { address, width }
}

fn write(address: u64, width: u8, value: u64) -> Access {
    Access::DevWrite {
        address,
        width,
        value,
    }
}

fn wait(mie: u64) -> Access {
    Access::Wait { mie }
}

fn told(value: u64, lines: u64, stop: bool) -> Reply {
    Reply { value, lines, stop }
}

// Makes the accesses in turn, and compares each reply.
fn play(rt: &impl Abort, devices: &mut Devices, table: &[(u8, Access, Reply)]) {
    for (row, (hart, acc, reply)) in table.iter().enumerate() {
        assert_eq!(rt; act(rt, devices, *hart, *acc), *reply, "row {row}");
    }
}

// What is written at one address and then read at the same and at others.
#[test]
fn registers_hold_what_is_written_of_their_width(rt: HostRuntime) -> Result<(), Fail> {
    let value = 0x0123_4567_89ab_cdef;
    let table = [
        // Of a software bit bit 0 is stored; the next hart's is another one.
        (MSIP, 4, value, MSIP, 4, 1),
        (MSIP, 4, value - 1, MSIP, 4, 0),
        (MSIP, 4, value, MSIP + 4, 4, 0),
        (MSIP + 4, 4, value, MSIP + 4, 4, 1),
        // A compare value is whole or one half; the next hart's is another one.
        (MTIMECMP, 8, value, MTIMECMP, 8, value),
        (MTIMECMP, 8, value, MTIMECMP, 4, 0x89ab_cdef),
        (MTIMECMP, 8, value, MTIMECMP + 4, 4, 0x0123_4567),
        (MTIMECMP, 8, value, MTIMECMP + 8, 8, u64::MAX),
        (
            MTIMECMP + 8,
            4,
            value,
            MTIMECMP + 8,
            8,
            0xffff_ffff_89ab_cdef,
        ),
        (
            MTIMECMP + 12,
            4,
            value,
            MTIMECMP + 8,
            8,
            0x89ab_cdef_ffff_ffff,
        ),
        (MTIMECMP + 12, 4, value, MTIMECMP, 8, u64::MAX),
        // So is the time.
        (MTIME, 8, value, MTIME, 8, value),
        (MTIME, 4, value, MTIME, 8, 0x89ab_cdef),
        (MTIME + 4, 4, value, MTIME, 8, 0x89ab_cdef_0000_0000),
        (MTIME + 4, 4, value, MTIME + 4, 4, 0x89ab_cdef),
        (MTIME + 4, 4, value, MTIME, 4, 0),
        // The UART's registers but the first and the line status read 0, and so does the finisher.
        (UART_LSR, 1, 0, UART_LSR, 1, 0x60),
        (UART + 1, 1, 0xff, UART + 1, 1, 0),
        (UART + 4, 1, 0xff, UART + 4, 1, 0),
        (UART + 6, 1, 0xff, UART + 6, 1, 0),
        (UART + 7, 1, 0xff, UART + 7, 1, 0),
        (FINISHER, 4, 0x5554, FINISHER, 4, 0),
    ];
    for (at, width, value, address, wide, held) in table {
        let mut devices = devices(&rt, rt.alloc(), 2, &[])?;
        act(&rt, &mut devices, 0, write(at, width, value));
        assert_eq!(rt;
            act(&rt, &mut devices, 1, read(address, wide)),
            told(held, 0, false),
            "{wide} bytes at {address:x} after {width} at {at:x}"
        );
        assert_eq!(rt; devices.stop(), None);
    }
    Ok(())
}

#[test]
fn the_finisher_stops_the_run_and_the_first_stop_stays(rt: HostRuntime) -> Result<(), Fail> {
    let table = [
        (0x5555, 0x7_3333, Some(Stop::Off(0))),
        (0x9_5555, 0x3333, Some(Stop::Off(0))),
        (0x7_3333, 0x5555, Some(Stop::Off(7))),
        (0xffff_3333, 0x5555, Some(Stop::Off(0xffff))),
        (0x1_0007_3333, 0x5555, Some(Stop::Off(7))),
        (0x5554, 0x3332, None),
    ];
    for (first, second, stop) in table {
        let mut devices = devices(&rt, rt.alloc(), 1, &[])?;
        act(&rt, &mut devices, 0, write(FINISHER, 4, first));
        act(&rt, &mut devices, 0, write(FINISHER, 4, second));
        assert_eq!(rt; devices.stop(), stop, "{first:x}, then {second:x}");
        let reply = act(&rt, &mut devices, 0, PULSE);
        assert_eq!(rt; reply, told(0, 0, stop.is_some()));
    }
    Ok(())
}

#[test]
fn the_console_takes_and_sends_bytes(rt: HostRuntime) -> Result<(), Fail> {
    let mut devices = devices(&rt, rt.alloc(), 2, b"A")?;
    play(
        &rt,
        &mut devices,
        [
            (0, read(UART_LSR, 1), told(0x61, 0, false)),
            (0, read(UART, 1), told(0x41, 0, false)),
            (0, read(UART_LSR, 1), told(0x60, 0, false)),
            (1, read(UART, 1), told(0, 0, false)),
            (0, write(UART, 1, 0x48), told(0, 0, false)),
            (1, write(UART, 1, 0x169), told(0, 0, false)),
        ]
        .as_slice(),
    );
    assert_eq!(rt; devices.console(), b"Hi".as_slice());
    // Two harts that may end two instructions each can send four bytes.
    act(&rt, &mut devices, 0, write(UART, 1, 0x21));
    assert!(rt; devices.has_room());
    act(&rt, &mut devices, 0, write(UART, 1, 0x0a));
    assert!(rt; !devices.has_room());
    devices.keep_none();
    assert!(rt; devices.has_room());
    act(&rt, &mut devices, 0, write(UART, 1, 0x48));
    assert_eq!(rt; devices.console(), b"Hi!\n".as_slice());
    Ok(())
}

#[test]
fn time_ticks_and_turns_the_line_of_the_timer_on(rt: HostRuntime) -> Result<(), Fail> {
    let mut devices = devices(&rt, rt.alloc(), 1, &[])?;
    play(
        &rt,
        &mut devices,
        [
            (0, write(MTIMECMP, 8, 1), told(0, 0, false)),
            (0, PULSE, told(0, 0, false)),
            (0, TICK, told(0, MTI, false)),
            (0, Access::Time, told(1, 0, false)),
            (0, write(MSIP, 4, 1), told(0, 0, false)),
            (0, PULSE, told(0, MTI + MSI, false)),
            // The compare value is one without a sign.
            (0, write(MTIMECMP, 8, 1 << 63), told(0, 0, false)),
            (0, PULSE, told(0, MSI, false)),
            // Time begins again after its end.
            (0, write(MTIME, 8, u64::MAX), told(0, 0, false)),
            (0, TICK, told(0, MSI, false)),
            (0, Access::Time, told(0, 0, false)),
        ]
        .as_slice(),
    );
    Ok(())
}

// A hart waits with each source enabled, pending or not.
#[test]
fn a_wait_ends_at_once_where_an_enabled_line_is_on(rt: HostRuntime) -> Result<(), Fail> {
    let table = [
        (MSIP, 4, 1, MSI, told(0, MSI, false)),
        (MSIP, 4, 1, MTI, told(1, MSI, true)),
        (MSIP, 4, 1, MSI + MTI, told(0, MSI, false)),
        (MSIP, 4, 1, 0, told(1, MSI, true)),
        (MTIMECMP, 8, 0, MTI, told(0, MTI, false)),
        (MTIMECMP, 8, 0, MSI, told(1, MTI, true)),
        (MTIMECMP, 8, 0, 0x222, told(1, MTI, true)),
        // Time alone can turn the line of the timer on, and jumps to where it does.
        (MTIMECMP, 8, 1000, MTI, told(0, MTI, false)),
        (MTIMECMP, 8, u64::MAX - 1, MTI, told(0, MTI, false)),
        (MTIMECMP, 8, u64::MAX, MTI, told(1, 0, true)),
        (MTIMECMP, 8, 1000, MSI, told(1, 0, true)),
    ];
    for (address, width, value, mie, reply) in table {
        let mut devices = devices(&rt, rt.alloc(), 1, &[])?;
        act(&rt, &mut devices, 0, write(address, width, value));
        assert_eq!(rt;
            act(&rt, &mut devices, 0, wait(mie)),
            reply,
            "mie {mie:x} with {value:x} at {address:x}"
        );
        let stop = if reply.stop { Some(Stop::Idle) } else { None };
        assert_eq!(rt; devices.stop(), stop);
        assert!(rt; !devices.woken(HartId(0)));
    }
    Ok(())
}

#[test]
fn time_jumps_to_the_least_compare_value(rt: HostRuntime) -> Result<(), Fail> {
    let mut devices = devices(&rt, rt.alloc(), 4, &[])?;
    play(
        &rt,
        &mut devices,
        [
            (0, write(MTIMECMP, 8, 700), told(0, 0, false)),
            (1, write(MTIMECMP + 8, 8, 500), told(0, 0, false)),
            (2, write(MTIMECMP + 16, 8, 300), told(0, 0, false)),
            (0, wait(MTI), told(1, 0, false)),
            (1, wait(MTI), told(1, 0, false)),
            // Hart 2 doesn't wait for its timer, and hart 3 is spent: time jumps to 500.
            (2, wait(MSI), told(1, 0, false)),
            (3, Access::Retire, told(0, 0, false)),
            (3, Access::Time, told(500, 0, false)),
            // A pulse of a hart that isn't woken leaves it waiting.
            (0, PULSE, told(1, 0, false)),
            (2, PULSE, told(1, MTI, false)),
            (1, PULSE, told(0, MTI, false)),
            // Then time jumps to 700, and then nothing can wake hart 2.
            (1, Access::Retire, told(0, 0, false)),
            (3, Access::Time, told(700, 0, false)),
            (0, PULSE, told(0, MTI, false)),
            (0, Access::Retire, told(0, 0, false)),
        ]
        .as_slice(),
    );
    assert_eq!(rt; devices.stop(), Some(Stop::Idle));
    Ok(())
}

#[test]
fn a_woken_hart_is_told_the_stop_by_its_pulse(rt: HostRuntime) -> Result<(), Fail> {
    let mut devices = devices(&rt, rt.alloc(), 2, &[])?;
    play(
        &rt,
        &mut devices,
        [
            (1, wait(MSI), told(1, 0, false)),
            (0, write(MSIP + 4, 4, 1), told(0, 0, false)),
            // It stays woken when the line goes off.
            (0, write(MSIP + 4, 4, 0), told(0, 0, false)),
            (0, write(FINISHER, 4, 0x5555), told(0, 0, false)),
        ]
        .as_slice(),
    );
    assert!(rt; devices.woken(HartId(1)));
    assert!(rt; !devices.woken(HartId(0)));
    assert_eq!(rt; act(&rt, &mut devices, 1, PULSE), told(0, 0, true));
    assert!(rt; !devices.woken(HartId(1)));
    // All harts spent make no other stop.
    act(&rt, &mut devices, 0, Access::Retire);
    act(&rt, &mut devices, 1, Access::Retire);
    assert_eq!(rt; devices.stop(), Some(Stop::Off(0)));
    Ok(())
}

// Each of 32 harts waits; one after another is woken by the one before.
#[test]
fn harts_wake_each_other_in_a_ring(rt: HostRuntime) -> Result<(), Fail> {
    let mut devices = devices(&rt, rt.alloc(), 32, &[])?;
    for hart in 1..32 {
        assert_eq!(rt; act(&rt, &mut devices, hart, wait(MSI)), told(1, 0, false));
    }
    for hart in 0..31 {
        let next = hart + 1;
        act(&rt, &mut devices, hart, write(MSIP + 4 * next as u64, 4, 1));
        assert!(rt; devices.woken(HartId(next)));
        assert_eq!(rt; act(&rt, &mut devices, next, PULSE), told(0, MSI, false));
        act(&rt, &mut devices, hart, Access::Retire);
        assert_eq!(rt; devices.stop(), None);
    }
    act(&rt, &mut devices, 31, Access::Retire);
    assert_eq!(rt; devices.stop(), Some(Stop::Budget));
    Ok(())
}
