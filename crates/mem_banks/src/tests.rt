ghost use Rattle.std.specs.Prelude.{◌≡◌, ◌+◌, ◌<◌, ◌≤◌, true, false, if◌then◌else◌, [], ◌∷◌, ◌++◌, IfSome, vec_len, vec_capacity};
ghost use Rattle.flex_base.specs.Devices.{is_transmit};
ghost use Rattle.flex_base.specs.Following.{waits_by};
ghost use Rattle.flex_base.specs.Forms.{IsPlaced, IsWidth, IsAtomicWidth, IsAlignedRam};
ghost use Rattle.flex_base.specs.Place.{place_of, in_ram};
ghost use Rattle.flex_base.specs.Word.{is_multiple};
ghost use Rattle.access_record.specs.Rule.{occurrences};
ghost use Rattle.access_record.specs.Passes.{add_hart};
ghost use Rattle.mem_banks.specs.Tried.{IsTried};

mod sharing;
mod threads;

use super::*;
use access_record::{Founder, Pass};
use flex_base::{
    Access, Engine, HartId, Image, Layout, MSIP, Place, RAM_BASE, Reply, Settings, UART,
};
use std::alloc::{AllocError, Global};
use std::process::Abort;
use std::test::Fail;

const SETTINGS: Settings = Settings {
    harts: 2,
    ram: 0x10_0000,
    budget: 2,
};

// The word of each of four lines is its number, from 1.
fn image(alloc: Global) -> Result<Image, AllocError> {
    let mut parts = Vec::new(alloc);
    for line in 0..4 {
        let bytes = Vec::from_slice(alloc, [line as u8 + 1].as_slice())?;
        parts.push((RAM_BASE + 64 * line, bytes))?;
    }
    Ok(Image {
        entry: RAM_BASE,
        parts,
    })
}

// A hart that no story tells what to do: whether it waits, for how many more accesses its log has
// room, and how many more bytes it may send.
struct Tried {
    pass: Pass,
    waiting: bool,
    left: u64,
    bytes: u64,
}

// How many bytes a hart may still send after an access. None means that it has no room for this one.
fn after_send(acc: &Access, bytes: u64) -> Option<u64>
    ensures { IfSome result (λ after. after + (if is_transmit acc.now then 1 else 0) ≡ bytes) }
{
    match *acc {
        Access::DevWrite { address, .. } if address == UART => bytes.checked_sub(1),
        _ => Some(bytes),
    }
}

// Whether a hart that doesn't wait is told by this reply that it does.
fn is_told_to_wait(acc: &Access, reply: &Reply) -> bool
    ensures { result ≡ waits_by false acc.now reply.now }
{
    match *acc {
        Access::Wait { .. } => reply.value == 1,
        _ => false,
    }
}

// Makes an access where it may be made.
fn act(bus: &mut PlainBus, hart: Tried, acc: Access) -> (Tried, u64, Reply)
    requires tried { IsTried bus.old.run hart.pass hart.waiting hart.left hart.bytes }
    requires placed { IsPlaced bus.old.run.setup.harts bus.old.run.setup.ram acc }
    ensures tried { IsTried bus.new.run result.0.pass result.0.waiting result.0.left result.0.bytes }
    ensures hart { result.0.pass.hart ≡ hart.pass.hart }
    ensures same { bus.new.run ≡ bus.old.run }
{
    if hart.waiting || hart.left == 0 {
        return (hart, u64::MAX, Reply::with_value(u64::MAX));
    }
    let Some(after) = after_send(&acc, hart.bytes) else {
        return (hart, u64::MAX, Reply::with_value(u64::MAX));
    };
    let Tried {
        pass,
        waiting: _,
        left,
        bytes: _,
    } = hart;
    let (pass, number, reply) = bus.make(pass, Engine::Host, acc);
    let hart = Tried {
        pass,
        waiting: is_told_to_wait(&acc, &reply),
        left: left - 1,
        bytes: after,
    };
    (hart, number, reply)
}

// Makes the pulse of a hart where it waits and is woken. Its value and lines are answered.
fn wake(bus: &mut PlainBus, hart: Tried) -> (Tried, Option<u64>)
    requires tried { IsTried bus.old.run hart.pass hart.waiting hart.left hart.bytes }
    ensures tried { IsTried bus.new.run result.0.pass result.0.waiting result.0.left result.0.bytes }
    ensures hart { result.0.pass.hart ≡ hart.pass.hart }
    ensures same { bus.new.run ≡ bus.old.run }
{
    if !hart.waiting || hart.left == 0 {
        return (hart, Some(u64::MAX));
    }
    let Tried {
        pass,
        waiting: _,
        left,
        bytes,
    } = hart;
    let (pass, made) = bus.make_pulse(pass, Engine::Kernel);
    match made {
        Some((_, reply)) => {
            let hart = Tried {
                pass,
                waiting: false,
                left: left - 1,
                bytes,
            };
            (hart, Some(reply.lines))
        }
        None => {
            let hart = Tried {
                pass,
                waiting: true,
                left,
                bytes,
            };
            (hart, None)
        }
    }
}

// Whether an access stands where its kind may stand.
fn is_placed(layout: &Layout, acc: &Access) -> bool
    ensures { result ≡ true → IsPlaced layout.now.harts layout.now.ram acc.now }
{
    match *acc {
        Access::Fetch { address } => is_in_ram(layout, address, 4),
        Access::Read { address, width } | Access::Write { address, width, .. } => {
            is_width(width) && is_in_ram(layout, address, width)
        }
        Access::Lr { address, width } | Access::Sc { address, width, .. } => {
            (width == 4 || width == 8) && is_in_ram(layout, address, width)
        }
        Access::DevRead { address, width } | Access::DevWrite { address, width, .. } => {
            is_device(layout, address, width)
        }
        Access::Pulse { .. } | Access::Wait { .. } | Access::Retire | Access::Time => true,
        _ => false,
    }
}

fn is_width(width: u8) -> bool
    ensures { result ≡ true → IsWidth width }
{
    width == 1 || width == 2 || width == 4 || width == 8
}

fn is_in_ram(layout: &Layout, address: u64, width: u8) -> bool
    ensures { result ≡ true → IsAlignedRam layout.now.ram address width }
{
    if width == 0 || address % width as u64 != 0 {
        return false;
    }
    match layout.place(address, width) {
        Place::Ram => true,
        Place::Device | Place::Nowhere => false,
    }
}

fn is_device(layout: &Layout, address: u64, width: u8) -> bool
    ensures { result ≡ true → place_of layout.now.harts layout.now.ram address width ≡ Place.Device }
{
    match layout.place(address, width) {
        Place::Device => true,
        Place::Ram | Place::Nowhere => false,
    }
}

const LAYOUT: Layout = Layout {
    harts: 2,
    ram: 0x10_0000,
};

// Makes the accesses of a table, and counts those whose number and value are as it says.
fn play(bus: &mut PlainBus, hart: Tried, table: &[(Access, u64, u64)]) -> (Tried, u64)
    requires tried { IsTried bus.old.run hart.pass hart.waiting hart.left hart.bytes }
    requires harts { bus.old.run.setup.harts ≡ 2 }
    requires ram { bus.old.run.setup.ram ≡ 1048576 }
    ensures tried { IsTried bus.new.run result.0.pass result.0.waiting result.0.left result.0.bytes }
    ensures hart { result.0.pass.hart ≡ hart.pass.hart }
    ensures same { bus.new.run ≡ bus.old.run }
{
    let mut hart = hart;
    let mut right = 0;
    for (acc, number, value) in table {
        if is_placed(&LAYOUT, acc) {
            let (next, drawn, reply) = act(bus, hart, *acc);
            hart = next;
            if drawn == *number && reply.value == *value && right < u64::MAX {
                right += 1;
            }
        }
    }
    (hart, right)
}

// A hart that has done nothing yet, and may make so many accesses and send so many bytes.
fn enrol(
    bus: &mut PlainBus,
    founder: Founder,
    hart: HartId,
    left: u64,
    bytes: u64,
) -> (Founder, Tried)
    requires founder { founder.id ≡ bus.old.run.book.id }
    requires in_range { hart.0 < bus.old.run.book.limits.harts }
    requires hart { hart.0 < bus.old.run.setup.harts }
    requires not_yet { occurrences hart.0 founder.harts ≡ 0 }
    requires room { left ≤ bus.old.run.book.limits.room }
    requires budget { bytes ≤ bus.old.run.setup.budget }
    ensures founder { result.0 ≡ add_hart founder hart }
    ensures hart { result.1.pass.hart ≡ hart }
    ensures tried { IsTried bus.new.run result.1.pass result.1.waiting result.1.left result.1.bytes }
    ensures same { bus.new ≡ bus.old }
{
    let (founder, pass) = bus.enrol(founder, hart);
    let hart = Tried {
        pass,
        waiting: false,
        left,
        bytes,
    };
    (founder, hart)
}

// Hart 0 fetches, writes and reads in each of the banks, and reserves.
const IN_BANKS: [(Access, u64, u64); 7] = [
    (
        Access::Fetch {
            address: 0x8000_0000,
        },
        0,
        1,
    ),
    (
        Access::Fetch {
            address: 0x8000_0040,
        },
        1,
        2,
    ),
    (
        Access::Fetch {
            address: 0x8000_0080,
        },
        2,
        3,
    ),
    (
        Access::Fetch {
            address: 0x8000_00c0,
        },
        3,
        4,
    ),
    (
        Access::Write {
            address: 0x8000_0044,
            width: 4,
            value: 7,
        },
        4,
        0,
    ),
    (
        Access::Read {
            address: 0x8000_0040,
            width: 8,
        },
        5,
        0x7_0000_0002,
    ),
    (
        Access::Lr {
            address: 0x8000_00c0,
            width: 4,
        },
        6,
        4,
    ),
];

// Hart 1 writes to what hart 0 has reserved, and then waits for a software interrupt.
const OF_OTHER: [(Access, u64, u64); 2] = [
    (
        Access::Write {
            address: 0x8000_00c4,
            width: 4,
            value: 5,
        },
        7,
        0,
    ),
    (Access::Wait { mie: 8 }, 8, 1),
];

// So hart 0 fails to store. It lets time go on and sends a byte.
const OF_DEVICES: [(Access, u64, u64); 4] = [
    (
        Access::Sc {
            address: 0x8000_00c0,
            width: 4,
            value: 9,
        },
        9,
        1,
    ),
    (Access::Pulse { tick: true }, 10, 0),
    (Access::Time, 11, 1),
    (
        Access::DevWrite {
            address: UART,
            width: 1,
            value: 0x48,
        },
        12,
        0,
    ),
];

// It interrupts hart 1.
const INTERRUPTS: [(Access, u64, u64); 1] = [(
    Access::DevWrite {
        address: MSIP + 4,
        width: 4,
        value: 1,
    },
    13,
    0,
)];

// Hart 1 reads the console's input.
const OF_WOKEN: [(Access, u64, u64); 1] = [(
    Access::DevRead {
        address: UART,
        width: 1,
    },
    15,
    0x78,
)];

#[test]
fn banks_and_devices_answer(rt: HostRuntime) -> Result<(), Fail> {
    let image = image(rt.alloc())?;
    assert!(rt; SETTINGS.lawful() && image.fits(SETTINGS.ram));
    let input = Vec::from_slice(rt.alloc(), b"x".as_slice())?;
    let mut passes = Vec::with_capacity(rt.alloc(), 2)?;
    let Ok((mut bus, founder)) = PlainBus::new(rt.alloc(), &image, &SETTINGS, 4, input) else {
        passes.destroy_empty();
        return Err(AllocError.into());
    };
    let (founder, second) = enrol(&mut bus, founder, HartId(1), 72, 2);
    let (founder, first) = enrol(&mut bus, founder, HartId(0), 72, 2);
    let (first, in_banks) = play(&mut bus, first, &IN_BANKS);
    let (second, of_other) = play(&mut bus, second, &OF_OTHER);
    let (first, of_devices) = play(&mut bus, first, &OF_DEVICES);
    let (second, unwoken) = wake(&mut bus, second);
    let (first, interrupts) = play(&mut bus, first, &INTERRUPTS);
    let (second, woken) = wake(&mut bus, second);
    let (second, of_woken) = play(&mut bus, second, &OF_WOKEN);
    put(&mut passes, first);
    put(&mut passes, second);
    let mut end = bus.dissolve();
    let closed = end.settle(founder, passes);
    let sent = end.devices.console() == b"H".as_slice();
    end.discard();
    assert_eq!(rt;
        [in_banks, of_other, of_devices, interrupts, of_woken],
        [7, 2, 4, 1, 1]
    );
    assert!(rt; unwoken.is_none() && woken == Some(8) && sent);
    assert_eq!(rt; closed.count, 16);
    Ok(())
}

// Puts a hart's pass at the end, where there is room.
fn put(passes: &mut Vec<Pass>, hart: Tried)
    requires room { vec_len passes.old < vec_capacity passes.old }
    ensures passes { passes.new.items ≡ passes.old.items ++ hart.pass ∷ [] }
    ensures room { vec_capacity passes.new ≡ vec_capacity passes.old }
{
    let Tried {
        pass,
        waiting: _,
        left: _,
        bytes: _,
    } = hart;
    passes.push_reserved(pass);
}
