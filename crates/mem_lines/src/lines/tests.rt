ghost use Rattle.std.specs.Prelude.{◌≡◌, ◌^◌, ◌<◌, true};
ghost use Rattle.flex_base.specs.Forms.{IsWidth, IsAtomicWidth};
ghost use Rattle.flex_base.specs.Place.{in_ram};
ghost use Rattle.flex_base.specs.Word.{is_multiple};
ghost use Rattle.mem_lines.specs.Steps.{IsSpan, IsHere};
ghost use Rattle.mem_lines.specs.Bank.{IsIn};

use super::Lines;
use flex_base::{Access, AmoOp, HartId, Image, RAM_BASE, Settings};
use std::alloc::{AllocError, Global};
use std::process::Abort;
use std::test::Fail;

const RAM: u64 = 0x10_0000;

// The first and the last 8 bytes of RAM, and those before and after the end of a line.
const PLACES: [u64; 4] = [0x8000_0000, 0x8000_0038, 0x8000_0040, 0x800f_fff8];

// The bytes 1 to 8 at each of the places. What is written over them comes first.
fn image(alloc: Global) -> Result<Image, AllocError> {
    let mut parts = Vec::new(alloc);
    parts.push((0x8000_0034, Vec::from_slice(alloc, [0xee; 20].as_slice())?))?;
    parts.push((0, Vec::new(alloc)))?;
    for address in PLACES {
        let bytes = Vec::from_slice(alloc, [1, 2, 3, 4, 5, 6, 7, 8].as_slice())?;
        parts.push((address, bytes))?;
    }
    Ok(Image {
        entry: RAM_BASE,
        parts,
    })
}

fn bank(rt: &impl Abort, alloc: Global, banks: u8, bank: u8) -> Result<Lines, AllocError> {
    let settings = Settings {
        harts: 2,
        ram: RAM,
        budget: 1,
    };
    let image = image(alloc)?;
    assert!(rt; settings.lawful() && image.fits(settings.ram));
    assert!(rt; banks != 0 && 64 % banks == 0 && bank < banks);
    Lines::new(alloc, &image, &settings, banks, bank)
}

// Whether an access may be made in this bank.
fn is_here(lines: &Lines, acc: &Access) -> bool
    ensures { result ≡ true → IsHere lines.now acc.now }
{
    match *acc {
        Access::Fetch { address } => is_span(lines, address, 4),
        Access::Pte { address } => is_span(lines, address, 8),
        Access::Read { address, width } => is_span(lines, address, width),
        Access::Write { address, width, .. } => is_span(lines, address, width),
        Access::Lr { address, width } => is_wide_span(lines, address, width),
        Access::Sc { address, width, .. } => is_wide_span(lines, address, width),
        Access::Amo { address, width, .. } => is_wide_span(lines, address, width),
        _ => false,
    }
}

fn is_wide_span(lines: &Lines, address: u64, width: u8) -> bool
    ensures width { result ≡ true → IsAtomicWidth width }
    ensures span { result ≡ true → IsSpan lines.now address width }
{
    (width == 4 || width == 8) && is_span(lines, address, width)
}

fn is_span(lines: &Lines, address: u64, width: u8) -> bool
    ensures { result ≡ true → IsSpan lines.now address width }
{
    if !is_aligned(address, width) {
        return false;
    }
    if !is_in_ram(lines.ram, address, width) {
        return false;
    }
    address / 64 % lines.banks as u64 == lines.bank as u64
}

fn is_aligned(address: u64, width: u8) -> bool
    ensures width { result ≡ true → IsWidth width }
    ensures aligned { result ≡ true → is_multiple address width ≡ true }
{
    match width {
        1 => true,
        2 => address % 2 == 0,
        4 => address % 4 == 0,
        8 => address % 8 == 0,
        _ => false,
    }
}

fn is_in_ram(ram: u64, address: u64, width: u8) -> bool
    ensures { result ≡ true → in_ram ram address width ≡ true }
{
    RAM_BASE <= address && ram == RAM && address <= RAM_BASE + RAM - width as u64
}

fn is_in(lines: &Lines, address: u64) -> bool
    ensures { result ≡ true → IsIn lines.now address }
{
    RAM_BASE <= address
        && address < RAM_BASE + lines.ram
        && address / 64 % lines.banks as u64 == lines.bank as u64
}

fn byte(rt: &impl Abort, lines: &Lines, address: u64) -> u8 {
    assert!(rt; is_in(lines, address));
    lines.byte(address)
}

// The value that the reply to an access tells.
fn told(rt: &impl Abort, lines: &mut Lines, hart: u8, acc: Access) -> u64 {
    assert!(rt; hart < 32 && is_here(lines, &acc));
    lines.act(HartId(hart), &acc).value
}

fn read(rt: &impl Abort, lines: &mut Lines, address: u64, width: u8) -> u64 {
    told(rt, lines, 0, Access::Read { address, width })
}

fn write(rt: &impl Abort, lines: &mut Lines, hart: u8, address: u64, width: u8, value: u64) {
    let acc = Access::Write {
        address,
        width,
        value,
    };
    assert_eq!(rt; told(rt, lines, hart, acc), 0);
}

fn load_reserved(rt: &impl Abort, lines: &mut Lines, hart: u8, address: u64, width: u8) -> u64 {
    told(rt, lines, hart, Access::Lr { address, width })
}

fn store_conditional(
    rt: &impl Abort,
    lines: &mut Lines,
    hart: u8,
    address: u64,
    width: u8,
    value: u64,
) -> u64 {
    let acc = Access::Sc {
        address,
        width,
        value,
    };
    told(rt, lines, hart, acc)
}

#[test]
fn another_harts_store_ends_a_reservation(rt: HostRuntime) -> Result<(), Fail> {
    let address = 0x8000_0100;
    for (writer, failed, word) in [(1, 1, 0x1122_3344_0000_0000), (0, 0, 0x5566_7788_99aa_bbcc)] {
        let mut lines = bank(&rt, rt.alloc(), 1, 0)?;
        assert_eq!(rt; load_reserved(&rt, &mut lines, 0, address, 8), 0);
        write(&rt, &mut lines, writer, address + 4, 4, 0x1122_3344);
        let told = store_conditional(&rt, &mut lines, 0, address, 8, 0x5566_7788_99aa_bbcc);
        assert_eq!(rt; told, failed, "by hart {writer}");
        assert_eq!(rt; read(&rt, &mut lines, address, 8), word, "by hart {writer}");
    }
    Ok(())
}

#[test]
fn a_store_conditional_ends_the_reservation(rt: HostRuntime) -> Result<(), Fail> {
    let address = 0x8000_0100;
    let mut lines = bank(&rt, rt.alloc(), 1, 0)?;
    assert_eq!(rt; store_conditional(&rt, &mut lines, 0, address, 4, 1), 1);
    assert_eq!(rt; load_reserved(&rt, &mut lines, 0, address, 4), 0);
    write(&rt, &mut lines, 1, address + 8, 8, 7);
    assert_eq!(rt; store_conditional(&rt, &mut lines, 0, address, 4, 2), 0);
    assert_eq!(rt; store_conditional(&rt, &mut lines, 0, address, 4, 3), 1);
    assert_eq!(rt; read(&rt, &mut lines, address, 8), 2);
    Ok(())
}

// The accesses that load so many bytes, twice where a single kind does.
fn loads(address: u64, width: u8) -> [Access; 2] {
    let load = Access::Read { address, width };
    let other = match width {
        4 => Access::Fetch { address },
        8 => Access::Pte { address },
        _ => Access::Read { address, width },
    };
    [load, other]
}

#[test]
fn each_kind_acts_on_the_bytes_of_its_width(rt: HostRuntime) -> Result<(), Fail> {
    let value = 0xf8f7_f6f5_f4f3_f2f1;
    for place in PLACES {
        // Offset, width, the value there, and the 8 bytes after a write.
        for (offset, width, old, new) in [
            (0, 1, 0x01, 0x0807_0605_0403_02f1),
            (7, 1, 0x08, 0xf107_0605_0403_0201),
            (0, 2, 0x0201, 0x0807_0605_0403_f2f1),
            (6, 2, 0x0807, 0xf2f1_0605_0403_0201),
            (0, 4, 0x0403_0201, 0x0807_0605_f4f3_f2f1),
            (4, 4, 0x0807_0605, 0xf4f3_f2f1_0403_0201),
            (0, 8, 0x0807_0605_0403_0201, value),
        ] {
            let address = place + offset;
            let mut lines = bank(&rt, rt.alloc(), 1, 0)?;
            for acc in loads(address, width) {
                assert_eq!(rt; told(&rt, &mut lines, 0, acc), old, "at {address:x}");
            }
            write(&rt, &mut lines, 0, address, width, value);
            assert_eq!(rt; read(&rt, &mut lines, place, 8), new, "at {address:x}");
        }
    }
    Ok(())
}

#[test]
fn atomic_kinds_act_on_the_bytes_of_their_width(rt: HostRuntime) -> Result<(), Fail> {
    let value = 0xf8f7_f6f5_f4f3_f2f1;
    for place in PLACES {
        // Offset, width, the value there, and the 8 bytes after a store-conditional and after an addition.
        for (offset, width, old, new, sum) in [
            (
                0,
                4,
                0x0403_0201,
                0x0807_0605_f4f3_f2f1,
                0x0807_0605_f8f6_f4f2,
            ),
            (
                4,
                4,
                0x0807_0605,
                0xf4f3_f2f1_0403_0201,
                0xfcfa_f8f6_0403_0201,
            ),
            (0, 8, 0x0807_0605_0403_0201, value, 0x00fe_fcfa_f8f6_f4f2),
        ] {
            let address = place + offset;
            let mut lines = bank(&rt, rt.alloc(), 1, 0)?;
            let add = Access::Amo {
                op: AmoOp::Add,
                address,
                width,
                value,
            };
            assert_eq!(rt; told(&rt, &mut lines, 1, add), old, "at {address:x}");
            assert_eq!(rt;
                told(&rt, &mut lines, 0, Access::Pte { address: place }),
                sum,
                "at {address:x}"
            );
            let mut lines = bank(&rt, rt.alloc(), 1, 0)?;
            assert_eq!(rt;
                load_reserved(&rt, &mut lines, 1, address, width),
                old,
                "at {address:x}"
            );
            assert_eq!(rt;
                store_conditional(&rt, &mut lines, 1, address, width, value),
                0,
                "at {address:x}"
            );
            assert_eq!(rt;
                told(&rt, &mut lines, 0, Access::Pte { address: place }),
                new,
                "at {address:x}"
            );
        }
    }
    Ok(())
}

#[test]
fn bytes_are_those_of_the_lines_in_order(rt: HostRuntime) -> Result<(), Fail> {
    // Of so many banks this one, how many bytes it has, and what stands at an index.
    for (banks, number, length, index, byte) in [
        (1, 0, 0x10_0000, 0x37, 0xee),
        (1, 0, 0x10_0000, 0x38, 1),
        (1, 0, 0x10_0000, 0x47, 8),
        (1, 0, 0x10_0000, 0x48, 0),
        (1, 0, 0x10_0000, 0xf_ffff, 8),
        (4, 0, 0x4_0000, 0x3f, 8),
        (4, 0, 0x4_0000, 0x40, 0),
        (4, 1, 0x4_0000, 0, 1),
        (4, 1, 0x4_0000, 8, 0),
        (4, 3, 0x4_0000, 0x3_fff8, 1),
        (4, 3, 0x4_0000, 0x3_ffff, 8),
    ] {
        let lines = bank(&rt, rt.alloc(), banks, number)?;
        let bytes = lines.bytes();
        assert_eq!(rt; bytes.len(), length);
        assert_eq!(rt;
            bytes.get(index).copied(),
            Some(byte),
            "{index:x} of bank {number} of {banks}"
        );
    }
    Ok(())
}

// Makes the same accesses in both, which tell the same.
fn assert_same(rt: &impl Abort, whole: &mut Lines, part: &mut Lines, address: u64)
    requires { address < 2 ^ 63 }
{
    let value = 0xfedc_ba98_7654_3210;
    let width = 8;
    for (hart, acc) in [
        (
            0,
            Access::Write {
                address,
                width,
                value,
            },
        ),
        (1, Access::Lr { address, width: 4 }),
        (
            0,
            Access::Amo {
                op: AmoOp::Max,
                address: address + 4,
                width: 4,
                value: 1,
            },
        ),
        (
            1,
            Access::Sc {
                address,
                width: 4,
                value: 1,
            },
        ),
        (0, Access::Lr { address, width }),
        (
            0,
            Access::Write {
                address,
                width: 1,
                value,
            },
        ),
        (
            0,
            Access::Sc {
                address: address + 4,
                width: 4,
                value,
            },
        ),
    ] {
        assert_eq!(rt;
            told(rt, part, hart, acc),
            told(rt, whole, hart, acc),
            "at {address:x}"
        );
    }
}

#[test]
fn any_number_of_banks_holds_the_same_bytes(rt: HostRuntime) -> Result<(), Fail> {
    for count in [4, 64] {
        let mut whole = bank(&rt, rt.alloc(), 1, 0)?;
        let mut dealt = Vec::new(rt.alloc());
        for number in 0..count {
            dealt.push(bank(&rt, rt.alloc(), count, number)?)?;
        }
        for i in 0..300 {
            let address = RAM_BASE + 56 * i;
            match dealt.get_mut((address / 64 % count as u64) as usize) {
                Some(part) => assert_same(&rt, &mut whole, part, address),
                None => assert!(rt; false),
            }
        }
        for offset in 0..RAM {
            let address = RAM_BASE + offset;
            let part = dealt.get((address / 64 % count as u64) as usize);
            let held = part.map(|part| byte(&rt, part, address));
            assert_eq!(rt; held, Some(byte(&rt, &whole, address)), "at {address:x}");
        }
    }
    Ok(())
}
