use super::elf::{E_PHENTSIZE, P_PADDR, at, byte_of, executable, loaded, put};
use super::{RAM, fault_of, ram_of};
use crate::{ImageFault, load};
use flex_base::RAM_BASE;
use std::test::Fail;

#[test]
fn lays_segments_one_over_another(rt: HostRuntime) -> Result<(), Fail> {
    let alloc = rt.alloc();
    let segments = [
        loaded(1000, RAM_BASE + 0x100, 0x80, 0x80),
        // Bytes and zeros over bytes.
        loaded(2000, RAM_BASE + 0x110, 0x10, 0x20),
        // Bytes over zeros, and zeros over nothing.
        loaded(3000, RAM_BASE + 0x128, 4, 4),
        loaded(0, RAM_BASE + 0x200, 0, 0x10),
        // Nothing, and outside RAM.
        loaded(0, 0, 0, 0),
        // Below what is there, and over its beginning.
        loaded(4000, RAM_BASE + 0xf0, 8, 0x18),
        // Zeros over all from here on, and bytes over them.
        loaded(0, RAM_BASE + 0x160, 0, RAM - 0x160),
        loaded(5000, RAM_BASE + 0x170, 1, 1),
    ];
    let file = executable(&rt, alloc, RAM_BASE + 0x124, &segments, 6000)?;
    let image = load(alloc, &file, RAM)?;
    assert_eq!(rt; image.entry, RAM_BASE + 0x124);
    let ram = ram_of(&rt, alloc, &image)?;
    for (i, byte) in ram.iter().enumerate() {
        let expected = match i {
            0xf0..0xf8 => byte_of(4000 + i - 0xf0),
            0xf8..0x108 => 0,
            0x108..0x110 => byte_of(1000 + i - 0x100),
            0x110..0x120 => byte_of(2000 + i - 0x110),
            0x120..0x128 => 0,
            0x128..0x12c => byte_of(3000 + i - 0x128),
            0x12c..0x130 => 0,
            0x130..0x160 => byte_of(1000 + i - 0x100),
            0x170 => byte_of(5000),
            _ => 0,
        };
        assert_eq!(rt; *byte, expected, "byte {i:#x}");
    }
    Ok(())
}

#[test]
fn holds_no_zeros_over_nothing(rt: HostRuntime) -> Result<(), Fail> {
    let alloc = rt.alloc();
    let segments = [
        loaded(200, RAM_BASE, 20, 0x8000),
        loaded(200, RAM_BASE + 0x8000, 20, 0x8000),
    ];
    let file = executable(&rt, alloc, RAM_BASE, &segments, 220)?;
    let image = load(alloc, &file, RAM)?;
    for (_, part) in &image.parts {
        assert_eq!(rt; part.len(), 20);
    }
    Ok(())
}

#[test]
fn reads_any_number_of_program_headers(rt: HostRuntime) -> Result<(), Fail> {
    let alloc = rt.alloc();
    let mut none = executable(&rt, alloc, RAM_BASE, &[], 64)?;
    put(&rt, &mut none, E_PHENTSIZE, 2, 0);
    let image = load(alloc, &none, RAM)?;
    assert_eq!(rt; image.parts.len(), 0);

    // Header n lays byte n of RAM, and the last one lies outside.
    let mut segments = Vec::new(alloc);
    for n in 0..0xffff {
        segments.push(loaded(n, RAM_BASE + n, 1, 1))?;
    }
    let end = at(0xffff, 0);
    let mut file = executable(&rt, alloc, RAM_BASE, &segments, end)?;
    let image = load(alloc, &file, RAM)?;
    let ram = ram_of(&rt, alloc, &image)?;
    let first = file.get(..0xffff).ok_or("a short file")?;
    assert!(rt; ram.starts_with(first));
    put(&rt, &mut file, at(0xfffe, P_PADDR), 8, RAM_BASE + RAM);
    assert_eq!(rt;
        fault_of(alloc, &file),
        Some(ImageFault::SegmentOutsideRam(0xfffe))
    );
    Ok(())
}
