use crate::{ImageFault, load};
use flex_base::{Image, RAM_BASE};
use std::alloc::{AllocError, Global};
use std::process::Abort;
use std::test::Fail;

mod elf;
mod faults;
mod segments;

// 1 MiB of RAM.
const RAM: u64 = 0x10_0000;

// What is wrong with a file.
fn fault_of(alloc: Global, file: &[u8]) -> Option<ImageFault> {
    load(alloc, file, RAM).err()
}

// So many bytes that are all the same.
fn same_bytes(alloc: Global, byte: u8, count: usize) -> Result<Vec<u8>, AllocError> {
    vec![in alloc; byte; count]
}

// RAM as a run finds it.
fn ram_of(rt: &impl Abort, alloc: Global, image: &Image) -> Result<Vec<u8>, AllocError> {
    let mut ram = same_bytes(alloc, 0, RAM as usize)?;
    for (address, part) in &image.parts {
        assert!(rt; *address >= RAM_BASE);
        let at = (*address - RAM_BASE) as usize;
        assert!(rt; at <= ram.len() && part.len() <= ram.len() - at);
        ram[at..at + part.len()].copy_from_slice(part);
    }
    Ok(ram)
}

#[test]
fn takes_any_other_file_as_raw(rt: HostRuntime) -> Result<(), Fail> {
    let alloc = rt.alloc();
    let whole = same_bytes(alloc, 7, RAM as usize)?;
    for file in [&[][..], &[0x13], b"\x7fEL", b"\x7fELG and so on", &whole] {
        let image = load(alloc, file, RAM)?;
        assert_eq!(rt; image.entry, RAM_BASE);
        let ram = ram_of(&rt, alloc, &image)?;
        for (i, byte) in ram.iter().enumerate() {
            let expected = file.get(i).copied().unwrap_or(0);
            assert_eq!(rt; *byte, expected, "byte {i}");
        }
    }
    let long = same_bytes(alloc, 7, RAM as usize + 1)?;
    assert_eq!(rt;
        fault_of(alloc, &long),
        Some(ImageFault::SegmentOutsideRam(0))
    );
    assert_eq!(rt; fault_of(alloc, b"\x7fELF"), Some(ImageFault::Short));
    Ok(())
}

#[test]
fn says_each_fault(rt: HostRuntime) -> Result<(), Fail> {
    for (fault, text) in [
        (
            ImageFault::NotExec(3),
            "the ELF file is of type 3 and no executable",
        ),
        (
            ImageFault::SegmentOutsideFile(7),
            "segment 7 lies outside the file",
        ),
        (
            ImageFault::BadEntry(0x8000_0002),
            "the entry 0x80000002 is no multiple of 4 in RAM",
        ),
    ] {
        assert_eq!(rt; fault.to_string(rt.alloc())?.as_str(), text);
    }
    Ok(())
}
