use super::elf::*;
use super::{RAM, fault_of};
use crate::ImageFault::{
    BadEntry, BadHeaderSize, FileOverMemory, NotElf64Little, NotExec, NotRiscv, SegmentOutsideFile,
    SegmentOutsideRam, Short, TableOutside,
};
use flex_base::RAM_BASE;
use std::alloc::{AllocError, Global};
use std::process::Abort;
use std::test::Fail;

const MAX: u64 = u64::MAX;

const RAM_END: u64 = RAM_BASE + RAM;

// A usual executable: code, data with zeros after them, and a header that isn't loaded. One more
// byte than the data have follows in the file.
fn usual(rt: &impl Abort, alloc: Global) -> Result<Vec<u8>, AllocError> {
    let segments = [
        loaded(232, RAM_BASE, 20, 20),
        loaded(256, RAM_BASE + 0x1000, 8, 32),
        Segment {
            p_type: 0x7000_0003,
            p_offset: MAX,
            p_paddr: MAX,
            p_filesz: MAX,
            p_memsz: 0,
        },
    ];
    executable(rt, alloc, RAM_BASE, &segments, 289)
}

#[test]
fn finds_what_is_wrong_with_a_field(rt: HostRuntime) -> Result<(), Fail> {
    let alloc = rt.alloc();
    let file = usual(&rt, alloc)?;
    assert_eq!(rt; fault_of(alloc, &file), None);
    for (field, size, value, fault) in [
        // Another class, byte order, type, machine and size of a program header.
        (EI_CLASS, 1, 1, Some(NotElf64Little)),
        (EI_DATA, 1, 2, Some(NotElf64Little)),
        (E_TYPE, 2, 1, Some(NotExec(1))),
        (E_TYPE, 2, 3, Some(NotExec(3))),
        (E_MACHINE, 2, 62, Some(NotRiscv(62))),
        (E_PHENTSIZE, 2, 32, Some(BadHeaderSize)),
        (E_PHENTSIZE, 2, 0, Some(BadHeaderSize)),
        // The entry: misaligned, the last word of RAM, the end of RAM, and the word before RAM.
        (E_ENTRY, 8, RAM_BASE + 2, Some(BadEntry(RAM_BASE + 2))),
        (E_ENTRY, 8, RAM_END - 4, None),
        (E_ENTRY, 8, RAM_END, Some(BadEntry(RAM_END))),
        (E_ENTRY, 8, RAM_BASE - 4, Some(BadEntry(RAM_BASE - 4))),
        // The table, and the segment of header 1, up to the end of the file and beyond.
        (E_PHOFF, 8, 289 - 168, None),
        (E_PHOFF, 8, 289 - 167, Some(TableOutside)),
        (at(1, P_OFFSET), 8, 281, None),
        (at(1, P_OFFSET), 8, 282, Some(SegmentOutsideFile(1))),
        (at(1, P_FILESZ), 8, 32, None),
        (at(1, P_FILESZ), 8, 33, Some(FileOverMemory(1))),
        // The segment of header 1 up to the end of RAM and beyond, and from before RAM on.
        (at(1, P_PADDR), 8, RAM_END - 32, None),
        (at(1, P_PADDR), 8, RAM_END - 31, Some(SegmentOutsideRam(1))),
        (at(1, P_PADDR), 8, RAM_BASE - 1, Some(SegmentOutsideRam(1))),
        // Each field with all bits set.
        (EI_CLASS, 1, MAX, Some(NotElf64Little)),
        (EI_DATA, 1, MAX, Some(NotElf64Little)),
        (EI_VERSION, 2, MAX, None),
        (EI_ABIVERSION, 8, MAX, None),
        (E_TYPE, 2, MAX, Some(NotExec(0xffff))),
        (E_MACHINE, 2, MAX, Some(NotRiscv(0xffff))),
        (E_VERSION, 4, MAX, None),
        (E_ENTRY, 8, MAX, Some(BadEntry(MAX))),
        (E_PHOFF, 8, MAX, Some(TableOutside)),
        (E_SHOFF, 8, MAX, None),
        (E_FLAGS, 4, MAX, None),
        (E_EHSIZE, 2, MAX, None),
        (E_PHENTSIZE, 2, MAX, Some(BadHeaderSize)),
        (E_PHNUM, 2, MAX, Some(TableOutside)),
        (E_SHENTSIZE, 6, MAX, None),
        (at(1, P_TYPE), 4, MAX, None),
        (at(1, P_FLAGS), 4, MAX, None),
        (at(1, P_OFFSET), 8, MAX, Some(SegmentOutsideFile(1))),
        (at(1, P_VADDR), 8, MAX, None),
        (at(1, P_PADDR), 8, MAX, Some(SegmentOutsideRam(1))),
        (at(1, P_FILESZ), 8, MAX, Some(SegmentOutsideFile(1))),
        (at(1, P_MEMSZ), 8, MAX, Some(SegmentOutsideRam(1))),
        (at(1, P_ALIGN), 8, MAX, None),
    ] {
        let mut spoiled = Vec::from_slice(alloc, &file)?;
        put(&rt, &mut spoiled, field, size, value);
        assert_eq!(rt; fault_of(alloc, &spoiled), fault, "{value:#x} at {field}");
    }
    Ok(())
}

// Each row spoils one thing more, which is tested before all that was spoiled already.
#[test]
fn takes_the_first_fault(rt: HostRuntime) -> Result<(), Fail> {
    let alloc = rt.alloc();
    let mut file = usual(&rt, alloc)?;
    for (field, size, value, fault) in [
        (E_ENTRY, 8, 0, BadEntry(0)),
        (at(1, P_PADDR), 8, 0, SegmentOutsideRam(1)),
        (at(1, P_FILESZ), 8, 33, FileOverMemory(1)),
        (at(1, P_OFFSET), 8, 400, SegmentOutsideFile(1)),
        (at(0, P_PADDR), 8, 0, SegmentOutsideRam(0)),
        (at(0, P_MEMSZ), 8, 19, FileOverMemory(0)),
        (at(0, P_OFFSET), 8, 400, SegmentOutsideFile(0)),
        (E_PHOFF, 8, 400, TableOutside),
        (E_PHENTSIZE, 2, 64, BadHeaderSize),
        (E_MACHINE, 2, 40, NotRiscv(40)),
        (E_TYPE, 2, 4, NotExec(4)),
        (EI_DATA, 1, 2, NotElf64Little),
    ] {
        put(&rt, &mut file, field, size, value);
        assert_eq!(rt;
            fault_of(alloc, &file),
            Some(fault),
            "{value:#x} at {field}"
        );
    }
    file.truncate(63);
    assert_eq!(rt; fault_of(alloc, &file), Some(Short));
    Ok(())
}

#[test]
fn refuses_a_file_that_is_cut(rt: HostRuntime) -> Result<(), Fail> {
    let alloc = rt.alloc();
    let mut file = usual(&rt, alloc)?;
    for length in (0..289).rev() {
        file.truncate(length);
        let fault = match length {
            // Without its magic number the file is raw.
            0..4 => None,
            4..64 => Some(Short),
            64..232 => Some(TableOutside),
            232..252 => Some(SegmentOutsideFile(0)),
            252..264 => Some(SegmentOutsideFile(1)),
            _ => None,
        };
        assert_eq!(rt; fault_of(alloc, &file), fault, "{length} bytes");
    }
    Ok(())
}
