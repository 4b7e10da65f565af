use std::alloc::{AllocError, Global};
use std::process::Abort;

// Offsets of fields in the ELF header.
pub(crate) const EI_CLASS: usize = 4;

pub(crate) const EI_DATA: usize = 5;

pub(crate) const EI_VERSION: usize = 6;

pub(crate) const EI_ABIVERSION: usize = 8;

pub(crate) const E_TYPE: usize = 16;

pub(crate) const E_MACHINE: usize = 18;

pub(crate) const E_VERSION: usize = 20;

pub(crate) const E_ENTRY: usize = 24;

pub(crate) const E_PHOFF: usize = 32;

pub(crate) const E_SHOFF: usize = 40;

pub(crate) const E_FLAGS: usize = 48;

pub(crate) const E_EHSIZE: usize = 52;

pub(crate) const E_PHENTSIZE: usize = 54;

pub(crate) const E_PHNUM: usize = 56;

pub(crate) const E_SHENTSIZE: usize = 58;

// Offsets of fields in a program header.
pub(crate) const P_TYPE: usize = 0;

pub(crate) const P_FLAGS: usize = 4;

pub(crate) const P_OFFSET: usize = 8;

pub(crate) const P_VADDR: usize = 16;

pub(crate) const P_PADDR: usize = 24;

pub(crate) const P_FILESZ: usize = 32;

pub(crate) const P_MEMSZ: usize = 40;

pub(crate) const P_ALIGN: usize = 48;

// A program header. What isn't told of a file is zero.
#[derive(Clone, Copy)]
pub(crate) struct Segment {
    pub(crate) p_type: u64,
    pub(crate) p_offset: u64,
    pub(crate) p_paddr: u64,
    pub(crate) p_filesz: u64,
    pub(crate) p_memsz: u64,
}

// A loaded segment whose bytes in the file begin at this offset.
pub(crate) fn loaded(p_offset: u64, p_paddr: u64, p_filesz: u64, p_memsz: u64) -> Segment {
    Segment {
        p_type: 1,
        p_offset,
        p_paddr,
        p_filesz,
        p_memsz,
    }
}

// Writes a field of so many bytes, little-endian.
pub(crate) fn put(rt: &impl Abort, file: &mut [u8], at: usize, size: usize, value: u64) {
    assert!(rt; size <= 8 && at <= file.len() && size <= file.len() - at);
    let bytes = value.to_le_bytes();
    file[at..at + size].copy_from_slice(&bytes[..size]);
}

// The offset of a field of program header n, where the table follows the ELF header.
pub(crate) fn at(n: usize, field: usize) -> usize {
    56usize
        .saturating_mul(n)
        .saturating_add(64)
        .saturating_add(field)
}

// An executable for RISC-V of so many bytes: the ELF header, these program headers, and bytes.
pub(crate) fn executable(
    rt: &impl Abort,
    alloc: Global,
    entry: u64,
    segments: &[Segment],
    size: usize,
) -> Result<Vec<u8>, AllocError> {
    let mut file = vec![in alloc; 0; size]?;
    put(rt, &mut file, 0, 8, 0x0001_0102_464c_457f);
    put(rt, &mut file, E_TYPE, 2, 2);
    put(rt, &mut file, E_MACHINE, 2, 243);
    put(rt, &mut file, E_VERSION, 4, 1);
    put(rt, &mut file, E_ENTRY, 8, entry);
    put(rt, &mut file, E_PHOFF, 8, 64);
    put(rt, &mut file, E_EHSIZE, 2, 64);
    put(rt, &mut file, E_PHENTSIZE, 2, 56);
    put(rt, &mut file, E_PHNUM, 2, segments.len() as u64);
    for (n, segment) in segments.iter().enumerate() {
        put(rt, &mut file, at(n, P_TYPE), 4, segment.p_type);
        put(rt, &mut file, at(n, P_OFFSET), 8, segment.p_offset);
        put(rt, &mut file, at(n, P_PADDR), 8, segment.p_paddr);
        put(rt, &mut file, at(n, P_FILESZ), 8, segment.p_filesz);
        put(rt, &mut file, at(n, P_MEMSZ), 8, segment.p_memsz);
    }
    for i in at(segments.len(), 0)..size {
        assert!(rt; i < file.len());
        file[i] = byte_of(i);
    }
    Ok(file)
}

// The byte that a file has at an offset after its program headers.
pub(crate) fn byte_of(offset: usize) -> u8 {
    (offset % 251) as u8
}
