ghost use Rattle.std.specs.Prelude.{◌≡◌, ℕ, ◌^◌, ◌<◌, true, ◌++◌, IfOk, IfErr, OnOk};
ghost use Rattle.flex_base.specs.Loaded.{image_fits};
ghost use Rattle.image_loader.specs.Headers.{IsHeader};
ghost use Rattle.image_loader.specs.Faults.{is_of_file, first_fault, IsFaultless, segment_tests, table_tests, elf_tests, raw_tests};
ghost use Rattle.image_loader.specs.Loading.{segment, segments, elf_image, raw_image, unless_fault, loaded, IsOutcome};
ghost use Rattle.image_loader.specs.Laying.{AreSameBytes, AreInRam};

use crate::checks::checked_elf;
use crate::fault::ImageFault;
use crate::headers::{ElfHeader, PT_LOAD, is_elf};
use crate::parts::Parts;
use flex_base::{Image, RAM_BASE};
use std::alloc::{AllocError, Global};

/// The image of a file's bytes, for RAM of this size in bytes.
///
/// A file that begins with 7f 45 4c 46 is an ELF file: the segments of its program headers of type
/// PT_LOAD go to their physical addresses, one after another, each filled up with zeros, and its
/// `e_entry` is the entry (System V ABI, "Object Files"). Any other file is raw: its bytes go to
/// the beginning of RAM, which is the entry.
///
/// A fault is the first that is found: those of the ELF header, those of each program header in
/// their order, and that of the entry. `OutOfMemory` is answered only for a file that has none.
#[tactic(auto, unfolding(crate::specs::Loading::loaded), using(crate::proofs::Answering::refused_of_file))]
pub fn load(alloc: Global, bytes: &[u8], ram: u64) -> Result<Image, ImageFault>
    ensures outcome { IsOutcome (loaded bytes.now ram) result }
    ensures fits { IfOk result (λ image. 0 < ram → image_fits ram image ≡ true) }

    // Of every file: what it is refused for is neither its length nor want of memory.
    ensures of_file { IfErr (loaded bytes.now ram) (λ fault. is_of_file fault ≡ true) }
{
    if is_elf(bytes) {
        load_elf(alloc, bytes, ram)
    } else {
        load_raw(alloc, bytes, ram)
    }
}

fn load_raw(alloc: Global, file: &[u8], ram: u64) -> Result<Image, ImageFault>
    ensures outcome { IsOutcome (unless_fault (first_fault (raw_tests file.now ram)) (raw_image file.now)) result }
    ensures fits { IfOk result (λ image. 0 < ram → image_fits ram image ≡ true) }
{
    let size = file.len() as u64;
    if size > ram {
        return Err(ImageFault::SegmentOutsideRam(0));
    }
    let mut parts = Parts::new(alloc);
    match parts.lay(alloc, RAM_BASE, file, size) {
        Ok(()) => Ok(Image {
            entry: RAM_BASE,
            parts: parts.into_list(),
        }),
        Err(_) => Err(ImageFault::OutOfMemory),
    }
}

fn load_elf(alloc: Global, file: &[u8], ram: u64) -> Result<Image, ImageFault>
    ensures outcome { IsOutcome (unless_fault (first_fault (elf_tests file.now ram)) (elf_image file.now)) result }
    ensures fits { IfOk result (λ image. image_fits ram image ≡ true) }
{
    let header = checked_elf(file, ram)?;
    match laid_segments(alloc, file, &header) {
        Ok(parts) => Ok(Image {
            entry: header.e_entry,
            parts: parts.into_list(),
        }),
        Err(_) => Err(ImageFault::OutOfMemory),
    }
}

// The segments of a file that has no fault, laid one over another.
fn laid_segments(alloc: Global, file: &[u8], header: &ElfHeader) -> Result<Parts, AllocError>
    requires header { IsHeader file.now header.now }
    requires checked { (ram : ℕ) × (ram < 2 ^ 64) × IsFaultless (table_tests file.now ram header.now.e_phnum) }
    ensures bytes { IfOk result (λ parts. AreSameBytes parts (segments file.now header.now.e_phnum)) }
    ensures fit { IfOk result (λ parts. (ram : ℕ) → IsFaultless (table_tests file.now ram header.now.e_phnum)
        → AreInRam ram parts) }
{
    let mut parts = Parts::new(alloc);
    for n in 0..header.e_phnum {
        lay_segment(&mut parts, alloc, file, header, n)?;
    }
    Ok(parts)
}

// Lays the segment of a program header, if it has one.
fn lay_segment(
    parts: &mut Parts,
    alloc: Global,
    file: &[u8],
    header: &ElfHeader,
    n: u16,
) -> Result<(), AllocError>
    requires header { IsHeader file.now header.now }
    requires one { n < header.now.e_phnum }
    requires checked { (ram : ℕ) × (ram < 2 ^ 64) × IsFaultless (segment_tests file.now ram n) }
    ensures bytes { OnOk result (AreSameBytes parts.new (parts.old ++ segment file.now n)) }
    ensures fit { (ram : ℕ) → IsFaultless (segment_tests file.now ram n) → AreInRam ram parts.old
        → OnOk result (AreInRam ram parts.new) }
{
    let segment = header.program_header(file, n);
    if segment.p_type != PT_LOAD || segment.p_memsz == 0 {
        return Ok(());
    }
    let begin = segment.p_offset as usize;
    let bytes = &file[begin..begin + segment.p_filesz as usize];
    parts.lay(alloc, segment.p_paddr, bytes, segment.p_memsz)
}
