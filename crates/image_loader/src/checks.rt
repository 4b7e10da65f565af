ghost use Rattle.std.specs.Prelude.{◌≡◌, ℕ, ◌+◌, ◌<◌, nat_le, List, IfOk};
ghost use Rattle.std.specs.Result.{result_err};
ghost use Rattle.flex_base.specs.Place.{in_ram};
ghost use Rattle.image_loader.specs.Headers.{IsHeader};
ghost use Rattle.image_loader.specs.Faults.{first_fault, elf_tests, header_tests, segment_tests, table_tests, entry_tests};

use crate::fault::ImageFault;
use crate::headers::{
    ELF_HEADER_SIZE, ELFCLASS64, ELFDATA2LSB, EM_RISCV, ET_EXEC, ElfHeader, PROGRAM_HEADER_SIZE,
    PT_LOAD,
};
use flex_base::RAM_BASE;

// The header of an ELF file that has no fault.
pub(crate) fn checked_elf(file: &[u8], ram: u64) -> Result<ElfHeader, ImageFault>
    ensures fault { result_err result ≡ first_fault (elf_tests file.now ram) }
    ensures header { IfOk result (IsHeader file.now) }
{
    let header = checked_header(file)?;
    check_segments(file, &header, ram)?;
    check_entry(&header, ram)?;
    Ok(header)
}

// The header of an ELF file whose header has no fault.
fn checked_header(file: &[u8]) -> Result<ElfHeader, ImageFault>
    ensures fault { result_err result ≡ first_fault (header_tests file.now) }
    ensures header { IfOk result (IsHeader file.now) }
{
    if file.len() < ELF_HEADER_SIZE {
        return Err(ImageFault::Short);
    }
    let header = ElfHeader::of(file);
    if header.ei_class != ELFCLASS64 || header.ei_data != ELFDATA2LSB {
        return Err(ImageFault::NotElf64Little);
    }
    if header.e_type != ET_EXEC {
        return Err(ImageFault::NotExec(header.e_type));
    }
    if header.e_machine != EM_RISCV {
        return Err(ImageFault::NotRiscv(header.e_machine));
    }
    if header.e_phnum != 0 && header.e_phentsize as u64 != PROGRAM_HEADER_SIZE {
        return Err(ImageFault::BadHeaderSize);
    }
    let table_size = PROGRAM_HEADER_SIZE * header.e_phnum as u64;
    if !is_within(header.e_phoff, table_size, file.len() as u64) {
        return Err(ImageFault::TableOutside);
    }
    Ok(header)
}

// Checks the segments, one after another.
fn check_segments(file: &[u8], header: &ElfHeader, ram: u64) -> Result<(), ImageFault>
    requires { IsHeader file.now header.now }
    ensures { result_err result ≡ first_fault (table_tests file.now ram header.now.e_phnum) }
{
    for n in 0..header.e_phnum {
        check_segment(file, header, ram, n)?;
    }
    Ok(())
}

// Checks the segment of a program header, if it has one.
fn check_segment(file: &[u8], header: &ElfHeader, ram: u64, n: u16) -> Result<(), ImageFault>
    requires header { IsHeader file.now header.now }
    requires one { n < header.now.e_phnum }
    ensures { result_err result ≡ first_fault (segment_tests file.now ram n) }
{
    let segment = header.program_header(file, n);
    if segment.p_type != PT_LOAD {
        return Ok(());
    }
    if !is_within(segment.p_offset, segment.p_filesz, file.len() as u64) {
        return Err(ImageFault::SegmentOutsideFile(n));
    }
    if segment.p_filesz > segment.p_memsz {
        return Err(ImageFault::FileOverMemory(n));
    }
    if segment.p_memsz != 0 && !is_in_ram(ram, segment.p_paddr, segment.p_memsz) {
        return Err(ImageFault::SegmentOutsideRam(n));
    }
    Ok(())
}

// Checks the entry.
fn check_entry(header: &ElfHeader, ram: u64) -> Result<(), ImageFault>
    ensures { (file : List ℕ) → IsHeader file header.now
        → result_err result ≡ first_fault (entry_tests file ram) }
{
    let entry = header.e_entry;
    if entry % 4 == 0 && is_in_ram(ram, entry, 1) {
        Ok(())
    } else {
        Err(ImageFault::BadEntry(entry))
    }
}

// Whether so many, from this one on, are among the first `end`. The sum doesn't wrap.
fn is_within(begin: u64, count: u64, end: u64) -> bool
    ensures { result ≡ nat_le (begin + count) end }
{
    begin <= end && count <= end - begin
}

// Whether so many bytes from the address on lie in RAM, of this size in bytes.
fn is_in_ram(ram: u64, address: u64, size: u64) -> bool
    ensures { result ≡ in_ram ram address size }
{
    address >= RAM_BASE && is_within(address - RAM_BASE, size, ram)
}
