ghost use Rattle.std.specs.Prelude.{◌≡◌, ◌+◌, ◌<◌, ◌≤◌, length};
ghost use Rattle.image_loader.specs.Headers.{is_elf, elf_header, IsHeader, program_header, program_header_at, program_header_size};

use crate::fields::{u16_at, u32_at, u64_at};

pub(crate) const ELF_HEADER_SIZE: usize = 64;

pub(crate) const PROGRAM_HEADER_SIZE: u64 = 56;

// What the fields of an ELF header are tested for: 64 bits, little-endian, an executable, RISC-V.
pub(crate) const ELFCLASS64: u8 = 2;

pub(crate) const ELFDATA2LSB: u8 = 1;

pub(crate) const ET_EXEC: u16 = 2;

pub(crate) const EM_RISCV: u16 = 243;

// The type of the program header of a segment that is loaded.
pub(crate) const PT_LOAD: u32 = 1;

// The fields of an ELF header that are read, by the names of the System V ABI.
#[derive(Clone, Copy)]
pub(crate) struct ElfHeader {
    pub(crate) ei_class: u8,
    pub(crate) ei_data: u8,
    pub(crate) e_type: u16,
    pub(crate) e_machine: u16,
    pub(crate) e_entry: u64,
    pub(crate) e_phoff: u64,
    pub(crate) e_phentsize: u16,
    pub(crate) e_phnum: u16,
}

// The fields of a program header that are read.
#[derive(Clone, Copy)]
pub(crate) struct ProgramHeader {
    pub(crate) p_type: u32,
    pub(crate) p_offset: u64,
    pub(crate) p_paddr: u64,
    pub(crate) p_filesz: u64,
    pub(crate) p_memsz: u64,
}

// Whether the file begins with the magic number of ELF files.
pub(crate) fn is_elf(file: &[u8]) -> bool
    ensures { result ≡ is_elf file.now }
{
    match file {
        [a, b, c, d, ..] => *a == 0x7f && *b == 0x45 && *c == 0x4c && *d == 0x46,
        _ => false,
    }
}

impl ElfHeader {
    #[tactic(auto, unfolding(crate::specs::Headers::elf_header))]
    pub(crate) fn of(file: &[u8]) -> ElfHeader
        requires { 64 ≤ length file.now }
        ensures { result ≡ elf_header file.now }
    {
        ElfHeader {
            ei_class: file[4],
            ei_data: file[5],
            e_type: u16_at(file, 16),
            e_machine: u16_at(file, 18),
            e_entry: u64_at(file, 24),
            e_phoff: u64_at(file, 32),
            e_phentsize: u16_at(file, 54),
            e_phnum: u16_at(file, 56),
        }
    }

    // Program header n of the table, which lies in the file.
    pub(crate) fn program_header(&self, file: &[u8], n: u16) -> ProgramHeader
        requires header { IsHeader file.now self.now }
        requires one { n < self.now.e_phnum }
        ensures { result ≡ program_header file.now n }
    {
        ProgramHeader::at(
            file,
            (self.e_phoff + PROGRAM_HEADER_SIZE * n as u64) as usize,
        )
    }
}

impl ProgramHeader {
    // The program header at this offset.
    #[tactic(auto, unfolding(crate::specs::Headers::program_header_at))]
    fn at(file: &[u8], at: usize) -> ProgramHeader
        requires { at + program_header_size ≤ length file.now }
        ensures { result ≡ program_header_at file.now at }
    {
        ProgramHeader {
            p_type: u32_at(file, at),
            p_offset: u64_at(file, at + 8),
            p_paddr: u64_at(file, at + 24),
            p_filesz: u64_at(file, at + 32),
            p_memsz: u64_at(file, at + 40),
        }
    }
}
