ghost use Rattle.std.specs.Prelude.{◌≡◌};
ghost use Rattle.image_loader.specs.Faults.{fault_number};

use thiserror::Error;

/// Why a file is refused as an image.
///
/// The fields are those of an ELF-64 object file (System V ABI, "Object Files"). A number in a
/// fault of a segment is the place of its program header in the whole table, from 0.
#[derive(Clone, Copy, Debug, PartialEq, Eq, Error)]
pub enum ImageFault {
    /// An ELF file has fewer bytes than an ELF header, which has 64.
    #[error("the ELF header is cut short")]
    Short,
    /// The class isn't 64 bits, or the bytes aren't little-endian.
    #[error("the ELF file isn't of 64 bits and little-endian")]
    NotElf64Little,
    /// The file's type is this one, and not that of an executable, 2.
    #[error("the ELF file is of type {0} and no executable")]
    NotExec(u16),
    /// The machine is this one, and not RISC-V, 243.
    #[error("the ELF file is for machine {0} and not for RISC-V")]
    NotRiscv(u16),
    /// There are program headers, and their size isn't 56 bytes.
    #[error("the program headers haven't 56 bytes")]
    BadHeaderSize,
    /// The table of program headers ends after the file.
    #[error("the table of program headers lies outside the file")]
    TableOutside,
    /// The bytes of the segment end after the file.
    #[error("segment {0} lies outside the file")]
    SegmentOutsideFile(u16),
    /// The segment has more bytes in the file than in memory.
    #[error("segment {0} is larger in the file than in memory")]
    FileOverMemory(u16),
    /// The segment doesn't lie in RAM. A raw file is segment 0.
    #[error("segment {0} lies outside RAM")]
    SegmentOutsideRam(u16),
    /// The entry is this address, which is no multiple of 4 or lies outside RAM.
    #[error("the entry {0:#x} is no multiple of 4 in RAM")]
    BadEntry(u64),
    /// The file has this many bytes, more than the limit. `load` has no limit of its own and never
    /// answers this: it is for a caller that reads files.
    #[error("the file has {0} bytes, more than an image may have")]
    TooLong(u64),
    /// Memory ran out.
    #[error("out of memory")]
    OutOfMemory,
}

impl ImageFault {
    /// The number of the fault among all, in the order above, from 1 on.
    pub fn number(&self) -> u8
        ensures { result ≡ fault_number self.now }
    {
        match self {
            ImageFault::Short => 1,
            ImageFault::NotElf64Little => 2,
            ImageFault::NotExec(_) => 3,
            ImageFault::NotRiscv(_) => 4,
            ImageFault::BadHeaderSize => 5,
            ImageFault::TableOutside => 6,
            ImageFault::SegmentOutsideFile(_) => 7,
            ImageFault::FileOverMemory(_) => 8,
            ImageFault::SegmentOutsideRam(_) => 9,
            ImageFault::BadEntry(_) => 10,
            ImageFault::TooLong(_) => 11,
            ImageFault::OutOfMemory => 12,
        }
    }
}
