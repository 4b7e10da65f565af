// ELF files: that the file and the size of RAM are passed on. What each field comes to is tested in `image_loader`.

use super::{ENDED, assert_image, run};
use crate::status::status_code;
use image_loader::ImageFault;
use std::alloc::{AllocError, Global};
use std::test::Fail;

// A file by its words of 8 bytes. Of two segments the first is code at 80000000, 20 bytes in the file and in RAM; the
// second is data at 80001000, 8 bytes in the file and 32 in RAM. The third program header isn't loaded. The code is
// `ebreak`, and from the entry 80000004 on `auipc x5, 1`, `ld x6, -4(x5)`, `ld x7, 20(x5)` and a jump to itself.
#[rattlefmt::skip]
const ELF: [u64; 37] = [
    // The ELF header: entry, offset of the program headers, and, at last, how many there are.
    0x0001_0102_464c_457f, 0, 0x0000_0001_00f3_0002, 0x8000_0004, 64, 0, 0x0038_0040_0000_0000, 3,
    // Each program header: type and flags, offset, virtual and physical address, sizes in file and RAM, alignment.
    0x0000_0005_0000_0001, 232, 0x8000_0000, 0x8000_0000, 20, 20, 4,
    0x0000_0006_0000_0001, 256, 0x8000_1000, 0x8000_1000, 8, 32, 8,
    0x0000_0004_7000_0003, u64::MAX, 0, u64::MAX, u64::MAX, 0, 1,
    0x0000_1297_0010_0073, 0x0142_b383_ffc2_b303, 0x0000_0000_0000_006f,
    0x1122_3344_5566_7788, u64::MAX, u64::MAX, u64::MAX, u64::MAX,
];

// The first bytes of the file in which this word is another one.
fn file_with(alloc: Global, place: usize, word: u64, length: usize) -> Result<Vec<u8>, AllocError> {
    let mut file = Vec::new(alloc);
    for (i, old) in ELF.iter().enumerate() {
        let now = if i == place { word } else { *old };
        file.extend_from_slice(&now.to_le_bytes())?;
    }
    file.truncate(length);
    Ok(file)
}

#[test]
fn runs_an_elf_file(rt: HostRuntime) -> Result<(), Fail> {
    let file = file_with(rt.alloc(), 1, 0, 296)?;
    let line = "solo img out --ram=1 --budget=4";
    let (status, outer) = run(rt.alloc(), &file, line, &[])?;
    assert_eq!(rt; status_code(&status), ENDED);
    let text = str::from_utf8(outer.written("out").unwrap_or(b"")).unwrap_or("");
    for want in [
        "\n0 0 p fetch 0000000080000004 00001297\n",
        " p read 0000000080001000 8 1122334455667788\n",
        " p read 0000000080001018 8 0000000000000000\n",
    ] {
        assert!(rt; text.contains(want), "no {want}");
    }
    Ok(())
}

#[test]
fn refuses_an_elf_file(rt: HostRuntime) -> Result<(), Fail> {
    let alloc = rt.alloc();
    for (place, word, length, fault) in [
        (1, 0, 4, ImageFault::Short),
        (7, 2, 175, ImageFault::TableOutside),
        (19, 33, 289, ImageFault::FileOverMemory(1)),
        (18, 0x800f_ffe1, 296, ImageFault::SegmentOutsideRam(1)),
        (3, 0x8000_0002, 296, ImageFault::BadEntry(0x8000_0002)),
    ] {
        let file = file_with(alloc, place, word, length)?;
        assert_image(&rt, alloc, &file, fault)?;
    }
    // The segment that lies outside 1 MiB of RAM lies in 2 MiB.
    let file = file_with(alloc, 18, 0x800f_ffe1, 296)?;
    let line = "solo img out --ram=2 --budget=1";
    let (status, _) = run(alloc, &file, line, &[])?;
    assert_eq!(rt; status_code(&status), ENDED);
    Ok(())
}
