use super::*;

mod heard;

use crate::outer::streams::read_whole;
use std::alloc::{AllocError, Global};
use std::io::{Read, Write};
use std::process::Abort;
use std::test::Fail;
use std::{fs, io};

fn files(alloc: Global, listed: &[(&str, &str)]) -> Result<Vec<(Text, Vec<u8>)>, AllocError> {
    let mut files = Vec::new(alloc);
    for (name, contents) in listed {
        let name = Text::of(alloc, name.as_bytes())?;
        let bytes = Vec::from_slice(alloc, contents.as_bytes())?;
        files.push((name, bytes))?;
    }
    Ok(files)
}

#[test]
fn text_holds_its_bytes(rt: HostRuntime) -> Result<(), Fail> {
    let text = Text::of(rt.alloc(), b"plan")?;
    assert_eq!(rt; text.bytes(), b"plan".as_slice());
    Ok(())
}

#[test]
fn memory_outer_fails_by_the_number_of_the_call(rt: HostRuntime) -> Result<(), Fail> {
    for (due, written, said) in [
        (0, "ab", "hi"),
        (1, "ab", "hi"),
        (2, "", "hi"),
        (3, "ab", ""),
        (4, "ab", "hi"),
    ] {
        make_four_calls(&rt, rt.alloc(), due, written, said)?;
    }
    Ok(())
}

// The four calls in turn, of which the one with the number `due` fails.
fn make_four_calls(
    rt: &impl Abort,
    alloc: Global,
    due: u64,
    written: &str,
    said: &str,
) -> Result<(), AllocError> {
    let held = files(alloc, [("img", "xyz")].as_slice())?;
    let failing = Vec::from_slice(alloc, [9, due].as_slice())?;
    let mut outer = MemoryOuter::new(alloc, held, failing);
    assert_eq!(rt; outer.take("img", 3).is_ok(), due != 0, "take at {due}");
    assert_eq!(rt; outer.start("out").is_ok(), due != 1, "start at {due}");
    assert_eq!(rt; outer.add("out", b"ab").is_ok(), due != 2, "add at {due}");
    assert_eq!(rt; outer.say(b"hi").is_ok(), due != 3, "say at {due}");
    assert_eq!(rt;
        outer.written("out"),
        Some(written.as_bytes()),
        "written at {due}"
    );
    assert_eq!(rt; outer.said(), said.as_bytes(), "said at {due}");
    Ok(())
}

#[test]
fn memory_outer_gives_the_first_file_of_a_name(rt: HostRuntime) -> Result<(), Fail> {
    let alloc = rt.alloc();
    let held = files(
        alloc,
        [("a", "one"), ("b", "four"), ("a", "three"), ("empty", "")].as_slice(),
    )?;
    let mut outer = MemoryOuter::new(alloc, held, Vec::new(alloc));
    assert_eq!(rt; outer.take("a", 3)?.as_slice(), b"one".as_slice());
    assert_eq!(rt; outer.take("b", 100)?.as_slice(), b"four".as_slice());
    assert_eq!(rt; outer.take("empty", 0)?.len(), 0);
    assert_eq!(rt; outer.take("b", 3).err(), Some(TakeFault::TooLong(4)));
    assert_eq!(rt; outer.take("c", 3).err(), Some(TakeFault::Failed));
    Ok(())
}

#[test]
fn memory_outer_keeps_what_is_written_and_said(rt: HostRuntime) -> Result<(), Fail> {
    let alloc = rt.alloc();
    let held = files(alloc, [("a", "held")].as_slice())?;
    let mut outer = MemoryOuter::new(alloc, held, Vec::new(alloc));
    assert_eq!(rt; outer.written("a"), None);
    outer.add("a", b"12")?;
    outer.add("b", b"")?;
    outer.add("a", b"34")?;
    assert_eq!(rt; outer.written("a"), Some(b"1234".as_slice()));
    assert_eq!(rt; outer.written("b"), Some(b"".as_slice()));
    outer.start("a")?;
    assert_eq!(rt; outer.written("a"), Some(b"".as_slice()));
    assert_eq!(rt; outer.written("c"), None);
    outer.say(b"one ")?;
    outer.say(b"two")?;
    assert_eq!(rt; outer.said(), b"one two".as_slice());
    Ok(())
}

#[test]
fn steady_outer_holds_each_other_name_as_an_empty_file(rt: HostRuntime) -> Result<(), Fail> {
    let alloc = rt.alloc();
    let mut outer = SteadyOuter::new(
        alloc,
        files(alloc, [("a", "one"), ("a", "two")].as_slice())?,
    );
    assert_eq!(rt; outer.take("a", 3)?.as_slice(), b"one".as_slice());
    assert_eq!(rt; outer.take("a", 2).err(), Some(TakeFault::TooLong(3)));
    outer.start("b")?;
    outer.add("b", b"lost")?;
    outer.say(b"lost")?;
    assert_eq!(rt; outer.take("b", 0)?.len(), 0);
    Ok(())
}

#[test]
fn real_outer_writes_and_takes_files(rt: HostRuntime) -> Result<(), Fail> {
    let mut outer = RealOuter::new(rt.clone()?);
    outer.start("written")?;
    outer.add("written", b"more than is added later")?;
    outer.start("written")?;
    outer.add("written", b"first ")?;
    outer.start("other")?;
    outer.add("written", b"second")?;
    assert_eq!(rt;
        outer.take("written", 12)?.as_slice(),
        b"first second".as_slice()
    );
    assert_eq!(rt;
        outer.take("written", 11).err(),
        Some(TakeFault::TooLong(12))
    );
    assert_eq!(rt; outer.take("other", 0)?.len(), 0);
    assert_eq!(rt;
        outer.take("/dev/zero", 100_000).err(),
        Some(TakeFault::TooLong(100_001))
    );
    for name in ["missing", ".", "written/below"] {
        assert_eq!(rt;
            outer.take(name, u64::MAX).err(),
            Some(TakeFault::Failed),
            "take {name}"
        );
        assert_eq!(rt; outer.add(name, b"x").err(), Some(Failed), "add {name}");
    }
    assert!(rt; !fs::exists(&rt, "missing")?);
    fs::remove_file(&rt, "written")?;
    fs::remove_file(&rt, "other")?;
    Ok(())
}

#[test]
fn real_outer_adds_many_bytes_to_one_file(rt: HostRuntime) -> Result<(), Fail> {
    let mut bytes = Vec::new(rt.alloc());
    for number in 0..50_000u32 {
        bytes.extend_from_slice(&number.to_le_bytes())?;
    }
    let mut outer = RealOuter::new(rt.clone()?);
    outer.start("long")?;
    for piece in bytes.chunks(70_000) {
        outer.add("long", piece)?;
    }
    assert!(rt; outer.take("long", 200_000)?.as_slice() == bytes.as_slice());
    fs::remove_file(&rt, "long")?;
    assert_eq!(rt; outer.add("long", b"x").err(), Some(Failed), "removed");
    assert!(rt; !fs::exists(&rt, "long")?);
    outer.start("long")?;
    outer.add("long", b"kept")?;
    fs::rename(&rt, "long", "moved")?;
    fs::write(&rt, "long", b"another")?;
    assert_eq!(rt; outer.add("long", b"x").err(), Some(Failed), "replaced");
    assert_eq!(rt; outer.take("long", 7)?.as_slice(), b"another".as_slice());
    fs::remove_file(&rt, "long")?;
    fs::remove_file(&rt, "moved")?;
    Ok(())
}

// Each other call is interrupted, and the others move at most 3 bytes.
#[derive(Drop)]
struct Halting<S> {
    stream: S,
    is_due: bool,
}

impl<S> Halting<S> {
    fn halt(&mut self) -> io::Result<()> {
        self.is_due = !self.is_due;
        if self.is_due {
            return Err(io::Error::from(io::ErrorKind::Interrupted));
        }
        Ok(())
    }
}

impl<S: Read> Read for Halting<S> {
    fn read(&mut self, buf: &mut [u8]) -> io::Result<usize> {
        self.halt()?;
        let most = buf.len().min(3);
        self.stream.read(&mut buf[..most])
    }
}

impl<S: Write> Write for Halting<S> {
    fn write(&mut self, buf: &[u8]) -> io::Result<usize> {
        self.halt()?;
        self.stream.write(&buf[..buf.len().min(3)])
    }

    fn flush(&mut self) -> io::Result<()> {
        Ok(())
    }
}

#[test]
fn whole_streams_pass_over_interrupts(rt: HostRuntime) -> Result<(), Fail> {
    let mut writer = Halting {
        stream: Vec::new(rt.alloc()),
        is_due: false,
    };
    write_whole(&mut writer, b"eight by")?;
    assert_eq!(rt; writer.stream.as_slice(), b"eight by".as_slice());
    for (limit, length) in [(7, None), (8, Some(8)), (u64::MAX, Some(8))] {
        let mut reader = Halting {
            stream: writer.stream.as_slice(),
            is_due: false,
        };
        let read = read_whole(rt.alloc(), &mut reader, limit);
        assert_eq!(rt; read.ok().map(|bytes| bytes.len()), length, "limit {limit}");
    }
    Ok(())
}

#[test]
fn image_fits_to_the_last_byte_of_ram(rt: HostRuntime) -> Result<(), Fail> {
    let ram = 0x0010_0000;
    let table = [
        (0x8000_0000, 0x8000_0000, 0x0010_0000, true),
        (0x8000_0000, 0x8000_0001, 0x0010_0000, false),
        (0x800f_fffc, 0x800f_fffe, 2, true),
        (0x800f_fffc, 0x800f_ffff, 2, false),
        (0x8010_0000, 0x8000_0000, 4, false),
        (0x7fff_fffc, 0x8000_0000, 4, false),
        (0x8000_0002, 0x8000_0000, 4, false),
        (0x8000_0000, 0x7fff_ffff, 1, false),
        (0x8000_0000, 0xffff_ffff_ffff_ffff, 4, false),
        (0x8000_0000, 0, 0, true),
        (0x8000_0000, 0xffff_ffff_ffff_ffff, 0, true),
    ];
    for (entry, address, length, fits) in table {
        let alloc = rt.alloc();
        let mut parts = Vec::new(alloc);
        parts.push((0x8000_0000, Vec::from_slice(alloc, b"code")?))?;
        parts.push((address, vec![in alloc; 0u8; length]?))?;
        let image = Image { entry, parts };
        assert_eq!(rt;
            image.fits(ram),
            fits,
            "entry {entry:x}, {length} bytes at {address:x}"
        );
    }
    Ok(())
}

#[test]
fn layout_places_ram_and_each_register(rt: HostRuntime) {
    let layout = Layout {
        harts: 2,
        ram: 0x0010_0000,
    };
    place_ram(&rt, &layout);
    place_registers(&rt, &layout);
}

fn place_ram(rt: &impl Abort, layout: &Layout) {
    let table = [
        (0x7fff_ffff, 1, Place::Nowhere),
        (0x7fff_ffff, 2, Place::Nowhere),
        (0x8000_0000, 1, Place::Ram),
        (0x8000_0001, 8, Place::Ram),
        (0x800f_fff8, 8, Place::Ram),
        (0x800f_fff9, 8, Place::Nowhere),
        (0x800f_ffff, 1, Place::Ram),
        (0x800f_ffff, 2, Place::Nowhere),
        (0x8010_0000, 1, Place::Nowhere),
        (0xffff_ffff_ffff_ffff, 8, Place::Nowhere),
    ];
    for (address, width, place) in table {
        assert_eq!(rt;
            layout.place(address, width),
            place,
            "{width} bytes at {address:x}"
        );
    }
}

// Each family of registers: its first, its last and the ones next to them, at the widths of 1, 2, 4
// and 8 bytes of which a D stands where a register does.
fn place_registers(rt: &impl Abort, layout: &Layout) {
    let table = [
        (0x000f_fffc, "...."),
        (0x0010_0000, "..D."),
        (0x0010_0004, "...."),
        (0x01ff_fffc, "...."),
        (0x0200_0000, "..D."),
        (0x0200_0002, "...."),
        (0x0200_0004, "..D."),
        (0x0200_0008, "...."),
        (0x0200_3ffc, "...."),
        (0x0200_4000, "..DD"),
        (0x0200_4004, "..D."),
        (0x0200_4008, "..DD"),
        (0x0200_400c, "..D."),
        (0x0200_4010, "...."),
        (0x0200_bff4, "...."),
        (0x0200_bff8, "..DD"),
        (0x0200_bffc, "..D."),
        (0x0200_c000, "...."),
        (0x0fff_ffff, "...."),
        (0x1000_0000, "D..."),
        (0x1000_0007, "D..."),
        (0x1000_0008, "...."),
    ];
    for (address, places) in table {
        for (width, letter) in [1, 2, 4, 8].into_iter().zip(places.chars()) {
            let place = if letter == 'D' {
                Place::Device
            } else {
                Place::Nowhere
            };
            assert_eq!(rt;
                layout.place(address, width),
                place,
                "{width} bytes at {address:x}"
            );
        }
    }
}
