ghost use Rattle.std.specs.Prelude.{◌≡◌, ℕ, ◌≤◌, ◌<◌, None, Err, IfOk, length};

use super::counts::rise;
use super::streams::{read_whole, write_whole};
use crate::outer::{Failed, Outer, TakeFault};
use crate::text::Text;
use std::fs::{File, Files, OpenFile, OpenOptions};
use std::os::unix::fs::MetadataExt;
use std::{fs, io};

/// The files of the system, and standard output.
///
/// It tells no contents. A folder, a missing file and one that can't be read are read faults. A file
/// that is started stays open and takes what is added to it, as long as its name leads to it: where
/// the file was removed, moved or replaced, `add` fails. An `add` makes no file.
#[derive(Drop)]
pub struct RealOuter<R: Files + Print + AllocGlobal> {
    rt: R,
    opened: Option<Opened<R::File>>,
    read_faults: u64,
    write_faults: u64,
}

impl<R: Files + Print + AllocGlobal> RealOuter<R> {
    /// The outside as this runtime reaches it.
    pub fn new(rt: R) -> RealOuter<R>
        ensures { ⟦<RealOuter<R> as Outer>⟧.outside result ≡ record {
          held = None;
          written = None;
          said = None;
          read_faults = 0;
          write_faults = 0;
        } }
    {
        RealOuter {
            rt,
            opened: None,
            read_faults: 0,
            write_faults: 0,
        }
    }
}

impl<R: Files + Print + AllocGlobal> Outer for RealOuter<R> {
    ghost outside = { λ outer. record {
      held = None;
      written = None;
      said = None;
      read_faults = outer.read_faults;
      write_faults = outer.write_faults;
    } };

    fn take(&mut self, name: &str, limit: u64) -> Result<Vec<u8>, TakeFault> {
        match read_file(&self.rt, name, limit) {
            Ok(bytes) => Ok(bytes),
            Err(TakeFault::Failed) => {
                rise(&mut self.read_faults);
                Err(TakeFault::Failed)
            }
            Err(TakeFault::TooLong(length)) => Err(TakeFault::TooLong(length)),
            Err(TakeFault::OutOfMemory) => Err(TakeFault::OutOfMemory),
        }
    }

    fn start(&mut self, name: &str) -> Result<(), Failed> {
        match create(&self.rt, name) {
            Ok(opened) => {
                self.opened = Some(opened);
                Ok(())
            }
            Err(Failed) => {
                rise(&mut self.write_faults);
                Err(Failed)
            }
        }
    }

    fn add(&mut self, name: &str, bytes: &[u8]) -> Result<(), Failed> {
        match add_to(&self.rt, self.opened.take(), name, bytes) {
            Ok(opened) => {
                self.opened = Some(opened);
                Ok(())
            }
            Err(Failed) => {
                rise(&mut self.write_faults);
                Err(Failed)
            }
        }
    }

    fn say(&mut self, bytes: &[u8]) -> Result<(), Failed> {
        match write_whole(&mut io::writer(&self.rt), bytes) {
            Ok(()) => Ok(()),
            Err(Failed) => {
                rise(&mut self.write_faults);
                Err(Failed)
            }
        }
    }
}

// A file that was opened to be written, and the name that led to it.
#[derive(Drop)]
struct Opened<F> {
    name: Text,
    file: F,
}

// Makes the file of this name empty. Its name is copied first, so that want of memory changes nothing.
fn create<R: Files + AllocGlobal>(rt: &R, name: &str) -> Result<Opened<R::File>, Failed> {
    let text = copy_name(rt, name)?;
    match File::create(rt, name) {
        Ok(file) => Ok(Opened { name: text, file }),
        Err(_) => Err(Failed),
    }
}

// A file that is already there, to add bytes at its end.
fn open<R: Files + AllocGlobal>(rt: &R, name: &str) -> Result<Opened<R::File>, Failed> {
    let text = copy_name(rt, name)?;
    match OpenOptions::new().append(true).open(rt, name) {
        Ok(file) => Ok(Opened { name: text, file }),
        Err(_) => Err(Failed),
    }
}

fn copy_name<R: AllocGlobal>(rt: &R, name: &str) -> Result<Text, Failed>
    ensures { IfOk result (λ text. text ≡ name.now) }
{
    match Text::of(rt.alloc(), name.as_bytes()) {
        Ok(text) => Ok(text),
        Err(_) => Err(Failed),
    }
}

// Adds bytes to the file of this name, which it opens where another is open or none. Whether the
// name leads to the file is seen after the write, so that what stands under the name has the bytes.
fn add_to<R: Files + AllocGlobal>(
    rt: &R,
    opened: Option<Opened<R::File>>,
    name: &str,
    bytes: &[u8],
) -> Result<Opened<R::File>, Failed> {
    let same = opened.filter(|opened| opened.name.bytes() == name.as_bytes());
    let mut opened = match same {
        Some(opened) => opened,
        None => open(rt, name)?,
    };
    write_whole(&mut opened.file, bytes)?;
    if leads_to(rt, name, &opened.file) {
        Ok(opened)
    } else {
        Err(Failed)
    }
}

// Whether the name leads to this open file: the device and the file's number on it are the same.
fn leads_to<R: Files>(rt: &R, name: &str, file: &R::File) -> bool {
    match (fs::metadata(rt, name), file.metadata()) {
        (Ok(named), Ok(opened)) => named.dev() == opened.dev() && named.ino() == opened.ino(),
        _ => false,
    }
}

// All bytes of a file, if they are no more than the limit.
fn read_file<R: Files + AllocGlobal>(rt: &R, name: &str, limit: u64) -> Result<Vec<u8>, TakeFault>
    ensures within { IfOk result (λ v. length v.items ≤ limit) }
    ensures over { (n : ℕ) → result ≡ Err (TakeFault.TooLong n) → limit < n }
{
    let mut file = match File::open(rt, name) {
        Ok(file) => file,
        Err(_) => return Err(TakeFault::Failed),
    };
    let about = match file.metadata() {
        Ok(about) => about,
        Err(_) => return Err(TakeFault::Failed),
    };
    if about.is_dir() {
        return Err(TakeFault::Failed);
    }
    if about.len() > limit {
        return Err(TakeFault::TooLong(about.len()));
    }
    read_whole(rt.alloc(), &mut file, limit)
}
