// A runtime that keeps what is printed, and reaches the files of another one.
use super::*;
use std::alloc::{Alloc, Allocator};
use std::cell::RefCell;
use std::fmt::Display;
use std::fs::{Files, Metadata, OpenOptions};
use std::io::Print;

#[derive(Drop)]
struct Heard<'a, R> {
    rt: &'a R,
    said: &'a RefCell<Vec<u8>>,
}

impl<R: Alloc> Alloc for Heard<'_, R> {
    type A = R::A;

    fn alloc(&self) -> R::A {
        self.rt.alloc()
    }
}

impl<R> Print for Heard<'_, R> {
    fn print<D: Display + Drop>(&self, _value: D) -> io::Result<()> {
        Err(io::Error::from(io::ErrorKind::Unsupported))
    }

    fn println<D: Display + Drop>(&self, _value: D) -> io::Result<()> {
        Err(io::Error::from(io::ErrorKind::Unsupported))
    }

    fn write_all(&self, bytes: &[u8]) -> io::Result<()> {
        match self.said.try_borrow_mut() {
            Ok(mut said) => Ok(said.extend_from_slice(bytes)?),
            Err(_) => Err(io::Error::from(io::ErrorKind::ResourceBusy)),
        }
    }
}

impl<R: Files> Files for Heard<'_, R> {
    type File = R::File;

    type Dir = R::Dir;

    fn open_file(&self, how: &OpenOptions, path: &str) -> io::Result<R::File> {
        self.rt.open_file(how, path)
    }

    fn open_dir(&self, path: &str) -> io::Result<R::Dir> {
        self.rt.open_dir(path)
    }

    fn metadata(&self, path: &str) -> io::Result<Metadata> {
        self.rt.metadata(path)
    }

    fn symlink_metadata(&self, path: &str) -> io::Result<Metadata> {
        self.rt.symlink_metadata(path)
    }

    fn copy(&self, from: &str, to: &str) -> io::Result<u64> {
        self.rt.copy(from, to)
    }

    fn rename(&self, from: &str, to: &str) -> io::Result<()> {
        self.rt.rename(from, to)
    }

    fn remove_file(&self, path: &str) -> io::Result<()> {
        self.rt.remove_file(path)
    }

    fn create_dir(&self, path: &str) -> io::Result<()> {
        self.rt.create_dir(path)
    }

    fn remove_dir(&self, path: &str) -> io::Result<()> {
        self.rt.remove_dir(path)
    }

    fn remove_dir_all<B: Allocator>(&self, alloc: B, path: &str) -> io::Result<()> {
        self.rt.remove_dir_all(alloc, path)
    }
}

fn say_twice<R: Files + AllocGlobal>(rt: &R, said: &RefCell<Vec<u8>>) -> Result<(), Failed> {
    let mut outer = RealOuter::new(Heard { rt, said });
    outer.say(b"one ")?;
    outer.say(b"two")
}

#[test]
fn real_outer_says_all_bytes(rt: HostRuntime) -> Result<(), Fail> {
    let said = RefCell::new(Vec::new(rt.alloc()));
    say_twice(&rt, &said)?;
    assert_eq!(rt; said.into_inner().as_slice(), b"one two".as_slice());
    Ok(())
}
