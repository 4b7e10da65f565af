ghost use Rattle.std.specs.Prelude.{◌≡◌, None, Some};
ghost use Rattle.flex_base.specs.FilesInMemory.{files_or_empty, entries_of};

use super::memory_files::{copy, find};
use crate::outer::{Failed, Outer, TakeFault};
use crate::text::Text;
use std::alloc::Global;

/// An outside that never fails: both counts of faults are the constant 0.
///
/// It holds files that can be taken; a name that it wasn't given is held as an empty file. It drops
/// what is written and said, and tells neither; that takes no memory.
#[derive(Drop)]
pub struct SteadyOuter {
    alloc: Global,
    files: Vec<(Text, Vec<u8>)>,
}

impl SteadyOuter {
    /// An outside that holds these files; of two of one name it holds the first. What is taken is
    /// copied into memory of `alloc`.
    pub fn new(alloc: Global, files: Vec<(Text, Vec<u8>)>) -> SteadyOuter
        ensures { ⟦<SteadyOuter as Outer>⟧.outside result ≡ record {
          held = Some (files_or_empty (entries_of files.items));
          written = None;
          said = None;
          read_faults = 0;
          write_faults = 0;
        } }
    {
        SteadyOuter { alloc, files }
    }
}

impl Outer for SteadyOuter {
    ghost outside = { λ outer. record {
      held = Some (files_or_empty (entries_of outer.files.items));
      written = None;
      said = None;
      read_faults = 0;
      write_faults = 0;
    } };

    fn take(&mut self, name: &str, limit: u64) -> Result<Vec<u8>, TakeFault> {
        match find(&self.files, name) {
            Some(bytes) => copy(self.alloc, bytes, limit),
            None => Ok(Vec::new(self.alloc)),
        }
    }

    fn start(&mut self, _name: &str) -> Result<(), Failed>
        ensures ok { result ≡ Ok tt }
        ensures same { self.new ≡ self.old }
    {
        Ok(())
    }

    fn add(&mut self, _name: &str, _bytes: &[u8]) -> Result<(), Failed>
        ensures ok { result ≡ Ok tt }
        ensures same { self.new ≡ self.old }
    {
        Ok(())
    }

    fn say(&mut self, _bytes: &[u8]) -> Result<(), Failed>
        ensures ok { result ≡ Ok tt }
        ensures same { self.new ≡ self.old }
    {
        Ok(())
    }
}
