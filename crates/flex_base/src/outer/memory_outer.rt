ghost use Rattle.std.specs.Prelude.{◌≡◌, ◌↔◌, ◌⊎◌, ℕ, ◌≤◌, ◌<◌, ◌++◌, List, [], length, None, Some, IfOk, IfSome, IsErr, IsErrOf, IsTrue, OnOk, OnErr, option_map};
ghost use Rattle.std.specs.Result.{result_map_both};
ghost use Rattle.flex_base.specs.Files.{Taken, ChangesFile, Appended, AppendedPart, Started};
ghost use Rattle.flex_base.specs.Outside.{OnlyReads, OnlyWrites, OnlySays};
ghost use Rattle.flex_base.specs.FilesInMemory.{files_of, entries_of, is_due, one_more};
ghost use Rattle.flex_base.specs.OuterInMemory.{outside_of, held_files, written_files, said_bytes, calls_made, failing_calls, fails_next, MadeOneCall};

use super::counts::rise;
use super::memory_files::{append, copy, find, look, make_empty};
use crate::outer::{Failed, Outer, TakeFault};
use crate::text::Text;
use std::alloc::Global;
use std::collections::BTreeMap;

/// An outside in memory, for tests.
///
/// It holds files that can be taken, and keeps what is written and said. Its memory stands for a
/// disk: a `start`, an `add` or a `say` that finds none there answers `Failed` and writes nothing.
#[derive(Drop)]
pub struct MemoryOuter {
    alloc: Global,
    files: Vec<(Text, Vec<u8>)>,
    failing: Vec<u64>,
    calls: u64,
    written: BTreeMap<String, Vec<u8>>,
    said: Vec<u8>,
    read_faults: u64,
    write_faults: u64,
}

impl MemoryOuter {
    /// An outside that holds these files; of two of one name it holds the first. The calls of
    /// `take`, `start`, `add` and `say` are counted together from 0, and those whose numbers stand
    /// in `failing` fail and write nothing.
    pub fn new(alloc: Global, files: Vec<(Text, Vec<u8>)>, failing: Vec<u64>) -> MemoryOuter
        ensures outside { ⟦<MemoryOuter as Outer>⟧.outside result ≡ record {
          held = Some (files_of (entries_of files.items));
          written = Some (λ _. None);
          said = Some [];
          read_faults = 0;
          write_faults = 0;
        } }
        ensures calls { calls_made result ≡ 0 }
        ensures failing { failing_calls result ≡ failing.items }
    {
        MemoryOuter {
            alloc,
            files,
            failing,
            calls: 0,
            written: BTreeMap::new(alloc),
            said: Vec::new(alloc),
            read_faults: 0,
            write_faults: 0,
        }
    }

    /// The bytes of the written file of this name, or None where no file of that name was written.
    pub fn written(&self, name: &str) -> Option<&[u8]>
        ensures { IfSome (⟦<MemoryOuter as Outer>⟧.outside self.now).written
            (λ files. option_map (λ r. r.now) result ≡ files name.now) }
    {
        look(&self.written, name)
    }

    /// The bytes said, in their order.
    pub fn said(&self) -> &[u8]
        ensures { IfSome (⟦<MemoryOuter as Outer>⟧.outside self.now).said (λ bytes. result.now ≡ bytes) }
    {
        &self.said
    }
}

impl Outer for MemoryOuter {
    ghost outside = { outside_of };

    /// It answers `Failed` exactly where the call is one that fails or no such file is held.
    fn take(&mut self, name: &str, limit: u64) -> Result<Vec<u8>, TakeFault>
        ensures taken { Taken (Some (held_files self.old)) name.now limit
            (result_map_both (λ v. v.items) (λ e. e) result) }
        ensures within { IfOk result (λ v. length v.items ≤ limit) }
        ensures failed { (result ≡ Err TakeFault.Failed)
            ↔ (IsTrue (fails_next self.old) ⊎ (held_files self.old name.now ≡ None)) }
        ensures over { (n : ℕ) → result ≡ Err (TakeFault.TooLong n) → limit < n }
        ensures counted { MadeOneCall self.old self.new }
        ensures frame { OnlyReads (outside_of self.old) (outside_of self.new) (IsErrOf result TakeFault.Failed) }
    {
        if fails(&mut self.calls, &self.failing) {
            rise(&mut self.read_faults);
            return Err(TakeFault::Failed);
        }
        match find(&self.files, name) {
            Some(bytes) => copy(self.alloc, bytes, limit),
            None => {
                rise(&mut self.read_faults);
                Err(TakeFault::Failed)
            }
        }
    }

    /// Where it fails, nothing is written.
    fn start(&mut self, name: &str) -> Result<(), Failed>
        ensures due { IsTrue (fails_next self.old) → IsErr result }
        ensures ok { OnOk result
            (ChangesFile (Some (written_files self.old)) (Some (written_files self.new)) name.now Started) }
        ensures nothing { OnErr result
            ((any : List ℕ) → written_files self.new any ≡ written_files self.old any) }
        ensures counted { MadeOneCall self.old self.new }
        ensures frame { OnlyWrites (outside_of self.old) (outside_of self.new) (IsErr result) }
    {
        if fails(&mut self.calls, &self.failing) {
            rise(&mut self.write_faults);
            return Err(Failed);
        }
        match make_empty(self.alloc, &mut self.written, name) {
            Ok(()) => Ok(()),
            Err(Failed) => {
                rise(&mut self.write_faults);
                Err(Failed)
            }
        }
    }

    /// Where it fails, nothing is written.
    fn add(&mut self, name: &str, bytes: &[u8]) -> Result<(), Failed>
        ensures due { IsTrue (fails_next self.old) → IsErr result }
        ensures ok { OnOk result
            (ChangesFile (Some (written_files self.old)) (Some (written_files self.new)) name.now (Appended bytes.now)) }
        ensures err { OnErr result
            (ChangesFile (Some (written_files self.old)) (Some (written_files self.new)) name.now (AppendedPart bytes.now)) }
        ensures nothing { OnErr result
            ((any : List ℕ) → written_files self.new any ≡ written_files self.old any) }
        ensures counted { MadeOneCall self.old self.new }
        ensures frame { OnlyWrites (outside_of self.old) (outside_of self.new) (IsErr result) }
    {
        if fails(&mut self.calls, &self.failing) {
            rise(&mut self.write_faults);
            return Err(Failed);
        }
        match append(self.alloc, &mut self.written, name, bytes) {
            Ok(()) => Ok(()),
            Err(Failed) => {
                rise(&mut self.write_faults);
                Err(Failed)
            }
        }
    }

    /// Where it fails, nothing is said.
    fn say(&mut self, bytes: &[u8]) -> Result<(), Failed>
        ensures due { IsTrue (fails_next self.old) → IsErr result }
        ensures ok { OnOk result (said_bytes self.new ≡ said_bytes self.old ++ bytes.now) }
        ensures nothing { OnErr result (said_bytes self.new ≡ said_bytes self.old) }
        ensures counted { MadeOneCall self.old self.new }
        ensures frame { OnlySays (outside_of self.old) (outside_of self.new) (IsErr result) }
    {
        if fails(&mut self.calls, &self.failing) {
            rise(&mut self.write_faults);
            return Err(Failed);
        }
        match self.said.extend_from_slice(bytes) {
            Ok(()) => Ok(()),
            Err(_) => {
                rise(&mut self.write_faults);
                Err(Failed)
            }
        }
    }
}

// Counts a call, and says whether it is to fail.
fn fails(calls: &mut u64, failing: &[u64]) -> bool
    ensures due { result ≡ is_due failing.now calls.old }
    ensures counted { calls.new ≡ one_more calls.old }
{
    let number = *calls;
    rise(calls);
    failing.iter().any(|n| *n == number)
}
