ghost use Rattle.std.specs.Prelude.{◌≡◌, ℕ, ◌≤◌, ◌<◌, length, IfOk, IsErr, IsErrOf, OnOk, OnErr};
ghost use Rattle.std.specs.Result.{result_map_both};
ghost use Rattle.flex_base.specs.Outside.{Outside, OnlyReads, OnlyWrites, OnlySays, Writes, Says};
ghost use Rattle.flex_base.specs.Files.{Taken, Appended, AppendedPart, Started, StartedPart, Said, SaidPart};

mod counts;
mod memory_files;
mod memory_outer;
mod real_outer;
mod steady_outer;
pub(crate) mod streams;

pub use memory_outer::MemoryOuter;
pub use real_outer::RealOuter;
pub use steady_outer::SteadyOuter;
pub use streams::write_whole;

/// Why a file wasn't taken.
#[derive(Clone, Copy, Debug, PartialEq, Eq)]
pub enum TakeFault {
    /// It couldn't be read.
    Failed,
    /// It has this many bytes or more, above the limit; exactly so many where the files are told.
    TooLong(u64),
    OutOfMemory,
}

/// A write failed.
#[derive(Clone, Copy, Debug, PartialEq, Eq)]
pub struct Failed;

/// The outside: files by name, and a place to say bytes.
///
/// A read or a write fails only where the count of such faults rises, or stands at 2^64 - 1, its
/// end. The contents may be told to contracts or not; a call changes of them what its clauses say
/// and nothing else.
pub trait Outer {
    /// What contracts see of it: the files that can be taken, the files as written and the bytes
    /// said, each where it is told, and how often a read and a write have failed.
    ghost outside: { Self → Outside };

    /// All bytes of the file of this name, if they are no more than the limit.
    fn take(&mut self, name: &str, limit: u64) -> Result<Vec<u8>, TakeFault>
        ensures taken { Taken (outside self.old).held name.now limit (result_map_both (λ v. v.items) (λ e. e) result) }
        ensures within { IfOk result (λ v. length v.items ≤ limit) }
        ensures over { (n : ℕ) → result ≡ Err (TakeFault.TooLong n) → limit < n }
        ensures frame { OnlyReads (outside self.old) (outside self.new) (IsErrOf result TakeFault.Failed) };

    /// Makes the file of this name empty. Where it fails, the file is as it was or empty.
    fn start(&mut self, name: &str) -> Result<(), Failed>
        ensures ok { OnOk result (Writes (outside self.old) (outside self.new) name.now Started) }
        ensures err { OnErr result (Writes (outside self.old) (outside self.new) name.now StartedPart) }
        ensures frame { OnlyWrites (outside self.old) (outside self.new) (IsErr result) };

    /// Adds bytes at the end of the file of this name. Where it fails, it has added the first of
    /// them, maybe none.
    fn add(&mut self, name: &str, bytes: &[u8]) -> Result<(), Failed>
        ensures ok { OnOk result (Writes (outside self.old) (outside self.new) name.now (Appended bytes.now)) }
        ensures err { OnErr result (Writes (outside self.old) (outside self.new) name.now (AppendedPart bytes.now)) }
        ensures frame { OnlyWrites (outside self.old) (outside self.new) (IsErr result) };

    /// Says bytes. Where it fails, it has said the first of them, maybe none.
    fn say(&mut self, bytes: &[u8]) -> Result<(), Failed>
        ensures ok { OnOk result (Says (outside self.old) (outside self.new) (Said bytes.now)) }
        ensures err { OnErr result (Says (outside self.old) (outside self.new) (SaidPart bytes.now)) }
        ensures frame { OnlySays (outside self.old) (outside self.new) (IsErr result) };
}
