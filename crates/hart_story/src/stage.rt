use crate::memory_work::MemoryWork;
use crate::outcome::Outcome;
use sv39::Walk;

/// What an instruction is at.
#[derive(Clone, Copy, Debug, PartialEq, Eq)]
pub enum Stage {
    /// Nothing has happened yet.
    Begun,
    /// A walk reads entries to translate `pc`.
    FetchWalk(Walk),
    /// The word is fetched from this physical address.
    Fetch(u64),
    /// A walk reads entries to translate the address of a load, a store or an atomic instruction.
    AccessWalk(Walk, MemoryWork),
    /// It makes its access at this physical address.
    Access(u64, MemoryWork),
    /// It makes its access of the device register at this physical address.
    Device(u64, MemoryWork),
    /// The instruction has come to this.
    Working(Outcome),
    /// The hart has nothing left to do: it has spent its budget, or was told to stop.
    Over,
}
