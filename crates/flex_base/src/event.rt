use crate::access::{Access, Reply};
use crate::class::Class;
use crate::engine::Engine;
use crate::hart::HartId;

/// How an instruction or a trap ended.
#[derive(Clone, Copy, Debug, PartialEq, Eq)]
pub struct EndPart {
    pub class: Class,
    /// The address of the instruction.
    pub pc: u64,
    /// The address of the next one.
    pub next: u64,
    /// The number of the written register, 0 for none; in a trap the cause.
    pub first: u64,
    /// The written value, 0 for none; in a trap `tval`.
    pub second: u64,
}

/// What happened in an event.
#[derive(Clone, Copy, Debug, PartialEq, Eq)]
pub enum What {
    Acc(Access, Reply),
    End(EndPart),
    /// The hart goes to this engine.
    Handover(Engine),
}

/// One event of a run. The engine is the one that holds the hart; of a handover it is the one that
/// the hart leaves.
#[derive(Clone, Copy, Debug, PartialEq, Eq)]
pub struct Event {
    /// The event's place in the run, from 0.
    pub number: u64,
    pub hart: HartId,
    pub engine: Engine,
    pub what: What,
}

/// Why a run ended.
#[derive(Clone, Copy, Debug, PartialEq, Eq)]
pub enum Stop {
    /// Each hart has spent its budget.
    Budget,
    /// The power went off with this code.
    Off(u16),
    /// No hart can wake.
    Idle,
}
