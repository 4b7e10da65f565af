use flex_base::{Engine, Event, What};

/// What is to be noted: the engine that holds the hart, and what happened.
#[derive(Clone, Copy, Debug, PartialEq, Eq)]
pub struct Entry {
    pub engine: Engine,
    pub what: What,
}

/// An entry of a log: an event with its number, and the bank of an access. An end and a handover
/// have no bank. No value of it is made: logs exist in contracts alone.
pub struct LogEntry {
    pub event: Event,
    pub bank: Option<u8>,
}
