//! The journal of a hart: its events in order, each kept in 40 bytes, read back by value, and those
//! of several harts in the order of their numbers.
#![tactic(auto)]

mod events;
mod hart_log;
mod kept;
mod kept_event;
mod merged;
mod parts;
mod rest;

pub use events::Events;
pub use hart_log::HartLog;
pub use kept_event::{KeptEvent, KeptEvents};
pub use merged::{ByNumber, by_number};

#[cfg(test)]
mod tests;
