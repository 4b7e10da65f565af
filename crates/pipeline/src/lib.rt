//! The engine that stands for a pipe: it holds up to 32 harts, of which six at most have an
//! instruction in flight, and makes their events in turn.
//!
//! Six latches stand one after another: select, fetch, decode, execute, memory and end. In a cycle
//! what is in a latch moves on to the next one. An instruction is fetched in fetch, reaches data in
//! memory and ends in end; nothing that others see happens in the rest.
#![tactic(auto)]

mod flight;
mod latches;
mod pipeline;

pub use flight::{Flight, Made};
pub use latches::Latches;
pub use pipeline::Pipeline;

#[cfg(test)]
mod tests;
