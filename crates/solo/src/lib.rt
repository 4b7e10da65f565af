//! A split machine on one thread: the harts in their contexts, which one bus serves, in any order.
//! What it does is what the unsplit machine does in that order, with each event in the engine that
//! the plan names.
#![tactic(auto)]

mod engines;
mod machine;
mod room;

pub use machine::{SoloMachine, begin_harts};
pub use room::{Parts, empty_logs, take_apart};

#[cfg(test)]
mod tests;
