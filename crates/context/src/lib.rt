//! A hart on the move: its state, its instruction in flight, its events and its pass, in one value.
//! It makes one event a call, over any bus, and goes from engine to engine by its plan.
#![tactic(auto)]

mod context;
mod held;
mod run;
mod wants;

pub use context::HartContext;
pub use wants::{Wants, Went};

#[cfg(test)]
mod tests;
