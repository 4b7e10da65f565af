//! The decoder of RV64IMA, Zicsr and Zifencei: from an instruction's word to its operation, and
//! back. It equals the table of instruction rows, in which each row is a mask and a match.
#![tactic(auto)]

mod atomic;
mod class;
mod decoder;
mod encoder;
mod formats;
mod forms;
mod functs;
mod integer;
mod system;
mod word;

pub use class::class_of;
pub use decoder::decode;
pub use encoder::{encode, is_op};

#[cfg(test)]
mod tests;
