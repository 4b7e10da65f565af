//! The register arithmetic of RV64IMA: what an integer instruction, a multiplication or division
//! and an atomic memory operation compute. Each result equals its plain definition over whole
//! numbers, division by zero and overflow included. Nothing here refuses or takes memory.
#![tactic(auto)]

mod atomic;
mod division;
mod multiplication;
mod product;
mod register;
#[cfg(test)]
mod tests;
mod word;

pub use atomic::amo;
pub use product::muldiv;
pub use register::alu;
