//! The state of one hart at the start of an instruction: its registers, its mode, its reservation,
//! what it knows of interrupts, and the translations that it keeps. Nothing here refuses or takes
//! memory.
#![tactic(auto)]

mod kept;
mod regs;
#[cfg(test)]
mod tests;

pub use flex_base::Leaf;
pub use kept::Kept;
pub use regs::Regs;
