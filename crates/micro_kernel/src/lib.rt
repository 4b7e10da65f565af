//! The engine that stands for a kernel's own core: it takes a hart in, makes its events one after
//! another as long as its plan gives them to the kernel, and gives it back.
#![tactic(auto)]

mod kernel;

pub use kernel::Kernel;

#[cfg(test)]
mod tests;
