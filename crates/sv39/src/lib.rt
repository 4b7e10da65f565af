//! Translation by Sv39 (Volume II, "Sv39: Page-Based 39-bit Virtual-Memory System"): a `Walk` goes
//! from a virtual address to the leaf that maps it, by the page table entries that it is given, and
//! `permit` tests whether an access may use a leaf. Nothing here reads memory or takes any.
#![tactic(auto)]

mod entry;
mod level;
mod permission;
#[cfg(test)]
mod tests;
mod walk;
mod word;

pub use flex_base::{Kind, Leaf, WalkStep};
pub use permission::{PageFault, permit};
pub use walk::Walk;
