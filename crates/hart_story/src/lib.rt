//! One hart's instructions, an event at a time. An instruction can be left half done at any access
//! and resumed with the reply; `need`, `give` and `finish` go along the story of the instruction.
#![tactic(auto)]

mod causes;
mod csr;
mod ending;
mod ends;
mod found;
mod hart;
mod jump;
mod memory;
mod memory_work;
mod needs;
mod outcome;
mod progress;
mod replies;
mod reply;
mod stage;
mod story;
mod system;
mod translation;
mod width;
mod work;

pub use hart::Hart;
pub use needs::need;
pub use progress::{Need, Progress};
pub use replies::give;
pub use story::{finish, finish_in_place, lead_in};

#[cfg(test)]
mod tests;
