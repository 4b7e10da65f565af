//! The commands: the words, the image, a run on one thread or on several, the trace text and its file.
//!
//! `flex_top` does what the words ask for, and tells by its status what came of it. `solo` plays
//! the harts over an image, in a given order and then in rounds, says what the run sent to the
//! console, and writes the trace of the run. `flex_run` does the command `run`, which does the same on
//! threads, in whatever order these take.
#![tactic(auto)]

mod image;
mod leaving;
mod pieces;
mod prepared;
mod ram_digest;
mod run_command;
mod solo_command;
mod sources;
mod status;
mod top;
mod trace_file;
mod words;

pub use image_loader::ImageFault;
pub use status::{Status, status_code, status_text};
pub use top::{flex_run, flex_top};
pub use transplant_plan::PlanFault;

#[cfg(test)]
mod tests;
