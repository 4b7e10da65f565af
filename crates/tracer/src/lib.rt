//! The text of a trace: the header, a line for each event, and the lines after them. Nothing here
//! takes memory but the list of those last lines.
#![tactic(auto)]

mod access;
mod event;
mod header;
mod number;
mod put;
mod tail;
mod tail_text;

pub use event::{put_event, put_kept};
pub use header::put_header;
pub use number::Number;
pub use put::Put;
pub use tail::Tail;
pub use tail_text::{TailLine, put_tail_line};

#[cfg(test)]
mod tests;
