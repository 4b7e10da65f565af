//! The record of accesses: one number for each event, and for each hart and each bank the log of
//! its events, which takes no bytes.
//!
//! One shared word counts the events. Whoever has a hart's pass and a bank's pass notes an access in
//! both logs by one `fetch_add`, and the rule of the record ties all logs together at every moment,
//! whatever order threads take. docs/RECORD.md says the rule in plain words. The trait `Bus` is how
//! engines reach memory over such a record.
#![tactic(auto)]

mod bus;
mod entry;
mod gathered;
mod limits;
mod pass;
mod record;
mod steps;
mod view;

pub use bus::Bus;
pub use entry::{Entry, LogEntry};
pub use gathered::Gathered;
pub use limits::Limits;
pub use pass::{BankPass, Founder, Pass};
pub use record::{AccessRecord, Closed};

#[cfg(test)]
mod tests;
