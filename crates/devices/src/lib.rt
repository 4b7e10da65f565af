//! The devices, which reply to the accesses of harts: the timer, the software interrupts, the
//! console and the test finisher.
//!
//! They also keep how each hart stands, wake those that wait, let time jump where nothing else can
//! wake a hart, and keep the stop of the run. All memory is taken when the devices are made.
#![tactic(auto)]

mod alarms;
mod console;
mod devices;
mod harts;
mod registers;
mod standing;
mod state;

pub use devices::Devices;

#[cfg(test)]
mod tests;
