//! The engine that stands for the machine around the cores: it takes a hart in, makes its events one
//! after another as long as its plan gives them to the host, and gives it back. No other engine may
//! run the devices.
#![tactic(auto)]

mod host;

pub use host::HostSim;

#[cfg(test)]
mod tests;
