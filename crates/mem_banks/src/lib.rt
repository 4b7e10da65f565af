//! The memory of a run: its banks, its devices and its record, reached over the trait `Bus`.
//!
//! RAM is dealt to the banks in lines of 64 bytes: the bank of an address is the address divided by
//! 64, modulo the number of banks. What a bank holds is at every moment the replay of the bank's log,
//! and so it is with the devices. `PlainBus` serves one thread and takes no lock. `Banks` has a lock
//! round each bank and one round the devices, and each thread reaches them over a `SharedBus` of its
//! own.
#![tactic(auto)]

mod at_bank;
mod at_devices;
mod bank_cell;
mod banks;
mod device_cell;
mod end_memory;
mod ended;
mod origin;
mod places;
mod plain_bus;
mod run_name;
mod shared_bus;
mod slots;

pub use bank_cell::BankCell;
pub use banks::{Banks, LockRoom};
pub use device_cell::DeviceCell;
pub use end_memory::EndMemory;
pub use ended::Ended;
pub use plain_bus::PlainBus;
pub use run_name::RunName;
pub use shared_bus::SharedBus;

#[cfg(test)]
mod tests;
