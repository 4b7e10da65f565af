//! One bank of memory, which replies to the accesses of harts as the flat memory does.
//!
//! RAM is dealt to the banks in lines of 64 bytes. A bank holds its lines and, for each hart, the
//! reservation of its last load-reserved. All memory is taken when the bank is made.
#![tactic(auto)]

mod image_bytes;
mod lines;
mod little_endian;
mod offsets;
mod reservations;

pub use lines::Lines;
