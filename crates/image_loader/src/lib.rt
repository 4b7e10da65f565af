//! Image files: what RAM begins with and where the harts begin, from the bytes of an ELF executable
//! for RV64 or of a raw file, or the first thing that is wrong with the file.
#![tactic(auto)]

mod checks;
mod fault;
mod fields;
mod headers;
mod loader;
mod parts;

pub use fault::ImageFault;
pub use loader::load;

#[cfg(test)]
mod tests;
