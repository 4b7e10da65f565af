//! What every crate of the emulator speaks of: harts, engines and classes, instructions, accesses
//! and replies, events, settings and images, and the traits by which the outside is reached.
//!
//! The definitions in `specs/` say what a run is: the unsplit machine, in which any hart may make
//! the next event over one flat memory. The code of the crates above is proved against them.
#![tactic(auto)]

mod access;
mod class;
mod engine;
mod event;
mod gate;
mod hart;
mod hart_device;
mod image;
mod line;
mod operation;
mod outer;
mod reservation;
mod settings;
mod text;
mod translation;

pub use access::{Access, Reply, access_class, is_ram};
pub use class::{Class, capable};
pub use engine::Engine;
pub use event::{EndPart, Event, Stop, What};
pub use gate::{Gate, OpenGate, Point};
pub use hart::{HartId, Mode};
pub use hart_device::{HartDevice, HartStanding};
pub use image::Image;
pub use line::Line;
pub use operation::{AluOp, AmoOp, BranchOp, CsrOp, MulOp, Op};
pub use outer::{Failed, MemoryOuter, Outer, RealOuter, SteadyOuter, TakeFault, write_whole};
pub use reservation::{is_reserved, reservation_set};
pub use settings::{
    FINISHER, Layout, MSIP, MTIME, MTIMECMP, Place, RAM_BASE, Settings, UART, UART_LSR,
};
pub use text::Text;
pub use translation::{Kind, Leaf, WalkStep};

#[cfg(test)]
mod tests;
