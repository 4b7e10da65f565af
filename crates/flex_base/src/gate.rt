use crate::engine::Engine;
use crate::hart::HartId;
use std::marker::Sync;

/// A moment at which a run of threads can be watched or held up. It answers nothing, so it changes
/// no result.
pub trait Gate: Sync {
    /// The hart, in this engine, has come to this point.
    fn at(&self, hart: HartId, engine: Engine, point: Point);
}

/// Where a hart is when a gate is called.
#[derive(Clone, Copy, Debug, PartialEq, Eq)]
pub enum Point {
    /// The lock of this bank is held, before the access. The number of banks means the devices.
    Held(u8),
    /// The event of this number was numbered.
    Noted(u64),
}

/// The gate that does nothing.
#[derive(Clone, Copy, Debug, Drop)]
pub struct OpenGate;

impl Gate for OpenGate {
    fn at(&self, _hart: HartId, _engine: Engine, _point: Point) {}
}
