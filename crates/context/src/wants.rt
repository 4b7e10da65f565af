use flex_base::{Class, Engine};

/// What a hart wants next.
#[derive(Clone, Copy, Debug, PartialEq, Eq)]
pub enum Wants {
    /// It makes an access of this class.
    Ask(Class),
    /// It ends its instruction, with an end of this class.
    Finish(Class),
    /// It waits for an interrupt, until the devices wake it.
    Parked,
    /// It does nothing any more: it has spent its budget, or was told to stop.
    Over,
}

/// What came of a call that makes a hart's next event only in the engine to which the plan gives it.
#[derive(Clone, Copy, Debug, PartialEq, Eq)]
pub enum Went {
    /// An access was made, and the instruction goes on.
    Accessed,
    /// The instruction ended.
    Ended,
    /// Nothing happened: what the hart wants is the work of this engine, in which it isn't.
    Elsewhere(Engine),
    /// Nothing happened: the hart waits for an interrupt, until the devices wake it.
    Parked,
    /// Nothing happened: the hart does nothing any more.
    Over,
}
