/// The number of a hart, below the settings' number of harts.
#[derive(Clone, Copy, Debug, PartialEq, Eq)]
pub struct HartId(pub u8);

/// A privilege mode (Volume II, Privilege Levels).
#[derive(Clone, Copy, Debug, PartialEq, Eq)]
pub enum Mode {
    U,
    S,
    M,
}
