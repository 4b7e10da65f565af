/// How many harts and banks a record has, and how many entries each hart's log may have.
#[derive(Clone, Copy, Debug, PartialEq, Eq)]
pub struct Limits {
    /// At least 1.
    pub harts: u8,
    /// At least 1. The devices count as a bank, the last one.
    pub banks: u8,
    /// Times the number of harts it is below 2^63.
    pub room: u64,
}
