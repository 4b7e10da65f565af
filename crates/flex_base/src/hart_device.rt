/// How a hart stands with the devices.
#[derive(Clone, Copy, Debug, PartialEq, Eq)]
pub enum HartStanding {
    Runs,
    /// Waits for an interrupt that is enabled in `mie`, and none has come.
    Waits { mie: u64 },
    /// An interrupt has come for which it waited. It waits for nothing but its own next pulse.
    Woken,
    /// Has spent its budget.
    Spent,
}

/// What the devices keep of one hart.
#[derive(Clone, Copy, Debug, PartialEq, Eq)]
pub struct HartDevice {
    /// The line of the timer's interrupt is on where `mtime` is at least this (Volume II, "Machine
    /// Timer Registers (mtime and mtimecmp)").
    pub mtimecmp: u64,
    /// Whether the line of the software interrupt is on.
    pub msip: bool,
    pub standing: HartStanding,
}
