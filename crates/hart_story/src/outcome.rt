use flex_base::{Class, CsrOp};

/// What an instruction comes to, as far as the replies tell it.
#[derive(Clone, Copy, Debug, PartialEq, Eq)]
pub enum Outcome {
    /// Its end.
    End(End),
    /// A trap, which is its end.
    Trap {
        cause: u64,
        tval: u64,
    },
    /// The pulse by which a CSR instruction reads the pending interrupts. `rs1` is a register or an
    /// immediate.
    AskPending {
        op: CsrOp,
        rd: u8,
        rs1: u8,
        number: u16,
    },
    /// The access by which a CSR instruction reads the time.
    AskTime {
        op: CsrOp,
        rd: u8,
        rs1: u8,
        number: u16,
    },
    /// The end of a CSR instruction that writes this value to a register and the old one to `rd`.
    WriteCsr {
        number: u16,
        rd: u8,
        old: u64,
        value: u64,
    },
    /// The end of a return from a trap in M.
    Mret,
    /// The end of a return from a trap in S.
    Sret,
    /// The end of a fence after which no translation is kept.
    FenceMemory,
    /// The pulse of a WFI that has nothing to wait for.
    WaitPulse,
    /// The access by which a WFI waits for an interrupt that is enabled here.
    Wait {
        mie: u64,
    },
    /// A WFI that waits, until the devices wake its hart and it makes a pulse.
    Parked,
}

/// What the end of an instruction does to its hart.
#[derive(Clone, Copy, Debug, PartialEq, Eq)]
pub struct End {
    pub class: Class,
    /// Whether it makes a pulse due.
    pub due: bool,
    /// The written register, 0 for none.
    pub rd: u8,
    pub value: u64,
    /// The next `pc`.
    pub next: u64,
    /// The reservation that it leaves.
    pub reservation: Option<u64>,
}
