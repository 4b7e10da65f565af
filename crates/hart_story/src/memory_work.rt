use flex_base::AmoOp;

/// A load, a store or an atomic instruction, with all that its word and the hart's registers say.
#[derive(Clone, Copy, Debug, PartialEq, Eq)]
pub struct MemoryWork {
    pub op: MemoryOp,
    /// 1, 2, 4 or 8 bytes.
    pub width: u8,
    /// Whether a load extends the sign.
    pub signed: bool,
    /// The register that gets what is read, or whether a store-conditional failed; a store has 0.
    pub rd: u8,
    /// The virtual address.
    pub address: u64,
    /// What a store or an atomic operation has from a register.
    pub value: u64,
}

/// What it does with memory.
#[derive(Clone, Copy, Debug, PartialEq, Eq)]
pub enum MemoryOp {
    Load,
    Store,
    LoadReserved,
    StoreConditional,
    Modify(AmoOp),
}
