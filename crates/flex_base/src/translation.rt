/// What an access asks of a page (Volume II, "Virtual Address Translation Process").
#[derive(Clone, Copy, Debug, PartialEq, Eq)]
pub enum Kind {
    Fetch,
    /// A load, or a load-reserved.
    Load,
    /// A store, a store-conditional or an atomic memory operation.
    Store,
}

/// The translation of one page of 4 KiB.
#[derive(Clone, Copy, Debug, PartialEq, Eq)]
pub struct Leaf {
    /// The number of the virtual page, below 2^27.
    pub page: u64,
    /// The number of the physical frame of 4 KiB, below 2^44.
    pub frame: u64,
    /// The lowest 8 bits of the page table entry: V, R, W, X, U, G, A and D, from bit 0 up.
    pub flags: u8,
}

/// Where a walk through the page tables is (Volume II, "Virtual Address Translation Process").
#[derive(Clone, Copy, Debug, PartialEq, Eq)]
pub enum WalkStep {
    /// It goes on with the entry at this physical address, 8 bytes whose address is a multiple
    /// of 8.
    Need(u64),
    /// It has found the page.
    Leaf(Leaf),
    /// It ends with a page fault.
    Fault,
}
