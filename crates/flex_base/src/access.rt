ghost use Rattle.std.specs.Prelude.{◌≡◌};
ghost use Rattle.flex_base.specs.Classes.{class_of_access};
ghost use Rattle.flex_base.specs.FlatMemory.{is_ram_access, reply_with};

use crate::class::Class;
use crate::operation::AmoOp;

/// One access of a hart to memory or to the devices. It is atomic.
///
/// Addresses are physical, widths are in bytes (1, 2, 4 or 8), and a written value is cut to its
/// width.
#[derive(Clone, Copy, Debug, PartialEq, Eq)]
pub enum Access {
    /// Reads the 4 bytes of an instruction.
    Fetch {
        address: u64,
    },
    /// Reads the 8 bytes of a page table entry.
    Pte {
        address: u64,
    },
    Read {
        address: u64,
        width: u8,
    },
    Write {
        address: u64,
        width: u8,
        value: u64,
    },
    /// Load-reserved.
    Lr {
        address: u64,
        width: u8,
    },
    /// Store-conditional.
    Sc {
        address: u64,
        width: u8,
        value: u64,
    },
    /// An atomic memory operation. The value is that of the source register.
    Amo {
        op: AmoOp,
        address: u64,
        width: u8,
        value: u64,
    },
    DevRead {
        address: u64,
        width: u8,
    },
    DevWrite {
        address: u64,
        width: u8,
        value: u64,
    },
    /// Reads the hart's interrupt lines. With `tick`, time goes on by one.
    Pulse {
        tick: bool,
    },
    /// Waits for an interrupt that is enabled in `mie`.
    Wait {
        mie: u64,
    },
    /// The hart has spent its budget.
    Retire,
    /// Reads `mtime`.
    Time,
}

/// What an access is answered. A field that the access doesn't use is 0 or false.
#[derive(Clone, Copy, Debug, PartialEq, Eq)]
pub struct Reply {
    /// What was read, zero-extended; the old value of an `Amo`; 0 or 1 for `Sc`, `Pulse` and `Wait`.
    pub value: u64,
    /// The hart's interrupt lines, for `Pulse` and `Wait`.
    pub lines: u64,
    /// Whether the run is to stop, for `Pulse` and `Wait`.
    pub stop: bool,
}

impl Reply {
    /// A reply that tells a value and nothing else.
    pub fn with_value(value: u64) -> Reply
        ensures { result ≡ reply_with value }
    {
        Reply {
            value,
            lines: 0,
            stop: false,
        }
    }
}

/// The class of an access.
pub fn access_class(acc: &Access) -> Class
    ensures { result ≡ class_of_access acc.now }
{
    match acc {
        Access::Fetch { .. } => Class::Fetch,
        Access::Pte { .. } => Class::Walk,
        Access::Read { .. } => Class::Load,
        Access::Write { .. } => Class::Store,
        Access::Lr { .. } | Access::Sc { .. } | Access::Amo { .. } => Class::Atomic,
        Access::DevRead { .. } | Access::DevWrite { .. } => Class::Device,
        Access::Pulse { .. } | Access::Wait { .. } | Access::Retire => Class::Pulse,
        Access::Time => Class::Csr,
    }
}

/// Whether it is an access of RAM. The others are of the devices.
pub fn is_ram(acc: &Access) -> bool
    ensures { result ≡ is_ram_access acc.now }
{
    match acc {
        Access::Fetch { .. } | Access::Pte { .. } => true,
        Access::Read { .. } | Access::Write { .. } => true,
        Access::Lr { .. } | Access::Sc { .. } | Access::Amo { .. } => true,
        Access::DevRead { .. } | Access::DevWrite { .. } => false,
        Access::Pulse { .. } | Access::Wait { .. } | Access::Retire | Access::Time => false,
    }
}
