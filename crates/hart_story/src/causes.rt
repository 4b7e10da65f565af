// Causes of exceptions (Volume II, "Machine Cause (mcause) Register").

ghost use Rattle.std.specs.Prelude.{◌≡◌};
ghost use Rattle.flex_base.specs.Causes.{misaligned, page_fault, access_fault};

use flex_base::Kind;

pub(crate) const INSTRUCTION_ADDRESS_MISALIGNED: u64 = 0;

pub(crate) const INSTRUCTION_ACCESS_FAULT: u64 = 1;

pub(crate) const ILLEGAL_INSTRUCTION: u64 = 2;

pub(crate) const BREAKPOINT: u64 = 3;

const LOAD_ADDRESS_MISALIGNED: u64 = 4;

const LOAD_ACCESS_FAULT: u64 = 5;

const STORE_ADDRESS_MISALIGNED: u64 = 6;

const STORE_ACCESS_FAULT: u64 = 7;

pub(crate) const ECALL_FROM_U: u64 = 8;

pub(crate) const ECALL_FROM_S: u64 = 9;

pub(crate) const ECALL_FROM_M: u64 = 11;

const INSTRUCTION_PAGE_FAULT: u64 = 12;

const LOAD_PAGE_FAULT: u64 = 13;

const STORE_PAGE_FAULT: u64 = 15;

// The exceptions of an access, by what it is: misaligned, not mapped, and nowhere.

pub(crate) fn misaligned(kind: Kind) -> u64
    ensures { result ≡ misaligned kind }
{
    match kind {
        Kind::Fetch => INSTRUCTION_ADDRESS_MISALIGNED,
        Kind::Load => LOAD_ADDRESS_MISALIGNED,
        Kind::Store => STORE_ADDRESS_MISALIGNED,
    }
}

pub(crate) fn page_fault(kind: Kind) -> u64
    ensures { result ≡ page_fault kind }
{
    match kind {
        Kind::Fetch => INSTRUCTION_PAGE_FAULT,
        Kind::Load => LOAD_PAGE_FAULT,
        Kind::Store => STORE_PAGE_FAULT,
    }
}

pub(crate) fn access_fault(kind: Kind) -> u64
    ensures { result ≡ access_fault kind }
{
    match kind {
        Kind::Fetch => INSTRUCTION_ACCESS_FAULT,
        Kind::Load => LOAD_ACCESS_FAULT,
        Kind::Store => STORE_ACCESS_FAULT,
    }
}
