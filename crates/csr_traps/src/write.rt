ghost use Rattle.std.specs.Prelude.{◌≡◌, ℕ, Bool, false, true, [], None, Some, is_some, not, ◌&&◌, IsErr, ◌↔◌, OnOk, OnErr, MatchOption};
ghost use Rattle.flex_base.specs.Csrs.{AreFit, csr_write, row_of, is_allowed, is_read_only, after_write, with_bits, takes_mstatus, takes_satp};
ghost use Rattle.csr_traps.specs.Laws.{AllReadBack, StoreBitsAreWritten};

use crate::csrs::{Csrs, IllegalCsr};
use crate::read::{CAUSE, INTERRUPTS, SATP, STATUS, SUPERVISOR_STATUS, is_pmpaddr};
use crate::status::{MPP, pair};
use flex_base::Mode;

// The software bits of mip, which are also those that can be delegated.
const SOFTWARE: u64 = 0x222;

impl Csrs {
    /// Writes a CSR for an instruction in this mode.
    ///
    /// What `read` refuses is refused, and so is a number that is read-only; nothing changes then
    /// (Volume II, "CSR Address Mapping Conventions"). A write that changes no bit is none that is
    /// refused.
    #[tactic(auto, using(crate::proofs::ReadBack::all_read_back, crate::proofs::Rows::store_bits_are_written, crate::proofs::Writing::write_fit), unfolding(flex_base::specs::Csrs::csr_write))]
    pub fn write(&mut self, number: u16, mode: Mode, value: u64) -> Result<(), IllegalCsr>
        ensures stores { OnOk result (csr_write self.old number mode value ≡ Some self.new) }
        ensures refused { IsErr result ↔ (csr_write self.old number mode value ≡ None) }
        ensures unchanged { OnErr result (self.new ≡ self.old) }
        ensures fit { (harts : ℕ) → AreFit harts self.old → AreFit harts self.new }
        // What is written reads back, and each bit of a store is written by some register.
        ensures law { AllReadBack × StoreBitsAreWritten }
    {
        if !self.has_write(number, mode) {
            return Err(IllegalCsr);
        }
        if self.store(number, value) {
            Ok(())
        } else {
            Err(IllegalCsr)
        }
    }

    /// Whether `write` takes a value, which is the same of all values.
    #[tactic(auto, unfolding(flex_base::specs::Csrs::csr_write))]
    pub fn may_write(&self, number: u16, mode: Mode) -> bool
        ensures { (value : ℕ) → result ≡ is_some (csr_write self.now number mode value) }
    {
        self.has_write(number, mode) && self.is_listed(number)
    }

    // Whether a mode may write a register, if it is listed.
    fn has_write(&self, number: u16, mode: Mode) -> bool
        ensures { result ≡ not (is_read_only number) && is_allowed self.now number mode }
    {
        number >> 10 & 3 != 3 && self.is_allowed(number, mode)
    }

    // Puts a value into the register of a number; false where it isn't listed.
    #[tactic(auto, unfolding(flex_base::specs::Csrs::row_of, flex_base::specs::Csrs::rows), using(crate::proofs::Bits::with_bits_all))]
    fn store(&mut self, number: u16, value: u64) -> bool
        requires { is_read_only number ≡ false }
        ensures { MatchOption (row_of number) ((result ≡ false) × (self.new ≡ self.old))
            (λ r. (result ≡ true) × (self.new ≡ after_write self.old value r)) }
    {
        match number {
            0x100 => self.mstatus = with_bits(self.mstatus, SUPERVISOR_STATUS, value),
            0x104 => self.mie = with_bits(self.mie, self.mideleg, value),
            0x105 => self.stvec = with_bits(self.stvec, !2, value),
            0x106 => self.scounteren = with_bits(self.scounteren, 7, value),
            0x140 => self.sscratch = value,
            0x141 => self.sepc = with_bits(self.sepc, !3, value),
            0x142 => self.scause = with_bits(self.scause, CAUSE, value),
            0x143 => self.stval = value,
            0x144 => self.mip = with_bits(self.mip, 2 & self.mideleg, value),
            0x180 => self.satp = with_bits(self.satp, satp_bits(value), value),
            0x300 => self.mstatus = with_bits(self.mstatus, mstatus_bits(value), value),
            0x302 => self.medeleg = with_bits(self.medeleg, 0xb3ff, value),
            0x303 => self.mideleg = with_bits(self.mideleg, SOFTWARE, value),
            0x304 => self.mie = with_bits(self.mie, INTERRUPTS, value),
            0x305 => self.mtvec = with_bits(self.mtvec, !2, value),
            0x306 => self.mcounteren = with_bits(self.mcounteren, 7, value),
            0x340 => self.mscratch = value,
            0x341 => self.mepc = with_bits(self.mepc, !3, value),
            0x342 => self.mcause = with_bits(self.mcause, CAUSE, value),
            0x343 => self.mtval = value,
            0x344 => self.mip = with_bits(self.mip, SOFTWARE, value),
            0xb00 => self.mcycle = value,
            0xb02 => self.minstret = value,
            0x301 | 0x3a0 | 0x3a2 => {}
            _ => return is_pmpaddr(number),
        }
        true
    }
}

// A word in which these bits are those of a value.
fn with_bits(old: u64, bits: u64, value: u64) -> u64
    ensures { result ≡ with_bits old bits value }
{
    old & !bits | value & bits
}

// The bits of mstatus that a write of this value changes: MPP keeps what it has where the reserved
// mode is written.
fn mstatus_bits(value: u64) -> u64
    ensures { result ≡ takes_mstatus [] value }
{
    if pair(value, MPP) == 2 {
        STATUS & !(3 << MPP)
    } else {
        STATUS
    }
}

// The bits of satp that a write of this value changes: none where its MODE is neither Bare nor Sv39.
fn satp_bits(value: u64) -> u64
    ensures { result ≡ takes_satp [] value }
{
    match value >> 60 {
        0 | 8 => SATP,
        _ => 0,
    }
}
