ghost use Rattle.std.specs.Prelude.{◌≡◌, ℕ, ◌<◌, ◌≤◌, None, Some, is_some, option_map, IfOk, IsErr, IsTrue, ◌↔◌};
ghost use Rattle.flex_base.specs.Csrs.{csr_read, row_of, value_of, is_allowed, has_satp, has_counter, constant};
ghost use Rattle.csr_traps.specs.Laws.{IsView};

use crate::csrs::{Csrs, IllegalCsr};
use crate::status::{TVM, is_set, mode_number};
use flex_base::Mode;

// The bits of mstatus that are read and written, and of them those that sstatus shows.
pub(crate) const STATUS: u64 = 0x7e_19aa;

pub(crate) const SUPERVISOR_STATUS: u64 = 0xc_0122;

// UXL and SXL say that U and S have 64 bits.
const UXL: u64 = 0x2_0000_0000;

const UXL_AND_SXL: u64 = 0xa_0000_0000;

// 64 bits, A, I, M, S and U (Volume II, "Machine ISA Register").
const MISA: u64 = 0x8000_0000_0014_1101;

pub(crate) const INTERRUPTS: u64 = 0xaaa;

pub(crate) const CAUSE: u64 = 0x8000_0000_0000_003f;

pub(crate) const SATP: u64 = 0xf000_0fff_ffff_ffff;

impl Csrs {
    /// Reads a CSR for an instruction in this mode. `lines` are the hart's interrupt lines, which
    /// join mip's software bits, and `time` is what `time` reads as.
    ///
    /// A number that isn't listed is refused, as are a mode below the number's, satp in S with TVM
    /// set, and a counter that isn't enabled below M (Volume II, "CSR Address Mapping Conventions").
    #[tactic(auto, using(crate::proofs::Views::is_view), unfolding(flex_base::specs::Csrs::csr_read))]
    pub fn read(&self, number: u16, mode: Mode, lines: u64, time: u64) -> Result<u64, IllegalCsr>
        ensures value { IfOk result (λ value. csr_read self.now number mode lines time ≡ Some value) }
        ensures refused { IsErr result ↔ (csr_read self.now number mode lines time ≡ None) }
        // What sstatus shows.
        ensures law { IsView self.now }
    {
        if !self.is_allowed(number, mode) {
            return Err(IllegalCsr);
        }
        match self.value(number, lines, time) {
            Some(value) => Ok(value),
            None => Err(IllegalCsr),
        }
    }

    /// Whether `read` gives a value, which is the same with all lines and at all times.
    #[tactic(auto, unfolding(flex_base::specs::Csrs::csr_read))]
    pub fn may_read(&self, number: u16, mode: Mode) -> bool
        ensures { (lines time : ℕ) → result ≡ is_some (csr_read self.now number mode lines time) }
    {
        self.is_allowed(number, mode) && self.is_listed(number)
    }

    // Whether there is a register of this number.
    pub(crate) fn is_listed(&self, number: u16) -> bool
        ensures { result ≡ is_some (row_of number) }
    {
        self.value(number, 0, 0).is_some()
    }

    // Whether a mode may use a register, if it is listed.
    #[tactic(auto, unfolding(flex_base::specs::Csrs::row_of, flex_base::specs::Csrs::rows))]
    pub(crate) fn is_allowed(&self, number: u16, mode: Mode) -> bool
        ensures { result ≡ is_allowed self.now number mode }
    {
        if u64::from(number >> 8 & 3) > mode_number(mode) {
            return false;
        }
        match number {
            0xc00 => self.has_counter(0, mode),
            0xc01 => self.has_counter(1, mode),
            0xc02 => self.has_counter(2, mode),
            0x180 => self.has_satp(mode),
            _ => true,
        }
    }

    fn has_counter(&self, bit: u32, mode: Mode) -> bool
        requires { bit < 64 }
        ensures { result ≡ has_counter self.now bit mode }
    {
        match mode {
            Mode::M => true,
            Mode::S => is_set(self.mcounteren, bit),
            Mode::U => is_set(self.mcounteren, bit) && is_set(self.scounteren, bit),
        }
    }

    fn has_satp(&self, mode: Mode) -> bool
        ensures { result ≡ has_satp self.now mode }
    {
        match mode {
            Mode::S => !is_set(self.mstatus, TVM),
            _ => true,
        }
    }

    // What a register reads as; None where the number isn't listed.
    #[tactic(auto, unfolding(flex_base::specs::Csrs::row_of, flex_base::specs::Csrs::rows))]
    fn value(&self, number: u16, lines: u64, time: u64) -> Option<u64>
        ensures { result ≡ option_map (value_of self.now lines time) (row_of number) }
    {
        let value = match number {
            0xc00 | 0xb00 => self.mcycle,
            0xc01 => time,
            0xc02 | 0xb02 => self.minstret,
            0x100 => self.mstatus & SUPERVISOR_STATUS | UXL,
            0x104 => self.mie & self.mideleg,
            0x105 => self.stvec & !2,
            0x106 => self.scounteren & 7,
            0x140 => self.sscratch,
            0x141 => self.sepc & !3,
            0x142 => self.scause & CAUSE,
            0x143 => self.stval,
            0x144 => (self.mip | lines) & self.mideleg,
            0x180 => self.satp & SATP,
            0xf11 | 0xf12 | 0xf13 => 0,
            0xf14 => self.mhartid,
            0x300 => self.mstatus & STATUS | UXL_AND_SXL,
            0x301 => MISA,
            0x302 => self.medeleg & 0xb3ff,
            0x303 => self.mideleg & 0x222,
            0x304 => self.mie & INTERRUPTS,
            0x305 => self.mtvec & !2,
            0x306 => self.mcounteren & 7,
            0x340 => self.mscratch,
            0x341 => self.mepc & !3,
            0x342 => self.mcause & CAUSE,
            0x343 => self.mtval,
            0x344 => (self.mip | lines) & INTERRUPTS,
            0x3a0 | 0x3a2 => 0,
            _ => return if is_pmpaddr(number) { Some(0) } else { None },
        };
        Some(value)
    }
}

// Whether this is the number of one of pmpaddr0 to 15.
#[tactic(auto, using(crate::proofs::Rows::pmpaddr_row))]
pub(crate) fn is_pmpaddr(number: u16) -> bool
    ensures listed { IsTrue result → row_of number ≡ Some (constant number 0) }
    ensures range { IsTrue result ↔ ((0x3b0 ≤ number) × (number ≤ 0x3bf)) }
{
    0x3b0 <= number && number <= 0x3bf
}
