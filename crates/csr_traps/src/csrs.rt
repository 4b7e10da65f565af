ghost use Rattle.std.specs.Prelude.{◌≡◌, ℕ, Bool, ◌<◌, slice_index};
ghost use Rattle.flex_base.specs.Csrs.{AreFit, start_csrs, mie, mip, mstatus, satp};
ghost use Rattle.flex_base.specs.Traps.{count};

use flex_base::HartId;
use std::marker::Model;

/// The control and status registers of a hart, of which contracts see the list of their stores, in
/// the order of the fields (Volume II, "Control and Status Registers (CSRs)").
#[derive(Clone, Copy, Debug, PartialEq, Eq)]
pub struct Csrs {
    pub(crate) stvec: u64,
    pub(crate) scounteren: u64,
    pub(crate) sscratch: u64,
    pub(crate) sepc: u64,
    pub(crate) scause: u64,
    pub(crate) stval: u64,
    pub(crate) satp: u64,
    // Without UXL and SXL, which are constant.
    pub(crate) mstatus: u64,
    pub(crate) medeleg: u64,
    pub(crate) mideleg: u64,
    pub(crate) mie: u64,
    pub(crate) mtvec: u64,
    pub(crate) mcounteren: u64,
    pub(crate) mscratch: u64,
    pub(crate) mepc: u64,
    pub(crate) mcause: u64,
    pub(crate) mtval: u64,
    // The software bits alone; the interrupt lines join them where mip is read.
    pub(crate) mip: u64,
    pub(crate) mcycle: u64,
    pub(crate) minstret: u64,
    pub(crate) mhartid: u64,
}

impl Model for Csrs {
    ghost use Rattle.std.specs.Prelude.{ℕ, List, [], ◌∷◌, slice_index};

    ghost Value = { List ℕ };

    ghost view = { λ c.
        c.stvec ∷ c.scounteren ∷ c.sscratch ∷ c.sepc ∷ c.scause ∷ c.stval ∷ c.satp ∷ c.mstatus ∷
        c.medeleg ∷ c.mideleg ∷ c.mie ∷ c.mtvec ∷ c.mcounteren ∷ c.mscratch ∷ c.mepc ∷
        c.mcause ∷ c.mtval ∷ c.mip ∷ c.mcycle ∷ c.minstret ∷ c.mhartid ∷ [] };

    ghost inverse = { λ s. record {
      stvec = slice_index s 0;
      scounteren = slice_index s 1;
      sscratch = slice_index s 2;
      sepc = slice_index s 3;
      scause = slice_index s 4;
      stval = slice_index s 5;
      satp = slice_index s 6;
      mstatus = slice_index s 7;
      medeleg = slice_index s 8;
      mideleg = slice_index s 9;
      mie = slice_index s 10;
      mtvec = slice_index s 11;
      mcounteren = slice_index s 12;
      mscratch = slice_index s 13;
      mepc = slice_index s 14;
      mcause = slice_index s 15;
      mtval = slice_index s 16;
      mip = slice_index s 17;
      mcycle = slice_index s 18;
      minstret = slice_index s 19;
      mhartid = slice_index s 20;
    } };
}

/// A CSR that isn't there, or that this mode may not read or write: the instruction is illegal.
#[derive(Clone, Copy, Debug, PartialEq, Eq)]
pub struct IllegalCsr;

impl Csrs {
    /// The registers of a hart at its start: all are 0 but its number. The bits of mstatus and misa
    /// that are constant come with reading.
    #[tactic(auto, using(flex_base::proofs::Beginning::start_fit))]
    pub fn new(hart: HartId) -> Csrs
        ensures start { result ≡ start_csrs hart.0 }
        ensures fit { (harts : ℕ) → hart.0 < harts → AreFit harts result }
    {
        Csrs {
            stvec: 0,
            scounteren: 0,
            sscratch: 0,
            sepc: 0,
            scause: 0,
            stval: 0,
            satp: 0,
            mstatus: 0,
            medeleg: 0,
            mideleg: 0,
            mie: 0,
            mtvec: 0,
            mcounteren: 0,
            mscratch: 0,
            mepc: 0,
            mcause: 0,
            mtval: 0,
            mip: 0,
            mcycle: 0,
            minstret: 0,
            mhartid: u64::from(hart.0),
        }
    }

    /// The store of mstatus, for the tests of its bits: UXL and SXL are 0 in it.
    pub fn mstatus(&self) -> u64
        ensures { result ≡ slice_index self.now mstatus }
    {
        self.mstatus
    }

    /// The interrupts that are enabled, by their bits.
    pub fn mie(&self) -> u64
        ensures { result ≡ slice_index self.now mie }
    {
        self.mie
    }

    /// The interrupts that software has raised, by their bits; those of the lines aren't among them.
    pub fn mip(&self) -> u64
        ensures { result ≡ slice_index self.now mip }
    {
        self.mip
    }

    /// How addresses are translated (Volume II, "Supervisor Address Translation and Protection (satp)
    /// Register").
    pub fn satp(&self) -> u64
        ensures { result ≡ slice_index self.now satp }
    {
        self.satp
    }

    /// Counts an end: a cycle, an instruction, or both. A counter past its last value is 0 again.
    ///
    /// An instruction that writes a counter doesn't count in it, and a trap is no instruction (Volume
    /// II, "Hardware Performance Monitor").
    #[tactic(auto, using(crate::proofs::Fitting::count_fit), unfolding(flex_base::specs::Traps::count))]
    pub fn count(&mut self, cycle: bool, instret: bool)
        ensures stores { self.new ≡ count self.old cycle instret }
        ensures fit { (harts : ℕ) → AreFit harts self.old → AreFit harts self.new }
    {
        if cycle {
            self.mcycle = self.mcycle.wrapping_add(1);
        }
        if instret {
            self.minstret = self.minstret.wrapping_add(1);
        }
    }
}
