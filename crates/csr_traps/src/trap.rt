ghost use Rattle.std.specs.Prelude.{◌≡◌, ℕ, Bool, true, slice_index};
ghost use Rattle.flex_base.specs.Causes.{is_interrupt, code_of};
ghost use Rattle.flex_base.specs.Csrs.{AreFit, IsCause, mstatus};
ghost use Rattle.flex_base.specs.Traps.{Transfer, trap, mret, sret, goes_to_s, handler, mstatus_after_trap_to_m, mstatus_after_trap_to_s, with_mprv_in_m};
ghost use Rattle.flex_base.specs.Word.{is_multiple};
ghost use Rattle.csr_traps.specs.Laws.{RestoresM, RestoresS};

use crate::csrs::Csrs;
use crate::status::{
    MIE, MPIE, MPP, MPRV, SIE, SPIE, SPP, bit, is_set, mode_number, mode_of, pair, with_bit,
    with_pair,
};
use flex_base::Mode;

impl Csrs {
    /// Takes a trap of this cause and value in this mode at `pc`, and gives where its handler begins
    /// and in which mode. The cause of an interrupt has bit 63 set.
    ///
    /// From S and U it goes to S where its cause is delegated, else to M (Volume II, "Machine Trap
    /// Delegation Registers", "Machine Trap-Vector Base-Address Register").
    #[tactic(auto, using(crate::proofs::Laws::restores_m, crate::proofs::Laws::restores_s, crate::proofs::Fitting::trap_fit, crate::proofs::Fitting::handler_aligned), unfolding(flex_base::specs::Traps::trap))]
    pub fn enter_trap(&mut self, pc: u64, mode: Mode, cause: u64, tval: u64) -> (u64, Mode)
        ensures stores { self.new ≡ (trap self.old pc mode cause tval).stores }
        ensures pc { result.0 ≡ (trap self.old pc mode cause tval).pc }
        ensures mode { result.1 ≡ (trap self.old pc mode cause tval).mode }
        ensures aligned { is_multiple result.0 4 ≡ true }
        ensures fit { (harts : ℕ) → AreFit harts self.old → is_multiple pc 4 ≡ true → IsCause cause
            → AreFit harts self.new }
        // What a return from this very trap restores.
        ensures law { RestoresM (slice_index self.old mstatus) mode × RestoresS (slice_index self.old mstatus) mode }
    {
        if self.goes_to_s(mode, cause) {
            self.sepc = pc;
            self.scause = cause;
            self.stval = tval;
            self.mstatus = mstatus_after_trap_to_s(self.mstatus, mode);
            (handler(self.stvec, cause), Mode::S)
        } else {
            self.mepc = pc;
            self.mcause = cause;
            self.mtval = tval;
            self.mstatus = mstatus_after_trap_to_m(self.mstatus, mode);
            (handler(self.mtvec, cause), Mode::M)
        }
    }

    fn goes_to_s(&self, mode: Mode, cause: u64) -> bool
        ensures { result ≡ goes_to_s self.now mode cause }
    {
        let delegation = if is_interrupt(cause) {
            self.mideleg
        } else {
            self.medeleg
        };
        match mode {
            Mode::M => false,
            _ => is_set(delegation, (cause & 63) as u32),
        }
    }

    /// Returns from a trap in M, and gives where to and in which mode. Whether the instruction is legal
    /// is the caller's test: in M alone (Volume II, "Trap-Return Instructions").
    #[tactic(auto, using(crate::proofs::Fitting::mret_fit, crate::proofs::Fitting::mret_address), unfolding(flex_base::specs::Traps::mret))]
    pub fn mret(&mut self) -> (u64, Mode)
        ensures stores { self.new ≡ (mret self.old).stores }
        ensures pc { result.0 ≡ (mret self.old).pc }
        ensures mode { result.1 ≡ (mret self.old).mode }
        ensures aligned { (harts : ℕ) → AreFit harts self.old → is_multiple result.0 4 ≡ true }
        ensures fit { (harts : ℕ) → AreFit harts self.old → AreFit harts self.new }
    {
        let status = self.mstatus;
        let mode = mode_of(pair(status, MPP));
        let enabled = with_bit(with_bit(status, MIE, bit(status, MPIE)), MPIE, 1);
        self.mstatus = with_mprv_in_m(mode, with_pair(enabled, MPP, 0));
        (self.mepc, mode)
    }

    /// Returns from a trap in S, and gives where to and in which mode. Whether the instruction is legal
    /// is the caller's test: in M, and in S with TSR clear (Volume II, "Trap-Return Instructions",
    /// "Virtualization Support in mstatus Register").
    #[tactic(auto, using(crate::proofs::Fitting::sret_fit, crate::proofs::Fitting::sret_address), unfolding(flex_base::specs::Traps::sret))]
    pub fn sret(&mut self) -> (u64, Mode)
        ensures stores { self.new ≡ (sret self.old).stores }
        ensures pc { result.0 ≡ (sret self.old).pc }
        ensures mode { result.1 ≡ (sret self.old).mode }
        ensures aligned { (harts : ℕ) → AreFit harts self.old → is_multiple result.0 4 ≡ true }
        ensures fit { (harts : ℕ) → AreFit harts self.old → AreFit harts self.new }
    {
        let status = self.mstatus;
        let mode = mode_of(bit(status, SPP));
        let enabled = with_bit(with_bit(status, SIE, bit(status, SPIE)), SPIE, 1);
        self.mstatus = with_bit(with_bit(enabled, SPP, 0), MPRV, 0);
        (self.sepc, mode)
    }
}

fn is_interrupt(cause: u64) -> bool
    ensures { result ≡ is_interrupt cause }
{
    is_set(cause, 63)
}

// mstatus once a trap from this mode has gone to M.
fn mstatus_after_trap_to_m(status: u64, from: Mode) -> u64
    ensures { result ≡ mstatus_after_trap_to_m status from }
{
    let off = with_bit(with_pair(status, MPP, mode_number(from)), MIE, 0);
    with_bit(off, MPIE, bit(status, MIE))
}

// mstatus once a trap from this mode has gone to S.
fn mstatus_after_trap_to_s(status: u64, from: Mode) -> u64
    ensures { result ≡ mstatus_after_trap_to_s status from }
{
    let off = with_bit(with_bit(status, SPP, mode_number(from) & 1), SIE, 0);
    with_bit(off, SPIE, bit(status, SIE))
}

// Where the handler of a trap begins: at the base, or for an interrupt in vectored mode 4 bytes
// further for each number.
fn handler(tvec: u64, cause: u64) -> u64
    ensures { result ≡ handler tvec cause }
{
    let base = tvec & !3;
    if is_interrupt(cause) && tvec & 3 == 1 {
        base.wrapping_add(4 * (cause & 63))
    } else {
        base
    }
}

// A return to a mode below M clears MPRV.
fn with_mprv_in_m(mode: Mode, status: u64) -> u64
    ensures { result ≡ with_mprv_in_m mode status }
{
    match mode {
        Mode::M => status,
        _ => with_bit(status, MPRV, 0),
    }
}
