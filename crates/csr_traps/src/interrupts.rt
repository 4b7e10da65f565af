ghost use Rattle.std.specs.Prelude.{◌≡◌, ℕ, ◌<◌, ◌^◌, IfSome, slice_index};
ghost use Rattle.flex_base.specs.Causes.{interrupt};
ghost use Rattle.flex_base.specs.Csrs.{IsCause, mideleg};
ghost use Rattle.flex_base.specs.Traps.{takeable, is_on_for_m, is_on_for_s};
ghost use Rattle.csr_traps.specs.Laws.{TakesFirst};
ghost use Rattle.csr_traps.specs.Ready.{ready_set, set_for_m, set_for_s, first_in};

use crate::csrs::Csrs;
use crate::status::{MIE, SIE, is_set};
use flex_base::Mode;

// Interrupts by their bits in mip and mie (Volume II, "Machine Interrupt Registers").
const SSI: u32 = 1;

const MSI: u32 = 3;

const STI: u32 = 5;

const MTI: u32 = 7;

const SEI: u32 = 9;

const MEI: u32 = 11;

const ALL: u64 = 0xaaa;

impl Csrs {
    /// The cause of the interrupt that is taken in this mode with these lines, which is its number
    /// with bit 63 set; None where none may be taken.
    ///
    /// Those that go to M come first, and in one level the order is MEI, MSI, MTI, SEI, SSI, STI
    /// (Volume II, "Machine Interrupt Registers").
    #[tactic(auto, using(crate::proofs::Laws::takes_first))]
    pub fn takeable(&self, lines: u64, mode: Mode) -> Option<u64>
        ensures first { result ≡ takeable self.now lines mode }
        ensures cause { IfSome result IsCause }
        ensures law { TakesFirst self.now lines mode }
    {
        let ready = self.ready_set(lines);
        if ready == 0 {
            return None;
        }
        match first_of(self.set_for_m(ready, mode)) {
            Some(cause) => Some(cause),
            None => first_of(self.set_for_s(ready, mode)),
        }
    }

    // The interrupts that are pending and enabled.
    fn ready_set(&self, lines: u64) -> u64
        ensures { result ≡ ready_set self.now lines }
    {
        (self.mip | lines) & self.mie & ALL
    }

    // Of these interrupts, those that M takes now.
    fn set_for_m(&self, ready: u64, mode: Mode) -> u64
        ensures taken { result ≡ set_for_m self.now mode ready }
        ensures word { slice_index self.now mideleg < 2 ^ 64 }
    {
        let not_delegated = !self.mideleg;
        if self.is_on_for_m(mode) {
            ready & not_delegated
        } else {
            0
        }
    }

    // Of these interrupts, those that S takes now.
    fn set_for_s(&self, ready: u64, mode: Mode) -> u64
        ensures { result ≡ set_for_s self.now mode ready }
    {
        if self.is_on_for_s(mode) {
            ready & self.mideleg
        } else {
            0
        }
    }

    fn is_on_for_m(&self, mode: Mode) -> bool
        ensures { result ≡ is_on_for_m self.now mode }
    {
        match mode {
            Mode::M => is_set(self.mstatus, MIE),
            _ => true,
        }
    }

    fn is_on_for_s(&self, mode: Mode) -> bool
        ensures { result ≡ is_on_for_s self.now mode }
    {
        match mode {
            Mode::M => false,
            Mode::S => is_set(self.mstatus, SIE),
            Mode::U => true,
        }
    }
}

// The cause of the first of these interrupts.
#[tactic(auto, unfolding(crate::specs::Ready::first_in))]
fn first_of(set: u64) -> Option<u64>
    ensures first { result ≡ first_in set }
    ensures cause { IfSome result IsCause }
{
    if is_set(set, MEI) {
        return Some(cause_of(MEI));
    }
    if is_set(set, MSI) {
        return Some(cause_of(MSI));
    }
    if is_set(set, MTI) {
        return Some(cause_of(MTI));
    }
    if is_set(set, SEI) {
        return Some(cause_of(SEI));
    }
    if is_set(set, SSI) {
        return Some(cause_of(SSI));
    }
    if is_set(set, STI) {
        return Some(cause_of(STI));
    }
    None
}

// The cause of an interrupt has bit 63 set (Volume II, "Machine Cause Register").
fn cause_of(number: u32) -> u64
    requires { number < 63 }
    ensures { result ≡ interrupt number }
{
    (1 << 63) + u64::from(number)
}
