ghost use Rattle.std.specs.Prelude.{◌≡◌, ◌<◌};
ghost use Rattle.flex_base.specs.State.{State, reg};
ghost use Rattle.hart_story.specs.StandsFor.{Shows};

use csr_traps::Csrs;
use flex_base::HartId;
use hart_state::{Kept, Regs};

/// A hart at the start of an instruction.
#[derive(Clone, Copy, Debug, PartialEq, Eq)]
pub struct Hart {
    pub regs: Regs,
    pub csrs: Csrs,
    /// The translations that it keeps.
    pub kept: Kept,
}

impl Hart {
    ghost use Rattle.std.specs.Prelude.{◌≡◌};
    ghost use Rattle.flex_base.specs.State.{start};
    ghost use Rattle.hart_story.specs.StandsFor.{StandsFor};

    /// The start of a hart: at the entry, with its number in `x10` and in `mhartid`.
    pub fn start(hart: HartId, entry: u64) -> Hart
        ensures { StandsFor result (start hart.0 entry) }
    {
        Hart {
            regs: Regs::start(hart, entry),
            csrs: Csrs::new(hart),
            kept: Kept::new(),
        }
    }
}

// The value of a register.
pub(crate) fn read(hart: &Hart, r: u8) -> u64
    requires { r < 32 }
    ensures { (a : State) → Shows hart.now a → result ≡ reg a.x r }
{
    hart.regs.get(r)
}
