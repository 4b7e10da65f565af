ghost use Rattle.std.specs.Prelude.{◌≡◌, ◌<◌};
ghost use Rattle.flex_base.specs.Ends.{jumps};
ghost use Rattle.flex_base.specs.Story.{branches, is_taken, even};
ghost use Rattle.flex_base.specs.declared.settings.Layout.{Layout};
ghost use Rattle.hart_story.specs.Outcome.{ComesAs, IsSoundOutcome};

use crate::causes::INSTRUCTION_ADDRESS_MISALIGNED;
use crate::ends::end_without;
use crate::hart::Hart;
use crate::outcome::{End, Outcome};
use flex_base::{BranchOp, Class};

// A jump, which links the next instruction. To a misaligned address it is an exception of the jump
// itself.
pub(crate) fn jump(hart: &Hart, target: u64, rd: u8) -> Outcome
    requires { rd < 32 }
    ensures works { ComesAs hart.now (λ a. jumps a target rd) result }
    ensures sound { (layout : Layout) → IsSoundOutcome layout hart.now result }
{
    if target % 4 != 0 {
        return Outcome::Trap {
            cause: INSTRUCTION_ADDRESS_MISALIGNED,
            tval: target,
        };
    }
    Outcome::End(End {
        class: Class::Jump,
        next: target,
        rd,
        value: hart.regs.pc.wrapping_add(4),
        reservation: hart.regs.reservation,
        due: false,
    })
}

// A conditional branch on these two values.
pub(crate) fn branch(hart: &Hart, op: BranchOp, x: u64, y: u64, target: u64) -> Outcome
    ensures works { ComesAs hart.now (λ a. branches a (is_taken op x y) target) result }
    ensures sound { (layout : Layout) → IsSoundOutcome layout hart.now result }
{
    if takes(op, x, y) {
        jump(hart, target, 0)
    } else {
        Outcome::End(end_without(hart, Class::Jump))
    }
}

fn takes(op: BranchOp, x: u64, y: u64) -> bool
    ensures { result ≡ is_taken op x y }
{
    match op {
        BranchOp::Eq => x == y,
        BranchOp::Ne => x != y,
        BranchOp::Lt => x.cast_signed() < y.cast_signed(),
        BranchOp::Ge => x.cast_signed() >= y.cast_signed(),
        BranchOp::Ltu => x < y,
        BranchOp::Geu => x >= y,
    }
}

pub(crate) fn even(address: u64) -> u64
    ensures { result ≡ even address }
{
    address - address % 2
}
