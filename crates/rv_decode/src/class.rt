ghost use Rattle.std.specs.Prelude.{◌≡◌, ℕ};
ghost use Rattle.flex_base.specs.Classes.{class_of_op};
ghost use Rattle.flex_base.specs.EndClass.{EndsIn};
ghost use Rattle.flex_base.specs.Setup.{Setup};
ghost use Rattle.flex_base.specs.State.{State};
ghost use Rattle.flex_base.specs.Story.{works};

use flex_base::{Class, Op};

/// The class of an operation's work: the work ends with this class, or is a trap. An illegal
/// operation, ECALL and EBREAK only trap.
#[tactic(auto, using(flex_base::proofs::EndClass::works_ends))]
pub fn class_of(op: &Op) -> Class
    ensures class { result ≡ class_of_op op.now }
    ensures ends { (setup : Setup) (a : State) (word : ℕ) → EndsIn result (works setup a word op.now) }
{
    class_by_kind(op)
}

fn class_by_kind(op: &Op) -> Class
    ensures { result ≡ class_of_op op.now }
{
    match op {
        Op::Lui { .. } | Op::Auipc { .. } | Op::AluImm { .. } | Op::AluReg { .. } => Class::Alu,
        Op::Jal { .. } | Op::Jalr { .. } | Op::Branch { .. } => Class::Jump,
        Op::Load { .. } => Class::Load,
        Op::Store { .. } => Class::Store,
        Op::Muldiv { .. } => Class::Muldiv,
        Op::Lr { .. } | Op::Sc { .. } | Op::Amo { .. } => Class::Atomic,
        Op::Fence { .. } | Op::FenceI { .. } => Class::Fence,
        Op::Csr { .. } => Class::Csr,
        Op::Ecall | Op::Ebreak | Op::Illegal(_) => Class::Trap,
        Op::Sret | Op::Mret | Op::Wfi | Op::SfenceVma { .. } => Class::System,
    }
}
