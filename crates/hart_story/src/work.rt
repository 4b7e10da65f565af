ghost use Rattle.std.specs.Prelude.{◌≡◌, ◌<◌, ◌≤◌, ℕ, false, true};
ghost use Rattle.flex_base.specs.Story.{works};
ghost use Rattle.flex_base.specs.Decoding.{decoded};
ghost use Rattle.hart_story.specs.Operands.{HasOperands};
ghost use Rattle.hart_story.specs.declared.outcome.Outcome.TheVariants as Outcome;
ghost use Rattle.hart_story.specs.declared.stage.Stage.TheVariants as Stage;
ghost use Rattle.hart_story.specs.Stage.{left_at, has_begun, is_over_at, ComesTo, IsSoundStage};

use crate::csr::use_csr;
use crate::ends::{end_with, end_without};
use crate::found::Found;
use crate::hart::{Hart, read};
use crate::jump::{branch, even, jump};
use crate::memory::reach;
use crate::memory_work::{MemoryOp, MemoryWork};
use crate::outcome::{End, Outcome};
use crate::stage::Stage;
use crate::system::{ebreak, ecall, illegal, mret, sfence_vma, sret, wfi};
use flex_base::{Class, Layout, Op};
use rv_alu::{alu, muldiv};
use rv_decode::decode;

// What the word does, an operation a line. Its fetch may have found a leaf. The stage is written in
// place, since it is large.
#[rattlefmt::skip]
pub(crate) fn work(hart: &Hart, layout: &Layout, found: &Found, stage: &mut Stage, word: u32)
    ensures works { ComesTo layout.now hart.now found.now (λ setup a. works setup a word (decoded word)) stage.new }
    ensures sound { (count : ℕ) → count ≤ 1 → IsSoundStage layout.now hart.now count stage.new }
    ensures nearer { left_at stage.new < 6 }
    ensures begun { has_begun stage.new ≡ true }
    ensures goes_on { is_over_at stage.new ≡ false }
{
    let pc = hart.regs.pc;
    match operation(word) {
        Op::Lui { rd, imm } => *stage = ends(end_with(hart, Class::Alu, rd, imm)),
        Op::Auipc { rd, imm } => *stage = ends(end_with(hart, Class::Alu, rd, pc.wrapping_add(imm))),
        Op::AluImm { op, rd, rs1, imm } => *stage = ends(end_with(hart, Class::Alu, rd, alu(op, read(hart, rs1), imm))),
        Op::AluReg { op, rd, rs1, rs2 } => *stage = ends(end_with(hart, Class::Alu, rd, alu(op, read(hart, rs1), read(hart, rs2)))),
        Op::Muldiv { op, rd, rs1, rs2 } => *stage = ends(end_with(hart, Class::Muldiv, rd, muldiv(op, read(hart, rs1), read(hart, rs2)))),
        Op::Jal { rd, imm } => *stage = Stage::Working(jump(hart, pc.wrapping_add(imm), rd)),
        Op::Jalr { rd, rs1, imm } => *stage = Stage::Working(jump(hart, even(read(hart, rs1).wrapping_add(imm)), rd)),
        Op::Branch { op, rs1, rs2, imm } => *stage = Stage::Working(branch(hart, op, read(hart, rs1), read(hart, rs2), pc.wrapping_add(imm))),
        Op::Load { width, signed, rd, rs1, imm } => reach(hart, layout, found, stage, MemoryWork { op: MemoryOp::Load, width, signed, rd, address: read(hart, rs1).wrapping_add(imm), value: 0 }),
        Op::Store { width, rs1, rs2, imm } => reach(hart, layout, found, stage, MemoryWork { op: MemoryOp::Store, width, signed: false, rd: 0, address: read(hart, rs1).wrapping_add(imm), value: read(hart, rs2) }),
        Op::Lr { width, rd, rs1, .. } => reach(hart, layout, found, stage, MemoryWork { op: MemoryOp::LoadReserved, width, signed: true, rd, address: read(hart, rs1), value: 0 }),
        Op::Sc { width, rd, rs1, rs2, .. } => reach(hart, layout, found, stage, MemoryWork { op: MemoryOp::StoreConditional, width, signed: false, rd, address: read(hart, rs1), value: read(hart, rs2) }),
        Op::Amo { op, width, rd, rs1, rs2, .. } => reach(hart, layout, found, stage, MemoryWork { op: MemoryOp::Modify(op), width, signed: true, rd, address: read(hart, rs1), value: read(hart, rs2) }),
        Op::Fence { .. } | Op::FenceI { .. } => *stage = ends(end_without(hart, Class::Fence)),
        Op::Csr { op, rd, rs1, number } => *stage = Stage::Working(use_csr(hart, word, op, rd, rs1, number)),
        Op::Ecall => *stage = Stage::Working(ecall(hart)),
        Op::Ebreak => *stage = Stage::Working(ebreak()),
        Op::Mret => *stage = Stage::Working(mret(hart, word)),
        Op::Sret => *stage = Stage::Working(sret(hart, word)),
        Op::Wfi => *stage = Stage::Working(wfi(hart, word)),
        Op::SfenceVma { .. } => *stage = Stage::Working(sfence_vma(hart, word)),
        Op::Illegal(whole) => *stage = Stage::Working(illegal(whole)),
    }
}

fn ends(end: End) -> Stage
    ensures { result ≡ Stage.Working (Outcome.End end) }
{
    Stage::Working(Outcome::End(end))
}

// The operation of the word. It names registers that there are, and widths of memory.
fn operation(word: u32) -> Op
    ensures meaning { result ≡ decoded word }
    ensures operands { HasOperands result }
{
    decode(word)
}
