ghost use Rattle.std.specs.Prelude.{◌≡◌, ℕ, ◌<◌, ◌*◌, ◌/◌, ◌^◌};
ghost use Rattle.std.specs.Int.{w32, w64};
ghost use Rattle.flex_base.specs.Arithmetic.{alu_of, shift_signed};
ghost use Rattle.flex_base.specs.Word.{low};

use crate::word::{extend_word, low_word};
use flex_base::AluOp;

/// The result of an integer instruction on two registers, or on a register and an immediate.
///
/// Sums and differences wrap. A shift amount is the low 6 bits of `b`, 5 in the word forms, and a
/// comparison gives 1 or 0. The word forms work on the low 32 bits and sign-extend their result
/// (Volume I, "Integer Computational Instructions").
pub fn alu(op: AluOp, a: u64, b: u64) -> u64
    ensures { result ≡ alu_of op a b }
{
    match op {
        AluOp::Add => a.wrapping_add(b),
        AluOp::Sub => a.wrapping_sub(b),
        AluOp::Sll => a << (b & 63),
        AluOp::Slt => u64::from(a.cast_signed() < b.cast_signed()),
        AluOp::Sltu => u64::from(a < b),
        AluOp::Xor => a ^ b,
        AluOp::Srl => a >> (b & 63),
        AluOp::Sra => (a.cast_signed() >> (b & 63)).cast_unsigned(),
        AluOp::Or => a | b,
        AluOp::And => a & b,
        AluOp::Addw => extend_word(low_word(a).wrapping_add(low_word(b))),
        AluOp::Subw => extend_word(low_word(a).wrapping_sub(low_word(b))),
        AluOp::Sllw => extend_word(low_word(a) << (b & 31)),
        AluOp::Srlw => extend_word(low_word(a) >> (b & 31)),
        AluOp::Sraw => extend_word((low_word(a).cast_signed() >> (b & 31)).cast_unsigned()),
    }
}
