ghost use Rattle.std.specs.Prelude.{◌≡◌, ℕ};
ghost use Rattle.flex_base.specs.Arithmetic.{muldiv_of};

use crate::division::{
    divide, divide_unsigned, divide_word, divide_word_unsigned, remainder, remainder_unsigned,
    remainder_word, remainder_word_unsigned,
};
use crate::multiplication::{high_mixed, high_signed, high_unsigned};
use crate::word::{extend_word, low_word};
use flex_base::MulOp;

/// The result of a multiplication or a division of two registers.
///
/// Division by zero gives the quotient with all bits set and the dividend as the remainder;
/// the signed division that overflows gives the dividend and 0. The word forms work on the low
/// 32 bits and sign-extend their result (Volume I, "M").
pub fn muldiv(op: MulOp, a: u64, b: u64) -> u64
    ensures { result ≡ muldiv_of op a b }
{
    match op {
        MulOp::Mul => a.wrapping_mul(b),
        MulOp::Mulh => high_signed(a.cast_signed(), b.cast_signed()),
        MulOp::Mulhsu => high_mixed(a.cast_signed(), b),
        MulOp::Mulhu => high_unsigned(a, b),
        MulOp::Div => divide(a, b),
        MulOp::Divu => divide_unsigned(a, b),
        MulOp::Rem => remainder(a, b),
        MulOp::Remu => remainder_unsigned(a, b),
        MulOp::Mulw => extend_word(low_word(a).wrapping_mul(low_word(b))),
        MulOp::Divw => extend_word(divide_word(low_word(a), low_word(b))),
        MulOp::Divuw => extend_word(divide_word_unsigned(low_word(a), low_word(b))),
        MulOp::Remw => extend_word(remainder_word(low_word(a), low_word(b))),
        MulOp::Remuw => extend_word(remainder_word_unsigned(low_word(a), low_word(b))),
    }
}
