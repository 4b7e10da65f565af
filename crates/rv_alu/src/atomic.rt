ghost use Rattle.std.specs.Prelude.{◌≡◌, ℕ, ◌⊎◌, ◌*◌};
ghost use Rattle.flex_base.specs.Arithmetic.{amo_of, signed_lt, width_of};
ghost use Rattle.flex_base.specs.Word.{low};

use crate::word::low_word;
use flex_base::AmoOp;

/// The word that an atomic memory operation leaves in memory, where `old` stood there and `source`
/// is the source register.
///
/// The width is 4 or 8 bytes. Of both operands only the bytes of the width count, and the result
/// has no others (Volume I, "Atomic Memory Operations").
pub fn amo(op: AmoOp, old: u64, source: u64, width: u8) -> u64
    requires width { (width ≡ 4) ⊎ (width ≡ 8) }
    ensures { result ≡ amo_of op old source width }
{
    let word = cut(old, width);
    let operand = cut(source, width);
    match op {
        AmoOp::Swap => operand,
        AmoOp::Add => cut(word.wrapping_add(operand), width),
        AmoOp::Xor => word ^ operand,
        AmoOp::And => word & operand,
        AmoOp::Or => word | operand,
        AmoOp::Min => if is_less(source, old, width) {
            operand
        } else {
            word
        },
        AmoOp::Max => if is_less(old, source, width) {
            operand
        } else {
            word
        },
        AmoOp::Minu => if operand < word { operand } else { word },
        AmoOp::Maxu => if word < operand { operand } else { word },
    }
}

// The lowest bytes of a register, so many as the width says.
fn cut(value: u64, width: u8) -> u64
    requires width { (width ≡ 4) ⊎ (width ≡ 8) }
    ensures { result ≡ low (8 * width) value }
{
    if width == 4 {
        u64::from(low_word(value))
    } else {
        value
    }
}

// The order of the lowest bytes of two registers as signed numbers.
fn is_less(a: u64, b: u64, width: u8) -> bool
    requires width { (width ≡ 4) ⊎ (width ≡ 8) }
    ensures { result ≡ signed_lt (width_of width) (low (8 * width) a) (low (8 * width) b) }
{
    if width == 4 {
        low_word(a).cast_signed() < low_word(b).cast_signed()
    } else {
        a.cast_signed() < b.cast_signed()
    }
}
