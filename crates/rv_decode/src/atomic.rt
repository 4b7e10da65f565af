// The atomic instructions.
ghost use Rattle.std.specs.Prelude.{◌≡◌, ◌⊎◌};
ghost use Rattle.flex_base.specs.Decoding.{decoded};
ghost use Rattle.flex_base.specs.Word.{field};

use crate::forms::{amo, lr, sc};
use crate::word::{field, funct3, rs2};
use flex_base::{AmoOp, Op};

#[tactic(auto, using(crate::proofs::Opcodes::atomics), unfolding(flex_base::specs::Decoding::rows))]
pub fn decode_atomic(word: u32) -> Op
    requires opcode { field 0 7 word ≡ 0x2f }
    ensures { result ≡ decoded word }
{
    match funct3(word) {
        2 => decode_atomic_of(4, word),
        3 => decode_atomic_of(8, word),
        _ => Op::Illegal(word),
    }
}

#[tactic(auto, using(crate::proofs::Opcodes::atomics), unfolding(flex_base::specs::Decoding::rows))]
fn decode_atomic_of(width: u8, word: u32) -> Op
    requires opcode { field 0 7 word ≡ 0x2f }
    requires width { ((field 12 3 word ≡ 2) × (width ≡ 4)) ⊎ ((field 12 3 word ≡ 3) × (width ≡ 8)) }
    ensures { result ≡ decoded word }
{
    match field(word, 27, 5) {
        0x02 => decode_lr(width, word),
        0x03 => sc(width, word),
        0x01 => amo(AmoOp::Swap, width, word),
        0x00 => amo(AmoOp::Add, width, word),
        0x04 => amo(AmoOp::Xor, width, word),
        0x0c => amo(AmoOp::And, width, word),
        0x08 => amo(AmoOp::Or, width, word),
        0x10 => amo(AmoOp::Min, width, word),
        0x14 => amo(AmoOp::Max, width, word),
        0x18 => amo(AmoOp::Minu, width, word),
        0x1c => amo(AmoOp::Maxu, width, word),
        _ => Op::Illegal(word),
    }
}

#[tactic(auto, using(crate::proofs::Opcodes::atomics), unfolding(flex_base::specs::Decoding::rows))]
fn decode_lr(width: u8, word: u32) -> Op
    requires opcode { field 0 7 word ≡ 0x2f }
    requires width { ((field 12 3 word ≡ 2) × (width ≡ 4)) ⊎ ((field 12 3 word ≡ 3) × (width ≡ 8)) }
    requires funct5 { field 27 5 word ≡ 2 }
    ensures { result ≡ decoded word }
{
    match rs2(word) {
        0 => lr(width, word),
        _ => Op::Illegal(word),
    }
}
