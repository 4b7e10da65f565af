// The integer instructions between registers, and between a register and an immediate.
ghost use Rattle.std.specs.Prelude.{◌≡◌};
ghost use Rattle.flex_base.specs.Decoding.{decoded};
ghost use Rattle.flex_base.specs.Word.{field};

use crate::forms::{immediate, muldiv, register, shift, shift_word};
use crate::word::{field, funct3, funct7};
use flex_base::{AluOp, MulOp, Op};

#[tactic(auto, using(crate::proofs::Opcodes::immediates), unfolding(flex_base::specs::Decoding::rows))]
pub fn decode_immediate(word: u32) -> Op
    requires opcode { field 0 7 word ≡ 0x13 }
    ensures { result ≡ decoded word }
{
    match funct3(word) {
        0 => immediate(AluOp::Add, word),
        1 => decode_shift_left(word),
        2 => immediate(AluOp::Slt, word),
        3 => immediate(AluOp::Sltu, word),
        4 => immediate(AluOp::Xor, word),
        5 => decode_shift_right(word),
        6 => immediate(AluOp::Or, word),
        7 => immediate(AluOp::And, word),
        _ => Op::Illegal(word),
    }
}

#[tactic(auto, using(crate::proofs::Opcodes::immediates), unfolding(flex_base::specs::Decoding::rows))]
fn decode_shift_left(word: u32) -> Op
    requires opcode { field 0 7 word ≡ 0x13 }
    requires funct3 { field 12 3 word ≡ 1 }
    ensures { result ≡ decoded word }
{
    match field(word, 26, 6) {
        0 => shift(AluOp::Sll, word),
        _ => Op::Illegal(word),
    }
}

#[tactic(auto, using(crate::proofs::Opcodes::immediates), unfolding(flex_base::specs::Decoding::rows))]
fn decode_shift_right(word: u32) -> Op
    requires opcode { field 0 7 word ≡ 0x13 }
    requires funct3 { field 12 3 word ≡ 5 }
    ensures { result ≡ decoded word }
{
    match field(word, 26, 6) {
        0 => shift(AluOp::Srl, word),
        0x10 => shift(AluOp::Sra, word),
        _ => Op::Illegal(word),
    }
}

#[tactic(auto, using(crate::proofs::Opcodes::word_immediates), unfolding(flex_base::specs::Decoding::rows))]
pub fn decode_word_immediate(word: u32) -> Op
    requires opcode { field 0 7 word ≡ 0x1b }
    ensures { result ≡ decoded word }
{
    match funct3(word) {
        0 => immediate(AluOp::Addw, word),
        1 => decode_word_shift_left(word),
        5 => decode_word_shift_right(word),
        _ => Op::Illegal(word),
    }
}

#[tactic(auto, using(crate::proofs::Opcodes::word_immediates), unfolding(flex_base::specs::Decoding::rows))]
fn decode_word_shift_left(word: u32) -> Op
    requires opcode { field 0 7 word ≡ 0x1b }
    requires funct3 { field 12 3 word ≡ 1 }
    ensures { result ≡ decoded word }
{
    match funct7(word) {
        0 => shift_word(AluOp::Sllw, word),
        _ => Op::Illegal(word),
    }
}

#[tactic(auto, using(crate::proofs::Opcodes::word_immediates), unfolding(flex_base::specs::Decoding::rows))]
fn decode_word_shift_right(word: u32) -> Op
    requires opcode { field 0 7 word ≡ 0x1b }
    requires funct3 { field 12 3 word ≡ 5 }
    ensures { result ≡ decoded word }
{
    match funct7(word) {
        0 => shift_word(AluOp::Srlw, word),
        0x20 => shift_word(AluOp::Sraw, word),
        _ => Op::Illegal(word),
    }
}

#[tactic(auto, using(crate::proofs::Opcodes::registers), unfolding(flex_base::specs::Decoding::rows))]
pub fn decode_register(word: u32) -> Op
    requires opcode { field 0 7 word ≡ 0x33 }
    ensures { result ≡ decoded word }
{
    match funct7(word) {
        0 => decode_base_register(word),
        1 => decode_muldiv(word),
        0x20 => decode_other_register(word),
        _ => Op::Illegal(word),
    }
}

#[tactic(auto, using(crate::proofs::Opcodes::registers), unfolding(flex_base::specs::Decoding::rows))]
fn decode_base_register(word: u32) -> Op
    requires opcode { field 0 7 word ≡ 0x33 }
    requires funct7 { field 25 7 word ≡ 0x00 }
    ensures { result ≡ decoded word }
{
    match funct3(word) {
        0 => register(AluOp::Add, word),
        1 => register(AluOp::Sll, word),
        2 => register(AluOp::Slt, word),
        3 => register(AluOp::Sltu, word),
        4 => register(AluOp::Xor, word),
        5 => register(AluOp::Srl, word),
        6 => register(AluOp::Or, word),
        7 => register(AluOp::And, word),
        _ => Op::Illegal(word),
    }
}

#[tactic(auto, using(crate::proofs::Opcodes::registers), unfolding(flex_base::specs::Decoding::rows))]
fn decode_other_register(word: u32) -> Op
    requires opcode { field 0 7 word ≡ 0x33 }
    requires funct7 { field 25 7 word ≡ 0x20 }
    ensures { result ≡ decoded word }
{
    match funct3(word) {
        0 => register(AluOp::Sub, word),
        5 => register(AluOp::Sra, word),
        _ => Op::Illegal(word),
    }
}

#[tactic(auto, using(crate::proofs::Opcodes::registers), unfolding(flex_base::specs::Decoding::rows))]
fn decode_muldiv(word: u32) -> Op
    requires opcode { field 0 7 word ≡ 0x33 }
    requires funct7 { field 25 7 word ≡ 0x01 }
    ensures { result ≡ decoded word }
{
    match funct3(word) {
        0 => muldiv(MulOp::Mul, word),
        1 => muldiv(MulOp::Mulh, word),
        2 => muldiv(MulOp::Mulhsu, word),
        3 => muldiv(MulOp::Mulhu, word),
        4 => muldiv(MulOp::Div, word),
        5 => muldiv(MulOp::Divu, word),
        6 => muldiv(MulOp::Rem, word),
        7 => muldiv(MulOp::Remu, word),
        _ => Op::Illegal(word),
    }
}

#[tactic(auto, using(crate::proofs::Opcodes::word_registers), unfolding(flex_base::specs::Decoding::rows))]
pub fn decode_word_register(word: u32) -> Op
    requires opcode { field 0 7 word ≡ 0x3b }
    ensures { result ≡ decoded word }
{
    match funct7(word) {
        0 => decode_base_word_register(word),
        1 => decode_word_muldiv(word),
        0x20 => decode_other_word_register(word),
        _ => Op::Illegal(word),
    }
}

#[tactic(auto, using(crate::proofs::Opcodes::word_registers), unfolding(flex_base::specs::Decoding::rows))]
fn decode_base_word_register(word: u32) -> Op
    requires opcode { field 0 7 word ≡ 0x3b }
    requires funct7 { field 25 7 word ≡ 0x00 }
    ensures { result ≡ decoded word }
{
    match funct3(word) {
        0 => register(AluOp::Addw, word),
        1 => register(AluOp::Sllw, word),
        5 => register(AluOp::Srlw, word),
        _ => Op::Illegal(word),
    }
}

#[tactic(auto, using(crate::proofs::Opcodes::word_registers), unfolding(flex_base::specs::Decoding::rows))]
fn decode_other_word_register(word: u32) -> Op
    requires opcode { field 0 7 word ≡ 0x3b }
    requires funct7 { field 25 7 word ≡ 0x20 }
    ensures { result ≡ decoded word }
{
    match funct3(word) {
        0 => register(AluOp::Subw, word),
        5 => register(AluOp::Sraw, word),
        _ => Op::Illegal(word),
    }
}

#[tactic(auto, using(crate::proofs::Opcodes::word_registers), unfolding(flex_base::specs::Decoding::rows))]
fn decode_word_muldiv(word: u32) -> Op
    requires opcode { field 0 7 word ≡ 0x3b }
    requires funct7 { field 25 7 word ≡ 0x01 }
    ensures { result ≡ decoded word }
{
    match funct3(word) {
        0 => muldiv(MulOp::Mulw, word),
        4 => muldiv(MulOp::Divw, word),
        5 => muldiv(MulOp::Divuw, word),
        6 => muldiv(MulOp::Remw, word),
        7 => muldiv(MulOp::Remuw, word),
        _ => Op::Illegal(word),
    }
}
