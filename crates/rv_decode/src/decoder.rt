ghost use Rattle.std.specs.Prelude.{◌≡◌, ◌≤◌, length};
ghost use Rattle.std.specs.List.{filter};
ghost use Rattle.flex_base.specs.Decoding.{decoded, fits_row, rows};
ghost use Rattle.flex_base.specs.Word.{field};

use crate::atomic::decode_atomic;
use crate::forms::{auipc, branch, fence, fence_i, jal, jalr, load, lui, store};
use crate::integer::{
    decode_immediate, decode_register, decode_word_immediate, decode_word_register,
};
use crate::system::decode_system;
use crate::word::{funct3, opcode};
use flex_base::{BranchOp, Op};

/// The operation of the row that the word matches, with its fields; `Illegal` where no row matches
/// (Volume I, "RV32/64G Instruction Set Listings").
#[tactic(auto, using(crate::proofs::Opcodes::opcodes, crate::proofs::OneRow::one_row), unfolding(flex_base::specs::Decoding::rows))]
pub fn decode(word: u32) -> Op
    ensures meaning { result ≡ decoded word }
    // no word fits two rows, so the order of the rows means nothing
    ensures one_row { length (filter (fits_row word) rows) ≤ 1 }
{
    match opcode(word) {
        0x03 => decode_load(word),
        0x0f => decode_fence(word),
        0x13 => decode_immediate(word),
        0x17 => auipc(word),
        0x1b => decode_word_immediate(word),
        0x23 => decode_store(word),
        0x2f => decode_atomic(word),
        0x33 => decode_register(word),
        0x37 => lui(word),
        0x3b => decode_word_register(word),
        0x63 => decode_branch(word),
        0x67 => decode_jalr(word),
        0x6f => jal(word),
        0x73 => decode_system(word),
        _ => Op::Illegal(word),
    }
}

#[tactic(auto, using(crate::proofs::Opcodes::loads), unfolding(flex_base::specs::Decoding::rows))]
fn decode_load(word: u32) -> Op
    requires opcode { field 0 7 word ≡ 0x03 }
    ensures { result ≡ decoded word }
{
    match funct3(word) {
        0 => load(1, true, word),
        1 => load(2, true, word),
        2 => load(4, true, word),
        3 => load(8, true, word),
        4 => load(1, false, word),
        5 => load(2, false, word),
        6 => load(4, false, word),
        _ => Op::Illegal(word),
    }
}

#[tactic(auto, using(crate::proofs::Opcodes::stores), unfolding(flex_base::specs::Decoding::rows))]
fn decode_store(word: u32) -> Op
    requires opcode { field 0 7 word ≡ 0x23 }
    ensures { result ≡ decoded word }
{
    match funct3(word) {
        0 => store(1, word),
        1 => store(2, word),
        2 => store(4, word),
        3 => store(8, word),
        _ => Op::Illegal(word),
    }
}

#[tactic(auto, using(crate::proofs::Opcodes::branches), unfolding(flex_base::specs::Decoding::rows))]
fn decode_branch(word: u32) -> Op
    requires opcode { field 0 7 word ≡ 0x63 }
    ensures { result ≡ decoded word }
{
    match funct3(word) {
        0 => branch(BranchOp::Eq, word),
        1 => branch(BranchOp::Ne, word),
        4 => branch(BranchOp::Lt, word),
        5 => branch(BranchOp::Ge, word),
        6 => branch(BranchOp::Ltu, word),
        7 => branch(BranchOp::Geu, word),
        _ => Op::Illegal(word),
    }
}

#[tactic(auto, using(crate::proofs::Opcodes::jalrs), unfolding(flex_base::specs::Decoding::rows))]
fn decode_jalr(word: u32) -> Op
    requires opcode { field 0 7 word ≡ 0x67 }
    ensures { result ≡ decoded word }
{
    match funct3(word) {
        0 => jalr(word),
        _ => Op::Illegal(word),
    }
}

#[tactic(auto, using(crate::proofs::Opcodes::fences), unfolding(flex_base::specs::Decoding::rows))]
fn decode_fence(word: u32) -> Op
    requires opcode { field 0 7 word ≡ 0x0f }
    ensures { result ≡ decoded word }
{
    match funct3(word) {
        0 => fence(word),
        1 => fence_i(word),
        _ => Op::Illegal(word),
    }
}
