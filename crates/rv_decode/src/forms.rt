// The operation of a word in each form of instruction, whatever its row.
ghost use Rattle.std.specs.Prelude.{◌≡◌};
ghost use Rattle.flex_base.specs.Decoding as form;

use crate::word::{
    aq, csr_number, free, immediate_b, immediate_i, immediate_j, immediate_s, immediate_u, rd, rl,
    rs1, rs2, shift_amount, word_shift_amount,
};
use flex_base::{AluOp, AmoOp, BranchOp, CsrOp, MulOp, Op};

pub fn lui(word: u32) -> Op
    ensures { result ≡ form.lui word }
{
    Op::Lui {
        rd: rd(word),
        imm: immediate_u(word),
    }
}

pub fn auipc(word: u32) -> Op
    ensures { result ≡ form.auipc word }
{
    Op::Auipc {
        rd: rd(word),
        imm: immediate_u(word),
    }
}

pub fn jal(word: u32) -> Op
    ensures { result ≡ form.jal word }
{
    Op::Jal {
        rd: rd(word),
        imm: immediate_j(word),
    }
}

pub fn jalr(word: u32) -> Op
    ensures { result ≡ form.jalr word }
{
    Op::Jalr {
        rd: rd(word),
        rs1: rs1(word),
        imm: immediate_i(word),
    }
}

pub fn branch(op: BranchOp, word: u32) -> Op
    ensures { result ≡ form.branch op word }
{
    Op::Branch {
        op,
        rs1: rs1(word),
        rs2: rs2(word),
        imm: immediate_b(word),
    }
}

pub fn load(width: u8, signed: bool, word: u32) -> Op
    ensures { result ≡ form.load width signed word }
{
    Op::Load {
        width,
        signed,
        rd: rd(word),
        rs1: rs1(word),
        imm: immediate_i(word),
    }
}

pub fn store(width: u8, word: u32) -> Op
    ensures { result ≡ form.store width word }
{
    Op::Store {
        width,
        rs1: rs1(word),
        rs2: rs2(word),
        imm: immediate_s(word),
    }
}

pub fn immediate(op: AluOp, word: u32) -> Op
    ensures { result ≡ form.immediate op word }
{
    Op::AluImm {
        op,
        rd: rd(word),
        rs1: rs1(word),
        imm: immediate_i(word),
    }
}

pub fn shift(op: AluOp, word: u32) -> Op
    ensures { result ≡ form.shift op word }
{
    Op::AluImm {
        op,
        rd: rd(word),
        rs1: rs1(word),
        imm: shift_amount(word),
    }
}

pub fn shift_word(op: AluOp, word: u32) -> Op
    ensures { result ≡ form.shift_word op word }
{
    Op::AluImm {
        op,
        rd: rd(word),
        rs1: rs1(word),
        imm: word_shift_amount(word),
    }
}

pub fn register(op: AluOp, word: u32) -> Op
    ensures { result ≡ form.register op word }
{
    Op::AluReg {
        op,
        rd: rd(word),
        rs1: rs1(word),
        rs2: rs2(word),
    }
}

pub fn muldiv(op: MulOp, word: u32) -> Op
    ensures { result ≡ form.muldiv op word }
{
    Op::Muldiv {
        op,
        rd: rd(word),
        rs1: rs1(word),
        rs2: rs2(word),
    }
}

pub fn lr(width: u8, word: u32) -> Op
    ensures { result ≡ form.lr width word }
{
    Op::Lr {
        width,
        rd: rd(word),
        rs1: rs1(word),
        aq: aq(word),
        rl: rl(word),
    }
}

pub fn sc(width: u8, word: u32) -> Op
    ensures { result ≡ form.sc width word }
{
    Op::Sc {
        width,
        rd: rd(word),
        rs1: rs1(word),
        rs2: rs2(word),
        aq: aq(word),
        rl: rl(word),
    }
}

pub fn amo(op: AmoOp, width: u8, word: u32) -> Op
    ensures { result ≡ form.atomic op width word }
{
    Op::Amo {
        op,
        width,
        rd: rd(word),
        rs1: rs1(word),
        rs2: rs2(word),
        aq: aq(word),
        rl: rl(word),
    }
}

pub fn fence(word: u32) -> Op
    ensures { result ≡ form.fence word }
{
    Op::Fence { free: free(word) }
}

pub fn fence_i(word: u32) -> Op
    ensures { result ≡ form.fence_i word }
{
    Op::FenceI { free: free(word) }
}

pub fn csr(op: CsrOp, word: u32) -> Op
    ensures { result ≡ form.csr op word }
{
    Op::Csr {
        op,
        rd: rd(word),
        rs1: rs1(word),
        number: csr_number(word),
    }
}

pub fn sfence_vma(word: u32) -> Op
    ensures { result ≡ form.sfence_vma word }
{
    Op::SfenceVma {
        rs1: rs1(word),
        rs2: rs2(word),
    }
}
