// The numbers that tell the instructions apart: opcode, funct3, funct5, funct7.
ghost use Rattle.std.specs.Prelude.{◌≡◌, ◌<◌};
ghost use Rattle.rv_decode.specs.Encoding as spec;

use flex_base::{AluOp, AmoOp, BranchOp, CsrOp, MulOp};

pub fn branch_funct3(op: BranchOp) -> u32
    ensures { result ≡ spec.branch_funct3 op }
{
    match op {
        BranchOp::Eq => 0,
        BranchOp::Ne => 1,
        BranchOp::Lt => 4,
        BranchOp::Ge => 5,
        BranchOp::Ltu => 6,
        BranchOp::Geu => 7,
    }
}

// The base 2 logarithm of a width in bytes.
pub fn width_code(width: u8) -> u32
    ensures { result ≡ spec.width_code width }
{
    match width {
        1 => 0,
        2 => 1,
        4 => 2,
        _ => 3,
    }
}

pub fn load_funct3(width: u8, signed: bool) -> u32
    ensures { result ≡ spec.load_funct3 width signed }
{
    if signed {
        width_code(width)
    } else {
        width_code(width) + 4
    }
}

// The opcode with an immediate: the word forms have one of their own.
pub fn alu_immediate_opcode(op: AluOp) -> u32
    ensures { result ≡ spec.alu_immediate_opcode op }
{
    match op {
        AluOp::Addw | AluOp::Subw | AluOp::Sllw | AluOp::Srlw | AluOp::Sraw => 0x1b,
        _ => 0x13,
    }
}

// The opcode between registers.
pub fn alu_opcode(op: AluOp) -> u32
    ensures { result ≡ spec.alu_opcode op }
{
    match op {
        AluOp::Addw | AluOp::Subw | AluOp::Sllw | AluOp::Srlw | AluOp::Sraw => 0x3b,
        _ => 0x33,
    }
}

pub fn alu_funct3(op: AluOp) -> u32
    ensures { result ≡ spec.alu_funct3 op }
{
    match op {
        AluOp::Add | AluOp::Sub | AluOp::Addw | AluOp::Subw => 0,
        AluOp::Sll | AluOp::Sllw => 1,
        AluOp::Slt => 2,
        AluOp::Sltu => 3,
        AluOp::Xor => 4,
        AluOp::Srl | AluOp::Sra | AluOp::Srlw | AluOp::Sraw => 5,
        AluOp::Or => 6,
        AluOp::And => 7,
    }
}

pub fn alu_funct7(op: AluOp) -> u32
    ensures { result ≡ spec.alu_funct7 op }
{
    match op {
        AluOp::Sub | AluOp::Sra | AluOp::Subw | AluOp::Sraw => 0x20,
        _ => 0,
    }
}

// The immediate's 12 bits: a shift has its amount below, and bit 10 where it is arithmetic.
pub fn alu_immediate(op: AluOp, imm: u64) -> u64
    ensures { result ≡ spec.alu_immediate op imm }
{
    match op {
        AluOp::Sll | AluOp::Srl => imm & 0x3f,
        AluOp::Sra => (imm & 0x3f) + 0x400,
        AluOp::Sllw | AluOp::Srlw => imm & 0x1f,
        AluOp::Sraw => (imm & 0x1f) + 0x400,
        _ => imm,
    }
}

pub fn mul_opcode(op: MulOp) -> u32
    ensures { result ≡ spec.mul_opcode op }
{
    match op {
        MulOp::Mulw | MulOp::Divw | MulOp::Divuw | MulOp::Remw | MulOp::Remuw => 0x3b,
        _ => 0x33,
    }
}

pub fn mul_funct3(op: MulOp) -> u32
    ensures { result ≡ spec.mul_funct3 op }
{
    match op {
        MulOp::Mul | MulOp::Mulw => 0,
        MulOp::Mulh => 1,
        MulOp::Mulhsu => 2,
        MulOp::Mulhu => 3,
        MulOp::Div | MulOp::Divw => 4,
        MulOp::Divu | MulOp::Divuw => 5,
        MulOp::Rem | MulOp::Remw => 6,
        MulOp::Remu | MulOp::Remuw => 7,
    }
}

pub fn amo_funct5(op: AmoOp) -> u32
    ensures { result ≡ spec.amo_funct5 op }
{
    match op {
        AmoOp::Swap => 0x01,
        AmoOp::Add => 0x00,
        AmoOp::Xor => 0x04,
        AmoOp::And => 0x0c,
        AmoOp::Or => 0x08,
        AmoOp::Min => 0x10,
        AmoOp::Max => 0x14,
        AmoOp::Minu => 0x18,
        AmoOp::Maxu => 0x1c,
    }
}

pub fn csr_funct3(op: CsrOp) -> u32
    ensures { result ≡ spec.csr_funct3 op }
{
    match op {
        CsrOp::Rw => 1,
        CsrOp::Rs => 2,
        CsrOp::Rc => 3,
        CsrOp::Rwi => 5,
        CsrOp::Rsi => 6,
        CsrOp::Rci => 7,
    }
}

pub fn atomic_funct7(funct5: u32, aq: bool, rl: bool) -> u32
    requires { funct5 < 32 }
    ensures { result ≡ spec.atomic_funct7 funct5 aq rl }
{
    funct5 * 4 + aq as u32 * 2 + rl as u32
}
