ghost use Rattle.std.specs.Prelude.{◌≡◌, ◌<◌, ◌^◌, ◌↔◌, ℕ, IsTrue};
ghost use Rattle.flex_base.specs.Decoding.{decoded, IsDecoding};
ghost use Rattle.rv_decode.specs.Encoding as spec;
ghost use Rattle.rv_decode.specs.Encoding.{encoded};

use crate::decoder::decode;
use crate::formats::{b_type, fence_type, i_type, j_type, r_type, s_type, u_type};
use crate::functs::{
    alu_funct3, alu_funct7, alu_immediate, alu_immediate_opcode, alu_opcode, amo_funct5,
    atomic_funct7, branch_funct3, csr_funct3, load_funct3, mul_funct3, mul_opcode, width_code,
};
use flex_base::Op;

/// The instruction word that this operation is the decoding of. There is exactly one; `is_op` tests
/// for it.
pub fn encode(op: &Op) -> u32
    requires { IsDecoding op.now }
    ensures back { decoded result ≡ op.now }
    ensures only { (word : ℕ) → word < 2 ^ 32 → decoded word ≡ op.now → result ≡ word }
{
    word_of(op)
}

/// Whether the operation is the decoding of some instruction word. A register number from 32 on, a
/// shift amount that is too large or an immediate that no word holds is in none.
pub fn is_op(op: &Op) -> bool
    ensures { IsTrue result ↔ IsDecoding op.now }
{
    decode(word_of(op)) == *op
}

// The only word that may decode to this operation.
#[rattlefmt::skip]
fn word_of(op: &Op) -> u32
    ensures { result ≡ encoded op.now }
{
    match *op {
        Op::Lui { rd, imm } => u_type(0x37, rd, imm),
        Op::Auipc { rd, imm } => u_type(0x17, rd, imm),
        Op::Jal { rd, imm } => j_type(0x6f, rd, imm),
        Op::Jalr { rd, rs1, imm } => i_type(0x67, 0, rd, rs1, imm),
        Op::Branch { op, rs1, rs2, imm } => b_type(0x63, branch_funct3(op), rs1, rs2, imm),
        Op::Load { width, signed, rd, rs1, imm } => i_type(0x03, load_funct3(width, signed), rd, rs1, imm),
        Op::Store { width, rs1, rs2, imm } => s_type(0x23, width_code(width), rs1, rs2, imm),
        Op::AluImm { op, rd, rs1, imm } => i_type(alu_immediate_opcode(op), alu_funct3(op), rd, rs1, alu_immediate(op, imm)),
        Op::AluReg { op, rd, rs1, rs2 } => r_type(alu_opcode(op), alu_funct3(op), alu_funct7(op), rd, rs1, rs2),
        Op::Muldiv { op, rd, rs1, rs2 } => r_type(mul_opcode(op), mul_funct3(op), 1, rd, rs1, rs2),
        Op::Lr { width, rd, rs1, aq, rl } => atomic_type(0x02, width, rd, rs1, 0, aq, rl),
        Op::Sc { width, rd, rs1, rs2, aq, rl } => atomic_type(0x03, width, rd, rs1, rs2, aq, rl),
        Op::Amo { op, width, rd, rs1, rs2, aq, rl } => atomic_type(amo_funct5(op), width, rd, rs1, rs2, aq, rl),
        Op::Fence { free } => fence_type(0, free),
        Op::FenceI { free } => fence_type(1, free),
        Op::Csr { op, rd, rs1, number } => i_type(0x73, csr_funct3(op), rd, rs1, number as u64),
        Op::Ecall => 0x0000_0073,
        Op::Ebreak => 0x0010_0073,
        Op::Sret => 0x1020_0073,
        Op::Mret => 0x3020_0073,
        Op::Wfi => 0x1050_0073,
        Op::SfenceVma { rs1, rs2 } => r_type(0x73, 0, 0x09, 0, rs1, rs2),
        Op::Illegal(word) => word,
    }
}

fn atomic_type(funct5: u32, width: u8, rd: u8, rs1: u8, rs2: u8, aq: bool, rl: bool) -> u32
    requires { funct5 < 32 }
    ensures { result ≡ spec.atomic_type funct5 width rd rs1 rs2 aq rl }
{
    r_type(
        0x2f,
        width_code(width),
        atomic_funct7(funct5, aq, rl),
        rd,
        rs1,
        rs2,
    )
}
