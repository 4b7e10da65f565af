// The CSR instructions, the calls, the returns from traps, WFI and SFENCE.VMA.
ghost use Rattle.std.specs.Prelude.{◌≡◌, ◌≢◌};
ghost use Rattle.flex_base.specs.Decoding.{decoded};
ghost use Rattle.flex_base.specs.Word.{field};

use crate::forms::{csr, sfence_vma};
use crate::word::{funct3, funct7, rd};
use flex_base::{CsrOp, Op};

#[tactic(auto, using(crate::proofs::Opcodes::systems), unfolding(flex_base::specs::Decoding::rows))]
pub fn decode_system(word: u32) -> Op
    requires opcode { field 0 7 word ≡ 0x73 }
    ensures { result ≡ decoded word }
{
    match funct3(word) {
        0 => decode_privileged(word),
        1 => csr(CsrOp::Rw, word),
        2 => csr(CsrOp::Rs, word),
        3 => csr(CsrOp::Rc, word),
        5 => csr(CsrOp::Rwi, word),
        6 => csr(CsrOp::Rsi, word),
        7 => csr(CsrOp::Rci, word),
        _ => Op::Illegal(word),
    }
}

#[tactic(auto, using(crate::proofs::Opcodes::privileged), unfolding(flex_base::specs::Decoding::rows))]
fn decode_privileged(word: u32) -> Op
    requires opcode { field 0 7 word ≡ 0x73 }
    requires funct3 { field 12 3 word ≡ 0 }
    ensures { result ≡ decoded word }
{
    match word {
        0x0000_0073 => Op::Ecall,
        0x0010_0073 => Op::Ebreak,
        0x1020_0073 => Op::Sret,
        0x3020_0073 => Op::Mret,
        0x1050_0073 => Op::Wfi,
        _ => decode_sfence_vma(word),
    }
}

#[tactic(auto, using(crate::proofs::Opcodes::privileged), unfolding(flex_base::specs::Decoding::rows))]
fn decode_sfence_vma(word: u32) -> Op
    requires opcode { field 0 7 word ≡ 0x73 }
    requires funct3 { field 12 3 word ≡ 0 }
    requires whole { (word ≢ 0x00000073) × (word ≢ 0x00100073) × (word ≢ 0x10200073) × (word ≢ 0x30200073)
        × (word ≢ 0x10500073) }
    ensures { result ≡ decoded word }
{
    match funct7(word) {
        0x09 => match rd(word) {
            0 => sfence_vma(word),
            _ => Op::Illegal(word),
        },
        _ => Op::Illegal(word),
    }
}
