// The formats of instruction words (Volume I, "Base Instruction Formats").
ghost use Rattle.std.specs.Prelude.{◌≡◌, ◌<◌, ◌≤◌, ◌+◌};
ghost use Rattle.rv_decode.specs.Encoding as spec;

// So many bits of a value, from bit `from` on, put at bit `at` of the word.
fn placed(value: u64, from: u32, bits: u32, at: u32) -> u32
    requires from { from < 64 }
    requires within { (bits < 32) × (at < 32) × (at + bits ≤ 32) }
    ensures { result ≡ spec.placed value from bits at }
{
    ((value >> from & ((1 << bits) - 1)) as u32) << at
}

fn register(number: u8, at: u32) -> u32
    requires { at + 5 ≤ 32 }
    ensures { result ≡ spec.placed number 0 5 at }
{
    placed(number as u64, 0, 5, at)
}

pub fn r_type(opcode: u32, funct3: u32, funct7: u32, rd: u8, rs1: u8, rs2: u8) -> u32
    requires { opcode < 128 }
    ensures { result ≡ spec.r_type opcode funct3 funct7 rd rs1 rs2 }
{
    placed(funct7 as u64, 0, 7, 25)
        + register(rs2, 20)
        + register(rs1, 15)
        + placed(funct3 as u64, 0, 3, 12)
        + register(rd, 7)
        + opcode
}

pub fn i_type(opcode: u32, funct3: u32, rd: u8, rs1: u8, imm: u64) -> u32
    requires { opcode < 128 }
    ensures { result ≡ spec.i_type opcode funct3 rd rs1 imm }
{
    placed(imm, 0, 12, 20)
        + register(rs1, 15)
        + placed(funct3 as u64, 0, 3, 12)
        + register(rd, 7)
        + opcode
}

pub fn s_type(opcode: u32, funct3: u32, rs1: u8, rs2: u8, imm: u64) -> u32
    requires { opcode < 128 }
    ensures { result ≡ spec.s_type opcode funct3 rs1 rs2 imm }
{
    placed(imm, 5, 7, 25)
        + register(rs2, 20)
        + register(rs1, 15)
        + placed(funct3 as u64, 0, 3, 12)
        + placed(imm, 0, 5, 7)
        + opcode
}

pub fn b_type(opcode: u32, funct3: u32, rs1: u8, rs2: u8, imm: u64) -> u32
    requires { opcode < 128 }
    ensures { result ≡ spec.b_type opcode funct3 rs1 rs2 imm }
{
    placed(imm, 12, 1, 31)
        + placed(imm, 5, 6, 25)
        + register(rs2, 20)
        + register(rs1, 15)
        + placed(funct3 as u64, 0, 3, 12)
        + placed(imm, 1, 4, 8)
        + placed(imm, 11, 1, 7)
        + opcode
}

pub fn u_type(opcode: u32, rd: u8, imm: u64) -> u32
    requires { opcode < 128 }
    ensures { result ≡ spec.u_type opcode rd imm }
{
    placed(imm, 12, 20, 12) + register(rd, 7) + opcode
}

pub fn j_type(opcode: u32, rd: u8, imm: u64) -> u32
    requires { opcode < 128 }
    ensures { result ≡ spec.j_type opcode rd imm }
{
    placed(imm, 20, 1, 31)
        + placed(imm, 1, 10, 21)
        + placed(imm, 11, 1, 20)
        + placed(imm, 12, 8, 12)
        + register(rd, 7)
        + opcode
}

// FENCE and FENCE.I keep the bits that they leave open.
pub fn fence_type(funct3: u32, free: u32) -> u32
    ensures { result ≡ spec.fence_type funct3 free }
{
    placed(free as u64, 5, 17, 15)
        + placed(funct3 as u64, 0, 3, 12)
        + placed(free as u64, 0, 5, 7)
        + 0x0f
}
