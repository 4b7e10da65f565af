// The fields and the immediates of an instruction word (Volume I, "Immediate Encoding Variants").
ghost use Rattle.std.specs.Prelude.{◌≡◌, ◌<◌, ◌≤◌, ◌^◌};
ghost use Rattle.flex_base.specs.Decoding.{rd_of, rs1_of, rs2_of, csr_of, aq_of, rl_of, free_of, shift_of, word_shift_of, imm_i, imm_s, imm_b, imm_u, imm_j};
ghost use Rattle.flex_base.specs.Word.{field, sign_extend};

// The field of so many bits that begins at bit `at`.
pub fn field(word: u32, at: u32, bits: u32) -> u32
    requires { (at < 32) × (bits < 32) }
    ensures { result ≡ field at bits word }
{
    word >> at & ((1 << bits) - 1)
}

pub fn opcode(word: u32) -> u32
    ensures { result ≡ field 0 7 word }
{
    field(word, 0, 7)
}

pub fn funct3(word: u32) -> u32
    ensures { result ≡ field 12 3 word }
{
    field(word, 12, 3)
}

pub fn funct7(word: u32) -> u32
    ensures { result ≡ field 25 7 word }
{
    field(word, 25, 7)
}

pub fn rd(word: u32) -> u8
    ensures { result ≡ rd_of word }
{
    field(word, 7, 5) as u8
}

pub fn rs1(word: u32) -> u8
    ensures { result ≡ rs1_of word }
{
    field(word, 15, 5) as u8
}

pub fn rs2(word: u32) -> u8
    ensures { result ≡ rs2_of word }
{
    field(word, 20, 5) as u8
}

pub fn csr_number(word: u32) -> u16
    ensures { result ≡ csr_of word }
{
    field(word, 20, 12) as u16
}

pub fn aq(word: u32) -> bool
    ensures { result ≡ aq_of word }
{
    field(word, 26, 1) == 1
}

pub fn rl(word: u32) -> bool
    ensures { result ≡ rl_of word }
{
    field(word, 25, 1) == 1
}

// The bits that FENCE and FENCE.I leave open.
pub fn free(word: u32) -> u32
    ensures { result ≡ free_of word }
{
    (field(word, 15, 17) << 5) + field(word, 7, 5)
}

pub fn shift_amount(word: u32) -> u64
    ensures { result ≡ shift_of word }
{
    field(word, 20, 6) as u64
}

pub fn word_shift_amount(word: u32) -> u64
    ensures { result ≡ word_shift_of word }
{
    field(word, 20, 5) as u64
}

#[tactic(auto, unfolding(flex_base::specs::Decoding::imm_i))]
pub fn immediate_i(word: u32) -> u64
    ensures { result ≡ imm_i word }
{
    sign_extended(12, field(word, 20, 12))
}

#[tactic(auto, unfolding(flex_base::specs::Decoding::imm_s))]
pub fn immediate_s(word: u32) -> u64
    ensures { result ≡ imm_s word }
{
    sign_extended(12, (field(word, 25, 7) << 5) + field(word, 7, 5))
}

#[tactic(auto, unfolding(flex_base::specs::Decoding::imm_b))]
pub fn immediate_b(word: u32) -> u64
    ensures { result ≡ imm_b word }
{
    let sign = field(word, 31, 1) << 12;
    let bit = field(word, 7, 1) << 11;
    let middle = field(word, 25, 6) << 5;
    let low = field(word, 8, 4) << 1;
    sign_extended(13, sign + bit + middle + low)
}

#[tactic(auto, unfolding(flex_base::specs::Decoding::imm_u))]
pub fn immediate_u(word: u32) -> u64
    ensures { result ≡ imm_u word }
{
    sign_extended(32, field(word, 12, 20) << 12)
}

#[tactic(auto, unfolding(flex_base::specs::Decoding::imm_j))]
pub fn immediate_j(word: u32) -> u64
    ensures { result ≡ imm_j word }
{
    let sign = field(word, 31, 1) << 20;
    let middle = field(word, 12, 8) << 12;
    let bit = field(word, 20, 1) << 11;
    let low = field(word, 21, 10) << 1;
    sign_extended(21, sign + middle + bit + low)
}

// The 64-bit value of a two's complement number of so many bits.
fn sign_extended(bits: u32, value: u32) -> u64
    requires bits { (0 < bits) × (bits ≤ 32) }
    requires fits { value < 2 ^ bits }
    ensures { result ≡ sign_extend bits value }
{
    let value = value as u64;
    if value < 1 << (bits - 1) {
        value
    } else {
        value + (u64::MAX - ((1 << bits) - 1))
    }
}
