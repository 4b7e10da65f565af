/// What an integer instruction computes. The word forms end in `w`.
#[derive(Clone, Copy, Debug, PartialEq, Eq)]
pub enum AluOp {
    Add,
    Sub,
    Sll,
    Slt,
    Sltu,
    Xor,
    Srl,
    Sra,
    Or,
    And,
    Addw,
    Subw,
    Sllw,
    Srlw,
    Sraw,
}

/// What a multiplication or a division computes (Volume I, "M").
#[derive(Clone, Copy, Debug, PartialEq, Eq)]
pub enum MulOp {
    Mul,
    Mulh,
    Mulhsu,
    Mulhu,
    Div,
    Divu,
    Rem,
    Remu,
    Mulw,
    Divw,
    Divuw,
    Remw,
    Remuw,
}

/// What an atomic memory operation computes (Volume I, "A").
#[derive(Clone, Copy, Debug, PartialEq, Eq)]
pub enum AmoOp {
    Swap,
    Add,
    Xor,
    And,
    Or,
    Min,
    Max,
    Minu,
    Maxu,
}

/// What a conditional branch compares.
#[derive(Clone, Copy, Debug, PartialEq, Eq)]
pub enum BranchOp {
    Eq,
    Ne,
    Lt,
    Ge,
    Ltu,
    Geu,
}

/// What a CSR instruction does (Volume I, "Zicsr").
#[derive(Clone, Copy, Debug, PartialEq, Eq)]
pub enum CsrOp {
    Rw,
    Rs,
    Rc,
    Rwi,
    Rsi,
    Rci,
}

/// A decoded instruction.
///
/// An `imm` is sign-extended to 64 bits; in the shift forms of `AluImm` it is the shift amount.
/// `rd`, `rs1` and `rs2` are register numbers below 32; the `rs1` of `Csr` is the register's number
/// or the 5-bit immediate. `width` is in bytes. In `free`, bits 21:5 are bits 31:15 of the word,
/// and bits 4:0 are its bits 11:7.
#[derive(Clone, Copy, Debug, PartialEq, Eq)]
pub enum Op {
    Lui {
        rd: u8,
        imm: u64,
    },
    Auipc {
        rd: u8,
        imm: u64,
    },
    Jal {
        rd: u8,
        imm: u64,
    },
    Jalr {
        rd: u8,
        rs1: u8,
        imm: u64,
    },
    Branch {
        op: BranchOp,
        rs1: u8,
        rs2: u8,
        imm: u64,
    },
    Load {
        width: u8,
        signed: bool,
        rd: u8,
        rs1: u8,
        imm: u64,
    },
    Store {
        width: u8,
        rs1: u8,
        rs2: u8,
        imm: u64,
    },
    AluImm {
        op: AluOp,
        rd: u8,
        rs1: u8,
        imm: u64,
    },
    AluReg {
        op: AluOp,
        rd: u8,
        rs1: u8,
        rs2: u8,
    },
    Muldiv {
        op: MulOp,
        rd: u8,
        rs1: u8,
        rs2: u8,
    },
    Lr {
        width: u8,
        rd: u8,
        rs1: u8,
        aq: bool,
        rl: bool,
    },
    Sc {
        width: u8,
        rd: u8,
        rs1: u8,
        rs2: u8,
        aq: bool,
        rl: bool,
    },
    Amo {
        op: AmoOp,
        width: u8,
        rd: u8,
        rs1: u8,
        rs2: u8,
        aq: bool,
        rl: bool,
    },
    Fence {
        free: u32,
    },
    FenceI {
        free: u32,
    },
    Csr {
        op: CsrOp,
        rd: u8,
        rs1: u8,
        number: u16,
    },
    Ecall,
    Ebreak,
    Sret,
    Mret,
    Wfi,
    SfenceVma {
        rs1: u8,
        rs2: u8,
    },
    Illegal(u32),
}
