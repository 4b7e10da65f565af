use super::*;
use flex_base::{AluOp, AmoOp, BranchOp, Class, CsrOp, MulOp, Op};

// Each row of the listing at least once, as an assembler spells it, and words that are no instruction.

#[rattlefmt::skip]
#[test]
fn jumps_loads_and_stores(rt: HostRuntime) {
    let cases = [
        (0x12345537, Op::Lui { rd: 10, imm: 0x1234_5000 }), // lui a0, 0x12345
        (0x800000b7, Op::Lui { rd: 1, imm: 0xffff_ffff_8000_0000 }), // lui ra, 0x80000
        (0xfffff517, Op::Auipc { rd: 10, imm: 0xffff_ffff_ffff_f000 }), // auipc a0, 0xfffff
        (0x0000006f, Op::Jal { rd: 0, imm: 0 }), // jal zero, 0
        (0xffdff0ef, Op::Jal { rd: 1, imm: 0xffff_ffff_ffff_fffc }), // jal ra, -4
        (0x001002ef, Op::Jal { rd: 5, imm: 0x800 }), // jal t0, 2048
        (0x0000106f, Op::Jal { rd: 0, imm: 0x1000 }), // jal zero, 4096
        (0x8000006f, Op::Jal { rd: 0, imm: 0xffff_ffff_fff0_0000 }), // jal zero, -1048576
        (0xff8280e7, Op::Jalr { rd: 1, rs1: 5, imm: 0xffff_ffff_ffff_fff8 }), // jalr ra, -8(t0)
        (0x80b50063, Op::Branch { op: BranchOp::Eq, rs1: 10, rs2: 11, imm: 0xffff_ffff_ffff_f000 }), // beq a0, a1, -4096
        (0x00b510e3, Op::Branch { op: BranchOp::Ne, rs1: 10, rs2: 11, imm: 0x800 }), // bne a0, a1, 2048
        (0xfeb54fe3, Op::Branch { op: BranchOp::Lt, rs1: 10, rs2: 11, imm: 0xffff_ffff_ffff_fffe }), // blt a0, a1, -2
        (0x00b55863, Op::Branch { op: BranchOp::Ge, rs1: 10, rs2: 11, imm: 16 }), // bge a0, a1, 16
        (0x40b56063, Op::Branch { op: BranchOp::Ltu, rs1: 10, rs2: 11, imm: 0x400 }), // bltu a0, a1, 1024
        (0x7eb57fe3, Op::Branch { op: BranchOp::Geu, rs1: 10, rs2: 11, imm: 0xffe }), // bgeu a0, a1, 4094
        (0xffc10503, Op::Load { width: 1, signed: true, rd: 10, rs1: 2, imm: 0xffff_ffff_ffff_fffc }), // lb a0, -4(sp)
        (0xffc11503, Op::Load { width: 2, signed: true, rd: 10, rs1: 2, imm: 0xffff_ffff_ffff_fffc }), // lh a0, -4(sp)
        (0xffc12503, Op::Load { width: 4, signed: true, rd: 10, rs1: 2, imm: 0xffff_ffff_ffff_fffc }), // lw a0, -4(sp)
        (0xffc13503, Op::Load { width: 8, signed: true, rd: 10, rs1: 2, imm: 0xffff_ffff_ffff_fffc }), // ld a0, -4(sp)
        (0xffc14503, Op::Load { width: 1, signed: false, rd: 10, rs1: 2, imm: 0xffff_ffff_ffff_fffc }), // lbu a0, -4(sp)
        (0xffc15503, Op::Load { width: 2, signed: false, rd: 10, rs1: 2, imm: 0xffff_ffff_ffff_fffc }), // lhu a0, -4(sp)
        (0xffc16503, Op::Load { width: 4, signed: false, rd: 10, rs1: 2, imm: 0xffff_ffff_ffff_fffc }), // lwu a0, -4(sp)
        (0xfcb10e23, Op::Store { width: 1, rs1: 2, rs2: 11, imm: 0xffff_ffff_ffff_ffdc }), // sb a1, -36(sp)
        (0xfcb11e23, Op::Store { width: 2, rs1: 2, rs2: 11, imm: 0xffff_ffff_ffff_ffdc }), // sh a1, -36(sp)
        (0xfcb12e23, Op::Store { width: 4, rs1: 2, rs2: 11, imm: 0xffff_ffff_ffff_ffdc }), // sw a1, -36(sp)
        (0xfcb13e23, Op::Store { width: 8, rs1: 2, rs2: 11, imm: 0xffff_ffff_ffff_ffdc }), // sd a1, -36(sp)
    ];
    for (word, op) in cases {
        assert_eq!(rt; decode(word), op);
        assert_eq!(rt; encode(&decode(word)), word);
        assert!(rt; is_op(&op));
    }
}

#[rattlefmt::skip]
#[test]
fn integer_operations(rt: HostRuntime) {
    let cases = [
        (0x00700293, Op::AluImm { op: AluOp::Add, rd: 5, rs1: 0, imm: 7 }), // addi t0, zero, 7
        (0xfff58513, Op::AluImm { op: AluOp::Add, rd: 10, rs1: 11, imm: 0xffff_ffff_ffff_ffff }), // addi a0, a1, -1
        (0xfff5a513, Op::AluImm { op: AluOp::Slt, rd: 10, rs1: 11, imm: 0xffff_ffff_ffff_ffff }), // slti a0, a1, -1
        (0xfff5b513, Op::AluImm { op: AluOp::Sltu, rd: 10, rs1: 11, imm: 0xffff_ffff_ffff_ffff }), // sltiu a0, a1, -1
        (0xfff5c513, Op::AluImm { op: AluOp::Xor, rd: 10, rs1: 11, imm: 0xffff_ffff_ffff_ffff }), // xori a0, a1, -1
        (0xfff5e513, Op::AluImm { op: AluOp::Or, rd: 10, rs1: 11, imm: 0xffff_ffff_ffff_ffff }), // ori a0, a1, -1
        (0xfff5f513, Op::AluImm { op: AluOp::And, rd: 10, rs1: 11, imm: 0xffff_ffff_ffff_ffff }), // andi a0, a1, -1
        (0xfff5851b, Op::AluImm { op: AluOp::Addw, rd: 10, rs1: 11, imm: 0xffff_ffff_ffff_ffff }), // addiw a0, a1, -1
        (0x03f59513, Op::AluImm { op: AluOp::Sll, rd: 10, rs1: 11, imm: 63 }), // slli a0, a1, 63
        (0x03f5d513, Op::AluImm { op: AluOp::Srl, rd: 10, rs1: 11, imm: 63 }), // srli a0, a1, 63
        (0x43f5d513, Op::AluImm { op: AluOp::Sra, rd: 10, rs1: 11, imm: 63 }), // srai a0, a1, 63
        (0x01f5951b, Op::AluImm { op: AluOp::Sllw, rd: 10, rs1: 11, imm: 31 }), // slliw a0, a1, 31
        (0x01f5d51b, Op::AluImm { op: AluOp::Srlw, rd: 10, rs1: 11, imm: 31 }), // srliw a0, a1, 31
        (0x41f5d51b, Op::AluImm { op: AluOp::Sraw, rd: 10, rs1: 11, imm: 31 }), // sraiw a0, a1, 31
        (0x00c58533, Op::AluReg { op: AluOp::Add, rd: 10, rs1: 11, rs2: 12 }), // add a0, a1, a2
        (0x40c58533, Op::AluReg { op: AluOp::Sub, rd: 10, rs1: 11, rs2: 12 }), // sub a0, a1, a2
        (0x00c59533, Op::AluReg { op: AluOp::Sll, rd: 10, rs1: 11, rs2: 12 }), // sll a0, a1, a2
        (0x00c5a533, Op::AluReg { op: AluOp::Slt, rd: 10, rs1: 11, rs2: 12 }), // slt a0, a1, a2
        (0x00c5b533, Op::AluReg { op: AluOp::Sltu, rd: 10, rs1: 11, rs2: 12 }), // sltu a0, a1, a2
        (0x00c5c533, Op::AluReg { op: AluOp::Xor, rd: 10, rs1: 11, rs2: 12 }), // xor a0, a1, a2
        (0x00c5d533, Op::AluReg { op: AluOp::Srl, rd: 10, rs1: 11, rs2: 12 }), // srl a0, a1, a2
        (0x40c5d533, Op::AluReg { op: AluOp::Sra, rd: 10, rs1: 11, rs2: 12 }), // sra a0, a1, a2
        (0x00c5e533, Op::AluReg { op: AluOp::Or, rd: 10, rs1: 11, rs2: 12 }), // or a0, a1, a2
        (0x00c5f533, Op::AluReg { op: AluOp::And, rd: 10, rs1: 11, rs2: 12 }), // and a0, a1, a2
        (0x00c5853b, Op::AluReg { op: AluOp::Addw, rd: 10, rs1: 11, rs2: 12 }), // addw a0, a1, a2
        (0x40c5853b, Op::AluReg { op: AluOp::Subw, rd: 10, rs1: 11, rs2: 12 }), // subw a0, a1, a2
        (0x00c5953b, Op::AluReg { op: AluOp::Sllw, rd: 10, rs1: 11, rs2: 12 }), // sllw a0, a1, a2
        (0x00c5d53b, Op::AluReg { op: AluOp::Srlw, rd: 10, rs1: 11, rs2: 12 }), // srlw a0, a1, a2
        (0x40c5d53b, Op::AluReg { op: AluOp::Sraw, rd: 10, rs1: 11, rs2: 12 }), // sraw a0, a1, a2
    ];
    for (word, op) in cases {
        assert_eq!(rt; decode(word), op);
        assert_eq!(rt; encode(&decode(word)), word);
        assert!(rt; is_op(&op));
    }
}

#[rattlefmt::skip]
#[test]
fn multiplications_and_atomics(rt: HostRuntime) {
    let cases = [
        (0x02c58533, Op::Muldiv { op: MulOp::Mul, rd: 10, rs1: 11, rs2: 12 }), // mul a0, a1, a2
        (0x02c59533, Op::Muldiv { op: MulOp::Mulh, rd: 10, rs1: 11, rs2: 12 }), // mulh a0, a1, a2
        (0x02c5a533, Op::Muldiv { op: MulOp::Mulhsu, rd: 10, rs1: 11, rs2: 12 }), // mulhsu a0, a1, a2
        (0x02c5b533, Op::Muldiv { op: MulOp::Mulhu, rd: 10, rs1: 11, rs2: 12 }), // mulhu a0, a1, a2
        (0x02c5c533, Op::Muldiv { op: MulOp::Div, rd: 10, rs1: 11, rs2: 12 }), // div a0, a1, a2
        (0x02c5d533, Op::Muldiv { op: MulOp::Divu, rd: 10, rs1: 11, rs2: 12 }), // divu a0, a1, a2
        (0x02c5e533, Op::Muldiv { op: MulOp::Rem, rd: 10, rs1: 11, rs2: 12 }), // rem a0, a1, a2
        (0x02c5f533, Op::Muldiv { op: MulOp::Remu, rd: 10, rs1: 11, rs2: 12 }), // remu a0, a1, a2
        (0x02c5853b, Op::Muldiv { op: MulOp::Mulw, rd: 10, rs1: 11, rs2: 12 }), // mulw a0, a1, a2
        (0x02c5c53b, Op::Muldiv { op: MulOp::Divw, rd: 10, rs1: 11, rs2: 12 }), // divw a0, a1, a2
        (0x02c5d53b, Op::Muldiv { op: MulOp::Divuw, rd: 10, rs1: 11, rs2: 12 }), // divuw a0, a1, a2
        (0x02c5e53b, Op::Muldiv { op: MulOp::Remw, rd: 10, rs1: 11, rs2: 12 }), // remw a0, a1, a2
        (0x02c5f53b, Op::Muldiv { op: MulOp::Remuw, rd: 10, rs1: 11, rs2: 12 }), // remuw a0, a1, a2
        (0x1000a12f, Op::Lr { width: 4, rd: 2, rs1: 1, aq: false, rl: false }), // lr.w sp, (ra)
        (0x1400b12f, Op::Lr { width: 8, rd: 2, rs1: 1, aq: true, rl: false }), // lr.d.aq sp, (ra)
        (0x18b6252f, Op::Sc { width: 4, rd: 10, rs1: 12, rs2: 11, aq: false, rl: false }), // sc.w a0, a1, (a2)
        (0x1ab6352f, Op::Sc { width: 8, rd: 10, rs1: 12, rs2: 11, aq: false, rl: true }), // sc.d.rl a0, a1, (a2)
        (0x0eb6252f, Op::Amo { op: AmoOp::Swap, width: 4, rd: 10, rs1: 12, rs2: 11, aq: true, rl: true }), // amoswap.w.aqrl a0, a1, (a2)
        (0x06b6252f, Op::Amo { op: AmoOp::Add, width: 4, rd: 10, rs1: 12, rs2: 11, aq: true, rl: true }), // amoadd.w.aqrl a0, a1, (a2)
        (0x26b6252f, Op::Amo { op: AmoOp::Xor, width: 4, rd: 10, rs1: 12, rs2: 11, aq: true, rl: true }), // amoxor.w.aqrl a0, a1, (a2)
        (0x66b6252f, Op::Amo { op: AmoOp::And, width: 4, rd: 10, rs1: 12, rs2: 11, aq: true, rl: true }), // amoand.w.aqrl a0, a1, (a2)
        (0x46b6252f, Op::Amo { op: AmoOp::Or, width: 4, rd: 10, rs1: 12, rs2: 11, aq: true, rl: true }), // amoor.w.aqrl a0, a1, (a2)
        (0x86b6252f, Op::Amo { op: AmoOp::Min, width: 4, rd: 10, rs1: 12, rs2: 11, aq: true, rl: true }), // amomin.w.aqrl a0, a1, (a2)
        (0xa6b6252f, Op::Amo { op: AmoOp::Max, width: 4, rd: 10, rs1: 12, rs2: 11, aq: true, rl: true }), // amomax.w.aqrl a0, a1, (a2)
        (0xc6b6252f, Op::Amo { op: AmoOp::Minu, width: 4, rd: 10, rs1: 12, rs2: 11, aq: true, rl: true }), // amominu.w.aqrl a0, a1, (a2)
        (0xe6b6252f, Op::Amo { op: AmoOp::Maxu, width: 4, rd: 10, rs1: 12, rs2: 11, aq: true, rl: true }), // amomaxu.w.aqrl a0, a1, (a2)
        (0x08b6352f, Op::Amo { op: AmoOp::Swap, width: 8, rd: 10, rs1: 12, rs2: 11, aq: false, rl: false }), // amoswap.d a0, a1, (a2)
        (0xe0b6352f, Op::Amo { op: AmoOp::Maxu, width: 8, rd: 10, rs1: 12, rs2: 11, aq: false, rl: false }), // amomaxu.d a0, a1, (a2)
    ];
    for (word, op) in cases {
        assert_eq!(rt; decode(word), op);
        assert_eq!(rt; encode(&decode(word)), word);
        assert!(rt; is_op(&op));
    }
}

#[rattlefmt::skip]
#[test]
fn system_instructions(rt: HostRuntime) {
    let cases = [
        (0x0310000f, Op::Fence { free: 0xc400 }), // fence rw, w
        (0x0000100f, Op::FenceI { free: 0 }), // fence.i
        (0x30009073, Op::Csr { op: CsrOp::Rw, rd: 0, rs1: 1, number: 0x300 }), // csrrw zero, mstatus, ra
        (0xf1402573, Op::Csr { op: CsrOp::Rs, rd: 10, rs1: 0, number: 0xf14 }), // csrrs a0, mhartid, zero
        (0x1445b573, Op::Csr { op: CsrOp::Rc, rd: 10, rs1: 11, number: 0x144 }), // csrrc a0, sip, a1
        (0x3041d073, Op::Csr { op: CsrOp::Rwi, rd: 0, rs1: 3, number: 0x304 }), // csrrwi zero, mie, 3
        (0x30046073, Op::Csr { op: CsrOp::Rsi, rd: 0, rs1: 8, number: 0x300 }), // csrrsi zero, mstatus, 8
        (0x300ff573, Op::Csr { op: CsrOp::Rci, rd: 10, rs1: 31, number: 0x300 }), // csrrci a0, mstatus, 31
        (0x00000073, Op::Ecall), // ecall
        (0x00100073, Op::Ebreak), // ebreak
        (0x10200073, Op::Sret), // sret
        (0x30200073, Op::Mret), // mret
        (0x10500073, Op::Wfi), // wfi
        (0x12b50073, Op::SfenceVma { rs1: 10, rs2: 11 }), // sfence.vma a0, a1
        (0x8330808f, Op::Fence { free: 0x20_cc21 }), // fence.tso, with rd and rs1
        (0x0000108f, Op::FenceI { free: 1 }), // fence.i, with rd
    ];
    for (word, op) in cases {
        assert_eq!(rt; decode(word), op);
        assert_eq!(rt; encode(&decode(word)), word);
        assert!(rt; is_op(&op));
    }
}

#[rattlefmt::skip]
#[test]
fn illegal_words(rt: HostRuntime) {
    let words = [
        0x00000000, // all zeros
        0xffffffff, // all ones
        0x1010a12f, // lr.w with rs2
        0x04051513, // slli by 64
        0x0205151b, // slliw by 32
        0x44055513, // srai by 64
        0x00001067, // jalr with funct3 1
        0x00002063, // a branch with funct3 2
        0x00007003, // a load with funct3 7
        0x00004023, // a store with funct3 4
        0x0000200f, // a fence with funct3 2
        0x40001033, // sll with funct7 0x20
        0x0200103b, // a word multiplication with funct3 1
        0x1000102f, // an atomic of 2 bytes
        0x2800202f, // an atomic with funct5 5
        0x00004073, // a system instruction with funct3 4
        0x00200073, // uret
        0x000000f3, // ecall with rd
        0x120000f3, // sfence.vma with rd
    ];
    for word in words {
        assert_eq!(rt; decode(word), Op::Illegal(word));
        assert_eq!(rt; encode(&decode(word)), word);
    }
}

#[rattlefmt::skip]
#[test]
fn no_word_has_them(rt: HostRuntime) {
    let ops = [
        Op::AluImm { op: AluOp::Sll, rd: 1, rs1: 1, imm: 64 },
        Op::AluImm { op: AluOp::Sraw, rd: 1, rs1: 1, imm: 32 },
        Op::AluImm { op: AluOp::Sub, rd: 1, rs1: 1, imm: 0 },
        Op::AluImm { op: AluOp::Add, rd: 1, rs1: 1, imm: 0x800 },
        Op::AluReg { op: AluOp::Add, rd: 32, rs1: 1, rs2: 1 },
        Op::Jal { rd: 1, imm: 1 },
        Op::Branch { op: BranchOp::Eq, rs1: 1, rs2: 1, imm: 0x1000 },
        Op::Lui { rd: 1, imm: 0x8000_0000 },
        Op::Load { width: 8, signed: false, rd: 1, rs1: 1, imm: 0 },
        Op::Store { width: 3, rs1: 1, rs2: 1, imm: 0 },
        Op::Lr { width: 1, rd: 1, rs1: 1, aq: false, rl: false },
        Op::Csr { op: CsrOp::Rw, rd: 1, rs1: 1, number: 0x1000 },
        Op::Fence { free: 0x40_0000 },
        Op::Illegal(0x0000_0073),
    ];
    for op in ops {
        assert!(rt; !is_op(&op));
    }
}

#[test]
fn classes(rt: HostRuntime) {
    let cases = [
        (0x0000_0013, Class::Alu),
        (0x0200_0033, Class::Muldiv),
        (0x0000_006f, Class::Jump),
        (0x0000_0063, Class::Jump),
        (0x0000_0003, Class::Load),
        (0x0000_0023, Class::Store),
        (0x1000_202f, Class::Atomic),
        (0x0000_000f, Class::Fence),
        (0x3000_1073, Class::Csr),
        (0x1050_0073, Class::System),
        (0x0000_0073, Class::Trap),
        (0x0000_0000, Class::Trap),
    ];
    for (word, class) in cases {
        assert_eq!(rt; class_of(&decode(word)), class);
    }
}
