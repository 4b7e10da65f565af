// Known results, among them those of the manual's table on division by zero and overflow.
use super::{alu, amo, muldiv};
use flex_base::{AluOp, AmoOp, MulOp};

// Words of 64 bits: all bits set, which is -1, and the least and the greatest signed number.
const ONES: u64 = 0xffff_ffff_ffff_ffff;

const LEAST: u64 = 0x8000_0000_0000_0000;

const GREATEST: u64 = 0x7fff_ffff_ffff_ffff;

// Operation, two operands, result.
#[rattlefmt::skip]
const REGISTERS: [(AluOp, u64, u64, u64); 42] = [
    (AluOp::Add, ONES, 1, 0),
    (AluOp::Add, GREATEST, 1, LEAST),
    (AluOp::Add, 3, 7, 10),
    (AluOp::Sub, 0, 1, ONES),
    (AluOp::Sub, LEAST, 1, GREATEST),
    (AluOp::Sub, 7, 3, 4),
    (AluOp::Sll, 1, 63, LEAST),
    (AluOp::Sll, 0x2121_2121_2121_2121, 71, 0x9090_9090_9090_9080),
    (AluOp::Sll, LEAST, 1, 0),
    (AluOp::Slt, ONES, 0, 1),
    (AluOp::Slt, 0, ONES, 0),
    (AluOp::Slt, LEAST, GREATEST, 1),
    (AluOp::Slt, GREATEST, LEAST, 0),
    (AluOp::Slt, 5, 5, 0),
    (AluOp::Sltu, ONES, 0, 0),
    (AluOp::Sltu, 0, ONES, 1),
    (AluOp::Sltu, GREATEST, LEAST, 1),
    (AluOp::Sltu, 5, 5, 0),
    (AluOp::Xor, 0xff00_ff00, 0xf0f_0f0f, 0xf00f_f00f),
    (AluOp::Srl, LEAST, 63, 1),
    (AluOp::Srl, 0x2121_2121_2121_2121, 71, 0x0042_4242_4242_4242),
    (AluOp::Sra, LEAST, 63, ONES),
    (AluOp::Sra, LEAST, 71, 0xff00_0000_0000_0000),
    (AluOp::Sra, GREATEST, 7, 0x00ff_ffff_ffff_ffff),
    (AluOp::Sra, ONES, 0, ONES),
    (AluOp::Or, 0xff00_ff00, 0xf0f_0f0f, 0xff0f_ff0f),
    (AluOp::And, 0xff00_ff00, 0xf0f_0f0f, 0xf00_0f00),
    (AluOp::Addw, 0x7fff_ffff, 1, 0xffff_ffff_8000_0000),
    (AluOp::Addw, ONES, 1, 0),
    (AluOp::Addw, 0x0000_0001_0000_0003, 0x0000_0002_0000_0004, 7),
    (AluOp::Subw, 0x8000_0000, 1, 0x7fff_ffff),
    (AluOp::Subw, 0, 1, ONES),
    (AluOp::Subw, 0x0000_0001_0000_0000, 0x8000_0000, 0xffff_ffff_8000_0000),
    (AluOp::Sllw, 1, 31, 0xffff_ffff_8000_0000),
    (AluOp::Sllw, 0x2121_2121, 46, 0x4848_4000),
    (AluOp::Sllw, 0xffff_ffff_0000_0001, 0, 1),
    (AluOp::Srlw, 0x8000_0000, 0, 0xffff_ffff_8000_0000),
    (AluOp::Srlw, 0x8000_0000, 31, 1),
    (AluOp::Srlw, 0xffff_ffff_2121_2121, 39, 0x42_4242),
    (AluOp::Sraw, 0x8000_0000, 31, ONES),
    (AluOp::Sraw, 0x8000_0000, 39, 0xffff_ffff_ff00_0000),
    (AluOp::Sraw, 0xffff_ffff_7fff_ffff, 7, 0xff_ffff),
];

// Operation, two operands, result.
#[rattlefmt::skip]
const PRODUCTS: [(MulOp, u64, u64, u64); 51] = [
    (MulOp::Mul, ONES, ONES, 1),
    (MulOp::Mul, LEAST, 2, 0),
    (MulOp::Mul, 0x7e00, 0x6db6_db6d_b6db_6db7, 0x1200),
    (MulOp::Mulh, ONES, ONES, 0),
    (MulOp::Mulh, LEAST, LEAST, 0x4000_0000_0000_0000),
    (MulOp::Mulh, LEAST, ONES, 0),
    (MulOp::Mulh, ONES, 1, ONES),
    (MulOp::Mulh, GREATEST, GREATEST, 0x3fff_ffff_ffff_ffff),
    (MulOp::Mulhsu, ONES, ONES, ONES),
    (MulOp::Mulhsu, LEAST, LEAST, 0xc000_0000_0000_0000),
    (MulOp::Mulhsu, LEAST, ONES, LEAST),
    (MulOp::Mulhsu, ONES, 1, ONES),
    (MulOp::Mulhsu, 1, ONES, 0),
    (MulOp::Mulhu, ONES, ONES, 0xffff_ffff_ffff_fffe),
    (MulOp::Mulhu, LEAST, LEAST, 0x4000_0000_0000_0000),
    (MulOp::Mulhu, LEAST, ONES, GREATEST),
    (MulOp::Mulhu, ONES, 1, 0),
    (MulOp::Div, LEAST, ONES, LEAST),
    (MulOp::Div, LEAST, 0, ONES),
    (MulOp::Div, 20, 0xffff_ffff_ffff_fffa, 0xffff_ffff_ffff_fffd),
    (MulOp::Div, 0xffff_ffff_ffff_ffec, 6, 0xffff_ffff_ffff_fffd),
    (MulOp::Div, 0xffff_ffff_ffff_ffec, 0xffff_ffff_ffff_fffa, 3),
    (MulOp::Rem, LEAST, ONES, 0),
    (MulOp::Rem, LEAST, 0, LEAST),
    (MulOp::Rem, 20, 0xffff_ffff_ffff_fffa, 2),
    (MulOp::Rem, 0xffff_ffff_ffff_ffec, 6, 0xffff_ffff_ffff_fffe),
    (MulOp::Rem, 0xffff_ffff_ffff_ffec, 0xffff_ffff_ffff_fffa, 0xffff_ffff_ffff_fffe),
    (MulOp::Divu, LEAST, ONES, 0),
    (MulOp::Divu, LEAST, 0, ONES),
    (MulOp::Divu, 0xffff_ffff_ffff_ffec, 6, 0x2aaa_aaaa_aaaa_aaa7),
    (MulOp::Remu, LEAST, ONES, LEAST),
    (MulOp::Remu, LEAST, 0, LEAST),
    (MulOp::Remu, 0xffff_ffff_ffff_ffec, 6, 2),
    (MulOp::Mulw, 0xffff_ffff, 0xffff_ffff, 1),
    (MulOp::Mulw, 0x4000_0000, 2, 0xffff_ffff_8000_0000),
    (MulOp::Mulw, 0x0000_0001_0000_0003, 0x0000_0002_0000_0005, 15),
    (MulOp::Divw, 0x8000_0000, ONES, 0xffff_ffff_8000_0000),
    (MulOp::Divw, 0x8000_0000, 0, ONES),
    (MulOp::Divw, 0x0000_0001_0000_0014, 0xffff_ffff_ffff_fffa, 0xffff_ffff_ffff_fffd),
    (MulOp::Divw, 1, 0x0000_0001_0000_0000, ONES),
    (MulOp::Remw, 0x8000_0000, ONES, 0),
    (MulOp::Remw, 0x8000_0000, 0, 0xffff_ffff_8000_0000),
    (MulOp::Remw, 0xffff_ffff_ffff_ffec, 6, 0xffff_ffff_ffff_fffe),
    (MulOp::Remw, 0xffff_ffff, 0x0000_0001_0000_0000, ONES),
    (MulOp::Divuw, 0x8000_0000, ONES, 0),
    (MulOp::Divuw, 0x8000_0000, 0, ONES),
    (MulOp::Divuw, 0xffff_ffff_ffff_ffec, 6, 0x2aaa_aaa7),
    (MulOp::Divuw, ONES, 1, ONES),
    (MulOp::Remuw, 0x8000_0000, ONES, 0xffff_ffff_8000_0000),
    (MulOp::Remuw, 0x8000_0000, 0, 0xffff_ffff_8000_0000),
    (MulOp::Remuw, 0xffff_ffff_ffff_ffec, 6, 2),
];

// Operation, old word, source register, width, new word.
#[rattlefmt::skip]
const ATOMICS: [(AmoOp, u64, u64, u8, u64); 37] = [
    (AmoOp::Swap, 0xffff_ffff, 1, 4, 1),
    (AmoOp::Swap, 0x8000_0000, 0xffff_ffff_7fff_ffff, 4, 0x7fff_ffff),
    (AmoOp::Swap, ONES, 1, 8, 1),
    (AmoOp::Swap, LEAST, GREATEST, 8, GREATEST),
    (AmoOp::Add, 0xffff_ffff, 1, 4, 0),
    (AmoOp::Add, 0x8000_0000, 0xffff_ffff_7fff_ffff, 4, 0xffff_ffff),
    (AmoOp::Add, ONES, 1, 8, 0),
    (AmoOp::Add, LEAST, GREATEST, 8, ONES),
    (AmoOp::Xor, 0xffff_ffff, 1, 4, 0xffff_fffe),
    (AmoOp::Xor, 0x8000_0000, 0xffff_ffff_7fff_ffff, 4, 0xffff_ffff),
    (AmoOp::Xor, ONES, 1, 8, 0xffff_ffff_ffff_fffe),
    (AmoOp::Xor, LEAST, GREATEST, 8, ONES),
    (AmoOp::And, 0xffff_ffff, 1, 4, 1),
    (AmoOp::And, 0x8000_0000, 0xffff_ffff_7fff_ffff, 4, 0),
    (AmoOp::And, ONES, 1, 8, 1),
    (AmoOp::And, LEAST, GREATEST, 8, 0),
    (AmoOp::Or, 0xffff_ffff, 1, 4, 0xffff_ffff),
    (AmoOp::Or, 0x8000_0000, 0xffff_ffff_7fff_ffff, 4, 0xffff_ffff),
    (AmoOp::Or, ONES, 1, 8, ONES),
    (AmoOp::Or, LEAST, GREATEST, 8, ONES),
    (AmoOp::Min, 0xffff_ffff, 1, 4, 0xffff_ffff),
    (AmoOp::Min, 0x8000_0000, 0xffff_ffff_7fff_ffff, 4, 0x8000_0000),
    (AmoOp::Min, ONES, 1, 8, ONES),
    (AmoOp::Min, LEAST, GREATEST, 8, LEAST),
    (AmoOp::Max, 0xffff_ffff, 1, 4, 1),
    (AmoOp::Max, 0x8000_0000, 0xffff_ffff_7fff_ffff, 4, 0x7fff_ffff),
    (AmoOp::Max, ONES, 1, 8, 1),
    (AmoOp::Max, LEAST, GREATEST, 8, GREATEST),
    (AmoOp::Minu, 0xffff_ffff, 1, 4, 1),
    (AmoOp::Minu, 0x8000_0000, 0xffff_ffff_7fff_ffff, 4, 0x7fff_ffff),
    (AmoOp::Minu, ONES, 1, 8, 1),
    (AmoOp::Minu, LEAST, GREATEST, 8, GREATEST),
    (AmoOp::Maxu, 0xffff_ffff, 1, 4, 0xffff_ffff),
    (AmoOp::Maxu, 0x8000_0000, 0xffff_ffff_7fff_ffff, 4, 0x8000_0000),
    (AmoOp::Maxu, ONES, 1, 8, ONES),
    (AmoOp::Maxu, LEAST, GREATEST, 8, LEAST),
    (AmoOp::Or, 0x1111_1111_0000_0001, 0x2222_2222_0000_0002, 4, 3),
];

#[test]
fn integer_instructions(rt: HostRuntime) {
    for (op, a, b, want) in REGISTERS {
        assert_eq!(rt; alu(op, a, b), want, "{op:?} {a:x} {b:x}");
    }
}

#[test]
fn multiplications_and_divisions(rt: HostRuntime) {
    for (op, a, b, want) in PRODUCTS {
        assert_eq!(rt; muldiv(op, a, b), want, "{op:?} {a:x} {b:x}");
    }
}

#[test]
fn atomic_operations(rt: HostRuntime) {
    for (op, old, source, width, want) in ATOMICS {
        assert!(rt; width == 4 || width == 8);
        assert_eq!(rt;
            amo(op, old, source, width),
            want,
            "{op:?} {old:x} {source:x} {width}"
        );
    }
}
