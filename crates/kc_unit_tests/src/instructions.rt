// What no program shows: sums of long words, forms that no text is assembled to, instructions that are not well formed.
use kc_alu::{Flags, add, logic, sub};
use kc_code::{Decoded, decode, encode, text};
use kc_isa::{Insn, Operand, length, well_formed};

/// Flags by their letters: Z, N, V, T for VT, C, and S for ST.
fn set(letters: &str) -> Flags {
    Flags {
        z: letters.contains('Z'),
        n: letters.contains('N'),
        v: letters.contains('V'),
        vt: letters.contains('T'),
        c: letters.contains('C'),
        st: letters.contains('S'),
    }
}

/// Whether it is a difference, both terms, whether C is added, flags before; the result and flags after.
static LONG_SUMS: [(bool, u32, u32, bool, &str, u32, &str); 9] = [
    (false, 0x7FFFFFFF, 0x00000001, false, "", 0x80000000, "VT"),
    (false, 0xFFFFFFFF, 0x00000001, false, "", 0x00000000, "ZC"),
    (false, 0xFFFFFFFF, 0xFFFFFFFF, true, "C", 0xFFFFFFFF, "NC"),
    (false, 0x80000000, 0x7FFFFFFF, true, "ZC", 0x00000000, "ZC"),
    (true, 0x80000000, 0x00000001, false, "", 0x7FFFFFFF, "NVTC"),
    (true, 0x00000000, 0x00000001, false, "", 0xFFFFFFFF, "N"),
    (true, 0x00000007, 0x00000007, false, "", 0x00000000, "ZC"),
    (true, 0x00000000, 0xFFFFFFFF, true, "Z", 0x00000000, "Z"),
    (true, 0x80000000, 0x00000000, true, "", 0x7FFFFFFF, "NVTC"),
];

#[tactic(auto, unfolding(kc_alu::specs::Width::half_of))]
fn sum_of(is_difference: bool, a: u32, b: u32, chained: bool, before: Flags) -> (u32, Flags) {
    if is_difference {
        sub(32, a, b, chained, before)
    } else {
        add(32, a, b, chained, before)
    }
}

#[test]
#[tactic(auto, unfolding(kc_alu::specs::Width::half_of))]
fn long_words_have_sums_and_differences(rt: HostRuntime) {
    for &(is_difference, a, b, chained, before, value, after) in &LONG_SUMS {
        let found = sum_of(is_difference, a, b, chained, set(before));
        assert!(rt; found == (value, set(after)), "{a}, {b}");
    }
    assert!(rt; logic(32, 0x80000000, set("")) == set("N"));
    assert!(rt; logic(32, 0x00000000, set("S")) == set("ZS"));
}

/// Bytes with a distance of two bytes where one byte would do: assembled from its text an instruction has the one.
static FAR: [&[u8]; 10] = [
    &[0x43, 0x01, 0xFE, 0xFF, 0xA4, 0x1A],
    &[0x6F, 0x01, 0xFE, 0xFF, 0x1A],
    &[0x7B, 0x01, 0xFE, 0xFF, 0x1A],
    &[0x8B, 0xA5, 0xFE, 0xFF, 0xA4],
    &[0x8F, 0x7F, 0xFE, 0xFF, 0x7E],
    &[0x9F, 0x7F, 0xFE, 0xFF, 0x04],
    &[0xAB, 0xFF, 0xFE, 0xFF, 0xA4],
    &[0xB3, 0x05, 0xFE, 0xFF, 0xC8],
    &[0xBF, 0x01, 0xFE, 0xFF, 0xA4],
    &[0xFE, 0x9F, 0x1B, 0xFE, 0xFF, 0x9A],
];

#[test]
fn far_forms_of_near_operands_are_encoded(rt: HostRuntime) {
    for bytes in &FAR {
        let Decoded::Insn(insn, _) = decode(bytes) else {
            panic!(rt; "no instruction");
        };
        match encode(&insn) {
            Ok(made) => assert!(rt; made.as_slice() == *bytes),
            Err(_) => panic!(rt; "no bytes"),
        }
    }
    let Decoded::Insn(jump, _) = decode(&[0xE7, 0xFC, 0xFF]) else {
        panic!(rt; "no instruction");
    };
    assert!(rt; text(&jump, 0).as_slice() == b"LJMP 0FFFFH".as_slice());
}

/// Opcode, whether FEH stands before it, operand, registers, whether that is well formed, and its length.
static FORMS: [(u8, bool, Operand, [u8; 3], bool, u8); 32] = [
    (0xA0, false, Operand::Reg(0x21), [4, 0, 0], true, 3),
    (0xA1, false, Operand::Imm(0xFFFF), [4, 0, 0], true, 4),
    (0xB1, false, Operand::Imm(0xFF), [4, 0, 0], true, 3),
    (0xB1, false, Operand::Imm(0x100), [4, 0, 0], false, 0),
    (0xA2, false, Operand::Indirect(0x20), [4, 0, 0], true, 3),
    (0xA2, false, Operand::Increment(0x20), [4, 0, 0], true, 3),
    (0xA2, false, Operand::Indirect(0x21), [4, 0, 0], false, 0),
    (
        0xA3,
        false,
        Operand::Short {
            base: 0x20,
            offset: -1,
        },
        [4, 0, 0],
        true,
        4,
    ),
    (
        0xA3,
        false,
        Operand::Long {
            base: 0x20,
            offset: 1,
        },
        [4, 0, 0],
        true,
        5,
    ),
    (
        0xA3,
        false,
        Operand::Long {
            base: 0x21,
            offset: 1,
        },
        [4, 0, 0],
        false,
        0,
    ),
    (0xA3, false, Operand::Reg(0x20), [4, 0, 0], false, 0),
    (0xA0, false, Operand::Reg(0x20), [4, 5, 0], false, 0),
    (
        0x43,
        false,
        Operand::Long {
            base: 0x20,
            offset: 1,
        },
        [4, 5, 0],
        true,
        6,
    ),
    (
        0x4F,
        true,
        Operand::Long {
            base: 0x20,
            offset: 1,
        },
        [4, 5, 0],
        true,
        7,
    ),
    (
        0x47,
        true,
        Operand::Long {
            base: 0x20,
            offset: 1,
        },
        [4, 5, 0],
        false,
        0,
    ),
    (0xC1, false, Operand::Imm(1), [4, 0, 0], false, 0),
    (0xC1, false, Operand::Absent, [4, 5, 0], true, 3),
    (0x01, false, Operand::Absent, [4, 0, 0], true, 2),
    (0x09, false, Operand::Count(0xFF), [4, 0, 0], true, 3),
    (0x09, false, Operand::Reg(4), [4, 0, 0], false, 0),
    (0x20, false, Operand::Disp(1024), [0, 0, 0], true, 2),
    (0x21, false, Operand::Disp(5), [0, 0, 0], false, 0),
    (0x37, false, Operand::Disp(5), [9, 0, 0], true, 3),
    (0xD0, false, Operand::Disp(5), [0, 0, 0], true, 2),
    (0xE2, false, Operand::Absent, [1, 2, 3], true, 4),
    (0xE7, false, Operand::Disp(5), [0, 0, 0], true, 3),
    (0xF6, false, Operand::Imm(0xFF), [0, 0, 0], true, 2),
    (0xF6, false, Operand::Imm(0x100), [0, 0, 0], false, 0),
    (0xFD, false, Operand::Absent, [0, 0, 0], true, 1),
    (0xFD, false, Operand::Absent, [0, 0, 1], false, 0),
    (0x10, false, Operand::Absent, [0, 0, 0], false, 0),
    (0xEE, false, Operand::Absent, [0, 0, 0], false, 0),
];

#[test]
fn operands_fit_their_mode_alone(rt: HostRuntime) {
    for &(opcode, signed, operand, regs, is_formed, bytes) in &FORMS {
        let insn = Insn {
            opcode,
            signed,
            operand,
            regs,
        };
        let formed = well_formed(&insn);
        assert!(rt; formed == is_formed, "at {opcode}");
        if formed {
            assert!(rt; length(&insn) == bytes, "at {opcode}");
        }
    }
}
