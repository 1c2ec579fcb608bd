ghost use Rattle.std.specs.Prelude.{◌≡◌, ◌+◌, ◌≤◌, ◌<◌, ◌++◌, ◌∷◌, [], IsTrue, true, length};
ghost use Rattle.arrayvec.specs.ArrayVec.{array_vec_len};
ghost use Rattle.kc_isa.specs.Formed.{is_formed};
ghost use Rattle.kc_code.specs.Text.{zero_before, byte_text, word_text, number_text, pointer_text, count_text, operand_text, is_byte_number, single_text, listed, register, text_of, FitsNumber, before_operand, ◌comma◌};

use arrayvec::ArrayVec;
use kc_base::hex_digit;
use kc_isa::{Group, Insn, Operand, Shape, is_byte_wide, length, row_of};

type Line = ArrayVec<u8, 80>;

fn push_zero(out: &mut Line, first: u8)
    requires { array_vec_len out.old < 80 }
    ensures items { out.new.items ≡ out.old.items ++ zero_before first }
    ensures len { array_vec_len out.new ≤ array_vec_len out.old + 1 }
{
    if first >= 10 {
        out.push(b'0');
    }
}

#[tactic(auto, unfolding(crate::specs::Text::byte_text))]
fn push_byte(out: &mut Line, n: u8)
    requires { array_vec_len out.old ≤ 70 }
    ensures items { out.new.items ≡ out.old.items ++ byte_text n }
    ensures len { array_vec_len out.new ≤ array_vec_len out.old + 4 }
{
    push_zero(out, n / 16);
    out.push(hex_digit(n / 16));
    out.push(hex_digit(n % 16));
    out.push(b'H');
}

#[tactic(auto, unfolding(crate::specs::Text::word_text))]
fn push_word(out: &mut Line, n: u16)
    requires { array_vec_len out.old ≤ 70 }
    ensures items { out.new.items ≡ out.old.items ++ word_text n }
    ensures len { array_vec_len out.new ≤ array_vec_len out.old + 6 }
{
    push_zero(out, (n / 0x1000) as u8);
    out.push(hex_digit((n / 0x1000) as u8));
    out.push(hex_digit((n / 0x100 % 0x10) as u8));
    out.push(hex_digit((n / 0x10 % 0x10) as u8));
    out.push(hex_digit((n % 0x10) as u8));
    out.push(b'H');
}

fn push_number(out: &mut Line, byte: bool, n: u16)
    requires room { array_vec_len out.old ≤ 69 }
    requires byte { IsTrue byte → n < 256 }
    ensures items { out.new.items ≡ out.old.items ++ number_text byte n }
    ensures len { array_vec_len out.new ≤ array_vec_len out.old + 7 }
{
    out.push(b'#');
    if byte {
        push_byte(out, n as u8);
    } else {
        push_word(out, n);
    }
}

fn push_pointer(out: &mut Line, r: u8)
    requires { array_vec_len out.old ≤ 69 }
    ensures items { out.new.items ≡ out.old.items ++ pointer_text r }
    ensures len { array_vec_len out.new ≤ array_vec_len out.old + 6 }
{
    out.push(b'[');
    push_byte(out, r);
    out.push(b']');
}

fn push_count(out: &mut Line, n: u8)
    requires { array_vec_len out.old ≤ 69 }
    ensures items { out.new.items ≡ out.old.items ++ count_text n }
    ensures len { array_vec_len out.new ≤ array_vec_len out.old + 7 }
{
    if n < 0x10 {
        push_number(out, true, u16::from(n));
    } else {
        push_byte(out, n);
    }
}

#[tactic(auto, unfolding(crate::specs::Text::operand_text))]
fn push_operand(out: &mut Line, byte: bool, next: u16, operand: Operand)
    requires room { array_vec_len out.old ≤ 60 }
    requires number { FitsNumber byte operand }
    ensures items { out.new.items ≡ out.old.items ++ operand_text byte next operand }
    ensures len { array_vec_len out.new ≤ array_vec_len out.old + 12 }
{
    match operand {
        Operand::Absent => {}
        Operand::Reg(r) => push_byte(out, r),
        Operand::Imm(n) => push_number(out, byte, n),
        Operand::Indirect(r) => push_pointer(out, r),
        Operand::Increment(r) => {
            push_pointer(out, r);
            out.push(b'+');
        }
        Operand::Short { base, offset } => {
            push_word(out, i16::from(offset).cast_unsigned());
            push_pointer(out, base);
        }
        Operand::Long { base, offset } => {
            push_word(out, offset);
            push_pointer(out, base);
        }
        Operand::Count(n) => push_count(out, n),
        Operand::Disp(d) => push_word(out, next.wrapping_add(d.cast_unsigned())),
    }
}

fn push_register(out: &mut Line, before: u8, r: u8)
    requires { array_vec_len out.old ≤ 60 }
    ensures items { out.new.items ≡ out.old.items ++ before ∷ byte_text r }
    ensures len { array_vec_len out.new ≤ array_vec_len out.old + 5 }
{
    out.push(before);
    push_byte(out, r);
}

fn push_single(out: &mut Line, group: Group, r: u8)
    requires { array_vec_len out.old ≤ 60 }
    ensures items { out.new.items ≡ out.old.items ++ single_text group r }
    ensures len { array_vec_len out.new ≤ array_vec_len out.old + 6 }
{
    match group {
        Group::Jump => push_pointer(out, r),
        _ => push_byte(out, r),
    }
}

fn push_table(out: &mut Line, regs: [u8; 3])
    requires { array_vec_len out.old ≤ 40 }
    ensures { out.new.items ≡ out.old.items ++ 0x20 ∷ (byte_text (register regs 2) comma (pointer_text (register regs 0) comma number_text true (register regs 1))) }
{
    push_register(out, b' ', regs[2]);
    out.push(b',');
    push_pointer(out, regs[0]);
    out.push(b',');
    push_number(out, true, u16::from(regs[1]));
}

/// What stands before the operand, with the blank or comma before that.
fn push_registers(out: &mut Line, shape: Shape, opcode: u8, regs: [u8; 3])
    requires { array_vec_len out.old ≤ 40 }
    ensures items { out.new.items ≡ out.old.items ++ before_operand shape opcode (register regs) }
    ensures len { array_vec_len out.new ≤ array_vec_len out.old + 11 }
{
    out.push(b' ');
    match shape {
        Shape::FourTwo => {
            push_byte(out, regs[1]);
            push_register(out, b',', regs[0]);
            out.push(b',');
        }
        Shape::FourOne | Shape::Exchange | Shape::CountOne | Shape::Loop => {
            push_byte(out, regs[0]);
            out.push(b',');
        }
        Shape::BitTest => {
            push_byte(out, regs[0]);
            out.push(b',');
            out.push(b'0' + opcode % 8);
            out.push(b',');
        }
        _ => {}
    }
}

fn is_byte_printed(shape: Shape, byte: bool) -> bool
    ensures { result ≡ is_byte_number shape byte }
{
    match shape {
        Shape::Key => true,
        _ => byte,
    }
}

fn push_listed(out: &mut Line, shape: Shape, group: Group, byte: bool, next: u16, insn: Insn)
    requires room { array_vec_len out.old ≤ 5 }
    requires number { FitsNumber (is_byte_number shape byte) insn.operand }
    ensures { out.new.items ≡ out.old.items ++ listed shape group insn.opcode (register insn.regs) (operand_text (is_byte_number shape byte) next insn.operand) }
{
    match shape {
        Shape::Nothing => {}
        Shape::One => {
            out.push(b' ');
            push_single(out, group, insn.regs[0]);
        }
        Shape::Two => {
            push_register(out, b' ', insn.regs[1]);
            push_register(out, b',', insn.regs[0]);
        }
        Shape::TableJump => push_table(out, insn.regs),
        _ => {
            push_registers(out, shape, insn.opcode, insn.regs);
            push_operand(out, is_byte_printed(shape, byte), next, insn.operand);
        }
    }
}

/// The text of a well-formed instruction that stands at `at`: the mnemonic and, behind a blank, its operands
/// in the assembler's order. Registers, bytes, counts and masks have two hexadecimal digits and `H`, words and
/// the addresses that jumps lead to four, with a digit 0 before a letter.
#[tactic(auto, using(crate::proofs::Numbers::fits_number))]
pub fn text(insn: &Insn, at: u16) -> ArrayVec<u8, 80>
    requires { IsTrue (is_formed insn.now) }
    ensures { result.items ≡ text_of insn.now at }
{
    let mut out = ArrayVec::new();
    let Some(row) = row_of(insn.opcode, insn.signed) else {
        unreachable!();
    };
    push_name(&mut out, row.name);
    let next = at.wrapping_add(u16::from(length(insn)));
    let byte = is_byte_wide(row.width);
    push_listed(&mut out, row.shape, row.group, byte, next, *insn);
    out
}

fn push_name(out: &mut Line, name: &str)
    requires empty { array_vec_len out.old ≡ 0 }
    requires short { length name.now ≤ 5 }
    ensures items { out.new.items ≡ out.old.items ++ name.now }
    ensures len { array_vec_len out.new ≤ 5 }
{
    let Ok(()) = out.try_extend_from_slice(name.as_bytes()) else {
        unreachable!();
    };
}
