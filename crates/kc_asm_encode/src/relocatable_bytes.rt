ghost use Rattle.std.specs.Prelude.{◌≡◌, ℕ, ◌+◌, ◌≤◌, ◌<◌, ◌++◌, ◌∷◌, [], length, map, take, drop};
ghost use Rattle.std.specs.List.{All};
ghost use Rattle.arrayvec.specs.ArrayVec.{array_vec_len};
ghost use Rattle.kc_expr.specs.declared.values.Value.{Value};
ghost use Rattle.kc_asm_encode.specs.Relocating.{HasRoom};
ghost use Rattle.kc_asm_encode.specs.Instructions as instructions;
ghost use Rattle.kc_asm_encode.specs.RelocatableBytes as relocatable_bytes;

use crate::RelocatableByte;
use crate::argument::{Argument, moved};
use crate::instruction::instructions;
use crate::word::{RelocatableInsn, Word};
use arrayvec::ArrayVec;
use kc_branch::Form;
use kc_expr::{Value, fixed};
use kc_isa::{Form as Bytes, is_byte_wide, layout_for, row_of};

fn byte_of(value: Value) -> RelocatableByte
    ensures { result ≡ relocatable_bytes.byte_of value }
{
    RelocatableByte::First {
        kind: 1,
        start: 0,
        value,
    }
}

fn push_word(list: &mut ArrayVec<RelocatableByte, 8>, kind: u8, value: Value)
    requires { array_vec_len list.old ≤ 6 }
    ensures items { list.new.items ≡ list.old.items ++ relocatable_bytes.word_of kind value }
    ensures len { array_vec_len list.new ≡ array_vec_len list.old + 2 }
{
    list.push(RelocatableByte::First {
        kind,
        start: 0,
        value,
    });
    list.push(RelocatableByte::Second { kind, value });
}

fn push_immediate(list: &mut ArrayVec<RelocatableByte, 8>, form: Bytes, byte: bool, value: Value)
    requires { array_vec_len list.old ≤ 6 }
    ensures items { list.new.items ≡ list.old.items ++ relocatable_bytes.immediate_relocatables form byte value }
    ensures len { array_vec_len list.new ≤ array_vec_len list.old + 2 }
{
    match form {
        Bytes::Mode if !byte => push_word(list, 0, value),
        _ => list.push(byte_of(value)),
    }
}

fn push_jump(list: &mut ArrayVec<RelocatableByte, 8>, form: Bytes, value: Value)
    requires { array_vec_len list.old ≤ 6 }
    ensures items { list.new.items ≡ list.old.items ++ relocatable_bytes.jump_relocatables form value }
    ensures len { array_vec_len list.new ≤ array_vec_len list.old + 2 }
{
    match form {
        Bytes::Distance16 => push_word(list, 4, value),
        Bytes::Distance11 => list.push(RelocatableByte::Second { kind: 3, value }),
        _ => list.push(RelocatableByte::First {
            kind: 2,
            start: 0,
            value,
        }),
    }
}

fn push_operand(list: &mut ArrayVec<RelocatableByte, 8>, form: Bytes, byte: bool, operand: Word)
    requires { array_vec_len list.old ≤ 5 }
    ensures items { list.new.items ≡ list.old.items ++ relocatable_bytes.operand_relocatables form byte operand }
    ensures len { array_vec_len list.new ≤ array_vec_len list.old + 3 }
{
    match operand {
        Word::Absent => {}
        Word::Register(value) | Word::Indirect(value) | Word::Count(value) => {
            list.push(byte_of(value))
        }
        Word::Immediate(value) => push_immediate(list, form, byte, value),
        Word::Increment(value) => list.push(byte_of(moved(value, 1))),
        Word::Short { base, offset } => {
            list.push(byte_of(base));
            list.push(RelocatableByte::Plain(offset.cast_unsigned()));
        }
        Word::Long { base, offset } => {
            list.push(byte_of(moved(base, 1)));
            push_word(list, 0, offset);
        }
        Word::Jump(value) => push_jump(list, form, value),
    }
}

fn push_registers(list: &mut ArrayVec<RelocatableByte, 8>, from: u8, count: u8, regs: [Value; 3])
    requires room { array_vec_len list.old + count ≤ 8 }
    requires registers { from + count ≤ 3 }
    ensures items { list.new.items ≡ list.old.items ++ map relocatable_bytes.byte_of (take count (drop from regs)) }
    ensures len { array_vec_len list.new ≡ array_vec_len list.old + count }
{
    for value in &regs[from as usize..(from + count) as usize] {
        list.push(byte_of(*value));
    }
}

fn opcode_relocatable(form: Bytes, opcode: u8, operand: Word) -> RelocatableByte
    ensures { result ≡ relocatable_bytes.opcode_relocatable form opcode operand }
{
    match (form, operand) {
        (Bytes::Distance11, Word::Jump(value)) => RelocatableByte::First {
            kind: 3,
            start: opcode,
            value,
        },
        _ => RelocatableByte::Plain(opcode),
    }
}

fn row_relocatables(insn: &RelocatableInsn) -> ArrayVec<RelocatableByte, 8>
    ensures items { result.items ≡ relocatable_bytes.insn_relocatables insn.now }
    ensures opcode { insn.now.opcode < 256 }
{
    let mut list = ArrayVec::new();
    let Some(row) = row_of(insn.opcode, insn.signed) else {
        return list;
    };
    let layout = layout_for(row.shape);
    if insn.signed {
        list.push(RelocatableByte::Plain(0xFE));
    }
    list.push(opcode_relocatable(layout.form, insn.opcode, insn.operand));
    push_registers(&mut list, 0, layout.before, insn.regs);
    let byte = is_byte_wide(row.width);
    push_operand(&mut list, layout.form, byte, insn.operand);
    push_registers(&mut list, layout.before, layout.after, insn.regs);
    list
}

/// The bytes of an instruction before the bases are known, at most eight, each number with room in its bytes. None where
/// its opcode has no row.
/// (80C196KC User's Manual, "Instruction Format".)
pub fn relocatables_of(insn: &RelocatableInsn) -> ArrayVec<RelocatableByte, 8>
    ensures items { result.items ≡ relocatable_bytes.insn_relocatables insn.now }
    ensures room { (place : ℕ) → All (HasRoom place) result.items }
{
    row_relocatables(insn)
}

fn relocatable_count(insn: &RelocatableInsn) -> u16
    ensures value { result ≡ length (relocatable_bytes.insn_relocatables insn.now) }
    ensures bound { result ≤ 8 }
{
    relocatables_of(insn).len() as u16
}

fn total(list: &[RelocatableInsn]) -> u16
    requires { length list.now ≤ 2 }
    ensures { result ≡ length (relocatable_bytes.all_relocatable_bytes list.now) }
{
    let mut count = 0;
    for insn in list {
        count += relocatable_count(insn);
    }
    count
}

/// How many bytes an operation has, wherever it stands, at most seven.
pub fn length(word: &[u8], args: &[Argument], form: Form) -> u16
    ensures count { (here : Value) → result ≡ length (relocatable_bytes.all_relocatable_bytes (instructions.instructions word.now args.now form here)) }
    ensures most { result ≤ 7 }
{
    let list = instructions(word, args, form, fixed(0));
    total(list.as_slice())
}
