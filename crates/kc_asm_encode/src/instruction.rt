ghost use Rattle.std.specs.Prelude.{◌≡◌, ◌+◌, ◌≤◌, ◌<◌, ◌++◌, ◌∷◌, [], length};
ghost use Rattle.arrayvec.specs.ArrayVec.{array_vec_len};
ghost use Rattle.kc_asm_encode.specs.Branches as branches;
ghost use Rattle.kc_asm_encode.specs.Instructions as instructions;

use crate::argument::{Argument, moved, operand_at, source, value_of};
use crate::branch::{branch_kind, inverse_of, jump_of};
use crate::opcode::{opcode_of, source_of};
use crate::word::{RelocatableInsn, Word};
use arrayvec::ArrayVec;
use kc_branch::{BranchKind, Form, branch_length};
use kc_expr::{Value, fixed};
use kc_isa::{Shape, row_of};

fn operand_for(shape: Shape, args: &[Argument]) -> Word
    ensures { result ≡ instructions.operand_for shape args.now }
{
    match shape {
        Shape::Nothing | Shape::One | Shape::Two | Shape::TableJump => Word::Absent,
        Shape::Four | Shape::FourOne | Shape::FourTwo | Shape::Exchange => {
            source(source_of(shape, args))
        }
        Shape::CountOne => Word::Count(value_of(operand_at(args, 1))),
        Shape::Near | Shape::Conditional | Shape::Far => Word::Jump(value_of(operand_at(args, 0))),
        Shape::BitTest => Word::Jump(value_of(operand_at(args, 2))),
        Shape::Loop => Word::Jump(value_of(operand_at(args, 1))),
        Shape::Key => Word::Immediate(value_of(operand_at(args, 0))),
    }
}

fn regs_for(shape: Shape, args: &[Argument]) -> [Value; 3]
    ensures { result ≡ instructions.regs_for shape args.now }
{
    let first = value_of(operand_at(args, 0));
    let second = value_of(operand_at(args, 1));
    let third = value_of(operand_at(args, 2));
    let rest = fixed(0);
    match shape {
        Shape::Nothing | Shape::Four | Shape::Near | Shape::Conditional | Shape::Far | Shape::Key =>
            [rest, rest, rest],
        Shape::One
        | Shape::FourOne
        | Shape::Exchange
        | Shape::CountOne
        | Shape::BitTest
        | Shape::Loop => [first, rest, rest],
        Shape::Two | Shape::FourTwo => [second, first, rest],
        Shape::TableJump => [second, third, first],
    }
}

#[tactic(auto, unfolding(kc_isa::specs::Names::row_at))]
fn instruction_at(signed: bool, args: &[Argument], opcode: u8) -> Option<RelocatableInsn>
    ensures { result ≡ instructions.instruction_at signed args.now opcode }
{
    let row = row_of(opcode, signed)?;
    Some(RelocatableInsn {
        opcode,
        signed,
        operand: operand_for(row.shape, args),
        regs: regs_for(row.shape, args),
    })
}

fn signed_instruction(word: &[u8], args: &[Argument]) -> Option<RelocatableInsn>
    ensures { result ≡ instructions.signed_instruction word.now args.now }
{
    match opcode_of(word, args, true) {
        Some(opcode) => instruction_at(true, args, opcode),
        None => None,
    }
}

/// An instruction as it is written, or none where the table has none.
#[tactic(auto, unfolding(crate::specs::Instructions::instruction))]
fn instruction(word: &[u8], args: &[Argument]) -> Option<RelocatableInsn>
    ensures { result ≡ instructions.instruction word.now args.now }
{
    match opcode_of(word, args, false) {
        Some(opcode) => instruction_at(false, args, opcode),
        None => signed_instruction(word, args),
    }
}

fn add(list: &mut ArrayVec<RelocatableInsn, 2>, found: Option<RelocatableInsn>)
    requires { array_vec_len list.old < 2 }
    ensures items { list.new.items ≡ list.old.items ++ instructions.listed found }
    ensures len { array_vec_len list.new ≤ array_vec_len list.old + 1 }
{
    if let Some(insn) = found {
        list.push(insn);
    }
}

fn one(word: &[u8], args: &[Argument]) -> ArrayVec<RelocatableInsn, 2>
    ensures { result.items ≡ instructions.all_lines (branches.line word.now args.now ∷ []) }
{
    let mut list = ArrayVec::new();
    add(&mut list, instruction(word, args));
    list
}

fn two(
    word: &[u8],
    args: &[Argument],
    jump: &[u8],
    target: Argument,
) -> ArrayVec<RelocatableInsn, 2>
    ensures { result.items ≡ instructions.all_lines (branches.line word.now args.now ∷ branches.line jump.now (target ∷ []) ∷ []) }
{
    let mut list = one(word, args);
    add(&mut list, instruction(jump, &[target]));
    list
}

fn over(here: Value, count: u16) -> Argument
    ensures { result ≡ branches.over here count }
{
    Argument::Plain(Some(moved(here, count)))
}

fn tested(args: &[Argument], target: Argument) -> [Argument; 3]
    ensures { result ≡ branches.tested args.now target }
{
    [operand_at(args, 0), operand_at(args, 1), target]
}

fn jump(form: Form, target: Argument) -> ArrayVec<RelocatableInsn, 2>
    ensures { result.items ≡ instructions.all_lines (branches.jump_lines form target) }
{
    match form {
        Form::First => one(b"SJMP", &[target]),
        Form::Second | Form::Third => one(b"LJMP", &[target]),
    }
}

fn call(form: Form, target: Argument) -> ArrayVec<RelocatableInsn, 2>
    ensures { result.items ≡ instructions.all_lines (branches.call_lines form target) }
{
    match form {
        Form::First => one(b"SCALL", &[target]),
        Form::Second | Form::Third => one(b"LCALL", &[target]),
    }
}

fn conditional(
    word: &[u8],
    form: Form,
    target: Argument,
    here: Value,
) -> ArrayVec<RelocatableInsn, 2>
    ensures { result.items ≡ instructions.all_lines (branches.conditional_lines word.now form target here) }
{
    let behind = over(here, branch_length(BranchKind::Conditional, form));
    match form {
        Form::First => one(jump_of(word), &[target]),
        Form::Second => two(inverse_of(word), &[behind], b"SJMP", target),
        Form::Third => two(inverse_of(word), &[behind], b"LJMP", target),
    }
}

fn bit_test(word: &[u8], form: Form, args: &[Argument], here: Value) -> ArrayVec<RelocatableInsn, 2>
    ensures { result.items ≡ instructions.all_lines (branches.test_lines word.now form args.now here) }
{
    let target = operand_at(args, 2);
    let behind = over(here, branch_length(BranchKind::BitTest, form));
    match form {
        Form::First => one(jump_of(word), &tested(args, target)),
        Form::Second => two(inverse_of(word), &tested(args, behind), b"SJMP", target),
        Form::Third => two(inverse_of(word), &tested(args, behind), b"LJMP", target),
    }
}

/// The instructions of an operation, a word in upper case with its operands, that stands at the place `here`: one, or two for a
/// conditional branch or a bit test in its longer forms, of which the first leads to the place behind both. The form
/// matters for generic branches alone. None where the word is no operation or does not take these operands.
/// (MCS-96 Macro Assembler User's Guide, "Operands" and "Generic Branches".)
#[tactic(auto, unfolding(crate::specs::Instructions::instructions))]
pub fn instructions(
    word: &[u8],
    args: &[Argument],
    form: Form,
    here: Value,
) -> ArrayVec<RelocatableInsn, 2>
    ensures { result.items ≡ instructions.instructions word.now args.now form here }
{
    match branch_kind(word, args) {
        None => one(word, args),
        Some(BranchKind::Jump) => jump(form, operand_at(args, 0)),
        Some(BranchKind::Call) => call(form, operand_at(args, 0)),
        Some(BranchKind::Conditional) => conditional(word, form, operand_at(args, 0), here),
        Some(BranchKind::BitTest) => bit_test(word, form, args, here),
    }
}
