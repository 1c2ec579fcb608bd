ghost use Rattle.std.specs.Prelude.{◌≡◌, ◌≤◌, ◌<◌, MatchOption};
ghost use Rattle.kc_isa.specs.Names.{shown_row};
ghost use Rattle.kc_asm_encode.specs.Opcodes as opcodes;

use crate::argument::{Argument, bit_of, mode, operand_at};
use kc_isa::{Row, Shape, row_of};
use kc_lex::first_opcode;

/// How many operands are written.
pub(crate) fn operand_count(shape: Shape) -> usize
    ensures { result ≡ opcodes.operand_count shape }
{
    match shape {
        Shape::Nothing => 0,
        Shape::One | Shape::Four | Shape::Near | Shape::Conditional | Shape::Far | Shape::Key => 1,
        Shape::Two | Shape::FourOne | Shape::Exchange | Shape::CountOne | Shape::Loop => 2,
        Shape::FourTwo | Shape::BitTest | Shape::TableJump => 3,
    }
}

/// The operand S, which is the last one.
pub(crate) fn source_of(shape: Shape, args: &[Argument]) -> Argument
    ensures { result ≡ opcodes.source_of shape args.now }
{
    operand_at(args, operand_count(shape).saturating_sub(1))
}

fn low_bits(shape: Shape, opcode: u8) -> u8
    ensures { result ≡ opcodes.low_bits shape opcode }
{
    match shape {
        Shape::Four | Shape::FourOne | Shape::FourTwo | Shape::Exchange => opcode % 4,
        Shape::BitTest | Shape::Near => opcode % 8,
        _ => 0,
    }
}

fn wanted_bits(shape: Shape, args: &[Argument]) -> u8
    ensures { result ≡ opcodes.wanted_bits shape args.now }
{
    match shape {
        Shape::Four | Shape::FourOne | Shape::FourTwo | Shape::Exchange => {
            mode(source_of(shape, args))
        }
        Shape::BitTest => bit_of(operand_at(args, 1)),
        _ => 0,
    }
}

fn is_row_for(word: &[u8], args: &[Argument], opcode: u8, row: Row) -> bool
    ensures { result ≡ opcodes.is_row_for word.now args.now opcode (shown_row row) }
{
    row.name.as_bytes() == word
        && operand_count(row.shape) == args.len()
        && low_bits(row.shape, opcode) == wanted_bits(row.shape, args)
}

fn is_opcode_for(word: &[u8], args: &[Argument], signed: bool, opcode: u8) -> bool
    ensures { result ≡ opcodes.is_opcode_for word.now args.now signed opcode }
{
    match row_of(opcode, signed) {
        Some(row) => is_row_for(word, args, opcode, row),
        None => false,
    }
}

/// The opcode of an instruction as it is written, or of the one behind FEH (`signed`): the first of the table.
pub(crate) fn opcode_of(word: &[u8], args: &[Argument], signed: bool) -> Option<u8>
    ensures { result ≡ opcodes.opcode_of word.now args.now signed }
{
    let first = first_opcode(word, signed)?;
    for opcode in u16::from(first)..256 {
        if is_opcode_for(word, args, signed, opcode as u8) {
            return Some(opcode as u8);
        }
    }
    None
}
