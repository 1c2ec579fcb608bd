ghost use Rattle.std.specs.Prelude.{◌≡◌, true, false};
ghost use Rattle.kc_isa.specs.Names.{shown_row};
ghost use Rattle.kc_lex.specs.Instructions as instructions;

use crate::chars::{compared, is_short_word};
use crate::words::Operands;
use kc_isa::{Group, INDEX, Listed, Shape, row_of};

fn find(word: &[u8]) -> Option<Listed>
    ensures plain { instructions.first_opcode word.now false ≡ instructions.opcode_in result false }
    ensures signed { instructions.first_opcode word.now true ≡ instructions.opcode_in result true }
{
    if !is_short_word(word) {
        return None;
    }
    match INDEX.binary_search_by(|listed| compared(listed.mnemonic.name().as_bytes(), word)) {
        Ok(at) => Some(INDEX[at]),
        Err(_) => None,
    }
}

/// The first opcode of the instruction table, or the first behind FEH (`signed`), whose mnemonic is this word, if it has one.
pub fn first_opcode(word: &[u8], signed: bool) -> Option<u8>
    ensures { result ≡ instructions.first_opcode word.now signed }
{
    let listed = find(word)?;
    if listed.signed == signed {
        Some(listed.opcode)
    } else {
        None
    }
}

fn has_name(word: &[u8], signed: bool, opcode: u8) -> bool
    ensures { result ≡ instructions.has_name word.now signed opcode }
{
    match row_of(opcode, signed) {
        Some(row) => row.name.as_bytes() == word,
        None => false,
    }
}

fn operands_in(shape: Shape, numbers: bool, jumps: bool) -> Operands
    ensures { result ≡ instructions.operands_in shape numbers jumps }
{
    match shape {
        Shape::Nothing => Operands::Nothing,
        Shape::One if jumps => Operands::Branch,
        Shape::One | Shape::Near | Shape::Conditional | Shape::Far => Operands::One,
        Shape::Two | Shape::Loop => Operands::Pair,
        Shape::Four if numbers => Operands::Source,
        Shape::Four => Operands::Place,
        Shape::FourOne if numbers => Operands::Two,
        Shape::FourOne => Operands::Store,
        Shape::FourTwo => Operands::TwoOrThree,
        Shape::Exchange => Operands::Exchange,
        Shape::CountOne => Operands::Shift,
        Shape::BitTest => Operands::Triple,
        Shape::TableJump => Operands::Table,
        Shape::Key => Operands::Key,
    }
}

fn operands_at(word: &[u8], signed: bool, opcode: u8) -> Option<Operands>
    ensures { result ≡ instructions.operands_at word.now signed opcode }
{
    let row = row_of(opcode, signed)?;
    let numbers = has_name(word, signed, opcode - opcode % 4 + 1);
    let jumps = matches!(row.group, Group::Jump);
    Some(operands_in(row.shape, numbers, jumps))
}

/// The operands that an instruction takes, or none where the word in upper case is no instruction.
#[tactic(auto, unfolding(crate::specs::Instructions::operands_of))]
pub fn operands_of(word: &[u8]) -> Option<Operands>
    ensures { result ≡ instructions.operands_of word.now }
{
    let listed = find(word)?;
    operands_at(word, listed.signed, listed.opcode)
}
