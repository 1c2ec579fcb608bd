ghost use Rattle.std.specs.Prelude.{◌≡◌, IfOk};
ghost use Rattle.std.specs.List.{list_all};
ghost use Rattle.kc_lex.specs.Chars as chars;
ghost use Rattle.kc_lex.specs.Takes as spec;
ghost use Rattle.kc_lex.specs.Words as words;

use crate::chars::is_word;
pub use crate::instructions::operands_of;
use crate::reserved::{Word, find};
use kc_base::{NoMemory, Text};
use std::alloc::Global;

/// The operands that an operation takes. `x` is a plain expression, `S` any operand.
#[derive(Clone, Copy, PartialEq, Eq)]
pub enum Operands {
    /// none
    Nothing,
    /// `x`
    One,
    /// `S`
    Source,
    /// `S`, not `#x`
    Place,
    /// `x,S`
    Two,
    /// `x,S` or `x,x,S`
    TwoOrThree,
    /// `x,S`, not `#x`
    Store,
    /// `x,x` or `x,x[reg]`
    Exchange,
    /// `x,#x` or `x,x`
    Shift,
    /// `x,x`
    Pair,
    /// `x,x,x`
    Triple,
    /// `x`, the generic branch, or `[reg]`
    Branch,
    /// `x,[reg],#x`
    Table,
    /// `#x`
    Key,
}

/// How an operand is written, which shows its mode of addressing. (MCS-96 Macro Assembler User's Guide, "Operands".)
#[derive(Clone, Copy, PartialEq, Eq)]
pub enum Notation {
    /// `x`: direct, or an address in memory
    Plain,
    /// `#x`: immediate
    Immediate,
    /// `[reg]`: indirect
    Indirect,
    /// `[reg]+`: indirect with autoincrement
    Increment,
    /// `x[reg]`: indexed
    Indexed,
}

/// The words that begin a statement that is no operation, or stand behind a name.
#[derive(Clone, Copy, PartialEq, Eq)]
pub enum Directive {
    Module,
    Cseg,
    Dseg,
    Rseg,
    Sseg,
    Public,
    Extrn,
    Equ,
    Set,
    End,
    Dcb,
    Dcw,
    Dcl,
    Dsb,
    Dsw,
    Dsl,
    Org,
    Even,
    If,
    Else,
    Endif,
    Macro,
    Local,
    Exitm,
    Endm,
    Rept,
    Irp,
}

/// Whether a word in upper case is an operator.
pub fn is_operator_word(word: &[u8]) -> bool
    ensures { result ≡ words.is_operator_word word.now }
{
    matches!(find(word), Some(Word::Operator))
}

/// Whether a word in upper case is a generic branch on a condition.
pub fn is_generic_conditional(word: &[u8]) -> bool
    ensures { result ≡ words.is_generic_conditional word.now }
{
    matches!(find(word), Some(Word::Condition))
}

/// The operands that a generic branch takes, or none where the word in upper case is no generic branch. BR, which is
/// an instruction too, is not among these.
pub fn generic_operands_of(word: &[u8]) -> Option<Operands>
    ensures { result ≡ words.generic_operands_of word.now }
{
    match find(word) {
        Some(Word::Condition) => Some(Operands::One),
        Some(Word::Branch(operands)) => Some(operands),
        _ => None,
    }
}

/// The operands that an operation takes, which is an instruction or a generic branch, or none where the word in upper case
/// is neither.
pub fn operands_for(word: &[u8]) -> Option<Operands>
    ensures { result ≡ words.operands_for word.now }
{
    match operands_of(word) {
        Some(form) => Some(form),
        None => generic_operands_of(word),
    }
}

fn is_plain(operand: Notation) -> bool
    ensures { result ≡ spec.is_plain operand }
{
    matches!(operand, Notation::Plain)
}

fn is_immediate(operand: Notation) -> bool
    ensures { result ≡ spec.is_immediate operand }
{
    matches!(operand, Notation::Immediate)
}

fn is_indirect(operand: Notation) -> bool
    ensures { result ≡ spec.is_indirect operand }
{
    matches!(operand, Notation::Indirect)
}

fn is_indexed(operand: Notation) -> bool
    ensures { result ≡ spec.is_indexed operand }
{
    matches!(operand, Notation::Indexed)
}

fn takes_none(form: Operands) -> bool
    ensures { result ≡ spec.takes_none form }
{
    matches!(form, Operands::Nothing)
}

fn takes_one(form: Operands, a: Notation) -> bool
    ensures { result ≡ spec.takes_one form a }
{
    match form {
        Operands::One => is_plain(a),
        Operands::Source => true,
        Operands::Place => !is_immediate(a),
        Operands::Branch => is_plain(a) || is_indirect(a),
        Operands::Key => is_immediate(a),
        _ => false,
    }
}

fn takes_two(form: Operands, a: Notation, b: Notation) -> bool
    ensures { result ≡ spec.takes_two form a b }
{
    match form {
        Operands::Two | Operands::TwoOrThree => is_plain(a),
        Operands::Store => is_plain(a) && !is_immediate(b),
        Operands::Exchange => is_plain(a) && (is_plain(b) || is_indexed(b)),
        Operands::Shift => is_plain(a) && (is_plain(b) || is_immediate(b)),
        Operands::Pair => is_plain(a) && is_plain(b),
        _ => false,
    }
}

fn takes_three(form: Operands, a: Notation, b: Notation, c: Notation) -> bool
    ensures { result ≡ spec.takes_three form a b c }
{
    match form {
        Operands::TwoOrThree => is_plain(a) && is_plain(b),
        Operands::Triple => is_plain(a) && is_plain(b) && is_plain(c),
        Operands::Table => is_plain(a) && is_indirect(b) && is_immediate(c),
        _ => false,
    }
}

/// Whether an operation with operands of this form takes those that are written so.
pub fn takes(form: Operands, written: &[Notation]) -> bool
    ensures { result ≡ spec.takes form written.now }
{
    match written {
        [] => takes_none(form),
        [a] => takes_one(form, *a),
        [a, b] => takes_two(form, *a, *b),
        [a, b, c] => takes_three(form, *a, *b, *c),
        _ => false,
    }
}

/// The directive that a word in upper case is, or none.
pub fn directive_of(word: &[u8]) -> Option<Directive>
    ensures { result ≡ words.directive_of word.now }
{
    match find(word) {
        Some(Word::Directive(directive)) => Some(directive),
        _ => None,
    }
}

/// Whether a word is STACK, the address after the stack, which a program may use and not define.
pub fn is_stack(word: &[u8]) -> bool
    ensures { result ≡ words.is_stack word.now }
{
    word == b"STACK".as_slice()
}

/// Whether a word in upper case is reserved: an operator, an instruction, a generic branch, a directive or STACK.
pub fn is_reserved(word: &[u8]) -> bool
    ensures { result ≡ words.is_reserved word.now }
{
    find(word).is_some() || operands_of(word).is_some()
}

fn begins_name(text: &[u8]) -> bool
    ensures { result ≡ words.begins_name text.now }
{
    match text {
        [] => false,
        [first, ..] => !first.is_ascii_digit(),
    }
}

fn has_word_chars(text: &[u8]) -> bool
    ensures { result ≡ list_all chars.is_word_char text.now }
{
    text.iter().all(|b| is_word(*b))
}

/// Whether a text has the form of a name: 1 to 31 letters, digits, `_` and `?`, the first no digit. It may be reserved.
pub fn is_name_text(text: &[u8]) -> bool
    ensures { result ≡ words.is_name_text text.now }
{
    begins_name(text) && has_word_chars(text) && text.len() <= 31
}

/// The text in upper case.
pub fn upper(alloc: Global, text: &[u8]) -> Result<Text, NoMemory>
    ensures { IfOk result (λ t. t ≡ chars.upper text.now) }
{
    Text::in_upper(alloc, text)
}
