ghost use Rattle.std.specs.Prelude.{◌≡◌};
ghost use Rattle.kc_asm_encode.specs.Values as values;
ghost use Rattle.kc_asm_encode.specs.Sources as sources;

use crate::word::Word;
use kc_expr::{Tag, Value, fixed, is_fixed};

/// An operand as it is written: `x`, `#x`, `[reg]`, `[reg]+` or `x[reg]`. `None` stands for an expression without a value,
/// whose fault is reported elsewhere. (MCS-96 Macro Assembler User's Guide, "Operands".)
#[derive(Clone, Copy, PartialEq, Eq)]
pub enum Argument {
    Plain(Option<Value>),
    Immediate(Option<Value>),
    Indirect(Option<Value>),
    Increment(Option<Value>),
    Indexed(Option<Value>, Option<Value>),
}

/// Some bytes behind a value, modulo 65536.
pub fn moved(value: Value, count: u16) -> Value
    ensures { result ≡ values.moved value count }
{
    Value {
        base: value.base,
        tag: value.tag,
        number: value.number.wrapping_add(count),
    }
}

pub(crate) fn or_zero(value: Option<Value>) -> Value
    ensures { result ≡ values.or_zero value }
{
    match value {
        Some(value) => value,
        None => fixed(0),
    }
}

fn is_direct(value: Option<Value>) -> bool
    ensures { result ≡ values.is_direct value }
{
    match value {
        Some(value) => {
            (is_fixed(value.base) && value.number < 256) || matches!(value.tag, Tag::Register)
        }
        None => false,
    }
}

fn is_short(value: Option<Value>) -> bool
    ensures { result ≡ values.is_short value }
{
    match value {
        Some(value) => is_fixed(value.base) && (value.number < 128 || value.number >= 65408),
        None => false,
    }
}

/// The operand at a place, or 0 where there is none.
pub(crate) fn operand_at(args: &[Argument], place: usize) -> Argument
    ensures { result ≡ values.argument args.now place }
{
    match args.get(place) {
        Some(argument) => *argument,
        None => Argument::Plain(None),
    }
}

/// The value of an operand, of `x[reg]` that of x.
pub(crate) fn value_of(argument: Argument) -> Value
    ensures { result ≡ values.value_of argument }
{
    match argument {
        Argument::Plain(value)
        | Argument::Immediate(value)
        | Argument::Indirect(value)
        | Argument::Increment(value)
        | Argument::Indexed(value, _) => or_zero(value),
    }
}

/// A number of three bits, 0 where it is not fixed.
pub(crate) fn bit_of(argument: Argument) -> u8
    ensures { result ≡ values.bit_of argument }
{
    let value = value_of(argument);
    if is_fixed(value.base) {
        (value.number % 8) as u8
    } else {
        0
    }
}

/// The two low bits of the opcode for an operand S.
pub(crate) fn mode(argument: Argument) -> u8
    ensures { result ≡ sources.mode argument }
{
    match argument {
        Argument::Plain(value) => { if is_direct(value) { 0 } else { 3 } }
        Argument::Immediate(_) => 1,
        Argument::Indirect(_) | Argument::Increment(_) => 2,
        Argument::Indexed(..) => 3,
    }
}

fn plain_source(value: Option<Value>) -> Word
    ensures { result ≡ sources.plain_source value }
{
    if is_direct(value) {
        Word::Register(or_zero(value))
    } else {
        Word::Long {
            base: fixed(0),
            offset: or_zero(value),
        }
    }
}

fn indexed_source(offset: Option<Value>, base: Option<Value>) -> Word
    ensures { result ≡ sources.indexed_source offset base }
{
    if is_short(offset) {
        let low = (or_zero(offset).number % 256) as u8;
        Word::Short {
            base: or_zero(base),
            offset: low.cast_signed(),
        }
    } else {
        Word::Long {
            base: or_zero(base),
            offset: or_zero(offset),
        }
    }
}

/// The operand S.
pub(crate) fn source(argument: Argument) -> Word
    ensures { result ≡ sources.source argument }
{
    match argument {
        Argument::Plain(value) => plain_source(value),
        Argument::Immediate(value) => Word::Immediate(or_zero(value)),
        Argument::Indirect(pointer) => Word::Indirect(or_zero(pointer)),
        Argument::Increment(pointer) => Word::Increment(or_zero(pointer)),
        Argument::Indexed(offset, base) => indexed_source(offset, base),
    }
}
