// Names without a value, which have a fault: what their statements hold, how far they go, and which fault they have beside it.
ghost use Rattle.std.specs.Prelude.{Err};
ghost use Rattle.kc_expr.specs.declared.values.NoValue.TheVariants.{ReportedElsewhere};

use kc_asm_emit::{Content, Extent, content_of, extent_of, fault};
use kc_asm_encode::{Argument, RelocatableByte, fault as operand_fault, moved};
use kc_base::{NoMemory, Text};
use kc_branch::Form;
use kc_expr::{Base, NoValue, Scope, Symbols, Tag, Value, fixed};
use kc_lex::lines;
use kc_source_statement::{Action, read_statement};
use std::alloc::Global;
use std::test::*;

/// Statements where L is a place and Q is not defined, and how far they go.
static EXTENTS: [(&str, Extent); 4] = [
    (" DCW 1,L,Q", Extent::Bytes(6)),
    (" DSB L", Extent::Bytes(0)),
    (" ORG L", Extent::Bytes(0)),
    (" LD 20H,Q", Extent::Bytes(5)),
];

/// What the only line of a text says.
fn said(alloc: Global, text: &str) -> Option<Action> {
    let bytes = text.as_bytes();
    if bytes.len() > 255 {
        return None;
    }
    let read = lines(alloc, bytes).ok()?;
    let tokens = read.first()?.tokens.as_slice();
    read_statement(alloc, tokens).ok()?.ok()
}

/// Names that all have a fault that is reported elsewhere.
struct Elsewhere;

impl Scope for Elsewhere {
    ghost answers = { λ _ _. Err ReportedElsewhere };

    fn look(&self, _name: &[u8]) -> Result<Value, NoValue> {
        Err(NoValue::ReportedElsewhere)
    }
}

/// The place L at 2090H of an absolute piece.
fn names(alloc: Global) -> Result<Symbols, NoMemory> {
    let mut symbols = Symbols::new(alloc);
    let place = Value {
        base: Base::Absolute,
        tag: Tag::Memory,
        number: 0x2090,
    };
    symbols.set(Text::of(alloc, b"L")?, place)?;
    Ok(symbols)
}

/// The byte with all pieces at 0.
fn byte(relocatable_byte: RelocatableByte) -> u8 {
    match relocatable_byte {
        RelocatableByte::Plain(byte) => byte,
        RelocatableByte::First { start, value, .. } => start | (value.number % 256) as u8,
        RelocatableByte::Second { value, .. } => (value.number / 256) as u8,
    }
}

fn extent(alloc: Global, text: &str, names: &Symbols) -> Option<Extent> {
    extent_of(alloc, &said(alloc, text)?, Form::Third, names).ok()
}

fn content(alloc: Global, text: &str, names: &Symbols) -> Option<Content> {
    content_of(
        alloc,
        &said(alloc, text)?,
        Form::Third,
        fixed(0x2080),
        names,
    )
    .ok()
}

fn code<S: Scope>(alloc: Global, text: &str, scope: &S) -> Option<u8> {
    let found = fault(alloc, &said(alloc, text)?, scope).ok()?;
    Some(found.unwrap_or(0))
}

#[test]
fn statements_with_names_without_a_value(rt: HostRuntime) -> Result<(), NoMemory> {
    let names = names(rt.alloc())?;
    for &(text, expected) in &EXTENTS {
        assert!(rt;
            extent(rt.alloc(), text, &names) == Some(expected),
            "{text}"
        );
    }
    let relocatable_bytes = match content(rt.alloc(), " DCB Q,2", &names) {
        Some(Content::RelocatableBytes(relocatable_bytes)) => match relocatable_bytes.as_slice() {
            [first, second] => byte(*first) == 0 && byte(*second) == 2,
            _ => false,
        },
        _ => false,
    };
    assert!(rt; relocatable_bytes);
    assert!(rt; code(rt.alloc(), "A EQU Z/0", &Elsewhere) == Some(11));
    Ok(())
}

/// Operands without a value have no fault of their own, and a distance goes on behind FFFFH.
#[test]
fn operands_without_a_value(rt: HostRuntime) {
    let register = Argument::Plain(Some(fixed(0x40)));
    let load = [register, Argument::Indirect(None)];
    assert!(rt; operand_fault(b"LD", &load).is_none());
    let jump = [
        register,
        Argument::Plain(None),
        Argument::Plain(Some(fixed(0))),
    ];
    assert!(rt; operand_fault(b"JBC", &jump).is_none());
    assert!(rt; moved(fixed(0xFFFF), 2) == fixed(1));
}
