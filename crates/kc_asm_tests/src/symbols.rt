ghost use Rattle.std.specs.Prelude.{◌≤◌, length};

use kc_asm_symbols::{Meanings, Names, externals, place_values};
use kc_expr::{Base, Expr, NoValue, Scope, Tag};
use kc_lex::{SourceCode, lines};
use kc_source::statements;
use std::test::*;

static SOURCE: &str = "M MODULE
 CSEG AT 2080H
START: LD 30H,#LATER
A EQU B+1
B EQU 5
C EQU A
V SET 1
 DCW V,A
V SET V+1
 RSEG
R: DSB 1
W EQU R+1
 EXTRN X
 CSEG
 NOP
LATER: DCW STACK,X
 EXTRN Y
D EQU LATER-START
 END
";

/// The places of the statements of `SOURCE`.
static PLACES: [u32; 19] = [
    0, 0, 8320, 8324, 8324, 8324, 8324, 8324, 8328, 8328, 0, 1, 1, 1, 0, 2, 6, 6, 6,
];

/// What a name means at the statement with this number.
type Meant = (usize, &'static str, Result<(Base, Tag, u16), NoValue>);

static MEANT: [Meant; 26] = [
    (0, "V", Err(NoValue::Fault(SourceCode::NotDefined))),
    (2, "$", Ok((Base::Absolute, Tag::Memory, 8320))),
    (2, "LATER", Ok((Base::Piece(1), Tag::Memory, 2))),
    (3, "B", Err(NoValue::Fault(SourceCode::NotDefined))),
    (3, "LATER", Ok((Base::Piece(1), Tag::Memory, 2))),
    (3, "START", Ok((Base::Absolute, Tag::Memory, 8320))),
    (3, "STACK", Ok((Base::External(1), Tag::Memory, 0))),
    (4, "A", Err(NoValue::ReportedElsewhere)),
    (4, "B", Err(NoValue::Fault(SourceCode::NotDefined))),
    (5, "B", Ok((Base::Fixed, Tag::Memory, 5))),
    (5, "X", Err(NoValue::Fault(SourceCode::NotDefined))),
    (6, "C", Err(NoValue::ReportedElsewhere)),
    (7, "A", Err(NoValue::ReportedElsewhere)),
    (7, "V", Ok((Base::Fixed, Tag::Memory, 1))),
    (7, "W", Ok((Base::Piece(0), Tag::Register, 1))),
    (7, "X", Ok((Base::External(0), Tag::Register, 0))),
    (8, "V", Ok((Base::Fixed, Tag::Memory, 1))),
    (9, "V", Ok((Base::Fixed, Tag::Memory, 2))),
    (10, "$", Ok((Base::Piece(0), Tag::Register, 0))),
    (11, "R", Ok((Base::Piece(0), Tag::Register, 0))),
    (14, "$", Ok((Base::Piece(1), Tag::Memory, 0))),
    (15, "Y", Ok((Base::External(2), Tag::Memory, 0))),
    (17, "W", Ok((Base::Piece(0), Tag::Register, 1))),
    (17, "X", Ok((Base::External(0), Tag::Register, 0))),
    (18, "D", Err(NoValue::ReportedElsewhere)),
    (18, "NO", Err(NoValue::Fault(SourceCode::NotDefined))),
];

// In the statement with this number.
fn entered(rt: &HostRuntime, index: usize) -> Option<Meanings> {
    let lines = lines(rt.alloc(), SOURCE.as_bytes()).ok()?;
    let stmts = statements(rt.alloc(), &lines).ok()?;
    let taken = externals(rt.alloc(), &stmts).ok()?;
    if stmts.len() != PLACES.len() || taken.len() > 65536 {
        return None;
    }
    let values = place_values(rt.alloc(), &stmts, &PLACES).ok()?;
    let names = Names::new(rt.alloc(), &stmts, &taken).ok()?;
    let mut meanings = Meanings::new(rt.alloc(), &names, &stmts, &values).ok()?;
    for i in 0..stmts.len() {
        let stmt = &stmts[i];
        meanings.enter(stmt, *values.get(i)?);
        if i == index {
            return Some(meanings);
        }
        meanings.leave(rt.alloc(), stmt).ok()?;
    }
    None
}

#[test]
fn names_at_each_statement(rt: HostRuntime) {
    for (index, name, meant) in &MEANT {
        let meanings = entered(&rt, *index).expect(&rt, "the source is read");
        let found = meanings.look(name.as_bytes());
        let parts = found.map(|value| (value.base, value.tag, value.number));
        assert!(rt; parts == *meant, "{name} at {index}");
    }
    let meanings = entered(&rt, 2).expect(&rt, "the source is read");
    let here = meanings
        .value(&Expr::Here)
        .ok()
        .expect(&rt, "it has a place");
    assert!(rt; here.base == Base::Absolute && here.number == 8320);
    let last = meanings.last(b"V").ok().expect(&rt, "it has a value");
    assert!(rt; last.base == Base::Fixed && last.number == 2);
    assert!(rt; meanings.last(b"A") == Err(NoValue::ReportedElsewhere));
}

#[test]
fn externals_in_order(rt: HostRuntime) {
    let lines = lines(rt.alloc(), SOURCE.as_bytes())
        .ok()
        .expect(&rt, "the lines are read");
    let stmts = statements(rt.alloc(), &lines)
        .ok()
        .expect(&rt, "the source has no fault");
    let taken = externals(rt.alloc(), &stmts).expect(&rt, "there is memory");
    assert!(rt; taken.len() == 3);
    for (one, &(name, register)) in taken
        .iter()
        .zip(&[("X", true), ("STACK", false), ("Y", false)])
    {
        assert!(rt;
            one.name.as_slice() == name.as_bytes() && one.register == register,
            "{name}"
        );
    }
}
