ghost use Rattle.std.specs.Prelude.{◌≡◌, ◌<◌, ◌≤◌, ◌^◌, ℕ, length, IfOk};
ghost use Rattle.kc_asm_symbols.specs.declared.segments.Segment.{Segment as SegmentOf};
ghost use Rattle.kc_asm_symbols.specs.Located.{located_by, place_values};
ghost use Rattle.kc_asm_symbols.specs.Walk.{AreNamesOf};
ghost use Rattle.kc_asm_layout.specs.StatementSizes as spec;

use crate::bounded::ModuleSizes;
use crate::size_records::size_record_of;
use kc_asm_symbols::{Meanings, Names, Segment};
use kc_base::NoMemory;
use kc_expr::{Base, Tag, Value};
use kc_source_statement::Stmt;
use std::alloc::Global;

// The place of a statement as a base of its own.
fn own_place(number: u16) -> Value
    ensures { (g : SegmentOf) → result ≡ spec.on_its_own number g }
{
    Value {
        base: Base::Piece(number),
        tag: Tag::Memory,
        number: 0,
    }
}

// All statements at 0.
fn zeros(alloc: Global, stmts: &[Stmt]) -> Result<Vec<Value>, NoMemory>
    requires { length stmts.now ≤ 65536 }
    ensures values { IfOk result (λ v. v.items ≡ place_values (located_by spec.at_zero stmts.now)) }
    ensures count { IfOk result (λ v. length v.items ≡ length stmts.now) }
{
    let mut values = Vec::new(alloc);
    let mut segment = Segment::first();
    for i in 0..stmts.len() {
        let stmt = &stmts[i];
        values.push(segment.value_at(0))?;
        segment = segment.after(&stmt.action);
    }
    Ok(values)
}

// Each statement as a base of its own.
fn owns(alloc: Global, stmts: &[Stmt]) -> Result<Vec<Value>, NoMemory>
    requires { length stmts.now ≤ 65536 }
    ensures values { IfOk result (λ v. v.items ≡ place_values (located_by spec.on_its_own stmts.now)) }
    ensures count { IfOk result (λ v. length v.items ≡ length stmts.now) }
{
    let mut values = Vec::new(alloc);
    for i in 0..stmts.len() {
        values.push(own_place(i as u16))?;
    }
    Ok(values)
}

/// The table of sizes of a module: a size record for each of its statements, of which there are at most 65,536, where `names` are its
/// names. It is the same wherever the statements stand. (MCS-96 Macro Assembler User's Guide, "Segments and the
/// Location Counter" and "Generic Branches".)
pub fn statement_sizes(
    alloc: Global,
    stmts: &[Stmt],
    names: &Names,
) -> Result<ModuleSizes, NoMemory>
    requires statements { length stmts.now ≤ 65536 }
    requires names { AreNamesOf names.now stmts.now }
    ensures size_records { IfOk result (λ v. v ≡ spec.statement_sizes stmts.now) }
    ensures count { IfOk result (λ v. length v ≡ length stmts.now) }
{
    let at_zero = zeros(alloc, stmts)?;
    let on_their_own = owns(alloc, stmts)?;
    let mut look = Meanings::new(alloc, names, stmts, at_zero.as_slice())?;
    let mut own = Meanings::new(alloc, names, stmts, on_their_own.as_slice())?;
    let mut size_records = Vec::new(alloc);
    let mut segment = Segment::first();
    for i in 0..stmts.len() {
        let stmt = &stmts[i];
        look.enter(stmt, segment.value_at(0));
        own.enter(stmt, own_place(i as u16));
        let size_record = size_record_of(alloc, segment, stmt, &look, &own)?;
        size_records.push(size_record)?;
        look.leave(alloc, stmt)?;
        own.leave(alloc, stmt)?;
        segment = segment.after(&stmt.action);
    }
    Ok(ModuleSizes::of(size_records))
}
