//! The pieces of a module, while its statements are written.

ghost use Rattle.std.specs.Prelude.{◌≡◌, IfOk, OnOk};
ghost use Rattle.kc_source_statement.specs.Trees.{action_tree};
ghost use Rattle.kc_asm_check.specs.Checked.{seen_put};
ghost use Rattle.kc_asm_check.specs.Walk.{stood};
ghost use Rattle.kc_asm_unlinked_laws.specs.Collecting as spec;
ghost use Rattle.kc_asm_unlinked_laws.specs.Writable.{IsWritable};

use crate::writing::write;
use kc_asm_check::Put;
use kc_asm_layout::Location;
use kc_asm_section::Part;
use kc_asm_symbols::Segment;
use kc_base::NoMemory;
use kc_obj_module::SegKind;
use kc_source_statement::{Action, Stmt};
use std::alloc::Global;

/// The pieces of a module before its first statement: its relocatable registers, code and data.
pub(crate) fn first_parts(alloc: Global) -> Result<Vec<Part>, NoMemory>
    ensures { IfOk result (λ parts. parts.items ≡ spec.first_parts) }
{
    let mut parts = Vec::new(alloc);
    parts.push(Part::new(alloc, SegKind::Reg, None))?;
    parts.push(Part::new(alloc, SegKind::Code, None))?;
    parts.push(Part::new(alloc, SegKind::Ram, None))?;
    Ok(parts)
}

// The kind of an absolute piece that a statement opens.
fn kind_opened(action: &Action) -> SegKind
    ensures { result ≡ spec.kind_opened (action_tree action.now) }
{
    match action {
        Action::Cseg(_) => SegKind::Code,
        Action::Dseg(_) => SegKind::Ram,
        Action::Rseg(_) => SegKind::Reg,
        _ => SegKind::Stack,
    }
}

// The absolute piece that a statement opens at an address, if it opens one.
fn open(
    alloc: Global,
    parts: &mut Vec<Part>,
    kind: SegKind,
    opens: Option<u16>,
) -> Result<(), NoMemory>
    ensures { OnOk result (parts.new.items ≡ spec.with_opened kind opens parts.old.items) }
{
    if let Some(address) = opens {
        parts.push(Part::new(alloc, kind, Some(address)))?;
    }
    Ok(())
}

/// The pieces behind a statement in a segment at its location, which puts this.
pub(crate) fn pass(
    alloc: Global,
    parts: &mut Vec<Part>,
    segment: Segment,
    stmt: &Stmt,
    location: &Location,
    what: &Put,
) -> Result<(), NoMemory>
    requires { IsWritable (seen_put what.now) (stood segment stmt.now location.now) location.now parts.old.items }
    ensures { OnOk result (parts.new.items ≡ spec.parts_with (seen_put what.now) (stood segment stmt.now location.now) location.now parts.old.items) }
{
    write(
        &mut parts[segment.piece],
        segment,
        stmt,
        location,
        &what.content,
    )?;
    open(alloc, parts, kind_opened(&stmt.action), what.opens)?;
    Ok(())
}
