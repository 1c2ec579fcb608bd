ghost use Rattle.std.specs.Prelude.{◌≡◌, length, slice_index, IfOk};
ghost use Rattle.kc_asm_symbols.specs.Located as spec;

use crate::segments::Segment;
use kc_base::NoMemory;
use kc_expr::Value;
use kc_source_statement::Stmt;
use std::alloc::Global;

/// The values of the places of statements, each an offset in its segment, or an address where that is absolute, of at
/// most 65,536. (MCS-96 Macro Assembler User's Guide, "Segments and the Location Counter".)
pub fn place_values(alloc: Global, stmts: &[Stmt], places: &[u32]) -> Result<Vec<Value>, NoMemory>
    requires { length places.now ≡ length stmts.now }
    ensures values { IfOk result (λ values. values.items ≡ spec.place_values (spec.located (slice_index places.now) stmts.now)) }
    ensures count { IfOk result (λ values. length values.items ≡ length stmts.now) }
{
    let mut values = Vec::new(alloc);
    let mut segment = Segment::first();
    for i in 0..stmts.len() {
        let stmt = &stmts[i];
        values.push(segment.value_at(places[i]))?;
        segment = segment.after(&stmt.action);
    }
    Ok(values)
}
