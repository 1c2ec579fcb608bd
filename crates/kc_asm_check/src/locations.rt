//! The values of the places where statements stand.

ghost use Rattle.std.specs.Prelude.{◌≡◌, length, slice_get, IfOk};
ghost use Rattle.kc_asm_symbols.specs.Located as located;
ghost use Rattle.kc_asm_check.specs.Checking as spec;

use kc_asm_layout::Location;
use kc_asm_symbols::Segment;
use kc_base::NoMemory;
use kc_expr::Value;
use kc_source_statement::Stmt;
use std::alloc::Global;

fn location_at(locations: &[Location], number: usize) -> Option<Location>
    ensures { result ≡ slice_get locations.now number }
{
    match locations.get(number) {
        Some(location) => Some(*location),
        None => None,
    }
}

fn place_at(locations: &[Location], number: usize) -> u64
    ensures { result ≡ spec.place_at locations.now number }
{
    match location_at(locations, number) {
        Some(location) => location.place,
        None => 0,
    }
}

/// The value of a place in a segment, an offset or an address. (MCS-96 Macro Assembler User's Guide, "Segments and the
/// Location Counter".)
#[tactic(auto, using(crate::proofs::WalkLemmas::same_value))]
pub fn value_at(segment: Segment, place: u64) -> Value
    ensures { result ≡ located.value_at segment place }
{
    segment.value_at((place % 65536) as u32)
}

/// The values of the places of all statements, where each has its location.
pub fn values_of(
    alloc: Global,
    stmts: &[Stmt],
    locations: &[Location],
) -> Result<Vec<Value>, NoMemory>
    ensures values { IfOk result (λ values. values.items ≡ located.place_values (located.located (spec.place_at locations.now) stmts.now)) }
    ensures count { IfOk result (λ values. length values.items ≡ length stmts.now) }
{
    let mut values = Vec::new(alloc);
    let mut segment = Segment::first();
    for i in 0..stmts.len() {
        let stmt = &stmts[i];
        values.push(value_at(segment, place_at(locations, i)))?;
        segment = segment.after(&stmt.action);
    }
    Ok(values)
}
