//! The layout of a module.

ghost use Rattle.std.specs.Prelude.{◌≡◌, ◌≤◌, map, length, All, IfOk};
ghost use Rattle.kc_asm_layout.specs.Places.{IsNear};
ghost use Rattle.kc_asm_layout.specs.Text as spec;

use crate::bounded::ModuleSizes;
use crate::dealt::statement_forms;
use crate::location::Location;
use crate::places::locations;
use crate::positions::positions;
use crate::text::text;
use kc_base::NoMemory;
use kc_branch::sizes;
use std::alloc::Global;

// The gap before each statement.
fn gaps(alloc: Global, locations: &[Location]) -> Result<Vec<u8>, NoMemory>
    requires { All IsNear locations.now }
    ensures { IfOk result (λ v. v.items ≡ map spec.gap_before locations.now) }
{
    let mut gaps = Vec::new(alloc);
    for location in locations {
        gaps.push((location.place - location.before) as u8)?;
    }
    Ok(gaps)
}

/// Where each statement of a module stands, by its table of sizes.
///
/// A statement stands at the end of its piece, behind a gap where its place has to be divisible; an absolute piece begins at
/// its address. All generic branches begin in their first form, but those to another base, an external or nothing in their
/// third. In rounds every branch that does not reach its target in the present layout takes its next form, until none does.
/// A branch outside code keeps its first form. Places are whole numbers, not taken modulo 65536.
/// (MCS-96 Macro Assembler User's Guide, "Segments and the Location Counter" and "Generic Branches".)
///
/// `NoMemory`: memory ran out. That is the only error.
pub fn layout(alloc: Global, statement_sizes: &ModuleSizes) -> Result<Vec<Location>, NoMemory>
    ensures value { IfOk result (λ v. v.items ≡ spec.layout statement_sizes.now) }
    ensures each { IfOk result (λ v. length v.items ≡ length statement_sizes.now) }
{
    let size_records = statement_sizes.size_records();
    let first = locations(alloc, size_records, &[])?;
    let gaps = gaps(alloc, &first)?;
    let positions = positions(alloc, &gaps, size_records)?;
    let text = text(alloc, &positions, &gaps, size_records)?;
    let chosen = sizes(alloc, &text)?;
    let forms = statement_forms(alloc, &chosen, size_records)?;
    locations(alloc, size_records, &forms)
}
