ghost use Rattle.std.specs.Prelude.{◌≡◌, ◌≤◌, List, None, reverse, map, length, IfOk};
ghost use Rattle.kc_asm_symbols.specs.Walk.{AreNamesOf, IsBehind};
ghost use Rattle.kc_asm_check.specs.Checked.{seen_put, IsExamined};
ghost use Rattle.kc_asm_check.specs.Codes as codes;
ghost use Rattle.kc_asm_check.specs.Checking as spec;
ghost use Rattle.kc_asm_check.specs.Putting.{puts_of, stack_of};

use crate::checked::Checked;
use crate::locations::values_of;
use crate::walk::Walk;
use kc_asm_layout::{Location, sizes_have_lengths};
use kc_asm_symbols::{Meanings, Names, Segment};
use kc_base::NoMemory;
use kc_lex::LineFault;
use kc_source_statement::Stmt;
use std::alloc::Global;

// Of the three relocatable pieces.
fn first_regions(alloc: Global) -> Result<Vec<Option<u16>>, NoMemory>
    ensures { IfOk result (λ regions. regions.items ≡ codes.first_regions) }
{
    let mut regions = Vec::new(alloc);
    regions.push(None)?;
    regions.push(None)?;
    regions.push(None)?;
    Ok(regions)
}

// What a walk behind the last statement has found.
fn examined(walk: Walk, stmts: &[Stmt]) -> Result<Checked, LineFault>
    requires found { walk.found ≡ spec.first_fault stmts.now }
    requires puts { map seen_put walk.puts.items ≡ puts_of stmts.now }
    requires stack { walk.sum ≡ stack_of stmts.now }
    requires meanings { IsBehind walk.meanings (spec.standing stmts.now) (reverse (spec.standing stmts.now)) }
    requires each { length stmts.now ≤ length (spec.location_list stmts.now) }
    ensures { IsExamined stmts.now result }
{
    let Walk {
        meanings,
        sum,
        found,
        puts,
        ..
    } = walk;
    match found {
        Some(fault) => Err(fault),
        None => Ok(Checked {
            puts,
            stack: sum as u16,
            meanings,
        }),
    }
}

/// What the statements of a module put, its bytes of stack and what names mean in it; or else the first fault of its values
/// and places: of the least line that has one the least code.
///
/// `locations` reports where each of the statements stands, as the layout of their table of sizes does, and `names` are their names.
/// The codes: 7, 9, 10, 11, 12, 13 for values and operands; 12 also for a number that does not fit its byte, and 19 for
/// a jump that does not reach, where they depend on no base; 24 for a generic branch to what is no label, no external and not
/// `$`, with a fixed distance or none; 17 for ORG backwards, a label past FFFFH, a piece that is too long, and stack over
/// 65,535 bytes; 22 for an absolute piece outside the regions of its kind; 20 for a public name that counts from an external.
/// Instructions and data outside code, and lines and names that no object can report, are no faults here: statements that were
/// read without a fault have none of them, as `sources_are_read_well` says. (MCS-96 Macro Assembler User's Guide, "Assembler
/// Directives"; the codes are this kit's own.)
///
/// `NoMemory`: memory ran out. That is the only other error.
pub fn check(
    alloc: Global,
    stmts: &[Stmt],
    locations: &[Location],
    names: &Names,
) -> Result<Result<Checked, LineFault>, NoMemory>
    requires count { length stmts.now ≤ 65536 }
    requires locations { locations.now ≡ spec.location_list stmts.now }
    requires names { AreNamesOf names.now stmts.now }
    ensures { IfOk result (λ r. IsExamined stmts.now r) }
{
    sizes_have_lengths();
    let values = values_of(alloc, stmts, locations)?;
    let meanings = Meanings::new(alloc, names, stmts, &values)?;
    let regions = first_regions(alloc)?;
    let mut walk = Walk {
        meanings,
        segment: Segment::first(),
        regions,
        sum: 0,
        found: None,
        puts: Vec::new(alloc),
    };
    walk.pass(alloc, stmts, locations)?;
    Ok(examined(walk, stmts))
}
