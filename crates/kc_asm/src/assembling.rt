ghost use Rattle.std.specs.Prelude.{◌≡◌, ◌≤◌, length, IfOk};
ghost use Rattle.kc_base.specs.Limits.{file_limit};
ghost use Rattle.kc_obj_module.specs.Object.{Object};
ghost use Rattle.kc_asm_symbols.specs.Externals.{externals};
ghost use Rattle.kc_asm_symbols.specs.Reported.{AreReadWell};
ghost use Rattle.kc_asm_check.specs.Checking.{standing};
ghost use Rattle.kc_asm.specs.Assembled as spec;

use crate::unlinked;
use kc_asm_check::check;
use kc_asm_layout::{layout, statement_sizes};
use kc_asm_section::module_of;
use kc_asm_symbols::{Names, externals, externals_are_few};
use kc_asm_unlinked_laws::{pieces_are_few, unlinked_modules_are_unlinked};
use kc_base::NoMemory;
use kc_lex::{LineFault, SourceFault, lines};
use kc_macro::expand;
use kc_obj_module::Module;
use kc_source::statements;
use kc_source_laws::{sources_are_read_well, statements_are_of_the_text};
use kc_source_statement::Stmt;
use std::alloc::Global;

// The module of statements, or the first fault of their values and places.
fn module_or_fault(alloc: Global, stmts: &[Stmt]) -> Result<Result<Module, LineFault>, NoMemory>
    requires read { AreReadWell stmts.now }
    requires few { length stmts.now ≤ 65535 }
    requires few_externals { length (externals (standing stmts.now)) ≤ 65536 }
    ensures { IfOk result (λ r. spec.IsMade stmts.now r) }
{
    let taken = externals(alloc, stmts)?;
    let names = Names::new(alloc, stmts, &taken)?;
    let size_records = statement_sizes(alloc, stmts, &names)?;
    let locations = layout(alloc, &size_records)?;
    let checked = match check(alloc, stmts, &locations, &names)? {
        Ok(checked) => checked,
        Err(fault) => return Ok(Err(fault)),
    };
    let unlinked = unlinked(alloc, stmts, &locations, taken, checked)?;
    unlinked_modules_are_unlinked();
    pieces_are_few();
    Ok(Ok(module_of(alloc, unlinked)?))
}

/// The module of a source of at most 1,048,576 bytes, with a line entry for each statement that has bytes.
///
/// Else its first fault: of the first pass that has one, there on the least line, there the least code. Pass 1 reads lines
/// (codes 1, 3, 9), pass 2 replaces macros, repetitions and conditions (1, 2, 3, 4, 5, 7, 9, 10, 11, 13, 15, 16), pass 3
/// reads statements and names (1, 6, 8, 14, 18, 20, 21, 23), pass 4 gives values, places and bytes (7, 9, 10, 11, 12, 13, 17,
/// 19, 20, 22, 24). The work of each pass grows with its lines and their tokens.
/// (MCS-96 Macro Assembler User's Guide; passes and codes are this kit's own.)
pub fn assemble(alloc: Global, source: &[u8]) -> Result<Module, SourceFault>
    requires { length source.now ≤ file_limit }
    ensures { spec.IsAssembled source.now result }
{
    let lines = lines(alloc, source)?;
    let text = expand(alloc, lines)?;
    let stmts = statements(alloc, &text)?;
    externals_are_few();
    statements_are_of_the_text();
    sources_are_read_well();
    match module_or_fault(alloc, &stmts) {
        Ok(Ok(module)) => Ok(module),
        Ok(Err(fault)) => Err(SourceFault::from(fault)),
        Err(NoMemory) => Err(SourceFault::NoMemory),
    }
}
