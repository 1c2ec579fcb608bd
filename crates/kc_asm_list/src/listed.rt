ghost use Rattle.std.specs.Prelude.{◌≡◌, ◌≤◌, length, IfOk};
ghost use Rattle.kc_base.specs.Limits.{file_limit};
ghost use Rattle.kc_asm_list.specs.Listed as spec;

use crate::reporting::depths;
use crate::rows_listing::rows;
use crate::spot::Spot;
use crate::spots::spots_of;
use kc_asm_symbols::externals_are_few;
use kc_base::NoMemory;
use kc_lex::{SourceFault, lines};
use kc_macro::expand;
use kc_obj_module::Module;
use kc_source::statements;
use kc_source_statement::{Action, Stmt};
use std::alloc::Global;

// The statements of a source, and where they stand.
#[derive(Drop)]
pub(crate) struct Standing {
    pub(crate) spots: Vec<Spot>,
    pub(crate) stmts: Vec<Stmt>,
}

// The statements of a source and where they stand, or the first fault that its lines, its macros, or its statements and names have.
fn read_statements(alloc: Global, source: &[u8]) -> Result<Standing, SourceFault>
    requires { length source.now ≤ file_limit }
    ensures { spec.IsStanding source.now result }
{
    let read = lines(alloc, source)?;
    let again = lines(alloc, source)?;
    let text = expand(alloc, read)?;
    let deep = depths(alloc, again)?;
    let stmts = statements(alloc, &text)?;
    externals_are_few();
    let spots = spots_of(alloc, &text, &deep, &stmts)?;
    Ok(Standing { spots, stmts })
}

/// The listing of a source of at most 1,048,576 bytes, whose module this is: each line with its number and its text, and with
/// the places and the bytes of the statements that come out of it. Else the first fault of the source that its lines, its
/// macros, or its statements and names have; a source that has a module has none.
/// (MCS-96 Macro Assembler User's Guide, "List File", in outline; the rows are this kit's own.)
pub fn listing(alloc: Global, source: &[u8], object: &Module) -> Result<Vec<u8>, SourceFault>
    requires { length source.now ≤ file_limit }
    ensures { spec.IsListed source.now object.now result }
{
    let read = read_statements(alloc, source)?;
    let listed = rows(alloc, source, object, read.spots)?;
    Ok(listed)
}

// Whether a statement is an instruction, or a generic branch.
fn is_instruction(stmt: &Stmt) -> bool
    ensures { result ≡ spec.is_instruction stmt.now }
{
    matches!(stmt.action, Action::Operation { .. })
}

// Of the places of statements those of instructions.
#[tactic(auto, unfolding(crate::specs::Listed::instructions_of))]
fn of_instructions(alloc: Global, spots: &[Spot], stmts: &[Stmt]) -> Result<Vec<Spot>, NoMemory>
    ensures { IfOk result (λ v. v.items ≡ spec.instructions_of spots.now stmts.now) }
{
    let mut own = Vec::new(alloc);
    let mut left = spots;
    let mut beside = stmts;
    while let [spot, rest @ ..] = left {
        let [stmt, others @ ..] = beside else {
            return Ok(own);
        };
        if is_instruction(stmt) {
            own.push(*spot)?;
        }
        left = rest;
        beside = others;
    }
    Ok(own)
}

/// Where the instructions of a source of at most 1,048,576 bytes stand, in the order in which they come out; generic branches are such.
/// Else the first fault of the source, as of `listing`.
pub fn instructions(alloc: Global, source: &[u8]) -> Result<Vec<Spot>, SourceFault>
    requires { length source.now ≤ file_limit }
    ensures { spec.AreInstructions source.now result }
{
    let read = read_statements(alloc, source)?;
    let own = of_instructions(alloc, &read.spots, &read.stmts)?;
    Ok(own)
}
