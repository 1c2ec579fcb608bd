//! What the passes behind expansion report first of a text.

ghost use Rattle.std.specs.Prelude.{◌≡◌, ◌≤◌, length, Some, None, IfOk};
ghost use Rattle.kc_asm_symbols.specs.Externals.{externals};
ghost use Rattle.kc_asm_check.specs.Checking.{first_fault, standing};
ghost use Rattle.kc_asm_origin.specs.First.{with_first};
ghost use Rattle.kc_asm_origin.specs.Reported as spec;

use crate::first::with_first;
use kc_asm_check::check;
use kc_asm_layout::{layout, statement_sizes};
use kc_asm_symbols::{Names, externals, externals_are_few};
use kc_base::NoMemory;
use kc_lex::{Line, LineFault, SourceFault};
use kc_source::statements;
use kc_source_statement::Stmt;
use std::alloc::Global;

// The first fault of values and places.
fn reported_of_values(alloc: Global, stmts: &[Stmt]) -> Result<Option<LineFault>, NoMemory>
    requires few { length stmts.now ≤ 65536 }
    requires few_externals { length (externals (standing stmts.now)) ≤ 65536 }
    ensures { IfOk result (λ reported. reported ≡ first_fault stmts.now) }
{
    let taken = externals(alloc, stmts)?;
    let names = Names::new(alloc, stmts, &taken)?;
    let size_records = statement_sizes(alloc, stmts, &names)?;
    let locations = layout(alloc, &size_records)?;
    match check(alloc, stmts, &locations, &names)? {
        Ok(_) => Ok(None),
        Err(fault) => Ok(Some(fault)),
    }
}

fn reported(alloc: Global, text: &[Line]) -> Result<Option<LineFault>, NoMemory>
    requires { length text.now ≤ 65535 }
    ensures { IfOk result (λ reported. spec.IsReported text.now reported) }
{
    externals_are_few();
    match statements(alloc, text) {
        Ok(stmts) => {
            let reported = reported_of_values(alloc, &stmts)?;
            Ok(reported)
        }
        Err(SourceFault::At { line, code }) => Ok(Some(LineFault { line, code })),
        Err(SourceFault::NoMemory) => Err(NoMemory),
    }
}

/// Whether the passes behind expansion report this fault of a text.
pub(crate) fn reports(alloc: Global, text: &[Line], fault: LineFault) -> Result<bool, NoMemory>
    requires { length text.now ≤ 65535 }
    ensures { IfOk result (λ b. spec.Reports text.now fault b) }
{
    match reported(alloc, text)? {
        Some(other) => Ok(other.line == fault.line && other.code == fault.code),
        None => Ok(false),
    }
}

/// Whether they report it of the text of whose lines of the fault's number only the first k keep it.
pub(crate) fn reports_with(
    alloc: Global,
    text: &[Line],
    fault: LineFault,
    k: usize,
) -> Result<bool, NoMemory>
    requires { length text.now ≤ 65535 }
    ensures { IfOk result (λ b. spec.Reports (with_first fault.0 k text.now) fault b) }
{
    let changed = with_first(alloc, fault.line, k, text)?;
    reports(alloc, &changed, fault)
}
