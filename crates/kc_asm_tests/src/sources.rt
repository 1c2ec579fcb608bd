// Sources that stand in tests, line by line.
use kc_asm_layout::{ModuleSizes, statement_sizes};
use kc_asm_symbols::{Names, externals};
use kc_base::NoMemory;
use kc_lex::lines;
use kc_source::statements;
use std::alloc::Global;

fn joined(alloc: Global, source: &[&str]) -> Result<String, NoMemory> {
    let mut text = String::new(alloc);
    for line in source {
        text.push_str(line)?;
        text.push_str("\n")?;
    }
    Ok(text)
}

/// The table of sizes of a source of these lines, if its lines and its names have no fault.
pub(crate) fn sizes_of(alloc: Global, source: &[&str]) -> Option<ModuleSizes> {
    let text = joined(alloc, source).ok()?;
    if text.len() > 60000 {
        return None;
    }
    let lines = lines(alloc, text.as_bytes()).ok()?;
    let stmts = statements(alloc, &lines).ok()?;
    let taken = externals(alloc, &stmts).ok()?;
    if stmts.len() > 65536 || taken.len() > 65536 {
        return None;
    }
    let names = Names::new(alloc, &stmts, &taken).ok()?;
    statement_sizes(alloc, &stmts, &names).ok()
}
