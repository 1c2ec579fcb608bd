//! The first name of the statements at a line that means nothing, or may not be public.

ghost use Rattle.std.specs.Prelude.{◌≡◌, ◌≤◌, List, [], length, IfOk};
ghost use Rattle.kc_source_statement.specs.Formed.{given_names};
ghost use Rattle.kc_source_statement.specs.Trees.{action_tree};
ghost use Rattle.kc_asm_symbols.specs.Located.{Located, located_by};
ghost use Rattle.kc_asm_symbols.specs.Externals.{externals};
ghost use Rattle.kc_asm_symbols.specs.Meanings.{meaning, in_all};
ghost use Rattle.kc_asm_symbols.specs.Walk.{IsBehind, IsAt};
ghost use Rattle.kc_asm_layout.specs.StatementSizes.{at_zero};
ghost use Rattle.kc_asm_check.specs.Codes.{counts_from_external};
ghost use Rattle.kc_asm_origin.specs.Values as spec;

use crate::expressions::unknown;
use kc_asm_symbols::{Meanings, Names, Segment, externals, place_values};
use kc_base::{NoMemory, Text};
use kc_expr::{Base, NoValue, Value};
use kc_lex::SourceCode;
use kc_source_statement::{Action, Stmt};
use std::alloc::Global;

fn is_foreign(answer: Result<Value, NoValue>) -> bool
    ensures { result ≡ counts_from_external answer }
{
    match answer {
        Ok(value) => matches!(value.base, Base::External(_)),
        Err(_) => false,
    }
}

// The first of some names that counts from an external.
fn foreign(alloc: Global, names: &[Text], meanings: &Meanings) -> Result<Option<Text>, NoMemory>
    ensures { IfOk result (λ o. (all before : List Located) → IsBehind meanings.now all before → o ≡ spec.foreign_among (in_all all) names.now) }
{
    for name in names {
        let bytes = name.as_slice();
        if is_foreign(meanings.last(bytes)) {
            let reported = Text::of(alloc, bytes)?;
            return Ok(Some(reported));
        }
    }
    Ok(None)
}

#[tactic(auto, unfolding(crate::specs::Values::foreign_among))]
fn foreign_in(alloc: Global, action: &Action, meanings: &Meanings) -> Result<Option<Text>, NoMemory>
    ensures { IfOk result (λ o. (all before : List Located) → IsBehind meanings.now all before → o ≡ spec.foreign_among (in_all all) (given_names (action_tree action.now))) }
{
    match action {
        Action::Public(names) => foreign(alloc, names.as_slice(), meanings),
        Action::Bare | Action::Even | Action::End | Action::Extrn(_) => Ok(None),
        Action::Module { .. } | Action::Cseg(_) | Action::Dseg(_) | Action::Rseg(_) => Ok(None),
        Action::Sseg(_) | Action::Equ(_, _) | Action::Set(_, _) | Action::Org(_) => Ok(None),
        Action::Define(_, _) | Action::Reserve(_, _) | Action::Operation { .. } => Ok(None),
    }
}

// The name in the statement that the walk is at.
fn in_statement(
    alloc: Global,
    code: u8,
    action: &Action,
    meanings: &Meanings,
) -> Result<Option<Text>, NoMemory>
    ensures { IfOk result (λ o. (all before : List Located) (l : Located) → IsAt meanings.now all before l → o ≡ spec.symbol_in code (meaning all before l) (in_all all) (action_tree action.now)) }
{
    if code == SourceCode::NotDefined.number() {
        unknown(alloc, action, meanings)
    } else if code == SourceCode::NotPublic.number() {
        foreign_in(alloc, action, meanings)
    } else {
        Ok(None)
    }
}

fn on_line(
    alloc: Global,
    line: u32,
    code: u8,
    stmt: &Stmt,
    meanings: &Meanings,
) -> Result<Option<Text>, NoMemory>
    ensures { IfOk result (λ o. (all before : List Located) (l : Located) → IsAt meanings.now all before l → l.line ≡ stmt.now.line → l.action ≡ action_tree stmt.now.action → o ≡ spec.symbol_on line code all before l) }
{
    if stmt.line == line {
        in_statement(alloc, code, &stmt.action, meanings)
    } else {
        Ok(None)
    }
}

// What names mean before the first statement, where all stand at 0.
fn meanings_of(alloc: Global, stmts: &[Stmt]) -> Result<Meanings, NoMemory>
    requires { length (externals (located_by at_zero stmts.now)) ≤ 65536 }
    ensures { IfOk result (λ m. IsBehind m (located_by at_zero stmts.now) []) }
{
    let zeros = vec![in alloc; 0u32; stmts.len()]?;
    let values = place_values(alloc, stmts, &zeros)?;
    let taken = externals(alloc, stmts)?;
    let names = Names::new(alloc, stmts, &taken)?;
    let meanings = Meanings::new(alloc, &names, stmts, &values)?;
    Ok(meanings)
}

/// The name of the first of the statements at a line that has one.
pub(crate) fn valued(
    alloc: Global,
    stmts: &[Stmt],
    line: u32,
    code: u8,
) -> Result<Option<Text>, NoMemory>
    requires few { length stmts.now ≤ 65536 }
    requires few_externals { length (externals (located_by at_zero stmts.now)) ≤ 65536 }
    ensures { IfOk result (λ o. o ≡ spec.symbol_at line code (located_by at_zero stmts.now)) }
{
    let mut meanings = meanings_of(alloc, stmts)?;
    let mut segment = Segment::first();
    for i in 0..stmts.len() {
        let stmt = &stmts[i];
        meanings.enter(stmt, segment.value_at(0));
        let found = on_line(alloc, line, code, stmt, &meanings)?;
        match found {
            Some(name) => return Ok(Some(name)),
            None => {}
        }
        meanings.leave(alloc, stmt)?;
        segment = segment.after(&stmt.action);
    }
    Ok(None)
}
