//! What a statement adds to the stack, and its public names.

ghost use Rattle.std.specs.Prelude.{◌≡◌, ◌+◌, ◌≤◌, ◌<◌, ◌^◌, List, unwrap_or};
ghost use Rattle.std.specs.List.{flat_map};
ghost use Rattle.std.specs.Option.{option_map};
ghost use Rattle.kc_expr.specs.Tree.{tree_of};
ghost use Rattle.kc_source_statement.specs.Trees.{action_tree};
ghost use Rattle.kc_asm_symbols.specs.Located.{Located};
ghost use Rattle.kc_asm_symbols.specs.Meanings.{in_all};
ghost use Rattle.kc_asm_symbols.specs.Walk.{IsBehind};
ghost use Rattle.kc_asm_emit.specs.Faults.{least};
ghost use Rattle.kc_asm_encode.specs.Values as values;
ghost use Rattle.kc_asm_check.specs.Codes as spec;

use crate::codes::when;
use kc_asm_emit::fixed_of;
use kc_asm_symbols::Meanings;
use kc_base::Text;
use kc_expr::{Base, Expr, NoValue, Scope, Value};
use kc_lex::SourceCode;
use kc_lex::fault::lesser_number;
use kc_source_statement::Action;

fn stack_part<S: Scope>(stack: &Option<Expr>, scope: &S) -> Option<u16>
    ensures { result ≡ spec.stack_part (S.answers scope.now) (option_map tree_of stack.now) }
{
    match stack {
        None => None,
        Some(size) => fixed_of(size, scope),
    }
}

fn stack_bytes<S: Scope>(action: &Action, scope: &S) -> Option<u16>
    ensures { result ≡ spec.stack_bytes (S.answers scope.now) (action_tree action.now) }
{
    match action {
        Action::Sseg(size) => fixed_of(size, scope),
        Action::Module { stack, .. } => stack_part(stack, scope),
        _ => None,
    }
}

/// The bytes of stack behind a statement, where so many stand before it. (MCS-96 Macro Assembler User's Guide, "SSEG".)
pub fn stack_after<S: Scope>(sum: u64, action: &Action, scope: &S) -> u64
    requires { sum + 65536 < 2 ^ 64 }
    ensures value { result ≡ spec.stack_after (S.answers scope.now) sum (action_tree action.now) }
    ensures few { result ≤ sum + 65535 }
{
    sum + u64::from(stack_bytes(action, scope).unwrap_or(0))
}

// 17 where the bytes of stack pass 65,535.
pub(crate) fn stack_fault<S: Scope>(sum: u64, action: &Action, scope: &S) -> Option<u8>
    requires { sum + 65536 < 2 ^ 64 }
    ensures { result ≡ least (spec.stack_faults (S.answers scope.now) sum (action_tree action.now)) }
{
    when(
        sum <= 65535 && 65535 < stack_after(sum, action, scope),
        SourceCode::PastTheEnd.number(),
    )
}

fn is_external(base: Base) -> bool
    ensures { result ≡ values.is_external base }
{
    match base {
        Base::External(_) => true,
        Base::Fixed | Base::Absolute | Base::Piece(_) => false,
    }
}

fn counts_from_external(answer: Result<Value, NoValue>) -> bool
    ensures { result ≡ spec.counts_from_external answer }
{
    match answer {
        Ok(value) => is_external(value.base),
        Err(_) => false,
    }
}

fn name_fault(name: &Text, meanings: &Meanings) -> Option<u8>
    ensures { (all before : List Located) → IsBehind meanings.now all before → result ≡ least (spec.name_faults (in_all all) name.now) }
{
    when(
        counts_from_external(meanings.last(name.as_slice())),
        SourceCode::NotPublic.number(),
    )
}

fn names_fault(names: &[Text], meanings: &Meanings) -> Option<u8>
    ensures { (all before : List Located) → IsBehind meanings.now all before → result ≡ least (flat_map (spec.name_faults (in_all all)) names.now) }
{
    let mut code = None;
    for name in names {
        code = lesser_number(code, name_fault(name, meanings));
    }
    code
}

// 20 for a public name that counts from an external.
pub(crate) fn public_fault(action: &Action, meanings: &Meanings) -> Option<u8>
    ensures { (all before : List Located) → IsBehind meanings.now all before → result ≡ least (spec.public_faults (in_all all) (action_tree action.now)) }
{
    match action {
        Action::Public(names) => names_fault(names.as_slice(), meanings),
        _ => when(false, SourceCode::NotPublic.number()),
    }
}
