ghost use Rattle.std.specs.Prelude.{◌≡◌, Ok, map, IfOk};
ghost use Rattle.std.specs.List.{flat_map, list_all};
ghost use Rattle.kc_expr.specs.Tree.{tree_of};
ghost use Rattle.kc_source_statement.specs.Trees.{item_tree, arg_tree, action_tree};
ghost use Rattle.std.specs.Option.{option_map};
ghost use Rattle.kc_source_statement.specs.Trees as trees;
ghost use Rattle.kc_asm_emit.specs.Arguments as arguments;
ghost use Rattle.kc_asm_emit.specs.Faults as faults;

use crate::operands::arguments;
use kc_asm_encode::{Argument, fault as operand_fault};
use kc_base::NoMemory;
use kc_expr::{Base, Expr, NoValue, Scope, Value, value_over};
use kc_lex::SourceCode;
use kc_lex::fault::lesser_number;
use kc_source_statement::{Action, Arg, Item};
use std::alloc::Global;

// The code of a fault that is reported here.
#[tactic(auto, unfolding(crate::specs::Faults::least))]
fn reported(fault: NoValue) -> Option<u8>
    ensures { result ≡ faults.least (faults.reported_here fault) }
{
    match fault {
        NoValue::Fault(code) => Some(code.number()),
        NoValue::ReportedElsewhere => None,
    }
}

#[tactic(auto, unfolding(crate::specs::Faults::least))]
fn value_fault<S: Scope>(expr: &Expr, scope: &S) -> Option<u8>
    ensures { result ≡ faults.least (faults.value_faults (S.answers scope.now) (tree_of expr.now)) }
{
    match value_over(expr, scope) {
        Ok(_) => None,
        Err(fault) => reported(fault),
    }
}

#[tactic(auto, unfolding(crate::specs::Faults::least))]
fn unless_fixed(value: Value) -> Option<u8>
    ensures { result ≡ faults.least (faults.unless_fixed (Ok value)) }
{
    if value.base == Base::Fixed {
        None
    } else {
        Some(SourceCode::NotFixed.number())
    }
}

#[tactic(auto, unfolding(crate::specs::Faults::least))]
fn fixed_fault<S: Scope>(expr: &Expr, scope: &S) -> Option<u8>
    ensures { result ≡ faults.least (faults.fixed_faults (S.answers scope.now) (tree_of expr.now)) }
{
    match value_over(expr, scope) {
        Ok(value) => unless_fixed(value),
        Err(fault) => reported(fault),
    }
}

#[tactic(auto, unfolding(crate::specs::Faults::least))]
fn part_fault<S: Scope>(part: &Option<Expr>, scope: &S) -> Option<u8>
    ensures { result ≡ faults.least (faults.part_faults (S.answers scope.now) (option_map tree_of part.now)) }
{
    match part {
        Some(expr) => fixed_fault(expr, scope),
        None => None,
    }
}

#[tactic(auto, unfolding(crate::specs::Faults::least))]
fn long_fault<S: Scope>(expr: &Expr, scope: &S) -> Option<u8>
    ensures { result ≡ faults.least (faults.long_faults (S.answers scope.now) (tree_of expr.now)) }
{
    match expr {
        Expr::Number(_) => None,
        _ => value_fault(expr, scope),
    }
}

#[tactic(auto, unfolding(crate::specs::Faults::least))]
fn item_fault<S: Scope>(size: u8, item: &Item, scope: &S) -> Option<u8>
    ensures { result ≡ faults.least (faults.item_faults (S.answers scope.now) size (item_tree item.now)) }
{
    match item {
        Item::Value(expr) => match size {
            1 | 2 => value_fault(expr, scope),
            _ => long_fault(expr, scope),
        },
        Item::Chars(_) => None,
    }
}

fn data_fault<S: Scope>(size: u8, items: &[Item], scope: &S) -> Option<u8>
    ensures { result ≡ faults.least (flat_map (faults.item_faults (S.answers scope.now) size) (map item_tree items.now)) }
{
    let mut code = None;
    for item in items {
        code = lesser_number(code, item_fault(size, item, scope));
    }
    code
}

#[tactic(auto, using(crate::proofs::FaultLemmas::least_append))]
fn operand_values_fault<S: Scope>(arg: &Arg, scope: &S) -> Option<u8>
    ensures { result ≡ faults.least (faults.operand_faults (S.answers scope.now) (arg_tree arg.now)) }
{
    match arg {
        Arg::Plain(value) | Arg::Immediate(value) => value_fault(value, scope),
        Arg::Indirect(register) | Arg::Increment(register) => value_fault(register, scope),
        Arg::Indexed(value, register) => lesser_number(
            value_fault(value, scope),
            value_fault(register, scope),
        ),
    }
}

fn operands_fault<S: Scope>(args: &[Arg], scope: &S) -> Option<u8>
    ensures { result ≡ faults.least (flat_map (faults.operand_faults (S.answers scope.now)) (map arg_tree args.now)) }
{
    let mut code = None;
    for arg in args {
        code = lesser_number(code, operand_values_fault(arg, scope));
    }
    code
}

// Whether each expression of an operand has a value.
fn has_values(arg: Argument) -> bool
    ensures { result ≡ arguments.has_values arg }
{
    match arg {
        Argument::Plain(value)
        | Argument::Immediate(value)
        | Argument::Indirect(value)
        | Argument::Increment(value) => value.is_some(),
        Argument::Indexed(value, register) => value.is_some() && register.is_some(),
    }
}

fn have_values(args: &[Argument]) -> bool
    ensures { result ≡ list_all arguments.has_values args.now }
{
    args.iter().all(|arg| has_values(*arg))
}

// Where the values are known. None of them lacks where there is no fault.
fn values_fault<S: Scope>(args: &[Arg], values: &[Argument], scope: &S) -> Option<u8>
    requires { values.now ≡ arguments.arguments (S.answers scope.now) (map arg_tree args.now) }
    ensures { result ≡ faults.least (flat_map (faults.operand_faults (S.answers scope.now)) (map arg_tree args.now)) }
{
    if have_values(values) {
        None
    } else {
        operands_fault(args, scope)
    }
}

#[tactic(auto, using(crate::proofs::FaultLemmas::least_append, crate::proofs::FaultLemmas::least_option))]
fn operation_fault<S: Scope>(
    alloc: Global,
    word: &[u8],
    args: &[Arg],
    scope: &S,
) -> Result<Option<u8>, NoMemory>
    ensures { IfOk result (λ c. c ≡ faults.least (faults.faults_of (S.answers scope.now) (trees.Operation word.now (map arg_tree args.now)))) }
{
    let values = arguments(alloc, args, scope)?;
    Ok(lesser_number(
        values_fault(args, values.as_slice(), scope),
        operand_fault(word, values.as_slice()),
    ))
}

/// The least code of the faults of a statement's values, over what names mean where it stands: those of its expressions (7
/// for a name without value, 9 for a number over 16 bits that is no item of DCL, 11 for a division by 0, 13 for arithmetic on
/// places; one that is reported where a name is defined is none here); 10 where a value has to be fixed and is not, in AT,
/// SSEG, STACKSIZE, ORG and what is reserved, as the number of a bit or of shifts; 12 for operands that do not fit.
/// (MCS-96 Macro Assembler User's Guide, "Expressions" and "Operands"; the codes are this kit's own.)
#[tactic(auto, unfolding(crate::specs::Faults::least))]
pub fn fault<S: Scope>(alloc: Global, action: &Action, scope: &S) -> Result<Option<u8>, NoMemory>
    ensures { IfOk result (λ c. c ≡ faults.least (faults.faults_of (S.answers scope.now) (action_tree action.now))) }
{
    match action {
        Action::Module { stack, .. } => Ok(part_fault(stack, scope)),
        Action::Cseg(at) | Action::Dseg(at) | Action::Rseg(at) => Ok(part_fault(at, scope)),
        Action::Sseg(value) | Action::Reserve(_, value) | Action::Org(value) => Ok(fixed_fault(
            value, scope,
        )),
        Action::Equ(_, value) | Action::Set(_, value) => Ok(value_fault(value, scope)),
        Action::Define(size, items) => Ok(data_fault(*size, items.as_slice(), scope)),
        Action::Operation { name, args } => operation_fault(
            alloc,
            name.as_slice(),
            args.as_slice(),
            scope,
        ),
        _ => Ok(None),
    }
}
