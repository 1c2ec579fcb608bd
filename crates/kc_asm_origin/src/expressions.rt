//! The first name of a statement's expressions that means nothing.

ghost use Rattle.std.specs.Prelude.{◌≡◌, ◌∷◌, [], map, IfOk};
ghost use Rattle.std.specs.Option.{option_map};
ghost use Rattle.kc_expr.specs.Tree.{tree_of};
ghost use Rattle.kc_source_statement.specs.Trees.{action_tree, arg_tree, item_tree};
ghost use Rattle.kc_asm_symbols.specs.Externals.{optional_tree, arg_trees, item_trees, all_trees, action_trees};
ghost use Rattle.kc_asm_origin.specs.Values as spec;

use kc_base::{NoMemory, Text};
use kc_expr::{Expr, NoValue, Scope, Value};
use kc_lex::SourceCode;
use kc_source_statement::{Action, Arg, Item};
use std::alloc::Global;

fn means_nothing(answer: Result<Value, NoValue>) -> bool
    ensures { result ≡ spec.means_nothing answer }
{
    matches!(answer, Err(NoValue::Fault(SourceCode::NotDefined)))
}

#[tactic(auto, unfolding(crate::specs::Values::unknown_in))]
fn in_expr<S: Scope>(alloc: Global, expr: &Expr, scope: &S) -> Result<Option<Text>, NoMemory>
    ensures { IfOk result (λ o. o ≡ spec.unknown_in (S.answers scope.now) (tree_of expr.now)) }
{
    match expr {
        Expr::Number(_) | Expr::Chars(_) | Expr::Here => Ok(None),
        Expr::Name(name) => {
            if !means_nothing(scope.look(name.as_slice())) {
                return Ok(None);
            }
            let name = Text::of(alloc, name.as_slice())?;
            Ok(Some(name))
        }
        Expr::Unary(_, e) => in_expr(alloc, e, scope),
        Expr::Binary(_, a, b) => match in_expr(alloc, a, scope)? {
            Some(name) => Ok(Some(name)),
            None => in_expr(alloc, b, scope),
        },
    }
}

#[tactic(auto, unfolding(crate::specs::Values::unknown_among))]
fn in_one<S: Scope>(alloc: Global, expr: &Expr, scope: &S) -> Result<Option<Text>, NoMemory>
    ensures { IfOk result (λ o. o ≡ spec.unknown_among (S.answers scope.now) (tree_of expr.now ∷ [])) }
{
    in_expr(alloc, expr, scope)
}

#[tactic(auto, unfolding(crate::specs::Values::unknown_among))]
fn in_part<S: Scope>(
    alloc: Global,
    part: &Option<Expr>,
    scope: &S,
) -> Result<Option<Text>, NoMemory>
    ensures { IfOk result (λ o. o ≡ spec.unknown_among (S.answers scope.now) (optional_tree (option_map tree_of part.now))) }
{
    match part {
        None => Ok(None),
        Some(expr) => in_one(alloc, expr, scope),
    }
}

#[tactic(auto, unfolding(crate::specs::Values::unknown_among))]
fn in_arg<S: Scope>(alloc: Global, arg: &Arg, scope: &S) -> Result<Option<Text>, NoMemory>
    ensures { IfOk result (λ o. o ≡ spec.unknown_among (S.answers scope.now) (arg_trees (arg_tree arg.now))) }
{
    match arg {
        Arg::Plain(e) | Arg::Immediate(e) | Arg::Indirect(e) | Arg::Increment(e) => {
            in_one(alloc, e, scope)
        }
        Arg::Indexed(e, register) => match in_expr(alloc, e, scope)? {
            Some(name) => Ok(Some(name)),
            None => in_one(alloc, register, scope),
        },
    }
}

#[tactic(auto, unfolding(crate::specs::Values::unknown_among))]
fn in_item<S: Scope>(alloc: Global, item: &Item, scope: &S) -> Result<Option<Text>, NoMemory>
    ensures { IfOk result (λ o. o ≡ spec.unknown_among (S.answers scope.now) (item_trees (item_tree item.now))) }
{
    match item {
        Item::Value(e) => in_one(alloc, e, scope),
        Item::Chars(_) => Ok(None),
    }
}

fn in_args<S: Scope>(alloc: Global, args: &[Arg], scope: &S) -> Result<Option<Text>, NoMemory>
    ensures { IfOk result (λ o. o ≡ spec.unknown_among (S.answers scope.now) (all_trees arg_trees (map arg_tree args.now))) }
{
    for arg in args {
        let found = in_arg(alloc, arg, scope)?;
        match found {
            Some(name) => return Ok(Some(name)),
            None => {}
        }
    }
    Ok(None)
}

fn in_items<S: Scope>(alloc: Global, items: &[Item], scope: &S) -> Result<Option<Text>, NoMemory>
    ensures { IfOk result (λ o. o ≡ spec.unknown_among (S.answers scope.now) (all_trees item_trees (map item_tree items.now))) }
{
    for item in items {
        let found = in_item(alloc, item, scope)?;
        match found {
            Some(name) => return Ok(Some(name)),
            None => {}
        }
    }
    Ok(None)
}

/// The first name of the expressions of a statement that means nothing.
#[tactic(auto, unfolding(crate::specs::Values::unknown_among))]
pub(crate) fn unknown<S: Scope>(
    alloc: Global,
    action: &Action,
    scope: &S,
) -> Result<Option<Text>, NoMemory>
    ensures { IfOk result (λ o. o ≡ spec.unknown_among (S.answers scope.now) (action_trees (action_tree action.now))) }
{
    match action {
        Action::Module { name: _, stack } => in_part(alloc, stack, scope),
        Action::Cseg(at) | Action::Dseg(at) | Action::Rseg(at) => in_part(alloc, at, scope),
        Action::Sseg(size) => in_one(alloc, size, scope),
        Action::Equ(_, value) | Action::Set(_, value) => in_one(alloc, value, scope),
        Action::Define(_, items) => in_items(alloc, items.as_slice(), scope),
        Action::Reserve(_, count) => in_one(alloc, count, scope),
        Action::Org(place) => in_one(alloc, place, scope),
        Action::Operation { name: _, args } => in_args(alloc, args.as_slice(), scope),
        Action::Bare | Action::Even | Action::End | Action::Public(_) | Action::Extrn(_) => {
            Ok(None)
        }
    }
}
