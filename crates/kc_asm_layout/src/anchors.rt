ghost use Rattle.std.specs.Prelude.{◌≡◌, map};
ghost use Rattle.std.specs.Option.{option_map};
ghost use Rattle.kc_expr.specs.Tree.{tree_of};
ghost use Rattle.kc_source_statement.specs.Trees.{arg_tree, action_tree};
ghost use Rattle.kc_asm_layout.specs.StatementSizes as spec;

use crate::size_record::Anchor;
use kc_asm_emit::fixed_of;
use kc_expr::{Base, Expr, NoValue, Scope, Value, value_over};
use kc_source_statement::{Action, Arg};

fn anchor_by(base: Base, number: u16) -> Anchor
    ensures { result ≡ spec.anchor_by base number }
{
    match base {
        Base::Piece(statement) => Anchor::Statement {
            number: statement,
            distance: number.cast_signed(),
        },
        Base::External(_) => Anchor::External,
        Base::Fixed | Base::Absolute => Anchor::Nothing,
    }
}

fn anchor_in(answer: Result<Value, NoValue>) -> Anchor
    ensures { result ≡ spec.anchor_in answer }
{
    match answer {
        Ok(value) => anchor_by(value.base, value.number),
        Err(_) => Anchor::Nothing,
    }
}

/// The target of a generic branch: the last operand, where it is plain. (MCS-96 Macro Assembler User's Guide, "Generic
/// Branches".)
#[tactic(auto, unfolding(crate::specs::StatementSizes::target))]
pub fn target(args: &[Arg]) -> Option<&Expr>
    ensures { option_map (λ e. tree_of e.now) result ≡ spec.target (map arg_tree args.now) }
{
    match args {
        [] => None,
        [last] => plain(last),
        [_, rest @ ..] => target(rest),
    }
}

fn plain(arg: &Arg) -> Option<&Expr>
    ensures { option_map (λ e. tree_of e.now) result ≡ spec.plain (arg_tree arg.now) }
{
    match arg {
        Arg::Plain(value) => Some(value),
        _ => None,
    }
}

// What the target of a generic branch counts from, where each statement is a base of its own.
pub(crate) fn anchor_at<S: Scope>(args: &[Arg], own: &S) -> Anchor
    ensures { result ≡ spec.anchor_of (S.answers own.now) (spec.target (map arg_tree args.now)) }
{
    match target(args) {
        Some(expr) => anchor_in(value_over(expr, own)),
        None => Anchor::Nothing,
    }
}

fn opened_at<S: Scope>(at: &Option<Expr>, scope: &S) -> Option<u16>
    ensures { result ≡ spec.opened_at (S.answers scope.now) (option_map tree_of at.now) }
{
    match at {
        None => None,
        Some(expr) => Some(fixed_of(expr, scope).unwrap_or(0)),
    }
}

/// The address of the absolute piece that a statement opens, if it opens one: that of AT, or 0 where its value is missing
/// or not fixed. (MCS-96 Macro Assembler User's Guide, "CSEG", "DSEG" and "RSEG".)
pub fn opens<S: Scope>(action: &Action, scope: &S) -> Option<u16>
    ensures { result ≡ spec.opens (S.answers scope.now) (action_tree action.now) }
{
    match action {
        Action::Cseg(at) | Action::Dseg(at) | Action::Rseg(at) => opened_at(at, scope),
        _ => None,
    }
}
