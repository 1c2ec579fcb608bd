//! Generic branches, and what counts for jumps.

ghost use Rattle.std.specs.Prelude.{◌≡◌, map};
ghost use Rattle.kc_source_statement.specs.Trees.{arg_tree, action_tree};
ghost use Rattle.kc_asm_emit.specs.Faults.{least};
ghost use Rattle.kc_asm_check.specs.Codes as spec;

use crate::codes::when;
use kc_asm_emit::value_of;
use kc_asm_layout::{Anchor, Body, target};
use kc_expr::Scope;
use kc_lex::SourceCode;
use kc_source_statement::{Action, Arg};

fn is_nothing(anchor: Anchor) -> bool
    ensures { result ≡ spec.is_nothing anchor }
{
    match anchor {
        Anchor::Statement { .. } | Anchor::External => false,
        Anchor::Nothing => true,
    }
}

fn counts_from_nothing(body: Body) -> bool
    ensures { result ≡ spec.counts_from_nothing body }
{
    match body {
        Body::Branch { anchor, .. } => is_nothing(anchor),
        Body::Bytes(_) | Body::Upto(_) | Body::Even => false,
    }
}

// Whether the target of a jump, the last operand, has a value.
fn has_target<S: Scope>(args: &[Arg], scope: &S) -> bool
    ensures { result ≡ spec.has_target (S.answers scope.now) (map arg_tree args.now) }
{
    match target(args) {
        Some(expr) => value_of(expr, scope).is_some(),
        None => false,
    }
}

// 24 for a generic branch whose target counts from nothing.
pub(crate) fn branch_fault<S: Scope>(body: Body, action: &Action, scope: &S) -> Option<u8>
    ensures { result ≡ least (spec.branch_faults (S.answers scope.now) body (action_tree action.now)) }
{
    match action {
        Action::Operation { args, .. } => when(
            counts_from_nothing(body) && has_target(args.as_slice(), scope),
            SourceCode::NoLabel.number(),
        ),
        _ => when(false, SourceCode::NoLabel.number()),
    }
}

// Whether the target of a jump, the last operand, has no value.
fn lacks_target<S: Scope>(args: &[Arg], scope: &S) -> bool
    ensures { result ≡ spec.lacks_target (S.answers scope.now) (map arg_tree args.now) }
{
    match target(args) {
        Some(expr) => value_of(expr, scope).is_none(),
        None => false,
    }
}

// Whether the jumps of a statement are examined.
pub(crate) fn checks_jumps<S: Scope>(action: &Action, scope: &S) -> bool
    ensures { result ≡ spec.checks_jumps (S.answers scope.now) (action_tree action.now) }
{
    match action {
        Action::Operation { args, .. } => !lacks_target(args.as_slice(), scope),
        _ => true,
    }
}
