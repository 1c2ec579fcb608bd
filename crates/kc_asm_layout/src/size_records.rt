ghost use Rattle.std.specs.Prelude.{◌≡◌, map, IfOk};
ghost use Rattle.kc_expr.specs.declared.values.Value.{Value as ValueOf};
ghost use Rattle.kc_source_statement.specs.Trees.{arg_tree, action_tree};
ghost use Rattle.kc_source_statement.specs.Trees as trees;
ghost use Rattle.kc_asm_symbols.specs.Located.{located_at};
ghost use Rattle.kc_asm_layout.specs.StatementSizes as spec;

use crate::anchors::{anchor_at, opens};
use crate::size_record::{Body, SizeRecord};
use kc_asm_emit::{Extent, alignment_of, arguments, extent_of, operation_length};
use kc_asm_encode::branch_kind;
use kc_asm_symbols::Segment;
use kc_base::NoMemory;
use kc_branch::Form;
use kc_expr::{Scope, Value};
use kc_source_statement::{Action, Arg, Stmt};
use std::alloc::Global;

fn body_of(extent: Extent) -> Body
    ensures { result ≡ spec.body_of extent }
{
    match extent {
        Extent::Bytes(count) => Body::Bytes(count),
        Extent::Upto(place) => Body::Upto(place),
        Extent::Even => Body::Even,
    }
}

fn plain_body<S: Scope>(alloc: Global, action: &Action, look: &S) -> Result<Body, NoMemory>
    ensures { IfOk result (λ b. (here : ValueOf) → b ≡ spec.plain_body (S.answers look.now) here (action_tree action.now)) }
{
    let extent = extent_of(alloc, action, Form::First, look)?;
    Ok(body_of(extent))
}

// An operation is a generic branch or goes on by so many bytes, as its operands have it.
fn operation_body<S: Scope, T: Scope>(
    alloc: Global,
    word: &[u8],
    args: &[Arg],
    look: &S,
    own: &T,
) -> Result<Body, NoMemory>
    ensures { IfOk result (λ b. (here : ValueOf) → b ≡ spec.body_in (S.answers look.now) (T.answers own.now) here (trees.Operation word.now (map arg_tree args.now))) }
{
    let values = arguments(alloc, args, look)?;
    match branch_kind(word, values.as_slice()) {
        Some(kind) => Ok(Body::Branch {
            kind,
            anchor: anchor_at(args, own),
        }),
        None => {
            let count = operation_length(word, values.as_slice(), Form::First);
            Ok(Body::Bytes(count))
        }
    }
}

fn body_in<S: Scope, T: Scope>(
    alloc: Global,
    action: &Action,
    look: &S,
    own: &T,
) -> Result<Body, NoMemory>
    ensures { IfOk result (λ b. (here : ValueOf) → b ≡ spec.body_in (S.answers look.now) (T.answers own.now) here (action_tree action.now)) }
{
    match action {
        Action::Operation { name, args } => operation_body(
            alloc,
            name.as_slice(),
            args.as_slice(),
            look,
            own,
        ),
        _ => plain_body(alloc, action, look),
    }
}

/// The size record of a statement in a segment, over what names mean with all statements at 0, and with each as a base of its own.
pub(crate) fn size_record_of<S: Scope, T: Scope>(
    alloc: Global,
    segment: Segment,
    stmt: &Stmt,
    look: &S,
    own: &T,
) -> Result<SizeRecord, NoMemory>
    ensures { IfOk result (λ n. (here : ValueOf) → n ≡ spec.size_record_of (S.answers look.now) (T.answers own.now) (located_at segment here stmt.now)) }
{
    let body = body_in(alloc, &stmt.action, look, own)?;
    Ok(SizeRecord {
        segment,
        alignment: alignment_of(segment.kind, &stmt.action),
        body,
        opens: opens(&stmt.action, look),
    })
}
