//! What a statement puts where it stands.

ghost use Rattle.std.specs.Prelude.{◌≡◌, IfOk};
ghost use Rattle.kc_asm_check.specs.Walk.{stood};
ghost use Rattle.kc_asm_check.specs.Checked.{seen_put};
ghost use Rattle.kc_asm_check.specs.Putting as spec;

use crate::checked::Put;
use crate::locations::value_at;
use kc_asm_emit::content_of;
use kc_asm_layout::{Location, opens};
use kc_asm_symbols::Segment;
use kc_base::NoMemory;
use kc_expr::Scope;
use kc_source_statement::Stmt;
use std::alloc::Global;

/// Over what names mean at the statement.
pub(crate) fn put_of<S: Scope>(
    alloc: Global,
    segment: Segment,
    stmt: &Stmt,
    location: &Location,
    scope: &S,
) -> Result<Put, NoMemory>
    ensures { IfOk result (λ p. seen_put p ≡ spec.put_of (S.answers scope.now) (stood segment stmt.now location.now) location.now) }
{
    let here = value_at(segment, location.place);
    Ok(Put {
        content: content_of(alloc, &stmt.action, location.form, here, scope)?,
        opens: opens(&stmt.action, scope),
    })
}
