ghost use Rattle.std.specs.Prelude.{◌≡◌};
ghost use Rattle.kc_expr.specs.Tree.{tree_of};
ghost use Rattle.kc_asm_emit.specs.Arguments as arguments;
ghost use Rattle.kc_asm_encode.specs.Values.{or_zero};

use kc_expr::{Base, Expr, Scope, Value, fixed, value_over};

/// The value of an expression over what names mean, where it has no fault.
pub fn value_of<S: Scope>(expr: &Expr, scope: &S) -> Option<Value>
    ensures { result ≡ arguments.value_of (S.answers scope.now) (tree_of expr.now) }
{
    match value_over(expr, scope) {
        Ok(value) => Some(value),
        Err(_) => None,
    }
}

// The value, and 0 where there is a fault.
pub(crate) fn value_or_zero<S: Scope>(expr: &Expr, scope: &S) -> Value
    ensures { result ≡ or_zero (arguments.value_of (S.answers scope.now) (tree_of expr.now)) }
{
    match value_of(expr, scope) {
        Some(value) => value,
        None => fixed(0),
    }
}

/// The number of an expression over what names mean, where it counts from nothing.
pub fn fixed_of<S: Scope>(expr: &Expr, scope: &S) -> Option<u16>
    ensures { result ≡ arguments.fixed_of (S.answers scope.now) (tree_of expr.now) }
{
    match value_over(expr, scope) {
        Ok(value) => {
            if value.base == Base::Fixed {
                Some(value.number)
            } else {
                None
            }
        }
        Err(_) => None,
    }
}
