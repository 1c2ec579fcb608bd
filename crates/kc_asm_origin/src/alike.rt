//! Whether two expansions differ in marks alone.

ghost use Rattle.std.specs.Prelude.{◌≡◌};
ghost use Rattle.kc_asm_origin.specs.Alike as spec;

use kc_lex::kinds::is_number;
use kc_lex::{Line, Token};

fn is_alike(first: &Token, second: &Token) -> bool
    ensures { result ≡ spec.is_alike first.now second.now }
{
    first.kind == second.kind
        && first.text.as_slice() == second.text.as_slice()
        && (!is_number(first) || first.value == second.value)
}

#[tactic(auto, unfolding(crate::specs::Alike::are_alike))]
fn are_alike(first: &[Token], second: &[Token]) -> bool
    ensures { result ≡ spec.are_alike first.now second.now }
{
    let mut left = first;
    let mut others = second;
    while let [token, rest @ ..] = left {
        let [other, behind @ ..] = others else {
            return false;
        };
        if !is_alike(token, other) {
            return false;
        }
        left = rest;
        others = behind;
    }
    others.is_empty()
}

fn is_line_alike(first: &Line, second: &Line) -> bool
    ensures { result ≡ spec.is_line_alike first.now second.now }
{
    first.number == second.number && are_alike(first.tokens.as_slice(), second.tokens.as_slice())
}

/// Whether two texts have the same numbers and tokens, but for marks.
#[tactic(auto, unfolding(crate::specs::Alike::are_lines_alike))]
pub(crate) fn are_lines_alike(first: &[Line], second: &[Line]) -> bool
    ensures { result ≡ spec.are_lines_alike first.now second.now }
{
    let mut left = first;
    let mut others = second;
    while let [line, rest @ ..] = left {
        let [other, behind @ ..] = others else {
            return false;
        };
        if !is_line_alike(line, other) {
            return false;
        }
        left = rest;
        others = behind;
    }
    others.is_empty()
}
