ghost use Rattle.std.specs.Prelude.{◌≡◌, ℕ, ◌≤◌, ◌∷◌, [], length, drop, IfOk, codes};
ghost use Rattle.std.specs.Option.{option_map};
ghost use Rattle.kc_expr.specs.Tree.{tree_of};
ghost use Rattle.kc_expr.specs.Grammar as grammar;
ghost use Rattle.kc_expr.specs.Climb.{at_level};

use crate::expr::{Binary, Expr, Unary};
use kc_base::{NoMemory, Text};
use kc_lex::kinds::{is_sign, is_word};
use kc_lex::words::{is_reserved, is_stack};
use kc_lex::{Token, TokenKind};
use std::alloc::Global;

/// The operator before an operand that a token is, and its level.
pub(crate) fn unary_of(token: &Token) -> Option<(Unary, u8)>
    ensures { (level : ℕ) → grammar.unary_at level token.now ≡ at_level level result }
{
    if is_word(token, b"LOW") {
        Some((Unary::Low, 1))
    } else if is_word(token, b"HIGH") {
        Some((Unary::High, 1))
    } else if is_sign(token, b'+') {
        Some((Unary::Plus, 1))
    } else if is_sign(token, b'-') {
        Some((Unary::Minus, 1))
    } else if is_word(token, b"NOT") {
        Some((Unary::Not, 5))
    } else {
        None
    }
}

fn multiplying(token: &Token) -> Option<Binary>
    ensures { result ≡ grammar.multiplying token.now }
{
    if is_sign(token, b'*') {
        Some(Binary::Times)
    } else if is_sign(token, b'/') {
        Some(Binary::Over)
    } else if is_word(token, b"MOD") {
        Some(Binary::Mod)
    } else if is_word(token, b"SHL") {
        Some(Binary::Shl)
    } else if is_word(token, b"SHR") {
        Some(Binary::Shr)
    } else {
        None
    }
}

fn adding(token: &Token) -> Option<Binary>
    ensures { result ≡ grammar.adding token.now }
{
    if is_sign(token, b'+') {
        Some(Binary::Plus)
    } else if is_sign(token, b'-') {
        Some(Binary::Minus)
    } else {
        None
    }
}

fn comparing(token: &Token) -> Option<Binary>
    ensures { result ≡ grammar.comparing token.now }
{
    if is_word(token, b"EQ") {
        Some(Binary::Eq)
    } else if is_word(token, b"NE") {
        Some(Binary::Ne)
    } else if is_word(token, b"LT") {
        Some(Binary::Lt)
    } else if is_word(token, b"LE") {
        Some(Binary::Le)
    } else if is_word(token, b"GT") {
        Some(Binary::Gt)
    } else if is_word(token, b"GE") {
        Some(Binary::Ge)
    } else {
        None
    }
}

fn either(token: &Token) -> Option<Binary>
    ensures { result ≡ grammar.either token.now }
{
    if is_word(token, b"OR") {
        Some(Binary::Or)
    } else if is_word(token, b"XOR") {
        Some(Binary::Xor)
    } else {
        None
    }
}

fn meeting(token: &Token) -> Option<Binary>
    ensures { result ≡ grammar.meeting token.now }
{
    if is_word(token, b"AND") {
        Some(Binary::And)
    } else {
        None
    }
}

/// The operator between two operands that a token is, and its level.
pub(crate) fn binary_of(token: &Token) -> Option<(Binary, u8)>
    ensures { (level : ℕ) → grammar.binary_at level token.now ≡ at_level level result }
{
    if let Some(op) = adding(token) {
        Some((op, 3))
    } else if let Some(op) = multiplying(token) {
        Some((op, 2))
    } else if let Some(op) = comparing(token) {
        Some((op, 4))
    } else if let Some(op) = meeting(token) {
        Some((op, 6))
    } else if let Some(op) = either(token) {
        Some((op, 7))
    } else {
        None
    }
}

// Whether a word names a value: no reserved word does but STACK.
fn names_value(word: &[u8]) -> bool
    ensures { result ≡ grammar.names_value word.now }
{
    !is_reserved(word) || is_stack(word)
}

/// The expression that a token is alone, if it is one.
pub(crate) fn alone(alloc: Global, token: &Token) -> Result<Option<Expr>, NoMemory>
    ensures { IfOk result (λ o. grammar.alone token.now ≡ option_map tree_of o) }
{
    match token.kind {
        TokenKind::Number => Ok(Some(Expr::Number(token.value))),
        TokenKind::Chars => {
            let chars = token.text.as_slice();
            if chars.len() == 1 || chars.len() == 2 {
                let text = Text::of(alloc, chars)?;
                Ok(Some(Expr::Chars(text)))
            } else {
                Ok(None)
            }
        }
        TokenKind::Name => {
            if names_value(token.text.as_slice()) {
                let text = Text::of(alloc, token.text.as_slice())?;
                Ok(Some(Expr::Name(text)))
            } else {
                Ok(None)
            }
        }
        TokenKind::Sign => {
            if is_sign(token, b'$') {
                Ok(Some(Expr::Here))
            } else {
                Ok(None)
            }
        }
    }
}

/// Whether a token is a word that may stand behind `:` in an expression or an EXTRN.
pub fn is_type(token: &Token) -> bool
    ensures { result ≡ grammar.is_type token.now }
{
    is_word(token, b"BYTE")
        || is_word(token, b"WORD")
        || is_word(token, b"LONG")
        || is_word(token, b"ENTRY")
        || is_word(token, b"NULL")
}

/// Whether a suffix stands at the beginning.
pub(crate) fn has_suffix(tokens: &[Token]) -> bool
    ensures { result ≡ grammar.has_suffix tokens.now }
{
    match tokens {
        [colon, word, ..] => is_sign(colon, b':') && is_type(word),
        _ => false,
    }
}
