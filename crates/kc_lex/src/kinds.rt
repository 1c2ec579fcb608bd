ghost use Rattle.std.specs.Prelude.{◌≡◌, [], ◌∷◌, ◌≤◌, ◌<◌, true, length, drop, take};
ghost use Rattle.std.specs.Str.{bytes_eq};
ghost use Rattle.kc_lex.specs.Kinds as kinds;

use crate::token::{Token, TokenKind};
use crate::words::is_reserved;

fn is_alone(text: &[u8], sign: u8) -> bool
    ensures { result ≡ bytes_eq text.now (sign ∷ []) }
{
    match text {
        [only] => *only == sign,
        _ => false,
    }
}

/// Whether a token is this sign.
pub fn is_sign(token: &Token, sign: u8) -> bool
    ensures { result ≡ kinds.is_sign sign token.now }
{
    matches!(token.kind, TokenKind::Sign) && is_alone(token.text.as_slice(), sign)
}

/// Whether a token is this word, given in upper case.
pub fn is_word(token: &Token, word: &[u8]) -> bool
    ensures { result ≡ kinds.is_word word.now token.now }
{
    matches!(token.kind, TokenKind::Name) && token.text.as_slice() == word
}

/// Whether a token is a name or a reserved word.
pub fn is_name(token: &Token) -> bool
    ensures { result ≡ kinds.is_name_kind token.now.kind }
{
    matches!(token.kind, TokenKind::Name)
}

/// Whether a token is a number.
pub fn is_number(token: &Token) -> bool
    ensures { result ≡ kinds.is_number_kind token.now.kind }
{
    matches!(token.kind, TokenKind::Number)
}

/// Whether a token is a string.
pub fn is_chars(token: &Token) -> bool
    ensures { result ≡ kinds.is_chars_kind token.now.kind }
{
    matches!(token.kind, TokenKind::Chars)
}

/// Whether a token is a name that a program may define.
pub fn is_free_name(token: &Token) -> bool
    ensures { result ≡ kinds.is_free_name token.now }
{
    is_name(token) && !is_reserved(token.text.as_slice())
}

/// The tokens from a place on.
pub fn rest(tokens: &[Token], at: usize) -> &[Token]
    requires { at ≤ length tokens.now }
    ensures { result.now ≡ drop at tokens.now }
{
    tokens.split_at(at).1
}

/// The first n tokens.
pub fn prefix(tokens: &[Token], n: usize) -> &[Token]
    requires { n ≤ length tokens.now }
    ensures { result.now ≡ take n tokens.now }
{
    tokens.split_at(n).0
}

/// Whether the first token is this sign.
pub fn begins_sign(tokens: &[Token], sign: u8) -> bool
    ensures value { result ≡ kinds.begins_sign sign tokens.now }
    ensures some { result ≡ true → 0 < length tokens.now }
{
    match tokens {
        [] => false,
        [first, ..] => is_sign(first, sign),
    }
}

/// Whether the first tokens are a label: a name that a program may define, and a colon.
pub fn has_label(tokens: &[Token]) -> bool
    ensures value { result ≡ kinds.has_label tokens.now }
    ensures two { result ≡ true → 2 ≤ length tokens.now }
{
    match tokens {
        [name, colon, ..] => is_sign(colon, b':') && is_free_name(name),
        _ => false,
    }
}

/// Whether the first token is this word, given in upper case.
pub fn begins_word(tokens: &[Token], word: &[u8]) -> bool
    ensures value { result ≡ kinds.begins_word word.now tokens.now }
    ensures some { result ≡ true → 0 < length tokens.now }
{
    match tokens {
        [] => false,
        [first, ..] => is_word(first, word),
    }
}
