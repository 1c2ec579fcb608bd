ghost use Rattle.std.specs.Prelude.{◌≡◌, ◌≤◌, length, true};
ghost use Rattle.kc_macro_body.specs.Words as words;

use kc_lex::Token;
use kc_lex::kinds::{begins_word, has_label, is_name, is_word};

/// As which word a line is matched.
#[derive(Clone, Copy, PartialEq, Eq)]
pub enum Word {
    Macro,
    Local,
    Exitm,
    Else,
    Endif,
    Endm,
    If,
    Rept,
    Irp,
    End,
    Other,
}

fn labelled_word(token: &Token) -> Word
    ensures { result ≡ words.labelled_word token.now }
{
    if is_word(token, b"IF") {
        Word::If
    } else if is_word(token, b"REPT") {
        Word::Rept
    } else if is_word(token, b"IRP") {
        Word::Irp
    } else if is_word(token, b"END") {
        Word::End
    } else {
        Word::Other
    }
}

fn bare_word(token: &Token) -> Word
    ensures { result ≡ words.bare_word token.now }
{
    if is_word(token, b"MACRO") {
        Word::Macro
    } else if is_word(token, b"LOCAL") {
        Word::Local
    } else if is_word(token, b"EXITM") {
        Word::Exitm
    } else if is_word(token, b"ELSE") {
        Word::Else
    } else if is_word(token, b"ENDIF") {
        Word::Endif
    } else if is_word(token, b"ENDM") {
        Word::Endm
    } else {
        labelled_word(token)
    }
}

fn is_other(word: Word) -> bool
    ensures { result ≡ words.is_other word }
{
    matches!(word, Word::Other)
}

/// The word of a line that has no label.
pub fn unlabelled(tokens: &[Token]) -> Word
    ensures { result ≡ words.unlabelled tokens.now }
{
    match tokens {
        [] => Word::Other,
        [first, rest @ ..] => {
            let word = bare_word(first);
            if is_name(first) && is_other(word) && begins_word(rest, b"MACRO") {
                Word::Macro
            } else {
                word
            }
        }
    }
}

/// The word of what stands behind a label.
pub fn behind_label(tokens: &[Token]) -> Word
    ensures { result ≡ words.behind_label tokens.now }
{
    match tokens {
        [] => Word::Other,
        [first, ..] => labelled_word(first),
    }
}

fn behind_two(tokens: &[Token]) -> Word
    ensures { result ≡ words.behind_two tokens.now }
{
    match tokens {
        [_, _, third, ..] => labelled_word(third),
        _ => Word::Other,
    }
}

/// The word of a line, behind its label where it has one.
#[tactic(auto, unfolding(crate::specs::Words::word_of))]
pub fn word_of(tokens: &[Token]) -> Word
    ensures { result ≡ words.word_of tokens.now }
{
    if has_label(tokens) {
        behind_two(tokens)
    } else {
        unlabelled(tokens)
    }
}
