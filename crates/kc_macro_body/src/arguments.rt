ghost use Rattle.std.specs.Prelude.{◌≡◌, ◌≤◌, ◌<◌, ◌+◌, ◌^◌, ◌&&◌, ◌==◌, ◌++◌, length, IfOk, ◌∷◌, []};
ghost use Rattle.kc_lex.specs.Kinds.{is_sign};
ghost use Rattle.kc_macro_body.specs.Arguments as arguments;

use crate::copying::{copy_token, copy_tokens};
use crate::lists::{Names, Texts};
use kc_base::{NoMemory, Text};
use kc_lex::kinds::{is_free_name, is_sign, is_word};
use kc_lex::{Token, Tokens};
use std::alloc::Global;

fn group_depth(token: &Token, depth: usize) -> usize
    requires { depth < 2 ^ 63 }
    ensures value { result ≡ arguments.group_depth token.now depth }
    ensures small { result ≤ depth + 1 }
{
    if is_sign(token, b'<') {
        depth + 1
    } else if is_sign(token, b'>') {
        depth.saturating_sub(1)
    } else {
        depth
    }
}

fn splits(token: &Token, depth: usize) -> bool
    ensures { result ≡ (is_sign 44 token.now && (depth == 0)) }
{
    is_sign(token, b',') && depth == 0
}

fn is_zero(depth: usize) -> bool
    ensures { result ≡ (depth == 0) }
{
    depth == 0
}

fn is_nothing(tokens: &[Token]) -> bool
    ensures { result ≡ arguments.is_nothing tokens.now }
{
    matches!(tokens, [])
}

// Whether a group that is open ends with the last token.
fn closes(tokens: &[Token]) -> bool
    ensures { result ≡ arguments.closes 1 tokens.now }
{
    let mut depth = 1;
    let mut at = 0;
    while at < tokens.len() {
        let token = &tokens[at];
        depth = group_depth(token, depth);
        at += 1;
        if is_zero(depth) {
            return is_nothing(tokens.split_at(at).1);
        }
    }
    false
}

fn is_group(tokens: &[Token]) -> bool
    ensures { result ≡ arguments.is_group tokens.now }
{
    match tokens {
        [] => false,
        [first, rest @ ..] => is_sign(first, b'<') && closes(rest),
    }
}

fn inside(tokens: &[Token]) -> &[Token]
    requires { 1 ≤ length tokens.now }
    ensures { result.now ≡ arguments.inside tokens.now }
{
    let rest = tokens.split_at(1).1;
    rest.split_at(rest.len().saturating_sub(1)).0
}

// Appends an argument.
fn push_argument(alloc: Global, texts: &mut Texts, last: Tokens) -> Result<(), NoMemory>
    ensures { IfOk result (λ _. texts.new ≡ texts.old ++ arguments.ungrouped last ∷ []) }
{
    if is_group(last.as_slice()) && !last.as_slice().is_empty() {
        let inner = copy_tokens(alloc, inside(last.as_slice()))?;
        texts.push(inner)
    } else {
        texts.push(last)
    }
}

/// The arguments that some tokens are: commas outside `<` and `>` stand between them, one that is a whole group loses its
/// outer signs, and no tokens are no argument.
pub fn arguments(alloc: Global, tokens: &[Token]) -> Result<Texts, NoMemory>
    ensures { IfOk result (λ t. t ≡ arguments.arguments tokens.now) }
{
    let mut texts = Texts::new(alloc);
    if tokens.is_empty() {
        return Ok(texts);
    }
    let mut last = Tokens::new(alloc);
    let mut depth = 0;
    for token in tokens {
        if splits(token, depth) {
            push_argument(alloc, &mut texts, last)?;
            last = Tokens::new(alloc);
        } else {
            last.push(copy_token(alloc, token)?)?;
            depth = group_depth(token, depth);
        }
    }
    push_argument(alloc, &mut texts, last)?;
    Ok(texts)
}

/// Names between commas, or none where the tokens are no such list.
pub fn names(alloc: Global, tokens: &[Token]) -> Result<Option<Names>, NoMemory>
    ensures { IfOk result (λ o. o ≡ arguments.names_at tokens.now) }
{
    let mut params = Names::new(alloc);
    let mut at = 0;
    while at < tokens.len() {
        let name = &tokens[at];
        if !is_free_name(name) {
            return Ok(None);
        }
        params.push(Text::of(alloc, name.text.as_slice())?)?;
        if at + 1 == tokens.len() {
            return Ok(Some(params));
        }
        if !is_sign(&tokens[at + 1], b',') {
            return Ok(None);
        }
        at += 2;
    }
    Ok(None)
}

fn parameters(alloc: Global, tokens: &[Token]) -> Result<Option<Names>, NoMemory>
    ensures { IfOk result (λ o. o ≡ arguments.parameters tokens.now) }
{
    if tokens.is_empty() {
        Ok(Some(Names::new(alloc)))
    } else {
        names(alloc, tokens)
    }
}

/// The name and the parameters of a macro's first line.
pub fn definition(alloc: Global, tokens: &[Token]) -> Result<Option<(Text, Names)>, NoMemory>
    ensures { IfOk result (λ o. o ≡ arguments.definition tokens.now) }
{
    match tokens {
        [name, word, rest @ ..] => {
            if is_free_name(name) && is_word(word, b"MACRO") {
                match parameters(alloc, rest)? {
                    None => Ok(None),
                    Some(params) => Ok(Some((Text::of(alloc, name.text.as_slice())?, params))),
                }
            } else {
                Ok(None)
            }
        }
        _ => Ok(None),
    }
}

/// What stands behind IRP: the name, and the arguments over which it goes; none where a line has not this form.
pub fn over_arguments(alloc: Global, tokens: &[Token]) -> Result<Option<(Text, Texts)>, NoMemory>
    ensures { IfOk result (λ o. o ≡ arguments.over_arguments tokens.now) }
{
    match tokens {
        [name, comma, rest @ ..] => {
            if is_free_name(name) && is_sign(comma, b',') && is_group(rest) && !rest.is_empty() {
                let args = arguments(alloc, inside(rest))?;
                Ok(Some((Text::of(alloc, name.text.as_slice())?, args)))
            } else {
                Ok(None)
            }
        }
        _ => Ok(None),
    }
}
