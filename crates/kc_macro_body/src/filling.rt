ghost use Rattle.std.specs.Prelude.{◌≡◌, ◌≤◌, ◌<◌, ◌+◌, ◌^◌, ◌++◌, ◌∷◌, [], length, IfOk, get_or, position};
ghost use Rattle.std.specs.FinMap as map;
ghost use Rattle.std.specs.Str.{bytes_eq};
ghost use Rattle.kc_macro_body.specs.Filling as filling;

use crate::bodies::place_of;
use crate::copying::copy_token;
use crate::given::Given;
use crate::macros::{Formals, Locals};
use kc_base::{NoMemory, Text, put_number};
use kc_lex::kinds::{is_name, is_sign};
use kc_lex::words::{is_name_text, upper};
use kc_lex::{SourceCode, Token, TokenKind, Tokens};
use std::alloc::Global;

// Appends copies of tokens.
fn append(alloc: Global, line: &mut Tokens, tokens: &[Token]) -> Result<(), NoMemory>
    ensures { IfOk result (λ _. line.new ≡ line.old ++ tokens.now) }
{
    for token in tokens {
        line.push(copy_token(alloc, token)?)?;
    }
    Ok(())
}

fn name_token(text: Text) -> Token
    ensures { result ≡ filling.name_token text }
{
    Token {
        kind: TokenKind::Name,
        text,
        value: 0,
    }
}

fn local_prefix(number: u128) -> &'static [u8]
    ensures { result.now ≡ filling.local_prefix number }
{
    if number < 10 {
        b"??000"
    } else if number < 100 {
        b"??00"
    } else if number < 1000 {
        b"??0"
    } else {
        b"??"
    }
}

fn two_texts(alloc: Global, first: &[u8], second: &[u8]) -> Result<Vec<u8>, NoMemory>
    ensures { IfOk result (λ v. v.items ≡ first.now ++ second.now) }
{
    let mut both = Vec::from_slice(alloc, first)?;
    both.extend_from_slice(second)?;
    Ok(both)
}

// The name that stands for a LOCAL name.
fn local_name(alloc: Global, number: u128) -> Result<Text, NoMemory>
    ensures { IfOk result (λ t. t ≡ filling.local_name number) }
{
    let mut name = Vec::from_slice(alloc, local_prefix(number))?;
    put_number(&mut name, number)?;
    Ok(Text::from_vec(name))
}

// Appends what stands for a name that is no parameter. So many LOCAL names have been given before.
fn append_local(
    alloc: Global,
    line: &mut Tokens,
    locals: &Locals,
    given: Given,
    token: &Token,
) -> Result<(), NoMemory>
    ensures { IfOk result (λ _. line.new ≡ line.old ++ filling.local_or token.now given (map.get locals.now.places token.now.text)) }
{
    match locals.places.look(token.text.as_slice()) {
        None => line.push(copy_token(alloc, token)?),
        Some(place) => line.push(name_token(local_name(alloc, given.number(place))?)),
    }
}

// Appends what stands for a name.
fn append_named(
    alloc: Global,
    line: &mut Tokens,
    formals: &Formals,
    args: &[Tokens],
    given: Given,
    token: &Token,
) -> Result<(), NoMemory>
    ensures { IfOk result (λ _. line.new ≡ line.old ++ filling.argument_or (filling.local_or token.now given (map.get formals.now.locals.places token.now.text)) args.now (position (bytes_eq token.now.text) formals.now.params)) }
{
    match place_of(token.text.as_slice(), formals.params.as_slice()) {
        None => append_local(alloc, line, &formals.locals, given, token),
        Some(place) => {
            if place < args.len() {
                append(alloc, line, args[place].as_slice())
            } else {
                Ok(())
            }
        }
    }
}

// Appends what stands for a token.
fn append_replaced(
    alloc: Global,
    line: &mut Tokens,
    formals: &Formals,
    args: &[Tokens],
    given: Given,
    token: &Token,
) -> Result<(), NoMemory>
    ensures { IfOk result (λ _. line.new ≡ line.old ++ filling.stands_for formals.now args.now given token.now) }
{
    if is_name(token) {
        append_named(alloc, line, formals, args, given, token)
    } else {
        line.push(copy_token(alloc, token)?)
    }
}

fn replaced(
    alloc: Global,
    formals: &Formals,
    args: &[Tokens],
    given: Given,
    tokens: &[Token],
) -> Result<Tokens, NoMemory>
    ensures { IfOk result (λ t. t ≡ filling.replaced formals.now args.now given tokens.now) }
{
    let mut line = Tokens::new(alloc);
    for token in tokens {
        append_replaced(alloc, &mut line, formals, args, given, token)?;
    }
    Ok(line)
}

fn is_join(token: &Token) -> bool
    ensures { result ≡ filling.is_join token.now }
{
    is_sign(token, b'&')
}

// The characters of two tokens as one name.
fn one_name(alloc: Global, first: &Token, second: &Token) -> Result<Option<Token>, NoMemory>
    ensures { IfOk result (λ o. o ≡ filling.one_name (first.now.text ++ second.now.text)) }
{
    let both = two_texts(alloc, first.text.as_slice(), second.text.as_slice())?;
    if is_name_text(both.as_slice()) {
        let text = upper(alloc, both.as_slice())?;
        Ok(Some(name_token(text)))
    } else {
        Ok(None)
    }
}

// Joins the neighbours of each `&` behind a first token.
fn joined_on(alloc: Global, first: &Token, tokens: &[Token]) -> Result<Option<Tokens>, NoMemory>
    ensures { IfOk result (λ o. o ≡ filling.joined_on first.now tokens.now) }
{
    let mut line = Tokens::new(alloc);
    let mut last = copy_token(alloc, first)?;
    let mut at = 0;
    while at < tokens.len() {
        let token = &tokens[at];
        if !is_join(token) {
            line.push(last)?;
            last = copy_token(alloc, token)?;
            at += 1;
            continue;
        }
        if at + 1 == tokens.len() {
            return Ok(None);
        }
        match one_name(alloc, &last, &tokens[at + 1])? {
            None => return Ok(None),
            Some(name) => last = name,
        }
        at += 2;
    }
    line.push(last)?;
    Ok(Some(line))
}

fn joined(alloc: Global, tokens: &[Token]) -> Result<Option<Tokens>, NoMemory>
    ensures { IfOk result (λ o. o ≡ filling.joined tokens.now) }
{
    match tokens {
        [] => Ok(Some(Tokens::new(alloc))),
        [first, rest @ ..] => {
            if is_join(first) {
                Ok(None)
            } else {
                joined_on(alloc, first, rest)
            }
        }
    }
}

fn is_long(tokens: &[Token]) -> bool
    ensures { result ≡ filling.is_long tokens.now }
{
    255 < tokens.len()
}

/// A line of a body with the arguments in place of its parameters, the names ??0001 and on in place of its LOCAL names,
/// of which so many have been given before, and the neighbours of each `&` joined. Else the least code of its faults: 1
/// where an `&` has not two neighbours or these are no name, 3 where it has over 255 tokens before they are joined.
#[tactic(auto, unfolding(crate::specs::Filling::filled))]
pub fn filled(
    alloc: Global,
    formals: &Formals,
    args: &[Tokens],
    given: Given,
    tokens: &[Token],
) -> Result<Result<Tokens, u8>, NoMemory>
    ensures { IfOk result (λ r. r ≡ filling.filled formals.now args.now given tokens.now) }
{
    let line = replaced(alloc, formals, args, given, tokens)?;
    match joined(alloc, line.as_slice())? {
        None => Ok(Err(SourceCode::NoStatement.number())),
        Some(joined) => {
            if is_long(line.as_slice()) {
                Ok(Err(SourceCode::LongLine.number()))
            } else {
                Ok(Ok(joined))
            }
        }
    }
}
