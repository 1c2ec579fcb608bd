//! Lines that are marked with where they stand, and where the lines of an expansion of these were written.

ghost use Rattle.std.specs.Prelude.{◌≡◌, map, IfOk};
ghost use Rattle.kc_asm_origin.specs.Written as spec;

use kc_base::{NoMemory, Text};
use kc_lex::kinds::{has_label, is_number, rest};
use kc_lex::{Line, Token, Tokens};
use std::alloc::Global;

fn marked_token(alloc: Global, number: u32, token: &Token) -> Result<Token, NoMemory>
    ensures { IfOk result (λ t. t ≡ spec.marked_token number token.now) }
{
    Ok(Token {
        kind: token.kind,
        text: Text::of(alloc, token.text.as_slice())?,
        value: if is_number(token) {
            token.value
        } else {
            number
        },
    })
}

fn marked_tokens(alloc: Global, number: u32, tokens: &[Token]) -> Result<Tokens, NoMemory>
    ensures { IfOk result (λ ts. ts ≡ map (spec.marked_token number) tokens.now) }
{
    let mut copy = Tokens::new(alloc);
    for token in tokens {
        copy.push(marked_token(alloc, number, token)?)?;
    }
    Ok(copy)
}

fn marked_line(alloc: Global, line: &Line) -> Result<Line, NoMemory>
    ensures { IfOk result (λ l. l ≡ spec.marked_line line.now) }
{
    Ok(Line {
        number: line.number,
        tokens: marked_tokens(alloc, line.number, line.tokens.as_slice())?,
    })
}

/// A copy of lines in which each token that is no number has the number of its line for a value.
pub(crate) fn marked(alloc: Global, lines: &[Line]) -> Result<Vec<Line>, NoMemory>
    ensures { IfOk result (λ v. v.items ≡ spec.marked lines.now) }
{
    let mut copy = Vec::new(alloc);
    for line in lines {
        copy.push(marked_line(alloc, line)?)?;
    }
    Ok(copy)
}

#[tactic(auto, unfolding(crate::specs::Written::first_mark))]
fn first_mark(tokens: &[Token]) -> Option<u32>
    ensures { result ≡ spec.first_mark tokens.now }
{
    let mut left = tokens;
    while let [token, rest @ ..] = left {
        if !is_number(token) && token.value != 0 {
            return Some(token.value);
        }
        left = rest;
    }
    None
}

fn written_at(tokens: &[Token]) -> Option<u32>
    ensures { result ≡ spec.written_at tokens.now }
{
    if has_label(tokens) {
        first_mark(rest(tokens, 1))
    } else {
        first_mark(tokens)
    }
}

fn elsewhere(number: u32, line: Option<u32>) -> Option<u32>
    ensures { result ≡ spec.elsewhere number line }
{
    line.filter(|line| *line != number)
}

/// Of the lines of this number each, where it was written if elsewhere.
#[tactic(auto, unfolding(crate::specs::Written::places_of))]
pub(crate) fn places_of(
    alloc: Global,
    number: u32,
    lines: &[Line],
) -> Result<Vec<Option<u32>>, NoMemory>
    ensures { IfOk result (λ v. v.items ≡ spec.places_of number lines.now) }
{
    let mut places = Vec::new(alloc);
    let mut left = lines;
    while let [line, rest @ ..] = left {
        if line.number == number {
            let place = elsewhere(number, written_at(line.tokens.as_slice()));
            places.push(place)?;
        }
        left = rest;
    }
    Ok(places)
}
