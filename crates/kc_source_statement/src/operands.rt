ghost use Rattle.std.specs.Prelude.{◌≡◌, ◌≤◌, ◌<◌, length, drop, map, None, IfOk, IfSome};
ghost use Rattle.std.specs.Option.{option_map};
ghost use Rattle.kc_expr.specs.Tree.{tree_of};
ghost use Rattle.kc_expr.specs.Grammar.{parsed, seen};
ghost use Rattle.kc_lex.specs.Takes.{takes};
ghost use Rattle.kc_source_statement.specs.Trees.{arg_tree, item_tree, Immediate};
ghost use Rattle.kc_source_statement.specs.Trees as trees;
ghost use Rattle.kc_source_statement.specs.Operands as spec;

use crate::statement::{Arg, Item};
use kc_base::{NoMemory, Text};
use kc_expr::{Expr, is_type, parse};
use kc_lex::kinds::{begins_sign, is_chars, is_free_name, is_sign, rest};
use kc_lex::words::takes;
use kc_lex::{Notation, Operands, SourceFault, Token};
use std::alloc::Global;

// The longest expression at the beginning, and how many tokens it takes.
pub(crate) fn expression(alloc: Global, tokens: &[Token]) -> Result<Option<(Expr, usize)>, NoMemory>
    ensures read { IfOk result (λ o. parsed tokens.now ≡ seen tokens.now o) }
    ensures within { IfOk result (λ o. IfSome o (λ p. p.1 ≤ length tokens.now)) }
{
    match parse(alloc, tokens, 0) {
        Ok((expr, next)) => Ok(Some((expr, next))),
        Err(SourceFault::At { .. }) => Ok(None),
        Err(SourceFault::NoMemory) => Err(NoMemory),
    }
}

fn is_end(tokens: &[Token], n: usize) -> bool
    requires { n ≤ length tokens.now }
    ensures { result ≡ spec.is_nil (drop n tokens.now) }
{
    rest(tokens, n).is_empty()
}

/// The expression that takes all the tokens.
#[tactic(auto, unfolding(crate::specs::Operands::whole))]
pub(crate) fn whole(alloc: Global, tokens: &[Token]) -> Result<Option<Expr>, NoMemory>
    ensures { IfOk result (λ o. spec.whole tokens.now ≡ option_map tree_of o) }
{
    match expression(alloc, tokens)? {
        None => Ok(None),
        Some((expr, next)) => {
            if is_end(tokens, next) {
                Ok(Some(expr))
            } else {
                Ok(None)
            }
        }
    }
}

fn is_close(tokens: &[Token]) -> bool
    ensures { result ≡ spec.is_close tokens.now }
{
    match tokens {
        [close] => is_sign(close, b']'),
        _ => false,
    }
}

fn is_close_plus(tokens: &[Token]) -> bool
    ensures { result ≡ spec.is_close_plus tokens.now }
{
    match tokens {
        [close, plus] => is_sign(close, b']') && is_sign(plus, b'+'),
        _ => false,
    }
}

// `[reg]` or `[reg]+`, behind the bracket.
fn pointed(alloc: Global, tokens: &[Token]) -> Result<Option<Arg>, NoMemory>
    ensures { IfOk result (λ o. spec.pointed (parsed tokens.now) ≡ option_map arg_tree o) }
{
    match expression(alloc, tokens)? {
        None => Ok(None),
        Some((register, next)) => {
            let behind = rest(tokens, next);
            if is_close(behind) {
                Ok(Some(Arg::Indirect(register)))
            } else if is_close_plus(behind) {
                Ok(Some(Arg::Increment(register)))
            } else {
                Ok(None)
            }
        }
    }
}

// `x[reg]`, behind the bracket.
fn with_register(alloc: Global, value: Expr, tokens: &[Token]) -> Result<Option<Arg>, NoMemory>
    ensures { IfOk result (λ o. spec.with_register (tree_of value) (parsed tokens.now) ≡ option_map arg_tree o) }
{
    match expression(alloc, tokens)? {
        None => Ok(None),
        Some((register, next)) => {
            if is_close(rest(tokens, next)) {
                Ok(Some(Arg::Indexed(value, register)))
            } else {
                Ok(None)
            }
        }
    }
}

fn plain_or_indexed(alloc: Global, tokens: &[Token]) -> Result<Option<Arg>, NoMemory>
    ensures { IfOk result (λ o. spec.plain_or_indexed (parsed tokens.now) ≡ option_map arg_tree o) }
{
    match expression(alloc, tokens)? {
        None => Ok(None),
        Some((value, next)) => {
            let behind = rest(tokens, next);
            if behind.is_empty() {
                Ok(Some(Arg::Plain(value)))
            } else if begins_sign(behind, b'[') {
                with_register(alloc, value, rest(behind, 1))
            } else {
                Ok(None)
            }
        }
    }
}

fn immediate(alloc: Global, tokens: &[Token]) -> Result<Option<Arg>, NoMemory>
    ensures { IfOk result (λ o. option_map (λ x. Immediate x) (spec.whole tokens.now) ≡ option_map arg_tree o) }
{
    match whole(alloc, tokens)? {
        None => Ok(None),
        Some(value) => Ok(Some(Arg::Immediate(value))),
    }
}

/// The operand that takes all the tokens.
#[tactic(auto, unfolding(crate::specs::Operands::operand))]
pub(crate) fn operand(alloc: Global, tokens: &[Token]) -> Result<Option<Arg>, NoMemory>
    ensures { IfOk result (λ o. spec.operand tokens.now ≡ option_map arg_tree o) }
{
    if begins_sign(tokens, b'#') {
        immediate(alloc, rest(tokens, 1))
    } else if begins_sign(tokens, b'[') {
        pointed(alloc, rest(tokens, 1))
    } else {
        plain_or_indexed(alloc, tokens)
    }
}

fn copied(alloc: Global, token: &Token) -> Result<Text, NoMemory>
    ensures { IfOk result (λ t. t ≡ token.now.text) }
{
    Text::of(alloc, token.text.as_slice())
}

// The string that takes all the tokens.
fn string(alloc: Global, tokens: &[Token]) -> Result<Option<Text>, NoMemory>
    ensures { IfOk result (λ o. spec.string_of tokens.now ≡ o) }
{
    match tokens {
        [token] => {
            if is_chars(token) {
                let text = copied(alloc, token)?;
                Ok(Some(text))
            } else {
                Ok(None)
            }
        }
        _ => Ok(None),
    }
}

fn value_item(alloc: Global, tokens: &[Token]) -> Result<Option<Item>, NoMemory>
    ensures { IfOk result (λ o. spec.string_or None (spec.whole tokens.now) ≡ option_map item_tree o) }
{
    match whole(alloc, tokens)? {
        None => Ok(None),
        Some(value) => Ok(Some(Item::Value(value))),
    }
}

fn byte_item(alloc: Global, tokens: &[Token]) -> Result<Option<Item>, NoMemory>
    ensures { IfOk result (λ o. spec.string_or (spec.string_of tokens.now) (spec.whole tokens.now) ≡ option_map item_tree o) }
{
    match string(alloc, tokens)? {
        None => value_item(alloc, tokens),
        Some(chars) => Ok(Some(Item::Chars(chars))),
    }
}

/// The item of data that takes all the tokens; of bytes also a string.
#[tactic(auto, unfolding(crate::specs::Operands::item))]
pub(crate) fn item(alloc: Global, bytes: bool, tokens: &[Token]) -> Result<Option<Item>, NoMemory>
    ensures { IfOk result (λ o. spec.item bytes tokens.now ≡ option_map item_tree o) }
{
    if bytes {
        byte_item(alloc, tokens)
    } else {
        value_item(alloc, tokens)
    }
}

fn free_text(alloc: Global, token: &Token) -> Result<Option<Text>, NoMemory>
    ensures { IfOk result (λ o. spec.free_text token.now ≡ o) }
{
    if is_free_name(token) {
        let text = copied(alloc, token)?;
        Ok(Some(text))
    } else {
        Ok(None)
    }
}

/// The name that takes all the tokens, where it may have a type with that.
pub(crate) fn name(alloc: Global, typed: bool, tokens: &[Token]) -> Result<Option<Text>, NoMemory>
    ensures { IfOk result (λ o. spec.name_in typed tokens.now ≡ o) }
{
    match tokens {
        [name] => free_text(alloc, name),
        [name, colon, word] => {
            if typed && is_sign(colon, b':') && is_type(word) {
                free_text(alloc, name)
            } else {
                Ok(None)
            }
        }
        _ => Ok(None),
    }
}

fn notation(arg: &Arg) -> Notation
    ensures { result ≡ trees.notation (arg_tree arg.now) }
{
    match arg {
        Arg::Plain(_) => Notation::Plain,
        Arg::Immediate(_) => Notation::Immediate,
        Arg::Indirect(_) => Notation::Indirect,
        Arg::Increment(_) => Notation::Increment,
        Arg::Indexed(_, _) => Notation::Indexed,
    }
}

/// Whether an operation with operands of this form takes these.
pub(crate) fn are_taken(form: Operands, args: &[Arg]) -> bool
    ensures { result ≡ takes form (map trees.notation (map arg_tree args.now)) }
{
    match args {
        [] => takes(form, &[]),
        [a] => takes(form, &[notation(a)]),
        [a, b] => takes(form, &[notation(a), notation(b)]),
        [a, b, c] => takes(form, &[notation(a), notation(b), notation(c)]),
        _ => false,
    }
}
