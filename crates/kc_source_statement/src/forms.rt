ghost use Rattle.std.specs.Prelude.{◌≡◌, ◌≤◌, length, IfOk, Some, false, true};
ghost use Rattle.std.specs.Option.{option_map};
ghost use Rattle.kc_expr.specs.Tree.{tree_of};
ghost use Rattle.kc_expr.specs.Grammar.{parsed};
ghost use Rattle.kc_source_statement.specs.Trees.{action_tree};
ghost use Rattle.kc_source_statement.specs.Trees as trees;
ghost use Rattle.kc_source_statement.specs.Operands.{whole as whole_of, names_in};
ghost use Rattle.kc_source_statement.specs.Statements as spec;

use crate::operands::{expression, whole};
use crate::parts::{items, names};
use crate::statement::Action;
use kc_base::{NoMemory, Text};
use kc_expr::Expr;
use kc_lex::kinds::{begins_word, is_sign, is_word, rest};
use kc_lex::{Directive, Token};
use std::alloc::Global;

// Nothing, or AT and a place.
#[tactic(auto, unfolding(crate::specs::Statements::segment_in))]
fn segment(alloc: Global, tokens: &[Token]) -> Result<Option<Option<Expr>>, NoMemory>
    ensures { IfOk result (λ o. spec.segment_in tokens.now ≡ option_map (option_map tree_of) o) }
{
    if tokens.is_empty() {
        return Ok(Some(None));
    }
    if begins_word(tokens, b"AT") {
        match whole(alloc, rest(tokens, 1))? {
            None => Ok(None),
            Some(at) => Ok(Some(Some(at))),
        }
    } else {
        Ok(None)
    }
}

fn is_stack_part(tokens: &[Token]) -> bool
    ensures value { result ≡ spec.is_stack_part tokens.now }
    ensures some { result ≡ true → 3 ≤ length tokens.now }
{
    match tokens {
        [comma, word, open, ..] => {
            is_sign(comma, b',') && is_word(word, b"STACKSIZE") && is_sign(open, b'(')
        }
        _ => false,
    }
}

fn is_end_of_group(tokens: &[Token]) -> bool
    ensures { result ≡ spec.is_end_of_group tokens.now }
{
    match tokens {
        [close] => is_sign(close, b')'),
        _ => false,
    }
}

// The expression before a closing parenthesis that is the last token.
fn grouped(alloc: Global, tokens: &[Token]) -> Result<Option<Expr>, NoMemory>
    ensures { IfOk result (λ o. spec.grouped_whole (parsed tokens.now) ≡ option_map tree_of o) }
{
    match expression(alloc, tokens)? {
        None => Ok(None),
        Some((expr, next)) => {
            if is_end_of_group(rest(tokens, next)) {
                Ok(Some(expr))
            } else {
                Ok(None)
            }
        }
    }
}

// Nothing, or a comma and the bytes of stack.
#[tactic(auto, unfolding(crate::specs::Statements::stack_in))]
fn stack(alloc: Global, tokens: &[Token]) -> Result<Option<Option<Expr>>, NoMemory>
    ensures { IfOk result (λ o. spec.stack_in tokens.now ≡ option_map (option_map tree_of) o) }
{
    if tokens.is_empty() {
        return Ok(Some(None));
    }
    if is_stack_part(tokens) {
        match grouped(alloc, rest(tokens, 3))? {
            None => Ok(None),
            Some(size) => Ok(Some(Some(size))),
        }
    } else {
        Ok(None)
    }
}

fn past_main(tokens: &[Token]) -> &[Token]
    ensures { result.now ≡ spec.past_main tokens.now }
{
    if begins_word(tokens, b"MAIN") {
        rest(tokens, 1)
    } else {
        tokens
    }
}

fn module(alloc: Global, name: Option<Text>, tokens: &[Token]) -> Result<Option<Action>, NoMemory>
    ensures { IfOk result (λ o. spec.module_in name tokens.now ≡ option_map action_tree o) }
{
    match stack(alloc, past_main(tokens))? {
        None => Ok(None),
        Some(stack) => Ok(Some(Action::Module { name, stack })),
    }
}

fn cseg(alloc: Global, tokens: &[Token]) -> Result<Option<Action>, NoMemory>
    ensures { IfOk result (λ o. option_map (λ at. trees.Cseg at) (spec.segment_in tokens.now) ≡ option_map action_tree o) }
{
    match segment(alloc, tokens)? {
        None => Ok(None),
        Some(at) => Ok(Some(Action::Cseg(at))),
    }
}

fn dseg(alloc: Global, tokens: &[Token]) -> Result<Option<Action>, NoMemory>
    ensures { IfOk result (λ o. option_map (λ at. trees.Dseg at) (spec.segment_in tokens.now) ≡ option_map action_tree o) }
{
    match segment(alloc, tokens)? {
        None => Ok(None),
        Some(at) => Ok(Some(Action::Dseg(at))),
    }
}

fn rseg(alloc: Global, tokens: &[Token]) -> Result<Option<Action>, NoMemory>
    ensures { IfOk result (λ o. option_map (λ at. trees.Rseg at) (spec.segment_in tokens.now) ≡ option_map action_tree o) }
{
    match segment(alloc, tokens)? {
        None => Ok(None),
        Some(at) => Ok(Some(Action::Rseg(at))),
    }
}

fn sseg(alloc: Global, tokens: &[Token]) -> Result<Option<Action>, NoMemory>
    ensures { IfOk result (λ o. option_map (λ x. trees.Sseg x) (whole_of tokens.now) ≡ option_map action_tree o) }
{
    match whole(alloc, tokens)? {
        None => Ok(None),
        Some(size) => Ok(Some(Action::Sseg(size))),
    }
}

fn org(alloc: Global, tokens: &[Token]) -> Result<Option<Action>, NoMemory>
    ensures { IfOk result (λ o. option_map (λ x. trees.Org x) (whole_of tokens.now) ≡ option_map action_tree o) }
{
    match whole(alloc, tokens)? {
        None => Ok(None),
        Some(place) => Ok(Some(Action::Org(place))),
    }
}

fn public(alloc: Global, tokens: &[Token]) -> Result<Option<Action>, NoMemory>
    ensures { IfOk result (λ o. option_map (λ ns. trees.Public ns) (names_in false tokens.now) ≡ option_map action_tree o) }
{
    match names(alloc, false, tokens)? {
        None => Ok(None),
        Some(names) => Ok(Some(Action::Public(names))),
    }
}

fn extrn(alloc: Global, tokens: &[Token]) -> Result<Option<Action>, NoMemory>
    ensures { IfOk result (λ o. option_map (λ ns. trees.Extrn ns) (names_in true tokens.now) ≡ option_map action_tree o) }
{
    match names(alloc, true, tokens)? {
        None => Ok(None),
        Some(names) => Ok(Some(Action::Extrn(names))),
    }
}

fn define(alloc: Global, size: u8, tokens: &[Token]) -> Result<Option<Action>, NoMemory>
    ensures { IfOk result (λ o. spec.defined_in size tokens.now ≡ option_map action_tree o) }
{
    match items(alloc, size == 1, tokens)? {
        None => Ok(None),
        Some(items) => Ok(Some(Action::Define(size, items))),
    }
}

fn reserve(alloc: Global, size: u8, tokens: &[Token]) -> Result<Option<Action>, NoMemory>
    ensures { IfOk result (λ o. spec.reserved_in size tokens.now ≡ option_map action_tree o) }
{
    match whole(alloc, tokens)? {
        None => Ok(None),
        Some(count) => Ok(Some(Action::Reserve(size, count))),
    }
}

fn even(tokens: &[Token]) -> Option<Action>
    ensures { spec.alone_in trees.Even tokens.now ≡ option_map action_tree result }
{
    if tokens.is_empty() {
        Some(Action::Even)
    } else {
        None
    }
}

fn end(tokens: &[Token]) -> Option<Action>
    ensures { spec.alone_in trees.End tokens.now ≡ option_map action_tree result }
{
    if tokens.is_empty() {
        Some(Action::End)
    } else {
        None
    }
}

/// What a directive says with the tokens behind it, or none where they have not its form.
#[tactic(auto, unfolding(crate::specs::Statements::directive_in))]
pub(crate) fn directive(
    alloc: Global,
    directive: Directive,
    tokens: &[Token],
) -> Result<Option<Action>, NoMemory>
    ensures { IfOk result (λ o. spec.directive_in directive tokens.now ≡ option_map action_tree o) }
{
    match directive {
        Directive::Module => module(alloc, None, tokens),
        Directive::Cseg => cseg(alloc, tokens),
        Directive::Dseg => dseg(alloc, tokens),
        Directive::Rseg => rseg(alloc, tokens),
        Directive::Sseg => sseg(alloc, tokens),
        Directive::Public => public(alloc, tokens),
        Directive::Extrn => extrn(alloc, tokens),
        Directive::Dcb => define(alloc, 1, tokens),
        Directive::Dcw => define(alloc, 2, tokens),
        Directive::Dcl => define(alloc, 4, tokens),
        Directive::Dsb => reserve(alloc, 1, tokens),
        Directive::Dsw => reserve(alloc, 2, tokens),
        Directive::Dsl => reserve(alloc, 4, tokens),
        Directive::Org => org(alloc, tokens),
        Directive::Even => Ok(even(tokens)),
        Directive::End => Ok(end(tokens)),
        _ => Ok(None),
    }
}

fn equ(alloc: Global, name: &Token, tokens: &[Token]) -> Result<Option<Action>, NoMemory>
    ensures { IfOk result (λ o. option_map (λ x. trees.Equ name.now.text x) (whole_of tokens.now) ≡ option_map action_tree o) }
{
    match whole(alloc, tokens)? {
        None => Ok(None),
        Some(value) => {
            let name = Text::of(alloc, name.text.as_slice())?;
            Ok(Some(Action::Equ(name, value)))
        }
    }
}

fn set(alloc: Global, name: &Token, tokens: &[Token]) -> Result<Option<Action>, NoMemory>
    ensures { IfOk result (λ o. option_map (λ x. trees.Set name.now.text x) (whole_of tokens.now) ≡ option_map action_tree o) }
{
    match whole(alloc, tokens)? {
        None => Ok(None),
        Some(value) => {
            let name = Text::of(alloc, name.text.as_slice())?;
            Ok(Some(Action::Set(name, value)))
        }
    }
}

fn named_module(alloc: Global, name: &Token, tokens: &[Token]) -> Result<Option<Action>, NoMemory>
    ensures { IfOk result (λ o. spec.module_in (Some name.now.text) tokens.now ≡ option_map action_tree o) }
{
    let name = Text::of(alloc, name.text.as_slice())?;
    module(alloc, Some(name), tokens)
}

/// What EQU, SET or MODULE behind a name says with the tokens behind it, or none where they have not its form.
#[tactic(auto, unfolding(crate::specs::Statements::definition_in))]
pub(crate) fn definition(
    alloc: Global,
    name: &Token,
    directive: Directive,
    tokens: &[Token],
) -> Result<Option<Action>, NoMemory>
    ensures { IfOk result (λ o. spec.definition_in name.now.text directive tokens.now ≡ option_map action_tree o) }
{
    match directive {
        Directive::Equ => equ(alloc, name, tokens),
        Directive::Set => set(alloc, name, tokens),
        Directive::Module => named_module(alloc, name, tokens),
        _ => Ok(None),
    }
}
