ghost use Rattle.std.specs.Prelude.{◌≡◌, ℕ, suc, ◌+◌, ◌-◌, ◌*◌, ◌<◌, ◌≤◌, true, false, length, drop, Some, None, IfOk, IfSome, OnOk, IsSome, slice_index};
ghost use Rattle.kc_lex.specs.Kinds.{begins_sign};
ghost use Rattle.kc_expr.specs.Tree.{tree_of};
ghost use Rattle.kc_expr.specs.Grammar.{unary_first, binary_first, longest, past_suffix, seen, IsParsed};
ghost use Rattle.kc_expr.specs.Climb.{at_level, climbed, AreEnough};

use crate::expr::{Binary, Expr, Unary};
use crate::operators::{alone, binary_of, has_suffix, unary_of};
use kc_base::NoMemory;
use kc_lex::kinds::{is_sign, rest};
use kc_lex::{SourceCode, SourceFault, Token};
use std::alloc::Global;

/// The longest expression that begins at a place, and the place after it. Where none does, the fault has line 0 and
/// code 14, in whose place the caller puts its own.
pub fn parse(alloc: Global, tokens: &[Token], from: usize) -> Result<(Expr, usize), SourceFault>
    requires { from ≤ length tokens.now }
    ensures read { IsParsed tokens.now from result }
    ensures within { IfOk result (λ p. (from < p.1) × (p.1 ≤ length tokens.now)) }
{
    match level_at(alloc, tokens, from, 7) {
        Ok(Some((expr, next))) => Ok((expr, next)),
        Ok(None) => Err(SourceFault::At {
            line: 0,
            code: SourceCode::OtherOperands.number(),
        }),
        Err(NoMemory) => Err(SourceFault::NoMemory),
    }
}

// The longest expression of a level: an operand, or an operator before one, and what goes on with it.
#[cycle(parse)]
fn level_at(
    alloc: Global,
    tokens: &[Token],
    at: usize,
    level: u8,
) -> Result<Option<(Expr, usize)>, NoMemory>
    requires within { at ≤ length tokens.now }
    requires level { level ≤ 7 }
    ensures read { IfOk result (λ o. (n : ℕ) → 16 * (length tokens.now - at) + 2 * level ≤ n → longest (suc n) level (drop at tokens.now) ≡ seen tokens.now o) }
    ensures within { IfOk result (λ o. IfSome o (λ p. (at < p.1) × (p.1 ≤ length tokens.now))) }
{
    match unary_op(tokens, at, level) {
        Some((op, own)) => match level_at(alloc, tokens, at + 1, own)? {
            None => Ok(None),
            Some((operand, next)) => {
                let operand = Box::new(alloc, operand)?;
                let whole = climb(alloc, tokens, next, own, level, Expr::Unary(op, operand))?;
                Ok(Some(whole))
            }
        },
        None => match primary_at(alloc, tokens, at)? {
            None => Ok(None),
            Some((left, next)) => {
                let whole = climb(alloc, tokens, next, 0, level, left)?;
                Ok(Some(whole))
            }
        },
    }
}

// A token alone, or an expression in parentheses.
#[cycle(parse)]
fn primary_at(alloc: Global, tokens: &[Token], at: usize) -> Result<Option<(Expr, usize)>, NoMemory>
    requires { at ≤ length tokens.now }
    ensures read { IfOk result (λ o. (n : ℕ) → 16 * (length tokens.now - at) ≤ n → longest (suc n) 0 (drop at tokens.now) ≡ seen tokens.now o) }
    ensures within { IfOk result (λ o. IfSome o (λ p. (at < p.1) × (p.1 ≤ length tokens.now))) }
{
    if at == tokens.len() {
        return Ok(None);
    }
    if begins(tokens, at, b'(') {
        match level_at(alloc, tokens, at + 1, 7)? {
            None => Ok(None),
            Some((inner, next)) => {
                if begins(tokens, next, b')') {
                    let end = suffix_end(tokens, next + 1);
                    Ok(Some((inner, end)))
                } else {
                    Ok(None)
                }
            }
        }
    } else {
        match alone(alloc, &tokens[at])? {
            None => Ok(None),
            Some(expr) => {
                let end = suffix_end(tokens, at + 1);
                Ok(Some((expr, end)))
            }
        }
    }
}

// Goes on to the right with the operators that are looser than a level, up to another level.
#[cycle(parse)]
fn climb(
    alloc: Global,
    tokens: &[Token],
    at: usize,
    tight: u8,
    level: u8,
    left: Expr,
) -> Result<(Expr, usize), NoMemory>
    requires within { at ≤ length tokens.now }
    requires tight { tight ≤ level }
    requires level { level ≤ 7 }
    ensures read { IfOk result (λ p. (steps : ℕ → ℕ) → AreEnough steps tight level (length tokens.now - at) → climbed steps tight (level - tight) (Some (tree_of left, drop at tokens.now)) ≡ Some (tree_of p.0, drop p.1 tokens.now)) }
    ensures within { IfOk result (λ p. (at ≤ p.1) × (p.1 ≤ length tokens.now)) }
{
    match binary_op(tokens, at, tight, level) {
        None => Ok((left, at)),
        Some((op, own)) => match level_at(alloc, tokens, at + 1, own - 1)? {
            None => Ok((left, at)),
            Some((right, next)) => {
                let left = Box::new(alloc, left)?;
                let right = Box::new(alloc, right)?;
                let both = Expr::Binary(op, left, right);
                climb(alloc, tokens, next, own - 1, level, both)
            }
        },
    }
}

fn begins(tokens: &[Token], at: usize, sign: u8) -> bool
    requires { at ≤ length tokens.now }
    ensures value { result ≡ begins_sign sign (drop at tokens.now) }
    ensures within { result ≡ true → at < length tokens.now }
{
    match rest(tokens, at) {
        [] => false,
        [first, ..] => is_sign(first, sign),
    }
}

// The operator before an operand that stands at a place, and its level, if it is of the level or tighter.
fn unary_op(tokens: &[Token], at: usize, level: u8) -> Option<(Unary, u8)>
    requires { at ≤ length tokens.now }
    ensures value { (l : ℕ) → l ≤ level → unary_first l (drop at tokens.now) ≡ at_level l result }
    ensures within { IfSome result (λ _. at < length tokens.now) }
    ensures level { IfSome result (λ p. p.1 ≤ level) }
{
    match rest(tokens, at) {
        [] => None,
        [first, ..] => unary_of(first).filter(|found| found.1 <= level),
    }
}

// The operator between two operands that stands at a place, and its level, if that is between the two.
fn binary_op(tokens: &[Token], at: usize, tight: u8, level: u8) -> Option<(Binary, u8)>
    requires { at ≤ length tokens.now }
    ensures value { (l : ℕ) → tight < l → l ≤ level → binary_first l (drop at tokens.now) ≡ at_level l result }
    ensures within { IfSome result (λ _. at < length tokens.now) }
    ensures tight { IfSome result (λ p. tight < p.1) }
    ensures level { IfSome result (λ p. p.1 ≤ level) }
{
    match rest(tokens, at) {
        [] => None,
        [first, ..] => binary_of(first).filter(|found| tight < found.1 && found.1 <= level),
    }
}

// The place after a suffix, if one stands at the place.
#[tactic(auto, unfolding(crate::specs::Grammar::past_suffix))]
fn suffix_end(tokens: &[Token], at: usize) -> usize
    requires { at ≤ length tokens.now }
    ensures value { past_suffix (drop at tokens.now) ≡ drop result tokens.now }
    ensures low { at ≤ result }
    ensures within { result ≤ length tokens.now }
{
    if has_suffix(rest(tokens, at)) {
        at + 2
    } else {
        at
    }
}
