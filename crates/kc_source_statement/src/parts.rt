ghost use Rattle.std.specs.Prelude.{◌≡◌, ◌≤◌, not, length, map, IfOk};
ghost use Rattle.std.specs.List.{take_while};
ghost use Rattle.std.specs.Option.{option_map};
ghost use Rattle.kc_lex.specs.Kinds as kinds;
ghost use Rattle.kc_source_statement.specs.Trees.{arg_tree, item_tree};
ghost use Rattle.kc_source_statement.specs.Operands as spec;

use crate::lists::{Args, Items, Names};
use crate::operands::{item, name, operand};
use kc_base::NoMemory;
use kc_lex::Token;
use kc_lex::kinds::{is_sign, prefix, rest};
use std::alloc::Global;

// How many tokens stand before the first comma.
fn part_len(tokens: &[Token]) -> usize
    ensures value { result ≡ length (take_while (λ t. not (kinds.is_sign 44 t)) tokens.now) }
    ensures within { result ≤ length tokens.now }
{
    tokens.iter().take_while(|t| !is_sign(t, b',')).count()
}

fn operand_parts(alloc: Global, tokens: &[Token]) -> Result<Option<Args>, NoMemory>
    ensures { IfOk result (λ o. spec.all_some spec.operand (spec.parts tokens.now) ≡ option_map (map arg_tree) o) }
{
    let mut args = Args::new(alloc);
    let mut left = tokens;
    'parts: loop {
        let n = part_len(left);
        let Some(arg) = operand(alloc, prefix(left, n))? else {
            return Ok(None);
        };
        args.push(arg)?;
        if n == left.len() {
            return Ok(Some(args));
        }
        left = rest(left, n + 1);
    }
}

/// The operands, with commas between, that take all the tokens.
#[tactic(auto, unfolding(crate::specs::Operands::operands_in))]
pub(crate) fn operands(alloc: Global, tokens: &[Token]) -> Result<Option<Args>, NoMemory>
    ensures { IfOk result (λ o. spec.operands_in tokens.now ≡ option_map (map arg_tree) o) }
{
    if tokens.is_empty() {
        return Ok(Some(Args::new(alloc)));
    }
    operand_parts(alloc, tokens)
}

/// The items of data, with commas between, that take all the tokens.
pub(crate) fn items(alloc: Global, bytes: bool, tokens: &[Token]) -> Result<Option<Items>, NoMemory>
    ensures { IfOk result (λ o. spec.items_in bytes tokens.now ≡ option_map (map item_tree) o) }
{
    let mut items = Items::new(alloc);
    let mut left = tokens;
    'parts: loop {
        let n = part_len(left);
        let Some(read) = item(alloc, bytes, prefix(left, n))? else {
            return Ok(None);
        };
        items.push(read)?;
        if n == left.len() {
            return Ok(Some(items));
        }
        left = rest(left, n + 1);
    }
}

/// The names, with commas between, that take all the tokens.
pub(crate) fn names(alloc: Global, typed: bool, tokens: &[Token]) -> Result<Option<Names>, NoMemory>
    ensures { IfOk result (λ o. spec.names_in typed tokens.now ≡ o) }
{
    let mut names = Names::new(alloc);
    let mut left = tokens;
    'parts: loop {
        let n = part_len(left);
        let Some(read) = name(alloc, typed, prefix(left, n))? else {
            return Ok(None);
        };
        names.push(read)?;
        if n == left.len() {
            return Ok(Some(names));
        }
        left = rest(left, n + 1);
    }
}
