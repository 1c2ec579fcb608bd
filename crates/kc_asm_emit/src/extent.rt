ghost use Rattle.std.specs.Prelude.{◌≡◌, min, length, map, IfOk};
ghost use Rattle.kc_expr.specs.declared.values.Value.{Value};
ghost use Rattle.kc_source_statement.specs.Trees.{arg_tree, item_tree, action_tree};
ghost use Rattle.kc_asm_encode.specs.Instructions.{instructions};
ghost use Rattle.kc_asm_encode.specs.RelocatableBytes.{all_relocatable_bytes};
ghost use Rattle.kc_asm_emit.specs.Arguments as arguments;
ghost use Rattle.kc_asm_emit.specs.Content as content;
ghost use Rattle.kc_asm_emit.specs.Seen.{most, counted};

use crate::operands::arguments;
use crate::values::fixed_of;
use kc_asm_encode::{Argument, length};
use kc_base::NoMemory;
use kc_branch::Form;
use kc_expr::{Scope, Value};
use kc_source_statement::{Action, Arg, Item};
use std::alloc::Global;

/// The most bytes of one statement that are counted: no statement of a source has as many.
const MOST: u32 = 16_777_215;

/// How far a statement goes on behind its place: so many bytes, or to a place as ORG says, an address in an absolute piece,
/// else an offset, or to an even place.
#[derive(Clone, Copy, PartialEq, Eq)]
pub enum Extent {
    Bytes(u32),
    Upto(u16),
    Even,
}

fn item_length(size: u8, item: &Item) -> u32
    ensures { result ≡ min (content.item_count size (item_tree item.now)) most }
{
    match item {
        Item::Value(_) => match size {
            1 => 1,
            2 => 2,
            _ => 4,
        },
        Item::Chars(text) => u32::try_from(text.as_slice().len())
            .unwrap_or(MOST)
            .min(MOST),
    }
}

#[tactic(auto, using(crate::proofs::Counting::min_small, crate::proofs::Counting::counts_on))]
fn data_length(size: u8, items: &[Item]) -> u32
    ensures { result ≡ min (content.data_count size (map item_tree items.now)) most }
{
    let mut count = 0u32;
    for item in items {
        count = (count + item_length(size, item)).min(MOST);
    }
    count
}

/// How many bytes an operation has whose operands have these values, wherever it stands.
pub fn operation_length(word: &[u8], args: &[Argument], form: Form) -> u32
    ensures { (place : Value) → result ≡ min (length (all_relocatable_bytes (instructions word.now args.now form place))) most }
{
    u32::from(length(word, args, form))
}

fn length_over<S: Scope>(
    alloc: Global,
    word: &[u8],
    args: &[Arg],
    form: Form,
    scope: &S,
) -> Result<u32, NoMemory>
    ensures { IfOk result (λ n. (place : Value) → n ≡ min (length (all_relocatable_bytes (instructions word.now (arguments.arguments (S.answers scope.now) (map arg_tree args.now)) form place))) most) }
{
    let args = arguments(alloc, args, scope)?;
    Ok(operation_length(word, args.as_slice(), form))
}

fn reserved(size: u8, count: Option<u16>) -> Extent
    ensures { result ≡ counted (content.extent_of (content.reserved size count)) }
{
    match count {
        Some(count) => Extent::Bytes(u32::from(size) * u32::from(count)),
        None => Extent::Bytes(0),
    }
}

fn upto(place: Option<u16>) -> Extent
    ensures { result ≡ counted (content.extent_of (content.upto place)) }
{
    match place {
        Some(place) => Extent::Upto(place),
        None => Extent::Bytes(0),
    }
}

/// How far a statement goes on, wherever it stands: what its content reports, without its relocatable bytes. A count of bytes stops at
/// 16,777,215, which no statement of a source reaches. (MCS-96 Macro Assembler User's Guide, "Segments and the Location Counter".)
pub fn extent_of<S: Scope>(
    alloc: Global,
    action: &Action,
    form: Form,
    scope: &S,
) -> Result<Extent, NoMemory>
    ensures { IfOk result (λ e. (place : Value) → e ≡ counted (content.extent_of (content.content (S.answers scope.now) form place (action_tree action.now)))) }
{
    match action {
        Action::Define(size, items) => Ok(Extent::Bytes(data_length(*size, items.as_slice()))),
        Action::Reserve(size, count) => Ok(reserved(*size, fixed_of(count, scope))),
        Action::Org(to) => Ok(upto(fixed_of(to, scope))),
        Action::Even => Ok(Extent::Even),
        Action::Operation { name, args } => {
            let count = length_over(alloc, name.as_slice(), args.as_slice(), form, scope)?;
            Ok(Extent::Bytes(count))
        }
        _ => Ok(Extent::Bytes(0)),
    }
}
