ghost use Rattle.std.specs.Prelude.{◌≡◌, map, IfOk};
ghost use Rattle.kc_source_statement.specs.Trees.{arg_tree, action_tree};
ghost use Rattle.kc_asm_encode.specs.Instructions as instructions;
ghost use Rattle.kc_asm_encode.specs.RelocatableBytes.{all_relocatable_bytes};
ghost use Rattle.kc_asm_emit.specs.Arguments as arguments;
ghost use Rattle.kc_asm_emit.specs.Content as content;
ghost use Rattle.kc_asm_emit.specs.Seen.{seen};

use crate::content::Content;
use crate::items::data_relocatables;
use crate::operands::arguments;
use crate::values::fixed_of;
use kc_asm_encode::{Argument, RelocatableByte, RelocatableInsn, instructions, relocatables_of};
use kc_base::NoMemory;
use kc_branch::Form;
use kc_expr::{Scope, Value};
use kc_source_statement::{Action, Arg};
use std::alloc::Global;

fn joined(alloc: Global, list: &[RelocatableInsn]) -> Result<Vec<RelocatableByte>, NoMemory>
    ensures { IfOk result (λ v. v.items ≡ all_relocatable_bytes list.now) }
{
    let mut relocatable_bytes = Vec::new(alloc);
    for insn in list {
        relocatable_bytes.extend_from_slice(relocatables_of(insn).as_slice())?;
    }
    Ok(relocatable_bytes)
}

fn operation_relocatables<S: Scope>(
    alloc: Global,
    word: &[u8],
    args: &[Arg],
    form: Form,
    place: Value,
    scope: &S,
) -> Result<Vec<RelocatableByte>, NoMemory>
    ensures { IfOk result (λ v. v.items ≡ all_relocatable_bytes (instructions.instructions word.now (arguments.arguments (S.answers scope.now) (map arg_tree args.now)) form place)) }
{
    let args = arguments(alloc, args, scope)?;
    let list = instructions(word, args.as_slice(), form, place);
    joined(alloc, list.as_slice())
}

fn reserved(size: u8, count: Option<u16>) -> Content
    ensures { seen result ≡ content.reserved size count }
{
    match count {
        Some(count) => Content::Reserved(u32::from(size) * u32::from(count)),
        None => Content::Reserved(0),
    }
}

fn upto(place: Option<u16>) -> Content
    ensures { seen result ≡ content.upto place }
{
    match place {
        Some(place) => Content::Upto(place),
        None => Content::Nothing,
    }
}

/// What a statement puts into its piece, over what names mean where it stands. `place` is the value of its own place, `form`
/// the form that a generic branch has. A value that is missing counts as 0 in data and operands; a count or a place that is
/// missing or not fixed reserves nothing and leads nowhere. (MCS-96 Macro Assembler User's Guide, "Assembler Directives".)
pub fn content_of<S: Scope>(
    alloc: Global,
    action: &Action,
    form: Form,
    place: Value,
    scope: &S,
) -> Result<Content, NoMemory>
    ensures { IfOk result (λ c. seen c ≡ content.content (S.answers scope.now) form place (action_tree action.now)) }
{
    match action {
        Action::Define(size, items) => Ok(Content::RelocatableBytes(data_relocatables(
            alloc,
            *size,
            items.as_slice(),
            scope,
        )?)),
        Action::Reserve(size, count) => Ok(reserved(*size, fixed_of(count, scope))),
        Action::Org(to) => Ok(upto(fixed_of(to, scope))),
        Action::Even => Ok(Content::Even),
        Action::Operation { name, args } => {
            let relocatable_bytes = operation_relocatables(
                alloc,
                name.as_slice(),
                args.as_slice(),
                form,
                place,
                scope,
            )?;
            Ok(Content::RelocatableBytes(relocatable_bytes))
        }
        _ => Ok(Content::Nothing),
    }
}
