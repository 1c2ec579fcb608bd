ghost use Rattle.std.specs.Prelude.{◌≡◌, ◌++◌, map, OnOk, IfOk};
ghost use Rattle.kc_expr.specs.Tree.{tree_of};
ghost use Rattle.kc_source_statement.specs.Trees.{item_tree};
ghost use Rattle.kc_asm_encode.specs.declared.relocatable_byte.RelocatableByte.TheVariants as relocatable_bytes;
ghost use Rattle.kc_asm_encode.specs.RelocatableBytes.{word_of};
ghost use Rattle.kc_asm_emit.specs.Content as content;

use crate::values::value_or_zero;
use kc_asm_encode::RelocatableByte;
use kc_base::NoMemory;
use kc_expr::{Expr, Scope, Value};
use kc_source_statement::Item;
use std::alloc::Global;

fn push_bytes(list: &mut Vec<RelocatableByte>, bytes: &[u8]) -> Result<(), NoMemory>
    ensures { OnOk result (list.new.items ≡ list.old.items ++ map relocatable_bytes.Plain bytes.now) }
{
    for byte in bytes {
        list.push(RelocatableByte::Plain(*byte))?;
    }
    Ok(())
}

fn push_word(list: &mut Vec<RelocatableByte>, value: Value) -> Result<(), NoMemory>
    ensures { OnOk result (list.new.items ≡ list.old.items ++ word_of 0 value) }
{
    list.push(RelocatableByte::First {
        kind: 0,
        start: 0,
        value,
    })?;
    list.push(RelocatableByte::Second { kind: 0, value })?;
    Ok(())
}

fn push_long<S: Scope>(
    list: &mut Vec<RelocatableByte>,
    expr: &Expr,
    scope: &S,
) -> Result<(), NoMemory>
    ensures { OnOk result (list.new.items ≡ list.old.items ++ content.long_relocatables (S.answers scope.now) (tree_of expr.now)) }
{
    match expr {
        Expr::Number(number) => push_bytes(list, &number.to_le_bytes()),
        _ => {
            push_word(list, value_or_zero(expr, scope))?;
            push_bytes(list, &[0, 0])
        }
    }
}

fn push_value<S: Scope>(
    list: &mut Vec<RelocatableByte>,
    size: u8,
    expr: &Expr,
    scope: &S,
) -> Result<(), NoMemory>
    ensures { OnOk result (list.new.items ≡ list.old.items ++ content.value_relocatables (S.answers scope.now) size (tree_of expr.now)) }
{
    match size {
        1 => {
            list.push(RelocatableByte::First {
                kind: 1,
                start: 0,
                value: value_or_zero(expr, scope),
            })?;
            Ok(())
        }
        2 => push_word(list, value_or_zero(expr, scope)),
        _ => push_long(list, expr, scope),
    }
}

fn push_item<S: Scope>(
    list: &mut Vec<RelocatableByte>,
    size: u8,
    item: &Item,
    scope: &S,
) -> Result<(), NoMemory>
    ensures { OnOk result (list.new.items ≡ list.old.items ++ content.item_relocatables (S.answers scope.now) size (item_tree item.now)) }
{
    match item {
        Item::Value(expr) => push_value(list, size, expr, scope),
        Item::Chars(text) => push_bytes(list, text.as_slice()),
    }
}

// The relocatable bytes of a list of data whose items have so many bytes.
pub(crate) fn data_relocatables<S: Scope>(
    alloc: Global,
    size: u8,
    items: &[Item],
    scope: &S,
) -> Result<Vec<RelocatableByte>, NoMemory>
    ensures { IfOk result (λ v. v.items ≡ content.data_relocatables (S.answers scope.now) size (map item_tree items.now)) }
{
    let mut list = Vec::new(alloc);
    for item in items {
        push_item(&mut list, size, item, scope)?;
    }
    Ok(list)
}
