ghost use Rattle.std.specs.Prelude.{◌≡◌, [], ◌∷◌, ◌++◌, ◌||◌, ℕ, map, IfOk, OnOk};
ghost use Rattle.std.specs.List.{list_any};
ghost use Rattle.std.specs.Option.{option_map};
ghost use Rattle.kc_expr.specs.Tree.{tree_of};
ghost use Rattle.kc_source_statement.specs.Trees.{action_tree, arg_tree, item_tree};
ghost use Rattle.kc_expr.specs.declared.values.Value.{Value};
ghost use Rattle.kc_asm_symbols.specs.declared.segments.Segment.{Segment};
ghost use Rattle.kc_asm_symbols.specs.Located.{located_by};
ghost use Rattle.kc_asm_symbols.specs.Externals as spec;

use crate::segments::Segment;
use kc_base::{NoMemory, Text};
use kc_expr::Expr;
use kc_lex::words::is_stack;
use kc_obj_module::pieces::is_register;
use kc_obj_module::{SegKind, Taken};
use kc_source_statement::{Action, Arg, Item, Stmt};
use std::alloc::Global;

// Whether an expression has STACK, the address after the stack.
#[tactic(auto, unfolding(crate::specs::Externals::uses_stack))]
fn uses_stack(expr: &Expr) -> bool
    ensures { result ≡ spec.uses_stack (tree_of expr.now) }
{
    match expr {
        Expr::Number(_) | Expr::Chars(_) | Expr::Here => false,
        Expr::Name(name) => is_stack(name.as_slice()),
        Expr::Unary(_, e) => uses_stack(e),
        Expr::Binary(_, a, b) => uses_stack(a) || uses_stack(b),
    }
}

fn optional_uses(at: &Option<Expr>) -> bool
    ensures { result ≡ list_any spec.uses_stack (spec.optional_tree (option_map tree_of at.now)) }
{
    match at {
        None => false,
        Some(expr) => uses_stack(expr),
    }
}

fn arg_uses(arg: &Arg) -> bool
    ensures { result ≡ list_any spec.uses_stack (spec.arg_trees (arg_tree arg.now)) }
{
    match arg {
        Arg::Plain(e) | Arg::Immediate(e) | Arg::Indirect(e) | Arg::Increment(e) => uses_stack(e),
        Arg::Indexed(e, register) => uses_stack(e) || uses_stack(register),
    }
}

fn item_uses(item: &Item) -> bool
    ensures { result ≡ list_any spec.uses_stack (spec.item_trees (item_tree item.now)) }
{
    match item {
        Item::Value(e) => uses_stack(e),
        Item::Chars(_) => false,
    }
}

fn args_use(args: &[Arg]) -> bool
    ensures { result ≡ list_any spec.uses_stack (spec.all_trees spec.arg_trees (map arg_tree args.now)) }
{
    for arg in args {
        if arg_uses(arg) {
            return true;
        }
    }
    false
}

fn items_use(items: &[Item]) -> bool
    ensures { result ≡ list_any spec.uses_stack (spec.all_trees spec.item_trees (map item_tree items.now)) }
{
    for item in items {
        if item_uses(item) {
            return true;
        }
    }
    false
}

// Whether some expression of a statement has STACK.
fn statement_uses(action: &Action) -> bool
    ensures { result ≡ spec.statement_uses_stack (action_tree action.now) }
{
    match action {
        Action::Module { name: _, stack } => optional_uses(stack),
        Action::Cseg(at) => optional_uses(at),
        Action::Dseg(at) => optional_uses(at),
        Action::Rseg(at) => optional_uses(at),
        Action::Sseg(size) => uses_stack(size),
        Action::Equ(_, value) => uses_stack(value),
        Action::Set(_, value) => uses_stack(value),
        Action::Define(_, items) => items_use(items.as_slice()),
        Action::Reserve(_, count) => uses_stack(count),
        Action::Org(place) => uses_stack(place),
        Action::Operation { name: _, args } => args_use(args.as_slice()),
        Action::Bare | Action::Even | Action::End | Action::Public(_) | Action::Extrn(_) => false,
    }
}

fn push_name(
    taken: &mut Vec<Taken>,
    alloc: Global,
    register: bool,
    name: &[u8],
) -> Result<(), NoMemory>
    ensures { OnOk result (taken.new.items ≡ taken.old.items ++ spec.taken register name.now ∷ []) }
{
    let name = Text::of(alloc, name)?;
    taken.push(Taken { name, register })?;
    Ok(())
}

fn push_names(
    taken: &mut Vec<Taken>,
    alloc: Global,
    register: bool,
    names: &[Text],
) -> Result<(), NoMemory>
    ensures { OnOk result (taken.new.items ≡ taken.old.items ++ map (spec.taken register) names.now) }
{
    for name in names {
        push_name(taken, alloc, register, name.as_slice())?;
    }
    Ok(())
}

// Those of a statement. The answer: whether STACK is in the list behind it.
fn push_declared(
    taken: &mut Vec<Taken>,
    alloc: Global,
    used: bool,
    kind: SegKind,
    action: &Action,
) -> Result<bool, NoMemory>
    ensures items { OnOk result (taken.new.items ≡ taken.old.items ++ spec.declared used kind (action_tree action.now)) }
    ensures used { IfOk result (λ u. u ≡ (used || spec.statement_uses_stack (action_tree action.now))) }
{
    match action {
        Action::Extrn(names) => push_names(taken, alloc, is_register(kind), names.as_slice())?,
        _ => (),
    }
    if statement_uses(action) && !used {
        push_name(taken, alloc, false, b"STACK")?;
        Ok(true)
    } else {
        Ok(used)
    }
}

/// The externals of a module: the names that EXTRN takes, in the order of their declaration, each a register where it is
/// declared in RSEG; and STACK, the address after the stack, at its first use. (MCS-96 Macro Assembler User's Guide,
/// "EXTRN" and "SSEG".)
pub fn externals(alloc: Global, stmts: &[Stmt]) -> Result<Vec<Taken>, NoMemory>
    ensures { IfOk result (λ taken. (values : ℕ → Segment → Value) → taken.items ≡ spec.externals (located_by values stmts.now)) }
{
    let mut taken = Vec::new(alloc);
    let mut used = false;
    let mut segment = Segment::first();
    for stmt in stmts {
        used = push_declared(&mut taken, alloc, used, segment.kind, &stmt.action)?;
        segment = segment.after(&stmt.action);
    }
    Ok(taken)
}
