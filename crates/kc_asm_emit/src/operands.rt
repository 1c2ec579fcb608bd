ghost use Rattle.std.specs.Prelude.{◌≡◌, map, IfOk};
ghost use Rattle.kc_source_statement.specs.Trees.{arg_tree};
ghost use Rattle.kc_asm_emit.specs.Arguments as arguments;

use crate::values::value_of;
use kc_asm_encode::Argument;
use kc_base::NoMemory;
use kc_expr::Scope;
use kc_source_statement::Arg;
use std::alloc::Global;

fn argument<S: Scope>(arg: &Arg, scope: &S) -> Argument
    ensures { result ≡ arguments.argument (S.answers scope.now) (arg_tree arg.now) }
{
    match arg {
        Arg::Plain(value) => Argument::Plain(value_of(value, scope)),
        Arg::Immediate(value) => Argument::Immediate(value_of(value, scope)),
        Arg::Indirect(register) => Argument::Indirect(value_of(register, scope)),
        Arg::Increment(register) => Argument::Increment(value_of(register, scope)),
        Arg::Indexed(value, register) => {
            Argument::Indexed(value_of(value, scope), value_of(register, scope))
        }
    }
}

/// The operands of an operation with the values of their expressions, over what names mean; `None` where an expression has
/// a fault. (MCS-96 Macro Assembler User's Guide, "Operands".)
pub fn arguments<S: Scope>(
    alloc: Global,
    args: &[Arg],
    scope: &S,
) -> Result<Vec<Argument>, NoMemory>
    ensures { IfOk result (λ v. v.items ≡ arguments.arguments (S.answers scope.now) (map arg_tree args.now)) }
{
    let mut list = Vec::new(alloc);
    for arg in args {
        list.push(argument(arg, scope))?;
    }
    Ok(list)
}
