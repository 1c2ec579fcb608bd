ghost use Rattle.std.specs.Prelude.{◌≡◌};
ghost use Rattle.kc_asm_encode.specs.Faults as faults;

use crate::argument::{Argument, operand_at};
use kc_expr::{Base, Value, is_fixed};
use kc_lex::words::operands_for;
use kc_lex::{Operands, SourceCode};

fn number_fault(most: u16, number: Option<Value>) -> Option<u8>
    ensures { result ≡ faults.number_fault most number }
{
    match number {
        None => None,
        Some(value) => {
            if !is_fixed(value.base) {
                Some(SourceCode::NotFixed.number())
            } else if value.number > most {
                Some(SourceCode::DoesNotFit.number())
            } else {
                None
            }
        }
    }
}

fn pointer_fault(pointer: Option<Value>) -> Option<u8>
    ensures { result ≡ faults.pointer_fault pointer }
{
    match pointer {
        None => None,
        Some(value) => {
            if value.number % 2 != 0 || matches!(value.base, Base::External(_)) {
                Some(SourceCode::DoesNotFit.number())
            } else {
                None
            }
        }
    }
}

fn source_fault(source: Argument) -> Option<u8>
    ensures { result ≡ faults.source_fault source }
{
    match source {
        Argument::Plain(_) | Argument::Immediate(_) => None,
        Argument::Indirect(pointer) | Argument::Increment(pointer) => pointer_fault(pointer),
        Argument::Indexed(_, base) => pointer_fault(base),
    }
}

fn count_fault(count: Argument) -> Option<u8>
    ensures { result ≡ faults.count_fault count }
{
    match count {
        Argument::Immediate(number) => number_fault(15, number),
        _ => None,
    }
}

fn bit_fault(bit: Argument) -> Option<u8>
    ensures { result ≡ faults.bit_fault bit }
{
    match bit {
        Argument::Plain(number) => number_fault(7, number),
        _ => None,
    }
}

fn last_fault(args: &[Argument]) -> Option<u8>
    ensures { result ≡ faults.operands_fault Operands.TwoOrThree args.now }
{
    match args {
        [_, source] => source_fault(*source),
        _ => source_fault(operand_at(args, 2)),
    }
}

fn operands_fault(form: Operands, args: &[Argument]) -> Option<u8>
    ensures { result ≡ faults.operands_fault form args.now }
{
    match form {
        Operands::Source | Operands::Place => source_fault(operand_at(args, 0)),
        Operands::Two | Operands::Store | Operands::Exchange => source_fault(operand_at(args, 1)),
        Operands::TwoOrThree => last_fault(args),
        Operands::Shift => count_fault(operand_at(args, 1)),
        Operands::Triple => bit_fault(operand_at(args, 1)),
        _ => None,
    }
}

/// The least code of a fault in the operands of an operation, a word in upper case: 10 where the number of a bit or of shifts is
/// not fixed; 12 where a bit is over 7, a count over 15, or where S is `[reg]`, `[reg]+` or `x[reg]` with an odd number
/// or an external as reg. An operand without a value has no fault here, nor has a word that is no operation.
#[tactic(auto, unfolding(crate::specs::Faults::fault_of))]
pub fn fault(word: &[u8], args: &[Argument]) -> Option<u8>
    ensures { result ≡ faults.fault_of word.now args.now }
{
    match operands_for(word) {
        Some(form) => operands_fault(form, args),
        None => None,
    }
}
