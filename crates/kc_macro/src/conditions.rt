ghost use Rattle.std.specs.Prelude.{◌≡◌, IfOk};
ghost use Rattle.kc_macro.specs.Steps as steps;
ghost use Rattle.kc_macro.specs.Operands as operands;

use crate::state::{State, Step};
use crate::steps::{code_if, code_of, least_unmatched};
use kc_base::NoMemory;
use kc_lex::SourceCode;
use kc_lex::fault::lesser_number;
use kc_macro_input::cutting::keep;
use kc_macro_input::{Mark, Marks};
use std::alloc::Global;

fn number_of(value: Result<u16, u8>) -> u16
    ensures { result ≡ operands.number_of value }
{
    match value {
        Ok(number) => number,
        Err(_) => 0,
    }
}

pub(crate) fn if_step(
    alloc: Global,
    state: &mut State,
    number: u32,
    from: &Marks,
    value: Result<u16, u8>,
) -> Result<Step, NoMemory>
    ensures { IfOk result (λ r. steps.next_of r state.new ≡ steps.if_step state.old number from.now value) }
{
    let fault = lesser_number(
        code_if(16 <= from.ifs(), SourceCode::TooDeep.number()),
        code_of(value),
    );
    match keep(alloc, &mut state.ahead, number_of(value) != 0)? {
        None => Ok(Step::Fault {
            line: number,
            code: least_unmatched(fault),
        }),
        Some(kept) => match fault {
            Some(code) => Ok(Step::Fault { line: number, code }),
            None => {
                state.ahead.put_marked(alloc, Mark::If, kept)?;
                Ok(Step::Quiet)
            }
        },
    }
}
