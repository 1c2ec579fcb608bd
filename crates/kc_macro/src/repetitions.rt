ghost use Rattle.std.specs.Prelude.{◌≡◌, ◌<◌, IfOk, Ok};
ghost use Rattle.kc_macro.specs.Steps as steps;
ghost use Rattle.kc_macro_input.specs.Pieces.{innermost};
ghost use Rattle.kc_macro_input.specs.Filled.{seen_filled, turns_over};

use crate::state::{State, Step};
use crate::steps::{code_of, counted, least_unmatched};
use kc_base::{NoMemory, Text};
use kc_lex::SourceCode;
use kc_macro_body::bodies::{nothing, only};
use kc_macro_body::{Given, Texts};
use kc_macro_input::bodies::{Filled, fill_body, turn_body, turns_fault};
use kc_macro_input::cutting::cut_off;
use kc_macro_input::{Extent, Mark, Marks, Over, Piece};
use std::alloc::Global;

pub(crate) fn exitm_step(
    alloc: Global,
    state: &mut State,
    number: u32,
    from: &Marks,
) -> Result<Step, NoMemory>
    ensures { IfOk result (λ r. steps.next_of r state.new ≡ steps.exitm_step state.old number (innermost from.now)) }
{
    match from.innermost() {
        None => Ok(Step::Fault {
            line: number,
            code: SourceCode::NoMatch.number(),
        }),
        Some(mark) => {
            state.ahead.leave_out(alloc, mark)?;
            Ok(Step::Quiet)
        }
    }
}

// The place where a turn begins.
fn turn_head(alloc: Global, left: u32, number: u32, from: &Marks) -> Result<Piece, NoMemory>
    ensures { IfOk result (λ p. p ≡ steps.turn_head left number from.now) }
{
    Ok(Piece {
        number,
        from: from.with(alloc, Mark::Turns(left))?,
        tokens: None,
    })
}

// Puts so many turns of the same lines in front of the text. The first begins at once.
fn same_turns(
    alloc: Global,
    state: &mut State,
    number: u32,
    from: &Marks,
    times: u16,
    text: Filled,
) -> Result<Step, NoMemory>
    requires { 0 < times }
    ensures { IfOk result (λ r. steps.next_of r state.new ≡ steps.same_turns state.old number from.now times (seen_filled text)) }
{
    match text {
        Err(fault) => Ok(Step::Fault {
            line: fault.line,
            code: fault.code,
        }),
        Ok(first) => {
            let head = turn_head(alloc, state.left, number, from)?;
            let later = times - 1;
            state.ahead.put_turns(alloc, head, first.as_slice(), later)?;
            state.ahead.put(first)?;
            Ok(counted(state, number))
        }
    }
}

fn turns(
    alloc: Global,
    state: &mut State,
    number: u32,
    from: &Marks,
    times: u16,
    prefix: &[Piece],
) -> Result<Step, NoMemory>
    ensures { IfOk result (λ r. steps.next_of r state.new ≡ steps.turns_of state.old number from.now times prefix.now) }
{
    if times == 0 {
        return Ok(Step::Quiet);
    }
    let lines = turn_body(alloc, Mark::Turns(state.left), prefix)?;
    let none = nothing(alloc);
    let text = fill_body(alloc, &none, &[], Given::none(), lines.as_slice())?;
    same_turns(alloc, state, number, from, times, text)
}

/// Replaces a REPT with its body by its turns.
pub(crate) fn rept_step(
    alloc: Global,
    state: &mut State,
    number: u32,
    from: &Marks,
    value: Result<u16, u8>,
) -> Result<Step, NoMemory>
    ensures { IfOk result (λ r. steps.next_of r state.new ≡ steps.rept_step state.old number from.now value) }
{
    match cut_off(alloc, &mut state.ahead, Extent::Body)? {
        None => Ok(Step::Fault {
            line: number,
            code: least_unmatched(code_of(value)),
        }),
        Some((prefix, _)) => match value {
            Err(code) => Ok(Step::Fault { line: number, code }),
            Ok(times) => turns(alloc, state, number, from, times, prefix.as_slice()),
        },
    }
}

// Puts turns over some arguments, of which none has a fault, in front of the text. The first begins at once.
#[tactic(auto, using(crate::proofs::Turns::no_turn))]
fn begun(alloc: Global, state: &mut State, number: u32, over: Over) -> Result<Step, NoMemory>
    ensures { IfOk result (λ r. steps.next_of r state.new ≡ steps.begun state.old number (Ok (turns_over over.formals over.head over.body.items over.args))) }
{
    if over.args.as_slice().is_empty() {
        return Ok(Step::Quiet);
    }
    state.ahead.put_over(over)?;
    state.ahead.next(alloc)?;
    Ok(counted(state, number))
}

fn over_turns(
    alloc: Global,
    state: &mut State,
    number: u32,
    from: &Marks,
    over: (Text, Texts),
    prefix: &[Piece],
) -> Result<Step, NoMemory>
    ensures { IfOk result (λ r. steps.next_of r state.new ≡ steps.over_turns state.old number from.now over prefix.now) }
{
    let (name, args) = over;
    let body = turn_body(alloc, Mark::Turns(state.left), prefix)?;
    let head = turn_head(alloc, state.left, number, from)?;
    let formals = only(alloc, name)?;
    match turns_fault(alloc, &formals, body.as_slice(), args.as_slice())? {
        Some(fault) => Ok(Step::Fault {
            line: fault.line,
            code: fault.code,
        }),
        None => begun(
            alloc,
            state,
            number,
            Over {
                formals,
                head,
                body,
                args,
            },
        ),
    }
}

/// Replaces an IRP with its body by its turns.
pub(crate) fn irp_step(
    alloc: Global,
    state: &mut State,
    number: u32,
    from: &Marks,
    over: Option<(Text, Texts)>,
) -> Result<Step, NoMemory>
    ensures { IfOk result (λ r. steps.next_of r state.new ≡ steps.irp_step state.old number from.now over) }
{
    match over {
        None => Ok(Step::Fault {
            line: number,
            code: SourceCode::NoMatch.number(),
        }),
        Some(over) => match cut_off(alloc, &mut state.ahead, Extent::Body)? {
            None => Ok(Step::Fault {
                line: number,
                code: SourceCode::NoMatch.number(),
            }),
            Some((prefix, _)) => over_turns(alloc, state, number, from, over, prefix.as_slice()),
        },
    }
}
