ghost use Rattle.std.specs.Prelude.{◌≡◌, ◌+◌, false, IfOk, None, drop};
ghost use Rattle.kc_macro.specs.Steps as steps;
ghost use Rattle.std.specs.Option.{IfSome};
ghost use Rattle.kc_macro_input.specs.Filled.{seen_filled};
ghost use Rattle.kc_macro_body.specs.Arguments as arguments;
ghost use Rattle.kc_macro_body.specs.Calls as calls;

use crate::state::{State, Step};
use crate::steps::{code_if, plain_step};
use kc_base::{NoMemory, Text};
use kc_lex::fault::lesser_number;
use kc_lex::{SourceCode, Token, Tokens};
use kc_macro_body::arguments::arguments;
use kc_macro_body::bodies::{behind_first, macro_of};
use kc_macro_body::calls::called;
use kc_macro_body::{Given, Macro, Names};
use kc_macro_input::bodies::{Filled, body_lines, fill_body, texts};
use kc_macro_input::cutting::cut_off;
use kc_macro_input::{Extent, Mark, Marks};
use std::alloc::Global;

/// Takes a definition with its body off the text, and notes the macro.
pub(crate) fn macro_step(
    alloc: Global,
    state: &mut State,
    number: u32,
    definition: Option<(Text, Names)>,
) -> Result<Step, NoMemory>
    ensures { IfOk result (λ r. steps.next_of r state.new ≡ steps.macro_step state.old number definition) }
{
    match definition {
        None => Ok(Step::Fault {
            line: number,
            code: SourceCode::NoMatch.number(),
        }),
        Some((name, params)) => match cut_off(alloc, &mut state.ahead, Extent::Body)? {
            None => Ok(Step::Fault {
                line: number,
                code: SourceCode::NoMatch.number(),
            }),
            Some((prefix, _)) => {
                let body = texts(alloc, prefix.as_slice())?;
                let item = macro_of(alloc, params, body.as_slice())?;
                state.macros.define(name, item)?;
                Ok(Step::Quiet)
            }
        },
    }
}

// What a call puts in, the least code of its faults, and how many LOCAL names it gives.
struct Call {
    text: Filled,
    fault: Option<u8>,
    locals: u64,
}

fn text_code(text: &Filled) -> Option<u8>
    ensures { result ≡ steps.text_code (seen_filled text.now) }
{
    match text {
        Ok(_) => None,
        Err(fault) => Some(fault.code),
    }
}

// Whether names run out where so many more are given.
fn run_out(given: Given, locals: u64) -> bool
    ensures { result ≡ steps.names_run_out given locals }
{
    given.with(locals).is_none()
}

// The least code of a call's faults.
fn call_fault(
    left: u32,
    given: Given,
    from: &Marks,
    item: &Macro,
    args: &[Tokens],
    text: &Filled,
) -> Option<u8>
    ensures { result ≡ steps.call_fault left given from.now item.now args.now (seen_filled text.now) }
{
    let many = lesser_number(
        code_if(
            item.formals.params.as_slice().len() < args.len(),
            SourceCode::ManyArguments.number(),
        ),
        code_if(
            run_out(given, locals_of(item)),
            SourceCode::NoStatement.number(),
        ),
    );
    let unsound = lesser_number(code_if(!item.sound, SourceCode::NoMatch.number()), many);
    let deep = lesser_number(
        code_if(16 <= from.calls(), SourceCode::TooDeep.number()),
        unsound,
    );
    lesser_number(
        text_code(text),
        lesser_number(code_if(left == 0, SourceCode::ManyLines.number()), deep),
    )
}

fn call_text(
    alloc: Global,
    left: u32,
    given: Given,
    number: u32,
    from: &Marks,
    item: &Macro,
    args: &[Tokens],
) -> Result<Filled, NoMemory>
    ensures { IfOk result (λ t. seen_filled t ≡ steps.call_text left given number from.now item.now args.now) }
{
    let inner = from.with(alloc, Mark::Call(left))?;
    let lines = body_lines(alloc, number, &inner, item.body.as_slice())?;
    fill_body(alloc, &item.formals, args, given, lines.as_slice())
}

fn locals_of(item: &Macro) -> u64
    ensures { result ≡ item.now.formals.locals.count }
{
    item.formals.locals.count
}

fn call_of(
    alloc: Global,
    left: u32,
    given: Given,
    number: u32,
    from: &Marks,
    item: &Macro,
    tokens: &[Token],
) -> Result<Call, NoMemory>
    ensures text { IfOk result (λ c. seen_filled c.text ≡ steps.call_text left given number from.now item.now (arguments.arguments (drop 1 tokens.now))) }
    ensures fault { IfOk result (λ c. c.fault ≡ steps.call_fault left given from.now item.now (arguments.arguments (drop 1 tokens.now)) (seen_filled c.text)) }
    ensures locals { IfOk result (λ c. c.locals ≡ item.now.formals.locals.count) }
    ensures named { IfOk result (λ c. c.fault ≡ None → steps.names_run_out given c.locals ≡ false) }
{
    let locals = locals_of(item);
    let args = arguments(alloc, behind_first(tokens))?;
    let text = call_text(alloc, left, given, number, from, item, args.as_slice())?;
    let fault = call_fault(left, given, from, item, args.as_slice(), &text);
    Ok(Call {
        text,
        fault,
        locals,
    })
}

fn call_next(state: &mut State, number: u32, call: Call) -> Result<Step, NoMemory>
    requires { call.fault ≡ None → steps.names_run_out state.old.given call.locals ≡ false }
    ensures { IfOk result (λ r. steps.next_of r state.new ≡ steps.call_next state.old number call.locals call.fault (seen_filled call.text)) }
{
    let Call {
        text,
        fault,
        locals,
    } = call;
    if let Some(code) = fault {
        return Ok(Step::Fault { line: number, code });
    }
    match text {
        Err(fault) => Ok(Step::Fault {
            line: number,
            code: fault.code,
        }),
        Ok(lines) => match state.given.with(locals) {
            None => unreachable!(),
            Some(given) => {
                state.given = given;
                state.ahead.put(lines)?;
                state.left = state.left.saturating_sub(1);
                Ok(Step::Counted)
            }
        },
    }
}

/// A line that is no construct: a call, or a line that comes out.
pub(crate) fn other_step(
    alloc: Global,
    state: &mut State,
    number: u32,
    from: &Marks,
    tokens: Tokens,
) -> Result<Step, NoMemory>
    ensures { IfOk result (λ r. steps.next_of r state.new ≡ steps.other_step state.old number from.now tokens (calls.called state.old.macros tokens)) }
{
    match called(&state.macros, tokens.as_slice()) {
        None => plain_step(alloc, state, number, tokens),
        Some(item) => {
            let call = call_of(
                alloc,
                state.left,
                state.given,
                number,
                from,
                item,
                tokens.as_slice(),
            )?;
            call_next(state, number, call)
        }
    }
}
