//! How deep the lines of an expansion stand in calls and repetitions.

ghost use Rattle.std.specs.Prelude.{◌≡◌, [], suc, length, IfOk};
ghost use Rattle.kc_macro.specs.Expansion as expansion;
ghost use Rattle.kc_macro.specs.Steps as steps;
ghost use Rattle.kc_asm_list.specs.Depths as spec;

use kc_base::NoMemory;
use kc_lex::{Line, SourceFault};
use kc_macro::state::{State, Step};
use kc_macro::{begin, step};
use kc_macro_input::{Ahead, Mark};
use std::alloc::Global;

fn is_text(mark: Mark) -> bool
    ensures { result ≡ spec.is_text mark }
{
    matches!(mark, Mark::Call(_) | Mark::Turns(_))
}

// In how many calls and repetitions a line with these marks stands.
fn depth(marks: &[Mark]) -> usize
    ensures { result ≡ spec.depth marks.now }
{
    marks.iter().filter(|mark| is_text(**mark)).count()
}

// How deep the first piece of a text stands.
fn depth_ahead(alloc: Global, ahead: &mut Ahead) -> Result<usize, NoMemory>
    ensures depth { IfOk result (λ n. n ≡ spec.depth_ahead ahead.old) }
    ensures kept { IfOk result (λ _. ahead.new ≡ ahead.old) }
{
    match ahead.next(alloc)? {
        None => {
            *ahead = Ahead::new(alloc);
            Ok(0)
        }
        Some(first) => {
            let count = depth(first.from.as_slice());
            ahead.put_one(first)?;
            Ok(count)
        }
    }
}

// Rewrites the first piece of the text, and notes how deep it stood where a line came out.
fn report(alloc: Global, state: &mut State, depths: &mut Vec<usize>) -> Result<Step, NoMemory>
    ensures step { IfOk result (λ r. steps.next_of r state.new ≡ steps.step state.old) }
    ensures depths { IfOk result (λ _. depths.new.items ≡ spec.reported (spec.so_far state.old depths.old.items) state.new.done) }
{
    let depth = depth_ahead(alloc, &mut state.ahead)?;
    let before = state.done.len();
    let led = step(alloc, state)?;
    if state.done.len() != before {
        depths.push(depth)?;
    }
    Ok(led)
}

// Rewrites up to the next expanded line, the end or a fault.
fn settle(alloc: Global, state: &mut State, depths: &mut Vec<usize>) -> Result<Step, NoMemory>
    ensures read { IfOk result (λ r. (next : spec.Reported → spec.Answer) → spec.settled next (suc (length state.old.ahead)) (spec.so_far state.old depths.old.items) ≡ spec.led next r (spec.so_far state.new depths.new.items)) }
    ensures left { IfOk result (λ r. steps.TakesOne r state.old state.new) }
{
    loop {
        let led = report(alloc, state, depths)?;
        match led {
            Step::Quiet => {}
            Step::Counted => return Ok(Step::Counted),
            Step::Ended => return Ok(Step::Ended),
            Step::Fault { line, code } => return Ok(Step::Fault { line, code }),
        }
    }
}

/// In how many macro calls and turns of REPT and IRP each line of the expansion of a source stands, in the order of these
/// lines: none for a line of the source's own text. An IF is none. Else the fault of the expansion.
/// (MCS-96 Macro Assembler User's Guide, "Macros"; the count is this kit's own.)
pub fn depths(alloc: Global, lines: Vec<Line>) -> Result<Vec<usize>, SourceFault>
    ensures depths { expansion.AreNumbered lines.items → spec.AreDepths result (spec.depths_of lines.items) }
    ensures lines { expansion.AreNumbered lines.items → spec.GoWith result (expansion.expanded lines.items) }
    ensures longer { spec.AreDepths result (spec.run_out (spec.so_far (expansion.begun lines.items) [])) }
    ensures longer_lines { spec.GoWith result (expansion.run_out (expansion.begun lines.items)) }
{
    let mut state = begin(alloc, lines)?;
    let mut depths = Vec::new(alloc);
    loop {
        match settle(alloc, &mut state, &mut depths)? {
            Step::Counted => {}
            Step::Ended => return Ok(depths),
            Step::Fault { line, code } => return Err(SourceFault::At { line, code }),
            Step::Quiet => unreachable!(),
        }
    }
}
