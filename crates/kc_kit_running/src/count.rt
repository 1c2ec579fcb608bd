// A run of which the lines are counted.
ghost use Rattle.std.specs.Prelude.{◌≡◌, ◌++◌, List, [], ℕ, Option, None, false, length, IfOk, OnOk};
ghost use Rattle.kc_base.specs.Fresh.{IsFresh};
ghost use Rattle.kc_trace.specs.Text.{line_of};
ghost use Rattle.kc_trace.specs.declared.record.Record.TheVariants.{Stopped};
ghost use Rattle.kc_machine_spec.specs.Text.{end_state, end_number, HasRun};
ghost use Rattle.kc_kit_files.specs.Ended.{EndsPrinting};
ghost use Rattle.kc_kit_files.specs.Outside.{shown_by};
ghost use Rattle.kc_kit_running.specs.Counted.{counts_text, numbered, summary_of};
ghost use Rattle.kc_kit_running.specs.Running.{ends_with};
ghost use Rattle.kc_kit_running.specs.Sources.{no_lines};

use crate::board::Board;
use crate::fitted::fitted_machine;
use crate::image_run::ended_run;
use kc_base::{Failed, NoMemory, Sink, StateTime, Steps, put_number};
use kc_kit_files::{Ended, Status};
use kc_machine::{End, stopped};
use kc_trace::{Counts, TraceOut, line};
use std::alloc::Global;
use std::sync::ledger::{Blank, Ledger};

/// How many state times a made input runs.
const STATES: StateTime = 1_000_000;

/// A sink that takes all and reports nothing.
#[derive(Drop)]
struct Silence;

impl Sink for Silence {
    ghost use Rattle.std.specs.Prelude.{None};

    ghost written = { λ _. None };

    ghost faults = { λ _. 0 };

    fn write(&mut self, piece: &[u8]) -> Result<usize, Failed> {
        Ok(piece.len())
    }
}

fn put_numbered(text: &mut Vec<u8>, word: &[u8], number: u64) -> Result<(), NoMemory>
    ensures { OnOk result (text.new.items ≡ text.old.items ++ numbered word.now number) }
{
    text.extend_from_slice(word)?;
    text.push(b' ')?;
    put_number(text, u128::from(number))?;
    text.push(b'\n')?;
    Ok(())
}

// The number of an input, and the counts of its run.
fn counts_text(alloc: Global, number: u16, counts: Counts) -> Result<Vec<u8>, NoMemory>
    ensures { IfOk result (λ text. text.items ≡ counts_text number counts) }
{
    let mut text = Vec::new(alloc);
    put_numbered(&mut text, b"gen", u64::from(number))?;
    put_numbered(&mut text, b"P", counts.pins)?;
    put_numbered(&mut text, b"I", counts.entries)?;
    put_numbered(&mut text, b"S", counts.cycles)?;
    Ok(text)
}

// The counts of a run, and its end.
fn summary(
    alloc: Global,
    number: u16,
    counts: Counts,
    how: End,
    now: StateTime,
) -> Result<Vec<u8>, NoMemory>
    requires { HasRun how now }
    ensures { IfOk result (λ text. text.items ≡ counts_text number counts ++ line_of (Stopped (end_state how now) (end_number how))) }
{
    let mut text = counts_text(alloc, number, counts)?;
    text.extend_from_slice(line(&stopped(how, now)).as_slice())?;
    Ok(text)
}

/// Runs the board of a made input, and prints how many edges, entries and cycles its run had, and how it has ended.
pub fn count_board<S: Sink, L: Ledger>(
    alloc: Global,
    board: Board,
    number: u16,
    blank: Blank,
    out: &mut TraceOut<S>,
) -> Ended<'static>
    requires ready { out.old.failed ≡ false }
    requires fresh { IsFresh blank L.name L.parts }
    requires whole { blank.parts ≡ 1 }
    ensures { EndsPrinting (λ response. response ≡ summary_of number board.driving board.image) (shown_by S.written S.faults out.old.sink) result (shown_by S.written S.faults out.new.sink) }
{
    let Ok(mut machine) = fitted_machine(alloc, board) else {
        return Ended::by(Status::NoMemory);
    };
    let mut steps = Steps::<L>::new(blank);
    let mut trace = TraceOut::new(Silence);
    let Ok(end) = machine.run(STATES, &mut trace, &mut steps) else {
        unreachable!();
    };
    match summary(alloc, number, trace.counts(), end, machine.now()) {
        Ok(text) => said_run(alloc, &text, end, out),
        Err(NoMemory) => Ended::by(Status::NoMemory),
    }
}

// Prints a text, and gives how the command has ended whose run has ended so.
fn said_run<S: Sink>(alloc: Global, text: &[u8], how: End, out: &mut TraceOut<S>) -> Ended<'static>
    requires ready { out.old.failed ≡ false }
    ensures { EndsPrinting (λ response. response ≡ ends_with no_lines how text.now []) (shown_by S.written S.faults out.old.sink) result (shown_by S.written S.faults out.new.sink) }
{
    out.put_text(text);
    if out.failed() {
        Ended::by(Status::WriteFault)
    } else {
        ended_run(alloc, &None, how)
    }
}
