// A run of an image as a script says.
ghost use Rattle.std.specs.Prelude.{◌≡◌, ◌≤◌, false};
ghost use Rattle.kc_base.specs.Fresh.{IsFresh};
ghost use Rattle.kc_kit_files.specs.Ended.{EndsPrinting};
ghost use Rattle.kc_kit_files.specs.Outside.{shown_by};
ghost use Rattle.kc_kit_running.specs.Scripted.{debugged_by, debugged_in_lives, debugger_response, lives_script_response, script_response};
ghost use Rattle.kc_kit_words.specs.Asked.{AreLives};

use crate::board::Board;
use crate::fitted::fitted_machine;
use crate::fitting::Fitting;
use crate::image_run::ended_run;
use kc_base::{Sink, Steps};
use kc_cycles::LivesFault;
use kc_debug::{Lives, Session, debug_lives};
use kc_debug_script::{LineMap, Script};
use kc_kit_files::{Ended, Status};
use kc_kit_inputs::Driving;
use kc_trace::TraceOut;
use std::alloc::Global;
use std::sync::ledger::{Blank, Ledger};

/// Carries out a script over a board, over at most so many lives where their number is given, and prints its transcript.
pub fn debug_board<S: Sink, L: Ledger>(
    alloc: Global,
    board: Board,
    lives: Option<u16>,
    script: &Script,
    lines: LineMap,
    blank: Blank,
    out: &mut TraceOut<S>,
) -> Ended<'static>
    requires ready { out.old.failed ≡ false }
    requires lives { AreLives lives }
    requires fresh { IsFresh blank L.name L.parts }
    requires whole { blank.parts ≡ 1 }
    ensures { EndsPrinting (λ response. response ≡ debugger_response lives lines script.now board.driving board.image) (shown_by S.written S.faults out.old.sink) result (shown_by S.written S.faults out.new.sink) }
{
    match lives {
        None => debug_once::<S, L>(alloc, board, script, lines, blank, out),
        Some(most) => debug_in_lives::<S, L>(alloc, board, most, script, lines, blank, out),
    }
}

// Carries out a script over the lives of a board, and prints its transcript.
fn debug_in_lives<S: Sink, L: Ledger>(
    alloc: Global,
    board: Board,
    most: u16,
    script: &Script,
    lines: LineMap,
    blank: Blank,
    out: &mut TraceOut<S>,
) -> Ended<'static>
    requires ready { out.old.failed ≡ false }
    requires some { 1 ≤ most }
    requires fresh { IsFresh blank L.name L.parts }
    requires whole { blank.parts ≡ 1 }
    ensures { EndsPrinting (λ response. response ≡ lives_script_response (debugged_in_lives most lines script.now board.driving board.image)) (shown_by S.written S.faults out.old.sink) result (shown_by S.written S.faults out.new.sink) }
{
    let Board { image, driving } = board;
    let Driving { stimuli, values } = driving;
    let fitting = Fitting { values };
    let lives = Lives {
        image: &image,
        stimuli: &stimuli,
        maker: &fitting,
        most,
    };
    let mut steps = Steps::<L>::new(blank);
    match debug_lives(alloc, &lives, script, &lines, out, &mut steps) {
        Ok(how) => ended_run(alloc, &None, how),
        Err(LivesFault::WriteFault) => Ended::by(Status::WriteFault),
        Err(LivesFault::NoMemory) => Ended::by(Status::NoMemory),
    }
}

// Carries out a script over a board up to a reset at most, and prints its transcript.
fn debug_once<S: Sink, L: Ledger>(
    alloc: Global,
    board: Board,
    script: &Script,
    lines: LineMap,
    blank: Blank,
    out: &mut TraceOut<S>,
) -> Ended<'static>
    requires ready { out.old.failed ≡ false }
    requires fresh { IsFresh blank L.name L.parts }
    requires whole { blank.parts ≡ 1 }
    ensures { EndsPrinting (λ response. response ≡ script_response (debugged_by lines script.now board.driving board.image)) (shown_by S.written S.faults out.old.sink) result (shown_by S.written S.faults out.new.sink) }
{
    let Ok(mut machine) = fitted_machine(alloc, board) else {
        return Ended::by(Status::NoMemory);
    };
    let Ok(mut session) = Session::with_lines(alloc, lines) else {
        return Ended::by(Status::NoMemory);
    };
    let mut steps = Steps::<L>::new(blank);
    match session.run_script(script, &mut machine, out, &mut steps) {
        Ok(end) => ended_run(alloc, &None, end),
        Err(_) => Ended::by(Status::WriteFault),
    }
}
