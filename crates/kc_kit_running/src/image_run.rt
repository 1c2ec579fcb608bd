// A run of an image.
ghost use Rattle.std.specs.Prelude.{◌≡◌, ◌≤◌, false};
ghost use Rattle.kc_base.specs.Fresh.{IsFresh};
ghost use Rattle.kc_kit_files.specs.Ended.{EndsPrinting};
ghost use Rattle.kc_kit_files.specs.Outside.{shown_by};
ghost use Rattle.kc_kit_words.specs.Values.{max_states};
ghost use Rattle.kc_kit_words.specs.Asked.{IsBounded};
ghost use Rattle.kc_kit_running.specs.Lives.{board_response};
ghost use Rattle.kc_kit_running.specs.Running.{run_of, run_response, IsEndOf};
ghost use Rattle.kc_kit_running.specs.Sources.{ArePlacedIn, lines_in};

use crate::board::Board;
use crate::fitted::fitted_machine;
use crate::lives_run::run_board_lives;
use crate::source_lines::line_in;
use crate::sources::Sources;
use kc_base::{NoMemory, Sink, Steps};
use kc_kit_files::{Ended, Said, Status};
use kc_kit_messages::use_diagnostic;
use kc_kit_words::Extent;
use kc_machine::End;
use kc_trace::TraceOut;
use std::alloc::Global;
use std::sync::ledger::{Blank, Ledger};

/// Runs a board so far, and prints its trace.
pub fn run_board<S: Sink, L: Ledger>(
    alloc: Global,
    board: Board,
    sources: &Option<Sources<'_>>,
    extent: Extent,
    blank: Blank,
    out: &mut TraceOut<S>,
) -> Ended<'static>
    requires ready { out.old.failed ≡ false }
    requires bounded { IsBounded extent }
    requires placed { ArePlacedIn sources.now }
    requires fresh { IsFresh blank L.name L.parts }
    requires whole { blank.parts ≡ 1 }
    ensures { EndsPrinting (λ response. response ≡ board_response (lines_in sources.now) extent board.driving board.image) (shown_by S.written S.faults out.old.sink) result (shown_by S.written S.faults out.new.sink) }
{
    match extent.lives {
        None => run_once::<S, L>(alloc, board, sources, extent.states, blank, out),
        Some(lives) => {
            run_board_lives::<S, L>(alloc, board, sources, extent.states, lives, blank, out)
        }
    }
}

// Runs a board up to a reset at most, and prints its trace.
fn run_once<S: Sink, L: Ledger>(
    alloc: Global,
    board: Board,
    sources: &Option<Sources<'_>>,
    states: u64,
    blank: Blank,
    out: &mut TraceOut<S>,
) -> Ended<'static>
    requires ready { out.old.failed ≡ false }
    requires states { states ≤ max_states }
    requires placed { ArePlacedIn sources.now }
    requires fresh { IsFresh blank L.name L.parts }
    requires whole { blank.parts ≡ 1 }
    ensures { EndsPrinting (λ response. response ≡ run_response (lines_in sources.now) (run_of states board.driving board.image)) (shown_by S.written S.faults out.old.sink) result (shown_by S.written S.faults out.new.sink) }
{
    let Ok(mut machine) = fitted_machine(alloc, board) else {
        return Ended::by(Status::NoMemory);
    };
    let mut steps = Steps::<L>::new(blank);
    match machine.run(states, out, &mut steps) {
        Ok(end) => match machine.write_finals(end, out) {
            Ok(()) => ended_run(alloc, sources, end),
            Err(_) => Ended::by(Status::WriteFault),
        },
        Err(_) => Ended::by(Status::WriteFault),
    }
}

/// How a command has ended whose run has ended so, with what is said of it in words.
pub(crate) fn ended_run(alloc: Global, sources: &Option<Sources<'_>>, how: End) -> Ended<'static>
    requires { ArePlacedIn sources.now }
    ensures { IsEndOf (lines_in sources.now) how result }
{
    match how {
        End::Undefined(what, access) => {
            match use_diagnostic(alloc, line_in(sources, what.addr), what, access) {
                Ok(diagnostic) => Ended {
                    status: Status::Undefined,
                    said: Said::Refusal(diagnostic),
                },
                Err(NoMemory) => Ended::by(Status::NoMemory),
            }
        }
        End::Spent | End::Powerdown | End::Reset => Ended::by(Status::Done),
    }
}
