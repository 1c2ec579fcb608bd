// A run of an image that goes on after a reset.
ghost use Rattle.std.specs.Prelude.{◌≡◌, ◌≤◌, false};
ghost use Rattle.kc_base.specs.Fresh.{IsFresh};
ghost use Rattle.kc_kit_files.specs.Ended.{EndsPrinting};
ghost use Rattle.kc_kit_files.specs.Outside.{shown_by};
ghost use Rattle.kc_kit_words.specs.Values.{max_states, max_lives};
ghost use Rattle.kc_kit_running.specs.Lives.{board_lives, lives_response};
ghost use Rattle.kc_kit_running.specs.Sources.{ArePlacedIn, lines_in};

use crate::board::Board;
use crate::fitting::Fitting;
use crate::image_run::ended_run;
use crate::sources::Sources;
use kc_base::{Sink, Steps};
use kc_cycles::{LivesFault, run_lives};
use kc_kit_files::{Ended, Status};
use kc_kit_inputs::Driving;
use kc_trace::TraceOut;
use std::alloc::Global;
use std::sync::ledger::{Blank, Ledger};

/// Runs a board over at most so many lives, and prints their traces.
pub(crate) fn run_board_lives<S: Sink, L: Ledger>(
    alloc: Global,
    board: Board,
    sources: &Option<Sources<'_>>,
    states: u64,
    lives: u16,
    blank: Blank,
    out: &mut TraceOut<S>,
) -> Ended<'static>
    requires ready { out.old.failed ≡ false }
    requires states { states ≤ max_states }
    requires placed { ArePlacedIn sources.now }
    requires some { 1 ≤ lives }
    requires few { lives ≤ max_lives }
    requires fresh { IsFresh blank L.name L.parts }
    requires whole { blank.parts ≡ 1 }
    ensures { EndsPrinting (λ response. response ≡ lives_response (lines_in sources.now) (board_lives lives states board.driving board.image)) (shown_by S.written S.faults out.old.sink) result (shown_by S.written S.faults out.new.sink) }
{
    let Board { image, driving } = board;
    let Driving { stimuli, values } = driving;
    let fitting = Fitting { values };
    let mut steps = Steps::<L>::new(blank);
    match run_lives(
        alloc, &image, &stimuli, &fitting, states, lives, out, &mut steps,
    ) {
        Ok(end) => ended_run(alloc, sources, end),
        Err(LivesFault::WriteFault) => Ended::by(Status::WriteFault),
        Err(LivesFault::NoMemory) => Ended::by(Status::NoMemory),
    }
}
