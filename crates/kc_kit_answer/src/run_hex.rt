// The command that runs a hex file.
ghost use Rattle.std.specs.Prelude.{◌≤◌, length, map};
ghost use Rattle.kc_base.specs.Limits.{file_limit};
ghost use Rattle.kc_kit_files.specs.Reads.{AllShort};
ghost use Rattle.kc_kit_words.specs.Asked.{asked, IsBounded, IsWithin};
ghost use Rattle.kc_kit_words.specs.Inputs.{inputs_in};
ghost use Rattle.kc_kit_answer.specs.Hex.{RunHexAnswer};
ghost use Rattle.kc_kit_answer.specs.Jobs.{IsPrepared, Prepares};

use crate::board::board_of_hex;
use crate::job::Job;
use kc_base::Files;
use kc_kit_files::{Refusal, read_file};
use kc_kit_inputs::{given_for, read_inputs};
use kc_kit_words::{Command, RunHex};
use std::alloc::Global;

/// Reads a hex file that is to be run, and what drives the inputs.
pub fn prepare_hex<'a, F: Files>(
    alloc: Global,
    run: &RunHex<'a>,
    files: &mut F,
) -> Result<Job<'a>, Refusal>
    requires { IsWithin (Command.RunHex run.now) }
    ensures { Prepares F.held F.read_faults F.write_faults (asked (Command.RunHex run.now)) files.old result files.new }
{
    let text = match read_file(alloc, run.file, files) {
        Ok(text) => text,
        Err(refusal) => return Err(refusal),
    };
    match read_inputs(alloc, run.inputs, files) {
        Ok(inputs) => run_text(alloc, run, &text, &inputs),
        Err(refusal) => Err(refusal),
    }
}

// The run of the hex file with a text, over inputs with others.
fn run_text<'a>(
    alloc: Global,
    run: &RunHex<'a>,
    text: &[u8],
    inputs: &[Vec<u8>],
) -> Result<Job<'a>, Refusal>
    requires bounded { IsBounded run.now.extent }
    requires short { length text.now ≤ file_limit }
    requires inputs { AllShort (map (λ t. t.items) inputs.now) }
    ensures { IsPrepared (RunHexAnswer run.now.file.now (inputs_in run.now.inputs) run.now.extent text.now (map (λ t. t.items) inputs.now)) result }
{
    let given = given_for(run.inputs, inputs);
    match board_of_hex(alloc, run.file, text, given) {
        Ok(board) => Ok(Job::Run {
            board,
            sources: None,
            extent: run.extent,
        }),
        Err(refusal) => Err(refusal),
    }
}
