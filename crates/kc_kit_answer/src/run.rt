// The command that runs sources.
ghost use Rattle.std.specs.Prelude.{◌≡◌, length, map, string_bytes};
ghost use Rattle.kc_kit_files.specs.Reads.{AllShort};
ghost use Rattle.kc_kit_inputs.specs.FaultDiagnostics.{IsFaultDiagnostic};
ghost use Rattle.kc_kit_words.specs.Asked.{asked, IsWithin};
ghost use Rattle.kc_kit_words.specs.Inputs.{inputs_in};
ghost use Rattle.kc_kit_answer.specs.Jobs.{IsPrepared, Prepares};
ghost use Rattle.kc_kit_answer.specs.Run.{RunAnswer};

use crate::board::board_with_sources;
use crate::job::Job;
use kc_base::Files;
use kc_kit_files::{Refusal, read_files};
use kc_kit_inputs::{given_for, read_inputs};
use kc_kit_words::{Command, Run};
use std::alloc::Global;

/// Reads sources and what drives the inputs, assembles and links the image that is to be run.
pub fn prepare_run<'a, F: Files>(
    alloc: Global,
    run: &Run<'a>,
    files: &mut F,
) -> Result<Job<'a>, Refusal>
    requires { IsWithin (Command.Run run.now) }
    ensures { Prepares F.held F.read_faults F.write_faults (asked (Command.Run run.now)) files.old result files.new }
{
    let texts = match read_files(alloc, run.files, files) {
        Ok(texts) => texts,
        Err(refusal) => return Err(refusal),
    };
    match read_inputs(alloc, run.inputs, files) {
        Ok(inputs) => run_texts(alloc, run, &texts, &inputs),
        Err(refusal) => Err(refusal),
    }
}

// The run of the sources with some texts, over inputs with others.
fn run_texts<'a>(
    alloc: Global,
    run: &Run<'a>,
    texts: &[Vec<u8>],
    inputs: &[Vec<u8>],
) -> Result<Job<'a>, Refusal>
    requires within { IsWithin (Command.Run run.now) }
    requires count { length texts.now ≡ length run.now.files.now }
    requires short { AllShort (map (λ t. t.items) texts.now) }
    requires inputs { AllShort (map (λ t. t.items) inputs.now) }
    ensures { IsPrepared (RunAnswer IsFaultDiagnostic (map string_bytes run.now.files.now) (inputs_in run.now.inputs) run.now.extent run.now.placing (map (λ t. t.items) texts.now) (map (λ t. t.items) inputs.now)) result }
{
    let given = given_for(run.inputs, inputs);
    match board_with_sources(alloc, run.files, texts, &run.placing, given) {
        Ok((board, sources)) => Ok(Job::Run {
            board,
            sources: Some(sources),
            extent: run.extent,
        }),
        Err(refusal) => Err(refusal),
    }
}
