// The command that debugs a hex file by a script.
ghost use Rattle.std.specs.Prelude.{◌≤◌, ◌∷◌, [], IfOk, IfErr, length, map};
ghost use Rattle.kc_base.specs.Limits.{file_limit};
ghost use Rattle.kc_base.specs.Causes.{Rose};
ghost use Rattle.kc_kit_files.specs.Outside.{OnlyRead};
ghost use Rattle.kc_kit_files.specs.Reads.{AllShort, AreHeld, MissedRead};
ghost use Rattle.kc_kit_files.specs.Response.{IsRefused};
ghost use Rattle.kc_kit_words.specs.Asked.{asked, AreLives, IsWithin};
ghost use Rattle.kc_kit_words.specs.Inputs.{inputs_in};
ghost use Rattle.kc_kit_answer.specs.Debug.{DebugAnswer};
ghost use Rattle.kc_kit_answer.specs.Jobs.{IsPrepared, Prepares};

use crate::board::board_of_hex;
use crate::job::Job;
use kc_base::Files;
use kc_kit_files::{Refusal, read_file};
use kc_kit_inputs::{given_for, input_for, lines_in, read_inputs, read_script};
use kc_kit_words::{Command, Debug, Role};
use std::alloc::Global;

// The bytes of two files, read in this order, or the refusal of the first that cannot be read.
fn read_both<F: Files>(
    alloc: Global,
    first: &str,
    second: &str,
    files: &mut F,
) -> Result<(Vec<u8>, Vec<u8>), Refusal>
    ensures read { IfOk result (λ texts. AreHeld (F.held files.old) (first.now ∷ second.now ∷ []) (texts.0.items ∷ texts.1.items ∷ [])) }
    ensures missed { IfErr result (IsRefused (MissedRead (F.held files.old) (first.now ∷ second.now ∷ []) (Rose (F.read_faults files.old) (F.read_faults files.new)))) }
    ensures stays { OnlyRead F.held F.read_faults F.write_faults files.old files.new }
{
    let one = match read_file(alloc, first, files) {
        Ok(one) => one,
        Err(refusal) => return Err(refusal),
    };
    match read_file(alloc, second, files) {
        Ok(other) => Ok((one, other)),
        Err(refusal) => Err(refusal),
    }
}

/// Reads a hex file, a script, and what drives the inputs and the source lines where they are named.
pub fn prepare_debug<'a, F: Files>(
    alloc: Global,
    debug: &Debug<'a>,
    files: &mut F,
) -> Result<Job<'a>, Refusal>
    requires { IsWithin (Command.Debug debug.now) }
    ensures { Prepares F.held F.read_faults F.write_faults (asked (Command.Debug debug.now)) files.old result files.new }
{
    let (text, script) = match read_both(alloc, debug.file, debug.script, files) {
        Ok(texts) => texts,
        Err(refusal) => return Err(refusal),
    };
    match read_inputs(alloc, debug.inputs, files) {
        Ok(inputs) => debug_texts(alloc, debug, &text, &script, &inputs),
        Err(refusal) => Err(refusal),
    }
}

// The debugging of the hex file with a text by the script with a text, over inputs with others.
fn debug_texts<'a>(
    alloc: Global,
    debug: &Debug<'a>,
    text: &[u8],
    script: &[u8],
    inputs: &[Vec<u8>],
) -> Result<Job<'a>, Refusal>
    requires text { length text.now ≤ file_limit }
    requires script { length script.now ≤ file_limit }
    requires inputs { AllShort (map (λ t. t.items) inputs.now) }
    requires lives { AreLives debug.now.lives }
    ensures { IsPrepared (DebugAnswer debug.now.file.now debug.now.script.now (inputs_in debug.now.inputs) debug.now.lives text.now script.now (map (λ t. t.items) inputs.now)) result }
{
    let given = given_for(debug.inputs, inputs);
    let board = match board_of_hex(alloc, debug.file, text, given) {
        Ok(board) => board,
        Err(refusal) => return Err(refusal),
    };
    let script = match read_script(alloc, debug.script, script) {
        Ok(script) => script,
        Err(refusal) => return Err(refusal),
    };
    match lines_in(alloc, input_for(Role::Lines, debug.inputs, inputs)) {
        Ok(lines) => Ok(Job::Debug {
            board,
            lives: debug.lives,
            script,
            lines,
        }),
        Err(refusal) => Err(refusal),
    }
}
