// What drives the input pins of a board that is run.
ghost use Rattle.std.specs.Prelude.{◌≡◌, ◌≤◌, Ok, Err, IfOk, IfErr, IfSome, length};
ghost use Rattle.kc_base.specs.Limits.{file_limit};
ghost use Rattle.std.specs.Option.{option_map};
ghost use Rattle.kc_kit_files.specs.declared.status.Status.TheVariants as status;
ghost use Rattle.kc_kit_files.specs.Response.{says, IsRefused};
ghost use Rattle.kc_kit_inputs.specs.Stimuli.{stimuli_of, drives_of};

use crate::input_lines::line_refusal;
use kc_kit_files::Refusal;
use kc_stim::{StimFault, Stimuli};
use std::alloc::Global;

// The stimuli that a text says, or the refusal of its first fault.
fn read_stimuli(alloc: Global, name: &str, text: &[u8]) -> Result<Stimuli, Refusal>
    requires { length text.now ≤ file_limit }
    ensures stimuli { IfOk result (λ s. stimuli_of name.now text.now ≡ Ok s) }
    ensures refusal { IfErr result (IsRefused (λ response. stimuli_of name.now text.now ≡ Err response)) }
{
    match Stimuli::read(alloc, text) {
        Ok(stimuli) => Ok(stimuli),
        Err(StimFault::NoMemory) => Err(Refusal::NoMemory),
        Err(fault) => match fault.place() {
            Some((line, code)) => Err(line_refusal(alloc, name, text, line, code)),
            None => unreachable!(),
        },
    }
}

/// What drives the inputs of a run: the stimuli of a file by its name and its text, or the refusal of its first fault; none
/// without such a file.
pub fn stimuli_in(alloc: Global, file: Option<(&str, &[u8])>) -> Result<Stimuli, Refusal>
    requires { IfSome file (λ f. length f.1.now ≤ file_limit) }
    ensures stimuli { IfOk result (λ s. drives_of (option_map (λ f. (f.0.now, f.1.now)) file.entry) ≡ Ok s) }
    ensures refusal { IfErr result (IsRefused (λ response. drives_of (option_map (λ f. (f.0.now, f.1.now)) file.entry) ≡ Err response)) }
{
    match file {
        Some((name, text)) => read_stimuli(alloc, name, text),
        None => Ok(Stimuli::none(alloc)),
    }
}
