// The values of the analogue inputs of a board that is run.
ghost use Rattle.std.specs.Prelude.{◌≡◌, ◌≤◌, Ok, Err, IfOk, IfErr, IfSome, length};
ghost use Rattle.kc_base.specs.Limits.{file_limit};
ghost use Rattle.std.specs.Option.{option_map};
ghost use Rattle.kc_kit_files.specs.Response.{IsRefused};
ghost use Rattle.kc_kit_inputs.specs.Analog.{analog_of, values_of};

use crate::input_lines::line_refusal;
use kc_convert::{Analog, AnalogFault};
use kc_kit_files::Refusal;
use std::alloc::Global;

// The values that a text says, or the refusal of its first fault.
fn read_analog(alloc: Global, name: &str, text: &[u8]) -> Result<Analog, Refusal>
    requires { length text.now ≤ file_limit }
    ensures values { IfOk result (λ values. analog_of name.now text.now ≡ Ok values) }
    ensures refusal { IfErr result (IsRefused (λ response. analog_of name.now text.now ≡ Err response)) }
{
    match Analog::read(alloc, text) {
        Ok(values) => Ok(values),
        Err(AnalogFault::BadLine(line)) => Err(line_refusal(alloc, name, text, line, b"BADANALOG")),
        Err(AnalogFault::NoMemory) => Err(Refusal::NoMemory),
    }
}

/// The values of the analogue inputs of a run: those of a file by its name and its text, or the refusal of its first fault;
/// none without such a file.
pub(crate) fn values_in(alloc: Global, file: Option<(&str, &[u8])>) -> Result<Analog, Refusal>
    requires { IfSome file (λ f. length f.1.now ≤ file_limit) }
    ensures values { IfOk result (λ values. values_of (option_map (λ f. (f.0.now, f.1.now)) file.entry) ≡ Ok values) }
    ensures refusal { IfErr result (IsRefused (λ response. values_of (option_map (λ f. (f.0.now, f.1.now)) file.entry) ≡ Err response)) }
{
    match file {
        Some((name, text)) => read_analog(alloc, name, text),
        None => Ok(Analog::none(alloc)),
    }
}
