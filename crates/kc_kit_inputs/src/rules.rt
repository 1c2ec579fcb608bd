// Rules files, and the refusal of a trace that is read line by line.
ghost use Rattle.std.specs.Prelude.{◌≡◌, ◌≤◌, Ok, Err, IfOk, IfErr, length, codes};
ghost use Rattle.kc_base.specs.Limits.{file_limit};
ghost use Rattle.kc_kit_files.specs.Response.{IsRefused};
ghost use Rattle.kc_kit_inputs.specs.Responses.{unkept_response};
ghost use Rattle.kc_kit_inputs.specs.Rules.{rules_of};

use crate::input_lines::{line_refusal, unkept_refusal};
use kc_kit_files::Refusal;
use kc_rules::{Rules, RulesFault};
use std::alloc::Global;

/// The marks and rules of a file, at an oscillator of so many hertz, or the refusal of its first line that has no reading.
pub fn read_rules(alloc: Global, name: &str, clock: u32, text: &[u8]) -> Result<Rules, Refusal>
    requires { length text.now ≤ file_limit }
    ensures rules { IfOk result (λ rules. rules_of name.now clock text.now ≡ Ok rules) }
    ensures refusal { IfErr result (IsRefused (λ response. rules_of name.now clock text.now ≡ Err response)) }
{
    match Rules::read(alloc, clock, text) {
        Ok(rules) => Ok(rules),
        Err(RulesFault::BadRule(line)) => Err(line_refusal(alloc, name, text, line, b"BADRULE")),
        Err(RulesFault::NoMemory) => Err(Refusal::NoMemory),
    }
}

/// The refusal of a trace of which the line of this number is the first that no board prints there.
pub fn trace_refusal(alloc: Global, name: &str, line: u64) -> Refusal
    ensures { IsRefused (λ response. response ≡ unkept_response name.now line (codes "BADTRACE")) result }
{
    unkept_refusal(alloc, name, line, b"BADTRACE")
}
