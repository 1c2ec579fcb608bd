// Debugger scripts, and the line maps beside them.
ghost use Rattle.std.specs.Prelude.{◌≡◌, ◌≤◌, Ok, Err, IfOk, IfErr, IfSome, length};
ghost use Rattle.kc_base.specs.Limits.{file_limit};
ghost use Rattle.std.specs.Option.{option_map};
ghost use Rattle.kc_kit_files.specs.Response.{IsRefused};
ghost use Rattle.kc_kit_inputs.specs.Scripts.{script_of, map_of, lines_of};

use crate::input_lines::line_refusal;
use kc_debug_script::{DebugFault, LineMap, Script};
use kc_kit_files::Refusal;
use std::alloc::Global;

/// The script that a file holds, or the refusal of its first line that is no command.
pub fn read_script(alloc: Global, name: &str, text: &[u8]) -> Result<Script, Refusal>
    requires { length text.now ≤ file_limit }
    ensures script { IfOk result (λ script. script_of name.now text.now ≡ Ok script) }
    ensures refusal { IfErr result (IsRefused (λ response. script_of name.now text.now ≡ Err response)) }
{
    match Script::read(alloc, text) {
        Ok(script) => Ok(script),
        Err(DebugFault::BadCommand(line)) => {
            Err(line_refusal(alloc, name, text, line, b"BADCOMMAND"))
        }
        Err(DebugFault::NoMemory) => Err(Refusal::NoMemory),
        Err(_) => unreachable!(),
    }
}

// The line map that a text says, or the refusal of its first line that is none.
fn read_map(alloc: Global, name: &str, text: &[u8]) -> Result<LineMap, Refusal>
    requires { length text.now ≤ file_limit }
    ensures lines { IfOk result (λ lines. map_of name.now text.now ≡ Ok lines) }
    ensures refusal { IfErr result (IsRefused (λ response. map_of name.now text.now ≡ Err response)) }
{
    match LineMap::read(alloc, text) {
        Ok(lines) => Ok(lines),
        Err(DebugFault::BadMap(line)) => Err(line_refusal(alloc, name, text, line, b"BADMAP")),
        Err(DebugFault::NoMemory) => Err(Refusal::NoMemory),
        Err(_) => unreachable!(),
    }
}

/// The source lines of a debugger: the line map of a file by its name and its text, or the refusal of its first line that is
/// none; no lines without such a file.
pub fn lines_in(alloc: Global, file: Option<(&str, &[u8])>) -> Result<LineMap, Refusal>
    requires { IfSome file (λ f. length f.1.now ≤ file_limit) }
    ensures lines { IfOk result (λ lines. lines_of (option_map (λ f. (f.0.now, f.1.now)) file.entry) ≡ Ok lines) }
    ensures refusal { IfErr result (IsRefused (λ response. lines_of (option_map (λ f. (f.0.now, f.1.now)) file.entry) ≡ Err response)) }
{
    match file {
        Some((name, text)) => read_map(alloc, name, text),
        None => Ok(LineMap::none(alloc)),
    }
}
