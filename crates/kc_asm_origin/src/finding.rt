ghost use Rattle.std.specs.Prelude.{◌≡◌, ◌≤◌, length, IfOk};
ghost use Rattle.kc_base.specs.Limits.{file_limit};
ghost use Rattle.kc_asm_origin.specs.Origin as spec;

use crate::alike::are_lines_alike;
use crate::seeking::origin_in;
use crate::written::{marked, places_of};
use kc_base::NoMemory;
use kc_lex::{Line, LineFault, SourceFault, lines};
use kc_macro::expand;
use std::alloc::Global;

// By the expansion, and that of the marked lines.
fn origin_between(
    alloc: Global,
    text: &[Line],
    other: &[Line],
    fault: LineFault,
) -> Result<Option<u32>, NoMemory>
    requires { length text.now ≤ 65535 }
    ensures { IfOk result (λ found. spec.IsOriginAmong fault text.now other.now found) }
{
    if !are_lines_alike(other, text) {
        return Ok(None);
    }
    let places = places_of(alloc, fault.line, other)?;
    origin_in(alloc, text, fault, &places)
}

/// The line of a macro's body that the first fault of a source of at most 1,048,576 bytes comes from, by its line and its code.
/// Of a line that a call puts in it is reported where its first token behind a label was written.
///
/// `None`: the line with the fault stands on the line of its number itself, as it does out of REPT, IRP and IF; its first
/// token is an argument of the call there; or the fault is one of lines or of macros. A call reads the source once again, and
/// has at most 19 runs of the passes behind expansion.
pub fn origin(alloc: Global, source: &[u8], line: u32, code: u8) -> Result<Option<u32>, NoMemory>
    requires { length source.now ≤ file_limit }
    ensures { IfOk result (λ found. spec.IsOrigin source.now line code found) }
{
    let read = match lines(alloc, source) {
        Ok(read) => read,
        Err(SourceFault::At { .. }) => return Ok(None),
        Err(SourceFault::NoMemory) => return Err(NoMemory),
    };
    let marks = marked(alloc, &read)?;
    let text = match expand(alloc, read) {
        Ok(text) => text,
        Err(SourceFault::At { .. }) => return Ok(None),
        Err(SourceFault::NoMemory) => return Err(NoMemory),
    };
    let other = match expand(alloc, marks) {
        Ok(other) => other,
        Err(SourceFault::At { .. }) => return Ok(None),
        Err(SourceFault::NoMemory) => return Err(NoMemory),
    };
    let found = origin_between(alloc, &text, &other, LineFault { line, code })?;
    Ok(found)
}
