ghost use Rattle.std.specs.Prelude.{◌≡◌, ◌≤◌, length, IfOk};
ghost use Rattle.kc_base.specs.Limits.{file_limit};
ghost use Rattle.kc_asm_origin.specs.Symbol.{symbol_of};

use crate::names::used;
use crate::values::valued;
use kc_asm_symbols::externals_are_few;
use kc_base::{NoMemory, Text};
use kc_lex::{SourceFault, lines};
use kc_macro::expand;
use kc_source::statements;
use std::alloc::Global;

/// The name that the first fault of a source of at most 1,048,576 bytes is about, by its line and its code: 6 a name that is
/// defined again, 7 the first name of a statement that means nothing there, 20 a name that PUBLIC may not give, 21 one that
/// EXTRN may not take. `None` for other codes, and for a fault of lines, macros or conditions.
pub fn symbol(alloc: Global, source: &[u8], line: u32, code: u8) -> Result<Option<Text>, NoMemory>
    requires { length source.now ≤ file_limit }
    ensures { IfOk result (λ name. name ≡ symbol_of source.now line code) }
{
    let read = match lines(alloc, source) {
        Ok(read) => read,
        Err(SourceFault::At { .. }) => return Ok(None),
        Err(SourceFault::NoMemory) => return Err(NoMemory),
    };
    let text = match expand(alloc, read) {
        Ok(text) => text,
        Err(SourceFault::At { .. }) => return Ok(None),
        Err(SourceFault::NoMemory) => return Err(NoMemory),
    };
    externals_are_few();
    match statements(alloc, &text) {
        Ok(stmts) => valued(alloc, &stmts, line, code),
        Err(SourceFault::At { .. }) => used(alloc, &text, line, code),
        Err(SourceFault::NoMemory) => Err(NoMemory),
    }
}
