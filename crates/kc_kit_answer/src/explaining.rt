// The command that explains a code.
ghost use Rattle.std.specs.Prelude.{◌≡◌, false, IfOk};
ghost use Rattle.kc_kit_files.specs.declared.status.Status.TheVariants as status;
ghost use Rattle.kc_kit_files.specs.Ended.{EndsPrinting};
ghost use Rattle.kc_kit_files.specs.Outside.{shown_by};
ghost use Rattle.kc_kit_files.specs.Response.{reports, IsRefused};
ghost use Rattle.kc_kit_answer.specs.Explain.{explained, no_code_line, no_code_diagnostic};

use kc_base::{NoMemory, Sink};
use kc_kit_files::{Cause, Ended, Refusal, Status, put_word, refusal_of, refuse, say};
use kc_kit_messages::{explain, meaning_text};
use kc_trace::TraceOut;
use std::alloc::Global;

// The diagnostic of a code that is none.
fn no_code_diagnostic(alloc: Global, code: &[u8]) -> Result<Vec<u8>, NoMemory>
    ensures { IfOk result (λ diagnostic. diagnostic.items ≡ no_code_diagnostic code.now) }
{
    let mut diagnostic = Vec::from_slice(alloc, b"kc96: error: there is no code ")?;
    put_word(&mut diagnostic, code)?;
    diagnostic.push(b'\n')?;
    Ok(diagnostic)
}

// The refusal of a code that is none.
fn no_code(alloc: Global, code: &[u8]) -> Refusal
    ensures { IsRefused (λ response. response ≡ reports status.Missing (no_code_line code.now) (no_code_diagnostic code.now)) result }
{
    match no_code_diagnostic(alloc, code) {
        Ok(diagnostic) => refusal_of(
            alloc,
            Cause::Missing,
            b"missing code ",
            code,
            b"\n",
            diagnostic,
        ),
        Err(NoMemory) => Refusal::NoMemory,
    }
}

/// Prints what a code says, or that there is no such code.
pub fn explain_code<S: Sink>(alloc: Global, code: &str, out: &mut TraceOut<S>) -> Ended<'static>
    requires { out.old.failed ≡ false }
    ensures { EndsPrinting (λ response. response ≡ explained code.now) (shown_by S.written S.faults out.old.sink) result (shown_by S.written S.faults out.new.sink) }
{
    match explain(code) {
        Some(row) => match meaning_text(alloc, &row) {
            Ok(text) => Ended::by(say(out, &text, Status::Done)),
            Err(NoMemory) => Ended::by(Status::NoMemory),
        },
        None => refuse(out, no_code(alloc, code.as_bytes())),
    }
}
