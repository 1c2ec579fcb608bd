// Help on the commands.
ghost use Rattle.std.specs.Prelude.{◌≡◌, false, flat_map, IfOk};
ghost use Rattle.std.specs.List.{filter};
ghost use Rattle.std.specs.Str.{bytes_eq};
ghost use Rattle.kc_kit_files.specs.declared.status.Status.TheVariants as status;
ghost use Rattle.kc_kit_files.specs.Outside.{Prints, shown_by};
ghost use Rattle.kc_kit_files.specs.Response.{says};
ghost use Rattle.kc_kit_answer.specs.Help as spec;

use crate::help::{Row, help_rows};
use kc_base::{NoMemory, Sink};
use kc_kit_files::{Status, put_text, say};
use kc_trace::TraceOut;
use std::alloc::Global;

// The texts of some parts.
fn all_of(alloc: Global, rows: &[Row]) -> Result<Vec<u8>, NoMemory>
    ensures { IfOk result (λ text. text.items ≡ flat_map (λ row. row.1.now) rows.now) }
{
    let mut text = Vec::new(alloc);
    let mut left = rows;
    while let [row, rest @ ..] = left {
        put_text(&mut text, row.1)?;
        left = rest;
    }
    Ok(text)
}

fn is_on(verb: &str, row: &Row) -> bool
    ensures { result ≡ bytes_eq row.now.0.now verb.now }
{
    row.0.as_bytes() == verb.as_bytes()
}

// The texts of those that are on a command.
fn those_on(alloc: Global, verb: &str, rows: &[Row]) -> Result<Vec<u8>, NoMemory>
    ensures { IfOk result (λ text. text.items ≡ flat_map (λ row. row.1.now) (filter (λ row. bytes_eq row.0.now verb.now) rows.now)) }
{
    let mut text = Vec::new(alloc);
    let mut left = rows;
    while let [row, rest @ ..] = left {
        if is_on(verb, row) {
            put_text(&mut text, row.1)?;
        }
        left = rest;
    }
    Ok(text)
}

fn help_text(alloc: Global) -> Result<Vec<u8>, NoMemory>
    ensures { IfOk result (λ text. text.items ≡ spec.help_text) }
{
    all_of(alloc, help_rows())
}

fn help_on(alloc: Global, verb: &str) -> Result<Vec<u8>, NoMemory>
    ensures { IfOk result (λ text. text.items ≡ spec.help_on verb.now) }
{
    those_on(alloc, verb, help_rows())
}

/// Prints the help on all commands.
pub fn report_help<S: Sink>(alloc: Global, out: &mut TraceOut<S>) -> Status
    requires { out.old.failed ≡ false }
    ensures { Prints (λ response. response ≡ says status.Done spec.help_text) (shown_by S.written S.faults out.old.sink) result (shown_by S.written S.faults out.new.sink) }
{
    match help_text(alloc) {
        Ok(text) => say(out, &text, Status::Done),
        Err(NoMemory) => Status::NoMemory,
    }
}

/// Prints the help on a command.
pub fn report_help_on<S: Sink>(alloc: Global, verb: &str, out: &mut TraceOut<S>) -> Status
    requires { out.old.failed ≡ false }
    ensures { Prints (λ response. response ≡ says status.Done (spec.help_on verb.now)) (shown_by S.written S.faults out.old.sink) result (shown_by S.written S.faults out.new.sink) }
{
    match help_on(alloc, verb) {
        Ok(text) => say(out, &text, Status::Done),
        Err(NoMemory) => Status::NoMemory,
    }
}
