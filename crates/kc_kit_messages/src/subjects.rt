// What is said in words of the first fault of a source.
ghost use Rattle.std.specs.Prelude.{◌≡◌, ◌++◌, [], IfOk, OnOk};
ghost use Rattle.std.specs.Option.{option_map};
ghost use Rattle.kc_kit_messages.specs.Diagnostics.{error_saying};
ghost use Rattle.kc_kit_messages.specs.Subjects.{around, sentence_round, sentence_about, source_diagnostic, body_place, body_diagnostic};

use crate::diagnostics::{put_line, put_number};
use crate::lookup::sentence;
use kc_base::NoMemory;
use kc_kit_files::{put_shown, shown};
use std::alloc::Global;

// The words before a name and behind it, in the sentence of a code that is about one.
fn around(number: u8) -> Option<(&'static str, &'static str)>
    ensures { option_map (λ w. (w.0.now, w.1.now)) result ≡ around number }
{
    match number {
        6 => Some(("the name ", " is defined twice")),
        7 => Some(("the name ", " is not defined")),
        20 => Some((
            "PUBLIC of ",
            ", which is not defined here or counts from an external",
        )),
        21 => Some(("EXTRN of ", ", which is defined here or taken already")),
        _ => None,
    }
}

// Puts the sentence of a code about this name.
fn put_round(diagnostic: &mut Vec<u8>, code: &[u8], number: u8, name: &[u8]) -> Result<(), NoMemory>
    ensures { OnOk result (diagnostic.new.items ≡ diagnostic.old.items ++ sentence_round code.now (around number) name.now) }
{
    match around(number) {
        Some((before, behind)) => {
            diagnostic.extend_from_slice(before.as_bytes())?;
            diagnostic.extend_from_slice(name)?;
            diagnostic.extend_from_slice(behind.as_bytes())?;
        }
        None => diagnostic.extend_from_slice(sentence(code).as_bytes())?,
    }
    Ok(())
}

// Puts the sentence of a code, which may be about a name.
fn put_sentence(
    diagnostic: &mut Vec<u8>,
    code: &[u8],
    number: u8,
    subject: Option<&[u8]>,
) -> Result<(), NoMemory>
    ensures { OnOk result (diagnostic.new.items ≡ diagnostic.old.items ++ sentence_about code.now number (option_map (λ n. n.now) subject.entry)) }
{
    match subject {
        Some(name) => put_round(diagnostic, code, number, name),
        None => {
            diagnostic.extend_from_slice(sentence(code).as_bytes())?;
            Ok(())
        }
    }
}

// Puts a code behind a diagnostic, with its sentence.
fn put_fault(
    diagnostic: &mut Vec<u8>,
    code: &[u8],
    number: u8,
    subject: Option<&[u8]>,
) -> Result<(), NoMemory>
    ensures { OnOk result (diagnostic.new.items ≡ diagnostic.old.items ++ error_saying code.now [] (sentence_about code.now number (option_map (λ n. n.now) subject.entry))) }
{
    diagnostic.extend_from_slice(b": error ")?;
    diagnostic.extend_from_slice(code)?;
    diagnostic.extend_from_slice(b": ")?;
    put_sentence(diagnostic, code, number, subject)?;
    diagnostic.push(b'\n')?;
    Ok(())
}

/// The diagnostic of the first fault of a source, at a line of its text: a code and its number, and the name that it is about, where it
/// is about one.
pub fn source_diagnostic(
    alloc: Global,
    name: &[u8],
    text: &[u8],
    line: u32,
    code: &[u8],
    number: u8,
    subject: Option<&[u8]>,
) -> Result<Vec<u8>, NoMemory>
    ensures { IfOk result (λ diagnostic. diagnostic.items ≡ source_diagnostic name.now text.now line code.now number (option_map (λ n. n.now) subject.entry)) }
{
    let mut diagnostic = shown(alloc, name)?;
    put_number(&mut diagnostic, line)?;
    put_fault(&mut diagnostic, code, number, subject)?;
    put_line(&mut diagnostic, text, line)?;
    Ok(diagnostic)
}

// Puts where a line of a macro's body stands.
fn put_place(diagnostic: &mut Vec<u8>, name: &[u8], line: u32) -> Result<(), NoMemory>
    ensures { OnOk result (diagnostic.new.items ≡ diagnostic.old.items ++ body_place name.now line) }
{
    put_shown(diagnostic, name)?;
    put_number(diagnostic, line)?;
    diagnostic.extend_from_slice(b": note: it was written here\n")?;
    Ok(())
}

/// Puts behind a diagnostic the line of a macro's body that has the fault, where one has it.
pub fn put_body_line(
    diagnostic: &mut Vec<u8>,
    name: &[u8],
    text: &[u8],
    line: Option<u32>,
) -> Result<(), NoMemory>
    ensures { OnOk result (diagnostic.new.items ≡ diagnostic.old.items ++ body_diagnostic name.now text.now line) }
{
    match line {
        Some(line) => {
            put_place(diagnostic, name, line)?;
            put_line(diagnostic, text, line)?;
            Ok(())
        }
        None => Ok(()),
    }
}
