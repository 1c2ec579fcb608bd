// What is said in words of a fault in a file.
ghost use Rattle.std.specs.Prelude.{◌≡◌, ◌++◌, codes, decimal, IfOk, OnOk};
ghost use Rattle.std.specs.Option.{option_map};
ghost use Rattle.kc_kit_messages.specs.Diagnostics.{line_at, line_shown, number_text, error_text, line_diagnostic, unkept_diagnostic, broken_diagnostic, byte_diagnostic};

use crate::lookup::sentence;
use kc_base::{NoMemory, after, first_line, prefix};
use kc_kit_files::{put_shown, shown};
use std::alloc::Global;

/// The line of this number of a text, from 1 on, without its end.
fn line_at(text: &[u8], number: u32) -> Option<&[u8]>
    ensures { option_map (λ l. l.now) result ≡ line_at text.now number }
{
    if number == 0 {
        return None;
    }
    let mut rest = text;
    let mut before = number - 1;
    while !rest.is_empty() {
        let (line, whole) = first_line(rest);
        if before == 0 {
            return Some(prefix(rest, line));
        }
        before -= 1;
        rest = after(rest, whole);
    }
    None
}

/// Puts the number of a line behind the name of its file.
pub(crate) fn put_number(diagnostic: &mut Vec<u8>, line: u32) -> Result<(), NoMemory>
    ensures { OnOk result (diagnostic.new.items ≡ diagnostic.old.items ++ number_text line) }
{
    diagnostic.push(b':')?;
    kc_base::put_number(diagnostic, u128::from(line))
}

/// Puts a code behind a diagnostic, with more behind it, and with its sentence.
pub(crate) fn put_error(diagnostic: &mut Vec<u8>, code: &[u8], more: &[u8]) -> Result<(), NoMemory>
    ensures { OnOk result (diagnostic.new.items ≡ diagnostic.old.items ++ error_text code.now more.now) }
{
    diagnostic.extend_from_slice(b": error ")?;
    diagnostic.extend_from_slice(code)?;
    diagnostic.extend_from_slice(more)?;
    diagnostic.extend_from_slice(b": ")?;
    diagnostic.extend_from_slice(sentence(code).as_bytes())?;
    diagnostic.push(b'\n')?;
    Ok(())
}

/// Puts the line of this number behind a diagnostic.
pub(crate) fn put_line(diagnostic: &mut Vec<u8>, text: &[u8], line: u32) -> Result<(), NoMemory>
    ensures { OnOk result (diagnostic.new.items ≡ diagnostic.old.items ++ line_shown (line_at text.now line)) }
{
    match line_at(text, line) {
        Some(shown) => {
            put_shown(diagnostic, shown)?;
            diagnostic.push(b'\n')?;
            Ok(())
        }
        None => Ok(()),
    }
}

/// The diagnostic of a fault in a line of a text.
pub fn line_diagnostic(
    alloc: Global,
    name: &[u8],
    text: &[u8],
    line: u32,
    code: &[u8],
) -> Result<Vec<u8>, NoMemory>
    ensures { IfOk result (λ diagnostic. diagnostic.items ≡ line_diagnostic name.now text.now line code.now) }
{
    let mut diagnostic = shown(alloc, name)?;
    put_number(&mut diagnostic, line)?;
    put_error(&mut diagnostic, code, b"")?;
    put_line(&mut diagnostic, text, line)?;
    Ok(diagnostic)
}

/// The diagnostic of a fault in a line of a text of which no line is kept.
pub fn unkept_diagnostic(
    alloc: Global,
    name: &[u8],
    line: u64,
    code: &[u8],
) -> Result<Vec<u8>, NoMemory>
    ensures { IfOk result (λ diagnostic. diagnostic.items ≡ unkept_diagnostic name.now line code.now) }
{
    let mut diagnostic = shown(alloc, name)?;
    diagnostic.push(b':')?;
    kc_base::put_number(&mut diagnostic, u128::from(line))?;
    put_error(&mut diagnostic, code, b"")?;
    Ok(diagnostic)
}

/// Puts the diagnostic of a rule that is broken behind others, by the line of its file.
pub fn put_broken(
    diagnostic: &mut Vec<u8>,
    name: &[u8],
    text: &[u8],
    line: u32,
) -> Result<(), NoMemory>
    ensures { OnOk result (diagnostic.new.items ≡ diagnostic.old.items ++ broken_diagnostic name.now text.now line) }
{
    put_shown(diagnostic, name)?;
    put_number(diagnostic, line)?;
    diagnostic.extend_from_slice(b": error broken: ")?;
    put_line(diagnostic, text, line)
}

// The place of a fault as it is reported behind its code.
fn byte_text(alloc: Global, place: u32) -> Result<Vec<u8>, NoMemory>
    ensures { IfOk result (λ text. text.items ≡ codes " at byte " ++ decimal place) }
{
    let mut text = Vec::from_slice(alloc, b" at byte ")?;
    kc_base::put_number(&mut text, u128::from(place))?;
    Ok(text)
}

/// The diagnostic of a fault at a byte of a file.
pub fn byte_diagnostic(
    alloc: Global,
    name: &[u8],
    place: u32,
    code: &[u8],
) -> Result<Vec<u8>, NoMemory>
    ensures { IfOk result (λ diagnostic. diagnostic.items ≡ byte_diagnostic name.now place code.now) }
{
    let mut diagnostic = shown(alloc, name)?;
    let more = byte_text(alloc, place)?;
    put_error(&mut diagnostic, code, &more)?;
    Ok(diagnostic)
}
