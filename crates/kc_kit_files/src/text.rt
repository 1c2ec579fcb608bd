// Texts that are put together, and texts as they are shown.
ghost use Rattle.std.specs.Prelude.{◌≡◌, ◌++◌, IfOk, OnOk};
ghost use Rattle.kc_trace.specs.Out.{Puts};
ghost use Rattle.kc_trace.specs.Trace.{out_of};
ghost use Rattle.kc_kit_files.specs.Shown.{is_control, shown_byte, shown};

use kc_base::{NoMemory, Sink, byte_text};
use kc_trace::TraceOut;
use std::alloc::Global;

// Whether a terminal acts on a byte.
fn is_control(byte: u8) -> bool
    ensures { result ≡ is_control byte }
{
    byte < 0x20 || byte == 0x7f
}

// Puts a byte behind a diagnostic, as it is shown.
fn put_byte(diagnostic: &mut Vec<u8>, byte: u8) -> Result<(), NoMemory>
    ensures { OnOk result (diagnostic.new.items ≡ diagnostic.old.items ++ shown_byte byte) }
{
    if is_control(byte) {
        diagnostic.extend_from_slice(b"\\x")?;
        diagnostic.extend_from_slice(byte_text(byte).as_slice())?;
    } else {
        diagnostic.push(byte)?;
    }
    Ok(())
}

/// Puts a text behind a diagnostic, as it is shown.
pub fn put_shown(diagnostic: &mut Vec<u8>, text: &[u8]) -> Result<(), NoMemory>
    ensures { OnOk result (diagnostic.new.items ≡ diagnostic.old.items ++ shown text.now) }
{
    let mut left = text;
    while let [byte, rest @ ..] = left {
        put_byte(diagnostic, *byte)?;
        left = rest;
    }
    Ok(())
}

/// Puts words behind a text.
pub fn put_text(text: &mut Vec<u8>, more: &str) -> Result<(), NoMemory>
    ensures { OnOk result (text.new.items ≡ text.old.items ++ more.now) }
{
    text.extend_from_slice(more.as_bytes())?;
    Ok(())
}

/// A text as it is shown.
pub fn shown(alloc: Global, text: &[u8]) -> Result<Vec<u8>, NoMemory>
    ensures { IfOk result (λ diagnostic. diagnostic.items ≡ shown text.now) }
{
    let mut diagnostic = Vec::new(alloc);
    put_shown(&mut diagnostic, text)?;
    Ok(diagnostic)
}

// Writes a byte as it is shown.
fn report_byte<N: Sink>(diagnostics: &mut TraceOut<N>, byte: u8)
    ensures { Puts (out_of N.written N.faults diagnostics.old) (shown_byte byte) (out_of N.written N.faults diagnostics.new) }
{
    if is_control(byte) {
        let [high, low] = byte_text(byte);
        diagnostics.put_text(&[b'\\', b'x', high, low]);
    } else {
        diagnostics.put_text(&[byte]);
    }
}

/// Writes a text as it is shown. It takes no memory.
pub fn report_shown<N: Sink>(diagnostics: &mut TraceOut<N>, text: &[u8])
    ensures { Puts (out_of N.written N.faults diagnostics.old) (shown text.now) (out_of N.written N.faults diagnostics.new) }
{
    let mut left = text;
    while let [byte, rest @ ..] = left {
        report_byte(diagnostics, *byte);
        left = rest;
    }
}
