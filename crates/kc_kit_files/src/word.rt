// A word that was given, as it is shown.
ghost use Rattle.std.specs.Prelude.{◌≡◌, ◌≤◌, ◌++◌, ◌<◌, length, OnOk};
ghost use Rattle.kc_trace.specs.Out.{Puts};
ghost use Rattle.kc_trace.specs.Trace.{out_of};
ghost use Rattle.kc_kit_files.specs.Shown.{is_inner, bytes_of_first, word_shown};

use crate::text::{put_shown, report_shown};
use kc_base::{NoMemory, Sink, prefix};
use kc_trace::TraceOut;

// The most characters of a word that are shown.
const CHARACTERS: usize = 80;

// Whether a byte belongs to a character and is not its first.
fn is_inner(byte: u8) -> bool
    ensures { result ≡ is_inner byte }
{
    0x80 <= byte && byte < 0xc0
}

// How many bytes the first characters of a word have.
fn bytes_of_first(word: &[u8]) -> usize
    ensures value { result ≡ bytes_of_first 80 word.now }
    ensures within { result ≤ length word.now }
{
    let mut count = CHARACTERS;
    let mut end = 0;
    let mut left = word;
    while let [byte, rest @ ..] = left {
        if !is_inner(*byte) {
            if count == 0 {
                return end;
            }
            count -= 1;
        }
        end += 1;
        left = rest;
    }
    end
}

/// Puts a word behind a diagnostic, as it is shown: its first 80 characters, and two dots where it has more.
pub fn put_word(diagnostic: &mut Vec<u8>, word: &[u8]) -> Result<(), NoMemory>
    ensures { OnOk result (diagnostic.new.items ≡ diagnostic.old.items ++ word_shown word.now) }
{
    let end = bytes_of_first(word);
    put_shown(diagnostic, prefix(word, end))?;
    if end < word.len() {
        diagnostic.extend_from_slice(b"..")?;
    }
    Ok(())
}

/// Writes a word as it is shown: its first 80 characters, and two dots where it has more. It takes no memory.
pub fn report_word<N: Sink>(diagnostics: &mut TraceOut<N>, word: &[u8])
    ensures { Puts (out_of N.written N.faults diagnostics.old) (word_shown word.now) (out_of N.written N.faults diagnostics.new) }
{
    let end = bytes_of_first(word);
    report_shown(diagnostics, prefix(word, end));
    if end < word.len() {
        diagnostics.put_text(b"..");
    }
}
