ghost use Rattle.std.specs.Prelude.{◌≡◌, ◌≤◌, ◌<◌, false, length, IfOk};
ghost use Rattle.kc_base.specs.Limits.{file_limit};
ghost use Rattle.kc_base.specs.TextLines.{begins_with};
ghost use Rattle.kc_lex.specs.Lines.{includes, comment_begins, quoted_after, is_text_to_comment, control_line, line_tokens, lines_of, IsLines, IsLineAt};

use crate::chars::is_text;
use crate::fault::{SourceCode, SourceFault};
use crate::scan::{scan, word_len};
use crate::token::{Line, Tokens};
use kc_base::{NoMemory, after, first_line, prefix};
use std::alloc::Global;

fn begins_control(line: &[u8]) -> bool
    ensures { result ≡ begins_with 36 line.now }
{
    match line {
        [] => false,
        [first, ..] => *first == b'$',
    }
}

fn is_include(line: &[u8]) -> bool
    requires { 0 < length line.now }
    ensures { result ≡ includes line.now }
{
    let rest = after(line, 1);
    prefix(rest, word_len(rest)).eq_ignore_ascii_case(b"INCLUDE")
}

fn begins_comment(b: u8, quoted: bool) -> bool
    ensures { result ≡ comment_begins quoted b }
{
    b == b';' && !quoted
}

fn turned(b: u8, quoted: bool) -> bool
    ensures { result ≡ quoted_after quoted b }
{
    if b == b'\'' { !quoted } else { quoted }
}

// Whether what stands before the comment of a control line is text.
fn has_text(line: &[u8]) -> bool
    ensures { result ≡ is_text_to_comment false line.now }
{
    let mut quoted = false;
    for b in line {
        if begins_comment(*b, quoted) {
            return true;
        }
        if !is_text(*b) {
            return false;
        }
        quoted = turned(*b, quoted);
    }
    true
}

fn control(alloc: Global, line: &[u8]) -> Result<Tokens, u8>
    ensures { result ≡ control_line line.now }
{
    if !has_text(line) {
        Err(SourceCode::NoStatement.number())
    } else if line.len() > 255 {
        Err(SourceCode::LongLine.number())
    } else {
        Ok(Tokens::new(alloc))
    }
}

// The tokens of a line, or the least code of its faults.
#[tactic(auto, unfolding(crate::specs::Lines::line_tokens))]
fn read_line(alloc: Global, line: &[u8]) -> Result<Result<Tokens, u8>, NoMemory>
    ensures { IfOk result (λ r. r ≡ line_tokens line.now) }
{
    if begins_control(line) {
        if is_include(line) {
            return Ok(Err(SourceCode::NoStatement.number()));
        }
        return Ok(control(alloc, line));
    }
    match scan(alloc, line)? {
        None => Ok(Err(SourceCode::NoStatement.number())),
        Some((tokens, sound)) => {
            if line.len() > 255 {
                Ok(Err(SourceCode::LongLine.number()))
            } else if !sound {
                Ok(Err(SourceCode::BadNumber.number()))
            } else {
                Ok(Ok(tokens))
            }
        }
    }
}

fn line_at(alloc: Global, number: u32, text: &[u8]) -> Result<Line, SourceFault>
    ensures { IsLineAt number result (line_tokens text.now) }
{
    match read_line(alloc, text) {
        Ok(Ok(tokens)) => Ok(Line { number, tokens }),
        Ok(Err(code)) => Err(SourceFault::At { line: number, code }),
        Err(NoMemory) => Err(SourceFault::NoMemory),
    }
}

/// The lines of a source of at most 1,048,576 bytes, numbered from 1, with their tokens; a blank or a control line has
/// none. Else the fault of the first line that has one, the least of its codes: 1 for a wrong character, an open
/// string, a name of over 31 characters or `$INCLUDE`; 3 for a line of over 255 bytes; 9 for a number that is badly
/// written or does not fit 32 bits. (MCS-96 Macro Assembler User's Guide, "Lexical Elements"; the codes are this
/// kit's own.)
pub fn lines(alloc: Global, source: &[u8]) -> Result<Vec<Line>, SourceFault>
    requires { length source.now ≤ file_limit }
    ensures { IsLines result (lines_of source.now) }
{
    let mut lines = Vec::new(alloc);
    let mut rest = source;
    let mut number = 1;
    while !rest.is_empty() {
        let (len, used) = first_line(rest);
        let line = match line_at(alloc, number, prefix(rest, len)) {
            Ok(line) => line,
            Err(fault) => return Err(fault),
        };
        lines.push(line)?;
        rest = after(rest, used);
        number += 1;
    }
    Ok(lines)
}
