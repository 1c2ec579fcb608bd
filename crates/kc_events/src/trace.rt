// The trace that a source gives.
ghost use Rattle.std.specs.Prelude.{◌≡◌, ◌≢◌, ◌≤◌, true, None, IfOk, IfErr, IfSome, OnErr};
ghost use Rattle.std.specs.Io.KnownBytes.{IsAtEnd};
ghost use Rattle.kc_events.specs.declared.line.Line.{Line};
ghost use Rattle.kc_events.specs.Lines.{line_text};
ghost use Rattle.kc_events.specs.Grammar.{start_place, is_over, MayFollow, after_line};
ghost use Rattle.kc_events.specs.Printed.{place_in};
ghost use Rattle.kc_events.specs.Reading.{GaveNext, IsRefused, count_after};

use crate::line::Line;
use crate::reader::Reader;
use kc_base::NoMemory;
use kc_byte_source::{LineFault, Lines, Source};
use std::alloc::Global;
use std::marker::Model;
use thiserror::Error;

/// The most characters that the line of a trace may have, and more than any has.
const MOST: usize = 255;

/// Why a trace is not read any further.
#[derive(Clone, Copy, Debug, PartialEq, Eq, Error)]
pub enum TraceFault {
    /// The line of this number, counted from 1, is none that may come there; or it is lacking.
    #[error("line {0} is no line of a trace")]
    BadTrace(u64),
    #[error("the source has failed")]
    Failed,
}

/// The lines of the trace that a source gives, one at a time.
#[derive(Drop)]
pub struct Trace<S: Source> {
    lines: Lines<S>,
    reader: Reader,
    count: u64,
}

// The line that has a text, where it may come next.
fn taken(reader: &mut Reader, text: &[u8], count: u64) -> Result<Option<Line>, TraceFault>
    ensures line { IfOk result (λ next. IfSome next (λ line. MayFollow (place_in reader.old) line × (line_text line ≡ text.now) × (place_in reader.new ≡ after_line (place_in reader.old) line))) }
    ensures some { result ≢ Ok None }
    ensures cause { IfErr result (λ fault. fault ≡ TraceFault.BadTrace count) }
    ensures none { OnErr result ((line : Line) → MayFollow (place_in reader.old) line → line_text line ≢ text.now) }
    ensures same { OnErr result (reader.new ≡ reader.old) }
{
    match reader.take(text) {
        Some(line) => Ok(Some(line)),
        None => Err(TraceFault::BadTrace(count)),
    }
}

impl<S: Source> Model for Trace<S> {
    ghost use Rattle.std.specs.Prelude.{◌≡◌};
    ghost use Rattle.kc_events.specs.Reading.{Reading};

    ghost Value = { Reading };

    ghost view = { λ t. record { reader = t.reader; left = t.lines.left; count = t.count; faults = t.lines.faults } };

    ghost invariant = { λ t. t.lines.most ≡ 255 };
}

impl<S: Source + Drop> Trace<S> {
    /// The trace that a source gives, of which no line was read.
    pub fn new(alloc: Global, source: S) -> Result<Self, NoMemory>
        ensures place { IfOk result (λ trace. place_in trace.reader ≡ start_place 0) }
        ensures left { IfOk result (λ trace. trace.left ≡ S.to_come source) }
        ensures count { IfOk result (λ trace. trace.count ≡ 0) }
        ensures faults { IfOk result (λ trace. trace.faults ≡ S.faults source) }
    {
        Ok(Trace {
            lines: Lines::new(alloc, source, MOST)?,
            reader: Reader::new(),
            count: 0,
        })
    }

    /// The next line of the trace; none where the text ends behind the last line of a run. Refused is the first line that no line
    /// which may come there has as its text, or the end of the text, where the run has not ended; the reader stands where it
    /// stood, and after a read that has failed the text is the same.
    pub fn next_line(&mut self) -> Result<Option<Line>, TraceFault>
        ensures line { IfOk result (λ next. IfSome next (λ line. GaveNext self.old line self.new)) }
        ensures over { result ≡ Ok None → IsAtEnd self.old.left × (is_over self.old.reader.stage ≡ true) × (self.new.reader ≡ self.old.reader) }
        ensures refused { IfErr result (IsRefused self.old self.new) }
        ensures count { self.new.count ≡ count_after result self.old.count }
        ensures calm { result ≢ Err TraceFault.Failed → self.new.faults ≡ self.old.faults }
        ensures later { self.old.faults ≤ self.new.faults }
    {
        let count = self.count.saturating_add(1);
        match self.lines.advance() {
            Ok(true) => {
                self.count = count;
                taken(&mut self.reader, self.lines.line(), count)
            }
            Ok(false) => {
                self.count = count;
                if self.reader.is_over() {
                    return Ok(None);
                }
                Err(TraceFault::BadTrace(count))
            }
            Err(LineFault::TooLong) => {
                self.count = count;
                Err(TraceFault::BadTrace(count))
            }
            Err(LineFault::Failed) => Err(TraceFault::Failed),
        }
    }

    /// The source, given back, with as many faults as this trace has counted.
    pub fn into_source(self) -> S
        ensures { S.faults result ≡ self.faults }
    {
        let Trace { lines, .. } = self;
        lines.into_source()
    }
}
