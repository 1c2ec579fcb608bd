// The lines of what a source gives.
ghost use Rattle.std.specs.Prelude.{◌≡◌, ◌≢◌, ◌≤◌, ◌<◌, ◌+◌, ◌-◌, ◌==◌, ◌&&◌, nat_lt, slice_index, ℕ, List, Ok, Err, Some, true, false, [], length, take, drop, IfOk, OnOk, OnErr, vec_len};
ghost use Rattle.std.specs.Io.KnownBytes.{Keeps, IsAtEnd};
ghost use Rattle.kc_base.specs.Causes.{Rose};
ghost use Rattle.kc_byte_source.specs.Window.{first_len};
ghost use Rattle.kc_byte_source.specs.Feed.{GaveLine, IsLongLine, IsLineOf};

use crate::Source;
use crate::window::Window;
use kc_base::NoMemory;
use std::alloc::Global;
use std::marker::Model;

/// The greatest bound of the length of lines that may be asked for, in bytes.
pub const MOST: usize = 65_534;

// How many bytes of what the source gives are held at once, at most.
const ROOM: usize = 65_536;

/// Why no line is given.
#[derive(Clone, Copy, PartialEq, Eq)]
pub enum LineFault {
    /// The line is longer than the bound.
    TooLong,
    /// The source has failed.
    Failed,
}

/// The lines of what a source gives, one at a time, of bounded length. A line ends by LF or CR LF; the last may lack it.
#[derive(Drop)]
pub struct Lines<S: Source> {
    window: Window<S>,
    most: usize,
    at: usize,
    len: usize,
}

impl<S: Source> Model for Lines<S> {
    ghost use Rattle.std.specs.Prelude.{◌+◌, ◌≤◌, vec_len, take, drop};
    ghost use Rattle.kc_byte_source.specs.Feed.{Feed};
    ghost use Rattle.kc_byte_source.specs.Window.{left, IsWhole};

    ghost Value = { Feed };

    ghost view = { λ l. record {
      line = take l.len (drop l.at l.window.room.items);
      left = left S.to_come l.window;
      most = l.most;
      faults = S.faults l.window.source;
    } };

    ghost invariant = { λ l. IsWhole S.to_come l.window × (l.at + l.len ≤ vec_len l.window.room) × (l.len ≤ l.most) × (l.most + 2 ≤ vec_len l.window.room) };
}

// A room of fixed length.
fn make_room(alloc: Global) -> Result<Vec<u8>, NoMemory>
    ensures { IfOk result (λ room. vec_len room ≡ 65536) }
{
    Ok(vec![in alloc; 0u8; ROOM]?)
}

// Whether a carriage return is the last of the first n bytes.
fn ends_return(text: &[u8], n: usize) -> bool
    requires { n ≤ length text.now }
    ensures { result ≡ (nat_lt 0 n && (slice_index text.now (n - 1) == 13)) }
{
    n > 0 && text[n - 1] == b'\r'
}

// How long the first line of a text is without its end, and with it, where so many bytes stand before the first line feed: all,
// where it has none and nothing comes behind the text.
fn line_in(text: &[u8], n: usize) -> (usize, usize)
    requires value { n ≡ first_len text.now }
    requires within { n ≤ length text.now }
    ensures line { result.0 ≤ n }
    ensures within { result.1 ≤ length text.now }
    ensures goes { 0 < length text.now → 0 < result.1 }
    ensures ended { n < length text.now → (rest : List ℕ) → IsLineOf text.now result.0 result.1 rest }
    ensures last { 0 < length text.now → n ≡ length text.now → IsLineOf text.now result.0 result.1 [] }
{
    if n == text.len() {
        return (n, n);
    }
    if ends_return(text, n) {
        (n - 1, n + 1)
    } else {
        (n, n + 1)
    }
}

impl<S: Source + Drop> Lines<S> {
    /// The lines of all that a source gives, of at most so many bytes each, of which none was given yet.
    pub fn new(alloc: Global, source: S, most: usize) -> Result<Self, NoMemory>
        requires { most ≤ 65534 }
        ensures line { IfOk result (λ lines. lines.line ≡ []) }
        ensures left { IfOk result (λ lines. lines.left ≡ S.to_come source) }
        ensures most { IfOk result (λ lines. lines.most ≡ most) }
        ensures faults { IfOk result (λ lines. lines.faults ≡ S.faults source) }
    {
        let room = make_room(alloc)?;
        Ok(Lines {
            window: Window {
                source,
                room,
                from: 0,
                to: 0,
                is_over: false,
            },
            most,
            at: 0,
            len: 0,
        })
    }

    /// Goes to the next line: whether there is one. After a refusal, or where no line is left, there is no line; the text that is
    /// left is the same after a refusal, so that a line that is too long is refused again, and after a read that has failed the
    /// next is tried where it has stopped.
    pub fn advance(&mut self) -> Result<bool, LineFault>
        ensures line { result ≡ Ok true → GaveLine self.old.left self.new.line self.new.left }
        ensures over { result ≡ Ok false → IsAtEnd self.old.left × (self.new.line ≡ []) }
        ensures within { length self.new.line ≤ self.new.most }
        ensures too_long { result ≡ Err LineFault.TooLong → IsLongLine self.old.most self.old.left }
        ensures refused { OnErr result (Keeps self.old.left self.new.left × (self.new.line ≡ [])) }
        ensures failed { result ≡ Err LineFault.Failed → Rose self.old.faults self.new.faults }
        ensures calm { result ≢ Err LineFault.Failed → self.new.faults ≡ self.old.faults }
        ensures later { self.old.faults ≤ self.new.faults }
        ensures most { self.new.most ≡ self.old.most }
    {
        self.len = 0;
        let n = self.window.fill(self.most)?;
        let (len, used) = line_in(self.window.unread(), n);
        if used == 0 {
            return Ok(false);
        }
        if len > self.most {
            return Err(LineFault::TooLong);
        }
        self.at = self.window.from;
        self.len = len;
        self.window.from += used;
        Ok(true)
    }

    /// The source, given back, with as many faults as these lines have counted.
    pub fn into_source(self) -> S
        ensures { S.faults result ≡ self.faults }
    {
        let Lines { window, .. } = self;
        let Window { source, .. } = window;
        source
    }

    /// The line that was given last, without its end; nothing, where none is given.
    pub fn line(&self) -> &[u8]
        ensures { result.now ≡ self.now.line }
    {
        &self.window.room[self.at..self.at + self.len]
    }
}
