// What a source has given and nobody has taken yet, in a room of fixed length.
ghost use Rattle.std.specs.Prelude.{◌≡◌, ◌≢◌, ◌<◌, ◌≤◌, ◌+◌, ◌-◌, ◌==◌, ℕ, true, false, Ok, take, drop, length, vec_len, IfOk, OnOk, OnErr, not};
ghost use Rattle.std.specs.List.{take_while};
ghost use Rattle.std.specs.Io.KnownBytes.{Consumes, Keeps, IsAtEnd};
ghost use Rattle.kc_base.specs.Causes.{Rose};

use crate::lines::LineFault;
use crate::{Failed, Source};

/// The bytes of the room from one place up to another one are those that nobody has taken yet; where the source is over, no
/// byte is to come behind them.
#[derive(Drop)]
pub(crate) struct Window<S> {
    pub source: S,
    pub room: Vec<u8>,
    pub from: usize,
    pub to: usize,
    pub is_over: bool,
}

/// How many bytes of a text stand before its first line feed; all, where it has none.
pub(crate) fn line_len(text: &[u8]) -> usize
    ensures value { result ≡ length (take_while (λ b. not (b == 10)) text.now) }
    ensures within { result ≤ length text.now }
{
    text.iter().take_while(|b| **b != b'\n').count()
}

// Reads some more bytes behind the first so many of a room, and says how many.
fn read_behind<S: Source>(source: &mut S, room: &mut [u8], to: usize) -> Result<usize, Failed>
    requires { to < length room.old }
    ensures within { IfOk result (λ count. to + count ≤ length room.new) }
    ensures given { IfOk result (λ count. Consumes (S.to_come source.old) (S.to_come source.new) (take count (drop to room.new))) }
    ensures prefix { take to room.new ≡ take to room.old }
    ensures end { result ≡ Ok 0 → IsAtEnd (S.to_come source.new) }
    ensures refused { OnErr result (Keeps (S.to_come source.old) (S.to_come source.new)) }
    ensures failed { OnErr result (Rose (S.faults source.old) (S.faults source.new)) }
    ensures calm { OnOk result (S.faults source.new ≡ S.faults source.old) }
    ensures later { S.faults source.old ≤ S.faults source.new }
{
    source.read(&mut room[to..])
}

impl<S: Source> Window<S> {
    ghost use Rattle.kc_byte_source.specs.Window.{unread, left, IsWhole, first_len, IsLongFirst};

    /// What nobody has taken yet, lent.
    pub(crate) fn unread(&self) -> &[u8]
        requires { IsWhole S.to_come self.now }
        ensures { result.now ≡ unread self.now }
    {
        &self.room[self.from..self.to]
    }

    // Moves what nobody has taken yet to the beginning of the room.
    fn shift(&mut self)
        requires { IsWhole S.to_come self.old }
        ensures whole { IsWhole S.to_come self.new }
        ensures unread { unread self.new ≡ unread self.old }
        ensures first { self.new.from ≡ 0 }
        ensures room { vec_len self.new.room ≡ vec_len self.old.room }
        ensures source { self.new.source ≡ self.old.source }
        ensures over { self.new.is_over ≡ self.old.is_over }
    {
        if self.from > 0 {
            self.room.copy_within(self.from..self.to, 0);
            self.to -= self.from;
            self.from = 0;
        }
    }

    // Reads some more bytes behind those that nobody has taken yet.
    fn read_more(&mut self) -> Result<(), LineFault>
        requires whole { IsWhole S.to_come self.old }
        requires first { self.old.from ≡ 0 }
        requires more { self.old.to < vec_len self.old.room }
        requires open { self.old.is_over ≡ false }
        ensures whole { IsWhole S.to_come self.new }
        ensures left { Keeps (left S.to_come self.old) (left S.to_come self.new) }
        ensures room { vec_len self.new.room ≡ vec_len self.old.room }
        ensures goes { OnOk result (self.new.is_over ≡ false → length (unread self.old) < length (unread self.new)) }
        ensures over { OnOk result (self.new.is_over ≡ true → unread self.new ≡ unread self.old) }
        ensures failed { OnErr result (Rose (S.faults self.old.source) (S.faults self.new.source)) }
        ensures cause { OnErr result (result ≡ Err LineFault.Failed) }
        ensures calm { OnOk result (S.faults self.new.source ≡ S.faults self.old.source) }
        ensures later { S.faults self.old.source ≤ S.faults self.new.source }
    {
        match read_behind(&mut self.source, self.room.as_mut_slice(), self.to) {
            Ok(0) => {
                self.is_over = true;
                Ok(())
            }
            Ok(count) => {
                self.to += count;
                Ok(())
            }
            Err(_) => Err(LineFault::Failed),
        }
    }

    /// Reads until a line feed stands among what nobody has taken yet, or the source is over, and says how many bytes stand
    /// before the first line feed; all, where there is none. A line that is longer than `most` is refused as soon as that is seen.
    pub(crate) fn fill(&mut self, most: usize) -> Result<usize, LineFault>
        requires whole { IsWhole S.to_come self.old }
        requires room { most + 2 ≤ vec_len self.old.room }
        ensures whole { IsWhole S.to_come self.new }
        ensures left { Keeps (left S.to_come self.old) (left S.to_come self.new) }
        ensures room { vec_len self.new.room ≡ vec_len self.old.room }
        ensures len { IfOk result (λ len. len ≡ first_len (unread self.new)) }
        ensures ended { IfOk result (λ len. self.new.is_over ≡ false → len < length (unread self.new)) }
        ensures too_long { result ≡ Err LineFault.TooLong → IsLongFirst most (unread self.new) }
        ensures failed { result ≡ Err LineFault.Failed → Rose (S.faults self.old.source) (S.faults self.new.source) }
        ensures calm { result ≢ Err LineFault.Failed → S.faults self.new.source ≡ S.faults self.old.source }
        ensures later { S.faults self.old.source ≤ S.faults self.new.source }
    {
        let mut len = line_len(self.unread());
        while !self.is_over && len == self.to - self.from {
            if len > most + 1 {
                return Err(LineFault::TooLong);
            }
            self.shift();
            self.read_more()?;
            len = line_len(self.unread());
        }
        Ok(len)
    }
}
