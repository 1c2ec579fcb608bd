// Standard input, and opened files. What they hold is reported as far as their reader reports it: not at all, with those of the system.
ghost use Rattle.std.specs.Prelude.{◌≡◌, ◌<◌, ◌≤◌, Ok, take, length, IfOk, OnErr};
ghost use Rattle.std.specs.Io.KnownBytes.{Consumes, Keeps, IsAtEnd};

use crate::{Failed, Source};
use std::io::{ErrorKind, Read};

// How often a read is begun that signals interrupt.
const TURNS: u32 = 64;

// Reads some bytes, anew where a signal interrupts it.
fn read_some<R: Read>(input: &mut R, room: &mut [u8]) -> Result<usize, Failed>
    requires { 0 < length room.old }
    ensures within { IfOk result (λ count. count ≤ length room.new) }
    ensures given { IfOk result (λ count. Consumes (R.remaining input.old) (R.remaining input.new) (take count room.new)) }
    ensures end { result ≡ Ok 0 → IsAtEnd (R.remaining input.new) }
    ensures refused { OnErr result (Keeps (R.remaining input.old) (R.remaining input.new)) }
{
    for _ in 0..TURNS {
        match input.read(room) {
            Ok(count) => return Ok(count),
            Err(error) => {
                if error.kind() != ErrorKind::Interrupted {
                    return Err(Failed);
                }
            }
        }
    }
    Err(Failed)
}

/// What a reader of the system reads, as a source: standard input, or an opened file.
#[derive(Drop)]
pub struct HostInput<R: Read> {
    input: R,
    faults: u64,
}

impl<R: Read> HostInput<R> {
    /// The input, of which no read has failed.
    pub fn new(input: R) -> Self
        ensures input { result.input ≡ input }
        ensures faults { result.faults ≡ 0 }
    {
        HostInput { input, faults: 0 }
    }
}

impl<R: Read> Source for HostInput<R> {
    ghost to_come = { λ s. R.remaining s.input };

    ghost faults = { λ s. s.faults };

    fn read(&mut self, room: &mut [u8]) -> Result<usize, Failed> {
        match read_some(&mut self.input, room) {
            Ok(count) => Ok(count),
            Err(Failed) => {
                self.faults = self.faults.saturating_add(1);
                Err(Failed)
            }
        }
    }
}
