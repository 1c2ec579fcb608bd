// The real standard output and standard error.
ghost use Rattle.std.specs.Prelude.{◌≡◌, ◌<◌, ◌≤◌, [], false, length, None, IfOk, OnOk, OnErr};
ghost use Rattle.kc_base.specs.Causes.{Rose};

use crate::{Failed, Sink};
use std::alloc::Global;
use std::io::{self, ErrorKind};

// How often a write is begun that signals interrupt.
const TURNS: u32 = 64;

// Writes some of a piece, anew where a signal interrupts it. An output that takes nothing has failed.
fn write_some<P: Print>(out: &P, piece: &[u8]) -> io::Result<usize>
    ensures some { IfOk result (λ count. 0 < count) }
    ensures within { IfOk result (λ count. count ≤ length piece.now) }
{
    for _ in 0..TURNS {
        match out.write_some(piece) {
            Ok(0) => return Err(io::Error::from(ErrorKind::WriteZero)),
            Ok(count) => return Ok(count),
            Err(error) => {
                if error.kind() != ErrorKind::Interrupted {
                    return Err(error);
                }
            }
        }
    }
    Err(io::Error::from(ErrorKind::Interrupted))
}

/// Standard output.
#[derive(Drop)]
pub struct HostOut<'a, P: Print> {
    out: &'a P,
    faults: u64,
    is_unread: bool,
}

impl<'a, P: Print> HostOut<'a, P> {
    /// The output, of which no write has failed.
    pub fn new(out: &'a P) -> Self
        ensures faults { result.faults ≡ 0 }
        ensures read { result.is_unread ≡ false }
    {
        HostOut {
            out,
            faults: 0,
            is_unread: false,
        }
    }

    /// Whether a write has failed since nobody reads the output any more.
    pub fn is_unread(&self) -> bool
        ensures { result ≡ self.now.is_unread }
    {
        self.is_unread
    }
}

impl<'a, P: Print> Sink for HostOut<'a, P> {
    ghost written = { λ _. None };

    ghost faults = { λ s. s.faults };

    fn write(&mut self, piece: &[u8]) -> Result<usize, Failed> {
        match write_some(self.out, piece) {
            Ok(count) => Ok(count),
            Err(error) => {
                self.is_unread = error.kind() == ErrorKind::BrokenPipe;
                self.faults = self.faults.saturating_add(1);
                Err(Failed)
            }
        }
    }
}

/// Standard error. What is said is kept, and then written at once, so that it stays together beside what other processes say.
#[derive(Drop)]
pub struct HostDiagnostics<'a, P: Print> {
    out: &'a P,
    kept: Vec<u8>,
    faults: u64,
}

impl<'a, P: Print> HostDiagnostics<'a, P> {
    /// Nothing that is said yet, and no write that has failed.
    pub fn new(alloc: Global, out: &'a P) -> Self
        ensures kept { result.kept.items ≡ [] }
        ensures faults { result.faults ≡ 0 }
    {
        HostDiagnostics {
            out,
            kept: Vec::new(alloc),
            faults: 0,
        }
    }

    /// Writes what is kept. What cannot be written is lost.
    pub fn show(&self) {
        let mut left = self.kept.as_slice();
        for _ in 0..self.kept.len() {
            if left.is_empty() {
                return;
            }
            match write_some(self.out, left) {
                Ok(count) => left = &left[count..],
                Err(_) => return,
            }
        }
    }

    // Writes what is kept, and then a piece for which there is no memory.
    fn write_now(&mut self, piece: &[u8]) -> Result<usize, Failed>
        requires { 0 < length piece.now }
        ensures some { IfOk result (λ count. 0 < count) }
        ensures within { IfOk result (λ count. count ≤ length piece.now) }
        ensures failed { OnErr result (Rose self.old.faults self.new.faults) }
        ensures calm { OnOk result (self.new.faults ≡ self.old.faults) }
        ensures later { self.old.faults ≤ self.new.faults }
    {
        self.show();
        self.kept.clear();
        match write_some(self.out, piece) {
            Ok(count) => Ok(count),
            Err(_) => {
                self.faults = self.faults.saturating_add(1);
                Err(Failed)
            }
        }
    }
}

impl<'a, P: Print> Sink for HostDiagnostics<'a, P> {
    ghost written = { λ _. None };

    ghost faults = { λ s. s.faults };

    fn write(&mut self, piece: &[u8]) -> Result<usize, Failed> {
        match self.kept.extend_from_slice(piece) {
            Ok(()) => Ok(piece.len()),
            Err(_) => self.write_now(piece),
        }
    }
}
