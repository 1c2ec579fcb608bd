// Files in memory, read piece by piece.
ghost use Rattle.std.specs.Prelude.{◌≤◌, Some, drop, vec_len};

use crate::streams::Streams;
use kc_base::{FileFault, Files, MemFiles};
use kc_byte_source::{Failed, Source, copy_prefix};
use std::alloc::Global;

/// Bytes in memory, given in order. No read of them fails.
#[derive(Drop)]
pub struct MemStream {
    bytes: Vec<u8>,
    at: usize,
    ghost within: { at ≤ vec_len bytes },
}

impl Source for MemStream {
    ghost to_come = { λ s. Some (drop s.at s.bytes.items) };

    ghost faults = { λ _. 0 };

    fn read(&mut self, room: &mut [u8]) -> Result<usize, Failed> {
        let count = copy_prefix(room, &self.bytes[self.at..], room.len());
        self.at += count;
        Ok(count)
    }
}

impl Streams for MemFiles {
    type Stream = MemStream;

    // (A file in memory that is longer than files may be is not opened: that counts as out of memory.)
    fn open(&mut self, alloc: Global, name: &str) -> Result<MemStream, FileFault> {
        match self.read(alloc, name) {
            Ok(bytes) => Ok(MemStream { bytes, at: 0 }),
            Err(FileFault::TooLong) => Err(FileFault::NoMemory),
            Err(fault) => Err(fault),
        }
    }

    fn close(&mut self, stream: MemStream) {
        let MemStream { .. } = stream;
    }
}
