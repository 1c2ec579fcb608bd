// The real files and standard input, read piece by piece. They report nothing of what they hold: only their faults are counted.
ghost use Rattle.std.specs.Prelude.{◌≡◌, ◌≢◌, ◌≤◌, None, Ok, Err, IfOk, IsOkAnd, codes};
ghost use Rattle.kc_base.specs.Causes.{Rose};
ghost use Rattle.kc_kit_streams.specs.declared.host_reader.HostReader.TheVariants as reader;

use crate::counted::Counted;
use crate::host_reader::HostReader;
use crate::streams::Streams;
use kc_base::{FileFault, Files, HostFiles, open_plain};
use kc_byte_source::HostInput;
use std::alloc::Global;
use std::io::{self, Read};
use std::random::RandomSource;
use std::rt::Files as FileSystem;

/// The files that the system holds, and standard input.
#[derive(Drop)]
pub struct HostStreams<'a, R: FileSystem + RandomSource, I: Read + Copy + Drop> {
    files: HostFiles<'a, R>,
    system: &'a R,
    input: I,
    read_faults: u64,
    write_faults: u64,
}

impl<'a, R: FileSystem + RandomSource, I: Read + Copy + Drop> HostStreams<'a, R, I> {
    /// The files and standard input, of which no read and no write has failed, for the process of this number.
    pub fn new(system: &'a R, process: u32, input: I) -> Self
        ensures process { result.files.process ≡ process }
        ensures input { result.input ≡ input }
        ensures reads { result.read_faults ≡ 0 }
        ensures writes { result.write_faults ≡ 0 }
    {
        HostStreams {
            files: HostFiles::new(system, process),
            system,
            input,
            read_faults: 0,
            write_faults: 0,
        }
    }

    /// What stood in the way of the last write, where that has failed.
    pub fn hindrance(&self) -> Option<io::Error>
        ensures { result ≡ self.now.files.hindrance }
    {
        self.files.hindrance()
    }
}

impl<'a, R: FileSystem + RandomSource, I: Read + Copy + Drop> Files for HostStreams<'a, R, I> {
    ghost held = { λ _. None };

    ghost read_faults = { λ s. s.read_faults };

    ghost write_faults = { λ s. s.write_faults };

    fn read(&mut self, alloc: Global, name: &str) -> Result<Vec<u8>, FileFault> {
        match self.files.read(alloc, name) {
            Ok(bytes) => Ok(bytes),
            Err(FileFault::Failed) => {
                self.read_faults = self.read_faults.saturating_add(1);
                Err(FileFault::Failed)
            }
            Err(fault) => Err(fault),
        }
    }

    fn write(&mut self, alloc: Global, name: &str, bytes: &[u8]) -> Result<(), FileFault> {
        match self.files.write(alloc, name, bytes) {
            Ok(()) => Ok(()),
            Err(FileFault::Failed) => {
                self.write_faults = self.write_faults.saturating_add(1);
                Err(FileFault::Failed)
            }
            Err(fault) => Err(fault),
        }
    }
}

// Standard input, or the plain file of this name. A plain file is never too long to be opened.
fn opened<R: FileSystem, I: Read + Drop>(
    system: &R,
    input: I,
    name: &str,
) -> Result<HostReader<I, R::File>, FileFault>
    ensures input { name.now ≡ codes "-" → result ≡ Ok (reader.Input input) }
    ensures file { name.now ≢ codes "-" → result ≢ Ok (reader.Input input) }
    ensures not_long { result ≢ Err FileFault.TooLong }
{
    if name == "-" {
        return Ok(HostReader::Input(input));
    }
    match open_plain(system, name) {
        Ok(file) => Ok(HostReader::File(file)),
        Err(FileFault::TooLong) => Err(FileFault::Failed),
        Err(fault) => Err(fault),
    }
}

impl<'a, R: FileSystem + RandomSource, I: Read + Copy + Drop> Streams for HostStreams<'a, R, I> {
    type Stream = Counted<HostInput<HostReader<I, R::File>>>;

    // (What stands under a name, no contract can say. Standard input is there whatever the system holds.)
    fn open(&mut self, _alloc: Global, name: &str) -> Result<Self::Stream, FileFault>
        ensures input { name.now ≡ codes "-" → IsOkAnd result (λ stream. stream.source.input ≡ reader.Input self.old.input) }
        ensures file { name.now ≢ codes "-" → IfOk result (λ stream. stream.source.input ≢ reader.Input self.old.input) }
        ensures fresh { IfOk result (λ stream. stream.faults ≡ 0) }
        ensures not_long { result ≢ Err FileFault.TooLong }
        ensures failed { result ≡ Err FileFault.Failed → Rose self.old.read_faults self.new.read_faults }
        ensures calm { result ≢ Err FileFault.Failed → self.new.read_faults ≡ self.old.read_faults }
        ensures later { self.old.read_faults ≤ self.new.read_faults }
        ensures no_write { self.new.write_faults ≡ self.old.write_faults }
        ensures same { (self.new.input ≡ self.old.input) × (self.new.files ≡ self.old.files) }
    {
        match opened(self.system, self.input, name) {
            Ok(reader) => Ok(Counted::new(HostInput::new(reader))),
            Err(FileFault::Failed) => {
                self.read_faults = self.read_faults.saturating_add(1);
                Err(FileFault::Failed)
            }
            Err(fault) => Err(fault),
        }
    }

    fn close(&mut self, stream: Self::Stream) {
        self.read_faults = self.read_faults.saturating_add(stream.faults());
    }
}
