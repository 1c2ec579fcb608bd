// A file that is written, or refused since no command would read it.
ghost use Rattle.std.specs.Prelude.{◌≡◌, ◌≤◌, ◌⊎◌};
ghost use Rattle.kc_base.specs.Causes.{Rose};
ghost use Rattle.kc_kit_files.specs.Response.{write, IsRefused};
ghost use Rattle.kc_kit_files.specs.Writes.{long_output_response};
ghost use Rattle.kc_kit_files.specs.Outside.{WroteOne, OthersStay};

use crate::Status;
use crate::reading::refused;
use crate::refusal::{Cause, Refusal};
use kc_base::{FileFault, Files};
use std::alloc::Global;

/// Makes a file hold these bytes: the status is Done, WriteFault where the write failed, or NoMemory.
pub fn write_file<F: Files>(alloc: Global, name: &str, bytes: &[u8], files: &mut F) -> Status
    ensures status { (result ≡ Status.Done) ⊎ ((result ≡ Status.WriteFault) ⊎ (result ≡ Status.NoMemory)) }
    ensures written { result ≡ Status.Done → WroteOne (F.held files.old) (write name.now bytes.now) (F.held files.new) }
    ensures others { OthersStay (F.held files.old) name.now (F.held files.new) }
    ensures failed { result ≡ Status.WriteFault → Rose (F.write_faults files.old) (F.write_faults files.new) }
    ensures later { F.write_faults files.old ≤ F.write_faults files.new }
    ensures no_read { F.read_faults files.new ≡ F.read_faults files.old }
{
    match files.write(alloc, name, bytes) {
        Ok(()) => Status::Done,
        Err(FileFault::NoMemory) => Status::NoMemory,
        Err(_) => Status::WriteFault,
    }
}

/// The refusal of a file of this name that would be longer than the 1,048,576 bytes that commands read.
pub fn long_output(alloc: Global, name: &str) -> Refusal
    ensures { IsRefused (λ response. response ≡ long_output_response name.now) result }
{
    let name = name.as_bytes();
    let words =
        b": error LONG: the file would be longer than the 1,048,576 bytes that commands read\n";
    refused(alloc, Cause::Input, b"output ", name, b":0: LONG\n", words)
}
