// Real files, read whole.
ghost use Rattle.std.specs.Prelude.{◌≤◌, length, IfOk};
ghost use Rattle.kc_base.specs.Limits.{file_limit};

use crate::{FILE_LIMIT, FileFault};
use std::alloc::Global;
use std::fs::{self, OpenFile};
use std::io::{ErrorKind, Read};
use std::rt::Files as FileSystem;

// What an error says of the name that was asked for: one under which nothing stands (no such entry, a path through a file, a
// link that leads nowhere) is missing.
fn fault_of(kind: ErrorKind) -> FileFault {
    match kind {
        ErrorKind::NotFound
        | ErrorKind::NotADirectory
        | ErrorKind::IsADirectory
        | ErrorKind::FilesystemLoop
        | ErrorKind::InvalidFilename => FileFault::Missing,
        ErrorKind::OutOfMemory => FileFault::NoMemory,
        _ => FileFault::Failed,
    }
}

/// Opens a plain file. What is no plain file (a folder, a pipe, a device) is missing: it is not opened, since that may wait for
/// ever, and where it has taken the place of a plain file just before that is opened, it is not read.
pub fn open_plain<R: FileSystem>(system: &R, name: &str) -> Result<R::File, FileFault> {
    match fs::metadata(system, name) {
        Ok(found) => {
            if !found.is_file() {
                return Err(FileFault::Missing);
            }
        }
        Err(error) => return Err(fault_of(error.kind())),
    }
    match fs::open(system, name) {
        Ok(file) => still_plain(file),
        Err(error) => Err(fault_of(error.kind())),
    }
}

// What was opened, where that is a plain file.
fn still_plain<F: OpenFile + Drop>(file: F) -> Result<F, FileFault> {
    match file.metadata() {
        Ok(found) => {
            if found.is_file() {
                Ok(file)
            } else {
                Err(FileFault::Missing)
            }
        }
        Err(error) => Err(fault_of(error.kind())),
    }
}

/// The bytes of a plain file of up to the limit.
pub(crate) fn read_plain<R: FileSystem>(
    system: &R,
    alloc: Global,
    name: &str,
) -> Result<Vec<u8>, FileFault>
    ensures { IfOk result (λ bytes. length bytes.items ≤ file_limit) }
{
    match open_plain(system, name) {
        Ok(file) => read_all(alloc, file),
        Err(fault) => Err(fault),
    }
}

// What is left of a file, up to the limit.
fn read_all<F: Read + Drop>(alloc: Global, file: F) -> Result<Vec<u8>, FileFault>
    ensures { IfOk result (λ bytes. length bytes.items ≤ file_limit) }
{
    let mut file = file;
    let mut bytes = Vec::new(alloc);
    let mut chunk = [0u8; 4096];
    for _ in 0..u64::MAX {
        match file.read(&mut chunk) {
            Ok(0) => return Ok(bytes),
            Ok(count) => {
                if count > FILE_LIMIT - bytes.len() {
                    return Err(FileFault::TooLong);
                }
                if bytes.extend_from_slice(&chunk[..count]).is_err() {
                    return Err(FileFault::NoMemory);
                }
            }
            Err(error) => {
                if error.kind() != ErrorKind::Interrupted {
                    return Err(fault_of(error.kind()));
                }
            }
        }
    }
    Err(FileFault::Failed)
}
