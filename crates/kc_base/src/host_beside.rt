// Files that are being written, beside the places that they are to take.
use std::alloc::{AllocError, Global};
use std::fs;
use std::io::{ErrorKind, Read};
use std::random::RandomSource;
use std::rt::Files as FileSystem;

/// A name for a file that this process is about to write: it has the number of the process, and random digits, so that no other
/// write has it, not even that of a process with the same number which sees other processes. Where the system gives nothing
/// random, the turn alone distinguishes names.
pub(crate) fn name_beside<R: RandomSource>(
    system: &R,
    alloc: Global,
    process: u32,
    turn: u64,
) -> Result<String, AllocError> {
    let mut bytes = [0u8; 8];
    let _ = system.fill_bytes(&mut bytes);
    let number = u64::from_le_bytes(bytes).wrapping_add(turn);
    format!(in alloc; ".kc96-{process}-{number:x}.new")
}

// The number of the process that writes the file of this name, where it is such a name.
fn writer_of(name: &str) -> Option<u32> {
    let middle = name.strip_prefix(".kc96-")?.strip_suffix(".new")?;
    let (process, number) = middle.split_once('-')?;
    if number.is_empty() || !number.bytes().all(|b| b.is_ascii_hexdigit()) {
        return None;
    }
    process.parse::<u32>().ok()
}

// Whether the system, which lists its processes, has none of this number.
fn is_gone<R: FileSystem>(system: &R, alloc: Global, writer: u32) -> bool {
    let Ok(place) = format!(in alloc; "/proc/{writer}") else {
        return false;
    };
    match fs::symlink_metadata(system, place.as_str()) {
        Ok(_) => false,
        Err(error) => {
            error.kind() == ErrorKind::NotFound && fs::metadata(system, "/proc/self").is_ok()
        }
    }
}

// Removes a file of a folder, where a process that has gone was writing it. This process writes one file at a time, and none now.
fn remove_if_left<R: FileSystem>(
    system: &R,
    alloc: Global,
    process: u32,
    folder: &str,
    name: &[u8],
) {
    let Ok(name) = str::from_utf8(name) else {
        return;
    };
    let Some(writer) = writer_of(name) else {
        return;
    };
    if writer == process || is_gone(system, alloc, writer) {
        if let Ok(place) = format!(in alloc; "{folder}/{name}") {
            let _ = fs::remove_file(system, place.as_str());
        }
    }
}

/// Removes what processes that have gone were writing in a folder: a process that is killed leaves its file. What cannot be read
/// or removed stays.
pub(crate) fn remove_left<R: FileSystem>(system: &R, alloc: Global, process: u32, folder: &str) {
    let Ok(mut listing) = system.open_dir(folder) else {
        return;
    };
    let mut names = [0u8; 4096];
    for _ in 0..u64::MAX {
        match listing.read(&mut names) {
            Ok(0) => return,
            Ok(count) => {
                for name in names[..count].split(|b| *b == 0) {
                    remove_if_left(system, alloc, process, folder, name);
                }
            }
            Err(_) => return,
        }
    }
}
