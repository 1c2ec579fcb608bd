// Named files, read in order.
ghost use Rattle.std.specs.Prelude.{◌≡◌, ◌++◌, ◌∷◌, [], OnOk, map, string_bytes};
ghost use Rattle.kc_base.specs.Causes.{Rose};
ghost use Rattle.kc_kit_files.specs.Response.{reports, status_for, IsRefused};
ghost use Rattle.kc_kit_files.specs.Outside.{OnlyRead};
ghost use Rattle.kc_kit_files.specs.Shown.{shown};
ghost use Rattle.kc_kit_files.specs.Reads.{IsReadOne, IsRead, IsUnread};

use crate::refusal::{Cause, Refusal, refusal_of};
use crate::text::shown;
use kc_base::{FileFault, Files, NoMemory};
use std::alloc::Global;

/// The refusal of a file, with a line of three texts of which its name is the second, and with words behind its name.
pub(crate) fn refused(
    alloc: Global,
    cause: Cause,
    before: &[u8],
    name: &[u8],
    after: &[u8],
    words: &[u8],
) -> Refusal
    ensures { IsRefused (λ response. response ≡ reports (status_for cause) (before.now ++ name.now ++ after.now) (shown name.now ++ words.now)) result }
{
    let Ok(mut diagnostic) = shown(alloc, name) else {
        return Refusal::NoMemory;
    };
    match diagnostic.extend_from_slice(words) {
        Ok(()) => refusal_of(alloc, cause, before, name, after, diagnostic),
        Err(_) => Refusal::NoMemory,
    }
}

/// The refusal where a file cannot be read.
pub fn unread(alloc: Global, name: &str, fault: FileFault) -> Refusal
    ensures { IsRefused (IsUnread name.now fault) result }
{
    let name = name.as_bytes();
    match fault {
        FileFault::Missing => {
            let words = b": error: the file is not there\n";
            refused(alloc, Cause::Missing, b"missing ", name, b"\n", words)
        }
        FileFault::TooLong => {
            let words = b": error LONG: the file has over 1,048,576 bytes\n";
            refused(alloc, Cause::Input, b"input ", name, b":0: LONG\n", words)
        }
        FileFault::Failed => {
            let words = b": error: the file could not be read\n";
            refused(alloc, Cause::ReadFault, b"read ", name, b"\n", words)
        }
        FileFault::NoMemory => Refusal::NoMemory,
    }
}

/// The bytes of a file, or the refusal where it is missing, too long or not to be read.
pub fn read_file<F: Files>(alloc: Global, name: &str, files: &mut F) -> Result<Vec<u8>, Refusal>
    ensures read { IsReadOne (F.held files.old) name.now (Rose (F.read_faults files.old) (F.read_faults files.new)) result }
    ensures stays { OnlyRead F.held F.read_faults F.write_faults files.old files.new }
{
    match files.read(alloc, name) {
        Ok(bytes) => Ok(bytes),
        Err(fault) => Err(unread(alloc, name, fault)),
    }
}

fn push(texts: &mut Vec<Vec<u8>>, bytes: Vec<u8>) -> Result<(), NoMemory>
    ensures { OnOk result (texts.new.items ≡ texts.old.items ++ bytes ∷ []) }
{
    texts.push(bytes)?;
    Ok(())
}

/// The bytes of some files, read in this order, or the refusal of the first that cannot be read.
pub fn read_files<F: Files>(
    alloc: Global,
    names: &[String],
    files: &mut F,
) -> Result<Vec<Vec<u8>>, Refusal>
    ensures read { IsRead (F.held files.old) (map string_bytes names.now) (Rose (F.read_faults files.old) (F.read_faults files.new)) result }
    ensures stays { OnlyRead F.held F.read_faults F.write_faults files.old files.new }
{
    let mut texts = Vec::new(alloc);
    let mut left = names;
    while let [name, rest @ ..] = left {
        match read_file(alloc, name.as_str(), files) {
            Ok(bytes) => push(&mut texts, bytes)?,
            Err(refusal) => return Err(refusal),
        }
        left = rest;
    }
    Ok(texts)
}
