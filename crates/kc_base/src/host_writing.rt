// Real files, written whole or not at all.
use crate::host_beside::{name_beside, remove_left};
use std::alloc::{AllocError, Global};
use std::fs::{self, OpenFile, OpenOptions, Permissions};
use std::io::{self, ErrorKind, Write};
use std::os::unix::fs::{OpenOptionsExt, PermissionsExt};
use std::path::PathBuf;
use std::random::RandomSource;
use std::rt::Files as FileSystem;

/// What stands in the way of a write.
pub(crate) enum Stop {
    Broken(io::Error),
    NoMemory,
}

impl From<AllocError> for Stop {
    fn from(_: AllocError) -> Stop {
        Stop::NoMemory
    }
}

impl From<io::Error> for Stop {
    fn from(error: io::Error) -> Stop {
        match error.kind() {
            ErrorKind::OutOfMemory => Stop::NoMemory,
            _ => Stop::Broken(error),
        }
    }
}

/// Where files are written, and the number of the process that writes them.
#[derive(Drop)]
pub(crate) struct Place<'a, R: FileSystem> {
    pub(crate) system: &'a R,
    pub(crate) alloc: Global,
    pub(crate) process: u32,
}

// A folder that takes a file, and the rights that the file is to have, where one has the name.
#[derive(Drop)]
struct Target<'n, F> {
    name: &'n str,
    folder: Option<F>,
    rights: Option<u32>,
}

/// Makes a file hold these bytes. A plain file is written beside its place and then takes it in one step, with the rights of the
/// one before it: where something fails, the old one stands as it was. What is no plain file (a device, a pipe) is written into,
/// and so is a file whose folder takes no new one. What is written has reached the device, where the system says so of it.
pub(crate) fn write_whole<R: FileSystem + RandomSource>(
    place: &Place<'_, R>,
    name: &str,
    bytes: &[u8],
) -> Result<(), Stop> {
    match fs::metadata(place.system, name) {
        Ok(found) if found.is_file() => write_over(place, name, bytes),
        Ok(_) => write_into(place.system, name, bytes),
        Err(error) if error.kind() == ErrorKind::NotFound => write_new(place, name, bytes),
        Err(error) => Err(Stop::from(error)),
    }
}

// Makes a name under which no file stands hold these bytes. A link that leads nowhere gets its file.
fn write_new<R: FileSystem + RandomSource>(
    place: &Place<'_, R>,
    name: &str,
    bytes: &[u8],
) -> Result<(), Stop> {
    match fs::symlink_metadata(place.system, name) {
        Ok(_) => write_into(place.system, name, bytes),
        Err(error) if error.kind() == ErrorKind::NotFound => replace(place, name, bytes, None),
        Err(error) => Err(Stop::from(error)),
    }
}

// Writes over a plain file, which has to be one that may be written. A link stays, and its file is written.
fn write_over<R: FileSystem + RandomSource>(
    place: &Place<'_, R>,
    name: &str,
    bytes: &[u8],
) -> Result<(), Stop> {
    let rights = Some(rights_of(place.system, name)?);
    if !fs::symlink_metadata(place.system, name)?.is_symlink() {
        return replace(place, name, bytes, rights);
    }
    match place.system.canonicalize(place.alloc, name) {
        Ok(real) => replace(place, real.as_str(), bytes, rights),
        Err(_) => write_into(place.system, name, bytes),
    }
}

// The rights of a file that may be written. One that nobody may write is refused to everyone.
fn rights_of<R: FileSystem>(system: &R, name: &str) -> io::Result<u32> {
    let file = OpenOptions::new().write(true).open(system, name)?;
    let rights = file.metadata()?.permissions();
    if rights.readonly() {
        return Err(io::Error::from(ErrorKind::PermissionDenied));
    }
    Ok(rights.mode() & 0o777)
}

// Sees that what was written to a file or a folder has reached the device. A pipe or a terminal has no such thing.
fn settle<F: OpenFile>(file: &F) -> io::Result<()> {
    match file.sync_all() {
        Ok(()) => Ok(()),
        Err(error) => match error.kind() {
            ErrorKind::InvalidInput | ErrorKind::Unsupported => Ok(()),
            _ => Err(error),
        },
    }
}

fn write_into<R: FileSystem>(system: &R, name: &str, bytes: &[u8]) -> Result<(), Stop> {
    let mut file = fs::create(system, name)?;
    file.write_all(bytes)?;
    settle(&file)?;
    Ok(())
}

// The folder of a name, to be settled later. One that may not be read is not settled.
fn open_folder<R: FileSystem>(system: &R, folder: &str) -> io::Result<Option<R::File>> {
    match fs::open(system, folder) {
        Ok(file) => Ok(Some(file)),
        Err(error) => match error.kind() {
            ErrorKind::PermissionDenied => Ok(None),
            _ => Err(error),
        },
    }
}

// How often a file is begun beside a place, before the write is given up.
const TURNS: u64 = 64;

// Writes a new file beside the name and gives it the name, with these rights where a file has it now.
fn replace<R: FileSystem + RandomSource>(
    place: &Place<'_, R>,
    name: &str,
    bytes: &[u8],
    rights: Option<u32>,
) -> Result<(), Stop> {
    let mut folder = PathBuf::from_str(place.alloc, name)?;
    folder.set_file_name(".")?;
    remove_left(place.system, place.alloc, place.process, folder.as_str());
    let target = Target {
        name,
        folder: open_folder(place.system, folder.as_str())?,
        rights,
    };
    for turn in 0..TURNS {
        if put_beside(place, &target, bytes, turn)? {
            return Ok(());
        }
    }
    Err(Stop::Broken(io::Error::from(ErrorKind::AlreadyExists)))
}

// Opens a file that was not there. With rights it has at most these from the start.
fn begin<R: FileSystem>(system: &R, beside: &PathBuf, rights: Option<u32>) -> io::Result<R::File> {
    let mut options = OpenOptions::new();
    options.write(true).create_new(true);
    if let Some(rights) = rights {
        options.mode(rights);
    }
    options.open(system, beside)
}

// Writes a new file beside a target and gives it the name. Whether it is done: another may have the new file's name, or take it
// away.
fn put_beside<R: FileSystem + RandomSource>(
    place: &Place<'_, R>,
    target: &Target<'_, R::File>,
    bytes: &[u8],
    turn: u64,
) -> Result<bool, Stop> {
    let other = name_beside(place.system, place.alloc, place.process, turn)?;
    let mut beside = PathBuf::from_str(place.alloc, target.name)?;
    beside.set_file_name(other.as_str())?;
    match begin(place.system, &beside, target.rights) {
        Ok(file) => take_name(place.system, file, &beside, target, bytes),
        Err(error) => match error.kind() {
            ErrorKind::AlreadyExists => Ok(false),
            ErrorKind::PermissionDenied | ErrorKind::ReadOnlyFilesystem
                if target.rights.is_some() => {
                write_into(place.system, target.name, bytes)?;
                Ok(true)
            }
            _ => Err(Stop::from(error)),
        },
    }
}

// Fills a new file and gives it the name of a target, or removes it.
fn take_name<R: FileSystem>(
    system: &R,
    file: R::File,
    beside: &PathBuf,
    target: &Target<'_, R::File>,
    bytes: &[u8],
) -> Result<bool, Stop> {
    if let Err(error) = fill(file, bytes, target.rights) {
        let _ = fs::remove_file(system, beside);
        return Err(Stop::from(error));
    }
    if let Err(error) = fs::rename(system, beside, target.name) {
        let _ = fs::remove_file(system, beside);
        return match error.kind() {
            ErrorKind::NotFound => Ok(false),
            _ => Err(Stop::from(error)),
        };
    }
    if let Some(folder) = &target.folder {
        settle(folder)?;
    }
    Ok(true)
}

// Writes and settles a new file, with exactly these rights.
fn fill<F: Write + OpenFile + Drop>(file: F, bytes: &[u8], rights: Option<u32>) -> io::Result<()> {
    let mut file = file;
    file.write_all(bytes)?;
    if let Some(rights) = rights {
        if file.metadata()?.permissions().mode() & 0o777 != rights {
            file.set_permissions(Permissions::from_mode(rights))?;
        }
    }
    settle(&file)
}
