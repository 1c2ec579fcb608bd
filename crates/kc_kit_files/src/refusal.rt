ghost use Rattle.std.specs.Prelude.{◌≡◌, ◌≢◌, ◌++◌, IfOk};
ghost use Rattle.kc_kit_files.specs.Response.{reports, status_for, IsRefused};

use crate::Status;
use kc_base::NoMemory;
use std::alloc::Global;

/// Why a command is refused.
#[derive(Clone, Copy)]
pub enum Cause {
    /// The words are no command.
    Usage,
    /// A file is not there.
    Missing,
    /// A source has a fault.
    Source,
    /// An object or a hex file leaves its form, or a file is too long.
    Input,
    /// A rule of the linker is broken.
    Link,
    /// A file could not be read.
    ReadFault,
}

impl Cause {
    /// The status with which the command ends.
    pub fn status(self) -> Status
        ensures status { result ≡ status_for self }
        ensures whole { (result ≢ Status.WriteFault) × (result ≢ Status.NoMemory) }
    {
        match self {
            Cause::Usage => Status::Usage,
            Cause::Missing => Status::Missing,
            Cause::Source => Status::Source,
            Cause::Input => Status::Input,
            Cause::Link => Status::Link,
            Cause::ReadFault => Status::ReadFault,
        }
    }
}

/// A command that is refused, with the line that is printed and what is said in words; or memory ran out.
#[derive(Drop)]
pub enum Refusal {
    Says {
        cause: Cause,
        line: Vec<u8>,
        diagnostic: Vec<u8>,
    },
    NoMemory,
}

impl From<NoMemory> for Refusal {
    ghost use Rattle.std.specs.Prelude.{◌≡◌};
    ghost use Rattle.kc_kit_files.specs.declared.refusal.Refusal.TheVariants as refusals;

    ghost from_gives = { λ _ refusal. refusal ≡ refusals.NoMemory };

    fn from(_: NoMemory) -> Refusal {
        Refusal::NoMemory
    }
}

// A line that names a file.
fn line_of(alloc: Global, before: &[u8], name: &[u8], after: &[u8]) -> Result<Vec<u8>, NoMemory>
    ensures { IfOk result (λ line. line.items ≡ before.now ++ name.now ++ after.now) }
{
    let mut line = Vec::from_slice(alloc, before)?;
    line.extend_from_slice(name)?;
    line.extend_from_slice(after)?;
    Ok(line)
}

/// The refusal with this cause, a line of these three texts, and this diagnostic.
pub fn refusal_of(
    alloc: Global,
    cause: Cause,
    before: &[u8],
    name: &[u8],
    after: &[u8],
    diagnostic: Vec<u8>,
) -> Refusal
    ensures { IsRefused (λ response. response ≡ reports (status_for cause) (before.now ++ name.now ++ after.now) diagnostic.items) result }
{
    match line_of(alloc, before, name, after) {
        Ok(line) => Refusal::Says {
            cause,
            line,
            diagnostic,
        },
        Err(NoMemory) => Refusal::NoMemory,
    }
}
