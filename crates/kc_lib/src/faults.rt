ghost use Rattle.std.specs.Prelude.{◌≡◌};
ghost use Rattle.kc_lib.specs.Codes.{code_number};

use kc_base::{NoMemory, Text};

/// The causes by which a library is refused, as they are numbered.
#[derive(Clone, Copy)]
pub enum LibCode {
    /// A wrong first byte, or a number of members that is not 1 to 64.
    Head,
    /// The bytes end before the last member ends.
    End,
    /// A member is no object.
    NoObject,
    /// A member gives a name that an earlier one gives.
    SecondName,
    /// More members are taken than can be linked.
    TooMany,
    /// Bytes stand behind the last member.
    Behind,
}

impl LibCode {
    /// The number of the code, 1 to 6.
    pub fn number(self) -> u8
        ensures { result ≡ code_number self }
    {
        match self {
            LibCode::Head => 1,
            LibCode::End => 2,
            LibCode::NoObject => 3,
            LibCode::SecondName => 4,
            LibCode::TooMany => 5,
            LibCode::Behind => 6,
        }
    }
}

/// Why there is no library, or why nothing is taken from it.
#[derive(Drop)]
pub enum LibFault {
    /// Bytes are no library: the first fault, at its place in bytes.
    At { at: u32, code: LibCode },
    /// Two modules that are to be packed make this name public.
    Duplicate(Text),
    /// Modules and taken members together are more than 64.
    TooMany,
    /// The system gave no memory.
    NoMemory,
}

impl From<NoMemory> for LibFault {
    ghost use Rattle.std.specs.Prelude.{◌≡◌};
    ghost use Rattle.kc_lib.specs.declared.faults.LibFault.TheVariants as faults;

    ghost from_gives = { λ _ fault. fault ≡ faults.NoMemory };

    fn from(_: NoMemory) -> LibFault {
        LibFault::NoMemory
    }
}
