ghost use Rattle.std.specs.Prelude.{◌≡◌};
ghost use Rattle.kc_hex.specs.Codes.{code_number};
ghost use Rattle.kc_hex.specs.declared.fault.HexFault.TheVariants as faults;

use kc_base::NoMemory;

/// The causes by which a hex text is refused, as they are numbered.
#[derive(Clone, Copy)]
pub enum HexCode {
    /// A line is no record.
    Form,
    /// The bytes of a record with its checksum do not add up to 0.
    Checksum,
    /// A record is none of the known types, or has not the bytes of its type.
    Type,
    /// Data stand outside 2000H to FFFFH.
    Address,
    /// A record stands behind the end record.
    Behind,
    /// There is no end record.
    NoEnd,
}

impl HexCode {
    /// The number of the code, 1 to 6.
    pub fn number(self) -> u8
        ensures { result ≡ code_number self }
    {
        match self {
            HexCode::Form => 1,
            HexCode::Checksum => 2,
            HexCode::Type => 3,
            HexCode::Address => 4,
            HexCode::Behind => 5,
            HexCode::NoEnd => 6,
        }
    }
}

/// The first fault of a hex text, by its line from 1 and the number of its code, or that memory ran out.
#[derive(Clone, Copy, PartialEq, Eq)]
pub enum HexFault {
    At { line: u32, code: u8 },
    NoMemory,
}

impl From<NoMemory> for HexFault {
    ghost from_gives = { λ _ e. e ≡ faults.NoMemory };

    fn from(_error: NoMemory) -> HexFault {
        HexFault::NoMemory
    }
}
