ghost use Rattle.std.specs.Prelude.{◌≡◌};
ghost use Rattle.kc_obj_fields.specs.declared.faults.ObjFault.TheVariants as faults;
ghost use Rattle.kc_obj_fields.specs.Codes.{code_number};
ghost use Rattle.kc_obj_fields.specs.Fields.{is_lesser, first_of_both, noted};

use kc_base::NoMemory;

/// The causes by which an object is refused, as they are numbered.
#[derive(Clone, Copy)]
pub enum ObjCode {
    /// A record of a type that may not come there.
    WrongOrder,
    /// The bytes end before the end record.
    TooShort,
    /// A field is out of its range.
    OutOfRange,
    /// The bytes are not the one spelling of their module.
    OtherSpelling,
    /// Bytes stand behind the end record.
    BytesBehind,
    /// What stands for a name is none.
    NoName,
}

impl ObjCode {
    /// The number of the code, 1 to 6.
    pub fn number(self) -> u8
        ensures { result ≡ code_number self }
    {
        match self {
            ObjCode::WrongOrder => 1,
            ObjCode::TooShort => 2,
            ObjCode::OutOfRange => 3,
            ObjCode::OtherSpelling => 4,
            ObjCode::BytesBehind => 5,
            ObjCode::NoName => 6,
        }
    }
}

/// The first fault of an object, by its offset in bytes and the number of its code, or that memory ran out.
#[derive(Clone, Copy, PartialEq, Eq)]
pub enum ObjFault {
    At { at: u32, code: u8 },
    NoMemory,
}

impl From<NoMemory> for ObjFault {
    ghost from_gives = { λ _ e. e ≡ faults.NoMemory };

    fn from(_error: NoMemory) -> ObjFault {
        ObjFault::NoMemory
    }
}

/// A fault by its offset and the number of its code.
#[derive(Clone, Copy, PartialEq, Eq)]
pub struct Fault {
    pub at: u32,
    pub code: u8,
}

fn comes_first(fault: Fault, other: Fault) -> bool
    ensures { result ≡ is_lesser fault other }
{
    fault.at < other.at || fault.at == other.at && fault.code < other.code
}

/// The fault that comes first: the one so far, if there is one, or the other; at one offset the one of the lesser code.
pub fn earlier(fault: Option<Fault>, other: Fault) -> Fault
    ensures { result ≡ first_of_both fault other }
{
    match fault {
        None => other,
        Some(known) => {
            if comes_first(other, known) {
                other
            } else {
                known
            }
        }
    }
}

/// The first of the fault so far and of one that is there where something is broken.
pub fn note(fault: Option<Fault>, broken: bool, at: u32, code: ObjCode) -> Option<Fault>
    ensures { result ≡ noted fault broken at (code_number code) }
{
    if broken {
        let code = code.number();
        Some(earlier(fault, Fault { at, code }))
    } else {
        fault
    }
}
