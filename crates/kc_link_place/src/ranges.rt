ghost use Rattle.std.specs.Prelude.{◌≡◌, ℕ, None};
ghost use Rattle.kc_link_place.specs.Ranges.{are_in_bounds, default_ranges, lies_within};

use kc_base::{HOLE_START, IMAGE_START, NoMemory, REGISTER_FILE_END, ROM_END, Text};
use kc_obj_module::SegKind;

/// Where relocatable pieces may stand: the first and the last address for registers, code, and data with the stack.
/// `stack` is the length of the stack in bytes, where it is not the sum of all stack pieces.
#[derive(Clone, Copy, PartialEq, Eq)]
pub struct Ranges {
    pub reg: (u16, u16),
    pub code: (u16, u16),
    pub ram: (u16, u16),
    pub stack: Option<u16>,
}

impl Ranges {
    /// The ranges of a board that has nothing special: registers 001AH to 00FFH, code 2080H to 5FFFH, data and stack
    /// 0200H to 1FFDH, and the stack of all stack pieces.
    pub fn new() -> Ranges
        ensures { result ≡ default_ranges }
    {
        Ranges {
            reg: (0x1A, 0xFF),
            code: (0x2080, ROM_END - 1),
            ram: (REGISTER_FILE_END, HOLE_START - 1),
            stack: None,
        }
    }

    /// Whether each range runs upwards within its bounds: registers within 001AH to 01FFH, code within 2000H to FFFFH,
    /// data within 0200H to 1FFDH or within 6000H to FFFFH.
    pub fn are_within_bounds(&self) -> bool
        ensures { result ≡ are_in_bounds self.now }
    {
        lies(0x1A, REGISTER_FILE_END - 1, self.reg)
            && lies(IMAGE_START, 0xFFFF, self.code)
            && (lies(REGISTER_FILE_END, HOLE_START - 1, self.ram)
                || lies(ROM_END, 0xFFFF, self.ram))
    }
}

fn lies(low: u16, high: u16, range: (u16, u16)) -> bool
    ensures { result ≡ lies_within low high range }
{
    low <= range.0 && range.0 <= range.1 && range.1 <= high
}

/// The first rule of the linker that is broken, or memory ran out.
#[derive(Drop)]
pub enum LinkFault {
    /// No module makes this name public.
    Unresolved(Text),
    /// Two modules make this name public.
    OverlapName(Text),
    /// Two absolute pieces have this address, the least one from 001AH on.
    OverlapPlace(u16),
    /// A piece of this kind of the module with this number, counted from 0, finds no room; of the stack the number of
    /// modules.
    Capacity {
        kind: SegKind,
        module: u16,
    },
    /// The number of the relocation at this offset of a piece of a module does not fit.
    Range {
        module: u16,
        piece: u16,
        offset: u16,
    },
    /// The system gave no memory.
    NoMemory,
}

impl From<NoMemory> for LinkFault {
    ghost use Rattle.std.specs.Prelude.{◌≡◌};
    ghost use Rattle.kc_link_place.specs.declared.ranges.LinkFault.TheVariants as faults;

    ghost from_gives = { λ _ fault. fault ≡ faults.NoMemory };

    fn from(_: NoMemory) -> LinkFault {
        LinkFault::NoMemory
    }
}
