ghost use Rattle.std.specs.Prelude.{◌≡◌};
ghost use Rattle.kc_base.specs.Levels.{level_of, is_high as is_high_level};

use std::alloc::{AllocError, AllocFailed};

/// A moment, counted in state times from 0.
pub type StateTime = u64;

/// A pin of the board by its number, its place in the table of `pins.rt`.
#[derive(Clone, Copy, Default, PartialEq, Eq)]
pub struct Pin(pub u8);

/// The logic level of a pin.
#[derive(Clone, Copy, Default, PartialEq, Eq)]
pub enum Level {
    #[default]
    Low,
    High,
}

impl Level {
    /// The level of a pin that is high, or is not.
    pub fn of(high: bool) -> Level
        ensures { result ≡ level_of high }
    {
        if high { Level::High } else { Level::Low }
    }

    /// Whether it is the high one.
    pub fn is_high(self) -> bool
        ensures { result ≡ is_high_level self }
    {
        self == Level::High
    }
}

/// A pin that takes a level.
#[derive(Clone, Copy, Default, PartialEq, Eq)]
pub struct Edge {
    pub pin: Pin,
    pub level: Level,
}

/// A set of interrupt requests: bit n is the request of vector n.
#[derive(Clone, Copy, PartialEq, Eq)]
pub struct IntSet(pub u16);

/// The kinds of undefined use, in the order of their numbers from 1.
#[derive(Clone, Copy, PartialEq, Eq)]
pub enum Kind {
    OddWord,
    LongAlign,
    Opcode,
    HoldingFull,
    FastTimer2,
    Channel,
    NoRegister,
    BadWindow,
    BadPts,
    DivZero,
    RomWrite,
    OutsideMap,
    ByteAccess,
    IdleKey,
}

/// An undefined use, with the state in which it came and the address that is reported.
#[derive(Clone, Copy, PartialEq, Eq)]
pub struct Undefined {
    pub kind: Kind,
    pub at: StateTime,
    pub addr: u16,
}

/// The modes of the peripheral transaction server, by the mode field of PTSCON
/// (80C196KC User's Manual, "Peripheral Transaction Server"; `Hsi`, `Hso` and `Scan` in this kit's own layout).
#[derive(Clone, Copy, PartialEq, Eq)]
pub enum PtsMode {
    Single,
    Block,
    Hsi,
    Hso,
    Scan,
}

/// There was no memory.
#[derive(Clone, Copy, Debug, PartialEq, Eq)]
pub struct NoMemory;

impl From<AllocError> for NoMemory {
    fn from(_: AllocError) -> Self {
        NoMemory
    }
}

impl<T: Drop> From<AllocFailed<T>> for NoMemory {
    fn from(_: AllocFailed<T>) -> Self {
        NoMemory
    }
}
