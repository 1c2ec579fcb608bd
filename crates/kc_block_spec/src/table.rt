//! The special function registers (80C196KC User's Manual, "Special Function Registers"): a table of those that every window
//! has, and one for each window. What reads and writes an address, what an access counts, the documents and the names for
//! sources follow from these rows.
ghost use Rattle.std.specs.Prelude.{◌≡◌};
ghost use Rattle.kc_block_spec.specs.Registers.{row_at, own_registers, byte_read_by, byte_written_by, word_read_by, word_written_by, uses_in as uses_found, uses_at as uses_stand, bytes_read, bytes_read_everywhere, bytes_written, bytes_written_everywhere, words_read, words_written};

use crate::registers::{ReadableByte, ReadableWord, Window, WritableByte, WritableWord};

/// What a read and a write of a register act on, as a byte or as a word; none where it is not read, or not written.
#[derive(Clone, Copy, Drop)]
pub enum Uses {
    Byte(Option<ReadableByte>, Option<WritableByte>),
    Word(Option<ReadableWord>, Option<WritableWord>),
}

/// A register at an address below 0018H. In a table no two have the same address.
#[derive(Clone, Copy, Drop)]
pub struct Register {
    pub address: u8,
    pub uses: Uses,
}

// A row of a byte register: its address, then the name that the manual gives it for reading, for writing, or for both.
macro_rules! byte {
    ($address:literal: $name:ident reads $read:ident) => {
        Register {
            address: $address,
            uses: Uses::Byte(Some(ReadableByte::$read), None),
        }
    };
    ($address:literal: $name:ident writes $written:ident) => {
        Register {
            address: $address,
            uses: Uses::Byte(None, Some(WritableByte::$written)),
        }
    };
    ($address:literal: $name:ident reads $read:ident, $other:ident writes $written:ident) => {
        Register {
            address: $address,
            uses: Uses::Byte(
                Some(ReadableByte::$read),
                Some(WritableByte::$written),
            ),
        }
    };
}

// A row of a word register, at its low byte.
macro_rules! word {
    ($address:literal: $name:ident reads $read:ident) => {
        Register {
            address: $address,
            uses: Uses::Word(Some(ReadableWord::$read), None),
        }
    };
    ($address:literal: $name:ident writes $written:ident) => {
        Register {
            address: $address,
            uses: Uses::Word(None, Some(WritableWord::$written)),
        }
    };
    ($address:literal: $name:ident reads $read:ident, $other:ident writes $written:ident) => {
        Register {
            address: $address,
            uses: Uses::Word(
                Some(ReadableWord::$read),
                Some(WritableWord::$written),
            ),
        }
    };
}

impl Uses {
    /// What is read as a byte.
    fn byte_read(self) -> Option<ReadableByte>
        ensures { result ≡ byte_read_by self }
    {
        match self {
            Uses::Byte(read, _) => read,
            Uses::Word(_, _) => None,
        }
    }

    /// What is written as a byte.
    fn byte_written(self) -> Option<WritableByte>
        ensures { result ≡ byte_written_by self }
    {
        match self {
            Uses::Byte(_, written) => written,
            Uses::Word(_, _) => None,
        }
    }

    /// What is read as a word.
    fn word_read(self) -> Option<ReadableWord>
        ensures { result ≡ word_read_by self }
    {
        match self {
            Uses::Byte(_, _) => None,
            Uses::Word(read, _) => read,
        }
    }

    /// What is written as a word.
    fn word_written(self) -> Option<WritableWord>
        ensures { result ≡ word_written_by self }
    {
        match self {
            Uses::Byte(_, _) => None,
            Uses::Word(_, written) => written,
        }
    }
}

/// The registers that every window has.
static EVERYWHERE: [Register; 7] = [
    byte!(0x00: ZERO reads Zeros, ZERO writes Zeros),
    byte!(0x01: ZERO reads Zeros, ZERO writes Zeros),
    byte!(0x08: INT_MASK reads IntMask, INT_MASK writes IntMask),
    byte!(0x09: INT_PEND reads IntPend, INT_PEND writes IntPend),
    byte!(0x12: INT_PEND1 reads IntPend1, INT_PEND1 writes IntPend1),
    byte!(0x13: INT_MASK1 reads IntMask1, INT_MASK1 writes IntMask1),
    byte!(0x14: WSR reads Wsr, WSR writes Wsr),
];

/// The registers of window 0 alone.
static WINDOW0: [Register; 12] = [
    byte!(0x03: HSI_MODE writes HsiMode),
    word!(0x04: HSI_TIME reads HsiTime, HSO_TIME writes HsoTime),
    byte!(0x06: HSI_STATUS reads HsiStatus, HSO_COMMAND writes HsoCommand),
    word!(0x0A: TIMER1 reads Timer1),
    byte!(0x0B: IOC2 writes Ioc2),
    word!(0x0C: TIMER2 reads Timer2, TIMER2 writes Timer2),
    byte!(0x0E: PORT0 reads Port0),
    byte!(0x0F: PORT1 reads Port1, PORT1 writes Port1),
    byte!(0x10: PORT2 reads Port2, PORT2 writes Port2),
    byte!(0x15: IOS0 reads Ios0, IOC0 writes Ioc0),
    byte!(0x16: IOS1 reads Ios1, IOC1 writes Ioc1),
    byte!(0x17: IOS2 reads Ios2),
];

/// The registers of window 1 alone.
static WINDOW1: [Register; 3] = [
    word!(0x04: PTSSEL reads PtsSelect, PTSSEL writes PtsSelect),
    word!(0x06: PTSSRV reads PtsService, PTSSRV writes PtsService),
    byte!(0x0C: IOC3 reads Ioc3, IOC3 writes Ioc3),
];

/// The registers of window 15 alone.
static WINDOW15: [Register; 1] = [word!(0x0C: T2CAPTURE reads T2Capture)];

fn registers_of(window: Window) -> &'static [Register]
    ensures { result.now ≡ own_registers window }
{
    match window {
        Window::Window0 => &WINDOW0,
        Window::Window1 => &WINDOW1,
        Window::Window15 => &WINDOW15,
    }
}

#[tactic(auto, unfolding(crate::specs::Registers::uses_in))]
fn uses_in(table: &[Register], sfr: u8) -> Option<Uses>
    ensures { result ≡ uses_found table.now sfr }
{
    table
        .iter()
        .find(|register| sfr == register.address)
        .map(|register| register.uses)
}

/// What stands at an address of a window.
#[tactic(auto, using(crate::proofs::Searches::uses_after), unfolding(crate::specs::Registers::uses_at, crate::specs::Registers::registers))]
fn uses_at(window: Window, sfr: u8) -> Option<Uses>
    ensures { result ≡ uses_stand window sfr }
{
    match uses_in(registers_of(window), sfr) {
        Some(uses) => Some(uses),
        None => uses_in(&EVERYWHERE, sfr),
    }
}

/// The register that a byte read of the window names.
#[tactic(auto, using(crate::proofs::Searches::bytes_read_at))]
pub fn readable_byte(window: Window, sfr: u8) -> Option<ReadableByte>
    ensures { result ≡ row_at (bytes_read window) sfr }
{
    uses_at(window, sfr)?.byte_read()
}

/// The register that a byte write of the window names.
#[tactic(auto, using(crate::proofs::Searches::bytes_written_at))]
pub fn writable_byte(window: Window, sfr: u8) -> Option<WritableByte>
    ensures { result ≡ row_at (bytes_written window) sfr }
{
    uses_at(window, sfr)?.byte_written()
}

/// The register that a word read of the window names.
#[tactic(auto, using(crate::proofs::Searches::words_read_at))]
pub fn readable_word(window: Window, sfr: u8) -> Option<ReadableWord>
    ensures { result ≡ row_at (words_read window) sfr }
{
    uses_at(window, sfr)?.word_read()
}

/// The register that a word write of the window names.
#[tactic(auto, using(crate::proofs::Searches::words_written_at))]
pub fn writable_word(window: Window, sfr: u8) -> Option<WritableWord>
    ensures { result ≡ row_at (words_written window) sfr }
{
    uses_at(window, sfr)?.word_written()
}

/// The register that a byte read names in every window.
#[tactic(auto, using(crate::proofs::Searches::everywhere_read_at))]
pub fn readable_everywhere(sfr: u8) -> Option<ReadableByte>
    ensures { result ≡ row_at bytes_read_everywhere sfr }
{
    uses_in(&EVERYWHERE, sfr)?.byte_read()
}

/// The register that a byte write names in every window.
#[tactic(auto, using(crate::proofs::Searches::everywhere_written_at))]
pub fn writable_everywhere(sfr: u8) -> Option<WritableByte>
    ensures { result ≡ row_at bytes_written_everywhere sfr }
{
    uses_in(&EVERYWHERE, sfr)?.byte_written()
}
