/// The most state times that a run may have, and the greatest state time that a text may name.
pub const MAX_STATES: u64 = 1_000_000_000_000_000;

/// The most bytes that a file may have.
pub const FILE_LIMIT: usize = 1_048_576;

/// How many requests a processor may enter: the sixteen, TRAP, and the opcode that no instruction has.
pub const ENTRY_COUNT: u8 = 18;

/// How many requests the transfer server may serve: all below NMI.
pub const TRANSFER_COUNT: u8 = 15;

/// The first address behind the register file.
pub const REGISTER_FILE_END: u16 = 0x200;

/// The first address of the hole of the memory map, where nothing answers; it ends where an image begins.
pub const HOLE_START: u16 = 0x1FFE;

/// The first address of an image, and of the ROM.
pub const IMAGE_START: u16 = 0x2000;

/// The first address behind the ROM.
pub const ROM_END: u16 = 0x6000;
