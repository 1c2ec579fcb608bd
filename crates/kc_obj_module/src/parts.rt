use kc_base::Text;

/// The kind of a piece of memory: registers (RSEG), code (CSEG), data (DSEG) or stack (SSEG), as the MCS-96 tools name them.
#[derive(Clone, Copy, PartialEq, Eq)]
pub enum SegKind {
    Reg,
    Code,
    Ram,
    Stack,
}

/// A piece of a module: absolute at an address, or relocatable. The length is in bytes.
#[derive(Clone, Copy, PartialEq, Eq)]
pub struct Segment {
    pub kind: SegKind,
    pub at: Option<u16>,
    pub length: u16,
}

/// A name that the module takes from another one.
#[derive(Drop)]
pub struct Taken {
    pub name: Text,
    pub register: bool,
}

/// A public name: a place in the piece with this number, or a number alone.
#[derive(Drop)]
pub struct Given {
    pub name: Text,
    pub piece: Option<u16>,
    pub value: u16,
}

/// Bytes that stand in a piece from an offset on.
#[derive(Drop)]
pub struct Content {
    pub piece: u16,
    pub offset: u16,
    pub bytes: Text,
}

/// What a relocation counts from: the base of a piece, the value of an external, or 0.
#[derive(Clone, Copy, PartialEq, Eq)]
pub enum Target {
    Piece(u16),
    External(u16),
    Number,
}

/// A number that is filled in when the bases are known, at an offset of a piece. The kinds: 0 word, 1 byte,
/// 2 displacement of 8 bits, 3 displacement of 11 bits from the opcode on, 4 displacement of 16 bits.
#[derive(Clone, Copy, PartialEq, Eq)]
pub struct Fixup {
    pub piece: u16,
    pub offset: u16,
    pub kind: u8,
    pub target: Target,
    pub addend: u16,
}

/// The line of the source from which the bytes at an offset of a piece come.
#[derive(Clone, Copy, PartialEq, Eq)]
pub struct Lines {
    pub piece: u16,
    pub offset: u16,
    pub line: u32,
}
