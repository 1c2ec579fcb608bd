ghost use Rattle.std.specs.Prelude.{◌≡◌};

use kc_expr::Value;

/// A byte of a piece before the bases are known: a byte that stands, or the first or the second byte of a number that a
/// value reports. The kind says how the bytes have the number, as the kind of a relocation does: 0 a word, 1 a byte, 2 a
/// distance of 8 bits, 3 of 11 bits, 4 of 16 bits. `start` is what stands in the first byte beside the number: the opcode
/// of a jump of 11 bits, else 0.
/// (80C196KC User's Manual, "Instruction Format".)
#[derive(Clone, Copy, PartialEq, Eq)]
pub enum RelocatableByte {
    Plain(u8),
    First { kind: u8, start: u8, value: Value },
    Second { kind: u8, value: Value },
}

impl Default for RelocatableByte {
    /// A byte 0.
    fn default() -> RelocatableByte
        ensures { result ≡ RelocatableByte.Plain 0 }
    {
        RelocatableByte::Plain(0)
    }
}
