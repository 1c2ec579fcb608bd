ghost use Rattle.std.specs.Prelude.{◌≡◌};
ghost use Rattle.kc_asm_encode.specs.Instructions as instructions;

use kc_expr::{Value, fixed};

/// The operand of an instruction, with values in the places of its numbers: `Short` and `Long` are an index behind a
/// register, `Count` is a number of shifts or its register, `Jump` the target of a jump.
/// (80C196KC User's Manual, "Addressing Modes".)
#[derive(Clone, Copy, PartialEq, Eq)]
pub enum Word {
    Absent,
    Register(Value),
    Immediate(Value),
    Indirect(Value),
    Increment(Value),
    Short { base: Value, offset: i8 },
    Long { base: Value, offset: Value },
    Count(Value),
    Jump(Value),
}

/// An instruction before the bases are known, with values in the places of its numbers: `signed` where FEH stands before it,
/// and in `regs` the other bytes in their order, the rest 0.
#[derive(Clone, Copy, PartialEq, Eq)]
pub struct RelocatableInsn {
    pub opcode: u8,
    pub signed: bool,
    pub operand: Word,
    pub regs: [Value; 3],
}

impl Default for RelocatableInsn {
    /// NOP.
    fn default() -> RelocatableInsn
        ensures { result ≡ instructions.nop }
    {
        RelocatableInsn {
            opcode: 0xFD,
            signed: false,
            operand: Word::Absent,
            regs: [fixed(0), fixed(0), fixed(0)],
        }
    }
}
