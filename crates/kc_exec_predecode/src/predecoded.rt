ghost use Rattle.std.specs.Prelude.{◌≡◌, true};
ghost use Rattle.kc_exec_predecode.specs.Predecoding.{is_blank};

use crate::cost::Cost;
use kc_exec_spec::Test;
use kc_isa::{Insn, Mnemonic, Operand};

/// An instruction with what is known of it once: whether the program goes on after it (`free`); its length in bytes; what its
/// states depend on, with the test of a conditional jump and what it has to be; and its states where that does not hold (`base`)
/// and where it holds (`other`).
#[derive(Clone, Copy, Drop)]
pub struct Predecoded {
    pub insn: Insn,
    pub mnemonic: Mnemonic,
    pub free: bool,
    pub length: u8,
    pub cost: Cost,
    pub test: Test,
    pub wanted: bool,
    pub base: u8,
    pub other: u8,
}

impl Predecoded {
    /// The blank one, of which nothing is known: an instruction of no bytes, after which the program does not go on.
    pub fn blank() -> Predecoded
        ensures { is_blank result ≡ true }
    {
        Predecoded {
            insn: Insn {
                opcode: 0,
                signed: false,
                operand: Operand::Absent,
                regs: [0; 3],
            },
            mnemonic: Mnemonic::Skip,
            free: false,
            length: 0,
            cost: Cost::Fixed,
            test: Test::Sticky,
            wanted: false,
            base: 0,
            other: 0,
        }
    }

    /// Whether nothing is known.
    pub fn is_blank(&self) -> bool
        ensures { result ≡ is_blank self.now }
    {
        !self.free && self.length == 0
    }
}
