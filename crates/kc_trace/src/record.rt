use kc_base::{Edge, PtsMode, StateTime, Undefined};

/// What is printed as one line of a trace. Times are state times, `back` and `base` addresses.
#[derive(Clone, Copy, PartialEq, Eq)]
pub enum Record {
    /// The printed level of a pin changes.
    Pin {
        at: StateTime,
        edge: Edge,
    },
    /// An entry through a vector, with the return address; 16 is TRAP, 17 an opcode that no instruction has.
    Entered {
        at: StateTime,
        vector: u8,
        back: u16,
    },
    /// A cycle of the peripheral transaction server has ended, with the new PTSCOUNT.
    Served {
        at: StateTime,
        vector: u8,
        mode: PtsMode,
        count: u8,
    },
    Undef(Undefined),
    /// The end of a run: `how` is 0 spent, 1 powerdown, 2 reset, 3 undefined.
    Stopped {
        at: StateTime,
        how: u8,
    },
    Pc(u16),
    Psw(u16),
    Wsr(u8),
    /// 32 bytes of the register file from an address on.
    Registers {
        base: u16,
        bytes: [u8; 32],
    },
}
