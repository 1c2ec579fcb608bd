use kc_base::{Kind, Undefined};
use kc_exec_spec::{Access, Words};
use kc_isa::Insn;
use kc_pts::Cycle;

/// What goes on in some states.
#[derive(Clone, Copy, Drop)]
pub enum Activity {
    /// An instruction.
    Executes(Insn),
    /// One word of a block move.
    MovesWord(Insn, Words),
    /// The trap of an opcode that no instruction has.
    Traps,
    /// An entry through the vector of this number, below 16.
    Enters(u8),
    /// The setup of a cycle of the transfer server for the request of this number, below NMI.
    SetsUp(u8),
    /// One transfer of a cycle for the request of this number, with the end of the cycle after the last.
    Transfers(u8, Cycle),
    /// One idle state.
    Idles,
    /// An undefined use that was found at the start.
    Breaks(Kind),
}

/// What goes on between activities: a block move with the words that are left, idling, or a cycle of the transfer server for
/// the request of this number.
#[derive(Clone, Copy, PartialEq, Eq, Drop)]
pub enum Going {
    Moving(Insn, Words),
    Idling,
    Serving(u8, Cycle),
}

/// An activity with the number of its states that are left.
#[derive(Clone, Copy, Drop)]
pub struct UnderWay {
    pub doing: Activity,
    pub left: u8,
}

/// How a run ends.
#[derive(Clone, Copy, PartialEq, Eq, Drop)]
pub enum End {
    Spent,
    Powerdown,
    Reset,
    /// An undefined use, with the access that was refused, where it is one that was.
    Undefined(Undefined, Option<Access>),
}

/// How the machine goes on after an activity.
#[derive(Clone, Copy, PartialEq, Eq, Drop)]
pub struct Next {
    /// The next activity is an instruction.
    pub held: bool,
    /// What goes on between this activity and the next.
    pub going: Option<Going>,
    /// The run has ended so.
    pub ended: Option<End>,
}
