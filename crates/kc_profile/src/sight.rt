ghost use Rattle.std.specs.Prelude.{◌≡◌, ◌<◌};
ghost use Rattle.kc_base.specs.Bits.{bit};
ghost use Rattle.kc_profile.specs.Sights as spec;

use kc_base::{IntSet, StateTime};
use kc_intc::Requests;
use kc_isa::Insn;
use kc_machine::End;
use kc_machine_spec::Activity;

/// What a run shows in one of its states: the requests that the Tick raises, the four sets at its start and at its end, the activity
/// whose last state it is, whether the run ends in it by an undefined use, and the program counter and the stack pointer, at its start
/// and at its end.
#[derive(Clone, Copy, Drop)]
pub struct Sight {
    pub at: StateTime,
    pub raised: IntSet,
    pub before: Requests,
    pub after: Requests,
    pub ends: Option<Activity>,
    pub is_broken: bool,
    pub pc: u16,
    pub next_pc: u16,
    pub stack: u16,
    pub next_stack: u16,
}

/// Whether a request is in a set.
pub(crate) fn is_in(set: u16, n: u8) -> bool
    requires { n < 16 }
    ensures { result ≡ bit set n }
{
    (set >> n) % 2 == 1
}

/// Whether a run has ended by an undefined use.
pub(crate) fn is_undefined(ended: Option<End>) -> bool
    ensures { result ≡ spec.is_undefined ended }
{
    matches!(ended, Some(End::Undefined(_, _)))
}

/// Whether an instruction is a conditional jump: JBC, JBS, those on a flag, DJNZ, DJNZW.
pub fn is_branch(insn: &Insn) -> bool
    ensures { result ≡ spec.is_branch insn.now }
{
    !insn.signed && matches!(insn.opcode, 0x30..=0x3F | 0xD0..=0xDF | 0xE0 | 0xE1)
}

/// Which way a conditional jump has gone.
#[derive(Clone, Copy, PartialEq, Eq)]
pub enum Way {
    /// To its target.
    Taken,
    /// To the instruction behind it.
    Passed,
}

// How many bytes a conditional jump has.
fn branch_length(opcode: u8) -> u16
    ensures { result ≡ spec.branch_length opcode }
{
    if matches!(opcode, 0xD0..=0xDF) { 2 } else { 3 }
}

// Which way a conditional jump goes that leads from one address to another.
fn way_to(insn: &Insn, pc: u16, next: u16) -> Way
    ensures { result ≡ spec.way_to insn.now pc next }
{
    if next == pc.wrapping_add(branch_length(insn.opcode)) {
        Way::Passed
    } else {
        Way::Taken
    }
}

impl Sight {
    /// The activity that has ended in the state, where no undefined use ends the run there.
    pub(crate) fn done(&self) -> Option<Activity>
        ensures { result ≡ spec.done self.now }
    {
        if self.is_broken { None } else { self.ends }
    }

    /// Whether the entry of a request has ended in the state.
    pub(crate) fn enters(&self, n: u8) -> bool
        ensures { result ≡ spec.enters n self.now }
    {
        match self.done() {
            Some(Activity::Enters(number)) => number == n,
            _ => false,
        }
    }

    /// Whether the setup of a cycle of the transfer server for a request has ended in the state.
    pub(crate) fn sets_up(&self, n: u8) -> bool
        ensures { result ≡ spec.sets_up n self.now }
    {
        match self.done() {
            Some(Activity::SetsUp(number)) => number == n,
            _ => false,
        }
    }

    /// Whether an instruction, a trap of an opcode that no instruction has, or an undefined use that is found at the start has its last
    /// state here.
    pub(crate) fn hits(&self) -> bool
        ensures { result ≡ spec.hits self.now }
    {
        matches!(
            self.ends,
            Some(Activity::Executes(_) | Activity::Traps | Activity::Breaks(_))
        )
    }

    /// Which way a conditional jump goes that ends in the state.
    pub(crate) fn way(&self) -> Option<Way>
        ensures { result ≡ spec.way self.now }
    {
        match self.done() {
            Some(Activity::Executes(insn)) if is_branch(&insn) => {
                Some(way_to(&insn, self.pc, self.next_pc))
            }
            _ => None,
        }
    }

    /// Whether the stack pointer moves in the state.
    pub(crate) fn moves_stack(&self) -> bool
        ensures { result ≡ spec.moves_stack self.now }
    {
        self.next_stack != self.stack
    }
}
