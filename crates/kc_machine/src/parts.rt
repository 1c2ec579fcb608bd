// The machine's parts, and which activity comes next.
ghost use Rattle.std.specs.Prelude.{◌≡◌, ◌+◌, ◌<◌, ◌≤◌, true, None, IsTrue};
ghost use Rattle.std.specs.Bool.{OnTrue, OnFalse};
ghost use Rattle.kc_base.specs.Limits.{transfer_count};
ghost use Rattle.kc_intc.specs.declared.requests.Choice.TheVariants.{Go};
ghost use Rattle.kc_isa.specs.Formed.{is_formed};
ghost use Rattle.kc_exec_spec.specs.Places.{place_of};
ghost use Rattle.kc_intc.specs.Choosing.{IsBelowNmi};
ghost use Rattle.kc_machine_spec.specs.Board.{masks_of, word_at};
ghost use Rattle.kc_machine_spec.specs.Scene.{byte};
ghost use Rattle.kc_machine_spec.specs.Machine.{breaks, placed, scene_of, pushing_states, fetches, enters, sets_up, goes_on, goes_first, asked, serves, chosen, current};
ghost use Rattle.kc_machine_spec.specs.Passing.{IsIdle};
ghost use Rattle.kc_machine_spec.specs.Peeking.{peeked};
ghost use Rattle.kc_exec_predecode.specs.Predecoding as predecoding;
ghost use Rattle.kc_machine.specs.Passing.{Knows};
ghost use Rattle.kc_machine.specs.Prepared.{IsBetween, IsFree, HasSlot};
ghost use Rattle.kc_machine.specs.Sound.{IsGoing, IsPredecoded, IsSoundGoing};

use crate::choosing::{entry_time, fetch};
use crate::common::Common;
use crate::over::{place_over, time_over};
use crate::weights::window_for;
use kc_base::{Kind, StateTime, Steps};
use kc_bus::{Master, is_outside};
use kc_code::{Decoded, decode};
use kc_exec::word_states;
use kc_exec_predecode::Predecoded;
use kc_exec_spec::Cpu;
use kc_extra::Extra;
use kc_intc::Choice;
use kc_isa::{Insn, states};
use kc_machine_spec::{Activity, End, Going, UnderWay};
use kc_pts::{SETUP_STATES, transfer_states};
use std::sync::ledger::Ledger;

/// The parts of a machine. Between two states the units stand at its state.
#[derive(Drop)]
pub struct Core<X: Extra + Drop> {
    pub(crate) time: StateTime,
    pub(crate) bus: Common<X>,
    pub(crate) cpu: Cpu,
    pub(crate) held: bool,
    pub(crate) going: Option<Going>,
    pub(crate) under_way: Option<UnderWay>,
    pub(crate) ended: Option<End>,
}

fn broken_off(kind: Kind) -> UnderWay
    ensures value { result ≡ breaks kind }
    ensures going { IsGoing result }
{
    UnderWay {
        doing: Activity::Breaks(kind),
        left: 2,
    }
}

fn goes_first(going: Option<Going>) -> bool
    ensures { result ≡ goes_first going }
{
    match going {
        Some(Going::Moving(_, words)) => !words.interruptible,
        Some(Going::Serving(_, _)) => true,
        _ => false,
    }
}

// The setup of a cycle of the transfer server.
fn setup(number: u8) -> UnderWay
    requires { number < transfer_count }
    ensures value { result ≡ sets_up number }
    ensures going { IsGoing result }
{
    UnderWay {
        doing: Activity::SetsUp(number),
        left: SETUP_STATES,
    }
}

impl<X: Extra + Drop> Core<X> {
    ghost use Rattle.kc_machine.specs.Seen.{machine_of};

    // The states of what pushes a return address.
    fn pushing_time(&self) -> u8
        ensures value { result ≡ pushing_states (machine_of self.now) }
        ensures some { 0 < result }
    {
        let low = self.bus.memory[0x18];
        let high = self.bus.memory[0x19];
        entry_time(u16::from(low) + 256 * u16::from(high))
    }

    // Enters through the vector of a request.
    fn entry(&self, number: u8) -> UnderWay
        requires { number < 16 }
        ensures value { result ≡ enters (machine_of self.now) number }
        ensures going { IsGoing result }
    {
        UnderWay {
            doing: Activity::Enters(number),
            left: self.pushing_time(),
        }
    }

    // An instruction at its place.
    fn placed<L: Ledger>(&mut self, insn: Insn, steps: &mut Steps<L>) -> UnderWay
        requires { IsTrue (is_formed insn) }
        ensures knows { Knows (placed insn (place_of insn (machine_of self.old).cpu (masks_of (machine_of self.old).board.units) (byte (scene_of (machine_of self.old))))) result self.old self.new steps.old steps.new }
    {
        match place_over(&insn, &self.cpu, &mut self.bus, steps) {
            Ok(place) => UnderWay {
                doing: Activity::Executes(insn),
                left: states(&insn, place),
            },
            Err(kind) => broken_off(kind),
        }
    }

    /// A predecoded instruction at its place.
    pub(crate) fn placed_predecoded<L: Ledger>(
        &mut self,
        predecoded: &Predecoded,
        steps: &mut Steps<L>,
    ) -> UnderWay
        requires { predecoding.IsPredecoded predecoded.now }
        ensures knows { Knows (placed predecoded.now.insn (place_of predecoded.now.insn (machine_of self.old).cpu (masks_of (machine_of self.old).board.units) (byte (scene_of (machine_of self.old))))) result self.old self.new steps.old steps.new }
    {
        match time_over(predecoded, self.cpu, &mut self.bus, steps) {
            Ok(left) => UnderWay {
                doing: Activity::Executes(predecoded.insn),
                left,
            },
            Err(kind) => broken_off(kind),
        }
    }

    // The next instruction, by the bytes that stand at PC.
    #[tactic(auto, unfolding(kc_machine_spec::specs::Machine::fetches))]
    fn read_instruction<L: Ledger>(&mut self, steps: &mut Steps<L>) -> UnderWay
        ensures knows { Knows (fetches (machine_of self.old)) result self.old self.new steps.old steps.new }
    {
        let bytes = fetch(&self.bus.memory, self.cpu.pc);
        match decode(bytes.as_slice()) {
            Decoded::Insn(insn, _) => self.placed(insn, steps),
            Decoded::Unimplemented => UnderWay {
                doing: Activity::Traps,
                left: self.pushing_time(),
            },
            Decoded::Undefined => broken_off(Kind::Opcode),
            Decoded::Short => broken_off(Kind::OutsideMap),
        }
    }

    // The next instruction.
    fn instruction<L: Ledger>(&mut self, steps: &mut Steps<L>) -> UnderWay
        ensures knows { Knows (fetches (machine_of self.old)) result self.old self.new steps.old steps.new }
    {
        match self.bus.known_at(self.cpu.pc) {
            Some(predecoded) => self.placed_predecoded(&predecoded, steps),
            None => self.read_instruction(steps),
        }
    }

    // What goes on where no request is served.
    fn go_on<L: Ledger>(&mut self, steps: &mut Steps<L>) -> UnderWay
        requires { IsSoundGoing self.old.going }
        ensures knows { Knows (goes_on (machine_of self.old) self.old.going) result self.old self.new steps.old steps.new }
    {
        match self.going {
            Some(Going::Moving(insn, words)) => UnderWay {
                doing: Activity::MovesWord(insn, words),
                left: word_states(&words),
            },
            Some(Going::Idling) => UnderWay {
                doing: Activity::Idles,
                left: 1,
            },
            Some(Going::Serving(number, cycle)) => UnderWay {
                doing: Activity::Transfers(number, cycle),
                left: transfer_states(cycle.mode),
            },
            None => self.instruction(steps),
        }
    }

    // What the requests choose.
    #[inline(always)]
    fn asked(&self) -> Choice
        ensures value { result ≡ asked (machine_of self.now) }
        ensures below { IsBelowNmi result }
    {
        let psw = self.cpu.psw_high;
        self.bus
            .block
            .requests()
            .choose(psw / 4 % 2 == 1, psw / 2 % 2 == 1)
    }

    /// An entry or a cycle of the transfer server, as the requests choose, or what goes on.
    pub(crate) fn serves<L: Ledger>(&mut self, choice: Choice, steps: &mut Steps<L>) -> UnderWay
        requires between { IsSoundGoing self.old.going }
        requires below { IsBelowNmi choice }
        ensures knows { Knows (serves (machine_of self.old) choice) result self.old self.new steps.old steps.new }
    {
        match choice {
            Choice::Nmi => self.entry(15),
            Choice::Enter(number) => self.entry(number),
            Choice::Transfer(number) => setup(number),
            Choice::Go => self.go_on(steps),
        }
    }

    // The activity that comes next.
    #[tactic(auto, unfolding(kc_machine_spec::specs::Machine::chosen))]
    fn chosen<L: Ledger>(&mut self, steps: &mut Steps<L>) -> UnderWay
        requires { IsSoundGoing self.old.going }
        ensures knows { Knows (chosen (machine_of self.old)) result self.old self.new steps.old steps.new }
    {
        if goes_first(self.going) {
            return self.go_on(steps);
        }
        if self.held {
            return self.instruction(steps);
        }
        let choice = self.asked();
        self.serves(choice, steps)
    }

    /// The activity that has the coming state.
    pub(crate) fn current<L: Ledger>(&mut self, steps: &mut Steps<L>) -> UnderWay
        requires { IsPredecoded self.old }
        ensures knows { Knows (current (machine_of self.old)) result self.old self.new steps.old steps.new }
    {
        match self.under_way {
            Some(activity) => activity,
            None => self.chosen(steps),
        }
    }

    /// What the requests choose, where the machine is known to be free; else nothing, and no request is looked for.
    #[inline(always)]
    #[tactic(auto, using(crate::proofs::Prepared::nothing_wanted))]
    pub(crate) fn asked_if(&self, free: bool) -> Choice
        ensures free { OnTrue free (result ≡ asked (machine_of self.now)) }
        ensures other { OnFalse free (result ≡ Go) }
        ensures below { IsBelowNmi result }
    {
        let requests = self.bus.block.requests();
        if !free || requests.pending == 0 && requests.service == 0 {
            Choice::Go
        } else {
            self.asked()
        }
    }

    /// Whether the machine lives and nothing is under way, goes on or is held: the instruction at PC comes next, unless a
    /// request is served.
    #[inline(always)]
    pub(crate) fn is_free(&self) -> bool
        ensures { OnTrue result (IsFree (machine_of self.now)) }
    {
        self.under_way.is_none() && self.going.is_none() && !self.held && self.ended.is_none()
    }

    // Whether an instruction is held for, and nothing else comes before it.
    #[inline(always)]
    #[tactic(auto, using(crate::proofs::Prepared::held_between))]
    fn holds(&self) -> bool
        ensures between { OnTrue result (IsBetween (machine_of self.now)) }
        ensures lives { OnTrue result (self.now.ended ≡ None) }
    {
        self.held && self.under_way.is_none() && self.going.is_none() && self.ended.is_none()
    }

    /// Whether the instruction at PC comes next and has a slot, where `free` says that the machine is known to be free, and no
    /// request is served of one that is.
    #[inline(always)]
    #[tactic(auto, using(crate::proofs::Prepared::free_between))]
    pub(crate) fn comes_next(&self, free: bool) -> bool
        requires free { OnTrue free (IsFree (machine_of self.now)) }
        requires asked { OnTrue free (asked (machine_of self.now) ≡ Go) }
        ensures between { OnTrue result (IsBetween (machine_of self.now)) }
        ensures lives { OnTrue result (self.now.ended ≡ None) }
        ensures slot { OnTrue result (HasSlot self.now.cpu.pc) }
    {
        (free || self.holds()) && self.bus.has_slot(self.cpu.pc)
    }

    /// The byte at an address, in the window that the processor sees.
    pub(crate) fn peek(&mut self, addr: u16) -> u8
        requires stands { self.old.bus.block.time ≡ self.old.time }
        ensures value { result ≡ peeked X.further (machine_of self.old) addr }
        ensures same { machine_of self.new ≡ machine_of self.old }
        ensures stands { self.new.bus.block.time ≡ self.new.time }
        ensures moves { self.new.bus.block.moves ≤ self.old.bus.block.moves + 1 }
    {
        if addr < 0x18 {
            let window = window_for(Master::Cpu, self.bus.block.wsr());
            self.bus.look(window, addr)
        } else if is_outside(addr) {
            0
        } else {
            self.bus.byte_at(addr)
        }
    }

    /// Whether the machine idles and no request is served.
    #[inline(always)]
    pub(crate) fn rests(&self) -> bool
        requires { self.now.ended ≡ None }
        ensures idle { OnTrue result (IsIdle (machine_of self.now)) }
        ensures asked { OnTrue result (asked (machine_of self.now) ≡ Go) }
        ensures rests { IsIdle (machine_of self.now) → asked (machine_of self.now) ≡ Go → IsTrue result }
    {
        match (self.going, self.under_way) {
            (Some(Going::Idling), None) => !self.held && matches!(self.asked(), Choice::Go),
            _ => false,
        }
    }
}
