// How activities end: their accesses, and what is printed of them.
ghost use Rattle.std.specs.Prelude.{◌≡◌, ◌<◌, ◌+◌, ◌*◌, ◌^◌, ◌++◌, IsTrue, IfSome, IfOk, IfErr, OnOk, OnErr, None, [], ◌∷◌, option_to_list, false, true};
ghost use Rattle.kc_base.specs.Limits.{transfer_count};
ghost use Rattle.kc_isa.specs.Formed.{is_formed};
ghost use Rattle.kc_exec_spec.specs.BlockMoves.{IsOfMove};
ghost use Rattle.kc_exec_spec.specs.Jumping.{next_pc};
ghost use Rattle.kc_exec_spec.specs.Plans.{plan_of};
ghost use Rattle.kc_exec_predecode.specs.Predecoding.{is_free, IsPredecoded};
ghost use Rattle.kc_trace.specs.Printable.{CanPrint};
ghost use Rattle.kc_machine_spec.specs.declared.doing.Activity.TheVariants.{Executes, MovesWord, Traps, Enters, SetsUp, Transfers, Idles};
ghost use Rattle.kc_machine_spec.specs.Board.{pins};
ghost use Rattle.kc_machine_spec.specs.Machine.{next_after, own_records, finished, broken, holding, idling, serving, scene_of};
ghost use Rattle.kc_machine_spec.specs.Passing.{stepped_of};
ghost use Rattle.kc_machine.specs.Accessing.{WithinState};
ghost use Rattle.kc_machine.specs.Passing.{IsInLastState, IsOver};
ghost use Rattle.kc_machine.specs.Sound.{IsSoundActivity, IsSoundGoing, IsSoundMove, IsSoundCycle};

use crate::choosing::{vector_at, vector_of};
use crate::over::{
    enter_over, move_over, perform_over, predecoded_over, serve_over, setup_over, trap_over,
};
use crate::parts::Core;
use kc_base::{Kind, StateTime, Steps, Undefined};
use kc_exec_predecode::Predecoded;
use kc_exec_spec::{After, Words};
use kc_extra::Extra;
use kc_isa::{Insn, Mnemonic, length, mnemonic_of};
use kc_machine_spec::{Activity, End, Going, Next};
use kc_pts::Cycle;
use kc_trace::Record;
use std::sync::ledger::Ledger;

fn hold() -> Next
    ensures { result ≡ holding }
{
    Next {
        held: true,
        going: None,
        ended: None,
    }
}

fn idle() -> Next
    ensures { result ≡ idling }
{
    Next {
        held: false,
        going: Some(Going::Idling),
        ended: None,
    }
}

fn go_on_serving(number: u8, cycle: Cycle) -> Next
    ensures { result ≡ serving number cycle }
{
    Next {
        held: false,
        going: Some(Going::Serving(number, cycle)),
        ended: None,
    }
}

fn end(ended: Option<End>) -> Next
    ensures { result ≡ record { held = false; going = None; ended = ended } }
{
    Next {
        held: false,
        going: None,
        ended,
    }
}

// How the machine goes on after an instruction, or after a word of it.
fn follow(insn: &Insn, after: After) -> Next
    requires formed { IsTrue (is_formed insn.now) }
    requires words { IsOfMove insn.now after }
    ensures value { result ≡ next_after insn.now after }
    ensures sound { IsSoundGoing result.going }
{
    match after {
        After::Next => end(None),
        After::Held => hold(),
        After::Idle => idle(),
        After::Powerdown => end(Some(End::Powerdown)),
        After::Reset => end(Some(End::Reset)),
        After::MoreWords(words) => Next {
            held: false,
            going: Some(Going::Moving(*insn, words)),
            ended: None,
        },
    }
}

// TRAP is printed as an entry.
fn own_record(time: StateTime, pc: u16, insn: &Insn) -> Option<Record>
    requires { IsTrue (is_formed insn.now) }
    ensures value { option_to_list result ≡ own_records time pc insn.now }
    ensures printable { IfSome result CanPrint }
{
    match mnemonic_of(insn.opcode, insn.signed) {
        Some(Mnemonic::Trap) => Some(Record::Entered {
            at: time,
            vector: 16,
            back: pc.wrapping_add(u16::from(length(insn))),
        }),
        _ => None,
    }
}

impl<X: Extra + Drop> Core<X> {
    ghost use Rattle.kc_machine.specs.Bus.{held_of};
    ghost use Rattle.kc_machine.specs.Seen.{machine_of};

    // The state is over.
    fn close(&mut self, next: Next)
        requires { self.old.time < 2 ^ 63 }
        ensures { self.new ≡ record self.old { time = self.old.time + 1; held = next.held; going = next.going; under_way = None; ended = next.ended } }
    {
        self.time += 1;
        self.held = next.held;
        self.going = next.going;
        self.under_way = None;
        self.ended = next.ended;
    }

    /// Ends the run by an undefined use that is reported at an address.
    pub(crate) fn break_off(&mut self, addr: u16, kind: Kind) -> Record
        requires room { self.old.time < 2 ^ 63 }
        ensures machine { stepped_of (machine_of self.new) (pins self.old.time self.new.bus.edges ++ result ∷ []) self.new.bus.reached ≡ broken (machine_of self.old) (held_of self.old.bus) addr kind }
        ensures bus { self.new.bus ≡ self.old.bus }
        ensures going { self.new.going ≡ self.old.going }
        ensures time { self.new.time ≡ self.old.time + 1 }
        ensures over { self.new.under_way ≡ None }
        ensures printable { CanPrint result }
    {
        let what = Undefined {
            kind,
            at: self.time,
            addr,
        };
        self.close(Next {
            held: self.held,
            going: self.going,
            ended: Some(End::Undefined(what, self.bus.refused)),
        });
        Record::Undef(what)
    }

    // Does an instruction in its last state; answers what is printed behind the edges.
    fn execute<L: Ledger>(&mut self, insn: &Insn, steps: &mut Steps<L>) -> Option<Record>
        requires sound { IsTrue (is_formed insn.now) }
        requires last { IsInLastState self.old }
        ensures over { IsOver X.further (Executes insn.now) self.old self.new result }
        ensures within { WithinState self.old.bus self.new.bus steps.old steps.new }
    {
        let own = own_record(self.time, self.cpu.pc, insn);
        match perform_over(insn, &mut self.cpu, &mut self.bus, steps) {
            Ok(after) => {
                self.close(follow(insn, after));
                own
            }
            Err(kind) => Some(self.break_off(self.cpu.pc, kind)),
        }
    }

    /// Does a predecoded instruction in its last state; answers whether an instruction has to follow, or any activity may. After
    /// a refusal the state is not over yet.
    #[inline(always)]
    pub(crate) fn execute_predecoded<L: Ledger>(
        &mut self,
        predecoded: &Predecoded,
        steps: &mut Steps<L>,
    ) -> Result<bool, Kind>
        requires predecoded { IsPredecoded predecoded.now }
        requires followed { is_free (plan_of predecoded.now.mnemonic) ≡ true }
        requires begun { self.old.under_way ≡ None }
        requires alone { self.old.going ≡ None }
        requires lives { self.old.ended ≡ None }
        requires room { self.old.time < 2 ^ 63 }
        requires scene { held_of self.old.bus ≡ scene_of (machine_of self.old) }
        ensures ok { OnOk result (stepped_of (machine_of self.new) (pins self.old.time self.new.bus.edges) self.new.bus.reached ≡ finished X.further (Executes predecoded.now.insn) (machine_of self.old)) }
        ensures err { IfErr result (λ kind. broken (machine_of self.new) (held_of self.new.bus) self.new.cpu.pc kind ≡ finished X.further (Executes predecoded.now.insn) (machine_of self.old)) }
        ensures within { WithinState self.old.bus self.new.bus steps.old steps.new }
        ensures time { OnOk result (self.new.time ≡ self.old.time + 1) }
        ensures stays { OnErr result (self.new.time ≡ self.old.time) }
        ensures over { self.new.under_way ≡ None }
        ensures going { self.new.going ≡ None }
        ensures held { IfOk result (λ held. self.new.held ≡ held) }
        ensures lives { self.new.ended ≡ None }
    {
        match predecoded_over(predecoded, &mut self.cpu, &mut self.bus, steps) {
            Ok(held) => {
                self.time += 1;
                self.held = held;
                Ok(held)
            }
            Err(kind) => Err(kind),
        }
    }

    // Moves a word of a block move in its last state; answers what is printed behind the edges.
    fn move_on<L: Ledger>(
        &mut self,
        insn: &Insn,
        words: Words,
        steps: &mut Steps<L>,
    ) -> Option<Record>
        requires sound { IsSoundMove insn.now words }
        requires last { IsInLastState self.old }
        ensures over { IsOver X.further (MovesWord insn.now words) self.old self.new result }
        ensures within { WithinState self.old.bus self.new.bus steps.old steps.new }
    {
        match move_over(insn, words, &mut self.cpu, &mut self.bus, steps) {
            Ok(after) => {
                self.close(follow(insn, after));
                None
            }
            Err(kind) => Some(self.break_off(self.cpu.pc, kind)),
        }
    }

    // Takes the trap of an opcode that no instruction has, in its last state; answers what is printed behind the edges.
    fn trap<L: Ledger>(&mut self, steps: &mut Steps<L>) -> Option<Record>
        requires last { IsInLastState self.old }
        ensures over { IsOver X.further Traps self.old self.new result }
        ensures within { WithinState self.old.bus self.new.bus steps.old steps.new }
    {
        let at = self.time;
        let back = self.cpu.pc.wrapping_add(1);
        match trap_over(&mut self.cpu, &mut self.bus, steps) {
            Ok(()) => {
                self.close(hold());
                Some(Record::Entered {
                    at,
                    vector: 17,
                    back,
                })
            }
            Err(kind) => Some(self.break_off(self.cpu.pc, kind)),
        }
    }

    // Enters through the vector of a request in its last state; answers what is printed behind the edges.
    fn enter<L: Ledger>(&mut self, number: u8, steps: &mut Steps<L>) -> Option<Record>
        requires number { number < 16 }
        requires last { IsInLastState self.old }
        ensures over { IsOver X.further (Enters number) self.old self.new result }
        ensures within { WithinState self.old.bus self.new.bus steps.old steps.new }
    {
        let at = self.time;
        let back = self.cpu.pc;
        match enter_over(vector_at(number), &mut self.cpu, &mut self.bus, steps) {
            Ok(()) => {
                self.bus.take(number);
                self.close(hold());
                Some(Record::Entered {
                    at,
                    vector: number,
                    back,
                })
            }
            Err(kind) => Some(self.break_off(back, kind)),
        }
    }

    // Sets up a cycle of the transfer server in its last state; answers what is printed behind the edges.
    fn set_up<L: Ledger>(&mut self, number: u8, steps: &mut Steps<L>) -> Option<Record>
        requires number { number < transfer_count }
        requires last { IsInLastState self.old }
        ensures over { IsOver X.further (SetsUp number) self.old self.new result }
        ensures within { WithinState self.old.bus self.new.bus steps.old steps.new }
    {
        match setup_over(number, &mut self.bus, steps) {
            Ok(cycle) => {
                self.bus.claim(number);
                self.close(go_on_serving(number, cycle));
                None
            }
            Err(kind) => Some(self.break_off(vector_of(number), kind)),
        }
    }

    // Makes a transfer of a cycle in its last state; answers what is printed behind the edges.
    fn transfer<L: Ledger>(
        &mut self,
        number: u8,
        cycle: Cycle,
        steps: &mut Steps<L>,
    ) -> Option<Record>
        requires cycle { IsSoundCycle number cycle }
        requires last { IsInLastState self.old }
        ensures over { IsOver X.further (Transfers number cycle) self.old self.new result }
        ensures within { WithinState self.old.bus self.new.bus steps.old steps.new }
    {
        let at = self.time;
        let mut next = cycle;
        match serve_over(number, &mut next, &mut self.bus, steps) {
            Ok(None) => {
                self.close(go_on_serving(number, next));
                None
            }
            Ok(Some(count)) => {
                self.bus.hand(number, count);
                self.close(end(None));
                Some(Record::Served {
                    at,
                    vector: number,
                    mode: next.mode,
                    count,
                })
            }
            Err(kind) => Some(self.break_off(vector_of(number), kind)),
        }
    }

    // Ends an idle state.
    fn stay(&mut self) -> Option<Record>
        requires room { self.old.time < 2 ^ 63 }
        requires scene { held_of self.old.bus ≡ scene_of (machine_of self.old) }
        ensures over { IsOver X.further Idles self.old self.new result }
        ensures bus { self.new.bus ≡ self.old.bus }
    {
        self.close(idle());
        None
    }

    /// Ends an activity in its last state; answers what is printed behind the edges.
    pub(crate) fn finish<L: Ledger>(
        &mut self,
        doing: Activity,
        steps: &mut Steps<L>,
    ) -> Option<Record>
        requires sound { IsSoundActivity doing }
        requires last { IsInLastState self.old }
        ensures over { IsOver X.further doing self.old self.new result }
        ensures within { WithinState self.old.bus self.new.bus steps.old steps.new }
    {
        match doing {
            Activity::Executes(insn) => self.execute(&insn, steps),
            Activity::MovesWord(insn, words) => self.move_on(&insn, words, steps),
            Activity::Traps => self.trap(steps),
            Activity::Enters(number) => self.enter(number, steps),
            Activity::SetsUp(number) => self.set_up(number, steps),
            Activity::Transfers(number, cycle) => self.transfer(number, cycle, steps),
            Activity::Idles => self.stay(),
            Activity::Breaks(kind) => Some(self.break_off(self.cpu.pc, kind)),
        }
    }
}
