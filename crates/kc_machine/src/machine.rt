ghost use Rattle.std.specs.Prelude.{◌≡◌, ◌≤◌, ◌<◌, ◌+◌, ◌-◌, ◌*◌, ◌%◌, ◌↔◌, ℕ, None, IfOk, OnOk, OnErr, IsTrue, false, true, max, vec_len, slice_get, bit_xor};
ghost use Rattle.kc_base.specs.Limits.{max_states};
ghost use Rattle.kc_trace.specs.Counting.{counted_all};
ghost use Rattle.kc_trace.specs.Out.{Prints, Puts};
ghost use Rattle.kc_trace.specs.Text.{line_of, text_of};
ghost use Rattle.kc_exec_spec.specs.Memory.{IsMemory, is_hole};
ghost use Rattle.kc_hsi.specs.Input.{holding_of};
ghost use Rattle.kc_block_spec.specs.Levels.{printed, stimulated_before};
ghost use Rattle.kc_block_spec.specs.Looking.{levels_shown, looked};
ghost use Rattle.kc_block_sfr.specs.Holding.{IsEntryDue, entry_due};
ghost use Rattle.kc_block_spec.specs.Touch.{block_rule};
ghost use Rattle.kc_block_units.specs.Next.{IsDueOrLast};
ghost use Rattle.kc_block_units.specs.Scheduler.{further_goes};
ghost use Rattle.kc_block.specs.Lent.{IsLent};
ghost use Rattle.kc_intc.specs.declared.requests.Choice.TheVariants.{Go};
ghost use Rattle.kc_machine_spec.specs.Board.{word_at};
ghost use Rattle.kc_machine_spec.specs.Machine.{start, memory_of, asked, current};
ghost use Rattle.kc_machine_spec.specs.Run.{run_to, end_of};
ghost use Rattle.kc_machine_spec.specs.Work.{work_to};
ghost use Rattle.kc_machine_spec.specs.Passing.{IsIdle, activity_end};
ghost use Rattle.kc_machine_spec.specs.Peeking.{peeked, poked};
ghost use Rattle.kc_machine_spec.specs.Text.{finals, HasRun};
ghost use Rattle.kc_machine.specs.Board.{Whole};
ghost use Rattle.kc_machine.specs.Failing.{FailsIn};
ghost use Rattle.kc_machine.specs.Stepping.{IsBrief, IdlesFor, end_line, register_lines};
ghost use Rattle.kc_machine.specs.Raising.{raised_in};

use crate::common::Common;
use crate::finals::{put_end, put_finals, put_state, word};
use crate::parts::Core;
use kc_base::{Image, IntSet, NoMemory, Sink, StateTime, Steps};
use kc_block::{Block, Window};
use kc_exec_spec::Cpu;
use kc_extra::Extra;
use kc_hsi::Entry as HsiEntry;
use kc_hso::cam::{Entry as HsoEntry, Held};
use kc_intc::Requests;
use kc_machine_spec::{End, UnderWay};
use kc_stim::Stimuli;
use kc_trace::{TraceOut, WriteFault};
use std::alloc::Global;
use std::marker::Model;
use std::sync::ledger::Ledger;

/// A board with a further unit `X` that is run in state times.
#[derive(Drop)]
pub struct Machine<X: Extra + Drop> {
    core: Core<X>,
}

impl<X: Extra + Drop> Model for Machine<X> {
    ghost use Rattle.kc_machine.specs.Board.{Whole};

    ghost Value = { Whole X };

    ghost use Rattle.kc_machine.specs.Sound.{IsPredecoded};
    ghost use Rattle.kc_machine.specs.Seen.{machine_of};

    ghost view = { λ m. record { machine = machine_of m.core; held = m.core.bus.block.held; moves = m.core.bus.block.moves } };

    ghost invariant = { λ m. IsPredecoded m.core };
}

fn first_memory(alloc: Global, image: &Image) -> Result<Vec<u8>, NoMemory>
    ensures bytes { IfOk result (λ bytes. bytes.items ≡ memory_of image.now) }
    ensures long { IfOk result (λ bytes. vec_len bytes ≡ 65536) }
{
    let mut bytes = vec![in alloc; 0u8; 0x2000]?;
    bytes.extend_from_slice(image.as_slice())?;
    Ok(bytes)
}

impl<X: Extra + Drop> Machine<X> {
    ghost use Rattle.kc_trace.specs.Trace.{out_of};

    /// The machine of an image at state 0, with these stimuli and wires, and with a further unit that keeps the levels
    /// before state 0.
    pub fn new(
        alloc: Global,
        image: Image,
        stimuli: Stimuli,
        extra: X,
    ) -> Result<Machine<X>, NoMemory>
        requires { (m : ℕ) → X.agrees m (bit_xor (stimulated_before stimuli 0) m) (X.plain extra) }
        ensures machine { IfOk result (λ machine. machine.machine ≡ start image stimuli (X.plain extra)) }
        ensures moves { IfOk result (λ machine. machine.moves ≡ X.moved extra) }
    {
        let memory = first_memory(alloc, &image)?;
        let block = Block::new(alloc, stimuli, extra)?;
        Ok(Machine {
            core: Core {
                time: 0,
                bus: Common::new(alloc, memory, block)?,
                cpu: Cpu {
                    pc: 0x2080,
                    psw_high: 0,
                },
                held: false,
                going: None,
                under_way: None,
                ended: None,
            },
        })
    }

    /// The present state.
    pub fn now(&self) -> StateTime
        ensures { result ≡ self.now.machine.time }
    {
        self.core.time
    }

    /// The program counter.
    pub fn pc(&self) -> u16
        ensures { result ≡ self.now.machine.cpu.pc }
    {
        self.core.cpu.pc
    }

    /// The whole PSW, with INT_MASK as its low byte.
    pub fn psw(&self) -> u16
        ensures { result ≡ 256 * self.now.machine.cpu.psw_high + self.now.machine.board.units.board_registers.requests.mask % 256 }
    {
        word(self.core.cpu.psw_high, self.core.bus.masks().int_mask)
    }

    /// WSR, a value of the profile.
    pub fn wsr(&self) -> u8
        ensures { result ≡ self.now.machine.board.units.board_registers.wsr }
    {
        self.core.bus.block.wsr()
    }

    /// Whether no activity is under way.
    pub fn between(&self) -> bool
        ensures { IsTrue result ↔ (self.now.machine.under_way ≡ None) }
    {
        self.core.under_way.is_none()
    }

    /// The activity that has the coming state, with the states that are left of it: the one under way, or else the one that
    /// begins.
    pub fn current<L: Ledger>(&mut self, steps: &mut Steps<L>) -> UnderWay
        ensures activity { result ≡ current self.old.machine }
        ensures same { self.new ≡ self.old }
        ensures steps { steps.new ≡ steps.old }
    {
        self.core.current(steps)
    }

    /// How the run has ended, or `None` while the machine lives.
    pub fn ended(&self) -> Option<End>
        ensures { result ≡ self.now.machine.ended }
    {
        self.core.ended
    }

    /// The further unit as the machine's block holds it: Ticks without input edges lead from its data to those of the present
    /// state. It is not called.
    pub fn extra(&self) -> &X
        ensures held { X.plain result.now ≡ self.now.held.further.kept }
        ensures lent { IsLent (further_goes X.further) self.now.held.further self.now.machine.time self.now.machine.board.units.further }
    {
        self.core.bus.block.extra()
    }

    /// A state up to which the machine does nothing but idle, `until` at most; the present state where it does not idle, or
    /// where a request is served.
    pub fn idles_to(&self, until: StateTime) -> StateTime
        ensures from { self.now.machine.time ≤ result }
        ensures within { result ≤ max until self.now.machine.time }
        ensures idles { IdlesFor X.further (result - self.now.machine.time) self.now.machine }
        ensures goes { IsIdle self.now.machine → asked self.now.machine ≡ Go → self.now.machine.time < until → self.now.machine.time < result }
    {
        self.core.idles_to(until)
    }

    /// The pending, mask, select and service sets.
    pub fn requests(&self) -> Requests
        ensures { result ≡ self.now.machine.board.units.board_registers.requests }
    {
        self.core.bus.block.requests()
    }

    /// The stack pointer: the word at 0018H of memory.
    pub fn stack(&self) -> u16
        ensures { result ≡ word_at self.now.machine.board.memory 0x18 }
    {
        word(self.core.bus.byte_at(0x19), self.core.bus.byte_at(0x18))
    }

    /// The next state, from the present one on, in which the units do something, if no access comes before it; the last value of a
    /// state time where there is none.
    pub fn due(&self) -> StateTime
        ensures due { IsDueOrLast (block_rule X.further) self.now.machine.time self.now.machine.board.units result }
        ensures later { self.now.machine.time ≤ result }
    {
        self.core.bus.block.due()
    }

    /// Goes on by one state, and writes what is printed in it; answers which requests the units raise in it, also of those that are
    /// pending already.
    ///
    /// After a fault of the sink it stands at the end of the activity in whose lines the sink failed, or at `until` if that comes
    /// first.
    pub fn step_state<S: Sink, L: Ledger>(
        &mut self,
        until: StateTime,
        out: &mut TraceOut<S>,
        steps: &mut Steps<L>,
    ) -> Result<IntSet, WriteFault>
        requires lives { self.old.machine.ended ≡ None }
        requires ahead { self.old.machine.time < until }
        requires until { until ≤ 2 * max_states }
        requires unbroken { out.old.failed ≡ false }
        ensures forward { self.old.machine.time < self.new.machine.time }
        ensures within { self.new.machine.time ≤ until }
        ensures one { OnOk result (self.new.machine.time ≡ self.old.machine.time + 1) }
        ensures raised { IfOk result (λ set. set.0 ≡ raised_in X.further self.old.machine) }
        ensures machine { self.new.machine ≡ (run_to X.further self.new.machine.time self.old.machine).machine }
        ensures lines { Prints (out_of S.written S.faults out.old) (run_to X.further self.new.machine.time self.old.machine).records (out_of S.written S.faults out.new) }
        ensures written { OnOk result (out.new.failed ≡ false) }
        ensures fails { OnErr result (FailsIn X.further until self.old.machine (out_of S.written S.faults out.old) self.new.machine (out_of S.written S.faults out.new)) }
        ensures spent { steps.new ≤ steps.old + 4 * (run_to X.further self.new.machine.time self.old.machine).touch }
        ensures moves { self.new.moves ≤ self.old.moves + 4 * (run_to X.further self.new.machine.time self.old.machine).touch }
    {
        self.core.step_state(until, out, steps)
    }

    /// Goes on to the end of the run, or to the state `until` if that comes first, and writes what is printed on the way. Units
    /// are called at most four times for each part of the run's touch, and so at most sixteen times for each part of its work.
    ///
    /// After a fault of the sink it stands at the end of the activity, or of the idle state, in whose lines the sink failed.
    #[tactic(auto, using(kc_machine_spec::proofs::Works::touch_is_within_work))]
    pub fn run<S: Sink, L: Ledger>(
        &mut self,
        until: StateTime,
        out: &mut TraceOut<S>,
        steps: &mut Steps<L>,
    ) -> Result<End, WriteFault>
        requires until { until ≤ 2 * max_states }
        requires unbroken { out.old.failed ≡ false }
        ensures end { IfOk result (λ end. end ≡ end_of (run_to X.further until self.old.machine).machine) }
        ensures machine { OnOk result (self.new.machine ≡ (run_to X.further until self.old.machine).machine) }
        ensures lines { Puts (out_of S.written S.faults out.old) (text_of (run_to X.further until self.old.machine).records) (out_of S.written S.faults out.new) }
        ensures written { OnOk result (out.new.failed ≡ false) }
        ensures counts { OnOk result (out.new.counts ≡ counted_all (run_to X.further until self.old.machine).records out.old.counts) }
        ensures fails { OnErr result (FailsIn X.further until self.old.machine (out_of S.written S.faults out.old) self.new.machine (out_of S.written S.faults out.new)) }
        ensures stands { self.new.machine ≡ (run_to X.further self.new.machine.time self.old.machine).machine }
        ensures within { self.new.machine.time ≤ max until self.old.machine.time }
        ensures goes { self.old.machine.ended ≡ None → self.old.machine.time < until → self.old.machine.time < self.new.machine.time }
        ensures spent { steps.new ≤ steps.old + 4 * (run_to X.further self.new.machine.time self.old.machine).touch }
        ensures moves { self.new.moves ≤ self.old.moves + 4 * (run_to X.further self.new.machine.time self.old.machine).touch }
        ensures worked { steps.new ≤ steps.old + 16 * work_to X.further self.new.machine.time self.old.machine }
        ensures worked_moves { self.new.moves ≤ self.old.moves + 16 * work_to X.further self.new.machine.time self.old.machine }
    {
        self.core.run(until, out, steps)
    }

    /// Goes on to the end of the present activity, or of the next one where none is under way, and writes what is printed
    /// on the way. Answers how the run has ended, or `None` while the machine lives; an ended machine writes nothing.
    /// After a fault of the sink it stands at the end of the activity too.
    #[tactic(auto, using(kc_machine_spec::proofs::Works::touch_is_within_work))]
    pub fn step_activity<S: Sink, L: Ledger>(
        &mut self,
        out: &mut TraceOut<S>,
        steps: &mut Steps<L>,
    ) -> Result<Option<End>, WriteFault>
        requires room { self.old.machine.time ≤ 2 * max_states }
        requires unbroken { out.old.failed ≡ false }
        ensures end { IfOk result (λ end. end ≡ (run_to X.further (activity_end self.old.machine) self.old.machine).machine.ended) }
        ensures states { self.old.machine.ended ≡ None → IsBrief self.old.machine }
        ensures time { self.old.machine.ended ≡ None → self.new.machine.time ≡ activity_end self.old.machine }
        ensures machine { self.new.machine ≡ (run_to X.further (activity_end self.old.machine) self.old.machine).machine }
        ensures lines { Puts (out_of S.written S.faults out.old) (text_of (run_to X.further (activity_end self.old.machine) self.old.machine).records) (out_of S.written S.faults out.new) }
        ensures written { OnOk result (out.new.failed ≡ false) }
        ensures counts { OnOk result (out.new.counts ≡ counted_all (run_to X.further (activity_end self.old.machine) self.old.machine).records out.old.counts) }
        ensures fails { OnErr result (FailsIn X.further (activity_end self.old.machine) self.old.machine (out_of S.written S.faults out.old) self.new.machine (out_of S.written S.faults out.new)) }
        ensures spent { steps.new ≤ steps.old + 4 * (run_to X.further (activity_end self.old.machine) self.old.machine).touch }
        ensures moves { self.new.moves ≤ self.old.moves + 4 * (run_to X.further (activity_end self.old.machine) self.old.machine).touch }
        ensures worked { steps.new ≤ steps.old + 16 * work_to X.further (activity_end self.old.machine) self.old.machine }
        ensures worked_moves { self.new.moves ≤ self.old.moves + 16 * work_to X.further (activity_end self.old.machine) self.old.machine }
    {
        self.core.step(out, steps)
    }

    /// The byte at an address as the processor would read it at the start of the present state, without any effect:
    /// below 0018H in WSR's horizontal window, each half of a word register, and 0 where a read is undefined. Below 0018H
    /// the further unit may be moved for it, once.
    pub fn peek(&mut self, addr: u16) -> u8
        ensures value { result ≡ peeked X.further self.old.machine addr }
        ensures same { self.new.machine ≡ self.old.machine }
        ensures moves { self.new.moves ≤ self.old.moves + 1 }
    {
        self.core.peek(addr)
    }

    /// What a byte read of a register below 0018H would give at the start of the present state in a window, without any effect: each
    /// half of a word register, and 0 where a read is undefined. The further unit may be moved for it, once.
    pub fn look(&mut self, window: Window, sfr: u8) -> u8
        requires { sfr < 24 }
        ensures value { result ≡ looked X.further self.old.machine.time window self.old.machine.board.units sfr }
        ensures same { self.new.machine ≡ self.old.machine }
        ensures moves { self.new.moves ≤ self.old.moves + 1 }
    {
        self.core.look(window, sfr)
    }

    /// What stands in the eight slots of HSO at the start of the present state. HSO may be moved for it, once.
    pub fn hso_slots(&mut self) -> [Option<HsoEntry>; 8]
        ensures slots { result ≡ self.old.machine.board.units.hso.slots }
        ensures same { self.new.machine ≡ self.old.machine }
        ensures moves { self.new.moves ≤ self.old.moves + 1 }
    {
        self.core.hso_slots()
    }

    /// The state in which the entry of a slot of HSO fires, as long as nothing is written, no other entry changes Timer 2, and that
    /// goes on by its inner clock alone; None where it never does so, or none stands there. HSO may be moved for it, once.
    pub fn hso_due(&mut self, slot: u8) -> Option<StateTime>
        requires { slot < 8 }
        ensures due { IsEntryDue self.old.machine.board.units self.old.machine.time slot result }
        ensures found { result ≡ entry_due self.old.machine.board.units self.old.machine.time slot }
        ensures same { self.new.machine ≡ self.old.machine }
        ensures moves { self.new.moves ≤ self.old.moves + 1 }
    {
        self.core.hso_due(slot)
    }

    /// What stands in the holding register of HSO, where it is loaded.
    pub fn hso_holding(&self) -> Option<Held>
        ensures { result ≡ self.now.machine.board.units.hso.holding }
    {
        self.core.bus.block.hso_holding()
    }

    /// An entry of the queue of HSI, the oldest at 0; None behind the last one.
    pub fn hsi_waiting(&self, index: usize) -> Option<HsiEntry>
        ensures { result ≡ slice_get self.now.machine.board.units.hsi.fifo index }
    {
        self.core.bus.block.hsi_waiting(index)
    }

    /// What the holding register of HSI holds, where it is loaded.
    pub fn hsi_holding(&self) -> Option<HsiEntry>
        ensures { result ≡ holding_of self.now.machine.board.units.hsi }
    {
        self.core.bus.block.hsi_holding()
    }

    /// The levels of the inputs, bit n pin n: of one without a wire that of its stimuli in the present state, of a wired one that in
    /// the state before.
    pub fn input_levels(&self) -> u64
        ensures { result ≡ levels_shown self.now.machine.time self.now.machine.board.units }
    {
        self.core.bus.block.input_levels()
    }

    /// The levels of HSO0 to HSO5, of port 1 and of P20, P25, P26 and P27, as the chip drives them, bit n pin n.
    pub fn printed_levels(&self) -> u64
        ensures { result ≡ printed self.now.machine.board.units.board_registers self.now.machine.board.units.hso }
    {
        self.core.bus.block.printed_levels()
    }

    /// Changes the byte at an address of memory, ROM too.
    pub fn poke(&mut self, addr: u16, value: u8)
        requires memory { IsMemory addr }
        requires known { is_hole addr ≡ false }
        ensures machine { self.new.machine ≡ poked self.old.machine addr value }
        ensures held { self.new.held ≡ self.old.held }
        ensures moves { self.new.moves ≡ self.old.moves }
    {
        self.core.bus.poke(addr, value);
    }

    /// Writes the line that says how the run has ended.
    pub fn write_end<S: Sink>(&self, how: End, out: &mut TraceOut<S>) -> Result<(), WriteFault>
        requires unbroken { out.old.failed ≡ false }
        requires ran { HasRun how self.now.machine.time }
        ensures line { Puts (out_of S.written S.faults out.old) (line_of (end_line how self.now.machine)) (out_of S.written S.faults out.new) }
        ensures written { OnOk result (out.new.failed ≡ false) }
        ensures failed { OnErr result (out.new.failed ≡ true) }
    {
        put_end(&self.core, how, out);
        out.written()
    }

    /// Writes the lines of the registers.
    pub fn write_registers<S: Sink>(&self, out: &mut TraceOut<S>) -> Result<(), WriteFault>
        requires unbroken { out.old.failed ≡ false }
        ensures lines { Puts (out_of S.written S.faults out.old) (text_of (register_lines self.now.machine)) (out_of S.written S.faults out.new) }
        ensures written { OnOk result (out.new.failed ≡ false) }
        ensures failed { OnErr result (out.new.failed ≡ true) }
    {
        put_state(&self.core, out);
        out.written()
    }

    /// Writes the lines of the end: how the run has ended, and the registers.
    pub fn write_finals<S: Sink>(&self, how: End, out: &mut TraceOut<S>) -> Result<(), WriteFault>
        requires unbroken { out.old.failed ≡ false }
        requires ran { HasRun how self.now.machine.time }
        ensures lines { Puts (out_of S.written S.faults out.old) (text_of (finals how self.now.machine)) (out_of S.written S.faults out.new) }
        ensures written { OnOk result (out.new.failed ≡ false) }
        ensures failed { OnErr result (out.new.failed ≡ true) }
    {
        put_finals(&self.core, how, out);
        out.written()
    }
}
