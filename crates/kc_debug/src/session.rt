// Sessions: a script that is carried out over a machine.
ghost use Rattle.std.specs.Prelude.{◌≡◌, ◌+◌, ◌*◌, ◌<◌, ◌≤◌, max, [], ◌∷◌, ◌++◌, length, drop, count_by, IfOk, IfErr, OnOk, OnErr, false, true};
ghost use Rattle.kc_base.specs.Limits.{max_states};
ghost use Rattle.circular_buffer.specs.Buffer.{buffer, keep_last};
ghost use Rattle.kc_trace.specs.Out.{Puts};
ghost use Rattle.kc_machine_spec.specs.Run.{end_of};
ghost use Rattle.kc_debug_script.specs.Commands.{IsBounded};
ghost use Rattle.kc_debug_script.specs.declared.fault.DebugFault.TheVariants as faults;
ghost use Rattle.kc_debug_script.specs.Script.{is_break, AreBounded};
ghost use Rattle.kc_debug.specs.Faults.{ReportsFault};
ghost use Rattle.kc_debug.specs.Activities.{begun_for};
ghost use Rattle.kc_debug.specs.Passing.{Gone, Spends};
ghost use Rattle.kc_debug.specs.Stops.{activity_states, states_at_once, states_of_activities, states_of_run};
ghost use Rattle.kc_debug.specs.Transcript.{after_command, gone_for, quits, transcript, untouched};
ghost use Rattle.kc_debug.specs.Sitting.{seen};
ghost use Rattle.kc_debug.specs.Stands.{at_once_in, bytes_of, bytes_shown, states_of, touch_in, touch_of, FailsIn, StandsIn};

use crate::activities::Begun;
use crate::carrying::{go, step};
use crate::showing::{REPORTED, report_history, report_stand, show};
use crate::stops::Breaks;
use arrayvec::ArrayVec;
use circular_buffer::HeapCircularBuffer;
use kc_base::{NoMemory, Sink, StateTime, Steps};
use kc_debug_script::{Command, DebugFault, LineMap, Script};
use kc_extra::Extra;
use kc_machine::{End, Machine, WriteFault};
use kc_trace::TraceOut;
use std::alloc::Global;
use std::marker::Model;
use std::sync::ledger::Ledger;

/// The breakpoints of a script so far, and the last activities that have begun.
#[derive(Drop)]
pub(crate) struct Sitting {
    pub(crate) breaks: ArrayVec<u16, 16>,
    pub(crate) begun: HeapCircularBuffer<Begun>,
}

/// A debugger with a line map. It carries out scripts, each from its own beginning, without breakpoints and without activities.
#[derive(Drop)]
pub struct Session {
    lines: LineMap,
    sitting: Sitting,
}

impl Model for Session {
    ghost use Rattle.std.specs.Prelude.{◌≡◌, List};
    ghost use Rattle.kc_debug_script.specs.declared.line_map.MapEntry.{MapEntry};

    ghost Value = { List MapEntry };

    ghost view = { λ s. s.lines };

    ghost invariant = { λ s. s.sitting.begun.capacity ≡ 33 };
}

/// No activity, with room for as many as are reported and for one that is under way.
pub fn first_begun(alloc: Global, reported: usize) -> Result<HeapCircularBuffer<Begun>, NoMemory>
    requires { reported ≤ 4096 }
    ensures { IfOk result (λ begun. begun ≡ buffer [] (reported + 1)) }
{
    let begun = HeapCircularBuffer::with_capacity(alloc, reported + 1)?;
    Ok(begun)
}

pub(crate) fn is_quit(command: Command) -> bool
    ensures { result ≡ quits command }
{
    matches!(command, Command::Quit)
}

pub(crate) fn command_at(commands: &[Command], index: usize) -> Command
    requires within { index < length commands.now }
    requires bounded { AreBounded commands.now }
    ensures here { drop index commands.now ≡ result ∷ drop (index + 1) commands.now }
    ensures bounded { IsBounded result }
{
    commands[index]
}

impl Sitting {
    ghost use Rattle.kc_trace.specs.Trace.{out_of};

    // Goes on by activities, and reports where the machine stands.
    fn step<X: Extra + Drop, S: Sink, L: Ledger>(
        &mut self,
        count: u32,
        machine: &mut Machine<X>,
        out: &mut TraceOut<S>,
        steps: &mut Steps<L>,
    ) -> Result<(), WriteFault>
        requires kept { self.old.begun ≡ buffer (keep_last 33 self.old.begun.items) 33 }
        requires room { machine.old.machine.time + 255 * count ≤ 2 * max_states }
        requires unbroken { out.old.failed ≡ false }
        ensures text { Puts (out_of S.written S.faults out.old) (gone_for X.further (states_of_activities X.further count machine.old.machine) (seen machine.old.machine self.old)).text (out_of S.written S.faults out.new) }
        ensures gone { OnOk result (Gone X.further (states_of_activities X.further count machine.old.machine) machine.old.machine self.old.begun machine.new.machine self.new.begun) }
        ensures begun { OnOk result (self.new.begun ≡ buffer (keep_last 33 (self.old.begun.items ++ begun_for X.further (states_of_activities X.further count machine.old.machine) machine.old.machine)) 33) }
        ensures fails { OnErr result (FailsIn X.further activity_states (states_of_activities X.further count machine.old.machine) (gone_for X.further (states_of_activities X.further count machine.old.machine) (seen machine.old.machine self.old)).text machine.old.machine (out_of S.written S.faults out.old) machine.new.machine (out_of S.written S.faults out.new)) }
        ensures spent { Spends X.further (states_of_activities X.further count machine.old.machine) machine.old steps.old machine.new steps.new }
        ensures time { machine.new.machine.time ≤ machine.old.machine.time + 255 * count }
        ensures capacity { self.new.begun.capacity ≡ 33 }
        ensures breaks { self.new.breaks ≡ self.old.breaks }
        ensures fault { ReportsFault result out.new.failed }
    {
        let before = machine.ended();
        step(&mut self.begun, count, machine, out, steps)?;
        report_stand(before, machine, out)
    }

    // Goes on to a state or a breakpoint, and reports where the machine stands.
    fn go<X: Extra + Drop, S: Sink, L: Ledger>(
        &mut self,
        until: StateTime,
        machine: &mut Machine<X>,
        out: &mut TraceOut<S>,
        steps: &mut Steps<L>,
    ) -> Result<(), WriteFault>
        requires kept { self.old.begun ≡ buffer (keep_last 33 self.old.begun.items) 33 }
        requires room { until ≤ 2 * max_states }
        requires unbroken { out.old.failed ≡ false }
        ensures text { Puts (out_of S.written S.faults out.old) (gone_for X.further (states_of_run X.further self.old.breaks.items until machine.old.machine) (seen machine.old.machine self.old)).text (out_of S.written S.faults out.new) }
        ensures gone { OnOk result (Gone X.further (states_of_run X.further self.old.breaks.items until machine.old.machine) machine.old.machine self.old.begun machine.new.machine self.new.begun) }
        ensures begun { OnOk result (self.new.begun ≡ buffer (keep_last 33 (self.old.begun.items ++ begun_for X.further (states_of_run X.further self.old.breaks.items until machine.old.machine) machine.old.machine)) 33) }
        ensures fails { OnErr result (FailsIn X.further (states_at_once until) (states_of_run X.further self.old.breaks.items until machine.old.machine) (gone_for X.further (states_of_run X.further self.old.breaks.items until machine.old.machine) (seen machine.old.machine self.old)).text machine.old.machine (out_of S.written S.faults out.old) machine.new.machine (out_of S.written S.faults out.new)) }
        ensures spent { Spends X.further (states_of_run X.further self.old.breaks.items until machine.old.machine) machine.old steps.old machine.new steps.new }
        ensures time { machine.new.machine.time ≤ max until machine.old.machine.time }
        ensures capacity { self.new.begun.capacity ≡ 33 }
        ensures breaks { self.new.breaks ≡ self.old.breaks }
        ensures fault { ReportsFault result out.new.failed }
    {
        let before = machine.ended();
        let addresses = self.breaks.as_slice();
        let mut stops = Breaks { addresses };
        go(&mut self.begun, &mut stops, until, machine, out, steps)?;
        report_stand(before, machine, out)
    }

    // Carries out a command.
    fn carry_out<X: Extra + Drop, S: Sink, L: Ledger>(
        &mut self,
        lines: &LineMap,
        command: Command,
        machine: &mut Machine<X>,
        out: &mut TraceOut<S>,
        steps: &mut Steps<L>,
    ) -> Result<(), WriteFault>
        requires bounded { IsBounded command }
        requires kept { self.old.begun ≡ buffer (keep_last 33 self.old.begun.items) 33 }
        requires few { length self.old.breaks.items + count_by is_break (command ∷ []) ≤ 16 }
        requires room { machine.old.machine.time + 255000000 ≤ 2 * max_states }
        requires unbroken { out.old.failed ≡ false }
        ensures text { Puts (out_of S.written S.faults out.old) (after_command X.further lines.now command (seen machine.old.machine self.old)).text (out_of S.written S.faults out.new) }
        ensures machine { OnOk result (machine.new.machine ≡ (after_command X.further lines.now command (seen machine.old.machine self.old)).machine) }
        ensures breaks { OnOk result (self.new.breaks.items ≡ (after_command X.further lines.now command (seen machine.old.machine self.old)).breaks) }
        ensures begun { OnOk result (self.new.begun ≡ buffer (keep_last 33 (after_command X.further lines.now command (seen machine.old.machine self.old)).begun) 33) }
        ensures fails { OnErr result (FailsIn X.further (at_once_in command) (states_of X.further command (seen machine.old.machine self.old)) (after_command X.further lines.now command (seen machine.old.machine self.old)).text machine.old.machine (out_of S.written S.faults out.old) machine.new.machine (out_of S.written S.faults out.new)) }
        ensures spent { steps.new ≤ steps.old + 4 * touch_in X.further command (seen machine.old.machine self.old) }
        ensures moves { machine.new.moves ≤ machine.old.moves + (4 * touch_in X.further command (seen machine.old.machine self.old) + bytes_of command) }
        ensures time { machine.new.machine.time ≤ max max_states machine.old.machine.time + 255000000 }
        ensures capacity { self.new.begun.capacity ≡ 33 }
        ensures fault { ReportsFault result out.new.failed }
    {
        match command {
            Command::Step(count) => self.step(count, machine, out, steps),
            Command::Go(until) => self.go(until, machine, out, steps),
            Command::Break(addr) => {
                self.breaks.push(addr);
                Ok(())
            }
            Command::Registers => machine.write_registers(out),
            Command::Show { from, count } => show(machine, from, count, out),
            Command::Write { addr, value } => {
                machine.poke(addr, value);
                Ok(())
            }
            Command::History => report_history(lines, &self.begun, machine, out),
            Command::Quit => Ok(()),
        }
    }

    // Carries out commands from no breakpoint and no activity on, up to the first that ends the script.
    fn carry_out_all<X: Extra + Drop, S: Sink, L: Ledger>(
        &mut self,
        lines: &LineMap,
        commands: &[Command],
        machine: &mut Machine<X>,
        out: &mut TraceOut<S>,
        steps: &mut Steps<L>,
    ) -> Result<(), WriteFault>
        requires bounded { AreBounded commands.now }
        requires breaks { self.old.breaks.items ≡ [] }
        requires begun { self.old.begun ≡ buffer [] 33 }
        requires room { machine.old.machine.time ≤ max_states }
        requires unbroken { out.old.failed ≡ false }
        ensures text { Puts (out_of S.written S.faults out.old) (transcript X.further lines.now commands.now machine.old.machine).text (out_of S.written S.faults out.new) }
        ensures machine { OnOk result (machine.new.machine ≡ (transcript X.further lines.now commands.now machine.old.machine).machine) }
        ensures stands { OnErr result (StandsIn X.further lines.now commands.now machine.old.machine (out_of S.written S.faults out.old) machine.new.machine (out_of S.written S.faults out.new)) }
        ensures spent { steps.new ≤ steps.old + 4 * touch_of X.further lines.now commands.now (untouched machine.old.machine) }
        ensures moves { machine.new.moves ≤ machine.old.moves + (4 * touch_of X.further lines.now commands.now (untouched machine.old.machine) + bytes_shown commands.now) }
        ensures capacity { self.new.begun.capacity ≡ 33 }
        ensures fault { ReportsFault result out.new.failed }
    {
        for index in 0..commands.len() {
            let command = command_at(commands, index);
            if is_quit(command) {
                return Ok(());
            }
            self.carry_out(lines, command, machine, out, steps)?;
        }
        Ok(())
    }
}

impl Session {
    ghost use Rattle.kc_trace.specs.Trace.{out_of};

    /// A session without source lines. The only refusal is that memory ran out.
    pub fn new(alloc: Global) -> Result<Session, DebugFault>
        ensures lines { IfOk result (λ session. session ≡ []) }
        ensures fault { IfErr result (λ fault. fault ≡ faults.NoMemory) }
    {
        Session::with_lines(alloc, LineMap::none(alloc))
    }

    /// A session with the source lines of a map. The only refusal is that memory ran out.
    pub fn with_lines(alloc: Global, lines: LineMap) -> Result<Session, DebugFault>
        ensures lines { IfOk result (λ session. session ≡ lines) }
        ensures fault { IfErr result (λ fault. fault ≡ faults.NoMemory) }
    {
        let begun = first_begun(alloc, REPORTED)?;
        let breaks = ArrayVec::new();
        Ok(Session {
            lines,
            sitting: Sitting { breaks, begun },
        })
    }

    /// Carries out a script over a machine that stands at state 10^15 at most, from no breakpoint and no activity on, and writes
    /// its transcript. Answers how the machine has ended, or `Spent` while it lives. The only refusal is that the sink failed;
    /// a prefix of the transcript is written then, and the machine stands at the end of the activity, or of the idle state, in whose
    /// lines the sink failed, or where the command left it whose other text was not written. The last 254 states before the one
    /// that `g` names pass one by one, so it stands at the end of such a state. Units are called at most four times the touch of the
    /// states that pass.
    pub fn run_script<X: Extra + Drop, S: Sink, L: Ledger>(
        &mut self,
        script: &Script,
        machine: &mut Machine<X>,
        out: &mut TraceOut<S>,
        steps: &mut Steps<L>,
    ) -> Result<End, DebugFault>
        requires room { machine.old.machine.time ≤ max_states }
        requires unbroken { out.old.failed ≡ false }
        ensures text { Puts (out_of S.written S.faults out.old) (transcript X.further self.old script.now machine.old.machine).text (out_of S.written S.faults out.new) }
        ensures machine { OnOk result (machine.new.machine ≡ (transcript X.further self.old script.now machine.old.machine).machine) }
        ensures stands { OnErr result (StandsIn X.further self.old script.now machine.old.machine (out_of S.written S.faults out.old) machine.new.machine (out_of S.written S.faults out.new)) }
        ensures spent { steps.new ≤ steps.old + 4 * touch_of X.further self.old script.now (untouched machine.old.machine) }
        ensures moves { machine.new.moves ≤ machine.old.moves + (4 * touch_of X.further self.old script.now (untouched machine.old.machine) + bytes_shown script.now) }
        ensures end { IfOk result (λ end. end ≡ end_of (transcript X.further self.old script.now machine.old.machine).machine) }
        ensures written { OnOk result (out.new.failed ≡ false) }
        ensures fault { IfErr result (λ fault. fault ≡ faults.WriteFault) }
        ensures failed { OnErr result (out.new.failed ≡ true) }
        ensures lines { self.new ≡ self.old }
    {
        self.sitting.breaks.clear();
        self.sitting.begun.clear();
        match self
            .sitting
            .carry_out_all(&self.lines, script.commands(), machine, out, steps)
        {
            Ok(()) => Ok(machine.ended().unwrap_or(End::Spent)),
            Err(_) => Err(DebugFault::WriteFault),
        }
    }
}
