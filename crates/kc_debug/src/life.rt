// The life of a board that is debugged.
ghost use Rattle.std.specs.Prelude.{◌≡◌, ◌+◌, ◌*◌, ◌-◌, ◌<◌, ◌≤◌, ◌++◌, ◌&&◌, ◌∷◌, [], max, nat_lt, nat_le, length, count_by, map, IfErr, OnOk, false, true};
ghost use Rattle.circular_buffer.specs.Buffer.{buffer, keep_last};
ghost use Rattle.kc_base.specs.Limits.{max_states};
ghost use Rattle.kc_trace.specs.Out.{Puts};
ghost use Rattle.kc_trace.specs.Trace.{out_of};
ghost use Rattle.kc_machine_spec.specs.Text.{HasRun};
ghost use Rattle.kc_cycles.specs.declared.lives.LivesFault.TheVariants as faults;
ghost use Rattle.kc_cycles.specs.Lives.{is_reset, restart_line};
ghost use Rattle.kc_cycles.specs.Making.{deadline_of};
ghost use Rattle.kc_debug_script.specs.Commands.{IsBounded};
ghost use Rattle.kc_debug_script.specs.Script.{is_break};
ghost use Rattle.kc_debug.specs.Activities.{finished};
ghost use Rattle.kc_debug.specs.Debugging.{how_of, is_spent as may_go_on, last_of, over_by, over_text, past_in, seen, standing, Goes, IsBorn, IsHeld, IsReady};
ghost use Rattle.kc_debug.specs.InLives.{after_command, followed, gone_for, history, settled, stand_line as line_of_stand_in_life};
ghost use Rattle.kc_debug.specs.Stops.{states_of_activities, states_of_run};

use crate::activities::Begun;
use crate::in_lives::Lives;
use crate::lines::stand_line_in_life;
use crate::living::{go_in_life, step_in_life};
use crate::past::{Past, count_finished, keep_finished, report_earlier, report_present};
use crate::showing::{REPORTED, show};
use crate::stops::Breaks;
use arrayvec::ArrayVec;
use circular_buffer::HeapCircularBuffer;
use kc_base::{MAX_STATES, NoMemory, Sink, StateTime, Steps};
use kc_cycles::{LivesFault, Maker, Watchdog, born, put_restart};
use kc_debug_script::{Command, LineMap};
use kc_extra::{Extra, Pair};
use kc_machine::{End, Machine};
use kc_trace::TraceOut;
use std::alloc::Global;
use std::sync::ledger::Ledger;

/// A life by its number, from 1 on, and by the state of what drives the inputs at which it began.
#[derive(Drop)]
pub(crate) struct DebuggedLife<X: Extra + Drop> {
    pub(crate) number: u16,
    pub(crate) from: StateTime,
    pub(crate) machine: Machine<X>,
    /// How it has ended, where no other one follows it.
    pub(crate) over: Option<End>,
    pub(crate) breaks: ArrayVec<u16, 16>,
    pub(crate) past: HeapCircularBuffer<Past>,
    pub(crate) begun: HeapCircularBuffer<Begun>,
}

// Whether all was written.
fn written<S: Sink>(out: &TraceOut<S>) -> Result<(), LivesFault>
    ensures written { OnOk result (out.now.failed ≡ false) }
    ensures fault { IfErr result (λ fault. fault ≡ faults.WriteFault) }
    ensures failed { IfErr result (λ fault. out.now.failed ≡ true) }
{
    if out.failed() {
        Err(LivesFault::WriteFault)
    } else {
        Ok(())
    }
}

// Reports where the life stands.
fn report_stand<X: Extra + Drop, S: Sink>(
    life: &DebuggedLife<X>,
    out: &mut TraceOut<S>,
) -> Result<(), LivesFault>
    ensures text { Puts (out_of S.written S.faults out.old) (line_of_stand_in_life life.now.number life.now.machine.machine) (out_of S.written S.faults out.new) }
    ensures written { OnOk result (out.new.failed ≡ false) }
    ensures fault { IfErr result (λ fault. fault ≡ faults.WriteFault) }
    ensures failed { IfErr result (λ fault. out.new.failed ≡ true) }
{
    out.put_text(stand_line_in_life(&life.machine, life.number).as_slice());
    written(out)
}

// Reports the last activities that have finished, oldest first.
fn report_history<X: Extra + Drop, S: Sink>(
    life: &DebuggedLife<X>,
    lines: &LineMap,
    out: &mut TraceOut<S>,
) -> Result<(), LivesFault>
    ensures text { Puts (out_of S.written S.faults out.old) (history lines.now (seen life.now)) (out_of S.written S.faults out.new) }
    ensures written { OnOk result (out.new.failed ≡ false) }
    ensures fault { IfErr result (λ fault. fault ≡ faults.WriteFault) }
    ensures failed { IfErr result (λ fault. out.new.failed ≡ true) }
{
    let earlier = life.past.len();
    let present = count_finished(life.begun.len(), life.machine.between());
    let first = (earlier + present).saturating_sub(REPORTED);
    report_earlier(lines, &life.past, first, out);
    report_present(
        lines,
        life.number,
        &life.begun,
        first.saturating_sub(earlier),
        present,
        out,
    );
    written(out)
}

// How a life has ended that the watchdog has ended, or has not; `Spent` while it lives.
fn how_in<X: Extra + Drop>(machine: &Machine<X>, by_watchdog: bool) -> End
    ensures { result ≡ how_of by_watchdog machine.now.machine }
{
    if by_watchdog {
        End::Reset
    } else {
        machine.ended().unwrap_or(End::Spent)
    }
}

// Whether another life begins behind this one, which has ended so.
fn is_followed<X: Extra + Drop>(life: &DebuggedLife<X>, how: End, most: u16) -> bool
    requires from { life.now.from ≤ max_states }
    requires time { life.now.machine.machine.time ≤ 2 * max_states }
    ensures { result ≡ (is_reset how && (nat_lt life.now.number most && nat_le (life.now.from + life.now.machine.machine.time) max_states)) }
{
    matches!(how, End::Reset)
        && (life.number < most && life.from + life.machine.now() <= MAX_STATES)
}

fn is_spent(how: End) -> bool
    ensures { result ≡ may_go_on how }
{
    matches!(how, End::Spent)
}

// Notes how a life has ended that goes no further, and reports it; a life that was spent goes on with the next command.
fn report_over<X: Extra + Drop, S: Sink>(
    life: &mut DebuggedLife<X>,
    how: End,
    out: &mut TraceOut<S>,
)
    requires unbroken { out.old.failed ≡ false }
    requires ran { HasRun how life.old.machine.machine.time }
    ensures text { Puts (out_of S.written S.faults out.old) (over_text how life.old.machine.machine) (out_of S.written S.faults out.new) }
    ensures over { life.new ≡ record life.old { over = over_by how life.old.over } }
{
    if is_spent(how) {
        return;
    }
    life.over = Some(how);
    let _written = life.machine.write_end(how, out);
}

// Where none follows a life, reports its end if it has come, and where the board stands.
fn stay<X: Extra + Drop, S: Sink>(
    life: &mut DebuggedLife<X>,
    how: End,
    out: &mut TraceOut<S>,
) -> Result<(), LivesFault>
    requires unbroken { out.old.failed ≡ false }
    requires ran { HasRun how life.old.machine.machine.time }
    ensures text { Puts (out_of S.written S.faults out.old) (over_text how life.old.machine.machine ++ line_of_stand_in_life life.old.number life.old.machine.machine) (out_of S.written S.faults out.new) }
    ensures over { life.new ≡ record life.old { over = over_by how life.old.over } }
    ensures written { OnOk result (out.new.failed ≡ false) }
    ensures fault { IfErr result (λ fault. fault ≡ faults.WriteFault) }
    ensures failed { IfErr result (λ fault. out.new.failed ≡ true) }
{
    report_over(life, how, out);
    report_stand(life, out)
}

// Writes the line between two lives, and begins the next one.
fn begin_next<M: Maker, S: Sink>(
    alloc: Global,
    lives: &Lives<'_, M>,
    life: &mut DebuggedLife<Pair<M::X, Watchdog>>,
    by_watchdog: bool,
    out: &mut TraceOut<S>,
) -> Result<(), LivesFault>
    requires unbroken { out.old.failed ≡ false }
    requires held { IsHeld life.old.past life.old.begun }
    requires more { life.old.number < lives.now.most }
    requires fits { life.old.from + life.old.machine.machine.time ≤ max_states }
    requires ran { 0 < life.old.machine.machine.time }
    ensures line { Puts (out_of S.written S.faults out.old) (restart_line (life.old.machine.machine.time - 1) by_watchdog) (out_of S.written S.faults out.new) }
    ensures next { OnOk result (life.new ≡ record life.old { number = life.old.number + 1; from = life.old.from + life.old.machine.machine.time; machine = life.new.machine; past = buffer (keep_last 32 (life.old.past.items ++ map (past_in life.old.number) (finished life.old.machine.machine.under_way life.old.begun.items))) 32; begun = buffer [] 33 }) }
    ensures born { OnOk result (IsBorn (M.made lives.now.maker.now lives.now.stimuli.now) lives.now.image.now lives.now.stimuli.now (life.old.from + life.old.machine.machine.time) life.new.machine.machine) }
    ensures written { OnOk result (out.new.failed ≡ false) }
    ensures failed { IfErr result (λ fault. fault ≡ faults.WriteFault → out.new.failed ≡ true) }
    ensures wanting { IfErr result (λ fault. fault ≡ faults.NoMemory → out.new.failed ≡ false) }
{
    let time = life.machine.now();
    put_restart(time - 1, by_watchdog, out);
    if out.failed() {
        return Err(LivesFault::WriteFault);
    }
    let present = count_finished(life.begun.len(), life.machine.between());
    keep_finished(&mut life.past, life.number, &life.begun, present);
    life.begun.clear();
    life.from += time;
    life.number += 1;
    match born(alloc, lives.image, lives.stimuli, lives.maker, life.from) {
        Ok(machine) => {
            life.machine = machine;
            Ok(())
        }
        Err(NoMemory) => Err(LivesFault::NoMemory),
    }
}

// Begins the next life behind this one, and reports where the board stands.
fn follow<M: Maker, S: Sink>(
    alloc: Global,
    lives: &Lives<'_, M>,
    life: &mut DebuggedLife<Pair<M::X, Watchdog>>,
    by_watchdog: bool,
    out: &mut TraceOut<S>,
) -> Result<(), LivesFault>
    requires unbroken { out.old.failed ≡ false }
    requires held { IsHeld life.old.past life.old.begun }
    requires more { life.old.number < lives.now.most }
    requires fits { life.old.from + life.old.machine.machine.time ≤ max_states }
    requires ran { 0 < life.old.machine.machine.time }
    ensures goes { Goes (M.made lives.now.maker.now lives.now.stimuli.now) (λ unit. standing (followed ⟦<Pair<M::X, Watchdog> as Extra>⟧.further deadline_of lives.now.image.now lives.now.stimuli.now unit lives.now.most (last_of by_watchdog life.old.machine.machine) (seen life.old))) (out_of S.written S.faults out.old) result life.new (out_of S.written S.faults out.new) }
    ensures time { OnOk result (life.new.machine.machine.time ≡ 0) }
{
    match begin_next(alloc, lives, life, by_watchdog, out) {
        Ok(()) => report_stand(life, out),
        Err(fault) => Err(fault),
    }
}

// Where a life is over, begins the next one or reports the end; and reports where the board stands.
fn settle<M: Maker, S: Sink>(
    alloc: Global,
    lives: &Lives<'_, M>,
    life: &mut DebuggedLife<Pair<M::X, Watchdog>>,
    by_watchdog: bool,
    out: &mut TraceOut<S>,
) -> Result<(), LivesFault>
    requires unbroken { out.old.failed ≡ false }
    requires ready { IsReady life.old }
    requires time { life.old.machine.machine.time ≤ 2 * max_states }
    requires ran { HasRun (how_of by_watchdog life.old.machine.machine) life.old.machine.machine.time }
    ensures goes { Goes (M.made lives.now.maker.now lives.now.stimuli.now) (λ unit. standing (settled ⟦<Pair<M::X, Watchdog> as Extra>⟧.further deadline_of lives.now.image.now lives.now.stimuli.now unit lives.now.most (last_of by_watchdog life.old.machine.machine) (seen life.old))) (out_of S.written S.faults out.old) result life.new (out_of S.written S.faults out.new) }
    ensures time { OnOk result (life.new.machine.machine.time ≤ life.old.machine.machine.time) }
{
    let how = how_in(&life.machine, by_watchdog);
    if is_followed(life, how, lives.most) {
        follow(alloc, lives, life, by_watchdog, out)
    } else {
        stay(life, how, out)
    }
}

// Goes on by activities, in this life alone.
fn step<M: Maker, S: Sink, L: Ledger>(
    alloc: Global,
    lives: &Lives<'_, M>,
    life: &mut DebuggedLife<Pair<M::X, Watchdog>>,
    count: u32,
    out: &mut TraceOut<S>,
    steps: &mut Steps<L>,
) -> Result<(), LivesFault>
    requires unbroken { out.old.failed ≡ false }
    requires ready { IsReady life.old }
    requires room { life.old.machine.machine.time + 255 * count ≤ 2 * max_states }
    ensures goes { Goes (M.made lives.now.maker.now lives.now.stimuli.now) (λ unit. gone_for ⟦<Pair<M::X, Watchdog> as Extra>⟧.further deadline_of lives.now.image.now lives.now.stimuli.now unit lives.now.most (states_of_activities ⟦<Pair<M::X, Watchdog> as Extra>⟧.further count life.old.machine.machine) (seen life.old)) (out_of S.written S.faults out.old) result life.new (out_of S.written S.faults out.new) }
    ensures time { OnOk result (life.new.machine.machine.time ≤ life.old.machine.machine.time + 255 * count) }
{
    if life.over.is_some() {
        return report_stand(life, out);
    }
    match step_in_life(&mut life.begun, count, &mut life.machine, out, steps) {
        Ok(by_watchdog) => settle(alloc, lives, life, by_watchdog, out),
        Err(_) => Err(LivesFault::WriteFault),
    }
}

// Goes on to a state or a breakpoint, in this life alone.
fn go<M: Maker, S: Sink, L: Ledger>(
    alloc: Global,
    lives: &Lives<'_, M>,
    life: &mut DebuggedLife<Pair<M::X, Watchdog>>,
    until: StateTime,
    out: &mut TraceOut<S>,
    steps: &mut Steps<L>,
) -> Result<(), LivesFault>
    requires unbroken { out.old.failed ≡ false }
    requires ready { IsReady life.old }
    requires room { until ≤ 2 * max_states }
    requires time { life.old.machine.machine.time ≤ 2 * max_states }
    ensures goes { Goes (M.made lives.now.maker.now lives.now.stimuli.now) (λ unit. gone_for ⟦<Pair<M::X, Watchdog> as Extra>⟧.further deadline_of lives.now.image.now lives.now.stimuli.now unit lives.now.most (states_of_run ⟦<Pair<M::X, Watchdog> as Extra>⟧.further life.old.breaks.items until life.old.machine.machine) (seen life.old)) (out_of S.written S.faults out.old) result life.new (out_of S.written S.faults out.new) }
    ensures time { OnOk result (life.new.machine.machine.time ≤ max until life.old.machine.machine.time) }
{
    if life.over.is_some() {
        return report_stand(life, out);
    }
    let addresses = life.breaks.as_slice();
    let mut stops = Breaks { addresses };
    match go_in_life(
        &mut life.begun,
        &mut stops,
        until,
        &mut life.machine,
        out,
        steps,
    ) {
        Ok(by_watchdog) => settle(alloc, lives, life, by_watchdog, out),
        Err(_) => Err(LivesFault::WriteFault),
    }
}

/// Carries out a command in a life, and in the next one where a reset begins it.
pub(crate) fn carry_out<M: Maker, S: Sink, L: Ledger>(
    alloc: Global,
    lives: &Lives<'_, M>,
    lines: &LineMap,
    life: &mut DebuggedLife<Pair<M::X, Watchdog>>,
    command: Command,
    out: &mut TraceOut<S>,
    steps: &mut Steps<L>,
) -> Result<(), LivesFault>
    requires unbroken { out.old.failed ≡ false }
    requires bounded { IsBounded command }
    requires ready { IsReady life.old }
    requires few { length life.old.breaks.items + count_by is_break (command ∷ []) ≤ 16 }
    requires room { life.old.machine.machine.time + 255000000 ≤ 2 * max_states }
    ensures goes { Goes (M.made lives.now.maker.now lives.now.stimuli.now) (λ unit. after_command ⟦<Pair<M::X, Watchdog> as Extra>⟧.further deadline_of lives.now.image.now lives.now.stimuli.now unit lives.now.most lines.now command (seen life.old)) (out_of S.written S.faults out.old) result life.new (out_of S.written S.faults out.new) }
    ensures time { OnOk result (life.new.machine.machine.time ≤ max max_states life.old.machine.machine.time + 255000000) }
{
    match command {
        Command::Step(count) => step(alloc, lives, life, count, out, steps),
        Command::Go(until) => go(alloc, lives, life, until, out, steps),
        Command::Break(addr) => {
            life.breaks.push(addr);
            Ok(())
        }
        Command::Registers => match life.machine.write_registers(out) {
            Ok(()) => Ok(()),
            Err(_) => Err(LivesFault::WriteFault),
        },
        Command::Show { from, count } => match show(&mut life.machine, from, count, out) {
            Ok(()) => Ok(()),
            Err(_) => Err(LivesFault::WriteFault),
        },
        Command::Write { addr, value } => {
            life.machine.poke(addr, value);
            Ok(())
        }
        Command::History => report_history(life, lines, out),
        Command::Quit => Ok(()),
    }
}
