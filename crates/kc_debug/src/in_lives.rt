// Scripts that are carried out over the lives of a board.
ghost use Rattle.std.specs.Prelude.{◌≡◌, ◌≤◌, [], None, IfOk, false};
ghost use Rattle.circular_buffer.specs.Buffer.{buffer};
ghost use Rattle.kc_trace.specs.Trace.{out_of};
ghost use Rattle.kc_debug.specs.Debugging.{HasAnswered, IsBorn};

use crate::life::{DebuggedLife, carry_out};
use crate::past::Past;
use crate::session::{command_at, first_begun, is_quit};
use crate::showing::REPORTED;
use arrayvec::ArrayVec;
use circular_buffer::HeapCircularBuffer;
use kc_base::{Image, NoMemory, Sink, Steps};
use kc_cycles::{LivesFault, Maker, Watchdog, born};
use kc_debug_script::{LineMap, Script};
use kc_extra::{Extra, Pair};
use kc_machine::End;
use kc_stim::Stimuli;
use kc_trace::TraceOut;
use std::alloc::Global;
use std::sync::ledger::Ledger;

/// What each life of a board is made of, and how many there are at most.
#[derive(Drop)]
pub struct Lives<'a, M: Maker> {
    pub image: &'a Image,
    pub stimuli: &'a Stimuli,
    pub maker: &'a M,
    pub most: u16,
}

fn first_past(alloc: Global) -> Result<HeapCircularBuffer<Past>, NoMemory>
    ensures { IfOk result (λ past. past ≡ buffer [] 32) }
{
    let past = HeapCircularBuffer::with_capacity(alloc, REPORTED)?;
    Ok(past)
}

// The first life, before the first command.
fn first_life<M: Maker>(
    alloc: Global,
    lives: &Lives<'_, M>,
) -> Result<DebuggedLife<Pair<M::X, Watchdog>>, NoMemory>
    ensures number { IfOk result (λ life. life.number ≡ 1) }
    ensures from { IfOk result (λ life. life.from ≡ 0) }
    ensures born { IfOk result (λ life. IsBorn (M.made lives.now.maker.now lives.now.stimuli.now) lives.now.image.now lives.now.stimuli.now 0 life.machine.machine) }
    ensures over { IfOk result (λ life. life.over ≡ None) }
    ensures breaks { IfOk result (λ life. life.breaks.items ≡ []) }
    ensures past { IfOk result (λ life. life.past ≡ buffer [] 32) }
    ensures begun { IfOk result (λ life. life.begun ≡ buffer [] 33) }
{
    let machine = born(alloc, lives.image, lives.stimuli, lives.maker, 0)?;
    let past = first_past(alloc)?;
    let begun = first_begun(alloc, REPORTED)?;
    Ok(DebuggedLife {
        number: 1,
        from: 0,
        machine,
        over: None,
        breaks: ArrayVec::new(),
        past,
        begun,
    })
}

/// Carries out a script over the lives of a board, with the source lines of a map, and writes its transcript. Answers how the last
/// life has ended, or `Spent` while it lives. A reset begins another life, in which the script goes on with its next command, while
/// lives are left and the inputs are known, up to state 10^15 of what drives them.
///
/// After an error, what was written is a prefix of the transcript; after out of memory it ends with the line between two lives.
pub fn debug_lives<M: Maker, S: Sink, L: Ledger>(
    alloc: Global,
    lives: &Lives<'_, M>,
    script: &Script,
    lines: &LineMap,
    out: &mut TraceOut<S>,
    steps: &mut Steps<L>,
) -> Result<End, LivesFault>
    requires some { 1 ≤ lives.now.most }
    requires unbroken { out.old.failed ≡ false }
    ensures { HasAnswered ⟦<Pair<M::X, Watchdog> as Extra>⟧.further (M.made lives.now.maker.now lives.now.stimuli.now) lives.now.image.now lives.now.stimuli.now lives.now.most lines.now script.now (out_of S.written S.faults out.old) result (out_of S.written S.faults out.new) }
{
    let mut life = match first_life(alloc, lives) {
        Ok(life) => life,
        Err(_) => return Err(LivesFault::NoMemory),
    };
    let commands = script.commands();
    for index in 0..commands.len() {
        let command = command_at(commands, index);
        if is_quit(command) {
            return Ok(life.over.unwrap_or(End::Spent));
        }
        match carry_out(alloc, lives, lines, &mut life, command, out, steps) {
            Ok(()) => {}
            Err(fault) => return Err(fault),
        }
    }
    Ok(life.over.unwrap_or(End::Spent))
}
