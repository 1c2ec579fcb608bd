ghost use Rattle.std.specs.Prelude.{◌≡◌, ◌≤◌, ◌<◌, ◌+◌, ◌-◌, ◌*◌, ℕ, Bool, true, false, ◌&&◌, nat_lt, IfOk};
ghost use Rattle.kc_base.specs.Limits.{max_states};
ghost use Rattle.kc_trace.specs.Trace.{out_of};
ghost use Rattle.kc_stim.specs.Drives.{driven_from};
ghost use Rattle.kc_machine_spec.specs.Machine.{start};
ghost use Rattle.kc_cycles.specs.Making.{IsWatched, Lived};
ghost use Rattle.kc_cycles.specs.Lives.{is_reset};

use crate::life::{Ending, live};
use crate::maker::Maker;
use crate::restart::put_restart;
use crate::watchdog::Watchdog;
use kc_base::{Image, NoMemory, Sink, StateTime, Steps};
use kc_extra::{Extra, Pair};
use kc_machine::{End, Machine, WriteFault};
use kc_stim::Stimuli;
use kc_trace::TraceOut;
use std::alloc::Global;
use std::sync::ledger::Ledger;
use thiserror::Error;

/// Why lives were not run to their end.
#[derive(Clone, Copy, Debug, PartialEq, Eq, Error)]
pub enum LivesFault {
    #[error("a write failed")]
    WriteFault,
    #[error("memory was wanted and not had")]
    NoMemory,
}

fn copy_of(alloc: Global, image: &Image) -> Result<Image, NoMemory>
    ensures { IfOk result (λ copy. copy ≡ image.now) }
{
    let mut copy = Image::blank(alloc)?;
    copy.put(0, image.as_slice());
    Ok(copy)
}

/// The machine of the life that begins at a state.
pub fn born<M: Maker>(
    alloc: Global,
    image: &Image,
    stimuli: &Stimuli,
    maker: &M,
    from: StateTime,
) -> Result<Machine<Pair<M::X, Watchdog>>, NoMemory>
    requires { from ≤ max_states }
    ensures unit { IfOk result (λ machine. IsWatched (M.made maker.now stimuli.now from) machine.machine.board.units.further) }
    ensures machine { IfOk result (λ machine. machine.machine ≡ start image.now (driven_from from stimuli.now) machine.machine.board.units.further) }
{
    let unit = maker.make(alloc, stimuli, from)?;
    let later = stimuli.after(alloc, from)?;
    let image = copy_of(alloc, image)?;
    Machine::new(alloc, image, later, Pair::of(unit, Watchdog::new()))
}

// Whether another life follows.
fn is_followed(ending: &Ending, left: u16) -> bool
    ensures { result ≡ (is_reset ending.now.how && nat_lt 1 left) }
{
    matches!(ending.how, End::Reset) && left > 1
}

/// Runs an image with a further unit and the watchdog for `until` states, over at most `lives` lives: a reset begins another
/// one, for which the inputs go on. Writes the text of all, and answers how the last one has ended.
///
/// After an error, what was written is a prefix of the text; where memory has run out, it ends with a life and the line after it.
pub fn run_lives<M: Maker, S: Sink, L: Ledger>(
    alloc: Global,
    image: &Image,
    stimuli: &Stimuli,
    maker: &M,
    until: StateTime,
    lives: u16,
    out: &mut TraceOut<S>,
    steps: &mut Steps<L>,
) -> Result<End, LivesFault>
    requires until { until ≤ max_states }
    requires some { 1 ≤ lives }
    requires unbroken { out.old.failed ≡ false }
    ensures { Lived ⟦<Pair<M::X, Watchdog> as Extra>⟧.further (M.made maker.now stimuli.now) image.now stimuli.now until lives (out_of S.written S.faults out.old) steps.old result (out_of S.written S.faults out.new) steps.new }
{
    let mut from = 0;
    let mut left = lives;
    'lives: loop {
        let mut machine = match born(alloc, image, stimuli, maker, from) {
            Ok(machine) => machine,
            Err(_) => return Err(LivesFault::NoMemory),
        };
        let ending = match live(&mut machine, until - from, out, steps) {
            Ok(ending) => ending,
            Err(_) => return Err(LivesFault::WriteFault),
        };
        if !is_followed(&ending, left) {
            match machine.write_finals(ending.how, out) {
                Ok(()) => return Ok(ending.how),
                Err(_) => return Err(LivesFault::WriteFault),
            }
        }
        let time = machine.now();
        put_restart(time - 1, ending.by_watchdog, out);
        if out.failed() {
            return Err(LivesFault::WriteFault);
        }
        from += time;
        left -= 1;
    }
}
