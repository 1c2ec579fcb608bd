// A run as a value change dump, written as its steps are read.
ghost use Rattle.std.specs.Prelude.{◌≡◌, ◌≤◌, ℕ, ◌∷◌, [], map, List, None, IfOk, IfSome, OnOk};
ghost use Rattle.kc_base.specs.Series.{up_to};
ghost use Rattle.kc_trace.specs.Tables.{level_in};
ghost use Rattle.kc_events.specs.Steps.{Seen, Begins, Passes, Ends};
ghost use Rattle.kc_events.specs.Grammar.{same_level};
ghost use Rattle.kc_events.specs.Reporting.{AreToCome, IsWrongAt, IfWrong, Counts};
ghost use Rattle.kc_events.specs.Underway.{seen_by};
ghost use Rattle.kc_vcd.specs.declared.variable.Variable.TheVariants.{Wire};
ghost use Rattle.kc_vcd.specs.Changes.{beginning, difference, differences, all_at, change_by as change_of, later as later_by, behind as state_behind, taken, before, after};
ghost use Rattle.kc_vcd.specs.Dump.{dump_of};
ghost use Rattle.kc_vcd.specs.Dumped.{IsDumped};
ghost use Rattle.kc_vcd.specs.Writing.{shown_in, start_of, with_steps, HasReported, HasPut, HasChanged, IsSameLife};

use crate::change::{Change, change_by, put_change};
use crate::shown::Shown;
use crate::variable::Variable;
use crate::writing::put_stamp;
use kc_base::{Level, NoMemory, StateTime};
use kc_byte_source::Source;
use kc_convert::{Analog, Sample};
use kc_events::{Lives, LivesFault, Step};
use kc_stim::Stimuli;
use kc_trace::{Levels, Signal, What};
use std::alloc::Global;
use std::marker::Model;

// A dump that is written: its text, the state of the run that was stamped last, the one in which the life began, whether the next
// life is the first, the levels at the end of the last state, and how many values were put.
#[derive(Drop)]
struct Writer<'a> {
    shown: &'a Shown,
    text: Vec<u8>,
    stamped: StateTime,
    base: StateTime,
    is_first: bool,
    levels: Levels,
    taken: usize,
}

impl<'a> Model for Writer<'a> {
    ghost use Rattle.std.specs.Prelude.{◌≤◌, length, drop};
    ghost use Rattle.kc_vcd.specs.Writing.{Written};

    ghost Value = { Written };

    ghost view = { λ w. record {
      shown = w.shown.now;
      text = w.text.items;
      stamped = w.stamped;
      base = w.base;
      first = w.is_first;
      levels = w.levels;
      samples = drop w.taken w.shown.now.samples;
    } };

    ghost invariant = { λ w. w.taken ≤ length w.shown.now.samples };
}

// So many states behind a state, up to the last number of 64 bits.
fn later(base: StateTime, t: StateTime) -> StateTime
    ensures { result ≡ later_by base t }
{
    base.saturating_add(t)
}

// The state behind those of a life, by its last one.
fn behind(base: StateTime, last: StateTime) -> StateTime
    ensures { result ≡ state_behind base last }
{
    later(later(base, last), 1)
}

fn is_same(a: Level, b: Level) -> bool
    ensures { result ≡ same_level a b }
{
    if a.is_high() {
        b.is_high()
    } else {
        !b.is_high()
    }
}

impl<'a> Writer<'a> {
    // Puts a change with its time, where that is another one than before.
    fn put(&mut self, at: StateTime, change: Change) -> Result<(), NoMemory>
        ensures put { OnOk result (HasPut self.old (record { at = at; change = change } ∷ []) self.new) }
        ensures samples { OnOk result (self.new.samples ≡ self.old.samples) }
        ensures same { OnOk result (IsSameLife self.old self.new) }
    {
        let shown = self.shown;
        put_stamp(&mut self.text, shown.length, self.stamped, at)?;
        self.stamped = at;
        put_change(&mut self.text, change)?;
        Ok(())
    }

    // The next value of an analogue input, where it comes up to a state of the run.
    fn next_value(&mut self, at: StateTime) -> Option<Sample>
        ensures none { result ≡ None → up_to (λ s. s.at) at self.old.samples ≡ [] }
        ensures some { IfSome result (λ s. (self.old.samples ≡ s ∷ self.new.samples) × (s.at ≤ at)) }
        ensures kept { result ≡ None → self.new ≡ self.old }
        ensures same { IsSameLife self.old self.new }
        ensures text { self.new.text ≡ self.old.text }
        ensures stamped { self.new.stamped ≡ self.old.stamped }
    {
        let shown = self.shown;
        match shown.values.samples().get(self.taken) {
            Some(sample) if sample.at <= at => {
                self.taken += 1;
                Some(*sample)
            }
            _ => None,
        }
    }

    // Puts the values of the analogue inputs up to a state of the run, each in its own.
    fn put_values(&mut self, at: StateTime) -> Result<(), NoMemory>
        ensures put { OnOk result (HasPut self.old (taken (up_to (λ s. s.at) at self.old.samples)) self.new) }
        ensures samples { OnOk result (self.new.samples ≡ after at self.old.samples) }
        ensures same { OnOk result (IsSameLife self.old self.new) }
    {
        while let Some(sample) = self.next_value(at) {
            self.put(sample.at, Change::Takes(sample.channel, sample.value))?;
        }
        Ok(())
    }

    // A change in a state of the run, with the values up to it.
    fn change(&mut self, at: StateTime, change: Change) -> Result<(), NoMemory>
        ensures changed { OnOk result (HasChanged self.old (record { at = at; change = change } ∷ []) self.new) }
        ensures same { OnOk result (IsSameLife self.old self.new) }
    {
        self.put_values(at)?;
        self.put(at, change)?;
        Ok(())
    }

    // The level of a signal, where it has another one than at the end of the last state.
    fn change_level(
        &mut self,
        at: StateTime,
        signal: Signal,
        levels: &Levels,
    ) -> Result<(), NoMemory>
        ensures changed { OnOk result (HasChanged self.old (all_at at (difference (level_in self.old.levels) (level_in levels.now) (Wire signal))) self.new) }
        ensures same { OnOk result (IsSameLife self.old self.new) }
    {
        let level = levels.level(signal);
        if is_same(self.levels.level(signal), level) {
            return Ok(());
        }
        self.change(at, Change::Moves(signal, level))?;
        Ok(())
    }

    // The level of a variable, where it is one of a signal that has another one than at the end of the last state.
    fn change_variable(
        &mut self,
        at: StateTime,
        variable: Variable,
        levels: &Levels,
    ) -> Result<(), NoMemory>
        ensures changed { OnOk result (HasChanged self.old (all_at at (difference (level_in self.old.levels) (level_in levels.now) variable)) self.new) }
        ensures same { OnOk result (IsSameLife self.old self.new) }
    {
        match variable {
            Variable::Wire(signal) => self.change_level(at, signal, levels),
            _ => Ok(()),
        }
    }

    // The levels of the signals that a life finds at others than those at the end of the life before it.
    #[tactic(auto, unfolding(crate::specs::Changes::differences))]
    fn change_levels(&mut self, at: StateTime, levels: &Levels) -> Result<(), NoMemory>
        ensures changed { OnOk result (HasChanged self.old (all_at at (differences self.old.shown.variables (level_in self.old.levels) (level_in levels.now))) self.new) }
        ensures same { OnOk result (IsSameLife self.old self.new) }
    {
        let shown = self.shown;
        let mut left = shown.variables.as_slice();
        while let [variable, rest @ ..] = left {
            self.change_variable(at, *variable, levels)?;
            left = rest;
        }
        Ok(())
    }

    // A life begins behind another one. The first one of a run is no event.
    fn change_life(&mut self, at: StateTime) -> Result<(), NoMemory>
        ensures changed { OnOk result (HasChanged self.old (all_at at (beginning self.old.first)) self.new) }
        ensures same { OnOk result (IsSameLife self.old self.new) }
    {
        if self.is_first {
            return Ok(());
        }
        self.change(at, Change::Happens(Variable::Life))?;
        Ok(())
    }

    // A life begins, with these levels before its state 0.
    fn begin(&mut self, levels: &Levels) -> Result<(), NoMemory>
        ensures { OnOk result (HasReported self.old (Begins (level_in levels.now) ∷ []) self.new) }
    {
        let base = self.base;
        self.change_life(base)?;
        self.change_levels(base, levels)?;
        self.is_first = false;
        self.levels = *levels;
        Ok(())
    }

    // What happens in a state of the run.
    fn change_all(&mut self, at: StateTime, whats: &[What]) -> Result<(), NoMemory>
        ensures changed { OnOk result (HasChanged self.old (all_at at (map change_of whats.now)) self.new) }
        ensures same { OnOk result (IsSameLife self.old self.new) }
    {
        let mut left = whats;
        while let [what, rest @ ..] = left {
            self.change(at, change_by(*what))?;
            left = rest;
        }
        Ok(())
    }

    // A state of the life passes, in which this happens.
    fn pass(&mut self, at: StateTime, whats: &[What]) -> Result<(), NoMemory>
        ensures { OnOk result (HasReported self.old (Passes (record { at = at; whats = whats.now }) ∷ []) self.new) }
    {
        self.change_all(later(self.base, at), whats)?;
        self.levels.take_all(whats);
        Ok(())
    }

    // The life ends behind its last state.
    fn end(&mut self, last: StateTime)
        ensures { HasReported self.old (Ends last ∷ []) self.new }
    {
        self.base = behind(self.base, last);
    }

    // Takes the step that was just read.
    fn take<S: Source + Drop>(&mut self, step: Step, lives: &Lives<S>) -> Result<(), NoMemory>
        ensures { OnOk result (HasReported self.old (seen_by step lives.now.course ∷ []) self.new) }
    {
        match step {
            Step::Begins => self.begin(lives.levels())?,
            Step::Passes(at) => self.pass(at, lives.whats())?,
            Step::Ends(last) => self.end(last),
        }
        Ok(())
    }

    // Puts the values of the analogue inputs before a state of the run.
    fn put_before(&mut self, end: StateTime) -> Result<(), NoMemory>
        ensures put { OnOk result (HasPut self.old (taken (before end self.old.samples)) self.new) }
        ensures same { OnOk result (IsSameLife self.old self.new) }
    {
        if end == 0 {
            return Ok(());
        }
        self.put_values(end - 1)?;
        Ok(())
    }

    // The end of the run, with the values before it.
    fn finish(&mut self) -> Result<(), NoMemory>
        ensures { OnOk result (self.new.text ≡ with_steps self.old []) }
    {
        let base = self.base;
        self.put_before(base)?;
        self.put(base, Change::Unseen)?;
        Ok(())
    }
}

// A dump with its declarations and its levels before state 0.
fn begun(alloc: Global, shown: &Shown) -> Result<Writer<'_>, NoMemory>
    ensures { IfOk result (λ writer. writer ≡ start_of shown.now) }
{
    let mut text = Vec::new(alloc);
    shown.put_prefix(&mut text)?;
    Ok(Writer {
        shown,
        text,
        stamped: 0,
        base: 0,
        is_first: true,
        levels: shown.start,
        taken: 0,
    })
}

// The text, once the run is over.
fn ended(writer: Writer<'_>) -> Result<Vec<u8>, NoMemory>
    ensures { IfOk result (λ text. text.items ≡ with_steps writer.entry []) }
{
    let mut writer = writer;
    writer.finish()?;
    let Writer { text, .. } = writer;
    Ok(text)
}

// Writes a run to its end.
fn report<S: Source + Drop>(writer: &mut Writer<'_>, lives: &mut Lives<S>) -> Result<(), LivesFault>
    requires { lives.old.stopped ≡ None }
    ensures reported { OnOk result ((steps : List Seen) × AreToCome lives.old steps × HasReported writer.old steps writer.new) }
    ensures wrong { IfWrong result (IsWrongAt lives.old) }
    ensures faults { Counts lives.old.trace.faults result lives.new.trace.faults }
{
    for _ in 0..u64::MAX {
        match lives.next_step() {
            Ok(Some(step)) => {
                if writer.take(step, lives).is_err() {
                    return Err(LivesFault::NoMemory);
                }
            }
            Ok(None) => return Ok(()),
            Err(fault) => return Err(fault),
        }
    }
    Err(LivesFault::NoMemory)
}

// The dump of a run, to its end.
fn dump_of_lives<S: Source + Drop>(
    alloc: Global,
    shown: &Shown,
    lives: &mut Lives<S>,
) -> Result<Vec<u8>, LivesFault>
    requires { lives.old.stopped ≡ None }
    ensures dump { IfOk result (λ text. (steps : List Seen) × AreToCome lives.old steps × (text.items ≡ dump_of (shown_in shown.now) steps)) }
    ensures wrong { IfWrong result (IsWrongAt lives.old) }
    ensures faults { Counts lives.old.trace.faults result lives.new.trace.faults }
{
    let Ok(mut writer) = begun(alloc, shown) else {
        return Err(LivesFault::NoMemory);
    };
    match report(&mut writer, lives) {
        Ok(()) => match ended(writer) {
            Ok(text) => Ok(text),
            Err(NoMemory) => Err(LivesFault::NoMemory),
        },
        Err(fault) => Err(fault),
    }
}

/// The dump (IEEE 1364) of the run whose trace a source gives, and whose inputs these stimuli and values drive, of a board whose
/// oscillator has so many hertz; or the fault that has ended it. Times are in picoseconds; a change stands at the beginning of its
/// state, and the states of each life stand behind those of the life before it. Memory grows with the dump. The source comes back, with
/// as many faults as it has counted; where memory runs out before its first read, it is dropped.
pub fn dump_run<S: Source + Drop>(
    alloc: Global,
    clock: u32,
    stimuli: Stimuli,
    values: Analog,
    source: S,
) -> Result<(S, Result<Vec<u8>, LivesFault>), NoMemory>
    requires { 1 ≤ clock }
    ensures answer { IfOk result (λ r. IsDumped clock stimuli values (S.to_come source) r.1) }
    ensures faults { IfOk result (λ r. Counts (S.faults source) r.1 (S.faults r.0)) }
{
    let shown = Shown::new(alloc, clock, &stimuli, values)?;
    let mut lives = Lives::new(alloc, source, stimuli)?;
    let dump = dump_of_lives(alloc, &shown, &mut lives);
    Ok((lives.into_source(), dump))
}
