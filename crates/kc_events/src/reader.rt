// The lines of a trace, one behind the other.
ghost use Rattle.std.specs.Prelude.{◌≡◌, ◌≢◌, ◌+◌, ◌≤◌, ◌&&◌, not, true, None, IfSome};
ghost use Rattle.kc_base.specs.Limits.{max_states};
ghost use Rattle.kc_base.specs.Pins.{is_printed};
ghost use Rattle.kc_events.specs.Printed.{is_short, place_in};
ghost use Rattle.kc_events.specs.Sound.{IsSound};
ghost use Rattle.kc_events.specs.Lines.{IsSoundLine, line_text};
ghost use Rattle.kc_events.specs.Grammar.{Place, start_place, same_level, is_in_order as in_order, is_end as ends, is_of_life as of_life, is_final as is_final_line, is_break as breaks, may_print as prints, may_follow as fits, MayFollow, after_record, after_line, next_stage as stage_after, is_over as has_ended};

use crate::line::Line;
use crate::lines::line_of;
use kc_base::{Edge, Level, MAX_STATES, StateTime};
use kc_trace::{Levels, Record, Signal};
use std::marker::Model;

/// How far a life has come.
#[derive(Clone, Copy)]
pub enum Stage {
    /// It goes on.
    Living,
    /// An undefined use has ended it, in this state.
    Broken(StateTime),
    /// The run has ended, and so many lines stand behind its end.
    Over(u8),
}

/// Reads the lines of a trace, one behind the other.
#[derive(Drop)]
pub struct Reader {
    base: StateTime,
    past: StateTime,
    levels: Levels,
    stage: Stage,
}

impl Model for Reader {
    ghost use Rattle.std.specs.Prelude.{◌≡◌, ◌≤◌, ◌+◌, true};
    ghost use Rattle.kc_events.specs.Printed.{Kept, is_short};
    ghost use Rattle.kc_base.specs.Limits.{max_states};

    ghost Value = { Kept };

    ghost view = { λ r. record { base = r.base; past = r.past; levels = r.levels; stage = r.stage } };

    ghost invariant = { λ r. (r.base ≤ max_states + 1) × (r.past ≤ max_states + 1) × (is_short 19 r.stage ≡ true) };
}

pub(crate) fn is_same(a: Level, b: Level) -> bool
    ensures { result ≡ same_level a b }
{
    if a.is_high() {
        b.is_high()
    } else {
        !b.is_high()
    }
}

// Whether a record is the end by an undefined use of this state.
fn is_break(at: StateTime, item: &Record) -> bool
    ensures { result ≡ breaks at item.now }
{
    match item {
        Record::Stopped { at: t, how } => *how == 3 && *t == at,
        _ => false,
    }
}

// Whether a record stands at this place behind the end.
fn is_final(n: u8, item: &Record) -> bool
    ensures { result ≡ is_final_line n item.now }
{
    match item {
        Record::Pc(_) => n == 0,
        Record::Psw(_) => n == 1,
        Record::Wsr(_) => n == 2,
        Record::Registers { base, .. } => {
            n >= 3 && n < 19 && *base == 32 * u16::from(n.saturating_sub(3))
        }
        _ => false,
    }
}

// One more line behind the end.
fn next_stage(stage: Stage) -> Stage
    requires { is_short 18 stage ≡ true }
    ensures { result ≡ stage_after stage }
{
    match stage {
        Stage::Over(n) => Stage::Over(n + 1),
        _ => Stage::Over(0),
    }
}

impl Reader {
    // Whether a line of this state is no earlier than the line before it.
    fn is_in_order(&self, at: StateTime) -> bool
        requires { at ≤ max_states }
        ensures { result ≡ in_order (place_in self.now) at }
    {
        self.past <= at + 1 && self.base + at <= MAX_STATES
    }

    // Whether an edge moves a printed pin.
    fn moves(&self, edge: Edge) -> bool
        ensures { result ≡ (is_printed edge.pin.0 && not (same_level edge.level ((place_in self.now).levels edge.pin.0))) }
    {
        let signal = Signal::Output(edge.pin);
        signal.is_known() && !is_same(edge.level, self.levels.level(signal))
    }

    // Whether a life may end so.
    fn is_end(&self, at: StateTime, how: u8) -> bool
        requires { at ≤ max_states }
        ensures { result ≡ ends (place_in self.now) at how }
    {
        if how == 0 {
            self.past <= at && self.base + at <= MAX_STATES
        } else {
            how < 3 && self.is_in_order(at)
        }
    }

    // Whether a record may come in a life that goes on.
    fn is_of_life(&self, item: &Record) -> bool
        requires { IsSound item.now }
        ensures { result ≡ of_life (place_in self.now) item.now }
    {
        match item {
            Record::Pin { at, edge } => self.is_in_order(*at) && self.moves(*edge),
            Record::Entered { at, .. } => self.is_in_order(*at),
            Record::Served { at, .. } => self.is_in_order(*at),
            Record::Undef(what) => self.is_in_order(what.at),
            Record::Stopped { at, how } => self.is_end(*at, *how),
            _ => false,
        }
    }

    // Whether a record may come next.
    fn may_print(&self, item: &Record) -> bool
        requires { IsSound item.now }
        ensures { result ≡ prints (place_in self.now) self.now.stage item.now }
    {
        match self.stage {
            Stage::Living => self.is_of_life(item),
            Stage::Broken(at) => is_break(at, item),
            Stage::Over(n) => is_final(n, item),
        }
    }

    // Whether a line may come next.
    fn may_follow(&self, line: &Line) -> bool
        requires { IsSoundLine line.now }
        ensures { result ≡ fits (place_in self.now) line.now }
    {
        match line {
            Line::Printed(item) => self.may_print(item),
            Line::Restarted { at, .. } => match self.stage {
                Stage::Living => self.is_in_order(*at),
                _ => false,
            },
        }
    }

    // Goes behind a record that may come next.
    fn go_record(&mut self, item: &Record)
        requires sound { IsSound item.now }
        requires fits { prints (place_in self.old) self.old.stage item.now ≡ true }
        ensures { place_in self.new ≡ after_record (place_in self.old) item.now }
    {
        match item {
            Record::Pin { at, edge } => {
                self.past = *at + 1;
                self.levels.set(Signal::Output(edge.pin), edge.level);
            }
            Record::Entered { at, .. } => self.past = *at + 1,
            Record::Served { at, .. } => self.past = *at + 1,
            Record::Undef(what) => {
                self.past = what.at + 1;
                self.stage = Stage::Broken(what.at);
            }
            _ => self.stage = next_stage(self.stage),
        }
    }

    // Goes behind a line that may come next.
    fn go(&mut self, line: &Line)
        requires { MayFollow (place_in self.old) line.now }
        ensures { place_in self.new ≡ after_line (place_in self.old) line.now }
    {
        match line {
            Line::Printed(item) => self.go_record(item),
            Line::Restarted { at, .. } => {
                self.base = self.base + *at + 1;
                self.past = 0;
                self.levels = Levels::start();
                self.stage = Stage::Living;
            }
        }
    }

    /// A reader that stands before the first line.
    pub fn new() -> Reader
        ensures { place_in result ≡ start_place 0 }
    {
        Reader {
            base: 0,
            past: 0,
            levels: Levels::start(),
            stage: Stage::Living,
        }
    }

    /// The line whose text this is, where it may come next; `None`, where no line that may come next has this text. Then the
    /// reader stands where it stood.
    pub fn take(&mut self, text: &[u8]) -> Option<Line>
        ensures line { IfSome result (λ line. MayFollow (place_in self.old) line × (line_text line ≡ text.now) × (place_in self.new ≡ after_line (place_in self.old) line)) }
        ensures none { result ≡ None → (line : Line) → MayFollow (place_in self.old) line → line_text line ≢ text.now }
        ensures same { result ≡ None → self.new ≡ self.old }
    {
        let line = line_of(text)?;
        if self.may_follow(&line) {
            self.go(&line);
            Some(line)
        } else {
            None
        }
    }

    /// Whether the lines so far are those of a whole run.
    pub fn is_over(&self) -> bool
        ensures { result ≡ has_ended self.now.stage }
    {
        match self.stage {
            Stage::Over(_) => true,
            _ => false,
        }
    }
}
