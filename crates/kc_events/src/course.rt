// What happens in the lives of a run, one state at a time.
ghost use Rattle.std.specs.Prelude.{◌≡◌, ℕ, ◌+◌, ◌-◌, ◌<◌, ◌≤◌, ◌∷◌, [], List, true, false, None, Some, Ok, IfOk, OnOk};
ghost use Rattle.kc_base.specs.Limits.{max_states};
ghost use Rattle.kc_trace.specs.Tables.{level_in};
ghost use Rattle.kc_stim.specs.Drives.{IsStill};
ghost use Rattle.kc_events.specs.declared.line.Line.{Line};
ghost use Rattle.kc_events.specs.Sound.{IsSound};
ghost use Rattle.kc_events.specs.Lines.{IsSoundLine};
ghost use Rattle.kc_events.specs.Lives.{event_of as events_by, end_event as end_by, restart_event as restart_by, count_at};
ghost use Rattle.kc_events.specs.Coming.{events_ahead, start_of, steps_to_come, rest_at, others_of, behind, AreDueIf, MayCome, MayBeNext, IsStillIn, GoesOn, HasSameRest, HasPassed, IsFed};
ghost use Rattle.kc_events.specs.Underway.{present_in, running_in, state_passed, needs_line as wants, base_ahead, base_behind, IsOpen, IsEarly, IsEarlyEvent, IsEarlyEnd, Stepped, KeepsBase, IsSameLife};

use crate::inputs::{put_edges, start_levels};
use crate::line::Line;
use kc_base::{NoMemory, StateTime};
use kc_stim::Stimuli;
use kc_trace::{Event, Levels, Record, Signal, What};
use std::alloc::Global;
use std::marker::Model;

/// A step of a run.
#[derive(Clone, Copy)]
pub enum Step {
    /// A life begins.
    Begins,
    /// The state of this number has passed, in which something has happened.
    Passes(StateTime),
    /// The life has ended behind the state of this number. One without a state does not report it.
    Ends(StateTime),
}

/// What is known of the end of a life.
#[derive(Clone, Copy)]
pub enum Known {
    /// Nothing: it goes on.
    Living,
    /// It has so many states, and another one follows, or none.
    Ending { count: StateTime, is_followed: bool },
    /// It has ended, and the run with it.
    Ended,
}

/// Gives the steps of a run by the lines of its trace, which it is fed one at a time, and by what drives the inputs. It keeps the
/// events of one state.
#[derive(Drop)]
pub struct Course {
    stimuli: Stimuli,
    base: StateTime,
    time: StateTime,
    levels: Levels,
    whats: Vec<What>,
    has_begun: bool,
    passed: Vec<What>,
    ahead: Option<Event>,
    known: Known,
}

impl Model for Course {
    ghost use Rattle.kc_events.specs.Underway.{Underway, IsSteady};

    ghost Value = { Underway };

    ghost view = { λ c. record {
      drives = c.stimuli;
      base = c.base;
      time = c.time;
      levels = c.levels;
      whats = c.whats.items;
      has_begun = c.has_begun;
      passed = c.passed.items;
      ahead = c.ahead;
      known = c.known;
    } };

    ghost invariant = { λ c. IsSteady (record {
      drives = c.stimuli;
      base = c.base;
      time = c.time;
      levels = c.levels;
      whats = c.whats.items;
      has_begun = c.has_begun;
      passed = c.passed.items;
      ahead = c.ahead;
      known = c.known;
    }) };
}

fn event(at: StateTime, what: What) -> Option<Event>
    ensures { result ≡ Some (record { at = at; what = what }) }
{
    Some(Event { at, what })
}

// What a record that is no end reports.
fn event_of(item: &Record) -> Option<Event>
    ensures reported { events_ahead result ≡ events_by item.now }
    ensures early { IsSound item.now → IsEarlyEvent result }
{
    match item {
        Record::Pin { at, edge } => event(*at, What::Edge(Signal::Output(edge.pin), edge.level)),
        Record::Entered { at, vector, .. } => event(*at, What::Entry(*vector)),
        Record::Served { at, vector, .. } => event(*at, What::Transfer(*vector)),
        Record::Undef(what) => event(what.at, What::Undefined),
        _ => None,
    }
}

// What ends a run, where that is no undefined use, which has a line of its own.
fn end_event(at: StateTime, how: u8) -> Option<Event>
    ensures reported { events_ahead result ≡ end_by at how }
    ensures early { at ≤ max_states → IsEarlyEvent result }
{
    match how {
        1 => event(at, What::Powerdown),
        2 => event(at, What::Reset),
        _ => None,
    }
}

// What resets the chip.
fn restart_event(at: StateTime, by_watchdog: bool) -> Event
    ensures { result ≡ restart_by at by_watchdog }
{
    let what = if by_watchdog {
        What::Watchdog
    } else {
        What::Reset
    };
    Event { at, what }
}

// How many states a life has that a run ends so.
fn count_of(at: StateTime, how: u8) -> StateTime
    requires { at ≤ max_states }
    ensures { result ≡ count_at at how }
{
    if how == 0 { at } else { at + 1 }
}

// What a record reports, and what is known of the end then.
fn record_news(item: &Record) -> (Option<Event>, Known)
    requires { IsSound item.now }
    ensures fed { IsFed (Line.Printed item.now) result.0 result.1 }
    ensures early { IsEarlyEvent result.0 }
    ensures end { (base : ℕ) → IsEarlyEnd base result.1 }
    ensures goes { GoesOn result.1 }
    ensures base { (base : ℕ) → IsOpen result.1 → base_ahead base result.1 ≡ base }
{
    match item {
        Record::Stopped { at, how } => (
            end_event(*at, *how),
            Known::Ending {
                count: count_of(*at, *how),
                is_followed: false,
            },
        ),
        _ => (event_of(item), Known::Living),
    }
}

// What a line reports, and what is known of the end then.
fn news(line: &Line) -> (Option<Event>, Known)
    requires { IsSoundLine line.now }
    ensures fed { IsFed line.now result.0 result.1 }
    ensures early { IsEarlyEvent result.0 }
    ensures end { (base : ℕ) → IsEarly base Known.Living line.now → IsEarlyEnd base result.1 }
    ensures goes { GoesOn result.1 }
    ensures base { (base : ℕ) → IsOpen result.1 → base_ahead base result.1 ≡ base_behind base line.now }
{
    match line {
        Line::Printed(item) => record_news(item),
        Line::Restarted { at, by_watchdog } => (
            Some(restart_event(*at, *by_watchdog)),
            Known::Ending {
                count: *at + 1,
                is_followed: true,
            },
        ),
    }
}

// The first state of a life behind this one in which the stimuli move an input, up to a state.
fn next_state(stimuli: &Stimuli, base: StateTime, now: StateTime, at: StateTime) -> StateTime
    requires order { now < at }
    requires base { base ≤ max_states + 1 }
    requires at { at ≤ max_states + 1 }
    ensures later { now < result }
    ensures within { result ≤ at }
    ensures still { (t : ℕ) → now < t → t < result → IsStill stimuli.now.stimuli (base + t) }
{
    match stimuli.next_edge(base + now + 1) {
        Some(edge) => at.min(edge - base),
        None => at,
    }
}

impl Course {
    /// The course of a run of which no line is known.
    pub fn new(alloc: Global, stimuli: Stimuli) -> Result<Course, NoMemory>
        ensures present { IfOk result (λ c. present_in c ≡ start_of stimuli 0) }
        ensures ahead { IfOk result (λ c. c.ahead ≡ None) }
        ensures known { IfOk result (λ c. c.known ≡ Known.Living) }
        ensures still { IfOk result (λ c. IsStillIn (present_in c)) }
    {
        let levels = start_levels(&stimuli, 0);
        let mut whats = Vec::new(alloc);
        put_edges(&mut whats, &stimuli, &levels, 0)?;
        Ok(Course {
            stimuli,
            base: 0,
            time: 0,
            levels,
            whats,
            has_begun: false,
            passed: Vec::new(alloc),
            ahead: None,
            known: Known::Living,
        })
    }

    /// Whether no step is left that the lines so far report, so that the next line is needed.
    pub fn needs_line(&self) -> bool
        ensures { result ≡ wants self.now.ahead self.now.known }
    {
        match (self.ahead, self.known) {
            (None, Known::Living) => true,
            (None, Known::Ended) => true,
            _ => false,
        }
    }

    /// Takes the next line of the trace.
    pub fn feed(&mut self, line: &Line)
        requires needs { wants self.old.ahead self.old.known ≡ true }
        requires sound { IsSoundLine line.now }
        requires early { IsEarly self.old.base self.old.known line.now }
        ensures steps { (lines : List Line) → steps_to_come (running_in self.new) lines ≡ steps_to_come (running_in self.old) (line.now ∷ lines) }
        ensures next { (lines : List Line) → MayBeNext (running_in self.old) (line.now ∷ lines) → MayBeNext (running_in self.new) lines }
        ensures base { IsOpen self.new.known → base_ahead self.new.base self.new.known ≡ base_behind self.old.base line.now }
        ensures lives { IsOpen self.new.known → self.old.known ≡ Known.Living }
        ensures present { present_in self.new ≡ present_in self.old }
    {
        if let Known::Ended = self.known {
            return;
        }
        let (ahead, known) = news(line);
        self.ahead = ahead;
        self.known = known;
    }

    /// The next step that the lines so far report; none, where the next line is needed. Once memory has run out nothing is known.
    pub fn next_step(&mut self) -> Result<Option<Step>, NoMemory>
        requires { IsStillIn (present_in self.old) }
        ensures stepped { IfOk result (λ next. Stepped self.old next self.new) }
        ensures needs { result ≡ Ok None → wants self.new.ahead self.new.known ≡ true }
        ensures base { OnOk result (KeepsBase self.old self.new) }
        ensures still { OnOk result (IsStillIn (present_in self.new)) }
    {
        let step = self.step_ahead()?;
        if step.is_some() {
            return Ok(step);
        }
        match self.known {
            Known::Ending { count, is_followed } => self.finish(count, is_followed),
            _ => Ok(None),
        }
    }

    // The next step on the way to the event that is reported; none, where it has happened, or none is reported.
    fn step_ahead(&mut self) -> Result<Option<Step>, NoMemory>
        requires { IsStillIn (present_in self.old) }
        ensures stepped { IfOk result (λ next. Stepped self.old next self.new) }
        ensures happened { result ≡ Ok None → self.new.ahead ≡ None }
        ensures known { OnOk result (self.new.known ≡ self.old.known) }
        ensures base { OnOk result (self.new.base ≡ self.old.base) }
        ensures still { OnOk result (IsStillIn (present_in self.new)) }
    {
        match self.ahead {
            Some(event) => self.step_to(event),
            None => Ok(None),
        }
    }

    // The next step on the way to an event that is reported; none, where the event has happened.
    fn step_to(&mut self, event: Event) -> Result<Option<Step>, NoMemory>
        requires ahead { self.old.ahead ≡ Some event }
        requires still { IsStillIn (present_in self.old) }
        ensures stepped { IfOk result (λ next. Stepped self.old next self.new) }
        ensures happened { result ≡ Ok None → self.new.ahead ≡ None }
        ensures known { OnOk result (self.new.known ≡ self.old.known) }
        ensures base { OnOk result (self.new.base ≡ self.old.base) }
        ensures still { OnOk result (IsStillIn (present_in self.new)) }
    {
        if !self.has_begun {
            self.has_begun = true;
            return Ok(Some(Step::Begins));
        }
        if self.reach(event.at)? {
            return Ok(Some(Step::Passes(self.time - 1)));
        }
        self.whats.push(event.what)?;
        self.ahead = None;
        Ok(None)
    }

    // The next step of a life that has so many states; none, where it and the run have ended.
    fn finish(&mut self, count: StateTime, is_followed: bool) -> Result<Option<Step>, NoMemory>
        requires known { self.old.known ≡ Known.Ending count is_followed }
        requires ahead { self.old.ahead ≡ None }
        requires still { IsStillIn (present_in self.old) }
        ensures stepped { IfOk result (λ next. Stepped self.old next self.new) }
        ensures needs { result ≡ Ok None → wants self.new.ahead self.new.known ≡ true }
        ensures base { OnOk result (KeepsBase self.old self.new) }
        ensures still { OnOk result (IsStillIn (present_in self.new)) }
    {
        if !self.has_begun {
            self.has_begun = true;
            return Ok(Some(Step::Begins));
        }
        if self.reach(count)? {
            return Ok(Some(Step::Passes(self.time - 1)));
        }
        self.end(count, is_followed)?;
        if count == 0 {
            Ok(None)
        } else {
            Ok(Some(Step::Ends(count - 1)))
        }
    }

    // Goes on to a state, or behind the first one before it in which something happens: whether there is one.
    fn reach(&mut self, at: StateTime) -> Result<bool, NoMemory>
        requires early { at ≤ max_states + 1 }
        requires begun { self.old.has_begun ≡ true }
        requires still { IsStillIn (present_in self.old) }
        ensures passed { result ≡ Ok true → HasPassed at (present_in self.old) (state_passed self.new) (present_in self.new) }
        ensures within { result ≡ Ok true → self.new.time ≤ at }
        ensures some { result ≡ Ok true → 0 < self.new.time }
        ensures reached { result ≡ Ok false → HasSameRest at (present_in self.old) (present_in self.new) }
        ensures there { result ≡ Ok false → self.old.time ≤ at → self.new.time ≡ at }
        ensures kept { OnOk result (IsSameLife self.old self.new) }
        ensures still { OnOk result (IsStillIn (present_in self.new)) }
    {
        while self.time < at {
            if !self.whats.is_empty() {
                self.pass()?;
                return Ok(true);
            }
            self.skip(at)?;
        }
        Ok(false)
    }

    // Goes behind the present state.
    fn pass(&mut self) -> Result<(), NoMemory>
        requires early { self.old.time ≤ max_states }
        ensures present { OnOk result (present_in self.new ≡ behind (present_in self.old)) }
        ensures passed { OnOk result (self.new.passed ≡ self.old.whats) }
        ensures kept { OnOk result (IsSameLife self.old self.new) }
        ensures still { OnOk result (IsStillIn (present_in self.new)) }
    {
        self.levels.take_all(self.whats.as_slice());
        std::mem::swap(&mut self.passed, &mut self.whats);
        self.whats.clear();
        self.time += 1;
        put_edges(
            &mut self.whats,
            &self.stimuli,
            &self.levels,
            self.base + self.time,
        )
    }

    // Goes on to a state, or to the first one before it in which the stimuli move an input.
    fn skip(&mut self, at: StateTime) -> Result<(), NoMemory>
        requires order { self.old.time < at }
        requires early { at ≤ max_states + 1 }
        requires still { self.old.whats ≡ [] }
        requires begun { self.old.has_begun ≡ true }
        requires quiet { IsStillIn (present_in self.old) }
        ensures same { OnOk result (HasSameRest at (present_in self.old) (present_in self.new)) }
        ensures goes { OnOk result (self.old.time < self.new.time) }
        ensures within { OnOk result (self.new.time ≤ at) }
        ensures kept { OnOk result (IsSameLife self.old self.new) }
        ensures still { OnOk result (IsStillIn (present_in self.new)) }
    {
        self.time = next_state(&self.stimuli, self.base, self.time, at);
        put_edges(
            &mut self.whats,
            &self.stimuli,
            &self.levels,
            self.base + self.time,
        )
    }

    // Ends a life of so many states: another one is to begin behind it, or the run has ended.
    fn end(&mut self, count: StateTime, is_followed: bool) -> Result<(), NoMemory>
        requires known { self.old.known ≡ Known.Ending count is_followed }
        requires ahead { self.old.ahead ≡ None }
        requires still { IsStillIn (present_in self.old) }
        ensures rest { OnOk result ((lines : List Line) → rest_at (present_in self.new) [] self.new.known lines ≡ others_of is_followed self.old.drives (self.old.base + count) lines) }
        ensures coming { OnOk result ((lines : List Line) → AreDueIf is_followed lines → MayCome self.new.time self.new.known lines) }
        ensures needs { OnOk result (wants self.new.ahead self.new.known ≡ true) }
        ensures base { OnOk result (KeepsBase self.old self.new) }
        ensures still { OnOk result (IsStillIn (present_in self.new)) }
        ensures ahead { self.new.ahead ≡ None }
    {
        if !is_followed {
            self.known = Known::Ended;
            return Ok(());
        }
        self.known = Known::Living;
        self.base += count;
        self.time = 0;
        self.has_begun = false;
        self.levels = start_levels(&self.stimuli, self.base);
        self.whats.clear();
        put_edges(&mut self.whats, &self.stimuli, &self.levels, self.base)
    }

    /// What has happened in the state that has passed last.
    pub fn whats(&self) -> &[What]
        ensures { result.now ≡ self.now.passed }
    {
        self.passed.as_slice()
    }

    /// The level of each signal, at the end of the state that has passed last, or before state 0 of a life that begins.
    pub fn levels(&self) -> &Levels
        ensures { result.now ≡ self.now.levels }
    {
        &self.levels
    }
}
