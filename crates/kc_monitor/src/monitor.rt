// A rule over a life: its scope, and the machine of its form.
ghost use Rattle.std.specs.Prelude.{◌≡◌, ◌<◌, ◌≤◌, ◌+◌, ◌^◌, ℕ, Bool, Option, List, [], ◌∷◌, ◌++◌, Some, true, false, OnOk, IfSome};
ghost use Rattle.kc_trace.specs.Tables.{level_in};
ghost use Rattle.kc_rules.specs.declared.rule.Form.{Form};
ghost use Rattle.kc_monitor_forms.specs.declared.obligation.Point.{Point};
ghost use Rattle.kc_monitor_forms.specs.Apart.{Times};
ghost use Rattle.kc_monitor_forms.specs.Machines.{IsOrderedFrom};
ghost use Rattle.kc_monitor_forms.specs.Tallies.{none, one_more};
ghost use Rattle.kc_monitor.specs.Rules.{point_at};
ghost use Rattle.kc_monitor.specs.Machines as machines;
ghost use Rattle.kc_monitor.specs.Watching as spec;
ghost use Rattle.kc_monitor.specs.Watching.{Moment};

use crate::machine::Machine;
use crate::matching::{Seen, holds, is_begin, is_edge, is_one, is_seen};
use kc_base::NoMemory;
use kc_monitor_forms::{Point, Tally};
use kc_rules::{Atom, Form, Rule, When};
use kc_trace::{Levels, What};
use std::alloc::Global;

/// What a rule has seen of the lives so far.
#[derive(Drop)]
pub struct Monitor {
    machine: Machine,
    life: u64,
    /// The first state of the scope, where it is known.
    from: Option<u64>,
    /// Whether the scope has begun to be seen.
    begun: bool,
    /// Whether it is over.
    closed: bool,
    /// Whether the two signals of `apart` have their levels.
    one: bool,
    other: bool,
    tally: Tally,
}

fn point(form: &Form, at: u64, what: What, marks: &[bool], levels: &Levels) -> Point
    ensures { result ≡ point_at (level_in levels.now) form.now at what marks.now }
{
    match form {
        Form::Never(events) | Form::InLife(_, events) => Point {
            at,
            event: is_one(events.atoms(), what, marks, levels),
            from: false,
            to: false,
        },
        Form::After(each, _, events, _, _) => Point {
            at,
            event: is_one(events.atoms(), what, marks, levels),
            from: is_one(each.atoms(), what, marks, levels),
            to: false,
        },
        Form::At(events, _, from, to, _) => Point {
            at,
            event: is_one(events.atoms(), what, marks, levels),
            from: is_one(from.atoms(), what, marks, levels),
            to: is_one(to.atoms(), what, marks, levels),
        },
        Form::InEach(_, events, from, to) => Point {
            at,
            event: is_one(events.atoms(), what, marks, levels),
            from: is_one(from.atoms(), what, marks, levels),
            to: is_one(to.atoms(), what, marks, levels),
        },
        Form::For(steady, _) | Form::ForShare(steady, _) => Point {
            at,
            event: is_edge(steady.signal, what),
            from: is_begin(*steady, what),
            to: false,
        },
        Form::Every(events, _) => Point {
            at,
            event: is_one(events.atoms(), what, marks, levels),
            from: true,
            to: false,
        },
        Form::Apart(_, _, _) => Point {
            at,
            event: false,
            from: false,
            to: false,
        },
    }
}

fn is_any(atoms: &[Atom], seens: &[Seen], levels: &Levels) -> bool
    ensures { result ≡ spec.is_any atoms.now seens.now (level_in levels.now) }
{
    seens.iter().any(|seen| is_seen(atoms, seen, levels))
}

// Whether an event of a scope comes.
fn comes(when: &Option<When>, seens: &[Seen], levels: &Levels) -> bool
    ensures { result ≡ spec.comes when.now seens.now (level_in levels.now) }
{
    match when {
        None => false,
        Some(When::State(_)) => false,
        Some(When::Events(events)) => is_any(events.atoms(), seens, levels),
    }
}

fn state_of(when: &Option<When>) -> Option<u64>
    ensures { result ≡ spec.state_of when.now }
{
    match when {
        None => None,
        Some(When::State(at)) => Some(*at),
        Some(When::Events(_)) => None,
    }
}

fn past(end: Option<u64>, at: u64) -> Option<u64>
    ensures { result ≡ spec.past end at }
{
    match end {
        None => None,
        Some(end) => { if end <= at { Some(end) } else { None } }
    }
}

// The first state behind the scope, where it is over in a state.
fn end_now(when: &Option<When>, at: u64, seens: &[Seen], levels: &Levels) -> Option<u64>
    ensures { result ≡ spec.end_now when.now at seens.now (level_in levels.now) }
{
    if comes(when, seens, levels) {
        Some(at)
    } else {
        past(state_of(when), at)
    }
}

fn end_by(end: Option<u64>, last: u64) -> u64
    ensures { last < 2 ^ 63 → result ≡ spec.end_by end last }
{
    let behind = last.saturating_add(1);
    match end {
        None => behind,
        Some(end) => end.min(behind),
    }
}

// The first state of the scope as a life begins, where it is known.
fn first_by(when: &Option<When>) -> Option<u64>
    ensures { result ≡ spec.first_by when.now }
{
    match when {
        None => Some(0),
        Some(When::State(at)) => Some(*at),
        Some(When::Events(_)) => None,
    }
}

fn from_after(
    when: &Option<When>,
    from: Option<u64>,
    at: u64,
    seens: &[Seen],
    levels: &Levels,
) -> Option<u64>
    ensures { result ≡ spec.from_after when.now from at seens.now (level_in levels.now) }
{
    match from {
        Some(first) => Some(first),
        None => {
            if comes(when, seens, levels) {
                Some(at)
            } else {
                None
            }
        }
    }
}

impl Monitor {
    /// Before the first life.
    pub(crate) fn new(alloc: Global, rule: &Rule) -> Monitor
        ensures { (result.life ≡ 0) × (result.tally ≡ none) }
    {
        Monitor {
            machine: Machine::of(alloc, &rule.form),
            life: 0,
            from: None,
            begun: false,
            closed: false,
            one: false,
            other: false,
            tally: Tally::new(),
        }
    }

    fn set_levels(&mut self, form: &Form, levels: &Levels)
        ensures { self.new ≡ record self.old {
          one = spec.one_at form.now (level_in levels.now) self.old.one;
          other = spec.other_at form.now (level_in levels.now) self.old.other;
        } }
    {
        match form {
            Form::Apart(one, other, _) => {
                self.one = holds(*one, levels);
                self.other = holds(*other, levels);
            }
            _ => {}
        }
    }

    /// A life begins, at these levels.
    pub(crate) fn begin(&mut self, alloc: Global, rule: &Rule, levels: &Levels)
        ensures same { self.new ≡ record {
          machine = self.new.machine;
          life = one_more self.old.life;
          from = spec.first_by rule.now.scope.from;
          begun = false;
          closed = false;
          one = spec.one_at rule.now.form (level_in levels.now) false;
          other = spec.other_at rule.now.form (level_in levels.now) false;
          tally = self.old.tally;
        } }
        ensures begun { machines.IsBegun rule.now.form self.new.machine }
    {
        self.machine = Machine::of(alloc, &rule.form);
        self.life = self.life.saturating_add(1);
        self.from = first_by(&rule.scope.from);
        self.begun = false;
        self.closed = false;
        self.one = false;
        self.other = false;
        self.set_levels(&rule.form, levels);
    }

    // A state comes, in which the two signals have their levels or not.
    fn level(&mut self, at: u64)
        ensures same { self.new ≡ record self.old { machine = self.new.machine; tally = self.new.tally } }
        ensures ready { (next : ℕ) → machines.IsReady self.old.life self.old.tally self.old.machine next → machines.IsReady self.old.life self.new.tally self.new.machine next }
        ensures level { machines.IsLevel self.new.machine self.old.one self.old.other }
        ensures total { (first end : ℕ) (points : List Point) (one other : Times) → at < end → one at ≡ self.old.one → other at ≡ self.old.other →
            machines.machine_total self.old.life self.old.tally self.old.machine first end points one other at
            ≡ machines.machine_total self.old.life self.new.tally self.new.machine first end points one other (at + 1) }
    {
        self.machine
            .level(self.life, at, self.one, self.other, &mut self.tally);
    }

    // A point comes.
    fn take_point(&mut self, point: Point) -> Result<(), NoMemory>
        ensures same { self.new ≡ record self.old { machine = self.new.machine; tally = self.new.tally } }
        ensures ready { OnOk result (machines.IsReady self.old.life self.old.tally self.old.machine point.at → machines.IsReady self.old.life self.new.tally self.new.machine point.at) }
        ensures total { OnOk result (machines.IsReady self.old.life self.old.tally self.old.machine point.at →
            (first end : ℕ) (points : List Point) (one other : Times) (next : ℕ) → point.at ≤ end → IsOrderedFrom point.at points →
            machines.machine_total self.old.life self.old.tally self.old.machine first end (point ∷ points) one other next
            ≡ machines.machine_total self.old.life self.new.tally self.new.machine first end points one other next) }
        ensures level { OnOk result ((one other : Bool) → machines.IsLevel self.old.machine one other → machines.IsLevel self.new.machine one other) }
    {
        self.machine.point(self.life, point, &mut self.tally)?;
        Ok(())
    }

    // What happens in a state of the scope.
    fn take_points(
        &mut self,
        form: &Form,
        at: u64,
        seens: &[Seen],
        levels: &Levels,
    ) -> Result<(), NoMemory>
        ensures same { self.new ≡ record self.old { machine = self.new.machine; tally = self.new.tally } }
        ensures ready { OnOk result (machines.IsReady self.old.life self.old.tally self.old.machine at → machines.IsReady self.old.life self.new.tally self.new.machine at) }
        ensures total { OnOk result (machines.IsReady self.old.life self.old.tally self.old.machine at →
            (first end : ℕ) (points : List Point) (one other : Times) (next : ℕ) → at ≤ end → IsOrderedFrom at points →
            machines.machine_total self.old.life self.old.tally self.old.machine first end (spec.points_at form.now at (level_in levels.now) seens.now ++ points) one other next
            ≡ machines.machine_total self.old.life self.new.tally self.new.machine first end points one other next) }
        ensures level { OnOk result ((one other : Bool) → machines.IsLevel self.old.machine one other → machines.IsLevel self.new.machine one other) }
    {
        for seen in seens {
            self.take_point(point(form, at, seen.what(), seen.marks(), levels))?;
        }
        Ok(())
    }

    // The scope begins to be seen, from its first state to a later one.
    fn catch_up(&mut self, first: u64, at: u64)
        ensures same { self.new ≡ record self.old { machine = self.new.machine; tally = self.new.tally } }
        ensures ready { (next : ℕ) → machines.IsReady self.old.life self.old.tally self.old.machine next → machines.IsReady self.old.life self.new.tally self.new.machine next }
        ensures total { (end : ℕ) (points : List Point) (one other : Times) → first ≤ at → at ≤ end → spec.AreKept self.old.one self.old.other first at one other →
            machines.machine_total self.old.life self.old.tally self.old.machine first end points one other first
            ≡ machines.machine_total self.old.life self.new.tally self.new.machine first end points one other at }
    {
        if first < at {
            self.level(first);
        }
    }

    // The scope, whose first state is `first`, is seen up to a state.
    fn start(&mut self, first: u64, at: u64)
        ensures same { self.new ≡ record self.old { machine = self.new.machine; tally = self.new.tally; begun = true } }
        ensures ready { (next : ℕ) → machines.IsReady self.old.life self.old.tally self.old.machine next → machines.IsReady self.old.life self.new.tally self.new.machine next }
        ensures total { (next end : ℕ) (points : List Point) (one other : Times) → first ≤ at → at ≤ end → next ≤ at →
            (self.old.begun ≡ true → machines.IsLevel self.old.machine self.old.one self.old.other) → (self.old.begun ≡ false → next ≤ first) →
            spec.AreKept self.old.one self.old.other next at one other →
            machines.machine_total self.old.life self.old.tally self.old.machine first end points one other (spec.start_of self.old.begun first next)
            ≡ machines.machine_total self.old.life self.new.tally self.new.machine first end points one other at }
    {
        if self.begun {
            return;
        }
        self.catch_up(first, at);
        self.begun = true;
    }

    // A state of the scope comes, whose first state is `first`.
    fn follow(
        &mut self,
        form: &Form,
        first: u64,
        at: u64,
        seens: &[Seen],
        levels: &Levels,
    ) -> Result<(), NoMemory>
        ensures same { self.new ≡ record self.old {
          machine = self.new.machine;
          tally = self.new.tally;
          begun = true;
          one = spec.one_at form.now (level_in levels.now) self.old.one;
          other = spec.other_at form.now (level_in levels.now) self.old.other;
        } }
        ensures ready { OnOk result (machines.IsReady self.old.life self.old.tally self.old.machine at → machines.IsReady self.old.life self.new.tally self.new.machine at) }
        ensures level { OnOk result (machines.IsLevel self.new.machine self.new.one self.new.other) }
        ensures total { OnOk result (machines.IsReady self.old.life self.old.tally self.old.machine at →
            (next end : ℕ) (points : List Point) (one other : Times) → first ≤ at → at < end → next ≤ at → IsOrderedFrom at points →
            (self.old.begun ≡ true → machines.IsLevel self.old.machine self.old.one self.old.other) → (self.old.begun ≡ false → next ≤ first) →
            spec.AreKept self.old.one self.old.other next at one other →
            spec.AreNow form.now (level_in levels.now) self.old.one self.old.other at one other →
            machines.machine_total self.old.life self.old.tally self.old.machine first end (spec.points_at form.now at (level_in levels.now) seens.now ++ points) one other
            (spec.start_of self.old.begun first next)
            ≡ machines.machine_total self.old.life self.new.tally self.new.machine first end points one other (at + 1)) }
    {
        self.start(first, at);
        self.set_levels(form, levels);
        self.level(at);
        self.take_points(form, at, seens, levels)?;
        Ok(())
    }

    // The scope is not over in a state.
    fn go_on(
        &mut self,
        form: &Form,
        at: u64,
        seens: &[Seen],
        levels: &Levels,
    ) -> Result<(), NoMemory>
        ensures same { self.new ≡ record self.old {
          machine = self.new.machine;
          tally = self.new.tally;
          begun = self.new.begun;
          one = spec.one_at form.now (level_in levels.now) self.old.one;
          other = spec.other_at form.now (level_in levels.now) self.old.other;
        } }
        ensures going { OnOk result ((next : ℕ) → next ≤ at → spec.IsGoing self.old next → spec.IsGoing self.new (at + 1)) }
        ensures total { OnOk result ((next end : ℕ) (first : Option ℕ) (future : List Moment) (one other : Times) → next ≤ at → at < end →
            spec.AreMomentsFrom (at + 1) future → spec.IsGoing self.old next → spec.IsFirst self.old.from at first →
            spec.AreKept self.old.one self.old.other next at one other →
            spec.AreNow form.now (level_in levels.now) self.old.one self.old.other at one other →
            spec.total_in form.now self.old (spec.moment at (level_in levels.now) seens.now ∷ future) next one other first end
            ≡ spec.total_in form.now self.new future (at + 1) one other first end) }
    {
        match self.from {
            Some(first) => {
                if first <= at {
                    self.follow(form, first, at, seens, levels)?;
                    Ok(())
                } else {
                    self.set_levels(form, levels);
                    Ok(())
                }
            }
            None => {
                self.set_levels(form, levels);
                Ok(())
            }
        }
    }

    // The scope is over; `end` is the first state behind it.
    fn finish(&mut self, end: u64)
        ensures closed { self.new.closed ≡ true }
        ensures same { self.new.life ≡ self.old.life }
        ensures total { (form : Form) (next : ℕ) (one other : Times) → next ≤ end →
            (self.old.begun ≡ true → machines.IsLevel self.old.machine self.old.one self.old.other) → (self.old.begun ≡ false → IfSome self.old.from (λ first. next ≤ first)) →
            spec.AreKept self.old.one self.old.other next end one other →
            spec.total_in form self.old [] next one other self.old.from end ≡ self.new.tally }
    {
        self.closed = true;
        match self.from {
            Some(first) => {
                if first < end {
                    self.start(first, end);
                    self.machine.over(self.life, first, end, &mut self.tally);
                }
            }
            None => {}
        }
    }

    /// A state comes, with what happens in it and the levels at its end.
    pub(crate) fn state(
        &mut self,
        rule: &Rule,
        at: u64,
        seens: &[Seen],
        levels: &Levels,
    ) -> Result<(), NoMemory>
        ensures life { OnOk result (self.new.life ≡ self.old.life) }
        ensures going { OnOk result ((next : ℕ) → next ≤ at → (self.old.closed ≡ false → spec.IsOpen rule.now.scope.before self.old next) →
            self.new.closed ≡ false → spec.IsOpen rule.now.scope.before self.new (at + 1)) }
        ensures levels { OnOk result (self.new.closed ≡ false → (self.old.closed ≡ false)
            × (self.new.one ≡ spec.one_at rule.now.form (level_in levels.now) self.old.one)
            × (self.new.other ≡ spec.other_at rule.now.form (level_in levels.now) self.old.other)) }
        ensures total { OnOk result ((next last : ℕ) (future : List Moment) (one other : Times) → next ≤ at → at ≤ last →
            spec.AreMomentsFrom (at + 1) future → (self.old.closed ≡ false → spec.IsOpen rule.now.scope.before self.old next) →
            (self.old.closed ≡ false → spec.AreKept self.old.one self.old.other next at one other) →
            (self.old.closed ≡ false → spec.AreNow rule.now.form (level_in levels.now) self.old.one self.old.other at one other) →
            spec.monitor_total rule.now self.old (spec.moment at (level_in levels.now) seens.now ∷ future) last next one other
            ≡ spec.monitor_total rule.now self.new future last (at + 1) one other) }
    {
        if self.closed {
            return Ok(());
        }
        match end_now(&rule.scope.before, at, seens, levels) {
            Some(end) => {
                self.finish(end);
                Ok(())
            }
            None => {
                self.from = from_after(&rule.scope.from, self.from, at, seens, levels);
                self.go_on(&rule.form, at, seens, levels)?;
                Ok(())
            }
        }
    }

    /// The life is over; its last state is this one.
    pub(crate) fn over(&mut self, rule: &Rule, last: u64)
        ensures life { self.new.life ≡ self.old.life }
        ensures total { (next : ℕ) (one other : Times) → last < 2 ^ 63 → next ≤ last + 1 →
            (self.old.closed ≡ false → spec.IsOpen rule.now.scope.before self.old next) →
            (self.old.closed ≡ false → spec.AreKept self.old.one self.old.other next (last + 1) one other) →
            spec.monitor_total rule.now self.old [] last next one other ≡ self.new.tally }
    {
        if self.closed {
            return;
        }
        self.finish(end_by(state_of(&rule.scope.before), last));
    }

    /// How many lives have begun.
    pub fn lives(&self) -> u64
        ensures { result ≡ self.now.life }
    {
        self.life
    }

    /// What became of the obligations so far.
    pub fn tally(&self) -> &Tally
        ensures { result.now ≡ self.now.tally }
    {
        &self.tally
    }
}
