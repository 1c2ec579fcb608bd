//! Timer 2 with its capture register.
ghost use Rattle.std.specs.Prelude.{◌≡◌, ℕ, ◌+◌, ◌-◌, ◌*◌, ◌≤◌};
ghost use Rattle.kc_base.specs.Limits.{max_states};
ghost use Rattle.kc_span.specs.Span.{after, QuietFor, IsDue, one_more};
ghost use Rattle.kc_timers.specs.T2.{tick_of, out_of, timer2_rule, view_of};

use crate::{T2Control, T2Inputs, T2Out, T2View};
use kc_base::{StateTime, Steps};
use std::marker::Model;
use std::sync::ledger::Ledger;

/// Timer 2 with T2CAPTURE. Contracts see its data (`inner`) and how often it was moved (`moves`).
#[derive(Drop)]
pub struct Timer2 {
    value: u16,
    captured: u16,
    moves: u64,
}

impl Model for Timer2 {
    ghost use Rattle.kc_span.specs.Span.{Counted};
    ghost use Rattle.kc_timers.specs.T2.{T2};

    ghost Value = { Counted T2 };

    ghost view = { λ t. record { inner = record { value = t.value; captured = t.captured }; moves = t.moves } };
}

impl Timer2 {
    /// Timer 2 and T2CAPTURE at 0, never moved.
    pub fn new() -> Timer2
        ensures { result ≡ record { inner = record { value = 0; captured = 0 }; moves = 0 } }
    {
        Timer2 {
            value: 0,
            captured: 0,
            moves: 0,
        }
    }

    /// What TIMER2 reads.
    pub fn value(&self) -> u16
        ensures { result ≡ self.now.inner.value }
    {
        self.value
    }

    /// What T2CAPTURE reads.
    pub fn captured(&self) -> u16
        ensures { result ≡ self.now.inner.captured }
    {
        self.captured
    }

    /// How often `quiet_to` and `tick` were called since it was made, until the type's end.
    pub fn moves(&self) -> u64
        ensures { result ≡ self.now.moves }
    {
        self.moves
    }

    /// Writes TIMER2, and nothing else.
    pub fn write(&mut self, value: u16)
        ensures { self.new ≡ record self.old { inner = record self.old.inner { value = value } } }
    {
        self.value = value;
    }

    /// What HSO has to know of this timer.
    pub fn view(&self, control: T2Control) -> T2View
        ensures { result ≡ view_of control self.now.inner }
    {
        T2View {
            value: self.value,
            every: every(control),
            down: control.down,
        }
    }

    /// The least state from `now` on in which this timer overflows, if no input has an edge and nothing is written; None
    /// where it never does.
    pub fn due<L: Ledger>(
        &self,
        now: StateTime,
        control: T2Control,
        steps: &mut Steps<L>,
    ) -> Option<StateTime>
        requires bound { now ≤ 4 * max_states }
        ensures due { IsDue (timer2_rule control) now self.now.inner result }
        ensures steps { steps.new ≡ steps.old + 1 }
    {
        steps.add();
        if control.internal {
            Some(due_state(control, now, self.value))
        } else {
            None
        }
    }

    /// As many Ticks as there are states from `now` to `to`, all of them quiet and without an input edge.
    pub fn quiet_to<L: Ledger>(
        &mut self,
        now: StateTime,
        to: StateTime,
        control: T2Control,
        steps: &mut Steps<L>,
    )
        requires order { now ≤ to }
        requires bound { to ≤ 4 * max_states }
        requires quiet { QuietFor (timer2_rule control) now (to - now) self.old.inner }
        ensures inner { self.new.inner ≡ after (timer2_rule control) now (to - now) self.old.inner }
        ensures moves { self.new.moves ≡ one_more self.old.moves }
        ensures steps { steps.new ≡ steps.old + 1 }
    {
        steps.add();
        self.moves = self.moves.saturating_add(1);
        let counts = counts_in(every(control), now, to);
        self.value = moved(control.down, self.value, counts);
    }

    /// One Tick, in state `now`.
    pub fn tick<L: Ledger>(
        &mut self,
        now: StateTime,
        control: T2Control,
        inputs: T2Inputs,
        steps: &mut Steps<L>,
    ) -> T2Out
        ensures inner { self.new.inner ≡ tick_of control inputs now self.old.inner }
        ensures out { result ≡ out_of control inputs now self.old.inner }
        ensures moves { self.new.moves ≡ one_more self.old.moves }
        ensures steps { steps.new ≡ steps.old + 1 }
    {
        steps.add();
        self.moves = self.moves.saturating_add(1);
        let before = self.value;
        let counts = is_count(control, inputs.clock, now);
        self.value = if inputs.reset {
            0
        } else if counts {
            counted(control.down, before)
        } else {
            before
        };
        if inputs.capture {
            self.captured = before;
        }
        let last = if control.down { 0 } else { u16::MAX };
        T2Out {
            overflow: !inputs.reset && counts && before == last,
            captured: inputs.capture,
        }
    }
}

impl T2View {
    /// What the timer stands at in state `to`, if this view is of state `from`.
    pub fn value_at(&self, from: StateTime, to: StateTime) -> u16
        requires order { from ≤ to }
        requires bound { to ≤ 5 * max_states }
        ensures { result ≡ value_of self.now from to }
    {
        moved(self.down, self.value, counts_in(self.every, from, to))
    }
}

ghost use Rattle.kc_timers.specs.T2.{value_at as value_of, counts_in as counts_within, moved as moved_by};
ghost use Rattle.kc_timers.specs.T2.{is_count as count_at, counted as counted_to, every_of, counts_left as left_by};
ghost use Rattle.kc_span.specs.Span.{DueAt};
ghost use Rattle.std.specs.Prelude.{true};

/// Whether a Tick at `now` counts.
fn is_count(control: T2Control, clock: bool, now: StateTime) -> bool
    ensures { result ≡ count_at control clock now }
{
    if control.internal {
        control.fast || now % 8 == 7
    } else {
        clock
    }
}

/// The value after a count.
fn counted(down: bool, value: u16) -> u16
    ensures { result ≡ counted_to down value }
{
    if down {
        value.wrapping_sub(1)
    } else {
        value.wrapping_add(1)
    }
}

/// Each how many states a count comes by itself.
fn every(control: T2Control) -> u8
    ensures { result ≡ every_of control }
{
    if control.internal {
        if control.fast { 1 } else { 8 }
    } else {
        0
    }
}

/// How many states from `from` to before `to` count by themselves.
fn counts_in(every: u8, from: StateTime, to: StateTime) -> u64
    requires { from ≤ to }
    ensures { result ≡ counts_within every from to }
{
    match every {
        8 => to / 8 - from / 8,
        1 => to - from,
        _ => 0,
    }
}

/// The value after so many counts.
fn moved(down: bool, value: u16, counts: u64) -> u16
    requires { counts ≤ 5 * max_states }
    ensures { result ≡ moved_by down value counts }
{
    let value = value as u64;
    if down {
        ((value + 65536 - counts % 65536) % 65536) as u16
    } else {
        ((value + counts) % 65536) as u16
    }
}

/// How many counts bring the value to the last one before it passes between FFFFH and 0.
fn counts_left(down: bool, value: u16) -> u16
    ensures { result ≡ left_by down value }
{
    if down { value } else { u16::MAX - value }
}

/// The state in which the inner clock makes the timer pass between FFFFH and 0.
fn due_state(control: T2Control, now: StateTime, value: u16) -> StateTime
    requires bound { now ≤ 4 * max_states }
    requires inner { control.internal ≡ true }
    ensures { (captured : ℕ) →
        DueAt (timer2_rule control) now (record { value = value; captured = captured }) result }
{
    let left = counts_left(control.down, value) as u64;
    if control.fast {
        now + left
    } else {
        now / 8 * 8 + 7 + 8 * left
    }
}
