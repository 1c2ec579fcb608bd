ghost use Rattle.std.specs.Prelude.{◌≡◌, ℕ, ◌+◌, ◌-◌, ◌*◌, ◌/◌, ◌%◌, ◌≤◌, ◌<◌, ◌++◌, Bool, List, Option, false, is_some, bit_xor, length, if◌then◌else◌};
ghost use Rattle.kc_base.specs.Limits.{max_states};
ghost use Rattle.kc_span.specs.Span.{after, QuietFor, IsDue};
ghost use Rattle.kc_extra.specs.Further.{further_rule};
ghost use Rattle.kc_extra.specs.Pins.{AreFew, MoveSome};
ghost use Rattle.kc_convert.specs.Pulsing.{level as level_in, level_before as level_before_in, taken_over, edge_between, output_edges, output_rule, new_output, new_pulses, is_width as is_width_at, pulses_further, pulse_pins};
ghost use Rattle.kc_convert.specs.PulseSpans.{periods_before as begun_before, width_after, output_after};

use kc_base::{Edge, IntSet, Level, Pin, StateTime, Steps};
use kc_extra::{Extra, ExtraOut, Moved};
use kc_span::earlier;
use std::sync::ledger::Ledger;

/// How many states a period lasts.
const PERIOD: u64 = 256;

/// PWM0_CONTROL in window 0, PWM2_CONTROL in window 1.
const WIDTH: u8 = 0x17;

/// PWM1_CONTROL in window 1.
const WIDTH_OF_PWM1: u8 = 0x16;

/// An output by its widths: the last one written, and the one in force.
#[derive(Clone, Copy, Default)]
pub struct Output {
    pub written: u8,
    pub in_force: u8,
}

/// The three pulse-width outputs, and how often they were moved.
#[derive(Drop)]
pub struct Pulses {
    pub(crate) first: Output,
    pub(crate) second: Output,
    pub(crate) third: Output,
    pub(crate) moves: u64,
}

/// Whether an output is high in a state.
fn level(now: StateTime, width: u8) -> bool
    ensures { result ≡ level_in width now }
{
    now % PERIOD < u64::from(width)
}

/// Whether it is high in the state before.
fn level_before(now: StateTime, width: u8) -> bool
    ensures { result ≡ level_before_in width now }
{
    if now % PERIOD == 0 {
        false
    } else {
        level(now - 1, width)
    }
}

/// Adds the edge of a pin between two levels, if there is one.
fn push_edge(moved: &mut Moved, pin: u8, before: bool, high: bool)
    requires { length moved.old < 4 }
    ensures edge { moved.new ≡ moved.old ++ edge_between pin before high }
    ensures few { length moved.new ≤ length moved.old + 1 }
{
    if before != high {
        let level = if high { Level::High } else { Level::Low };
        moved.push(Edge {
            pin: Pin(pin),
            level,
        });
    }
}

/// The next state in which an output with these widths has an edge.
fn next_edge(now: StateTime, written: u8, in_force: u8) -> Option<StateTime>
    requires { now ≤ 4 * max_states }
    ensures { (pin : ℕ) → IsDue (output_rule pin) now (record { written = written; in_force = in_force }) result }
{
    let place = now % PERIOD;
    let width = u64::from(in_force);
    if place != 0 && place <= width {
        return Some(now - place + width);
    }
    if written == 0 {
        return None;
    }
    Some(periods_before(now) * PERIOD)
}

/// How many periods have begun before a state.
fn periods_before(at: StateTime) -> u64
    requires { at ≤ 4 * max_states }
    ensures { result ≡ begun_before at }
{
    (at + (PERIOD - 1)) / PERIOD
}

/// The width in force after a span.
fn width_later(now: StateTime, to: StateTime, output: Output) -> u8
    requires order { now ≤ to }
    requires bound { to ≤ 4 * max_states }
    ensures { result ≡ width_after now (to - now) output }
{
    if periods_before(now) < periods_before(to) {
        output.written
    } else {
        output.in_force
    }
}

impl Output {
    /// Goes on over a span.
    fn go_on(&mut self, now: StateTime, to: StateTime)
        requires order { now ≤ to }
        requires bound { to ≤ 4 * max_states }
        ensures { self.new ≡ output_after now (to - now) self.old }
    {
        self.in_force = width_later(now, to, *self);
    }

    /// One state, with its edge.
    fn tick(&mut self, now: StateTime, pin: u8, moved: &mut Moved)
        requires { length moved.old < 4 }
        ensures output { self.new ≡ taken_over now self.old }
        ensures edge { moved.new ≡ moved.old ++ output_edges pin now self.old }
        ensures few { length moved.new ≤ length moved.old + 1 }
    {
        let before = level_before(now, self.in_force);
        if now % PERIOD == 0 {
            self.in_force = self.written;
        }
        push_edge(moved, pin, before, level(now, self.in_force));
    }
}

impl Pulses {
    /// Outputs of width 0.
    pub fn new() -> Pulses
        ensures { result ≡ new_pulses }
    {
        Pulses {
            first: Output::default(),
            second: Output::default(),
            third: Output::default(),
            moves: 0,
        }
    }
}

impl Extra for Pulses {
    ghost plain = { λ d. record d { moves = 0 } };

    ghost moved = { λ d. d.moves };

    ghost further = { pulses_further };

    ghost agrees = { λ l e d. Unit {0} };

    ghost pins = { pulse_pins };

    fn due<L: Ledger>(&self, now: StateTime, steps: &mut Steps<L>) -> Option<StateTime> {
        steps.add();
        let first = next_edge(now, self.first.written, self.first.in_force);
        let second = next_edge(now, self.second.written, self.second.in_force);
        let third = next_edge(now, self.third.written, self.third.in_force);
        earlier(first, earlier(second, third))
    }

    fn quiet_to<L: Ledger>(&mut self, now: StateTime, to: StateTime, steps: &mut Steps<L>) {
        steps.add();
        self.moves = self.moves.saturating_add(1);
        self.first.go_on(now, to);
        self.second.go_on(now, to);
        self.third.go_on(now, to);
    }

    fn tick<L: Ledger>(
        &mut self,
        now: StateTime,
        _levels: u64,
        _edges: u64,
        steps: &mut Steps<L>,
    ) -> ExtraOut {
        steps.add();
        self.moves = self.moves.saturating_add(1);
        let mut moved = Moved::none();
        self.first.tick(now, Pin::PWM0.0, &mut moved);
        self.second.tick(now, Pin::PWM1.0, &mut moved);
        self.third.tick(now, Pin::PWM2.0, &mut moved);
        ExtraOut {
            raised: IntSet(0),
            moved,
        }
    }

    fn read(&mut self, _window: u8, _sfr: u8, _now: StateTime) -> Option<u8> {
        None
    }

    fn write(&mut self, window: u8, sfr: u8, value: u8, _now: StateTime) -> bool {
        match (window, sfr) {
            (0, WIDTH) => self.first.written = value,
            (1, WIDTH_OF_PWM1) => self.second.written = value,
            (1, WIDTH) => self.third.written = value,
            _ => return false,
        }
        true
    }

    fn look(&self, _window: u8, _sfr: u8, _now: StateTime) -> Option<u8> {
        None
    }

    fn takes(&self, window: u8, sfr: u8) -> bool {
        (window == 0 && sfr == WIDTH) || (window == 1 && (sfr == WIDTH_OF_PWM1 || sfr == WIDTH))
    }

    fn moves(&self) -> u64 {
        self.moves
    }

    fn start(&mut self, _now: StateTime) {}

    ghost use Rattle.std.specs.Prelude.{refl};
    ghost use Rattle.kc_convert.specs.PulseLaws.{no_width_elsewhere, three_pins, moves_pulses};

    ghost plain_again = { λ d. refl };

    ghost none_moved = { λ d. refl };

    ghost rests = { λ t l d h. refl };

    ghost rests_out = { λ t l d h. refl };

    ghost keeps = { λ t l e m d h. tt };

    ghost rest_keeps = { λ t l e d h. tt };

    ghost read_keeps = { λ w s t l e d h. tt };

    ghost write_keeps = { λ w s v t l e d h. tt };

    ghost start_keeps = { λ t l e d h. tt };

    ghost answers = { λ w s t d. refl };

    ghost no_read = { λ w s t d h. refl };

    ghost no_write = { λ w s v t d h. no_width_elsewhere w s v d h };

    ghost few_pins = { λ d. three_pins };

    ghost moves_some = { λ t l e d h. moves_pulses t d };
}
