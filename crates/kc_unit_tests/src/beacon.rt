//! A further unit that is made for tests, and the smallest that uses all that a further unit may do.
ghost use Rattle.std.specs.Prelude.{◌≡◌, ℕ, ◌+◌, ◌-◌, ◌*◌, ◌/◌, ◌%◌, ◌≤◌, ◌<◌, ◌^◌, Bool, true, false, List, Option, is_some, bit_xor};
ghost use Rattle.kc_span.specs.Span.{after, QuietFor, IsDue};
ghost use Rattle.kc_extra.specs.Further.{further_rule};
ghost use Rattle.kc_extra.specs.Pins.{AreFew, MoveSome};
ghost use Rattle.kc_base.specs.Bits.{bit as bit_of};
ghost use Rattle.kc_unit_tests.specs.Starting.{FitsEachBoard};
ghost use Rattle.kc_unit_tests.specs.Blinking.{new_beacon, unit_of as unit_for, state_of, begun, turned, lamps_turned, gone_on, out_of, at_levels, is_count as is_count_of, is_state as is_state_of, edge_to, beacon_further, beacon_agrees, beacon_pins};

use kc_base::{Edge, IntSet, Level, Pin, StateTime, Steps};
use kc_extra::{Extra, ExtraOut, Moved};
use std::marker::Model;
use std::sync::ledger::Ledger;

/// How many states a coarse unit of time has.
const COARSE: u64 = 4_294_967_296;

/// Two lamps, on HSO2 and HSO3, that count how often a period has ended; each end raises request 6. A high HSI3 holds the
/// beacon. 02H of window 0 has the length of a period in units of time, 16H of window 1 the unit and the lamps.
#[derive(Drop)]
pub struct Beacon {
    count: u8,
    coarse: bool,
    left: u64,
    first: bool,
    second: bool,
    ended: bool,
    held: bool,
    moves: u64,
}

impl Model for Beacon {
    ghost use Rattle.kc_span.specs.Span.{Counted};
    ghost use Rattle.kc_unit_tests.specs.Blinking.{Blinking};
    ghost use Rattle.std.specs.Prelude.{◌≤◌};

    ghost Value = { Counted Blinking };

    ghost view = { λ b. record {
      inner = record { count = b.count; coarse = b.coarse; left = b.left; first = b.first; second = b.second; ended = b.ended; held = b.held };
      moves = b.moves;
    } };

    ghost invariant = { λ b. b.left ≤ 1099511627776 };
}

/// Whether these are the register of the count.
fn is_count(window: u8, sfr: u8) -> bool
    ensures { result ≡ is_count_of window sfr }
{
    window == 0 && sfr == 0x02
}

/// Whether these are the register of the unit and the lamps.
fn is_state(window: u8, sfr: u8) -> bool
    ensures { result ≡ is_state_of window sfr }
{
    window == 1 && sfr == 0x16
}

/// Whether HSI3 is high.
fn is_held(levels: u64) -> bool
    ensures { result ≡ bit_of levels 21 }
{
    (levels / 2_097_152) % 2 == 1
}

/// An edge to a lamp that is lit or not.
pub(crate) fn edge(pin: u8, lit: bool) -> Edge
    ensures { result ≡ edge_to pin lit }
{
    Edge {
        pin: Pin(pin),
        level: if lit { Level::High } else { Level::Low },
    }
}

impl Beacon {
    /// A beacon that has no period yet, and keeps the level of HSI3 before state 0.
    pub fn new() -> Beacon
        ensures value { result ≡ record { inner = new_beacon; moves = 0 } }
        ensures fits { FitsEachBoard beacon_agrees result }
    {
        Beacon {
            count: 0,
            coarse: false,
            left: 0,
            first: false,
            second: false,
            ended: false,
            held: false,
            moves: 0,
        }
    }

    fn unit(&self) -> u64
        ensures value { result ≡ unit_for self.now.inner }
        ensures some { 0 < result }
        ensures bound { result ≤ 4294967296 }
    {
        if self.coarse { COARSE } else { 1 }
    }

    /// Begins a period.
    fn begin(&mut self)
        ensures inner { self.new.inner ≡ begun self.old.inner }
        ensures moves { self.new.moves ≡ self.old.moves }
    {
        let unit = self.unit();
        self.left = u64::from(self.count) * unit;
    }

    /// What 16H reads.
    fn state(&self) -> u8
        ensures { result ≡ state_of self.now.inner }
    {
        u8::from(self.coarse)
            + 2 * u8::from(self.first)
            + 4 * u8::from(self.second)
            + 128 * u8::from(self.ended)
    }

    /// The end of a period: turns the lamps, and reports their edges.
    fn turn(&mut self) -> Moved
        ensures inner { self.new.inner ≡ turned self.old.inner }
        ensures moves { self.new.moves ≡ self.old.moves }
        ensures edges { result ≡ lamps_turned self.old.inner }
    {
        let mut moved = Moved::none();
        self.begin();
        self.ended = true;
        let was_lit = self.first;
        self.first = !was_lit;
        moved.push(edge(2, !was_lit));
        if was_lit {
            self.second = !self.second;
            moved.push(edge(3, self.second));
        }
        moved
    }

    /// One state at the level of HSI3 that is kept.
    fn go_on(&mut self) -> ExtraOut
        ensures inner { self.new.inner ≡ gone_on self.old.inner }
        ensures moves { self.new.moves ≡ self.old.moves }
        ensures out { result ≡ out_of self.old.inner }
    {
        if !self.held && self.left == 1 {
            return ExtraOut {
                raised: IntSet(64),
                moved: self.turn(),
            };
        }
        if !self.held {
            self.left = self.left.saturating_sub(1);
        }
        ExtraOut {
            raised: IntSet(0),
            moved: Moved::none(),
        }
    }
}

impl Extra for Beacon {
    ghost plain = { λ d. record { inner = d.inner; moves = 0 } };

    ghost moved = { λ d. d.moves };

    ghost further = { beacon_further };

    ghost agrees = { beacon_agrees };

    ghost pins = { beacon_pins };

    fn due<L: Ledger>(&self, now: StateTime, steps: &mut Steps<L>) -> Option<StateTime> {
        steps.add();
        if self.held || self.left == 0 {
            None
        } else {
            Some(now + (self.left - 1))
        }
    }

    fn quiet_to<L: Ledger>(&mut self, now: StateTime, to: StateTime, steps: &mut Steps<L>) {
        steps.add();
        self.moves = self.moves.saturating_add(1);
        if !self.held {
            self.left = self.left.saturating_sub(to - now);
        }
    }

    fn tick<L: Ledger>(
        &mut self,
        _now: StateTime,
        levels: u64,
        _edges: u64,
        steps: &mut Steps<L>,
    ) -> ExtraOut {
        steps.add();
        self.moves = self.moves.saturating_add(1);
        self.held = is_held(levels);
        self.go_on()
    }

    fn read(&mut self, window: u8, sfr: u8, now: StateTime) -> Option<u8> {
        let answer = self.look(window, sfr, now);
        if is_state(window, sfr) {
            self.ended = false;
        }
        answer
    }

    fn write(&mut self, window: u8, sfr: u8, value: u8, _now: StateTime) -> bool {
        if is_count(window, sfr) {
            self.count = value;
        } else if is_state(window, sfr) {
            self.coarse = value % 2 == 1;
        } else {
            return false;
        }
        self.begin();
        true
    }

    fn look(&self, window: u8, sfr: u8, _now: StateTime) -> Option<u8> {
        if is_count(window, sfr) {
            Some((self.left / self.unit() % 256) as u8)
        } else if is_state(window, sfr) {
            Some(self.state())
        } else {
            None
        }
    }

    fn takes(&self, window: u8, sfr: u8) -> bool {
        is_count(window, sfr) || is_state(window, sfr)
    }

    fn moves(&self) -> u64 {
        self.moves
    }

    fn start(&mut self, _now: StateTime) {
        self.begin();
    }

    ghost use Rattle.kc_unit_tests.specs.BlinkingLaws.{rests_alone, rests_alone_out, keeps_levels, rest_keeps_level, read_keeps_level, write_keeps_level, answers_registers, no_read_elsewhere, no_write_elsewhere, two_pins, moves_two};
    ghost use Rattle.std.specs.Prelude.{refl};

    ghost plain_again = { λ d. refl };

    ghost none_moved = { λ d. refl };

    ghost rests = { rests_alone };

    ghost rests_out = { rests_alone_out };

    ghost keeps = { keeps_levels };

    ghost rest_keeps = { rest_keeps_level };

    ghost read_keeps = { read_keeps_level };

    ghost write_keeps = { write_keeps_level };

    ghost start_keeps = { λ t l e d agrees. agrees };

    ghost answers = { answers_registers };

    ghost no_read = { no_read_elsewhere };

    ghost no_write = { no_write_elsewhere };

    ghost few_pins = { two_pins };

    ghost moves_some = { moves_two };
}
