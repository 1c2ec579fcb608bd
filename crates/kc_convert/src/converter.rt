ghost use Rattle.std.specs.Prelude.{◌≡◌, ℕ, ◌+◌, ◌-◌, ◌*◌, ◌≤◌, ◌<◌, Bool, List, [], Option, false, is_some, bit_xor};
ghost use Rattle.kc_base.specs.Limits.{max_states};
ghost use Rattle.kc_span.specs.Span.{after, QuietFor, IsDue};
ghost use Rattle.kc_extra.specs.Further.{further_rule};
ghost use Rattle.kc_extra.specs.Pins.{AreFew, MoveSome};
ghost use Rattle.kc_convert.specs.Converting.{new_converter, begun_in, commanded, low_byte, high_byte, is_low as is_low_byte, is_high as is_high_byte, goes as goes_by, converter_further};

use crate::analog::Analog;
use kc_base::{IntSet, StateTime, Steps, bit};
use kc_extra::{Extra, ExtraOut, Moved};
use std::marker::Model;
use std::sync::ledger::Ledger;

/// AD_COMMAND where it is written, the low byte of AD_RESULT where it is read.
const COMMAND: u8 = 0x02;

/// The high byte of AD_RESULT.
const RESULT_HIGH: u8 = 0x03;

/// How many states after its start a conversion takes its value.
const SAMPLE_TIME: u64 = 8;

/// How many states after its start it has its result.
const CONVERSION_TIME: u64 = 80;

/// The request of the end of a conversion.
const COMPLETE: IntSet = IntSet(2);

/// The converter of the analogue inputs. Its own state u has the values of state `from + u`.
#[derive(Drop)]
pub struct Converter {
    values: Analog,
    from: StateTime,
    selected: u8,
    channel: u8,
    begun: Option<StateTime>,
    result: u16,
    moves: u64,
}

impl Model for Converter {
    ghost use Rattle.kc_span.specs.Span.{Counted};
    ghost use Rattle.kc_convert.specs.Converting.{Converting};
    ghost use Rattle.kc_convert.specs.Bounds.{IsBounded};

    ghost Value = { Counted Converting };

    ghost view = { λ c. record {
      inner = record { values = c.values; from = c.from; selected = c.selected; channel = c.channel; begun = c.begun; result = c.result };
      moves = c.moves;
    } };

    ghost invariant = { λ c. IsBounded c.from c.selected c.channel c.begun c.result };
}

fn is_low(window: u8, sfr: u8) -> bool
    ensures { result ≡ is_low_byte window sfr }
{
    window == 0 && sfr == COMMAND
}

fn is_high(window: u8, sfr: u8) -> bool
    ensures { result ≡ is_high_byte window sfr }
{
    window == 0 && sfr == RESULT_HIGH
}

/// Whether a command begins a conversion.
fn goes(value: u8) -> bool
    ensures { result ≡ goes_by value }
{
    bit(value, 3)
}

impl Converter {
    /// A converter that has begun no conversion.
    pub fn new(values: Analog, from: StateTime) -> Converter
        requires { from ≤ 4 * max_states }
        ensures { result ≡ record { inner = new_converter values from; moves = 0 } }
    {
        Converter {
            values,
            from,
            selected: 0,
            channel: 0,
            begun: None,
            result: 0,
            moves: 0,
        }
    }

    /// Begins a conversion of the channel of the last command.
    fn begin(&mut self, now: StateTime)
        requires { now ≤ 4 * max_states }
        ensures inner { self.new.inner ≡ begun_in now self.old.inner }
        ensures moves { self.new.moves ≡ self.old.moves }
    {
        self.channel = self.selected;
        self.begun = Some(now);
    }

    /// A write of a command.
    fn command(&mut self, value: u8, now: StateTime)
        requires { now ≤ 4 * max_states }
        ensures inner { self.new.inner ≡ commanded now value self.old.inner }
        ensures moves { self.new.moves ≡ self.old.moves }
    {
        self.selected = value % 8;
        if goes(value) {
            self.begin(now);
        }
    }

    fn low(&self) -> u8
        ensures { result ≡ low_byte self.now.inner }
    {
        let busy = if self.begun.is_some() { 8 } else { 0 };
        self.channel + busy + 64 * (self.result % 4) as u8
    }

    fn high(&self) -> u8
        ensures { result ≡ high_byte self.now.inner }
    {
        (self.result / 4) as u8
    }
}

impl Extra for Converter {
    ghost plain = { λ d. record d { moves = 0 } };

    ghost moved = { λ d. d.moves };

    ghost further = { converter_further };

    ghost agrees = { λ l e d. Unit {0} };

    ghost pins = { [] };

    fn due<L: Ledger>(&self, now: StateTime, steps: &mut Steps<L>) -> Option<StateTime> {
        steps.add();
        match self.begun {
            Some(start) if now <= start + CONVERSION_TIME => Some(start + CONVERSION_TIME),
            _ => None,
        }
    }

    fn quiet_to<L: Ledger>(&mut self, _now: StateTime, _to: StateTime, steps: &mut Steps<L>) {
        steps.add();
        self.moves = self.moves.saturating_add(1);
    }

    fn tick<L: Ledger>(
        &mut self,
        now: StateTime,
        _levels: u64,
        _edges: u64,
        steps: &mut Steps<L>,
    ) -> ExtraOut {
        steps.add();
        self.moves = self.moves.saturating_add(1);
        let moved = Moved::none();
        match self.begun {
            Some(start) if now == start + CONVERSION_TIME => {
                let at = self.from + (start + SAMPLE_TIME);
                self.result = self.values.value(self.channel, at);
                self.begun = None;
                ExtraOut {
                    raised: COMPLETE,
                    moved,
                }
            }
            _ => ExtraOut {
                raised: IntSet(0),
                moved,
            },
        }
    }

    fn read(&mut self, window: u8, sfr: u8, now: StateTime) -> Option<u8> {
        self.look(window, sfr, now)
    }

    fn write(&mut self, window: u8, sfr: u8, value: u8, now: StateTime) -> bool {
        if !is_low(window, sfr) {
            return false;
        }
        self.command(value, now);
        true
    }

    fn look(&self, window: u8, sfr: u8, _now: StateTime) -> Option<u8> {
        if is_low(window, sfr) {
            Some(self.low())
        } else if is_high(window, sfr) {
            Some(self.high())
        } else {
            None
        }
    }

    fn takes(&self, window: u8, sfr: u8) -> bool {
        is_low(window, sfr)
    }

    fn moves(&self) -> u64 {
        self.moves
    }

    fn start(&mut self, now: StateTime) {
        self.begin(now);
    }

    ghost use Rattle.std.specs.Prelude.{refl};
    ghost use Rattle.kc_extra.specs.Few.{no_pins};
    ghost use Rattle.kc_convert.specs.ConverterLaws.{answers_registers, no_write_elsewhere};

    ghost plain_again = { λ d. refl };

    ghost none_moved = { λ d. refl };

    ghost rests = { λ t l d h. refl };

    ghost rests_out = { λ t l d h. refl };

    ghost keeps = { λ t l e m d h. tt };

    ghost rest_keeps = { λ t l e d h. tt };

    ghost read_keeps = { λ w s t l e d h. tt };

    ghost write_keeps = { λ w s v t l e d h. tt };

    ghost start_keeps = { λ t l e d h. tt };

    ghost answers = { λ w s t d. answers_registers w s t d };

    ghost no_read = { λ w s t d h. refl };

    ghost no_write = { λ w s v t d h. no_write_elsewhere w s v t d h };

    ghost few_pins = { λ d. no_pins };

    ghost moves_some = { λ t l e d h. tt };
}
