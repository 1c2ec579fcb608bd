// A further unit without a register: what it does is a function of the state time.
ghost use Rattle.std.specs.Prelude.{◌≡◌, ℕ, ◌+◌, ◌-◌, ◌*◌, ◌≤◌, ◌^◌, Bool, List, [], ◌∷◌, Option, false, is_some, bit_xor};
ghost use Rattle.kc_unit_tests.specs.Beating.{beats as beats_in, beat_further};

use crate::beacon::edge;
use kc_base::{IntSet, StateTime, Steps};
use kc_extra::{Extra, ExtraOut, Moved};
use std::sync::ledger::Ledger;

/// Turns HSO1 and raises request 9 in each thousandth state.
#[derive(Drop)]
pub struct Metronome {
    moves: u64,
}

/// Whether a state is a thousandth one.
fn beats(now: StateTime) -> bool
    ensures { result ≡ beats_in now }
{
    now % 1000 == 999
}

impl Metronome {
    /// A metronome that has had no `quiet_to` and no `tick`.
    pub fn new() -> Metronome
        ensures { result ≡ record { moves = 0 } }
    {
        Metronome { moves: 0 }
    }
}

impl Extra for Metronome {
    ghost plain = { λ x. record x { moves = 0 } };

    ghost moved = { λ x. x.moves };

    ghost further = { beat_further };

    ghost agrees = { λ l e d. Unit {0} };

    ghost pins = { 1 ∷ [] };

    fn quiet_to<L: Ledger>(&mut self, _now: StateTime, _to: StateTime, steps: &mut Steps<L>) {
        steps.add();
        self.moves = self.moves.saturating_add(1);
    }

    fn due<L: Ledger>(&self, now: StateTime, steps: &mut Steps<L>) -> Option<StateTime> {
        steps.add();
        Some(now / 1000 * 1000 + 999)
    }

    fn tick<L: Ledger>(
        &mut self,
        now: StateTime,
        _levels: u64,
        _edges: u64,
        steps: &mut Steps<L>,
    ) -> ExtraOut {
        steps.add();
        self.moves = self.moves.saturating_add(1);
        let mut moved = Moved::none();
        if !beats(now) {
            return ExtraOut {
                raised: IntSet(0),
                moved,
            };
        }
        moved.push(edge(1, (now / 1000) % 2 == 0));
        ExtraOut {
            raised: IntSet(512),
            moved,
        }
    }

    fn read(&mut self, _window: u8, _sfr: u8, _now: StateTime) -> Option<u8> {
        None
    }

    fn write(&mut self, _window: u8, _sfr: u8, _value: u8, _now: StateTime) -> bool {
        false
    }

    fn look(&self, _window: u8, _sfr: u8, _now: StateTime) -> Option<u8> {
        None
    }

    fn takes(&self, _window: u8, _sfr: u8) -> bool {
        false
    }

    fn moves(&self) -> u64 {
        self.moves
    }

    fn start(&mut self, _now: StateTime) {}

    ghost use Rattle.std.specs.Prelude.{refl};
    ghost use Rattle.kc_unit_tests.specs.BeatingLaws.{one_pin, moves_one};

    ghost plain_again = { λ d. refl };

    ghost none_moved = { λ d. refl };

    ghost rests = { λ t l d agrees. refl };

    ghost rests_out = { λ t l d agrees. refl };

    ghost keeps = { λ t l e m d agrees. tt };

    ghost rest_keeps = { λ t l e d agrees. tt };

    ghost read_keeps = { λ w s t l e d agrees. tt };

    ghost write_keeps = { λ w s v t l e d agrees. tt };

    ghost start_keeps = { λ t l e d agrees. tt };

    ghost answers = { λ w s t d. refl };

    ghost no_read = { λ w s t d none. refl };

    ghost no_write = { λ w s v t d none. refl };

    ghost few_pins = { λ d. one_pin };

    ghost moves_some = { λ t l e d agrees. moves_one t };
}
