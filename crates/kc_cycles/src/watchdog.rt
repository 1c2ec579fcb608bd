ghost use Rattle.std.specs.Prelude.{◌≡◌, ℕ, ◌+◌, ◌-◌, ◌*◌, ◌≤◌, Bool, List, [], Option, false, is_some, bit_xor};
ghost use Rattle.kc_base.specs.Limits.{max_states};
ghost use Rattle.kc_cycles.specs.Watching.{new_watchdog, fed, watchdog_further};

use kc_base::{StateTime, Steps};
use kc_extra::{Extra, ExtraOut, NoExtra};
use std::sync::ledger::Ledger;

/// The address of WATCHDOG in window 0.
const WATCHDOG: u8 = 0x0A;

/// The two values that feed the watchdog, one directly after the other.
const FIRST_HALF: u8 = 0x1E;

const SECOND_HALF: u8 = 0xE1;

/// How many states a feeding lasts.
pub const PATIENCE: u64 = 65_536;

/// The watchdog. It begins with the first feeding, and never raises a request or moves a pin by itself; whoever runs the
/// machine looks at its deadline.
#[derive(Drop)]
pub struct Watchdog {
    /// Whether the last value written was the first of the two.
    pub(crate) half_fed: bool,
    pub(crate) deadline: Option<StateTime>,
    /// Ticks do nothing, and no register is read.
    pub(crate) idle: NoExtra,
}

impl Watchdog {
    /// A watchdog that nothing has fed.
    pub fn new() -> Watchdog
        ensures { result ≡ new_watchdog }
    {
        Watchdog {
            half_fed: false,
            deadline: None,
            idle: NoExtra::new(),
        }
    }

    /// The state at whose start it resets the chip, 65,536 states after that of the last feeding; `None` before the first.
    pub fn deadline(&self) -> Option<StateTime>
        ensures { result ≡ self.now.deadline }
    {
        self.deadline
    }

    // A value is written in a state.
    fn take(&mut self, value: u8, now: StateTime)
        requires { now ≤ 4 * max_states }
        ensures { self.new ≡ fed value now self.old }
    {
        if self.half_fed && value == SECOND_HALF {
            self.deadline = Some(now + PATIENCE);
        }
        self.half_fed = value == FIRST_HALF;
    }
}

impl Extra for Watchdog {
    ghost plain = { λ d. record d { idle = record { moves = 0 } } };

    ghost moved = { λ d. d.idle.moves };

    ghost further = { watchdog_further };

    ghost agrees = { λ levels edges d. Unit {0} };

    ghost pins = { [] };

    fn due<L: Ledger>(&self, now: StateTime, steps: &mut Steps<L>) -> Option<StateTime> {
        self.idle.due(now, steps)
    }

    fn quiet_to<L: Ledger>(&mut self, now: StateTime, to: StateTime, steps: &mut Steps<L>) {
        self.idle.quiet_to(now, to, steps);
    }

    fn tick<L: Ledger>(
        &mut self,
        now: StateTime,
        levels: u64,
        edges: u64,
        steps: &mut Steps<L>,
    ) -> ExtraOut {
        self.idle.tick(now, levels, edges, steps)
    }

    fn read(&mut self, window: u8, sfr: u8, now: StateTime) -> Option<u8> {
        self.idle.read(window, sfr, now)
    }

    fn write(&mut self, window: u8, sfr: u8, value: u8, now: StateTime) -> bool {
        let own = self.takes(window, sfr);
        if own {
            self.take(value, now);
        }
        own
    }

    fn look(&self, window: u8, sfr: u8, now: StateTime) -> Option<u8> {
        self.idle.look(window, sfr, now)
    }

    fn takes(&self, window: u8, sfr: u8) -> bool {
        window == 0 && sfr == WATCHDOG
    }

    fn moves(&self) -> u64 {
        self.idle.moves()
    }

    fn start(&mut self, now: StateTime) {
        self.idle.start(now);
    }

    ghost use Rattle.std.specs.Prelude.{refl};
    ghost use Rattle.kc_extra.specs.Few.{no_pins};
    ghost use Rattle.kc_cycles.specs.WatchLaws.{not_written};

    ghost plain_again = { λ d. refl };

    ghost none_moved = { λ d. refl };

    ghost rests = { λ t levels d _. refl };

    ghost rests_out = { λ t levels d _. refl };

    ghost keeps = { λ t levels edges next d _. tt };

    ghost rest_keeps = { λ t levels edges d _. tt };

    ghost read_keeps = { λ window sfr t levels edges d _. tt };

    ghost write_keeps = { λ window sfr value t levels edges d _. tt };

    ghost start_keeps = { λ t levels edges d _. tt };

    ghost answers = { λ window sfr t d. refl };

    ghost no_read = { λ window sfr t d _. refl };

    ghost no_write = { not_written };

    ghost few_pins = { λ d. no_pins };

    ghost moves_some = { λ t levels edges d _. tt };
}
