ghost use Rattle.std.specs.Prelude.{◌≡◌, ℕ, ◌+◌, ◌-◌, ◌*◌, ◌≤◌, ◌^◌, ◌%◌, ◌∷◌, Bool, List, [], Option, false, is_some, bit_xor};
ghost use Rattle.kc_base.specs.Levels.{is_high as is_high_level};
ghost use Rattle.kc_span.specs.Span.{after, QuietFor, IsDue, one_more};
ghost use Rattle.kc_extra.specs.Further.{Further, further_rule};
ghost use Rattle.kc_extra.specs.Pins.{AreFew, MoveSome};
ghost use Rattle.kc_serial.specs.Port.{start as start_of, requests as requests_of, flags_after as flags_set, txd_edges as edges_of_txd, Keeps};
ghost use Rattle.kc_serial.specs.Registers.{is_readable as readable, is_writable as writable};
ghost use Rattle.kc_serial.specs.Unit.{serial_further};

use crate::receiving::{
    Reception, completes, older_reception, received_after, reception_after, reception_left,
};
use crate::registers::{
    BAUD_RATE, SBUF, SP_CON, is_readable, is_writable, receives, status, write_byte, write_control,
    write_rate,
};
use crate::sending::{
    Sending, ends, older_sending, sending_after, sending_left, shown, waiting_after,
};
use kc_base::{Edge, IntSet, Level, Pin, StateTime, Steps};
use kc_extra::{Extra, ExtraOut, Moved};
use kc_span::earlier;
use std::sync::ledger::Ledger;

/// The flags of SP_STAT that a read of it clears: RI, TI, FE and OE.
#[derive(Clone, Copy, Default, PartialEq, Eq)]
pub struct Flags {
    pub received: bool,
    pub sent: bool,
    pub framing: bool,
    pub overrun: bool,
}

/// The serial port, with the level that RXD had in the last state, and how often the port was moved.
#[derive(Drop)]
pub struct Serial {
    pub(crate) rate: u16,
    pub(crate) control: u8,
    pub(crate) flags: Flags,
    pub(crate) received: u8,
    pub(crate) waiting: Option<u8>,
    pub(crate) sending: Sending,
    pub(crate) reception: Option<Reception>,
    pub(crate) rxd: bool,
    pub(crate) moves: u64,
}

impl Serial {
    /// A port that is off, with the level of RXD before its first state.
    pub fn new(rxd: Level) -> Serial
        ensures start { result ≡ start_of rxd }
        ensures keeps { (before levels : ℕ) → has_pin before rxd_pin ≡ is_high_level rxd → Keeps levels (bit_xor before levels) result }
    {
        Serial {
            rate: 0,
            control: 0,
            flags: Flags::default(),
            received: 0,
            waiting: None,
            sending: Sending::Idle,
            reception: None,
            rxd: rxd.is_high(),
            moves: 0,
        }
    }
}

fn is_rxd(mask: u64) -> bool
    ensures { result ≡ has_pin mask rxd_pin }
{
    (mask >> Pin::RXD.0) % 2 == 1
}

/// The requests of a state in which a frame ends, or a reception.
fn requests(sent: bool, received: bool) -> IntSet
    ensures { result.0 ≡ requests_of sent received }
{
    let sending = if sent { 0x140 } else { 0 };
    let receiving = if received { 0x240 } else { 0 };
    IntSet(sending | receiving)
}

fn flags_after(high: bool, port: &Serial) -> Flags
    ensures { result ≡ flags_set high port.now }
{
    let sent = ends(port.sending);
    let received = completes(port.reception);
    let flags = port.flags;
    Flags {
        received: flags.received | received,
        sent: flags.sent | sent,
        framing: flags.framing | (received & !high),
        overrun: flags.overrun | (received & flags.received),
    }
}

/// The edge of TXD between two levels, if there is one.
fn txd_edges(old: bool, new: bool) -> Moved
    ensures { result ≡ edges_of_txd old new }
{
    let mut moved = Moved::none();
    if old != new {
        let level = if new { Level::High } else { Level::Low };
        moved.push(Edge {
            pin: Pin::TXD,
            level,
        });
    }
    moved
}

ghost use Rattle.kc_base.specs.Bits.{bit as has_pin};
ghost use Rattle.kc_base.specs.Pins.{txd as txd_pin, rxd as rxd_pin};

impl Extra for Serial {
    ghost plain = { λ x. record x { moves = 0 } };

    ghost moved = { λ x. x.moves };

    ghost further = { serial_further };

    ghost agrees = { λ l e d. Keeps l e d };

    ghost pins = { txd_pin ∷ [] };

    fn due<L: Ledger>(&self, now: StateTime, steps: &mut Steps<L>) -> Option<StateTime> {
        steps.add();
        let sending = sending_left(self.sending);
        let receiving = reception_left(self.rxd, self.reception);
        match earlier(sending, receiving) {
            Some(states) => Some(now + states),
            None => None,
        }
    }

    fn quiet_to<L: Ledger>(&mut self, now: StateTime, to: StateTime, steps: &mut Steps<L>) {
        steps.add();
        self.moves = self.moves.saturating_add(1);
        self.sending = older_sending(to - now, self.sending);
        self.reception = older_reception(self.rxd, to - now, self.reception);
    }

    fn tick<L: Ledger>(
        &mut self,
        _now: StateTime,
        levels: u64,
        edges: u64,
        steps: &mut Steps<L>,
    ) -> ExtraOut {
        steps.add();
        self.moves = self.moves.saturating_add(1);
        let high = is_rxd(levels);
        let begins = is_rxd(edges) && !high && receives(self.control);
        let raised = requests(ends(self.sending), completes(self.reception));
        let before = shown(self.sending);
        self.flags = flags_after(high, self);
        self.received = received_after(self.received, self.reception);
        self.reception = reception_after(self.rate, high, begins, self.reception);
        let sending = sending_after(self.rate, self.waiting, self.sending);
        self.waiting = waiting_after(self.waiting, self.sending);
        self.sending = sending;
        self.rxd = high;
        ExtraOut {
            raised,
            moved: txd_edges(before, shown(sending)),
        }
    }

    fn read(&mut self, window: u8, sfr: u8, now: StateTime) -> Option<u8> {
        let value = self.look(window, sfr, now);
        if is_readable(window, sfr) && sfr == SP_CON {
            self.flags = Flags::default();
        }
        value
    }

    fn write(&mut self, window: u8, sfr: u8, value: u8, _now: StateTime) -> bool {
        if !is_writable(window, sfr) {
            return false;
        }
        match sfr {
            SBUF => write_byte(self, value),
            BAUD_RATE => write_rate(self, value),
            _ => write_control(self, value),
        }
        true
    }

    fn look(&self, window: u8, sfr: u8, _now: StateTime) -> Option<u8> {
        if !is_readable(window, sfr) {
            return None;
        }
        if sfr == SBUF {
            Some(self.received)
        } else {
            Some(status(self))
        }
    }

    fn takes(&self, window: u8, sfr: u8) -> bool {
        is_writable(window, sfr)
    }

    fn moves(&self) -> u64 {
        self.moves
    }

    fn start(&mut self, _now: StateTime) {}

    ghost use Rattle.std.specs.Prelude.{refl, if◌then◌else◌};
    ghost use Rattle.std.proofs.Common.{ap};
    ghost use Rattle.kc_serial.specs.Laws.{still, kept_on, kept_by_read, kept_by_write, answers_if, no_read_if, no_write_if, txd_alone, moves_txd};

    ghost plain_again = { λ d. refl };

    ghost none_moved = { λ d. refl };

    ghost rests = { λ t l d h. still l d h };

    ghost rests_out = { λ t l d h. refl };

    ghost keeps = { λ t l e m d h. kept_on l e m d };

    ghost rest_keeps = { λ t l e d h. h };

    ghost read_keeps = { λ w s t l e d h. kept_by_read w s l e d h };

    ghost write_keeps = { λ w s v t l e d h. kept_by_write w s v l e d h };

    ghost start_keeps = { λ t l e d h. h };

    ghost answers = { λ w s t d. answers_if (readable w s) (answer_value s d) };

    ghost no_read = { λ w s t d h. no_read_if w s d h };

    ghost no_write = { λ w s v t d h. no_write_if w s v d h };

    ghost few_pins = { λ d. txd_alone };

    ghost moves_some = { λ t l e d h. moves_txd (shown_by d.sending) (shown_by (after_state d.rate d.waiting d.sending)) };
}

ghost use Rattle.kc_serial.specs.Registers.{answer_value};
ghost use Rattle.kc_serial.specs.Frames.{shown as shown_by, sending_after as after_state};
