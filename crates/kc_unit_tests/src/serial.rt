ghost use Rattle.std.specs.Prelude.{◌≡◌, ◌+◌, ◌≤◌, ◌*◌, bit_xor};
ghost use Rattle.kc_base.specs.Limits.{max_states};
ghost use Rattle.kc_base.specs.Fresh.{IsFresh};
ghost use Rattle.kc_base.specs.Bits.{bit};

use kc_base::{Level, Steps};
use kc_extra::Extra;
use kc_serial::Serial;
use std::marker::Brand;
use std::process::Abort;
use std::sync::ledger::{Blank, Ledger};

const SBUF: u8 = 0x07;

const RATE: u8 = 0x0E;

const CONTROL: u8 = 0x11;

/// A port, and whether its RXD was high in its last state.
#[derive(Drop)]
struct Wired {
    port: Serial,
    high: bool,
    ghost kept: { port.rxd ≡ high },
}

// RXD and its edge, from the level before.
fn masks(before: bool, high: bool) -> (u64, u64)
    ensures before { before ≡ bit (bit_xor result.0 result.1) 37 }
    ensures now { high ≡ bit result.0 37 }
{
    match (before, high) {
        (true, true) => (0x20_0000_0000, 0),
        (false, false) => (0, 0),
        (true, false) => (0, 0x20_0000_0000),
        (false, true) => (0x20_0000_0000, 0x20_0000_0000),
    }
}

impl Wired {
    // A port with this low byte of its rate.
    fn at_rate(rate: u8, control: u8) -> Wired {
        let mut wired = Wired {
            port: Serial::new(Level::High),
            high: true,
        };
        wired.put(RATE, rate);
        wired.put(RATE, 0x80);
        wired.put(CONTROL, control);
        wired
    }

    fn put(&mut self, sfr: u8, value: u8) {
        self.port.write(0, sfr, value, 0);
    }

    fn take(&mut self, sfr: u8) -> Option<u8> {
        self.port.read(0, sfr, 0)
    }

    // Goes on to the next state that is due, and reports it.
    fn goes_on<L: Ledger>(&mut self, now: u64, steps: &mut Steps<L>) -> Option<u64>
        requires { now ≤ 4 * max_states }
    {
        let due = self.port.due(now, steps)?;
        if due > 1000 {
            return None;
        }
        self.port.quiet_to(now, due, steps);
        Some(due)
    }

    // A state: what it raises, and the level that TXD takes.
    fn state<L: Ledger>(
        &mut self,
        at: u64,
        high: bool,
        steps: &mut Steps<L>,
    ) -> (u16, Option<Level>)
        requires { at ≤ 4 * max_states }
    {
        let (levels, edges) = masks(self.high, high);
        let out = self.port.tick(at, levels, edges, steps);
        self.high = high;
        match out.moved.as_slice() {
            [edge] => (out.raised.0, Some(edge.level)),
            _ => (out.raised.0, None),
        }
    }
}

fn level(high: bool) -> Level {
    if high { Level::High } else { Level::Low }
}

// 55H from state 20 on: each bit differs from the one before.
fn sends<L: Ledger>(rt: &impl Abort, rate: u8, bit: u64, end: u64, steps: &mut Steps<L>)
    requires some { 8 ≤ bit }
    requires bound { end ≤ 1000 }
{
    let mut port = Wired::at_rate(rate, 1);
    port.put(SBUF, 0x55);
    for t in 20..end {
        let wanted = if t % bit == 20 % bit {
            Some(level(t / bit % 2 == 1))
        } else {
            None
        };
        assert!(rt; port.state(t, true, steps) == (0, wanted), "at {t}");
    }
    assert!(rt; port.state(end, true, steps) == (0x140, None));
    assert!(rt; port.take(CONTROL) == Some(0x28));
    assert!(rt; port.take(CONTROL) == Some(0x08));
}

// 0FH, and 81H in place of 33H; or nothing behind 0FH, where the port is turned off.
fn waits<L: Ledger>(rt: &impl Abort, off: bool, steps: &mut Steps<L>) {
    let mut port = Wired::at_rate(0, 1);
    port.put(SBUF, 0x0F);
    port.put(SBUF, 0x33);
    port.put(SBUF, 0x81);
    if off {
        port.put(CONTROL, 0);
    }
    for t in 0..170u64 {
        let wanted = match t {
            0 | 40 => Some(Level::Low),
            8 | 72 => Some(Level::High),
            80 | 96 if !off => Some(Level::Low),
            88 | 144 if !off => Some(Level::High),
            _ => None,
        };
        let raised = if t == 80 || t == 160 && !off {
            0x140
        } else {
            0
        };
        assert!(rt; port.state(t, true, steps) == (raised, wanted), "at {t}");
    }
}

// RXD changes each 8 states from 100 to 172; from 300 on it is low.
fn receives<L: Ledger>(rt: &impl Abort, steps: &mut Steps<L>) {
    let mut port = Wired::at_rate(0, 9);
    for t in 100..177u64 {
        let (raised, _) = port.state(t, t % 16 >= 12 || t % 16 < 4, steps);
        assert!(rt; raised == (if t == 176 { 0x240 } else { 0 }), "at {t}");
    }
    assert!(rt; port.port.look(0, CONTROL, 177) == Some(0x48));
    assert!(rt; port.take(SBUF) == Some(0x55));
    assert!(rt; port.state(300, false, steps) == (0, None));
    assert!(rt; port.goes_on(301, steps) == Some(376));
    assert!(rt; port.state(376, false, steps) == (0x240, None));
    assert!(rt; port.take(SBUF) == Some(0));
    assert!(rt; port.take(CONTROL) == Some(0x5C));
}

// At each of ten rates each byte goes from one port to another, whose RXD is the TXD of the first.
fn carries<L: Ledger>(rt: &impl Abort, steps: &mut Steps<L>) {
    for rate in 0..10u8 {
        let bit = 8 * (u64::from(rate) + 1);
        let mut sender = Wired::at_rate(rate, 1);
        let mut receiver = Wired::at_rate(rate, 9);
        for byte in 0..=255u8 {
            let mut line = true;
            sender.put(SBUF, byte);
            for t in 0..10 * bit + 1 {
                let (sent, moved) = sender.state(t, true, steps);
                line = match moved {
                    Some(level) => level == Level::High,
                    None => line,
                };
                let (received, _) = receiver.state(t, line, steps);
                assert!(rt; sent == if t == 10 * bit { 0x140 } else { 0 });
                assert!(rt; received == if t == 9 * bit + bit / 2 { 0x240 } else { 0 });
            }
            assert!(rt; receiver.take(SBUF) == Some(byte), "at {rate}");
            assert!(rt; receiver.take(CONTROL) == Some(0x48));
            assert!(rt; sender.take(CONTROL) == Some(0x28));
        }
    }
}

fn all<L: Ledger>(rt: &impl Abort, blank: Blank)
    requires fresh { IsFresh blank L.name L.parts }
{
    let mut steps = Steps::<L>::new(blank);
    sends(rt, 0, 8, 100, &mut steps);
    sends(rt, 2, 24, 260, &mut steps);
    waits(rt, false, &mut steps);
    waits(rt, true, &mut steps);
    receives(rt, &mut steps);
    carries(rt, &mut steps);
}

#[test]
fn bytes_are_sent_and_received(rt: HostRuntime) {
    all::<Brand>(&rt, Blank::new(1));
}
