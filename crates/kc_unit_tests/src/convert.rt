ghost use Rattle.std.specs.Prelude.{◌≤◌, ◌*◌};
ghost use Rattle.kc_base.specs.Limits.{max_states};
ghost use Rattle.kc_base.specs.Fresh.{IsFresh};

use kc_base::{Level, StateTime, Steps};
use kc_convert::{Analog, Converter, Pulses};
use kc_extra::{Extra, Pair};
use std::marker::Brand;
use std::process::Abort;
use std::sync::ledger::{Blank, Ledger};
use std::test::Fail;

const COMMAND: u8 = 0x02;

const RESULT_HIGH: u8 = 0x03;

const WIDTH: u8 = 0x17;

#[test]
fn a_value_stands_until_the_next_one_of_its_channel(rt: HostRuntime) -> Result<(), Fail> {
    let bytes: &[u8] = b"@10 2 777\n@10 3 1\n@20 3 2\n@30 2 0\n";
    let read = Analog::read(rt.alloc(), bytes);
    let first = read.ok().ok_or("no memory")?;
    let values = first.copy(rt.alloc()).ok().ok_or("no memory")?;
    let rows = [
        (2, 0, 0),
        (2, 9, 0),
        (2, 10, 777),
        (2, 29, 777),
        (2, 30, 0),
        (3, 19, 1),
        (3, 20, 2),
        (3, 1_000_000_000_000_000, 2),
        (7, 20, 0),
    ];
    for (channel, at, value) in rows {
        assert!(rt; first.value(channel, at) == value, "at {at}");
        assert!(rt; values.value(channel, at) == value, "at {at}");
    }
    assert!(rt; Analog::none(rt.alloc()).value(2, 10) == 0);
    Ok(())
}

// A state of a converter, and what it raises.
fn raised<L: Ledger>(converter: &mut Converter, at: StateTime, steps: &mut Steps<L>) -> u16
    requires { at ≤ 4 * max_states }
{
    converter.tick(at, 0, 0, steps).raised.0
}

// Goes on to the next end of a conversion, and reports its state; 0 where there is none.
fn ended<L: Ledger>(converter: &mut Converter, now: StateTime, steps: &mut Steps<L>) -> StateTime
    requires { now ≤ 4 * max_states }
{
    match converter.due(now, steps) {
        Some(due) if due <= 1000 => {
            converter.quiet_to(now, due, steps);
            if raised(converter, due, steps) == 2 {
                due
            } else {
                0
            }
        }
        _ => 0,
    }
}

// The result in two bytes.
fn result(converter: &mut Converter, now: StateTime) -> (Option<u8>, Option<u8>)
    requires { now ≤ 4 * max_states }
{
    let low = converter.read(0, COMMAND, now);
    (low, converter.read(0, RESULT_HIGH, now))
}

// Channel 2 is 777 in state 1018 alone; state 0 of the converter is state 1000.
fn converts<L: Ledger>(rt: &impl Abort, values: Analog, steps: &mut Steps<L>) {
    let mut converter = Converter::new(values, 1000);
    assert!(rt; converter.write(0, COMMAND, 0x0A, 10));
    assert!(rt; result(&mut converter, 10) == (Some(0x0A), Some(0)));
    for t in 11..90u64 {
        assert!(rt; raised(&mut converter, t, steps) == 0, "at {t}");
    }
    assert!(rt; result(&mut converter, 89) == (Some(0x0A), Some(0)));
    assert!(rt; raised(&mut converter, 90, steps) == 2);
    assert!(rt; result(&mut converter, 90) == (Some(0x42), Some(0xC2)));
    // In the state in which one ends the next begins, and is itself ended before its result.
    converter.write(0, COMMAND, 0x0B, 90);
    assert!(rt; result(&mut converter, 90) == (Some(0x4B), Some(0xC2)));
    converter.start(169);
    assert!(rt; ended(&mut converter, 170, steps) == 249);
    assert!(rt; result(&mut converter, 249) == (Some(0xC3), Some(0xFF)));
    // A command without GO begins nothing, but says the channel of the next start.
    converter.write(0, COMMAND, 0xF2, 250);
    assert!(rt; ended(&mut converter, 251, steps) == 0);
    assert!(rt; result(&mut converter, 251) == (Some(0xC3), Some(0xFF)));
    converter.start(300);
    converter.write(0, COMMAND, 0xF1, 300);
    assert!(rt; ended(&mut converter, 301, steps) == 380);
    assert!(rt; result(&mut converter, 381) == (Some(0x82), Some(1)));
    assert!(rt; !converter.write(1, COMMAND, 0x0A, 381));
    assert!(rt; converter.look(0, WIDTH, 381) == None);
}

// The edge of a state of the first output: its level, if it has one.
fn edge<L: Ledger>(pulses: &mut Pulses, at: StateTime, steps: &mut Steps<L>) -> Option<Level>
    requires { at ≤ 4 * max_states }
{
    let out = pulses.tick(at, 0, 0, steps);
    match out.moved.as_slice() {
        [edge] if edge.pin.0 == 38 && out.raised.0 == 0 => Some(edge.level),
        _ => None,
    }
}

// A width that is written in a state of the first period is taken over in state 256.
fn pulses_from<L: Ledger>(rt: &impl Abort, width: u8, phase: u8, steps: &mut Steps<L>) {
    let mut pulses = Pulses::new();
    let written = u64::from(phase);
    assert!(rt; pulses.write(0, WIDTH, width, written));
    for t in written + 1..520 {
        let wanted = match t % 256 {
            0 if t >= 256 && width > 0 => Some(Level::High),
            place if t >= 256 && place == u64::from(width) && width > 0 => Some(Level::Low),
            _ => None,
        };
        assert!(rt; edge(&mut pulses, t, steps) == wanted, "at {t}");
    }
}

// Goes on to the next edge of the first output, and reports its state; 0 where there is none.
fn edge_from<L: Ledger>(pulses: &mut Pulses, now: StateTime, steps: &mut Steps<L>) -> StateTime
    requires { now ≤ 4 * max_states }
{
    match pulses.due(now, steps) {
        Some(due) if due <= 1000 => {
            pulses.quiet_to(now, due, steps);
            if edge(pulses, due, steps).is_some() {
                due
            } else {
                0
            }
        }
        _ => 0,
    }
}

// Width 4 from state 256 on, by the edges alone, and none any more.
fn pulses_are_due<L: Ledger>(rt: &impl Abort, steps: &mut Steps<L>) {
    let mut pulses = Pulses::new();
    assert!(rt; edge_from(&mut pulses, 0, steps) == 0);
    pulses.write(0, WIDTH, 4, 3);
    assert!(rt; edge_from(&mut pulses, 4, steps) == 256);
    assert!(rt; edge_from(&mut pulses, 257, steps) == 260);
    assert!(rt; edge_from(&mut pulses, 261, steps) == 512);
    pulses.write(0, WIDTH, 0, 512);
    assert!(rt; edge_from(&mut pulses, 513, steps) == 516);
    assert!(rt; edge_from(&mut pulses, 517, steps) == 0);
}

fn pulses<L: Ledger>(rt: &impl Abort, steps: &mut Steps<L>) {
    for phase in [0u8, 1, 128, 254, 255] {
        for width in [0u8, 1, 255] {
            pulses_from(rt, width, phase, steps);
        }
    }
    pulses_are_due(rt, steps);
}

// Both as one unit: a conversion that ends in a state in which two outputs rise.
fn joins<L: Ledger>(rt: &impl Abort, values: Analog, steps: &mut Steps<L>) {
    let mut pair = Pair::of(Converter::new(values, 0), Pulses::new());
    assert!(rt; pair.write(1, WIDTH, 200, 5));
    assert!(rt; pair.write(0, WIDTH, 1, 5));
    assert!(rt; pair.write(0, COMMAND, 0x09, 176));
    match pair.due(177, steps) {
        Some(due) if due <= 1000 => {
            assert!(rt; due == 256);
            pair.quiet_to(177, due, steps);
        }
        _ => panic!(rt; "nothing is due"),
    }
    let out = pair.tick(256, 0, 0, steps);
    assert!(rt; out.raised.0 == 2);
    match out.moved.as_slice() {
        [first, third] => {
            assert!(rt; (first.pin.0, third.pin.0) == (38, 40));
            assert!(rt; first.level == Level::High && third.level == Level::High);
        }
        _ => panic!(rt; "no two edges"),
    }
    assert!(rt; pair.due(257, steps) == Some(257));
    assert!(rt; pair.look(0, COMMAND, 257) == Some(0x41));
}

fn all<L: Ledger>(rt: &impl Abort, one: Analog, other: Analog, blank: Blank)
    requires fresh { IsFresh blank L.name L.parts }
{
    let mut steps = Steps::<L>::new(blank);
    converts(rt, one, &mut steps);
    pulses(rt, &mut steps);
    joins(rt, other, &mut steps);
}

#[test]
fn conversions_and_pulses(rt: HostRuntime) -> Result<(), Fail> {
    let first: &[u8] = b"@0 2 5\n@0 3 1023\n@1018 2 777\n@1019 2 6\n";
    let second: &[u8] = b"@0 1 513\n";
    let one = Analog::read(rt.alloc(), first).ok().ok_or("no memory")?;
    let other = Analog::read(rt.alloc(), second).ok().ok_or("no memory")?;
    all::<Brand>(&rt, one, other, Blank::new(1));
    Ok(())
}
