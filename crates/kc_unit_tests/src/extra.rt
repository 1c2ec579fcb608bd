ghost use Rattle.kc_base.specs.Fresh.{IsFresh};

use kc_base::{Level, Steps};
use kc_convert::Pulses;
use kc_extra::{Extra, NoExtra, Pair};
use kc_serial::Serial;
use std::marker::Brand;
use std::process::Abort;
use std::sync::ledger::{Blank, Ledger};

// A pair of units that have no register and are never due.
fn two_that_do_nothing<L: Ledger>(rt: &impl Abort, steps: &mut Steps<L>) {
    let mut pair = Pair::of(NoExtra::new(), NoExtra::new());
    let out = pair.tick(2, 0, 0, steps);
    assert!(rt; out.raised.0 == 0);
    assert!(rt; out.moved.as_slice().len() == 0);
    match pair.due(3, steps) {
        None => pair.quiet_to(3, 1000, steps),
        Some(_) => panic!(rt; "it is due"),
    }
    pair.start(1000);
    assert!(rt; pair.read(0, 0x11, 1000) == None);
    assert!(rt; pair.look(0, 0x11, 1000) == None);
    assert!(rt; !pair.write(0, 0x11, 9, 1000));
    assert!(rt; !pair.takes(1, 0x16));
    assert!(rt; pair.moves() == 2);
    assert!(rt; pair.first().moves() == 2);
    assert!(rt; pair.second().moves() == 2);
}

// Three pulses and a byte begin in state 256: the edges come in the order of the pins, also where those of the first unit are
// the higher ones.
fn edges_in_order<L: Ledger>(rt: &impl Abort, steps: &mut Steps<L>) {
    let mut pulses = Pulses::new();
    pulses.write(0, 0x17, 1, 255);
    pulses.write(1, 0x16, 2, 255);
    pulses.write(1, 0x17, 3, 255);
    let mut port = Serial::new(Level::High);
    port.write(0, 0x11, 1, 255);
    port.write(0, 0x07, 0x55, 255);
    let mut pair = Pair::of(pulses, port);
    let out = pair.tick(256, 0x20_0000_0000, 0, steps);
    match out.moved.as_slice() {
        [first, second, third, fourth] => {
            assert!(rt; (first.pin.0, second.pin.0) == (36, 38));
            assert!(rt; (third.pin.0, fourth.pin.0) == (39, 40));
            assert!(rt; first.level == Level::Low && fourth.level == Level::High);
        }
        _ => panic!(rt; "no four edges"),
    }
}

fn all<L: Ledger>(rt: &impl Abort, blank: Blank)
    requires fresh { IsFresh blank L.name L.parts }
{
    let mut steps = Steps::<L>::new(blank);
    two_that_do_nothing(rt, &mut steps);
    edges_in_order(rt, &mut steps);
}

#[test]
fn pairs_of_units(rt: HostRuntime) {
    all::<Brand>(&rt, Blank::new(1));
}
