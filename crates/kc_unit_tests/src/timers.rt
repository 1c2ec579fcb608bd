ghost use Rattle.kc_base.specs.Fresh.{IsFresh};

use kc_base::Steps;
use kc_timers::{T2Control, T2Inputs, T2Out, Timer2, timer1, timer1_due};
use std::marker::Brand;
use std::process::Abort;
use std::sync::ledger::{Blank, Ledger};

const OUTER: T2Control = T2Control {
    hsi1: false,
    internal: false,
    fast: false,
    down: false,
    reset_on: false,
    reset_hsi0: false,
};

const SLOW: T2Control = T2Control {
    hsi1: false,
    internal: true,
    fast: false,
    down: false,
    reset_on: false,
    reset_hsi0: false,
};

const FAST_DOWN: T2Control = T2Control {
    hsi1: false,
    internal: true,
    fast: true,
    down: true,
    reset_on: false,
    reset_hsi0: false,
};

const NOTHING: T2Inputs = T2Inputs {
    clock: false,
    reset: false,
    capture: false,
};

const CLOCK: T2Inputs = T2Inputs {
    clock: true,
    reset: false,
    capture: false,
};

const RESET_AND_CAPTURE: T2Inputs = T2Inputs {
    clock: true,
    reset: true,
    capture: true,
};

const QUIET: T2Out = T2Out {
    overflow: false,
    captured: false,
};

const OVERFLOW: T2Out = T2Out {
    overflow: true,
    captured: false,
};

const CAPTURED: T2Out = T2Out {
    overflow: false,
    captured: true,
};

#[test]
fn timer1_reads_and_overflows(rt: HostRuntime) {
    for (t, value, due) in [
        (0, 0, 524287),
        (87, 10, 524287),
        (524287, 65535, 524287),
        (524288, 0, 1048575),
        (1_000_000_000_000_000, 53248, 1_000_000_000_098_303),
    ] {
        assert!(rt; timer1(t) == value);
        assert!(rt; timer1_due(t) == due);
    }
}

fn ticks<L: Ledger>(rt: &impl Abort, steps: &mut Steps<L>) {
    for (control, inputs, now, before, after, captured, out) in [
        (SLOW, NOTHING, 7, 5, 6, 0, QUIET),
        (SLOW, CLOCK, 6, 5, 5, 0, QUIET),
        (SLOW, NOTHING, 15, 65535, 0, 0, OVERFLOW),
        (FAST_DOWN, NOTHING, 6, 0, 65535, 0, OVERFLOW),
        (OUTER, NOTHING, 7, 65535, 65535, 0, QUIET),
        (OUTER, CLOCK, 6, 65535, 0, 0, OVERFLOW),
        (OUTER, RESET_AND_CAPTURE, 6, 65535, 0, 65535, CAPTURED),
    ] {
        let mut timer = Timer2::new();
        timer.write(before);
        assert!(rt; timer.tick(now, control, inputs, steps) == out);
        assert!(rt; timer.value() == after);
        assert!(rt; timer.captured() == captured);
        assert!(rt; timer.moves() == 1);
    }
}

fn dues<L: Ledger>(rt: &impl Abort, steps: &mut Steps<L>) {
    for (control, now, value, due) in [
        (SLOW, 0, 0, Some(524287)),
        (SLOW, 9, 65535, Some(15)),
        (FAST_DOWN, 100, 0, Some(100)),
        (FAST_DOWN, 100, 65535, Some(65635)),
        (OUTER, 100, 65535, None),
    ] {
        let mut timer = Timer2::new();
        timer.write(value);
        assert!(rt; timer.due(now, control, steps) == due);
        assert!(rt; timer.moves() == 0);
    }
    assert!(rt; Timer2::new().view(SLOW).value_at(0, 17) == 2);
}

// Two hundred thousand spans of 524,280 states each.
fn spans<L: Ledger>(rt: &impl Abort, steps: &mut Steps<L>) {
    let mut timer = Timer2::new();
    for _ in 0..200_000u32 {
        timer.write(0);
        timer.quiet_to(0, 524_280, SLOW, steps);
        assert!(rt; timer.value() == 65535);
    }
    assert!(rt; timer.moves() == 200_000);
}

fn all<L: Ledger>(rt: &impl Abort, blank: Blank)
    requires fresh { IsFresh blank L.name L.parts }
{
    let mut steps = Steps::<L>::new(blank);
    ticks(rt, &mut steps);
    dues(rt, &mut steps);
    spans(rt, &mut steps);
}

#[test]
fn timer2_by_ticks_and_by_spans(rt: HostRuntime) {
    all::<Brand>(&rt, Blank::new(1));
}
