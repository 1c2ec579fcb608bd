ghost use Rattle.std.specs.Prelude.{◌≤◌, ◌^◌, ◌*◌};
ghost use Rattle.kc_base.specs.Limits.{max_states};
ghost use Rattle.kc_base.specs.Fresh.{IsFresh};

use kc_base::{Kind, StateTime, Steps};
use kc_hso::{Fired, Hso};
use kc_timers::T2View;
use std::marker::Brand;
use std::process::Abort;
use std::sync::ledger::{Blank, Ledger};

const STANDING: T2View = T2View {
    value: 0,
    every: 0,
    down: false,
};

const LOADED: Fired = Fired {
    command: None,
    loaded: true,
};

/// Goes on to `to` where nothing is due before, and reports so.
fn goes_to<L: Ledger>(
    hso: &mut Hso,
    now: StateTime,
    to: StateTime,
    t2: T2View,
    steps: &mut Steps<L>,
) -> bool
    requires order { now ≤ to }
    requires bound { to ≤ 4 * max_states }
{
    let due = hso.due(now, t2, steps);
    let quiet = match due {
        None => true,
        Some(at) => to <= at,
    };
    if quiet {
        hso.quiet_to(now, to, t2, steps);
    }
    quiet
}

// Two hundred thousand spans of 524,280 states each, and one of nearly 10^15.
fn spans<L: Ledger>(rt: &impl Abort, steps: &mut Steps<L>) {
    let fired = Fired {
        command: Some(0x00),
        loaded: false,
    };
    for _ in 0..200_000u32 {
        let mut hso = Hso::new();
        hso.command(0x00);
        assert!(rt; hso.load_time(0xFFFF, false) == Ok(()));
        assert!(rt; hso.tick(0, 0, false, steps) == LOADED);
        assert!(rt; goes_to(&mut hso, 1, 524_280, STANDING, steps));
        assert!(rt; hso.tick(524_280, 0, false, steps) == fired);
    }
    let mut hso = Hso::new();
    hso.command(0x40);
    assert!(rt; hso.load_time(5, false) == Ok(()));
    assert!(rt; hso.tick(0, 0, false, steps) == LOADED);
    assert!(rt; goes_to(&mut hso, 1, 1_000_000_000_000_000, STANDING, steps));
    assert!(rt; hso.ios0() == 0);
    assert!(rt; hso.moves() == 2);
}

/// The next state from `now` on in which the unit fires, if it does before state 10^10; the unit is then past it.
fn next_fired<L: Ledger>(
    rt: &impl Abort,
    hso: &mut Hso,
    now: StateTime,
    t2: T2View,
    keep: bool,
    steps: &mut Steps<L>,
) -> Option<StateTime>
    requires { now ≤ 10 ^ 10 }
{
    let at = hso.due(now, t2, steps)?;
    assert!(rt; at < 10_000_000_000);
    hso.quiet_to(now, at, t2, steps);
    let out = hso.tick(at, t2.value_at(now, at), keep, steps);
    assert!(rt; out.command.is_some());
    Some(at)
}

/// Timer 2 as it is seen in state `to`, from the view of state 0.
fn seen_at(first: T2View, to: StateTime) -> T2View
    requires { to ≤ 10 ^ 10 }
{
    T2View {
        value: first.value_at(0, to),
        every: first.every,
        down: first.down,
    }
}

// An entry that is loaded in state `load` fires in these states and in no others before.
fn fire_states<L: Ledger>(rt: &impl Abort, steps: &mut Steps<L>) {
    // Timer 2 of state 0, the command, the time, the state of the load, IOC2.6, and the states in which it fires.
    for (value, every, down, command, time, load, keep, fired) in [
        (0, 0, false, 0x20, 10, 10, true, [Some(82), None, None]),
        (
            0,
            0,
            false,
            0xA0,
            1,
            10,
            true,
            [Some(524_298), Some(1_048_586), Some(1_572_874)],
        ),
        (0, 0, false, 0xA0, 1, 10, false, [Some(524_298), None, None]),
        (
            0,
            8,
            false,
            0xE0,
            1000,
            6,
            true,
            [Some(8006), Some(532_294), Some(1_056_582)],
        ),
        (
            100,
            8,
            true,
            0xC0,
            40,
            3,
            true,
            [Some(483), Some(524_771), Some(1_049_059)],
        ),
        (
            0,
            1,
            false,
            0xC0,
            13,
            5,
            true,
            [Some(13), Some(65_549), Some(131_085)],
        ),
        (0, 1, false, 0xC0, 14, 5, true, [None, None, None]),
        (0, 1, true, 0x40, 65_525, 3, true, [Some(11), None, None]),
        (5, 0, false, 0xC0, 5, 1, true, [Some(9), None, None]),
    ] {
        let first = T2View { value, every, down };
        let mut hso = Hso::new();
        hso.command(command);
        assert!(rt; hso.load_time(time, false) == Ok(()));
        assert!(rt; hso.tick(load, value, keep, steps) == LOADED);
        let mut now: StateTime = load + 1;
        for state in fired {
            assert!(rt; now < 10_000_000_000);
            let t2 = seen_at(first, now);
            assert!(rt; next_fired(rt, &mut hso, now, t2, keep, steps) == state);
            now = match state {
                Some(at) => at + 1,
                None => now,
            };
        }
    }
}

// Nine loads: eight entries stand, the ninth is held, and IOC2.7 takes them all away.
fn full<L: Ledger>(rt: &impl Abort, steps: &mut Steps<L>) {
    let mut hso = Hso::new();
    hso.command(0x26);
    assert!(rt; hso.load_time(0, false) == Ok(()));
    assert!(rt; hso.ios0() == 0xC0);
    assert!(rt; hso.tick(0, 0, false, steps) == LOADED);
    assert!(rt; hso.tick(524_288, 0, false, steps).command == Some(0x26));
    assert!(rt; hso.ios0() == 0x03);
    assert!(rt; hso.latch(1));
    assert!(rt; !hso.has_timer2());
    hso.command(0x40);
    for slot in 0..8u64 {
        assert!(rt; hso.load_time(9, false) == Ok(()));
        assert!(rt; hso.has_timer2());
        assert!(rt; hso.tick(slot, 0, false, steps) == LOADED);
    }
    assert!(rt; hso.ios0() == 0x43);
    assert!(rt; hso.load_time(9, true) == Err(Kind::FastTimer2));
    hso.command(0x4C);
    assert!(rt; hso.load_time(9, true) == Err(Kind::Channel));
    hso.command(0x00);
    assert!(rt; hso.load_time(9, true) == Ok(()));
    hso.command(0x4C);
    assert!(rt; hso.load_time(9, true) == Err(Kind::HoldingFull));
    assert!(rt; hso.ios0() == 0xC3);
    hso.clear();
    assert!(rt; hso.ios0() == 0x03);
    assert!(rt; !hso.has_timer2());
}

fn all<L: Ledger>(rt: &impl Abort, blank: Blank)
    requires fresh { IsFresh blank L.name L.parts }
{
    let mut steps = Steps::<L>::new(blank);
    spans(rt, &mut steps);
    fire_states(rt, &mut steps);
    full(rt, &mut steps);
}

#[test]
fn entries_fire_in_their_states(rt: HostRuntime) {
    all::<Brand>(&rt, Blank::new(1));
}
