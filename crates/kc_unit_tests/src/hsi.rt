ghost use Rattle.kc_base.specs.Fresh.{IsFresh};

use kc_base::Steps;
use kc_hsi::Hsi;
use std::marker::Brand;
use std::process::Abort;
use std::sync::ledger::{Blank, Ledger};
use std::test::Fail;

// The rises and falls of HSI0 in a state, if it changes in each state that 8 divides, from 16 to 80.
fn changing(t: u64) -> (u8, u8) {
    if !(16..=80).contains(&t) || t % 8 != 0 {
        (0, 0)
    } else if t % 16 == 0 {
        (1, 0)
    } else {
        (0, 1)
    }
}

// Nine events: one is held, seven wait, one is lost.
fn nine_events<L: Ledger>(rt: &impl Abort, mut unit: Hsi, steps: &mut Steps<L>) {
    unit.set_mode(3);
    for t in 0..96u64 {
        let (rising, falling) = changing(t);
        let out = unit.tick(t, rising, falling, 1, steps);
        assert!(rt; out.loaded == (t == 27), "at {t}");
        assert!(rt; out.fourth == (t == 55), "at {t}");
        assert!(rt; out.sixth == (t == 71), "at {t}");
    }
    assert!(rt; unit.flags() == 0xC0);
    assert!(rt; unit.read_status(5) == 0x23);
    assert!(rt; unit.read_time() == 2);
    assert!(rt; unit.flags() == 0x40);
    assert!(rt; unit.due(96, steps) == Some(99));
    for n in 0..8u64 {
        let out = unit.tick(99 + 8 * n, 0, 0, 1, steps);
        assert!(rt; out.loaded == (n < 7), "entry {n}");
        let time = unit.read_time();
        assert!(rt; u64::from(time) == 9.min(3 + n), "entry {n}");
    }
    assert!(rt; unit.flags() == 0);
    assert!(rt; unit.moves() == 104);
}

// Rises in each twentieth state from 20 on: the eighth is the event.
fn eight_rises<L: Ledger>(rt: &impl Abort, mut unit: Hsi, steps: &mut Steps<L>) {
    for t in 0..200u64 {
        let rising = u8::from(t % 20 == 0 && t != 0 && t <= 160);
        let out = unit.tick(t, rising, 0, 1, steps);
        assert!(rt; out.loaded == (t == 171), "at {t}");
    }
    assert!(rt; unit.read_time() == 20);
    match unit.due(200, steps) {
        None => unit.quiet_to(200, 1_000_000_000_000_000, steps),
        Some(_) => panic!(rt; "it is due"),
    }
    assert!(rt; unit.flags() == 0);
}

fn all<L: Ledger>(rt: &impl Abort, one: Hsi, other: Hsi, blank: Blank)
    requires fresh { IsFresh blank L.name L.parts }
{
    let mut steps = Steps::<L>::new(blank);
    nine_events(rt, one, &mut steps);
    eight_rises(rt, other, &mut steps);
}

#[test]
fn events_wait_and_a_long_span_is_passed(rt: HostRuntime) -> Result<(), Fail> {
    let one = Hsi::new(rt.alloc()).ok().ok_or("no memory")?;
    let other = Hsi::new(rt.alloc()).ok().ok_or("no memory")?;
    all::<Brand>(&rt, one, other, Blank::new(1));
    Ok(())
}
