// A block that has a beacon: what it shows, what it lends, and that the one leads to the other.
ghost use Rattle.std.specs.Prelude.{◌≡◌};
ghost use Rattle.kc_base.specs.Fresh.{IsFresh};

use crate::beacon::Beacon;
use kc_base::{Kind, MemSink, StateTime, Steps};
use kc_block::{Block, Window};
use kc_extra::Extra;
use kc_stim::Stimuli;
use kc_trace::TraceOut;
use std::marker::Brand;
use std::process::Abort;
use std::sync::ledger::{Blank, Ledger};
use std::test::Fail;

/// How many states of a period of single states are left: as the block shows it, and as its lent beacon leads to it.
fn left(rt: &impl Abort, block: &mut Block<Beacon>) -> (u8, u64) {
    let now = block.time();
    let at = block.standing(3);
    assert!(rt; at <= now);
    let lent = block.extra().look(0, 0x02, at);
    let quiet = now - at;
    let Some(lent) = lent else {
        panic!(rt; "it has no count");
    };
    (
        block.look(Window::Window0, 0x02),
        u64::from(lent).saturating_sub(quiet),
    )
}

fn lends<L: Ledger>(
    rt: &impl Abort,
    block: &mut Block<Beacon>,
    out: &mut TraceOut<MemSink>,
    blank: Blank,
)
    requires new { block.old.time ≡ 0 }
    requires fresh { IsFresh blank L.name L.parts }
{
    let mut steps = Steps::<L>::new(blank);
    block.advance(10, out, &mut steps);
    assert!(rt; block.due() == u64::MAX);
    // The period is written in state 9, and ends in 109 and 209.
    assert!(rt; block.write8_here(Window::Window0, 0x02, 100, out, &mut steps) == Ok(()));
    assert!(rt; block.due() == 109);
    for (state, shown) in [(10, 100), (60, 50), (109, 1), (110, 100), (209, 1)] {
        assert!(rt; block.time() <= state);
        block.advance(state, out, &mut steps);
        assert!(rt; left(rt, block) == (shown, u64::from(shown)));
    }
    assert!(rt; block.due() == 209);
    assert!(rt; block.requests().pending == 64);
    // A read of the lamps reports once that a period has ended; a look does not take it away.
    for shown in [0x82, 0x02] {
        assert!(rt; block.look(Window::Window1, 0x16) == shown);
        assert!(rt; block.read8_here(Window::Window1, 0x16, &mut steps) == Ok(shown));
    }
    assert!(rt; block.read8_here(Window::Window15, 0x16, &mut steps) == Err(Kind::NoRegister));
    assert!(rt; block.read8_here(Window::Window1, 0x02, &mut steps) == Err(Kind::NoRegister));
    assert!(rt; block.look(Window::Window15, 0x16) == 0);
    // The beacon was not moved state by state; the other lent units are as at the start.
    assert!(rt; block.extra().moves() < 100);
    assert!(rt; block.timer2().value() == 0);
    assert!(rt; block.hso().moves() == 0);
    assert!(rt; block.hsi().moves() == 0);
    for unit in 0..4 {
        assert!(rt; block.standing(unit) <= 209);
    }
}

#[test]
fn a_block_lends_its_beacon(rt: HostRuntime) -> Result<(), Fail> {
    let mut block = Block::new(rt.alloc(), Stimuli::none(rt.alloc()), Beacon::new())?;
    let mut out = TraceOut::new(MemSink::new(rt.alloc(), 256, Vec::new(rt.alloc()))?);
    lends::<Brand>(&rt, &mut block, &mut out, Blank::new(1));
    assert!(rt; out.sink().written() == b"P 109 HSO2 1\n".as_slice());
    Ok(())
}
