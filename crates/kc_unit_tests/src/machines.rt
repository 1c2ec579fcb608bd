// Machines that have a beacon, alone and in a pair: each row has to come out the same.
ghost use Rattle.std.specs.Prelude.{◌≡◌, ◌≤◌, ◌*◌, false, length};
ghost use Rattle.kc_base.specs.Limits.{max_states};
ghost use Rattle.kc_base.specs.Fresh.{IsFresh};
ghost use Rattle.kc_unit_tests.specs.Starting.{FitsEachBoard};

use crate::beacon::Beacon;
use crate::metronome::Metronome;
use crate::rows::{ROW_OF_TWO, ROWS, Row};
use kc_base::{Image, MemSink, StateTime, Steps};
use kc_extra::{Extra, NoExtra, Pair};
use kc_machine::{End, Machine};
use kc_stim::Stimuli;
use kc_trace::TraceOut;
use std::alloc::Global;
use std::marker::Brand;
use std::sync::ledger::{Blank, Ledger};
use std::test::Fail;

/// Puts bytes into an image, from an address on.
pub(crate) fn put(image: &mut Image, at: u16, bytes: &[u8]) {
    let mut addr = at;
    for byte in bytes {
        if addr >= 0x2000 {
            image.set(addr, *byte);
        }
        addr = addr.wrapping_add(1);
    }
}

/// Runs a machine, and writes its end.
fn run<X: Extra + Drop, L: Ledger>(
    machine: &mut Machine<X>,
    until: StateTime,
    out: &mut TraceOut<MemSink>,
    blank: Blank,
) -> bool
    requires fresh { IsFresh blank L.name L.parts }
    requires unbroken { out.old.failed ≡ false }
    requires until { until ≤ 2 * max_states }
{
    let mut steps = Steps::<L>::new(blank);
    match machine.run(until, out, &mut steps) {
        Ok(End::Spent) => machine.write_finals(End::Spent, out).is_ok(),
        Ok(End::Undefined(what, access)) => {
            machine
                .write_finals(End::Undefined(what, access), out)
                .is_ok()
        }
        _ => false,
    }
}

/// Whether a row comes out on a board with this further unit.
fn is_right<X: Extra + Drop>(alloc: Global, row: &Row, extra: X) -> Result<bool, Fail>
    requires { FitsEachBoard X.agrees (X.plain extra) }
{
    let mut image = Image::blank(alloc)?;
    put(&mut image, 0x200C, &[0x00, 0x21]);
    put(&mut image, 0x2080, row.program);
    put(&mut image, 0x2100, row.service);
    if row.stimuli.len() > 100 || row.until > 1_000_000_000_000 {
        return Ok(false);
    }
    let stimuli = Stimuli::read(alloc, row.stimuli.as_bytes())?;
    let mut machine = Machine::new(alloc, image, stimuli, extra)?;
    let mut out = TraceOut::new(MemSink::new(alloc, 4096, Vec::new(alloc))?);
    let ran = run::<X, Brand>(&mut machine, row.until, &mut out, Blank::new(1));
    let printed = out.sink().written().starts_with(row.printed.as_bytes());
    let held = row
        .memory
        .iter()
        .all(|(addr, value)| machine.peek(*addr) == *value);
    Ok(ran && printed && held)
}

// A beacon alone, and as either of a pair.
#[test]
fn machines_with_a_beacon(rt: HostRuntime) -> Result<(), Fail> {
    for row in &ROWS {
        let first = Pair::of(Beacon::new(), NoExtra::new());
        let second = Pair::of(NoExtra::new(), Beacon::new());
        assert!(rt; is_right(rt.alloc(), row, Beacon::new())?, "{}", row.shows);
        assert!(rt; is_right(rt.alloc(), row, first)?, "{}", row.shows);
        assert!(rt; is_right(rt.alloc(), row, second)?, "{}", row.shows);
    }
    let one = Pair::of(Beacon::new(), Metronome::new());
    let other = Pair::of(Metronome::new(), Beacon::new());
    assert!(rt;
        is_right(rt.alloc(), &ROW_OF_TWO, one)?,
        "{}",
        ROW_OF_TWO.shows
    );
    assert!(rt;
        is_right(rt.alloc(), &ROW_OF_TWO, other)?,
        "{}",
        ROW_OF_TWO.shows
    );
    Ok(())
}
