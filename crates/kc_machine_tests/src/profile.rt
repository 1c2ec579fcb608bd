// A program that is entered, served and idle, with the numbers of a model in another language.
ghost use Rattle.std.specs.Prelude.{◌≡◌, ◌+◌, ◌≤◌, false, OnOk};
ghost use Rattle.kc_base.specs.Fresh.{IsFresh};
ghost use Rattle.kc_profile.specs.Statistics.{AreAllFew};
ghost use Rattle.kc_profile.specs.Tally.{total};

use crate::board::machine_of;
use kc_base::{MemSink, Steps};
use kc_extra::NoExtra;
use kc_machine::Machine;
use kc_profile::{Profile, Spot, Statistics, run_profiled};
use kc_trace::TraceOut;
use std::alloc::Global;
use std::marker::Brand;
use std::sync::ledger::{Blank, Ledger};
use std::test::Fail;

// At 2080H: LD 18H,#100H; LDB 8H,#20H; LDB 9H,#20H; EI; NOP; DI; LDB 14H,#1; LD 4H,#20H; LDB 14H,#0; LD 40H,#0201H;
// LD 42H,#50H; LD 44H,#60H; LD 46H,#3; EPTS; EI; LDB 9H,#20H; NOP; LD 34H,#70H; LD 36H,#78H; LD 38H,#3; BMOV 34H,38H; IDLPD #1
const MAIN: &[u8] = &[
    0xA1, 0x00, 0x01, 0x18, 0xB1, 0x20, 0x08, 0xB1, 0x20, 0x09, 0xFB, 0xFD, 0xFA, 0xB1, 0x01, 0x14,
    0xA1, 0x20, 0x00, 0x04, 0xB1, 0x00, 0x14, 0xA1, 0x01, 0x02, 0x40, 0xA1, 0x50, 0x00, 0x42, 0xA1,
    0x60, 0x00, 0x44, 0xA1, 0x03, 0x00, 0x46, 0xED, 0xFB, 0xB1, 0x20, 0x09, 0xFD, 0xA1, 0x70, 0x00,
    0x34, 0xA1, 0x78, 0x00, 0x36, 0xA1, 0x03, 0x00, 0x38, 0xC1, 0x38, 0x34, 0xF6, 0x01,
];

// At 2100H: NOP; RET
const HANDLER: &[u8] = &[0xFD, 0xF0];

// The vectors of the handler, and of the server's block at 40H.
const PARTS: [(u16, &[u8]); 4] = [
    (0x200A, &[0x00, 0x21]),
    (0x204A, &[0x40, 0x00]),
    (0x2080, MAIN),
    (0x2100, HANDLER),
];

// Goes on to a state, 1,000 at most, from a machine whose states are counted.
fn go<L: Ledger>(
    machine: &mut Machine<NoExtra>,
    profile: &mut Profile,
    statistics: &mut Statistics,
    until: u64,
    out: &mut TraceOut<MemSink>,
    steps: &mut Steps<L>,
) -> Result<(), Fail>
    requires until { until ≤ 1000 }
    requires unbroken { out.old.failed ≡ false }
    requires time { machine.old.machine.time ≤ 1000 }
    requires counted { total profile.old ≤ 1000 }
    requires few { AreAllFew 1000 statistics.old }
    ensures unbroken { OnOk result (out.new.failed ≡ false) }
    ensures time { machine.new.machine.time ≤ 1000 }
    ensures counted { total profile.new ≤ total profile.old + 1000 }
    ensures few { AreAllFew 0 statistics.old → AreAllFew 1000 statistics.new }
{
    match run_profiled(machine, profile, statistics, until, out, steps) {
        Ok(_) => Ok(()),
        Err(_) => Err("the sink failed".into()),
    }
}

// The profile of the first 1,000 states, in two runs of which the first ends within an activity.
fn counted<L: Ledger>(alloc: Global, blank: Blank) -> Result<Profile, Fail>
    requires fresh { IsFresh blank L.name L.parts }
{
    let mut machine = machine_of(alloc, &PARTS)?;
    let mut profile = Profile::new(alloc)?;
    let mut statistics = Statistics::new(alloc, 1)?;
    let mut out = TraceOut::new(MemSink::new(alloc, 4096, Vec::new(alloc))?);
    let mut steps = Steps::<L>::new(blank);
    go(
        &mut machine,
        &mut profile,
        &mut statistics,
        97,
        &mut out,
        &mut steps,
    )?;
    go(
        &mut machine,
        &mut profile,
        &mut statistics,
        1000,
        &mut out,
        &mut steps,
    )?;
    Ok(profile)
}

#[test]
fn states_are_counted_over_two_runs(rt: HostRuntime) -> Result<(), Fail> {
    let profile = counted::<Brand>(rt.alloc(), Blank::new(1))?;
    assert!(rt; profile.states(Spot::At(0x20B9)) == 30);
    assert!(rt; profile.states(Spot::Entry(5)) == 24);
    assert!(rt; profile.states(Spot::Server(5)) == 33);
    assert!(rt; profile.states(Spot::Idle) == 797);
    Ok(())
}
