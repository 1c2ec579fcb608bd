// A script whose output fails. The lines are those of a model in another language.
ghost use Rattle.std.specs.Prelude.{◌≡◌, false};
ghost use Rattle.kc_base.specs.Fresh.{IsFresh};

use crate::board::machine_of;
use kc_base::{MemSink, Steps};
use kc_debug::{LineMap, Script, Session};
use kc_extra::NoExtra;
use kc_machine::Machine;
use kc_trace::TraceOut;
use std::alloc::Global;
use std::marker::Brand;
use std::sync::ledger::{Blank, Ledger};
use std::test::Fail;

fn run_counted<L: Ledger>(
    session: &mut Session,
    script: &Script,
    machine: &mut Machine<NoExtra>,
    out: &mut TraceOut<MemSink>,
    blank: Blank,
) -> bool
    requires start { machine.old.machine.time ≡ 0 }
    requires unbroken { out.old.failed ≡ false }
    requires fresh { IsFresh blank L.name L.parts }
{
    let mut steps = Steps::<L>::new(blank);
    session.run_script(script, machine, out, &mut steps).is_ok()
}

// What a script over a jump to itself prints, where a write fails, and whether that is all.
fn carried_out(alloc: Global, failing: u64) -> Result<(TraceOut<MemSink>, bool), Fail> {
    let script = Script::read(alloc, b"s 1\nm 0018 2\nl\n")?;
    let lines = LineMap::read(alloc, b"2080 LOOP 7\n")?;
    let mut machine = machine_of(alloc, &[(0x2080, &[0x27, 0xFE])])?;
    let mut faults = Vec::new(alloc);
    faults.push(failing)?;
    let mut out = TraceOut::new(MemSink::new(alloc, 4096, faults)?);
    let mut session = Session::with_lines(alloc, lines)?;
    let whole = run_counted::<Brand>(&mut session, &script, &mut machine, &mut out, Blank::new(1));
    Ok((out, whole))
}

// A line with a source line takes five writes, any other one.
#[test]
fn a_failed_sink_has_a_prefix(rt: HostRuntime) -> Result<(), Fail> {
    let rows = [
        (1, "", false),
        (2, "T 7 2080\n", false),
        (3, "T 7 2080\nM 0018 0000\n", false),
        (7, "T 7 2080\nM 0018 0000\nA 0 2080 LOOP:7", false),
        (8, "T 7 2080\nM 0018 0000\nA 0 2080 LOOP:7\n", true),
    ];
    for (write, text, ends) in rows {
        let (out, whole) = carried_out(rt.alloc(), write)?;
        assert!(rt; out.sink().written() == text.as_bytes(), "{write}");
        assert!(rt; whole == ends);
    }
    Ok(())
}
