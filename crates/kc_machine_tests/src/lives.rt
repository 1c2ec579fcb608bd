// No memory for the second life of a board.
ghost use Rattle.std.specs.Prelude.{◌≡◌, false, refl};
ghost use Rattle.kc_base.specs.Fresh.{IsFresh};

use crate::board::image_of;
use kc_base::{MemSink, NoMemory, StateTime, Steps};
use kc_cycles::{LivesFault, Maker, run_lives};
use kc_extra::NoExtra;
use kc_machine::End;
use kc_stim::Stimuli;
use kc_trace::TraceOut;
use std::alloc::Global;
use std::marker::Brand;
use std::sync::ledger::{Blank, Ledger};
use std::test::Fail;

/// A board for whose second life there is no memory.
struct Scarce;

impl Maker for Scarce {
    type X = NoExtra;

    ghost made = { λ maker drives from. record { moves = 0 } };

    fn make(
        &self,
        _alloc: Global,
        _stimuli: &Stimuli,
        from: StateTime,
    ) -> Result<NoExtra, NoMemory> {
        if from == 0 {
            Ok(NoExtra::new())
        } else {
            Err(NoMemory)
        }
    }

    ghost leaves_watchdog = { refl };
}

/// How two lives of an RST end.
fn run<L: Ledger>(
    alloc: Global,
    out: &mut TraceOut<MemSink>,
    blank: Blank,
) -> Result<Result<End, LivesFault>, Fail>
    requires fresh { IsFresh blank L.name L.parts }
    requires unbroken { out.old.failed ≡ false }
{
    let image = image_of(alloc, &[(0x2080, &[0xFF])])?;
    let stimuli = Stimuli::none(alloc);
    let mut steps = Steps::<L>::new(blank);
    Ok(run_lives(alloc, &image, &stimuli, &Scarce, 10, 2, out, &mut steps))
}

#[test]
fn memory_is_wanting_between_two_lives(rt: HostRuntime) -> Result<(), Fail> {
    let sink = MemSink::new(rt.alloc(), 8192, Vec::new(rt.alloc()))?;
    let mut out = TraceOut::new(sink);
    let end = run::<Brand>(rt.alloc(), &mut out, Blank::new(1))?;
    assert!(rt; matches!(end, Err(LivesFault::NoMemory)));
    assert!(rt; out.sink().written() == b"B 3 reset\n".as_slice());
    Ok(())
}
