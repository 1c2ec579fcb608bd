// The line between two lives.
ghost use Rattle.std.specs.Prelude.{◌≡◌, ◌++◌};
ghost use Rattle.kc_trace.specs.Out.{Puts};
ghost use Rattle.kc_trace.specs.Trace.{out_of};
ghost use Rattle.kc_cycles.specs.Lives.{reset_name, restart_line};

use itoa::Buffer;
use kc_base::{Sink, StateTime};
use kc_trace::TraceOut;

fn name_of(by_watchdog: bool) -> &'static [u8]
    ensures { result.now ≡ reset_name by_watchdog }
{
    if by_watchdog { b"watchdog" } else { b"reset" }
}

/// Writes the line that reports the last state of a life, and what has reset it.
pub fn put_restart<S: Sink>(at: StateTime, by_watchdog: bool, out: &mut TraceOut<S>)
    ensures { Puts (out_of S.written S.faults out.old) (restart_line at by_watchdog) (out_of S.written S.faults out.new) }
{
    let mut number = Buffer::new();
    out.put_text(b"B ");
    out.put_text(number.format(at).as_bytes());
    out.put_text(b" ");
    out.put_text(name_of(by_watchdog));
    out.put_text(b"\n");
}
