// The commands that show something.
ghost use Rattle.std.specs.Prelude.{◌≡◌, ◌+◌, ◌-◌, ◌<◌, ◌≤◌, ◌++◌, None, IfSome, Option, false, flat_map};
ghost use Rattle.circular_buffer.specs.Buffer.{keep_last};
ghost use Rattle.kc_trace.specs.Out.{Puts};
ghost use Rattle.kc_trace.specs.Text.{text_of};
ghost use Rattle.kc_trace.specs.Trace.{out_of};
ghost use Rattle.kc_machine_spec.specs.Text.{HasRun};
ghost use Rattle.kc_debug_script.specs.LineMap.{entry_at};
ghost use Rattle.kc_debug.specs.Activities.{finished};
ghost use Rattle.kc_debug.specs.Faults.{ReportsFault};
ghost use Rattle.kc_debug.specs.Lines.{activity_line as line_of_activity, memory_lines, source_place, stand_line as line_of_stand};
ghost use Rattle.kc_debug.specs.Transcript.{history_length, new_end};

use crate::activities::Begun;
use crate::lines::{activity_fields, line_number, memory_line, stand_line};
use circular_buffer::HeapCircularBuffer;
use kc_base::Sink;
use kc_debug_script::LineMap;
use kc_extra::Extra;
use kc_machine::{End, Machine, WriteFault};
use kc_trace::TraceOut;

/// How many activities are reported.
pub const REPORTED: usize = 32;

// Reports the end, where the machine lived before.
fn report_end<X: Extra + Drop, S: Sink>(
    before: Option<End>,
    machine: &Machine<X>,
    out: &mut TraceOut<S>,
) -> Result<(), WriteFault>
    requires unbroken { out.old.failed ≡ false }
    requires ran { before ≡ None → IfSome machine.now.machine.ended (λ how. HasRun how machine.now.machine.time) }
    ensures text { Puts (out_of S.written S.faults out.old) (text_of (new_end before machine.now.machine)) (out_of S.written S.faults out.new) }
    ensures fault { ReportsFault result out.new.failed }
{
    match before {
        Some(_) => Ok(()),
        None => match machine.ended() {
            None => Ok(()),
            Some(how) => machine.write_end(how, out),
        },
    }
}

/// Reports the end, where the machine lived before, and where the machine stands.
pub(crate) fn report_stand<X: Extra + Drop, S: Sink>(
    before: Option<End>,
    machine: &Machine<X>,
    out: &mut TraceOut<S>,
) -> Result<(), WriteFault>
    requires unbroken { out.old.failed ≡ false }
    requires ran { before ≡ None → IfSome machine.now.machine.ended (λ how. HasRun how machine.now.machine.time) }
    ensures text { Puts (out_of S.written S.faults out.old) (text_of (new_end before machine.now.machine) ++ line_of_stand machine.now.machine) (out_of S.written S.faults out.new) }
    ensures fault { ReportsFault result out.new.failed }
{
    report_end(before, machine, out)?;
    out.put_text(stand_line(machine).as_slice());
    out.written()
}

/// Shows so many bytes from an address on.
pub fn show<X: Extra + Drop, S: Sink>(
    machine: &mut Machine<X>,
    from: u16,
    count: u16,
    out: &mut TraceOut<S>,
) -> Result<(), WriteFault>
    requires count { count ≤ 256 }
    ensures text { Puts (out_of S.written S.faults out.old) (memory_lines X.further machine.old.machine from count) (out_of S.written S.faults out.new) }
    ensures same { machine.new.machine ≡ machine.old.machine }
    ensures moves { machine.new.moves ≤ machine.old.moves + count }
    ensures fault { ReportsFault result out.new.failed }
{
    for row in 0..(count + 15) / 16 {
        let first = 16 * row;
        let line = memory_line(machine, from.wrapping_add(first), (count - first).min(16));
        out.put_text(line.as_slice());
    }
    out.written()
}

/// Reports the source line of an address, where there is one.
pub fn report_place<S: Sink>(lines: &LineMap, addr: u16, out: &mut TraceOut<S>)
    ensures { Puts (out_of S.written S.faults out.old) (source_place (entry_at lines.now addr)) (out_of S.written S.faults out.new) }
{
    match lines.find(addr) {
        Some(entry) => {
            out.put_text(b" ");
            out.put_text(entry.name.as_slice());
            out.put_text(line_number(entry.line).as_slice());
        }
        None => {}
    }
}

// Reports an activity, with its source line.
fn report_activity<S: Sink>(lines: &LineMap, begun: &Begun, out: &mut TraceOut<S>)
    ensures { Puts (out_of S.written S.faults out.old) (line_of_activity lines.now begun.now) (out_of S.written S.faults out.new) }
{
    out.put_text(activity_fields(begun).as_slice());
    report_place(lines, begun.pc, out);
    out.put_text(b"\n");
}

/// Reports the last activities that have finished, oldest first.
pub fn report_history<X: Extra + Drop, S: Sink>(
    lines: &LineMap,
    begun: &HeapCircularBuffer<Begun>,
    machine: &Machine<X>,
    out: &mut TraceOut<S>,
) -> Result<(), WriteFault>
    ensures text { Puts (out_of S.written S.faults out.old) (flat_map (line_of_activity lines.now) (keep_last history_length (finished machine.now.machine.under_way begun.now.items))) (out_of S.written S.faults out.new) }
    ensures fault { ReportsFault result out.new.failed }
{
    let len = begun.len();
    let done = if machine.between() {
        len
    } else {
        len.saturating_sub(1)
    };
    let first = done.saturating_sub(REPORTED);
    for index in first..done {
        match begun.get(index) {
            Some(activity) => report_activity(lines, activity, out),
            None => {}
        }
    }
    out.written()
}
