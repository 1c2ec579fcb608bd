// What is printed at the end of a run.
ghost use Rattle.std.specs.Prelude.{◌≡◌, ◌<◌, ◌+◌, ◌*◌, length, drop};
ghost use Rattle.kc_machine_spec.specs.declared.doing.End.TheVariants.{Spent};
ghost use Rattle.kc_trace.specs.declared.record.Record.TheVariants.{Stopped};
ghost use Rattle.kc_trace.specs.Out.{IsPut, Prints};
ghost use Rattle.kc_trace.specs.Printable.{CanPrint};
ghost use Rattle.kc_trace.specs.Trace.{out_of};
ghost use Rattle.kc_machine_spec.specs.Text.{processor_lines, register_rows, finals, shown_row, end_state, end_number, HasRun};
ghost use Rattle.kc_machine.specs.Stepping.{end_line, register_lines};
ghost use Rattle.kc_machine.specs.Seen.{machine_of};

use crate::parts::Core;
use crate::passing::put_one;
use kc_base::{Sink, StateTime};
use kc_extra::Extra;
use kc_machine_spec::End;
use kc_trace::{Record, TraceOut};

pub(crate) fn word(high: u8, low: u8) -> u16
    ensures { result ≡ 256 * high + low }
{
    256 * u16::from(high) + u16::from(low)
}

/// The record of how a run has ended that stands at this state time: of a power-down or a reset that of the state before, of an
/// undefined use that of its own.
pub fn stopped(how: End, time: StateTime) -> Record
    requires { HasRun how time }
    ensures value { result ≡ Stopped (end_state how time) (end_number how) }
    ensures printable { CanPrint result }
{
    match how {
        End::Spent => Record::Stopped { at: time, how: 0 },
        End::Powerdown => Record::Stopped {
            at: time - 1,
            how: 1,
        },
        End::Reset => Record::Stopped {
            at: time - 1,
            how: 2,
        },
        End::Undefined(what, _) => Record::Stopped {
            at: what.at,
            how: 3,
        },
    }
}

// A row of the register file as it is shown.
fn row_of(memory: &[u8], row: u16) -> [u8; 32]
    requires long { length memory.now ≡ 65536 }
    requires row { row < 16 }
    ensures { result ≡ shown_row row memory.now }
{
    let mut bytes = [0u8; 32];
    if row == 0 {
        bytes[0x18..].copy_from_slice(&memory[0x18..0x20]);
    } else {
        let start = 32 * row as usize;
        bytes.copy_from_slice(&memory[start..start + 32]);
    }
    bytes
}

/// The line of the end.
pub(crate) fn put_end<X: Extra + Drop, S: Sink>(core: &Core<X>, how: End, out: &mut TraceOut<S>)
    requires ran { HasRun how core.now.time }
    ensures { IsPut (out_of S.written S.faults out.old) (end_line how (machine_of core.now)) (out_of S.written S.faults out.new) }
{
    put_one(out, &stopped(how, core.time));
}

// The lines of the processor.
fn put_processor<X: Extra + Drop, S: Sink>(core: &Core<X>, out: &mut TraceOut<S>)
    ensures { Prints (out_of S.written S.faults out.old) (drop 1 (processor_lines Spent (machine_of core.now))) (out_of S.written S.faults out.new) }
{
    put_one(out, &Record::Pc(core.cpu.pc));
    put_one(
        out,
        &Record::Psw(word(core.cpu.psw_high, core.bus.masks().int_mask)),
    );
    put_one(out, &Record::Wsr(core.bus.masks().wsr));
}

// The lines of the register file.
fn put_registers<S: Sink>(memory: &[u8], out: &mut TraceOut<S>)
    requires { length memory.now ≡ 65536 }
    ensures { Prints (out_of S.written S.faults out.old) (register_rows 16 memory.now) (out_of S.written S.faults out.new) }
{
    for row in 0..16 {
        let bytes = row_of(memory, row);
        put_one(
            out,
            &Record::Registers {
                base: 32 * row,
                bytes,
            },
        );
    }
}

/// The lines of the processor and of the register file.
pub(crate) fn put_state<X: Extra + Drop, S: Sink>(core: &Core<X>, out: &mut TraceOut<S>)
    ensures { Prints (out_of S.written S.faults out.old) (register_lines (machine_of core.now)) (out_of S.written S.faults out.new) }
{
    put_processor(core, out);
    put_registers(&core.bus.memory, out);
}

/// The lines of the end.
pub(crate) fn put_finals<X: Extra + Drop, S: Sink>(core: &Core<X>, how: End, out: &mut TraceOut<S>)
    requires ran { HasRun how core.now.time }
    ensures { Prints (out_of S.written S.faults out.old) (finals how (machine_of core.now)) (out_of S.written S.faults out.new) }
{
    put_end(core, how, out);
    put_state(core, out);
}
