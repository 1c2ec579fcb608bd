//! Runs one of five fixed loops for a number of state times, and prints how the run ended: `bench/run` measures by it how
//! many instructions a second the machine runs. The loops are those of `bench/loops`.

ghost use Rattle.std.specs.Prelude.{◌≡◌, ◌≤◌, false, OnOk, OnErr, None};
ghost use Rattle.kc_base.specs.Fresh.{IsFresh};
ghost use Rattle.kc_base.specs.Causes.{Rose};

use crate::stopped::Stopped;
use arrayvec::ArrayVec;
use kc_base::{Failed, HostOut, Image, MAX_STATES, NoMemory, Sink, Steps, put_all};
use kc_extra::NoExtra;
use kc_machine::{End, Machine};
use kc_stim::Stimuli;
use kc_trace::TraceOut;
use std::alloc::Global;
use std::marker::Brand;
use std::sync::ledger::{Blank, Ledger};

/// The place of 2080H in an image.
const ORIGIN: usize = 0x80;

/// The bytes of each loop at 2080H, from `bench/NAME.a96`.
const BUSY: [u8; 32] = [
    0xA1, 0x00, 0x04, 0x18, 0x45, 0x03, 0x00, 0x22, 0x20, 0x74, 0x20, 0x24, 0xC2, 0x26, 0x20, 0xA2,
    0x26, 0x28, 0xC8, 0x28, 0xCC, 0x2A, 0x84, 0x2A, 0x22, 0xE0, 0x2C, 0x02, 0x07, 0x2E, 0x27, 0xE4,
];

const CALLS: [u8; 68] = [
    0xA1, 0x00, 0xC4, 0x18, 0xA1, 0x00, 0xC3, 0x1A, 0xA1, 0x34, 0x12, 0x20, 0xA1, 0x56, 0x00, 0x22,
    0x4C, 0x22, 0x20, 0x24, 0xFE, 0x4C, 0x22, 0x20, 0x28, 0x8C, 0x22, 0x24, 0xFE, 0x8C, 0x22, 0x28,
    0x09, 0x03, 0x20, 0x08, 0x02, 0x20, 0x0D, 0x04, 0x24, 0x0C, 0x04, 0x24, 0x0E, 0x01, 0x28, 0xC8,
    0x20, 0xCC, 0x2C, 0xEF, 0x0B, 0x00, 0xC2, 0x1A, 0x2C, 0xA2, 0x1A, 0x2E, 0x64, 0x2E, 0x30, 0x27,
    0xC7, 0x07, 0x32, 0xF0,
];

const CONDITIONS: [u8; 19] = [
    0x07, 0x20, 0x89, 0x00, 0x80, 0x20, 0xDF, 0x00, 0xD1, 0x00, 0xD6, 0x00, 0x33, 0x20, 0x02, 0x07,
    0x22, 0x27, 0xED,
];

const BLOCKS: [u8; 19] = [
    0xA1, 0x00, 0x03, 0x20, 0xA1, 0x40, 0x03, 0x22, 0xA1, 0x04, 0x00, 0x24, 0xC1, 0x24, 0x20, 0x07,
    0x26, 0x27, 0xED,
];

const PERIPHERALS: [u8; 113] = [
    0xA1, 0x00, 0x04, 0x18, 0xB1, 0x01, 0x14, 0xB1, 0x01, 0x0C, 0xB1, 0x00, 0x14, 0xA1, 0x1E, 0x00,
    0x32, 0xB1, 0x30, 0x34, 0xA1, 0x28, 0x00, 0x36, 0xB1, 0x71, 0x38, 0xB0, 0x34, 0x06, 0xA0, 0x32,
    0x04, 0xFD, 0xFD, 0xFD, 0xFD, 0xB0, 0x38, 0x06, 0xA0, 0x36, 0x04, 0xB1, 0x08, 0x08, 0xFB, 0x45,
    0x03, 0x00, 0x22, 0x20, 0x74, 0x20, 0x24, 0xC2, 0x26, 0x20, 0xA2, 0x26, 0x28, 0xC8, 0x28, 0xCC,
    0x2A, 0x84, 0x2A, 0x22, 0xE0, 0x2C, 0x02, 0x07, 0x2E, 0x27, 0xE4, 0xF2, 0xB0, 0x17, 0x30, 0x30,
    0x30, 0x0D, 0x65, 0x19, 0x00, 0x32, 0x95, 0x20, 0x34, 0xB0, 0x34, 0x06, 0xA0, 0x32, 0x04, 0x31,
    0x30, 0x0D, 0x65, 0x19, 0x00, 0x36, 0x95, 0x20, 0x38, 0xB0, 0x38, 0x06, 0xA0, 0x36, 0x04, 0xF3,
    0xF0,
];

/// The place of the vector of the HSO event interrupt in an image, and the address of its routine in the peripherals loop.
const HSO_VECTOR: usize = 0x06;

const ROUTINE: [u8; 2] = [0xCB, 0x20];

/// Lines on their way to a sink: they are gathered, so that it is asked once for many of them.
#[derive(Drop)]
struct Gathered<S> {
    sink: S,
    lines: ArrayVec<u8, 8192>,
}

impl<S: Sink> Gathered<S> {
    // The sink takes what was gathered.
    fn hand_on(&mut self) -> Result<(), Failed>
        ensures failed { OnErr result (Rose (S.faults self.old.sink) (S.faults self.new.sink)) }
        ensures calm { OnOk result (S.faults self.new.sink ≡ S.faults self.old.sink) }
        ensures later { S.faults self.old.sink ≤ S.faults self.new.sink }
    {
        put_all(&mut self.sink, self.lines.as_slice())?;
        self.lines.clear();
        Ok(())
    }
}

/// Where lines are gathered. What there is no room for goes to the sink behind those that were gathered.
#[derive(Drop)]
struct Lines<'a, S: Sink> {
    gathered: &'a mut Gathered<S>,
}

impl<'a, S: Sink> Sink for Lines<'a, S> {
    ghost written = { λ _. None };

    ghost faults = { λ l. S.faults l.gathered.now.sink };

    fn write(&mut self, piece: &[u8]) -> Result<usize, Failed> {
        if self.gathered.lines.remaining_capacity() < piece.len() {
            self.gathered.hand_on()?;
        }
        match self.gathered.lines.try_extend_from_slice(piece) {
            Ok(()) => Ok(piece.len()),
            Err(_) => self.gathered.sink.write(piece),
        }
    }
}

/// The loops that are run.
#[derive(Clone, Copy)]
pub enum Loop {
    Busy,
    Calls,
    Conditions,
    Blocks,
    Peripherals,
}

/// The loop of this name.
pub fn loop_named(name: &str) -> Option<Loop> {
    match name {
        "busy" => Some(Loop::Busy),
        "calls" => Some(Loop::Calls),
        "conditions" => Some(Loop::Conditions),
        "blocks" => Some(Loop::Blocks),
        "peripherals" => Some(Loop::Peripherals),
        _ => None,
    }
}

fn image_of(alloc: Global, which: Loop) -> Result<Image, NoMemory> {
    let mut image = Image::blank(alloc)?;
    match which {
        Loop::Busy => image.put(ORIGIN, &BUSY),
        Loop::Calls => image.put(ORIGIN, &CALLS),
        Loop::Conditions => image.put(ORIGIN, &CONDITIONS),
        Loop::Blocks => image.put(ORIGIN, &BLOCKS),
        Loop::Peripherals => {
            image.put(ORIGIN, &PERIPHERALS);
            image.put(HSO_VECTOR, &ROUTINE);
        }
    }
    Ok(image)
}

fn machine_of(alloc: Global, which: Loop) -> Result<Machine<NoExtra>, NoMemory> {
    let image = image_of(alloc, which)?;
    Machine::new(alloc, image, Stimuli::none(alloc), NoExtra::new())
}

// Runs the machine, and writes its end.
fn run_loop<S: Sink, L: Ledger>(
    machine: &mut Machine<NoExtra>,
    states: u64,
    out: &mut TraceOut<S>,
    blank: Blank,
) -> bool
    requires fresh { IsFresh blank L.name L.parts }
    requires unbroken { out.old.failed ≡ false }
    requires states { states ≤ 2000000000000000 }
{
    let mut steps = Steps::<L>::new(blank);
    let Ok(end) = machine.run(states, out, &mut steps) else {
        return false;
    };
    matches!(end, End::Spent) && machine.write_finals(End::Spent, out).is_ok()
}

/// Runs a loop for so many state times, at most MAX_STATES, and prints how the run ended.
pub fn run(rt: &HostRuntime, which: Loop, states: u64) -> Result<(), Stopped> {
    let mut machine = machine_of(rt.alloc(), which)?;
    let mut gathered = Gathered {
        sink: HostOut::new(rt),
        lines: ArrayVec::new(),
    };
    let mut out = TraceOut::new(Lines {
        gathered: &mut gathered,
    });
    let states = states.min(MAX_STATES);
    let ran = run_loop::<_, Brand>(&mut machine, states, &mut out, Blank::new(1));
    if ran && gathered.hand_on().is_ok() {
        Ok(())
    } else {
        Err(Stopped::Output)
    }
}
