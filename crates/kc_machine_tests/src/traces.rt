// What traces report, a row each: lines and steps are separated by `/`.
use kc_base::{FILE_LIMIT, Level, PIN_COUNT, Pin};
use kc_byte_source::MemSource;
use kc_events::{Lives, LivesFault, Step};
use kc_stim::Stimuli;
use kc_trace::{Signal, What};
use std::alloc::{AllocError, Global};
use std::test::Fail;

/// A trace, its stimuli, and the steps of its lives; or the line that is refused.
static ROWS: [(&str, &str, &str); 20] = [
    (
        "P 10 P10 0/P 10 P11 0/P 20 P10 1/P 30 P10 0/P 50 P11 1/P 60 P11 0/P 65 P10 1/X 100 spent",
        "",
        "begins/10 P10- P11-/20 P10+/30 P10-/50 P11+/60 P11-/65 P10+/ends 99/",
    ),
    (
        "I 50 7 2100/I 90 7 2100/X 120 spent",
        "@40 EXTINT 1/@41 EXTINT 0/@80 EXTINT 1/@81 EXTINT 0/@115 EXTINT 1",
        "begins/40 in EXTINT+/41 in EXTINT-/50 entry 7/80 in EXTINT+/81 in EXTINT-/90 entry 7/115 in EXTINT+/ends 119/",
    ),
    (
        "P 84 HSO0 1/X 100 spent",
        "= HSO0 HSI0",
        "begins/84 HSO0+/85 in HSI0+/ends 99/",
    ),
    (
        "P 5 HSO0 1/B 9 watchdog/P 3 HSO0 1/X 20 spent",
        "@9 EXTINT 1",
        "begins/5 HSO0+/9 in EXTINT+ watchdog/ends 9/begins/3 HSO0+/ends 19/",
    ),
    (
        "P 5 HSO0 1/P 5 HSO0 0/P 6 HSO0 1/B 6 reset/P 0 HSO0 1/X 2 powerdown",
        "= HSO0 HSI0/@3 P10 1/@3 T2UD 0/@7 RXD 0",
        "begins/3 in T2UD-/5 HSO0+ HSO0-/6 HSO0+ reset/ends 6/begins/0 in RXD- HSO0+/1 in HSI0+/2 powerdown/ends 2/",
    ),
    (
        "U 5 7 2088/X 5 undefined/PC 2088/PSW 0000/WSR 00",
        "",
        "begins/5 undefined/ends 5/",
    ),
    (
        "B 9 reset/X 0 spent",
        "@10 NMI 1",
        "begins/9 reset/ends 9/begins/",
    ),
    (
        "S 7 3 single 4/X 8 spent",
        "",
        "begins/7 transfer 3/ends 7/",
    ),
    ("P 10 P10 0/P 10 P10 0/X 20 spent", "", "line 2"),
    ("P 10 P10 0/P 9 P11 0/X 20 spent", "", "line 2"),
    ("P 10 P10 0/X 10 spent", "", "line 2"),
    ("X 5 spent/P 6 P10 0", "", "line 2"),
    ("X 5 spent/PSW 0000", "", "line 2"),
    ("I 5 200 2080/X 9 spent", "", "line 1"),
    ("P 10 HSI0 1/X 20 spent", "", "line 1"),
    ("P 010 P10 0/X 20 spent", "", "line 1"),
    ("X 5 undefined", "", "line 1"),
    ("B 5 spent/X 5 spent", "", "line 1"),
    ("P 10 P10 0", "", "line 2"),
    ("", "", "line 1"),
];

// A text with a line feed for each `/`.
fn lines_of(alloc: Global, text: &str) -> Result<Vec<u8>, AllocError> {
    let mut bytes = Vec::new(alloc);
    for b in text.as_bytes() {
        bytes.push(if *b == b'/' { b'\n' } else { *b })?;
    }
    Ok(bytes)
}

fn sign(level: Level) -> &'static str {
    if level.is_high() { "+" } else { "-" }
}

fn name_of(pin: Pin) -> &'static str {
    if pin.0 < PIN_COUNT {
        pin.name()
    } else {
        "no pin"
    }
}

// What happens, in words.
fn words(alloc: Global, what: What) -> Result<String, AllocError> {
    match what {
        What::Edge(Signal::Output(pin), level) => {
            format!(in alloc; "{}{}", name_of(pin), sign(level))
        }
        What::Edge(Signal::Input(pin), level) => {
            format!(in alloc; "in {}{}", name_of(pin), sign(level))
        }
        What::Entry(vector) => format!(in alloc; "entry {vector}"),
        What::Transfer(vector) => format!(in alloc; "transfer {vector}"),
        What::Undefined => format!(in alloc; "undefined"),
        What::Reset => format!(in alloc; "reset"),
        What::Watchdog => format!(in alloc; "watchdog"),
        What::Powerdown => format!(in alloc; "powerdown"),
    }
}

// Puts what a step reports.
fn put_step(
    alloc: Global,
    reported: &mut String,
    step: Step,
    whats: &[What],
) -> Result<(), AllocError> {
    match step {
        Step::Begins => reported.push_str("begins")?,
        Step::Ends(last) => reported.push_str(format!(in alloc; "ends {last}")?.as_str())?,
        Step::Passes(at) => {
            reported.push_str(format!(in alloc; "{at}")?.as_str())?;
            for what in whats {
                reported.push_str(" ")?;
                reported.push_str(words(alloc, *what)?.as_str())?;
            }
        }
    }
    reported.push_str("/")
}

// The steps of a trace that a source gives in pieces, whose second read fails; or the line that is refused.
fn reported(alloc: Global, trace: &str, stim: &str, piece: usize) -> Result<String, Fail> {
    let text = lines_of(alloc, stim)?;
    if text.len() > FILE_LIMIT || piece == 0 {
        return Err(Fail::from("no stimuli or no piece"));
    }
    let stimuli = Stimuli::read(alloc, &text);
    let stimuli = stimuli.ok().ok_or("no stimuli")?;
    let failing = Vec::from_slice(alloc, &[2])?;
    let source = MemSource::new(lines_of(alloc, trace)?, piece, failing);
    let mut lives = Lives::new(alloc, source, stimuli).ok().ok_or("no memory")?;
    let mut reported = String::new(alloc);
    for _ in 0..100 {
        match lives.next_step() {
            Ok(Some(step)) => put_step(alloc, &mut reported, step, lives.whats())?,
            Ok(None) => return Ok(reported),
            Err(LivesFault::BadTrace(line)) => return Ok(format!(in alloc; "line {line}")?),
            Err(LivesFault::Failed) => {}
            Err(LivesFault::NoMemory) => return Err(Fail::from("no memory")),
        }
    }
    Err(Fail::from("no end"))
}

#[test]
fn traces_report_their_lives(rt: HostRuntime) -> Result<(), Fail> {
    let a = rt.alloc();
    for (trace, stim, expected) in &ROWS {
        for piece in [1, 7, 4096] {
            let steps = reported(a, trace, stim, piece)?;
            assert!(rt; steps.as_str() == *expected, "{trace}: {steps}");
        }
    }
    Ok(())
}
