// Calls that fail, at each place where one can. The texts were worked by hand.
ghost use Rattle.std.specs.Prelude.{◌≡◌, false, IfOk};

use crate::narrow::Narrow;
use kc_base::{Files, MemFiles, MemSink, NoMemory};
use kc_kit::{Status, kit};
use kc_trace::TraceOut;
use std::alloc::{AllocError, Global};
use std::test::Fail;

/// The call that fails, counted from 1: a read or a write of a file, a write of the output or of the diagnostics.
#[derive(Clone, Copy)]
enum Fails {
    Read(u64),
    Write(u64),
    Output(u64),
    Diagnostic(u64),
}

/// A command line: the files, the call that fails, the words, the status, what is printed, what is said where that is looked at,
/// and what files then hold; `-` for one that is not there.
struct Row {
    files: &'static [(&'static str, &'static [u8])],
    fails: Fails,
    line: &'static str,
    status: Status,
    printed: &'static str,
    said: Option<&'static str>,
    held: &'static [(&'static str, &'static [u8])],
}

const NOTHING: &[u8] = b"-";

const SOURCE: &[u8] = b" CSEG AT 2080H\n NOP\n END\n";

const ONE: &[(&str, &[u8])] = &[("a.a96", SOURCE)];

const ONE_STATE: &str = "run a.a96 --states 1";

// What one state of one no operation prints, a line each.
static PRINTED: [&str; 20] = [
    "X 1 spent\n",
    "PC 2080\n",
    "PSW 0000\n",
    "WSR 00\n",
    "R 000 0000000000000000000000000000000000000000000000000000000000000000\n",
    "R 020 0000000000000000000000000000000000000000000000000000000000000000\n",
    "R 040 0000000000000000000000000000000000000000000000000000000000000000\n",
    "R 060 0000000000000000000000000000000000000000000000000000000000000000\n",
    "R 080 0000000000000000000000000000000000000000000000000000000000000000\n",
    "R 0A0 0000000000000000000000000000000000000000000000000000000000000000\n",
    "R 0C0 0000000000000000000000000000000000000000000000000000000000000000\n",
    "R 0E0 0000000000000000000000000000000000000000000000000000000000000000\n",
    "R 100 0000000000000000000000000000000000000000000000000000000000000000\n",
    "R 120 0000000000000000000000000000000000000000000000000000000000000000\n",
    "R 140 0000000000000000000000000000000000000000000000000000000000000000\n",
    "R 160 0000000000000000000000000000000000000000000000000000000000000000\n",
    "R 180 0000000000000000000000000000000000000000000000000000000000000000\n",
    "R 1A0 0000000000000000000000000000000000000000000000000000000000000000\n",
    "R 1C0 0000000000000000000000000000000000000000000000000000000000000000\n",
    "R 1E0 0000000000000000000000000000000000000000000000000000000000000000\n",
];

// The hex file of a no operation at 2080H, and that of the first pulse program.
const NOP: &[u8] = b":01208000FD62\n:00000001FF\n";

const PULSE: &[(&str, &[u8])] = &[("a.a96", b":09208000B12006A10A000427FEAC\r\n\n:00000001ff")];

// The object of a no operation at 2080H, its hex file, and its line.
const OBJECT: &[u8] =
    b"\x01\x08\x00\x02\x06NONAME\x02\x06\x00\x01\x01\x80 \x01\x00\x03\x05\x00\x00\x00\x00\x00\xfd\x07\x08\x00\x00\x00\x00\x00\x02\x00\x00\x00\x7f\x00\x00";

const HEX: &[u8] = b":10208000FDFFFFFFFFFFFFFFFFFFFFFFFFFFFFFF62\n:00000001FF\n";

const LINES: &[u8] = b"2080 NONAME 2\n";

// Three sources, and stimuli that no run takes.
const SOURCES: &[(&str, &[u8])] = &[
    ("main", SOURCE),
    ("crank", SOURCE),
    ("log", SOURCE),
    ("hex", NOP),
    ("falls", b"@5 HSI0 1\n@4 HSI0 0\n"),
];

// A hex file, a script, a line map and stimuli, of which the last three have faults.
const FAULTY: &[(&str, &[u8])] = &[("h", NOP), ("d", b"z\n"), ("m", b"z\n"), ("s", b"z\n")];

// A trace, and rules of which it breaks one.
const CHECKED: &[(&str, &[u8])] = &[
    ("t", b"P 5 HSO0 1\nX 9 spent\n"),
    ("r", b"never reset\nnever HSO0 rise\n"),
];

const STEPPED: &[(&str, &[u8])] = &[("h", NOP), ("d", b"s 1\nl\n")];

static ROWS: [Row; 33] = [
    Row {
        files: CHECKED,
        fails: Fails::Read(3),
        line: "check t r",
        status: Status::Broken,
        printed: "held 1 1\nbroken 2 5 - 1 0\n",
        said: Some("r:2: error broken: never HSO0 rise\n"),
        held: &[],
    },
    Row {
        files: CHECKED,
        fails: Fails::Read(1),
        line: "check t r",
        status: Status::ReadFault,
        printed: "read r\n",
        said: Some("r: error: the file could not be read\n"),
        held: &[],
    },
    Row {
        files: CHECKED,
        fails: Fails::Read(2),
        line: "check t r",
        status: Status::ReadFault,
        printed: "read t\n",
        said: Some("t: error: the file could not be read\n"),
        held: &[],
    },
    Row {
        files: CHECKED,
        fails: Fails::Output(1),
        line: "check t r",
        status: Status::WriteFault,
        printed: "",
        said: Some("kc96: error: standard output could not be written\n"),
        held: &[],
    },
    Row {
        files: ONE,
        fails: Fails::Read(1),
        line: "run a.a96",
        status: Status::Usage,
        printed: "usage\n",
        said: None,
        held: &[],
    },
    Row {
        files: ONE,
        fails: Fails::Read(1),
        line: "run a.a96 --states 1",
        status: Status::ReadFault,
        printed: "read a.a96\n",
        said: Some("a.a96: error: the file could not be read\n"),
        held: &[],
    },
    Row {
        files: ONE,
        fails: Fails::Read(1),
        line: "asm a.a96 --out a.o",
        status: Status::ReadFault,
        printed: "read a.a96\n",
        said: Some("a.a96: error: the file could not be read\n"),
        held: &[],
    },
    Row {
        files: PULSE,
        fails: Fails::Read(1),
        line: "dis a.a96 2080H-2088H",
        status: Status::ReadFault,
        printed: "read a.a96\n",
        said: None,
        held: &[],
    },
    Row {
        files: SOURCES,
        fails: Fails::Read(1),
        line: "run main crank log --states 500 --stim falls",
        status: Status::ReadFault,
        printed: "read main\n",
        said: None,
        held: &[],
    },
    Row {
        files: SOURCES,
        fails: Fails::Read(2),
        line: "run main crank log --states 500 --stim falls",
        status: Status::ReadFault,
        printed: "read crank\n",
        said: None,
        held: &[],
    },
    Row {
        files: SOURCES,
        fails: Fails::Read(3),
        line: "run main crank log --states 500 --stim falls",
        status: Status::ReadFault,
        printed: "read log\n",
        said: None,
        held: &[],
    },
    Row {
        files: SOURCES,
        fails: Fails::Read(4),
        line: "run main crank log --stim falls --states 500",
        status: Status::ReadFault,
        printed: "read falls\n",
        said: None,
        held: &[],
    },
    Row {
        files: SOURCES,
        fails: Fails::Read(1),
        line: "hex hex --states 1 --stim falls",
        status: Status::ReadFault,
        printed: "read hex\n",
        said: None,
        held: &[],
    },
    Row {
        files: SOURCES,
        fails: Fails::Read(2),
        line: "hex hex --stim falls --states 1",
        status: Status::ReadFault,
        printed: "read falls\n",
        said: None,
        held: &[],
    },
    Row {
        files: FAULTY,
        fails: Fails::Read(1),
        line: "debug h d --lines m --stim s",
        status: Status::ReadFault,
        printed: "read h\n",
        said: None,
        held: &[],
    },
    Row {
        files: FAULTY,
        fails: Fails::Read(2),
        line: "debug h d --lines m --stim s",
        status: Status::ReadFault,
        printed: "read d\n",
        said: None,
        held: &[],
    },
    Row {
        files: FAULTY,
        fails: Fails::Read(3),
        line: "debug h d --lines m --stim s",
        status: Status::ReadFault,
        printed: "read m\n",
        said: None,
        held: &[],
    },
    Row {
        files: FAULTY,
        fails: Fails::Read(4),
        line: "debug h d --lines m --stim s",
        status: Status::ReadFault,
        printed: "read s\n",
        said: None,
        held: &[],
    },
    Row {
        files: FAULTY,
        fails: Fails::Read(3),
        line: "debug h d --stim s --lines m",
        status: Status::ReadFault,
        printed: "read s\n",
        said: None,
        held: &[],
    },
    Row {
        files: &[],
        fails: Fails::Output(1),
        line: "",
        status: Status::WriteFault,
        printed: "",
        said: None,
        held: &[],
    },
    Row {
        files: &[],
        fails: Fails::Output(1),
        line: "walk",
        status: Status::WriteFault,
        printed: "",
        said: Some("kc96: error: standard output could not be written\n"),
        held: &[],
    },
    Row {
        files: &[("a.a96", b"")],
        fails: Fails::Output(1),
        line: "run a.a96 --states 1",
        status: Status::WriteFault,
        printed: "",
        said: None,
        held: &[],
    },
    Row {
        files: PULSE,
        fails: Fails::Output(2),
        line: "dis a.a96 2080H-2088H",
        status: Status::WriteFault,
        printed: "2080 B12006 LDB 06H,#20H\n",
        said: None,
        held: &[],
    },
    Row {
        files: STEPPED,
        fails: Fails::Output(1),
        line: "debug h d",
        status: Status::WriteFault,
        printed: "",
        said: None,
        held: &[],
    },
    Row {
        files: STEPPED,
        fails: Fails::Output(2),
        line: "debug h d",
        status: Status::WriteFault,
        printed: "T 2 2081\n",
        said: None,
        held: &[],
    },
    Row {
        files: &[("h", NOP), ("d", b"z\n")],
        fails: Fails::Output(1),
        line: "debug h d",
        status: Status::WriteFault,
        printed: "",
        said: None,
        held: &[],
    },
    Row {
        files: ONE,
        fails: Fails::Write(1),
        line: "asm a.a96 --out a.o",
        status: Status::WriteFault,
        printed: "",
        said: Some("a.o: error: the file could not be written\n"),
        held: &[("a.o", NOTHING)],
    },
    Row {
        files: &[("2", OBJECT)],
        fails: Fails::Write(1),
        line: "link 2 --out h --map m --lines l",
        status: Status::WriteFault,
        printed: "",
        said: None,
        held: &[("h", NOTHING), ("l", NOTHING), ("m", NOTHING)],
    },
    Row {
        files: &[("2", OBJECT)],
        fails: Fails::Write(2),
        line: "link 2 --out h --map m --lines l",
        status: Status::WriteFault,
        printed: "",
        said: None,
        held: &[("h", HEX), ("l", NOTHING), ("m", NOTHING)],
    },
    Row {
        files: &[("2", OBJECT)],
        fails: Fails::Write(3),
        line: "link 2 --out h --map m --lines l",
        status: Status::WriteFault,
        printed: "",
        said: None,
        held: &[("h", HEX), ("l", LINES), ("m", NOTHING)],
    },
    Row {
        files: &[("edges", b"P 82 HSO0 1\nX 83 spent\n")],
        fails: Fails::Write(1),
        line: "vcd edges --out w",
        status: Status::WriteFault,
        printed: "",
        said: None,
        held: &[("w", NOTHING)],
    },
    Row {
        files: &[],
        fails: Fails::Diagnostic(1),
        line: "run a.a96 --states 1",
        status: Status::Missing,
        printed: "missing a.a96\n",
        said: Some(""),
        held: &[],
    },
    Row {
        files: &[],
        fails: Fails::Diagnostic(2),
        line: "walk",
        status: Status::Usage,
        printed: "usage\n",
        said: Some("kc96: error: "),
        held: &[],
    },
];

fn words(alloc: Global, line: &str) -> Result<Vec<String>, AllocError> {
    let mut words = Vec::new(alloc);
    for word in line.split_whitespace() {
        words.push(String::from_str(alloc, word)?)?;
    }
    Ok(words)
}

// The numbers of the calls that fail: of a read, a write, a write of the output, one of the diagnostics; 0 is no call.
fn numbers(fails: Fails) -> (u64, u64, u64, u64) {
    match fails {
        Fails::Read(number) => (number, 0, 0, 0),
        Fails::Write(number) => (0, number, 0, 0),
        Fails::Output(number) => (0, 0, number, 0),
        Fails::Diagnostic(number) => (0, 0, 0, number),
    }
}

fn sink(alloc: Global, failing: u64) -> Result<TraceOut<MemSink>, NoMemory>
    ensures { IfOk result (λ out. out.failed ≡ false) }
{
    let failing = Vec::from_slice(alloc, &[failing])?;
    Ok(TraceOut::new(MemSink::new(alloc, 4096, failing)?))
}

fn files_of(
    alloc: Global,
    given: &[(&str, &[u8])],
    read: u64,
    write: u64,
) -> Result<MemFiles, NoMemory> {
    let reads = Vec::from_slice(alloc, &[read])?;
    let writes = Vec::from_slice(alloc, &[write])?;
    let mut files = MemFiles::new(alloc, reads, writes);
    for (name, bytes) in given {
        files.put(alloc, name, bytes)?;
    }
    Ok(files)
}

fn holds(alloc: Global, files: &mut MemFiles, name: &str, bytes: &[u8]) -> bool {
    match files.read(alloc, name) {
        Ok(held) => held.as_slice() == bytes,
        Err(_) => bytes == NOTHING,
    }
}

// Does a command line, and reports whether its status, what it prints and says, and what files then hold are as in the row.
fn is_right(alloc: Global, row: &Row) -> Result<bool, NoMemory> {
    let (read, write, output, diagnostic) = numbers(row.fails);
    let words = words(alloc, row.line)?;
    let mut files = files_of(alloc, row.files, read, write)?;
    let mut out = sink(alloc, output)?;
    let mut diagnostics = sink(alloc, diagnostic)?;
    let given = kit(alloc, &words, &mut files, &mut out, &mut diagnostics);
    let printed = out.sink().written() == row.printed.as_bytes();
    let said = match row.said {
        Some(said) => diagnostics.sink().written() == said.as_bytes(),
        None => true,
    };
    let mut held = true;
    for (name, bytes) in row.held {
        held = held && holds(alloc, &mut files, name, bytes);
    }
    Ok(given == row.status && printed && said && held)
}

#[test]
fn a_call_that_fails_is_reported(rt: HostRuntime) -> Result<(), Fail> {
    let a = rt.alloc();
    for row in &ROWS {
        assert!(rt; is_right(a, row)?, "{}", row.line);
    }
    Ok(())
}

// The prefix of a run's text, of so many lines.
fn first_lines(alloc: Global, count: usize) -> Result<String, AllocError> {
    let mut prefix = String::new(alloc);
    for line in PRINTED.iter().take(count) {
        prefix.push_str(line)?;
    }
    Ok(prefix)
}

// A run whose output fails before each line, and one whose profile is not written.
#[test]
fn lines_before_a_write_that_fails_stand(rt: HostRuntime) -> Result<(), Fail> {
    let a = rt.alloc();
    for before in 0..21u64 {
        let prefix = first_lines(a, before as usize)?;
        let words = words(a, "run a.a96 --states 1 --profile p")?;
        let mut files = files_of(a, ONE, 0, 1)?;
        let mut out = sink(a, before + 1)?;
        let mut diagnostics = sink(a, 0)?;
        let given = kit(a, &words, &mut files, &mut out, &mut diagnostics);
        assert!(rt; given == Status::WriteFault, "{before}");
        assert!(rt; out.sink().written() == prefix.as_bytes(), "{before}");
        assert!(rt; holds(a, &mut files, "p", NOTHING), "{before}");
    }
    Ok(())
}

#[test]
fn a_sink_that_takes_one_byte_of_each_write_gets_all(rt: HostRuntime) -> Result<(), Fail> {
    let a = rt.alloc();
    let text = first_lines(a, 20)?;
    let words = words(a, ONE_STATE)?;
    let mut files = files_of(a, ONE, 0, 0)?;
    let sink = MemSink::new(a, 4096, Vec::new(a))?;
    let mut out = TraceOut::new(Narrow { sink });
    let mut diagnostics = TraceOut::new(MemSink::new(a, 4096, Vec::new(a))?);
    assert!(rt; kit(a, &words, &mut files, &mut out, &mut diagnostics) == Status::Done);
    assert!(rt; out.sink().sink.written() == text.as_bytes());
    Ok(())
}
