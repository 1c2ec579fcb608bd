//! The kit's program: its words, the real files, standard output and standard error, and the status. It makes the host's
//! files and sinks of `kc_base` and `kc_kit_streams` and calls `kit` of `kc_kit`; nothing else is decided here. Example: `kc96 --version` prints
//! `kc96 0.1.0` and ends with status 0.
#![tactic(auto)]

use kc_base::{HostDiagnostics, HostOut, Sink};
use kc_kit::{Ended, Status, kit};
use kc_kit_streams::HostStreams;
use kc_trace::TraceOut;
use std::env;
use std::io::{self, ErrorKind};
use std::process::{self, ExitCode};

// The words behind the program's name. One that is no text is an error.
fn words_of(rt: &HostRuntime) -> io::Result<Vec<String>> {
    let mut words = Vec::new(rt.alloc());
    for word in env::args(rt)?.skip(1) {
        words.push(word)?;
    }
    Ok(words)
}

// Says what stood in the way of a file that could not be written.
fn put_hindrance<N: Sink>(rt: &HostRuntime, error: io::Error, diagnostics: &mut TraceOut<N>) {
    if let Ok(text) = format!(in rt.alloc(); "kc96: note: {error}\n") {
        diagnostics.put_text(text.as_bytes());
    }
}

// The answer to some words over the real files, and whether anyone may hear of it: not where the reader of the output has gone.
fn answered<N: Sink>(
    rt: &HostRuntime,
    words: &[String],
    diagnostics: &mut TraceOut<N>,
) -> (Status, bool) {
    let mut files = HostStreams::new(rt, process::id(rt.process()), rt.stdin());
    let mut out = TraceOut::new(HostOut::new(rt));
    let status = kit(rt.alloc(), words, &mut files, &mut out, diagnostics);
    if let Some(error) = files.hindrance() {
        put_hindrance(rt, error, diagnostics);
    }
    (status, !out.sink().is_unread())
}

// The answer where a word is no text: it is no command, as no words are.
fn without_text<N: Sink>(rt: &HostRuntime, diagnostics: &mut TraceOut<N>) -> (Status, bool) {
    let standard_error = rt.stderr();
    let mut unsaid = TraceOut::new(HostDiagnostics::new(rt.alloc(), &standard_error));
    let (status, is_heard) = answered(rt, &[], &mut unsaid);
    if status == Status::Usage {
        diagnostics.put_text(b"kc96: error: a word is not UTF-8; see kc96 --help\n");
    } else {
        Ended::by(status).put_diagnostic(diagnostics);
    }
    (status, is_heard)
}

fn main(rt: HostRuntime) -> ExitCode {
    let standard_error = rt.stderr();
    let mut diagnostics = TraceOut::new(HostDiagnostics::new(rt.alloc(), &standard_error));
    let (status, is_heard) = match words_of(&rt) {
        Ok(words) => answered(&rt, &words, &mut diagnostics),
        Err(error) if error.kind() == ErrorKind::InvalidData => without_text(&rt, &mut diagnostics),
        Err(_) => {
            Ended::by(Status::NoMemory).put_diagnostic(&mut diagnostics);
            (Status::NoMemory, true)
        }
    };
    if is_heard {
        diagnostics.sink().show();
    }
    ExitCode::from(status as u8)
}
