// How a command has ended, and what is said of it in words.
ghost use Rattle.std.specs.Prelude.{◌≡◌};
ghost use Rattle.kc_trace.specs.Out.{Puts};
ghost use Rattle.kc_trace.specs.Trace.{out_of};
ghost use Rattle.kc_kit_files.specs.declared.ended.Said.TheVariants as said;
ghost use Rattle.kc_kit_files.specs.Diagnostics.{output_diagnostic};
ghost use Rattle.kc_kit_files.specs.Ended.{said_in, unwritten, diagnostic_in};

use crate::Status;
use crate::text::report_shown;
use kc_base::Sink;
use kc_trace::TraceOut;

/// What is said in words, beside what the status says.
#[derive(Drop)]
pub enum Said<'a> {
    /// Nothing more.
    Nothing,
    /// Why a command is refused, which rules are broken, or in which undefined use a run has ended.
    Refusal(Vec<u8>),
    /// The name of the file that was to be written last.
    File(&'a str),
}

/// How a command has ended: its status, and what is said of it.
#[derive(Drop)]
pub struct Ended<'a> {
    pub status: Status,
    pub said: Said<'a>,
}

impl<'a> Ended<'a> {
    /// An end of which nothing is said but what its status says.
    pub fn by(status: Status) -> Ended<'a>
        ensures status { result.status ≡ status }
        ensures said { result.said ≡ said.Nothing }
    {
        Ended {
            status,
            said: Said::Nothing,
        }
    }

    /// Writes what is said of this end in words.
    pub fn put_diagnostic<N: Sink>(&self, diagnostics: &mut TraceOut<N>)
        ensures { Puts (out_of N.written N.faults diagnostics.old) (diagnostic_in self.now) (out_of N.written N.faults diagnostics.new) }
    {
        match self.status {
            Status::NoMemory => diagnostics.put_text(b"kc96: error: out of memory\n"),
            Status::WriteFault => put_unwritten(&self.said, diagnostics),
            _ => put_said(&self.said, diagnostics),
        }
    }
}

// What is said of standard output that could not be written.
fn put_output<N: Sink>(diagnostics: &mut TraceOut<N>)
    ensures { Puts (out_of N.written N.faults diagnostics.old) output_diagnostic (out_of N.written N.faults diagnostics.new) }
{
    diagnostics.put_text(b"kc96: error: standard output could not be written\n");
}

// What is said of a write that has failed.
fn put_unwritten<N: Sink>(what: &Said<'_>, diagnostics: &mut TraceOut<N>)
    ensures { Puts (out_of N.written N.faults diagnostics.old) (unwritten what.now) (out_of N.written N.faults diagnostics.new) }
{
    match what {
        Said::File(name) => {
            report_shown(diagnostics, name.as_bytes());
            diagnostics.put_text(b": error: the file could not be written\n");
        }
        Said::Nothing => put_output(diagnostics),
        Said::Refusal(_) => put_output(diagnostics),
    }
}

// What is said of a response that is given.
fn put_said<N: Sink>(what: &Said<'_>, diagnostics: &mut TraceOut<N>)
    ensures { Puts (out_of N.written N.faults diagnostics.old) (said_in what.now) (out_of N.written N.faults diagnostics.new) }
{
    match what {
        Said::Refusal(diagnostic) => diagnostics.put_text(diagnostic),
        _ => {}
    }
}
