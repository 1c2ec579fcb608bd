ghost use Rattle.std.specs.Prelude.{◌≡◌, ◌+◌, ◌^◌, ◌-◌, min, true, false, OnOk, OnErr};
ghost use Rattle.kc_trace.specs.Text.{line_of};
ghost use Rattle.kc_trace.specs.Printable.{CanPrint};
ghost use Rattle.kc_trace.specs.Out.{Puts};
ghost use Rattle.kc_trace.specs.Counting.{counted, counted_unless};

use crate::Record;
use crate::spelling::{LineBytes, put_line};
use kc_base::{Sink, put_all};

/// How many records of three kinds were put while the sink had not failed, each number standing still at its type's end; and which
/// pins have had an edge since that was last cleared, bit n pin n.
#[derive(Clone, Copy)]
pub struct Counts {
    pub pins: u64,
    pub entries: u64,
    pub cycles: u64,
    pub edges: u64,
}

fn one_more(count: u64) -> u64
    ensures { result ≡ min (count + 1) (2 ^ 64 - 1) }
{
    count.saturating_add(1)
}

impl Counts {
    fn with(self, item: &Record) -> Counts
        requires { CanPrint item.now }
        ensures { result ≡ counted item.now self }
    {
        match item {
            Record::Pin { edge, .. } => Counts {
                pins: one_more(self.pins),
                edges: self.edges | 1 << edge.pin.0,
                ..self
            },
            Record::Entered { .. } => Counts {
                entries: one_more(self.entries),
                ..self
            },
            Record::Served { .. } => Counts {
                cycles: one_more(self.cycles),
                ..self
            },
            _ => self,
        }
    }
}

/// The sink has failed.
#[derive(Clone, Copy, PartialEq, Eq)]
pub struct WriteFault;

/// Writes the lines of a trace to a sink, up to its first fault.
#[derive(Drop)]
pub struct TraceOut<S> {
    sink: S,
    failed: bool,
    counts: Counts,
}

impl<S: Sink> TraceOut<S> {
    ghost use Rattle.kc_trace.specs.Trace.{out_of};

    /// A trace to this sink, with no record put yet.
    pub fn new(sink: S) -> Self
        ensures sink { result.sink ≡ sink }
        ensures failed { result.failed ≡ false }
        ensures counts { result.counts ≡ record { pins = 0; entries = 0; cycles = 0; edges = 0 } }
    {
        TraceOut {
            sink,
            failed: false,
            counts: Counts {
                pins: 0,
                entries: 0,
                cycles: 0,
                edges: 0,
            },
        }
    }

    /// Whether the sink has failed.
    pub fn failed(&self) -> bool
        ensures { result ≡ self.now.failed }
    {
        self.failed
    }

    /// Whether all was written; the fault, where the sink has failed.
    pub fn written(&self) -> Result<(), WriteFault>
        ensures written { OnOk result (self.now.failed ≡ false) }
        ensures failed { OnErr result (self.now.failed ≡ true) }
    {
        if self.failed { Err(WriteFault) } else { Ok(()) }
    }

    /// The sink.
    pub fn sink(&self) -> &S
        ensures { result.now ≡ self.now.sink }
    {
        &self.sink
    }

    /// How many pin edges, entries and cycles were put while the sink had not failed, and of which pins.
    pub fn counts(&self) -> Counts
        ensures { result ≡ self.now.counts }
    {
        self.counts
    }

    /// Clears which pins have had an edge.
    pub fn clear_edges(&mut self)
        ensures { self.new ≡ record self.old { counts = record self.old.counts { edges = 0 } } }
    {
        self.counts.edges = 0;
    }

    /// Writes a text, of which nothing is written after the sink's first fault.
    pub fn put_text(&mut self, text: &[u8])
        ensures text { Puts (out_of S.written S.faults self.old) text.now (out_of S.written S.faults self.new) }
        ensures counts { self.new.counts ≡ self.old.counts }
    {
        if self.failed {
            return;
        }
        match put_all(&mut self.sink, text) {
            Ok(()) => {}
            Err(_) => self.failed = true,
        }
    }

    /// Writes the line of a record, by one write where the sink takes it whole.
    pub fn put(&mut self, item: &Record)
        requires { CanPrint item.now }
        ensures line { Puts (out_of S.written S.faults self.old) (line_of item.now) (out_of S.written S.faults self.new) }
        ensures counts { self.new.counts ≡ counted_unless self.old.failed item.now self.old.counts }
    {
        if !self.failed {
            self.counts = self.counts.with(item);
        }
        let mut text = LineBytes::new();
        put_line(&mut text, item);
        self.put_text(text.as_slice());
    }
}
