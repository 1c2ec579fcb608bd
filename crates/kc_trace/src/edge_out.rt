use crate::{Record, TraceOut};
use kc_base::{Edge, EdgeOut, Sink, StateTime};

impl<S: Sink> EdgeOut for TraceOut<S> {
    ghost use Rattle.kc_trace.specs.Trace.{edge_led};

    ghost led = { edge_led S.written S.faults };

    fn edge(&mut self, at: StateTime, edge: Edge) {
        self.put(&Record::Pin { at, edge });
    }
}
