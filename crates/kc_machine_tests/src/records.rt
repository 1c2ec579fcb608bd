use kc_base::{Edge, EdgeOut, Level, MemSink, NoMemory, Pin, PtsMode};
use kc_trace::{Record, TraceOut};
use std::alloc::Global;

fn put_three(out: &mut TraceOut<MemSink>) {
    let low = Edge {
        pin: Pin(0),
        level: Level::Low,
    };
    out.put_text(b"");
    out.edge(7, low);
    out.put(&Record::Entered {
        at: 9,
        vector: 16,
        back: 0x2081,
    });
    out.put(&Record::Served {
        at: 30,
        vector: 3,
        mode: PtsMode::Block,
        count: 0,
    });
}

fn failing_at(alloc: Global, write: u64) -> Result<TraceOut<MemSink>, NoMemory> {
    let mut failing = Vec::new(alloc);
    failing.push(write)?;
    Ok(TraceOut::new(MemSink::new(alloc, 256, failing)?))
}

#[test]
fn a_trace_stops_at_the_first_fault(rt: HostRuntime) -> Result<(), std::test::Fail> {
    let table = [
        (
            0,
            "P 7 HSO0 0\nI 9 16 2081\nS 30 3 block 0\n",
            (1, 1, 1),
            false,
        ),
        (1, "", (1, 0, 0), true),
        (2, "P 7 HSO0 0\n", (1, 1, 0), true),
        (3, "P 7 HSO0 0\nI 9 16 2081\n", (1, 1, 1), true),
    ];
    for (write, text, (pins, entries, cycles), failed) in table {
        let mut out = failing_at(rt.alloc(), write)?;
        put_three(&mut out);
        let counts = out.counts();
        assert!(rt; out.sink().written() == text.as_bytes());
        assert!(rt; (counts.pins, counts.entries, counts.cycles) == (pins, entries, cycles));
        assert!(rt; out.failed() == failed);
    }
    Ok(())
}
