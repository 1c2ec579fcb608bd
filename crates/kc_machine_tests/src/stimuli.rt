use kc_base::{Level, Pin};
use kc_stim::Stimuli;
use std::test::Fail;

#[test]
fn levels_edges_and_wires_of_a_file(rt: HostRuntime) -> Result<(), Fail> {
    let bytes: &[u8] = b"= HSO5 EXTINT\n@10 P10 0\n@20 HSI0 1\n@30 HSI0 1\n@40 HSI0 0\n@40 P10 1\n";
    let read = Stimuli::read(rt.alloc(), bytes);
    let stimuli = read.ok().ok_or("no memory")?;
    let (port, input) = (Pin(6), Pin(18));
    let levels = [
        (9, true, false),
        (10, false, false),
        (20, false, true),
        (39, false, true),
        (40, true, false),
    ];
    for (at, port_high, input_high) in levels {
        assert!(rt; stimuli.level(port, at).is_high() == port_high, "at {at}");
        assert!(rt; stimuli.level(input, at).is_high() == input_high, "at {at}");
    }
    assert!(rt; stimuli.level(Pin(26), 0) == Level::High);
    assert!(rt; stimuli.next_edge(0) == Some(10));
    assert!(rt; stimuli.next_edge(11) == Some(20));
    assert!(rt; stimuli.next_edge(21) == Some(40));
    assert!(rt; stimuli.next_edge(41) == None);
    assert!(rt; stimuli.wire(Pin(24)) == Some(5));
    assert!(rt; stimuli.wire(input) == None);
    assert!(rt; Stimuli::none(rt.alloc()).next_edge(0) == None);
    Ok(())
}

#[test]
fn a_life_begins_in_the_middle_of_stimuli(rt: HostRuntime) -> Result<(), Fail> {
    let bytes: &[u8] = b"= HSO5 EXTINT\n@10 P10 0\n@20 HSI0 1\n@30 HSI0 1\n@40 HSI0 0\n@40 P10 1\n";
    let read = Stimuli::read(rt.alloc(), bytes);
    let stimuli = read.ok().ok_or("no memory")?;
    let (port, input) = (Pin(6), Pin(18));
    let rows = [
        (0, true, false, Some(10)),
        (10, true, false, Some(0)),
        (11, false, false, Some(9)),
        (25, false, true, Some(15)),
        (40, false, true, Some(0)),
        (41, true, false, None),
    ];
    for (at, port_high, input_high, edge) in rows {
        let later = stimuli.after(rt.alloc(), at)?;
        assert!(rt; later.start(port).is_high() == port_high);
        assert!(rt; later.start(input).is_high() == input_high);
        assert!(rt; later.next_edge(0) == edge);
        assert!(rt; later.wire(Pin(24)) == Some(5));
    }
    let twice = stimuli.after(rt.alloc(), 15)?.after(rt.alloc(), 10)?;
    assert!(rt; twice.start(port) == Level::Low);
    assert!(rt; twice.start(input) == Level::High);
    assert!(rt; twice.level(input, 14) == Level::High);
    assert!(rt; twice.level(input, 15) == Level::Low);
    assert!(rt; twice.start(Pin(37)) == Level::High);
    Ok(())
}
