// Lives, rules and their verdicts, worked by hand.
use kc_base::{Level, Pin};
use kc_monitor::{Watch, put_verdict};
use kc_rules::Rules;
use kc_trace::{Levels, Signal, What};
use std::alloc::Global;
use std::test::*;

const P10: Signal = Signal::Output(Pin(6));

const P11: Signal = Signal::Output(Pin(7));

const HSO0: Signal = Signal::Output(Pin(0));

const HSI0: Signal = Signal::Input(Pin(18));

const EXTINT: Signal = Signal::Input(Pin(24));

static PORTS: [(u64, What); 7] = [
    (10, What::Edge(P10, Level::Low)),
    (10, What::Edge(P11, Level::Low)),
    (20, What::Edge(P10, Level::High)),
    (30, What::Edge(P10, Level::Low)),
    (50, What::Edge(P11, Level::High)),
    (60, What::Edge(P11, Level::Low)),
    (65, What::Edge(P10, Level::High)),
];

static REQUESTS: [(u64, What); 5] = [
    (40, What::Edge(EXTINT, Level::High)),
    (50, What::Entry(7)),
    (80, What::Edge(EXTINT, Level::High)),
    (90, What::Entry(7)),
    (115, What::Edge(EXTINT, Level::High)),
];

static ENTRIES: [(u64, What); 2] = [(50, What::Entry(7)), (90, What::Entry(7))];

static WHEEL: [(u64, What); 8] = [
    (100, What::Edge(HSI0, Level::High)),
    (200, What::Edge(HSI0, Level::High)),
    (400, What::Edge(HSI0, Level::High)),
    (500, What::Edge(HSI0, Level::High)),
    (500, What::Edge(HSO0, Level::High)),
    (510, What::Edge(HSO0, Level::Low)),
    (600, What::Edge(HSI0, Level::High)),
    (800, What::Edge(HSI0, Level::High)),
];

static PULSES: [(u64, What); 5] = [
    (100, What::Edge(HSO0, Level::High)),
    (110, What::Edge(HSO0, Level::Low)),
    (200, What::Edge(HSO0, Level::High)),
    (205, What::Edge(HSO0, Level::Low)),
    (301, What::Edge(HSO0, Level::High)),
];

static FIRST_LIFE: [(u64, What); 3] = [
    (5, What::Edge(HSO0, Level::High)),
    (9, What::Edge(EXTINT, Level::High)),
    (9, What::Watchdog),
];

static SECOND_LIFE: [(u64, What); 1] = [(3, What::Edge(HSO0, Level::High))];

// A life is seen, state by state.
fn see(alloc: Global, watch: &mut Watch, events: &[(u64, What)], last: u64) -> Result<(), Fail> {
    watch.begin(alloc, Levels::start());
    let mut whats = Vec::new(alloc);
    let mut now = 0;
    for (at, what) in events {
        if *at != now && !whats.is_empty() {
            watch.state(alloc, now, whats.as_slice())?;
            whats.clear();
        }
        now = *at;
        whats.push(*what)?;
    }
    if !whats.is_empty() {
        watch.state(alloc, now, whats.as_slice())?;
    }
    watch.over(last);
    Ok(())
}

// The verdict of the first rule.
fn verdict(alloc: Global, watch: &Watch) -> Result<Vec<u8>, Fail> {
    let mut text = Vec::new(alloc);
    let rules = watch.rules().rules();
    let monitors = watch.monitors();
    if !rules.is_empty() && !monitors.is_empty() {
        put_verdict(
            &mut text,
            &rules[0],
            monitors[0].lives(),
            monitors[0].tally(),
        )?;
    }
    Ok(text)
}

// The verdict of a short text of rules.
fn reported(alloc: Global, text: &str, events: &[(u64, What)], last: u64) -> Result<Vec<u8>, Fail> {
    let bytes = text.as_bytes();
    if bytes.len() > 1000 {
        return Ok(Vec::new(alloc));
    }
    match Rules::read(alloc, 20_000_000, bytes) {
        Ok(rules) => {
            let mut watch = Watch::new(alloc, rules)?;
            see(alloc, &mut watch, events, last)?;
            verdict(alloc, &watch)
        }
        Err(_) => Ok(Vec::new(alloc)),
    }
}

// How many of these rules, from the first on, have the answer that stands beside them.
fn reported_right(
    alloc: Global,
    events: &[(u64, What)],
    last: u64,
    rows: &[(&str, &str)],
) -> Result<usize, Fail> {
    for (i, row) in rows.iter().enumerate() {
        let text = reported(alloc, row.0, events, last)?;
        if text.as_slice() != row.1.as_bytes() {
            return Ok(i);
        }
    }
    Ok(rows.len())
}

#[test]
fn two_ports(rt: HostRuntime) -> Result<(), Fail> {
    let right = reported_right(
        rt.alloc(),
        &PORTS,
        99,
        &[
            ("never P11 rise before 50", "held 1 1\n"),
            ("never P11 rise before 51", "broken 1 50 - 1 0\n"),
            (
                "P10 high for 10 to 34",
                "broken 1 65 - 1 1\nspread 1 10 10\n",
            ),
            ("P10 high for 10 to 35", "held 1 1\nspread 1 10 10\n"),
            (
                "P10 high and P11 high 20 apart",
                "broken 1 0 -1 4 1\nspread 1 -1 20\n",
            ),
            (
                "P10 high and P11 high 20 apart from 10",
                "broken 1 65 5 1 1\nspread 1 5 20\n",
            ),
            (
                "P10 high and P11 high 20 apart from 10 before 65",
                "held 1 1\nspread 1 20 20\n",
            ),
        ],
    )?;
    assert!(rt; right == 7, "row {right}");
    Ok(())
}

#[test]
fn requests_and_entries(rt: HostRuntime) -> Result<(), Fail> {
    let right = reported_right(
        rt.alloc(),
        &REQUESTS,
        119,
        &[
            (
                "after each EXTINT rise, entry 7 within 10",
                "open 1 115 1 2\nspread 1 10 10\n",
            ),
            (
                "after each EXTINT rise, entry 7 within 9",
                "broken 1 40 10 2 0\nspread 1 10 10\n",
            ),
            (
                "after each EXTINT rise, entry 7 within 4",
                "broken 1 40 10 3 0\nspread 1 10 10\n",
            ),
        ],
    )?;
    assert!(rt; right == 3, "row {right}");
    let right = reported_right(
        rt.alloc(),
        &ENTRIES,
        119,
        &[
            (
                "after each EXTINT rise, entry 7 within 10",
                "broken 1 - unasked\n",
            ),
            (
                "after each EXTINT rise, entry 7 within 10 if any",
                "held 1 0\n",
            ),
        ],
    )?;
    assert!(rt; right == 2, "row {right}");
    Ok(())
}

#[test]
fn teeth_and_periods(rt: HostRuntime) -> Result<(), Fail> {
    let right = reported_right(
        rt.alloc(),
        &WHEEL,
        899,
        &[
            (
                "mark TOP = HSI0 rise after 150% quiet\nHSO0 rise at 25% of TOP to TOP within 0",
                "held 2 1\nspread 2 0 0\n",
            ),
            (
                "mark TOP = HSI0 rise after 150% quiet\nHSO0 fall at 27.4% of TOP to TOP within 0",
                "broken 2 400 1 1 0\nspread 2 0 1\n",
            ),
            (
                "mark TOP = HSI0 rise after 150% quiet\nHSO0 fall at 27.4% of TOP to TOP within 40ns",
                "held 2 1\nspread 2 0 1\n",
            ),
            (
                "mark TOP = HSI0 rise after 150% quiet\nHSO0 fall at 27.4% of TOP to TOP within 0.1%",
                "held 2 1\nspread 2 0 1\n",
            ),
        ],
    )?;
    assert!(rt; right == 4, "row {right}");
    let right = reported_right(
        rt.alloc(),
        &PULSES,
        400,
        &[
            (
                "HSO0 high for 5% to 10%",
                "broken 1 200 5 1 1\nspread 1 4.95% 10.00%\n",
            ),
            (
                "HSO0 high for 4.95% to 10%",
                "held 1 2\nspread 1 4.95% 10.00%\n",
            ),
        ],
    )?;
    assert!(rt; right == 2, "row {right}");
    Ok(())
}

#[test]
fn a_rule_over_two_lives(rt: HostRuntime) -> Result<(), Fail> {
    let alloc = rt.alloc();
    match Rules::read(alloc, 20_000_000, b"1 EXTINT rise in each life") {
        Ok(rules) => {
            let mut watch = Watch::new(alloc, rules)?;
            see(alloc, &mut watch, &FIRST_LIFE, 9)?;
            see(alloc, &mut watch, &SECOND_LIFE, 19)?;
            let text = verdict(alloc, &watch)?;
            assert!(rt; text.as_slice() == "broken 1 0 0 1 1 life 2\nspread 1 0 1\n".as_bytes());
        }
        Err(_) => assert!(rt; false),
    }
    Ok(())
}
