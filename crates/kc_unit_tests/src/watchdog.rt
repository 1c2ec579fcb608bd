use kc_base::StateTime;
use kc_cycles::{PATIENCE, Watchdog};
use kc_extra::Extra;

/// Writes of the register, each with its state, and the deadline after them.
struct Row {
    writes: &'static [(u8, u16)],
    deadline: Option<StateTime>,
}

const ROWS: [Row; 5] = [
    Row {
        writes: &[],
        deadline: None,
    },
    Row {
        writes: &[(0x1E, 4), (0xE1, 9)],
        deadline: Some(65_545),
    },
    Row {
        writes: &[(0x1E, 4), (0x00, 6), (0xE1, 9)],
        deadline: None,
    },
    Row {
        writes: &[(0xE1, 4), (0x1E, 9)],
        deadline: None,
    },
    Row {
        writes: &[(0x1E, 4), (0xE1, 9), (0xE1, 14), (0x1E, 20), (0xE1, 25)],
        deadline: Some(65_561),
    },
];

#[test]
fn two_values_feed_it(rt: HostRuntime) {
    assert!(rt; PATIENCE == 65_536);
    for row in &ROWS {
        let mut watchdog = Watchdog::new();
        for (value, at) in row.writes {
            let now = u64::from(*at);
            assert!(rt; watchdog.write(0, 0x0A, *value, now));
            assert!(rt; !watchdog.write(1, 0x0A, *value, now));
        }
        assert!(rt; watchdog.deadline() == row.deadline);
        assert!(rt; watchdog.moves() == 0);
    }
}
