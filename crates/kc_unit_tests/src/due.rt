use kc_due::DueList;

#[test]
fn first_after_each_change(rt: HostRuntime) {
    let mut list = DueList::new();
    assert!(rt; list.first() == None);
    for (slot, at, first) in [
        (3, Some(50), Some((3, 50))),
        (7, Some(20), Some((7, 20))),
        (0, Some(50), Some((7, 20))),
        (7, None, Some((0, 50))),
        (0, Some(60), Some((3, 50))),
        (3, None, Some((0, 60))),
        (15, Some(u64::MAX), Some((0, 60))),
        (0, None, Some((15, u64::MAX))),
        (15, None, None),
        (15, None, None),
    ] {
        assert!(rt; slot < 16);
        match at {
            Some(at) => list.set(slot, at),
            None => list.clear(slot),
        }
        assert!(rt; list.time_of(slot) == at);
        assert!(rt; list.first() == first);
    }
}

#[test]
fn sixteen_slots_in_order_of_time(rt: HostRuntime) {
    let mut list = DueList::new();
    for slot in 0..16u8 {
        list.set(slot, (slot as u64 * 5 + 3) % 16);
    }
    for time in 0..16u8 {
        let slot = (time * 13 + 9) % 16;
        assert!(rt; list.first() == Some((slot, time as u64)));
        list.clear(slot);
    }
    assert!(rt; list.first() == None);
}
