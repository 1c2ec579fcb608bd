use kc_base::IntSet;
use kc_intc::{Choice, Requests};

fn requests(pending: u16, mask: u16, select: u16, service: u16) -> Requests {
    Requests {
        pending,
        mask,
        select,
        service,
    }
}

#[test]
fn requests_are_chosen_in_order(rt: HostRuntime) {
    let table = [
        (requests(0x8001, 1, 1, 0), true, true, Choice::Nmi),
        (
            requests(0x0081, 0x81, 0x80, 0),
            true,
            true,
            Choice::Transfer(7),
        ),
        (
            requests(0x0081, 0x81, 0x01, 0),
            true,
            true,
            Choice::Transfer(0),
        ),
        (
            requests(0x0081, 0x81, 0x80, 0),
            false,
            true,
            Choice::Enter(0),
        ),
        (
            requests(0x0001, 0x81, 0x00, 0x80),
            true,
            true,
            Choice::Enter(7),
        ),
        (requests(0x0081, 0x00, 0x80, 0), true, true, Choice::Go),
        (requests(0x0081, 0x81, 0x00, 0), true, false, Choice::Go),
        (requests(0, 0xFFFF, 0xFFFF, 0x8000), true, true, Choice::Go),
    ];
    for (given, pse, enabled, want) in table {
        assert!(rt; given.choose(pse, enabled) == want);
    }
}

#[test]
fn requests_change_one_bit(rt: HostRuntime) {
    let mut all = requests(0x8000, 3, 0x84, 0x80);
    all.raise(IntSet(0x0005));
    assert!(rt; all == requests(0x8005, 3, 0x84, 0x80));
    all.taken(2);
    assert!(rt; all == requests(0x8001, 3, 0x84, 0x80));
    all.ended(2);
    assert!(rt; all == requests(0x8001, 3, 0x80, 0x84));
    all.entered(7);
    assert!(rt; all == requests(0x8001, 3, 0x80, 0x04));
    all.entered(15);
    assert!(rt; all == requests(0x0001, 3, 0x80, 0x04));
}
