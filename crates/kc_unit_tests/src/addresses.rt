// What words mean, by rows that were worked by hand.
use kc_addresses::{Known, LineMap, MapFault, Names, count, cut, is_over, place, value};
use kc_base::FILE_LIMIT;
use std::alloc::Global;
use std::test::Fail;

const MAP: &[u8] =
    b"piece code 2080 19 MAIN\nnumber 001C TIME MAIN\r\npublic 2094 CRANK CRANKS\npublic FACE FACE CRANKS\nstack 0200 16\nfree reg 001A 2\n";

const LINES: &[u8] = b"2080 MAIN 9\n2094 CRANKS 10\n2095 CRANKS 11\n2098 CRANKS 11\n";

#[test]
fn places(rt: HostRuntime) -> Result<(), Fail> {
    let names = Names::read(rt.alloc(), MAP)?;
    let lines = LineMap::read(rt.alloc(), LINES)?;
    let known = Known {
        names: &names,
        lines: &lines,
        pc: 0x2091,
    };
    let rows: [(&[u8], Option<u16>); 20] = [
        (b".", Some(0x2091)),
        (b"2094", Some(0x2094)),
        (b"20H", Some(0x20)),
        (b"0D00h", Some(0xD00)),
        (b"crank", Some(0x2094)),
        (b"CRANK+10", Some(0x209E)),
        (b".+2", Some(0x2093)),
        (b"FACE", Some(0xFACE)),
        (b"FACE+1", Some(0xFACF)),
        (b"CRANKS:11", Some(0x2095)),
        (b"cranks:10", Some(0x2094)),
        (b"CRANKS:12", None),
        (b"CRANKS:010", None),
        (b"CRANKS:", None),
        (b"CRANK+60000", None),
        (b"CRANK+1H", None),
        (b"CRAN", None),
        (b"0D00HH", None),
        (b"20", None),
        (b"", None),
    ];
    for (word, addr) in rows {
        assert!(rt; place(known, word) == addr);
    }
    Ok(())
}

#[test]
fn nearest_names(rt: HostRuntime) -> Result<(), Fail> {
    let names = Names::read(rt.alloc(), MAP)?;
    for (addr, value) in [
        (0x2093, None),
        (0x2094, Some(0x2094)),
        (0xFACD, Some(0x2094)),
        (0xFACE, Some(0xFACE)),
        (0x1C, None),
    ] {
        let found = match names.nearest(addr) {
            Some(name) => Some(name.value),
            None => None,
        };
        assert!(rt; found == value);
    }
    Ok(())
}

// The number of the first line that is none of a map.
fn bad_line(alloc: Global, text: &[u8]) -> Option<u32> {
    if text.len() > FILE_LIMIT {
        return None;
    }
    match Names::read(alloc, text) {
        Ok(_) => None,
        Err(MapFault::BadLine(line)) => Some(line),
        Err(MapFault::NoMemory) => None,
    }
}

#[test]
fn maps_that_are_none(rt: HostRuntime) {
    let rows: [(&[u8], u32); 6] = [
        (b"public 2094 CRANK\n", 1),
        (b"stack 0200 16\npublic 209 CRANK CRANKS\n", 2),
        (b"stack 0200 16\nfree\n\n", 3),
        (b"number 2094 2ND CRANKS", 1),
        (b"publics 2094 CRANK CRANKS\n", 1),
        (b"number 2094 CRANK CRANKS \n", 1),
    ];
    for (text, line) in rows {
        assert!(rt; bad_line(rt.alloc(), text) == Some(line));
    }
}

#[test]
fn numbers(rt: HostRuntime) {
    assert!(rt; value(0xFFFF, b"65535") == Some(0xFFFF));
    assert!(rt; value(0xFFFF, b"0FFFFH") == Some(0xFFFF));
    assert!(rt; value(0xFFFF, b"10000H") == None);
    assert!(rt; value(0xFFFF, b"FH") == None);
    assert!(rt; value(0xFFFF, b"") == None);
    assert!(rt; count(256, b"256") == Some(256));
    assert!(rt; count(256, b"257") == None);
    assert!(rt; count(256, b"01") == None);
    assert!(rt; count(256, b"0") == None);
    assert!(rt; count(256, b"") == None);
}

#[test]
fn words(rt: HostRuntime) {
    let (first, rest) = cut(b"\t loop  210E\t");
    assert!(rt; first == b"loop".as_slice());
    let (second, rest) = cut(rest);
    assert!(rt; second == b"210E".as_slice());
    assert!(rt; is_over(rest));
    assert!(rt; !is_over(b" x"));
}
