// What notes say, and which lines are none, by rows that were worked by hand.
use kc_addresses::{LineMap, Names};
use kc_base::{FILE_LIMIT, address_text};
use kc_bound::{Notes, NotesFault};
use std::alloc::Global;
use std::test::Fail;

const MAP: &[u8] =
    b"public 2115 WAIT TINY\nnumber 2125 COPY TINY\npublic D214 D214 TINY\npublic 3000 F900 TINY\npublic 6000 BEHIND TINY\npublic 5FFF LAST TINY\n";

const LINES: &[u8] = b"210B TINY 12\n2139 TINY 40\n213A TINY 41\n";

const NOTES: &[u8] =
    b"; How often loops begin, and how many words are moved.\r\n\nloop 211E 6\nloop\t210e 1000000000000000 ; in the whole pass\n loop 2118 4 per wait TINY:12\nwords COPY 65535\ngoes 212E 2130 2100 f900\r\nends tiny:40\nends LAST";

// The number of the first line that is no note.
fn bad_line(alloc: Global, text: &[u8]) -> Result<Option<u32>, Fail> {
    if text.len() > FILE_LIMIT {
        return Ok(Some(0));
    }
    let names = Names::read(alloc, MAP)?;
    let lines = LineMap::read(alloc, LINES)?;
    match Notes::read(alloc, text, &names, &lines) {
        Ok(_) => Ok(None),
        Err(NotesFault::BadNote(line)) => Ok(Some(line)),
        Err(NotesFault::NoMemory) => Ok(Some(0)),
    }
}

#[test]
fn notes_by_rising_address(rt: HostRuntime) -> Result<(), Fail> {
    let names = Names::read(rt.alloc(), MAP)?;
    let lines = LineMap::read(rt.alloc(), LINES)?;
    let notes = Notes::read(rt.alloc(), NOTES, &names, &lines)?;
    assert!(rt; notes.loops.len() == 3);
    let first = &notes.loops[0];
    assert!(rt;
        first.head == 0x210E && first.most == 1_000_000_000_000_000 && first.per.is_empty()
    );
    let second = &notes.loops[1];
    assert!(rt; second.head == 0x2118 && second.most == 4);
    assert!(rt; second.per.as_slice() == [0x2115, 0x210B].as_slice());
    assert!(rt; notes.loops[2].head == 0x211E && notes.loops[2].most == 6);
    assert!(rt; notes.goes.len() == 1 && notes.goes[0].jump == 0x212E);
    assert!(rt; notes.goes[0].targets.as_slice() == [0x2130, 0x2100, 0x3000].as_slice());
    assert!(rt;
        notes.words.len() == 1 && notes.words[0].block == 0x2125 && notes.words[0].most == 65_535
    );
    assert!(rt; notes.ends.as_slice() == [0x2139, 0x5FFF].as_slice());
    Ok(())
}

#[test]
fn lines_that_are_none(rt: HostRuntime) -> Result<(), Fail> {
    let rows: [&[u8]; 36] = [
        b"loop 210E 03",
        b"loop 210E 0",
        b"loop 210E",
        b"loop 210E 3 per",
        b"loop 210E 3 per 210E",
        b"loop 210E 3 per 2115 WAIT",
        b"loop 210E 3 by 2115",
        b"loop 210E 1000000000000001",
        b"loop 6000 3",
        b"loop 1FFF 3",
        b"loop BEHIND 3",
        b"loop 210EH 3",
        b"loop 210 3",
        b"loop .+2 3",
        b"loop WAIT+1 3",
        b"loop NONE 3",
        b"loop 3",
        b"loop",
        b"Loop 210E 3",
        b"words 2125 65536",
        b"words 2125 0",
        b"words 2125",
        b"words 2125 3 4",
        b"words 2125 0FH",
        b"goes 212E",
        b"goes 212E 2100 2100",
        b"goes 212E 2100 D214",
        b"goes",
        b"ends 2100 2100",
        b"ends",
        b"ends TINY:11",
        b"ends TINY:012",
        b"ends TINY:",
        b"ends :12",
        b"ends 12:TINY",
        b"turns 210E 3",
    ];
    for text in rows {
        assert!(rt; bad_line(rt.alloc(), text)? == Some(1));
    }
    assert!(rt; bad_line(rt.alloc(), b"goes 212E 212E")? == None);
    assert!(rt;
        bad_line(
            rt.alloc(),
            b"loop 2115 1\nends 2115\ngoes WAIT 2115\nwords TINY:12 1\n;\r\n"
        )? == None
    );
    Ok(())
}

#[test]
fn words_of_an_address_stand_once(rt: HostRuntime) -> Result<(), Fail> {
    assert!(rt; bad_line(rt.alloc(), b"loop 210E 3\n\nloop 210E 4\n")? == Some(3));
    assert!(rt;
        bad_line(
            rt.alloc(),
            b"loop 210E 3\nloop 2118 4 per WAIT\nloop 210e 1"
        )? == Some(3)
    );
    assert!(rt; bad_line(rt.alloc(), b"goes 212E 2100\ngoes 212E 2102")? == Some(2));
    assert!(rt; bad_line(rt.alloc(), b"words 2125 1\r\nwords COPY 1\r\n")? == Some(2));
    assert!(rt; bad_line(rt.alloc(), b"ends 2115\nends 2114\nends WAIT")? == Some(3));
    Ok(())
}

#[test]
fn targets_256(rt: HostRuntime) -> Result<(), Fail> {
    let mut text: Vec<u8> = Vec::new(rt.alloc());
    text.extend_from_slice(b"goes 2000")?;
    for count in 0..256u16 {
        text.push(b' ')?;
        text.extend_from_slice(address_text(0x2000 + count).as_slice())?;
    }
    assert!(rt; bad_line(rt.alloc(), text.as_slice())? == None);
    text.extend_from_slice(b" 3000")?;
    assert!(rt; bad_line(rt.alloc(), text.as_slice())? == Some(1));
    Ok(())
}

#[test]
fn notes_4096(rt: HostRuntime) -> Result<(), Fail> {
    let mut text: Vec<u8> = Vec::new(rt.alloc());
    for count in 0..1024u16 {
        let word = address_text(0x5FFF - count);
        for (before, behind) in [
            ("loop ", " 1\n"),
            ("goes ", " 2000\n"),
            ("words ", " 1\n"),
            ("ends ", "\n"),
        ] {
            text.extend_from_slice(before.as_bytes())?;
            text.extend_from_slice(word.as_slice())?;
            text.extend_from_slice(behind.as_bytes())?;
        }
    }
    text.extend_from_slice(b"\n; no note\nwords 2000 1\n")?;
    assert!(rt; bad_line(rt.alloc(), text.as_slice())? == Some(4099));
    Ok(())
}
