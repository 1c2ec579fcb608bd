// Bounds of routines, each worked by hand from the states of the instructions, and addresses that are refused.
use crate::machines::put;
use kc_base::{Image, NoMemory};
use kc_bound::{Loop, Moved, Notes, Standing, checked};
use kc_bound_find::{Found, Refusal, Why, find};
use std::alloc::Global;
use std::test::Fail;

/// A program in parts, each with its address.
static PROGRAM: [(u16, &[u8]); 8] = [
    // CMP 30H,[32H]; JE 210AH; ADD 34H,30H,#1; RET
    (
        0x2100,
        &[
            0x8A, 0x32, 0x30, 0xDF, 0x05, 0x45, 0x01, 0x00, 0x30, 0x34, 0xF0,
        ],
    ),
    // LDB 30H,#3; NOP; SCALL 2115H; DJNZ 30H,210EH; RET
    (
        0x210B,
        &[0xB1, 0x03, 0x30, 0xFD, 0x28, 0x04, 0xE0, 0x30, 0xFA, 0xF0],
    ),
    // LDB 31H,#4; INC 36H; DJNZ 31H,2118H; RET
    (
        0x2115,
        &[0xB1, 0x04, 0x31, 0x07, 0x36, 0xE0, 0x31, 0xFB, 0xF0],
    ),
    // CMP 30H,0; JE 212AH; DEC 30H; BMOV 38H,3CH; SJMP 211EH; RET
    (
        0x211E,
        &[
            0x88, 0x00, 0x30, 0xDF, 0x07, 0x05, 0x30, 0xC1, 0x3C, 0x38, 0x27, 0xF4, 0xF0,
        ],
    ),
    // JBC 30H,0,2130H; BR [32H]; BMOV 38H,3CH; JBS 15H,7,2133H; LJMP 6000H
    (
        0x212B,
        &[
            0x30, 0x30, 0x02, 0xE3, 0x32, 0xC1, 0x3C, 0x38, 0x3F, 0x15, 0xFD, 0xE7, 0xC7, 0x3E,
        ],
    ),
    // PUSHA; JBS 15H,7,213AH; SHL 40H,42H; POPA; RET
    (
        0x2139,
        &[0xF4, 0x3F, 0x15, 0xFD, 0x09, 0x42, 0x40, 0xF5, 0xF0],
    ),
    // DI; INC 36H; EI; NOP; SJMP 2143H
    (0x2143, &[0xFA, 0x07, 0x36, 0xFB, 0xFD, 0x27, 0xF9]),
    // NOP; SCALL 214AH; RET
    (0x214A, &[0xFD, 0x2F, 0xFD, 0xF0]),
];

pub(crate) fn program(alloc: Global) -> Result<Image, NoMemory> {
    let mut image = Image::blank(alloc)?;
    for (at, bytes) in &PROGRAM {
        put(&mut image, *at, bytes);
    }
    Ok(image)
}

fn no_notes(alloc: Global) -> Notes {
    Notes {
        loops: Vec::new(alloc),
        goes: Vec::new(alloc),
        words: Vec::new(alloc),
        ends: Vec::new(alloc),
    }
}

/// Adds that the head of a loop begins at most so many times in a pass.
fn note_loop(alloc: Global, notes: &mut Notes, head: u16, most: u64) -> Result<(), NoMemory> {
    notes.loops.push(Loop {
        head,
        most,
        per: Vec::new(alloc),
    })?;
    Ok(())
}

/// The notes of the program.
pub(crate) fn all_notes(alloc: Global) -> Result<Notes, NoMemory> {
    let mut notes = no_notes(alloc);
    note_loop(alloc, &mut notes, 0x210E, 3)?;
    notes.loops.push(Loop {
        head: 0x2118,
        most: 4,
        per: vec![in alloc; 0x2115]?,
    })?;
    note_loop(alloc, &mut notes, 0x211E, 6)?;
    note_loop(alloc, &mut notes, 0x213A, 2)?;
    notes.words.push(Moved {
        block: 0x2125,
        most: 2,
    })?;
    Ok(notes)
}

/// From where, where a pass is over beside its return, its bound, and the prices of the loops.
static BOUNDS: [(u16, Option<u16>, u64, [u64; 4]); 5] = [
    // 8 + max(8, 4 + 6) + 13
    (0x2100, None, 31, [0, 0, 0, 0]),
    // 5 + 3(2 + 13 + 5 + 4(3 + 9) + 13 + 9) + 13
    (0x210B, None, 288, [90, 12, 0, 0]),
    // 5(4 + 4 + 3 + 34 + 7) + 4 + 8 + 13
    (0x211E, None, 285, [0, 0, 52, 0]),
    // 14 + 2 * 9 + 37 + 14 + 13
    (0x2139, None, 96, [0, 0, 0, 9]),
    // 2 + 3 + 2 + 2 + 7
    (0x2143, Some(0x2143), 16, [0, 0, 0, 0]),
];

#[test]
fn certificates_show_the_bounds_that_were_worked_by_hand(rt: HostRuntime) -> Result<(), Fail> {
    let alloc = rt.alloc();
    let image = program(alloc)?;
    for (from, end, states, prices) in &BOUNDS {
        let mut notes = all_notes(alloc)?;
        if let Some(at) = *end {
            notes.ends.push(at)?;
        }
        let Found::Certificate(found) = find(alloc, &image, &notes, *from)? else {
            panic!(rt; "{from:x}: no certificate");
        };
        let Some(bound) = checked(alloc, &image, &notes, *from, &found)? else {
            panic!(rt; "{from:x}: no bound");
        };
        assert_eq!(rt; bound.over, *states, "{from:x}");
        assert!(rt; found.prices.as_slice() == prices.as_slice(), "{from:x}");
    }
    Ok(())
}

fn with_one_less(standing: Option<Standing>) -> Option<Standing> {
    let Standing {
        potential,
        rank,
        leaves,
    } = standing?;
    Some(Standing {
        potential: potential.saturating_sub(1),
        rank,
        leaves,
    })
}

#[test]
fn no_potential_may_be_one_less(rt: HostRuntime) -> Result<(), Fail> {
    let alloc = rt.alloc();
    let image = program(alloc)?;
    let notes = all_notes(alloc)?;
    // the instructions of the first routine, from 2000H on
    for place in [0x100, 0x103, 0x105, 0x10A] {
        let Found::Certificate(mut found) = find(alloc, &image, &notes, 0x2100)? else {
            panic!(rt; "no certificate");
        };
        let Some(standing) = found.standings.get_mut(place) else {
            panic!(rt; "no standing");
        };
        *standing = with_one_less(*standing);
        let bound = checked(alloc, &image, &notes, 0x2100, &found)?;
        assert!(rt; bound.is_none(), "{place:x}");
    }
    Ok(())
}

fn word_of(why: Why) -> &'static str {
    match why {
        Why::Block => "block",
        Why::Computed => "computed",
        Why::Early => "early",
        Why::Endless => "endless",
        Why::Outside => "outside",
        Why::Recursive => "recursive",
        Why::Unbounded => "unbounded",
    }
}

/// Whether these are the refusals, in order.
fn are_refused(refused: &[Refusal], addresses: &[(u16, &str)]) -> bool {
    refused.len() == addresses.len()
        && refused.iter().zip(addresses).all(|(one, (at, word))| one.at == *at
            && word_of(one.why) == *word)
}

/// From where, whether with the notes, and what is refused.
static REFUSED: [(u16, bool, &[(u16, &str)]); 4] = [
    (0x2143, true, &[(0x2143, "unbounded")]),
    (
        0x210B,
        false,
        &[(0x210E, "unbounded"), (0x2118, "unbounded")],
    ),
    (
        0x212B,
        true,
        &[
            (0x212E, "computed"),
            (0x2130, "block"),
            (0x2133, "unbounded"),
            (0x6000, "outside"),
        ],
    ),
    (0x214A, true, &[(0x214A, "recursive")]),
];

#[test]
fn what_has_no_bound_is_refused_by_rising_address(rt: HostRuntime) -> Result<(), Fail> {
    let alloc = rt.alloc();
    let image = program(alloc)?;
    for (from, is_noted, addresses) in &REFUSED {
        let notes = if *is_noted {
            all_notes(alloc)?
        } else {
            no_notes(alloc)
        };
        let Found::Refused(refused) = find(alloc, &image, &notes, *from)? else {
            panic!(rt; "{from:x}: a certificate");
        };
        assert!(rt; are_refused(refused.as_slice(), addresses), "{from:x}");
    }
    Ok(())
}

#[test]
fn heads_come_behind_what_they_are_counted_from_and_a_way_leads_out(
    rt: HostRuntime,
) -> Result<(), Fail> {
    let alloc = rt.alloc();
    let image = program(alloc)?;
    let mut notes = no_notes(alloc);
    notes.loops.push(Loop {
        head: 0x2103,
        most: 2,
        per: vec![in alloc; 0x2105]?,
    })?;
    note_loop(alloc, &mut notes, 0x2143, 5)?;
    let Found::Refused(early) = find(alloc, &image, &notes, 0x2100)? else {
        panic!(rt; "a certificate");
    };
    assert!(rt; are_refused(early.as_slice(), &[(0x2103, "early")]));
    let Found::Refused(endless) = find(alloc, &image, &notes, 0x2143)? else {
        panic!(rt; "a certificate");
    };
    assert!(rt; endless.len() == 5);
    assert!(rt; endless.iter().all(|one| word_of(one.why) == "endless"));
    Ok(())
}
