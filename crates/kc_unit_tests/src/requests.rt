// Where a request other than NMI may be served in the passes through routines, by a model that was written apart.
use crate::machines::put;
use kc_base::{Image, NoMemory};
use kc_bound::{Goes, Moved, Notes};
use kc_bound_requests::{CALLED, ENTERED, EnabledSet, checked, find};
use std::alloc::Global;
use std::test::Fail;

/// A program in parts, each with its address.
static PROGRAM: [(u16, &[u8]); 12] = [
    // CMP 30H,[32H]; JE 210AH; ADD 34H,30H,#1; RET
    (
        0x2100,
        &[
            0x8A, 0x32, 0x30, 0xDF, 0x05, 0x45, 0x01, 0x00, 0x30, 0x34, 0xF0,
        ],
    ),
    // LDB 30H,#3; NOP; SCALL 2115H; DJNZ 30H,210EH; RET
    (
        0x210B,
        &[0xB1, 0x03, 0x30, 0xFD, 0x28, 0x04, 0xE0, 0x30, 0xFA, 0xF0],
    ),
    // LDB 31H,#4; INC 36H; DJNZ 31H,2118H; RET
    (
        0x2115,
        &[0xB1, 0x04, 0x31, 0x07, 0x36, 0xE0, 0x31, 0xFB, 0xF0],
    ),
    // CMP 30H,0; JE 212AH; DEC 30H; BMOV 38H,3CH; SJMP 211EH; RET
    (
        0x211E,
        &[
            0x88, 0x00, 0x30, 0xDF, 0x07, 0x05, 0x30, 0xC1, 0x3C, 0x38, 0x27, 0xF4, 0xF0,
        ],
    ),
    // PUSHA; JBS 15H,7,213AH; SHL 40H,42H; POPA; RET
    (
        0x2139,
        &[0xF4, 0x3F, 0x15, 0xFD, 0x09, 0x42, 0x40, 0xF5, 0xF0],
    ),
    // DI; INC 36H; EI; NOP; SJMP 2143H
    (0x2143, &[0xFA, 0x07, 0x36, 0xFB, 0xFD, 0x27, 0xF9]),
    // LDB 30H,#0; PUSHA; POPA; RET
    (0x2160, &[0xB1, 0x00, 0x30, 0xF4, 0xF5, 0xF0]),
    // EPTS; BMOVI 38H,3CH; RET
    (0x2170, &[0xED, 0xCD, 0x3C, 0x38, 0xF0]),
    // PUSHA; BMOV 38H,3CH; POPA; RET
    (0x2180, &[0xF4, 0xC1, 0x3C, 0x38, 0xF5, 0xF0]),
    // PUSHA; SCALL 2197H; NOP; POPA; RET; 2197H: EI; DI; RET
    (
        0x2190,
        &[0xF4, 0x28, 0x04, 0xFD, 0xF5, 0xF0, 0xFF, 0xFB, 0xFA, 0xF0],
    ),
    // PUSHA; SCALL 21A7H; NOP; POPA; RET; 21A7H: DI; EI; RET
    (
        0x21A0,
        &[0xF4, 0x28, 0x04, 0xFD, 0xF5, 0xF0, 0xFF, 0xFA, 0xFB, 0xF0],
    ),
    // PUSHA; BR [32H]; 21B4H: POPA; RET; 21B6H: TRAP; SJMP 21B4H; the TRAP's own: DPTS; EI; RET at 21C0H
    (
        0x21B0,
        &[0xF4, 0xE3, 0x32, 0xFF, 0xF5, 0xF0, 0xF7, 0x27, 0xFB],
    ),
];

fn program(alloc: Global) -> Result<Image, NoMemory> {
    let mut image = Image::blank(alloc)?;
    for (at, bytes) in &PROGRAM {
        put(&mut image, *at, bytes);
    }
    put(&mut image, 0x2010, &[0xC0, 0x21]);
    put(&mut image, 0x21C0, &[0xEC, 0xFB, 0xF0]);
    Ok(image)
}

/// How many words the block moves have, where the jump leads, and the end of the passes, if they have one beside their return.
fn notes(alloc: Global, end: Option<u16>) -> Result<Notes, NoMemory> {
    let mut notes = Notes {
        loops: Vec::new(alloc),
        goes: vec![in alloc;
            Goes {
                jump: 0x21B1,
                targets: vec![in alloc; 0x21B4, 0x21B6]?
            },
        ]?,
        words: Vec::new(alloc),
        ends: Vec::new(alloc),
    };
    for block in [0x2125, 0x2171, 0x2181] {
        notes.words.push(Moved { block, most: 2 })?;
    }
    if let Some(at) = end {
        notes.ends.push(at)?;
    }
    Ok(notes)
}

/// From where, where a pass is over beside its return, with what it begins, and the least address that is open.
static OPEN: [(u16, Option<u16>, EnabledSet, Option<u16>); 16] = [
    (0x2100, None, CALLED, Some(0x2100)),
    (0x210B, None, CALLED, Some(0x210B)),
    (0x211E, None, CALLED, Some(0x211E)),
    (0x2139, None, CALLED, Some(0x2139)),
    (0x2139, None, ENTERED, None),
    (0x2143, Some(0x2143), CALLED, Some(0x2143)),
    (0x2143, Some(0x2143), ENTERED, Some(0x2146)),
    (0x2115, None, ENTERED, Some(0x2118)),
    (0x2160, None, ENTERED, Some(0x2163)),
    (0x2170, None, ENTERED, Some(0x2171)),
    (0x2180, None, CALLED, Some(0x2180)),
    (0x2180, None, ENTERED, None),
    (0x2190, None, ENTERED, None),
    (0x21A0, None, ENTERED, Some(0x21A3)),
    (0x21B0, None, ENTERED, Some(0x21B4)),
    (0x21B0, Some(0x21B6), ENTERED, None),
];

#[test]
fn the_least_open_addresses_are_those_of_the_model(rt: HostRuntime) -> Result<(), Fail> {
    let alloc = rt.alloc();
    let image = program(alloc)?;
    for (from, end, first, least) in &OPEN {
        let notes = notes(alloc, *end)?;
        let found = find(alloc, &image, &notes, *from, *first)?;
        let Some(open) = checked(alloc, &image, &notes, *from, *first, &found)? else {
            panic!(rt; "{from:x}: not closed");
        };
        assert!(rt; open.least == *least, "{from:x}");
    }
    Ok(())
}

/// Each set without one of what it has.
fn with_one_less(set: EnabledSet, bit: u8) -> Option<EnabledSet> {
    let bits = set.bits & !bit;
    (bits != set.bits).then_some(EnabledSet { bits })
}

#[test]
fn no_set_may_have_one_less(rt: HostRuntime) -> Result<(), Fail> {
    let alloc = rt.alloc();
    let image = program(alloc)?;
    let notes = notes(alloc, None)?;
    // the instructions of a routine that calls another one, from 2000H on
    for place in [0x1A0, 0x1A1, 0x1A3, 0x1A4, 0x1A5, 0x1A7, 0x1A8, 0x1A9] {
        for bit in [0x01, 0x02, 0x04, 0x08, 0x10, 0x20, 0x40, 0x80] {
            let mut found = find(alloc, &image, &notes, 0x21A0, ENTERED)?;
            let Some(there) = found.places.get_mut(place) else {
                panic!(rt; "no place");
            };
            let mut is_less = false;
            if let Some(before) = with_one_less(there.before, bit) {
                there.before = before;
                is_less = true;
            } else if let Some(behind) = with_one_less(there.behind, bit) {
                there.behind = behind;
                is_less = true;
            }
            let open = checked(alloc, &image, &notes, 0x21A0, ENTERED, &found)?;
            assert!(rt; open.is_none() == is_less, "{place:x} {bit:x}");
        }
    }
    Ok(())
}

#[test]
fn without_a_note_of_a_jump_no_certificate_is_closed(rt: HostRuntime) -> Result<(), Fail> {
    let alloc = rt.alloc();
    let image = program(alloc)?;
    let mut notes = notes(alloc, None)?;
    notes.goes.clear();
    let found = find(alloc, &image, &notes, 0x21B0, ENTERED)?;
    let open = checked(alloc, &image, &notes, 0x21B0, ENTERED, &found)?;
    assert!(rt; open.is_none());
    Ok(())
}
