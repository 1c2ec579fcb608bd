// The longest time in which no interrupt is asked for, in the passes through routines, by a model that was written apart.
use kc_base::{Image, NoMemory};
use kc_bound::{Loop, Moved, Notes};
use kc_bound_requests::{ENTERED, EnabledSet, INTERRUPTIBLE, checked_latency, find_latency};
use std::alloc::Global;
use std::test::Fail;

/// A program in parts, each with its address.
static PROGRAM: [(u16, &[u8]); 12] = [
    // CMP 30H,[32H]; JE 210AH; ADD 34H,30H,#1; RET
    (
        0x2100,
        &[
            0x8A, 0x32, 0x30, 0xDF, 0x05, 0x45, 0x01, 0x00, 0x30, 0x34, 0xF0,
        ],
    ),
    // LDB 30H,#3; NOP; SCALL 2115H; DJNZ 30H,210EH; RET
    (
        0x210B,
        &[0xB1, 0x03, 0x30, 0xFD, 0x28, 0x04, 0xE0, 0x30, 0xFA, 0xF0],
    ),
    // LDB 31H,#4; INC 36H; DJNZ 31H,2118H; RET
    (
        0x2115,
        &[0xB1, 0x04, 0x31, 0x07, 0x36, 0xE0, 0x31, 0xFB, 0xF0],
    ),
    // PUSHA; JBS 15H,7,213AH; SHL 40H,42H; POPA; RET
    (
        0x2139,
        &[0xF4, 0x3F, 0x15, 0xFD, 0x09, 0x42, 0x40, 0xF5, 0xF0],
    ),
    // DI; INC 36H; EI; NOP; SJMP 2143H
    (0x2143, &[0xFA, 0x07, 0x36, 0xFB, 0xFD, 0x27, 0xF9]),
    // LDB 30H,#0; PUSHA; POPA; RET
    (0x2160, &[0xB1, 0x00, 0x30, 0xF4, 0xF5, 0xF0]),
    // EPTS; BMOVI 38H,3CH; RET
    (0x2170, &[0xED, 0xCD, 0x3C, 0x38, 0xF0]),
    // NOP; RET
    (0x2180, &[0xFD, 0xF0]),
    // PUSHA; SCALL 2180H; SCALL 2180H; POPA; RET
    (0x2190, &[0xF4, 0x2F, 0xED, 0x2F, 0xEB, 0xF5, 0xF0]),
    // DI; SCALL 2180H; EI; NOP; RET
    (0x21A0, &[0xFA, 0x2F, 0xDD, 0xFB, 0xFD, 0xF0]),
    // DI; NOP; RET
    (0x21B0, &[0xFA, 0xFD, 0xF0]),
    // SCALL 21B0H; SCALL 21B0H; EI; NOP; RET
    (0x21C0, &[0x2F, 0xEE, 0x2F, 0xEC, 0xFB, 0xFD, 0xF0]),
];

fn program(alloc: Global) -> Result<Image, NoMemory> {
    let mut image = Image::blank(alloc)?;
    for (at, bytes) in &PROGRAM {
        let mut addr = *at;
        for byte in *bytes {
            if addr >= 0x2000 {
                image.set(addr, *byte);
            }
            addr = addr.wrapping_add(1);
        }
    }
    Ok(image)
}

fn notes(alloc: Global) -> Result<Notes, NoMemory> {
    let mut notes = Notes {
        loops: Vec::new(alloc),
        goes: Vec::new(alloc),
        words: vec![in alloc;
            Moved {
                block: 0x2171,
                most: 2
            },
        ]?,
        ends: Vec::new(alloc),
    };
    notes.loops.push(Loop {
        head: 0x2118,
        most: 4,
        per: vec![in alloc; 0x2115]?,
    })?;
    notes.loops.push(Loop {
        head: 0x213A,
        most: 2,
        per: Vec::new(alloc),
    })?;
    Ok(notes)
}

/// From where, with what it begins, the prices of the loops, and the longest time. Between the turns of a loop in which interrupts are
/// asked for its price is not paid. A routine that is called twice counts each time, also where a time begins in it.
static SHUT: [(u16, EnabledSet, [u64; 2], u64); 12] = [
    (0x2143, INTERRUPTIBLE, [0, 0], 9),
    (0x2139, ENTERED, [0, 9], 96),
    (0x2100, INTERRUPTIBLE, [0, 0], 13),
    (0x2115, INTERRUPTIBLE, [12, 0], 13),
    (0x2160, INTERRUPTIBLE, [0, 0], 41),
    (0x2160, ENTERED, [0, 0], 46),
    (0x2170, INTERRUPTIBLE, [0, 0], 14),
    (0x2170, ENTERED, [0, 0], 50),
    (0x2190, ENTERED, [0, 0], 97),
    (0x21A0, INTERRUPTIBLE, [0, 0], 34),
    (0x21C0, INTERRUPTIBLE, [0, 0], 51),
    (0x21C0, ENTERED, [0, 0], 64),
];

#[test]
fn the_longest_times_are_those_of_the_model(rt: HostRuntime) -> Result<(), Fail> {
    let alloc = rt.alloc();
    let image = program(alloc)?;
    let notes = notes(alloc)?;
    for (from, first, of_loops, longest) in &SHUT {
        let prices = vec![in alloc; of_loops[0], of_loops[1]]?;
        let found = find_latency(alloc, &image, &notes, *from, *first, prices)?;
        let Some(most) = checked_latency(alloc, &image, &notes, *from, *first, &found)? else {
            panic!(rt; "{from:x}: not let through");
        };
        assert!(rt; most == *longest, "{from:x} {most}");
    }
    Ok(())
}
