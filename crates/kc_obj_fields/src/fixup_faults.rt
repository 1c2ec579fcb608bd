// The faults of the fields of a relocation and of the bytes under it, and of line entries. `at` is where the record's
// body, or the entry, begins in the file.
ghost use Rattle.std.specs.Prelude.{◌≡◌, ◌<◌, ◌^◌};
ghost use Rattle.kc_obj_fields.specs.Records.{fixup_at, fixup_piece_falls, fixup_falls, bad_index, target_faults, fixup_place_faults, byte_of_file, place_or_zero, byte_faults, stands_free, free_faults, under_faults, entry_at, entry_falls, entry_faults, block_falls, block_faults};
ghost use Rattle.kc_obj_fields.specs.Fields.{noted};

use crate::faults::{Fault, ObjCode, note};
use crate::fields::{byte, long, word};
use crate::numbers::Numbers;
use crate::runs::Runs;
use kc_obj_module::fixups::{begins_free, zero};
use kc_obj_module::pieces::is_code;
use kc_obj_module::{Fixup, Lines, Segment, line_entries, width};

fn index_is_bad(pieces: usize, externals: usize, code: u8, index: u16) -> bool
    ensures { result ≡ bad_index pieces externals code index }
{
    if code == 0 {
        pieces <= index as usize
    } else if code == 1 {
        externals <= index as usize
    } else {
        code == 2 && index != 0
    }
}

/// The first of the fault so far and the faults of a relocation's target: its kind, and the number of the piece or external.
pub fn target_fault(
    at: u32,
    pieces: usize,
    externals: usize,
    body: &[u8],
    fault: Option<Fault>,
) -> Option<Fault>
    requires { at < 2 ^ 31 }
    ensures { result ≡ target_faults noted at pieces externals body.now fault }
{
    let code = byte(body, 5);
    let bad = 2 < code || code == 2 && byte(body, 4) < 2;
    let first = note(fault, 6 <= body.len() && bad, at + 5, ObjCode::OutOfRange);
    let wrong = index_is_bad(pieces, externals, code, word(body, 6));
    note(first, 8 <= body.len() && wrong, at + 6, ObjCode::OutOfRange)
}

fn piece_is_late(before: Option<Fixup>, piece: u16) -> bool
    ensures { result ≡ fixup_piece_falls before piece }
{
    match before {
        None => false,
        Some(before) => piece < before.piece,
    }
}

fn place_is_late(before: Option<Fixup>, piece: u16, offset: u16) -> bool
    ensures { result ≡ fixup_falls before piece offset }
{
    match before {
        None => false,
        Some(before) => before.piece == piece && offset <= before.offset,
    }
}

/// The first of the fault so far and the faults of a relocation's place: its piece, its order behind the relocation before it,
/// and its kind.
pub fn fixup_place_fault(
    at: u32,
    before: Option<Fixup>,
    pieces: usize,
    body: &[u8],
    fault: Option<Fault>,
) -> Option<Fault>
    requires { at < 2 ^ 31 }
    ensures { result ≡ fixup_place_faults noted at before pieces body.now fault }
{
    let piece = word(body, 0);
    let two = 2 <= body.len();
    let first = note(
        fault,
        two && pieces <= piece as usize,
        at,
        ObjCode::OutOfRange,
    );
    let second = note(
        first,
        two && piece_is_late(before, piece),
        at,
        ObjCode::OtherSpelling,
    );
    let late = place_is_late(before, piece, word(body, 2));
    let third = note(
        second,
        4 <= body.len() && late,
        at + 2,
        ObjCode::OtherSpelling,
    );
    note(
        third,
        5 <= body.len() && 4 < byte(body, 4),
        at + 4,
        ObjCode::OutOfRange,
    )
}

fn byte_in_file(file: &[u8], place: Option<u32>) -> Option<u8>
    ensures { result ≡ byte_of_file file.now place }
{
    match place {
        None => None,
        Some(place) => file.get(place as usize).copied(),
    }
}

fn offset_of(place: Option<u32>) -> u32
    ensures { result ≡ place_or_zero place }
{
    match place {
        None => 0,
        Some(place) => place,
    }
}

fn byte_fault(
    file: &[u8],
    fixup: Fixup,
    first: Option<u32>,
    second: Option<u32>,
    fault: Option<Fault>,
) -> Option<Fault>
    ensures { result ≡ byte_faults noted file.now fixup first second fault }
{
    let bad = !begins_free(fixup.kind, byte_in_file(file, first));
    let so_far = note(fault, bad, offset_of(first), ObjCode::OtherSpelling);
    let wrong = width(fixup.kind) == 2 && !zero(byte_in_file(file, second));
    note(so_far, wrong, offset_of(second), ObjCode::OtherSpelling)
}

fn free(fixups: &Numbers, fixup: Fixup, first: Option<u32>, second: Option<u32>) -> bool
    ensures { result ≡ stands_free fixups.now fixup first second }
{
    let offset = fixup.offset as u32;
    let begins = first.is_some() && !fixups.covers(fixup.piece, offset);
    begins
        && (width(fixup.kind) == 1 || second.is_some() && !fixups.covers(fixup.piece, offset + 1))
}

fn free_fault(
    at: u32,
    file: &[u8],
    fixups: &Numbers,
    fixup: Fixup,
    places: (Option<u32>, Option<u32>),
    fault: Option<Fault>,
) -> Option<Fault>
    requires { at < 2 ^ 31 }
    ensures { result ≡ free_faults noted at file.now fixups.now fixup places.0 places.1 fault }
{
    if free(fixups, fixup, places.0, places.1) {
        byte_fault(file, fixup, places.0, places.1, fault)
    } else {
        note(fault, true, at + 2, ObjCode::OutOfRange)
    }
}

/// What was read before a relocation: where bytes of the module stand, and under which of them numbers are.
#[derive(Clone, Copy)]
pub struct Around<'a> {
    pub file: &'a [u8],
    pub runs: &'a Runs,
    pub fixups: &'a Numbers,
}

/// The first of the fault so far and the faults of the bytes under a relocation: they have to be there and free.
pub fn under_fault(
    at: u32,
    around: Around,
    pieces: usize,
    fixup: Fixup,
    body: &[u8],
    fault: Option<Fault>,
) -> Option<Fault>
    requires at { at < 2 ^ 31 }
    requires fixup { fixup ≡ fixup_at body.now }
    ensures { result ≡ under_faults noted at around.entry.file.now pieces around.entry.runs.now.contents around.entry.runs.now.starts around.entry.fixups.now body.now fault }
{
    let asked = 5 <= body.len() && byte(body, 4) <= 4 && (word(body, 0) as usize) < pieces;
    if !asked {
        return fault;
    }
    let offset = fixup.offset as u32;
    let first = around.runs.place(fixup.piece, offset);
    let second = around.runs.place(fixup.piece, offset + 1);
    free_fault(
        at,
        around.file,
        around.fixups,
        fixup,
        (first, second),
        fault,
    )
}

fn entry_is_late(before: Option<Lines>, entry: Lines) -> bool
    ensures { result ≡ entry_falls before entry }
{
    match before {
        None => false,
        Some(before) => before.piece == entry.piece && !line_entries::follows(before, entry),
    }
}

/// The first of the fault so far and the faults of a line entry: its place in a code piece, its order behind the entry before it,
/// and its line, which is not 0.
pub fn entry_fault(
    at: u32,
    before: Option<Lines>,
    segment: Option<Segment>,
    entry: Lines,
    body: &[u8],
    fault: Option<Fault>,
) -> Option<Fault>
    requires at { at < 2 ^ 31 }
    requires entry { entry ≡ entry_at entry.piece body.now }
    ensures { result ≡ entry_faults noted at before segment entry.piece body.now fault }
{
    let two = 2 <= body.len();
    let past = is_code(segment, 0) && !is_code(segment, entry.offset as usize + 1);
    let first = note(fault, two && past, at, ObjCode::OutOfRange);
    let second = note(
        first,
        two && entry_is_late(before, entry),
        at,
        ObjCode::OtherSpelling,
    );
    note(
        second,
        6 <= body.len() && entry.line == 0,
        at + 2,
        ObjCode::OutOfRange,
    )
}

fn block_is_late(before: Option<Lines>, block: usize, piece: u16) -> bool
    ensures { result ≡ block_falls before block piece }
{
    match before {
        None => false,
        Some(before) => piece < before.piece || before.piece == piece && block != 1024,
    }
}

/// The first of the fault so far and the faults of the head of a record of line entries: its piece, which is code, and its order
/// behind the record before it, which is full where it has the same piece.
pub fn block_fault(
    at: u32,
    before: Option<Lines>,
    block: usize,
    segment: Option<Segment>,
    body: &[u8],
    fault: Option<Fault>,
) -> Option<Fault>
    requires { at < 2 ^ 31 }
    ensures { result ≡ block_faults noted at before block segment body.now fault }
{
    let two = 2 <= body.len();
    let first = note(fault, two && !is_code(segment, 0), at, ObjCode::OutOfRange);
    note(
        first,
        two && block_is_late(before, block, word(body, 0)),
        at,
        ObjCode::OtherSpelling,
    )
}
