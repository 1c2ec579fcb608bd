// The faults of the fields of each record. `at` is where the record's body begins in the file.
ghost use Rattle.std.specs.Prelude.{◌≡◌, ◌<◌, ◌≤◌, ◌+◌, ◌^◌, drop, length};
ghost use Rattle.std.specs.Option.{option_copied};
ghost use Rattle.kc_obj_fields.specs.Fields.{word_at, noted};
ghost use Rattle.kc_obj_fields.specs.Records.{head_faults, segment_at, kind_falls, comes_late, bad_base, bad_length, kind_faults, flag_faults, segment_faults, taken_faults, name_falls, given_faults, run_piece_falls, run_falls, run_faults};

use crate::faults::{Fault, ObjCode, note};
use crate::fields::{bad_name, byte, name, without, word};
use kc_obj_module::names::comes_below;
use kc_obj_module::pieces::{fits_region, is_code_to, number_of};
use kc_obj_module::{Content, Given, Segment, contents};

/// The first of the fault so far and the faults of the head record: its version, 1 or 2, and the name of the module.
pub fn head_fault(at: u32, body: &[u8], fault: Option<Fault>) -> Option<Fault>
    requires { at < 2 ^ 31 }
    ensures { result ≡ head_faults noted at body.now fault }
{
    let version = byte(body, 0);
    let known = version == 1 || version == 2;
    let first = note(fault, 1 <= body.len() && !known, at, ObjCode::OutOfRange);
    let bad = 2 <= body.len() && bad_name(false, without(body, 1));
    note(first, bad, at + 1, ObjCode::NoName)
}

fn falls(before: Option<Segment>, segment: Segment) -> bool
    ensures { result ≡ kind_falls before segment }
{
    match before {
        None => false,
        Some(before) => {
            before.at.is_none()
                && segment.at.is_none()
                && number_of(segment.kind) <= number_of(before.kind)
        }
    }
}

fn late(before: Option<Segment>, segment: Segment) -> bool
    ensures { result ≡ comes_late before segment }
{
    match before {
        None => false,
        Some(before) => before.at.is_some() && segment.at.is_none(),
    }
}

fn base_is_bad(segment: Segment, base: u16) -> bool
    ensures { result ≡ bad_base segment base }
{
    if segment.at.is_none() {
        base != 0
    } else {
        !fits_region(segment.kind, base, 0)
    }
}

fn length_is_bad(segment: Segment, base: u16) -> bool
    ensures { result ≡ bad_length segment base }
{
    segment.at.is_some()
        && fits_region(segment.kind, base, 0)
        && !fits_region(segment.kind, base, segment.length)
}

fn kind_fault(
    at: u32,
    before: Option<Segment>,
    segment: Segment,
    body: &[u8],
    fault: Option<Fault>,
) -> Option<Fault>
    requires at { at < 2 ^ 31 }
    requires segment { segment ≡ segment_at body.now }
    ensures { result ≡ kind_faults noted at before body.now fault }
{
    let first = note(
        fault,
        1 <= body.len() && 3 < byte(body, 0),
        at,
        ObjCode::OutOfRange,
    );
    note(
        first,
        2 <= body.len() && falls(before, segment),
        at,
        ObjCode::OtherSpelling,
    )
}

fn flag_fault(
    at: u32,
    before: Option<Segment>,
    segment: Segment,
    body: &[u8],
    fault: Option<Fault>,
) -> Option<Fault>
    requires at { at < 2 ^ 31 }
    requires segment { segment ≡ segment_at body.now }
    ensures { result ≡ flag_faults noted at before body.now fault }
{
    let flag = byte(body, 1);
    let bad = 1 < flag || flag == 1 && byte(body, 0) == 3;
    let first = note(fault, 2 <= body.len() && bad, at + 1, ObjCode::OutOfRange);
    note(
        first,
        2 <= body.len() && late(before, segment),
        at + 1,
        ObjCode::OtherSpelling,
    )
}

/// The first of the fault so far and the faults of a piece: its kind, its flag, its base and its length.
pub fn segment_fault(
    at: u32,
    before: Option<Segment>,
    segment: Segment,
    body: &[u8],
    fault: Option<Fault>,
) -> Option<Fault>
    requires at { at < 2 ^ 31 }
    requires segment { segment ≡ segment_at body.now }
    ensures { result ≡ segment_faults noted at before body.now fault }
{
    let base = word(body, 2);
    let kind = kind_fault(at, before, segment, body, fault);
    let flag = flag_fault(at, before, segment, body, kind);
    let first = note(
        flag,
        4 <= body.len() && base_is_bad(segment, base),
        at + 2,
        ObjCode::OutOfRange,
    );
    note(
        first,
        6 <= body.len() && length_is_bad(segment, base),
        at + 4,
        ObjCode::OutOfRange,
    )
}

/// The first of the fault so far and the faults of an external: its name, and the flag behind it, 0 or 1.
pub fn taken_fault(at: u32, body: &[u8], fault: Option<Fault>) -> Option<Fault>
    requires { at < 2 ^ 31 }
    ensures { result ≡ taken_faults noted at body.now fault }
{
    let len = byte(body, 0) as usize;
    let first = note(
        fault,
        1 <= body.len() && bad_name(false, body),
        at,
        ObjCode::NoName,
    );
    let bad = len + 2 <= body.len() && 1 < byte(body, len + 1);
    note(first, bad, at + len as u32 + 1, ObjCode::OutOfRange)
}

fn name_is_late(before: Option<&Given>, name: &[u8]) -> bool
    ensures { result ≡ name_falls (option_copied before.entry) name.now }
{
    match before {
        None => false,
        Some(before) => !comes_below(before.name.as_slice(), name),
    }
}

/// The first of the fault so far and the faults of a public name: its name, its order behind the name before it, and its piece.
pub fn given_fault(
    at: u32,
    before: Option<&Given>,
    count: usize,
    body: &[u8],
    fault: Option<Fault>,
) -> Option<Fault>
    requires { at < 2 ^ 31 }
    ensures { result ≡ given_faults noted at (option_copied before.entry) count body.now fault }
{
    let len = byte(body, 0) as usize;
    let piece = word(body, len + 1);
    let unknown = piece != 0xFFFF && !((piece as usize) < count);
    let first = note(
        fault,
        1 <= body.len() && bad_name(true, body),
        at,
        ObjCode::NoName,
    );
    let second = note(
        first,
        len + 1 <= body.len() && name_is_late(before, name(body)),
        at,
        ObjCode::OtherSpelling,
    );
    note(
        second,
        len + 3 <= body.len() && unknown,
        at + len as u32 + 1,
        ObjCode::OutOfRange,
    )
}

fn run_is_late(before: Option<&Content>, piece: u16) -> bool
    ensures { result ≡ run_piece_falls (option_copied before.entry) piece }
{
    match before {
        None => false,
        Some(before) => piece < before.piece,
    }
}

fn run_overlaps(before: Option<&Content>, piece: u16, offset: u16) -> bool
    ensures { result ≡ run_falls (option_copied before.entry) piece offset }
{
    match before {
        None => false,
        Some(before) => {
            before.piece == piece && !contents::may_begin_after(before, piece, offset)
        }
    }
}

/// The first of the fault so far and the faults of a run of bytes: its piece, which is code, its order behind the run before it,
/// from which it stands apart, and that it ends within the piece.
pub fn run_fault(
    at: u32,
    before: Option<&Content>,
    segment: Option<&Segment>,
    len: usize,
    body: &[u8],
    fault: Option<Fault>,
) -> Option<Fault>
    requires at { at < 2 ^ 31 }
    requires len { len < 65536 }
    ensures { result ≡ run_faults noted at (option_copied before.entry) (option_copied segment.entry) len body.now fault }
{
    let piece = word(body, 0);
    let offset = word(body, 2);
    let code = is_code_to(segment, 0);
    let past = code && !is_code_to(segment, offset as usize + len.saturating_sub(4));
    let first = note(fault, 2 <= body.len() && !code, at, ObjCode::OutOfRange);
    let second = note(
        first,
        2 <= body.len() && run_is_late(before, piece),
        at,
        ObjCode::OtherSpelling,
    );
    let third = note(second, 4 <= body.len() && past, at + 2, ObjCode::OutOfRange);
    note(
        third,
        4 <= body.len() && run_overlaps(before, piece, offset),
        at + 2,
        ObjCode::OtherSpelling,
    )
}
