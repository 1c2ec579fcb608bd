ghost use Rattle.std.specs.Prelude.{◌≡◌, ◌++◌, [], OnOk, IfOk};
ghost use Rattle.std.specs.List.{flat_map};
ghost use Rattle.std.specs.Option.{option_copied};
ghost use Rattle.kc_obj_module.specs.Spelled.{IsSpelled};
ghost use Rattle.kc_obj_module.specs.Spelling.{word_bytes, long_bytes, record_bytes, name_bytes, version_of, head_body, base_bytes, segment_body, tag_of, taken_body, piece_number, given_body, content_body, target_bytes, fixup_body, entry_bytes, segment_record, taken_record, given_record, content_record, fixup_record, block_record, takes_entry, block_records, line_records, spelling};

use crate::module::Module;
use crate::parts::{Content, Fixup, Given, Lines, Segment, Taken, Target};
use crate::pieces::number_of;
use kc_base::NoMemory;
use std::alloc::Global;

/// The most line entries that a record has.
const BLOCK: usize = 1024;

// Adds 16 bits of a number, low byte first.
fn put_word(out: &mut Vec<u8>, number: usize) -> Result<(), NoMemory>
    ensures { OnOk result (out.new.items ≡ out.old.items ++ word_bytes number) }
{
    out.push((number % 256) as u8)?;
    out.push((number / 256 % 256) as u8)?;
    Ok(())
}

fn put_long(out: &mut Vec<u8>, number: u32) -> Result<(), NoMemory>
    ensures { OnOk result (out.new.items ≡ out.old.items ++ long_bytes number) }
{
    put_word(out, number as usize)?;
    put_word(out, (number / 65536) as usize)
}

fn put_name(out: &mut Vec<u8>, name: &[u8]) -> Result<(), NoMemory>
    ensures { OnOk result (out.new.items ≡ out.old.items ++ name_bytes name.now) }
{
    out.push((name.len() % 256) as u8)?;
    out.extend_from_slice(name)?;
    Ok(())
}

fn put_record(out: &mut Vec<u8>, kind: u8, body: &[u8]) -> Result<(), NoMemory>
    ensures { OnOk result (out.new.items ≡ out.old.items ++ record_bytes kind body.now) }
{
    out.push(kind)?;
    put_word(out, body.len())?;
    out.extend_from_slice(body)?;
    Ok(())
}

fn version(lines: Option<&[Lines]>) -> u8
    ensures { result ≡ version_of (option_copied lines.entry) }
{
    match lines {
        None => 1,
        Some(_) => 2,
    }
}

fn head(alloc: Global, module: &Module) -> Result<Vec<u8>, NoMemory>
    ensures { IfOk result (λ v. v.items ≡ head_body «module».now) }
{
    let mut body = Vec::new(alloc);
    body.push(version(module.lines()))?;
    put_name(&mut body, module.name().as_slice())?;
    Ok(body)
}

fn put_base(out: &mut Vec<u8>, at: Option<u16>) -> Result<(), NoMemory>
    ensures { OnOk result (out.new.items ≡ out.old.items ++ base_bytes at) }
{
    match at {
        None => {
            out.push(0)?;
            put_word(out, 0)
        }
        Some(base) => {
            out.push(1)?;
            put_word(out, base as usize)
        }
    }
}

fn segment(alloc: Global, segment: &Segment) -> Result<Vec<u8>, NoMemory>
    ensures { IfOk result (λ v. v.items ≡ segment_body segment.now) }
{
    let mut body = Vec::new(alloc);
    body.push(number_of(segment.kind))?;
    put_base(&mut body, segment.at)?;
    put_word(&mut body, segment.length as usize)?;
    Ok(body)
}

fn tag(register: bool) -> u8
    ensures { result ≡ tag_of register }
{
    if register { 0 } else { 1 }
}

fn taken(alloc: Global, taken: &Taken) -> Result<Vec<u8>, NoMemory>
    ensures { IfOk result (λ v. v.items ≡ taken_body taken.now) }
{
    let mut body = Vec::new(alloc);
    put_name(&mut body, taken.name.as_slice())?;
    body.push(tag(taken.register))?;
    Ok(body)
}

fn number_of_piece(piece: Option<u16>) -> u16
    ensures { result ≡ piece_number piece }
{
    match piece {
        None => 0xFFFF,
        Some(piece) => piece,
    }
}

fn given(alloc: Global, given: &Given) -> Result<Vec<u8>, NoMemory>
    ensures { IfOk result (λ v. v.items ≡ given_body given.now) }
{
    let mut body = Vec::new(alloc);
    put_name(&mut body, given.name.as_slice())?;
    put_word(&mut body, number_of_piece(given.piece) as usize)?;
    put_word(&mut body, given.value as usize)?;
    Ok(body)
}

fn content(alloc: Global, content: &Content) -> Result<Vec<u8>, NoMemory>
    ensures { IfOk result (λ v. v.items ≡ content_body content.now) }
{
    let mut body = Vec::new(alloc);
    put_word(&mut body, content.piece as usize)?;
    put_word(&mut body, content.offset as usize)?;
    body.extend_from_slice(content.bytes.as_slice())?;
    Ok(body)
}

fn put_target(out: &mut Vec<u8>, target: Target) -> Result<(), NoMemory>
    ensures { OnOk result (out.new.items ≡ out.old.items ++ target_bytes target) }
{
    match target {
        Target::Piece(piece) => {
            out.push(0)?;
            put_word(out, piece as usize)
        }
        Target::External(external) => {
            out.push(1)?;
            put_word(out, external as usize)
        }
        Target::Number => {
            out.push(2)?;
            put_word(out, 0)
        }
    }
}

fn fixup(alloc: Global, fixup: Fixup) -> Result<Vec<u8>, NoMemory>
    ensures { IfOk result (λ v. v.items ≡ fixup_body fixup) }
{
    let mut body = Vec::new(alloc);
    put_word(&mut body, fixup.piece as usize)?;
    put_word(&mut body, fixup.offset as usize)?;
    body.push(fixup.kind)?;
    put_target(&mut body, fixup.target)?;
    put_word(&mut body, fixup.addend as usize)?;
    Ok(body)
}

fn put_segments(alloc: Global, out: &mut Vec<u8>, segments: &[Segment]) -> Result<(), NoMemory>
    ensures { OnOk result (out.new.items ≡ out.old.items ++ flat_map segment_record segments.now) }
{
    let mut left = segments;
    while let [first, rest @ ..] = left {
        let body = segment(alloc, first)?;
        put_record(out, 0x02, body.as_slice())?;
        left = rest;
    }
    Ok(())
}

fn put_externals(alloc: Global, out: &mut Vec<u8>, externals: &[Taken]) -> Result<(), NoMemory>
    ensures { OnOk result (out.new.items ≡ out.old.items ++ flat_map taken_record externals.now) }
{
    let mut left = externals;
    while let [first, rest @ ..] = left {
        let body = taken(alloc, first)?;
        put_record(out, 0x05, body.as_slice())?;
        left = rest;
    }
    Ok(())
}

fn put_publics(alloc: Global, out: &mut Vec<u8>, publics: &[Given]) -> Result<(), NoMemory>
    ensures { OnOk result (out.new.items ≡ out.old.items ++ flat_map given_record publics.now) }
{
    let mut left = publics;
    while let [first, rest @ ..] = left {
        let body = given(alloc, first)?;
        put_record(out, 0x06, body.as_slice())?;
        left = rest;
    }
    Ok(())
}

fn put_contents(alloc: Global, out: &mut Vec<u8>, contents: &[Content]) -> Result<(), NoMemory>
    ensures { OnOk result (out.new.items ≡ out.old.items ++ flat_map content_record contents.now) }
{
    let mut left = contents;
    while let [first, rest @ ..] = left {
        let body = content(alloc, first)?;
        put_record(out, 0x03, body.as_slice())?;
        left = rest;
    }
    Ok(())
}

fn put_fixups(alloc: Global, out: &mut Vec<u8>, fixups: &[Fixup]) -> Result<(), NoMemory>
    ensures { OnOk result (out.new.items ≡ out.old.items ++ flat_map fixup_record fixups.now) }
{
    let mut left = fixups;
    while let [first, rest @ ..] = left {
        let body = fixup(alloc, *first)?;
        put_record(out, 0x04, body.as_slice())?;
        left = rest;
    }
    Ok(())
}

fn put_entries(out: &mut Vec<u8>, entries: &[Lines]) -> Result<(), NoMemory>
    ensures { OnOk result (out.new.items ≡ out.old.items ++ flat_map entry_bytes entries.now) }
{
    let mut left = entries;
    while let [first, rest @ ..] = left {
        put_word(out, first.offset as usize)?;
        put_long(out, first.line)?;
        left = rest;
    }
    Ok(())
}

fn put_block(alloc: Global, out: &mut Vec<u8>, opened: &[Lines]) -> Result<(), NoMemory>
    ensures { OnOk result (out.new.items ≡ out.old.items ++ block_record opened.now) }
{
    match opened {
        [] => Ok(()),
        [first, ..] => {
            let mut body = Vec::new(alloc);
            put_word(&mut body, first.piece as usize)?;
            put_entries(&mut body, opened)?;
            put_record(out, 0x07, body.as_slice())
        }
    }
}

fn takes(opened: &[Lines], next: Lines) -> bool
    ensures { result ≡ takes_entry opened.now next }
{
    match opened {
        [] => true,
        [first, ..] => first.piece == next.piece && opened.len() < BLOCK,
    }
}

// The records of line entries: as few as can be.
#[tactic(auto, unfolding(crate::specs::Spelling::block_records))]
fn put_lines(alloc: Global, out: &mut Vec<u8>, lines: &[Lines]) -> Result<(), NoMemory>
    ensures { OnOk result (out.new.items ≡ out.old.items ++ block_records [] lines.now) }
{
    let mut opened = Vec::new(alloc);
    let mut left = lines;
    while let [first, rest @ ..] = left {
        if !takes(opened.as_slice(), *first) {
            put_block(alloc, out, opened.as_slice())?;
            opened.clear();
        }
        opened.push(*first)?;
        left = rest;
    }
    put_block(alloc, out, opened.as_slice())
}

fn put_line_records(
    alloc: Global,
    out: &mut Vec<u8>,
    lines: Option<&[Lines]>,
) -> Result<(), NoMemory>
    ensures { OnOk result (out.new.items ≡ out.old.items ++ line_records (option_copied lines.entry)) }
{
    match lines {
        None => Ok(()),
        Some(lines) => put_lines(alloc, out, lines),
    }
}

/// The one spelling of a module: its name, pieces, externals, publics, contents, relocations, line entries and the
/// end, as records of a type byte, the length of the body in 2 bytes, low byte first, and the body. Version 1 where the
/// module has no line entries, else version 2. They are read as that module.
pub fn encode(alloc: Global, module: &Module) -> Result<Vec<u8>, NoMemory>
    ensures bytes { IfOk result (λ v. v.items ≡ spelling «module».now) }
    ensures spelled { IfOk result (λ v. IsSpelled v.items «module».now) }
{
    module.keeps_rules();
    module.has_room();
    let body = head(alloc, module)?;
    let mut out = Vec::new(alloc);
    put_record(&mut out, 0x01, body.as_slice())?;
    put_segments(alloc, &mut out, module.segments())?;
    put_externals(alloc, &mut out, module.externals())?;
    put_publics(alloc, &mut out, module.publics())?;
    put_contents(alloc, &mut out, module.contents())?;
    put_fixups(alloc, &mut out, module.fixups())?;
    put_line_records(alloc, &mut out, module.lines())?;
    put_record(&mut out, 0x7F, b"")?;
    Ok(out)
}
