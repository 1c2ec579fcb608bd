// What was read of an object so far, record by record.
ghost use Rattle.std.specs.Prelude.{◌≡◌, ◌==◌, true, if◌then◌else◌, Some, None, Ok, ◌<◌, ◌≤◌, ◌+◌, ◌-◌, ◌/◌, ◌^◌, ℕ, List, length, drop, OnOk, IfOk, slice_get, slice_index};
ghost use Rattle.kc_base.specs.Limits.{file_limit};
ghost use Rattle.std.specs.Option.{option_copied, option_map};
ghost use Rattle.kc_obj_module.specs.Object.{Object, object_of};
ghost use Rattle.kc_obj_module.specs.Rules.{is_module};
ghost use Rattle.kc_obj_fields.specs.Codes.{code_number};
ghost use Rattle.kc_obj_fields.specs.Fields.{word_at, fault_at, first_of_both, noted};
ghost use Rattle.kc_obj_module.specs.Pieces.{all_kept};
ghost use Rattle.kc_obj_fields.specs.Records.{kind_of, segment_at, piece_of, taken_at, given_at, run_at, target_of, fixup_at, entry_at};
ghost use Rattle.kc_obj.specs.Reading.{nothing_read, after_head, after_segment, after_taken, after_given, new_run_faults, after_run, fixup_faults, after_fixup, after_entry, after_entries, opened_faults, after_block, after_record, may_come, at_stage, stage_of, reported, object_read, IsDecoded, first_fault};
ghost use Rattle.kc_obj_fields.specs.Fields.{last_of};

use kc_base::{NoMemory, Text};
use kc_obj_fields::faults::{Fault, ObjCode, ObjFault, earlier, note};
use kc_obj_fields::fields::{byte, long, name, without, word};
use kc_obj_fields::fixup_faults::{
    Around, block_fault, entry_fault, fixup_place_fault, target_fault, under_fault,
};
use kc_obj_fields::numbers::Numbers;
use kc_obj_fields::record_faults::{
    given_fault, head_fault, run_fault, segment_fault, taken_fault,
};
use kc_obj_fields::runs::Runs;
use kc_obj_module::pieces::are_kept;
use kc_obj_module::{Content, Fixup, Given, Lines, Module, SegKind, Segment, Taken, Target};
use std::alloc::Global;
use std::marker::Model;

fn kind_by(number: u8) -> SegKind
    ensures { result ≡ kind_of number }
{
    match number {
        0 => SegKind::Reg,
        1 => SegKind::Code,
        2 => SegKind::Ram,
        _ => SegKind::Stack,
    }
}

fn base_by(flag: u8, base: u16) -> Option<u16>
    ensures { result ≡ if flag == 0 then None else Some base }
{
    if flag == 0 { None } else { Some(base) }
}

fn segment_by(body: &[u8]) -> Segment
    ensures { result ≡ segment_at body.now }
{
    Segment {
        kind: kind_by(byte(body, 0)),
        at: base_by(byte(body, 1), word(body, 2)),
        length: word(body, 4),
    }
}

fn taken_by(alloc: Global, body: &[u8]) -> Result<Taken, NoMemory>
    ensures { IfOk result (λ t. t ≡ taken_at body.now) }
{
    let register = byte(body, byte(body, 0) as usize + 1) == 0;
    let name = Text::of(alloc, name(body))?;
    Ok(Taken { name, register })
}

fn piece_by(number: u16) -> Option<u16>
    ensures { result ≡ piece_of number }
{
    if number == 0xFFFF { None } else { Some(number) }
}

fn given_by(alloc: Global, body: &[u8]) -> Result<Given, NoMemory>
    ensures { IfOk result (λ g. g ≡ given_at body.now) }
{
    let len = byte(body, 0) as usize;
    let piece = piece_by(word(body, len + 1));
    let value = word(body, len + 3);
    let name = Text::of(alloc, name(body))?;
    Ok(Given { name, piece, value })
}

fn run_by(alloc: Global, body: &[u8]) -> Result<Content, NoMemory>
    ensures { IfOk result (λ c. c ≡ run_at body.now) }
{
    let piece = word(body, 0);
    let offset = word(body, 2);
    let bytes = Text::of(alloc, without(body, 4))?;
    Ok(Content {
        piece,
        offset,
        bytes,
    })
}

fn target_by(code: u8, index: u16) -> Target
    ensures { result ≡ target_of code index }
{
    if code == 0 {
        Target::Piece(index)
    } else if code == 1 {
        Target::External(index)
    } else {
        Target::Number
    }
}

fn fixup_by(body: &[u8]) -> Fixup
    ensures { result ≡ fixup_at body.now }
{
    Fixup {
        piece: word(body, 0),
        offset: word(body, 2),
        kind: byte(body, 4),
        target: target_by(byte(body, 5), word(body, 6)),
        addend: word(body, 8),
    }
}

fn entry_by(piece: u16, body: &[u8]) -> Lines
    ensures { result ≡ entry_at piece body.now }
{
    Lines {
        piece,
        offset: word(body, 0),
        line: long(body, 2),
    }
}

/// The parts of a module as far as they were read, where in the file the bytes of each run begin, how many entries the
/// last record of lines had, and the first fault.
#[derive(Drop)]
pub(crate) struct Reading {
    stage: u8,
    name: Text,
    segments: Vec<Segment>,
    externals: Vec<Taken>,
    publics: Vec<Given>,
    runs: Runs,
    fixups: Numbers,
    has_lines: bool,
    lines: Vec<Lines>,
    block: usize,
    fault: Option<Fault>,
}

impl Model for Reading {
    ghost use Rattle.kc_obj.specs.Reading.{Read};

    ghost Value = { Read };

    ghost view = { λ r. record { stage = r.stage; name = r.name; segments = r.segments.items; externals = r.externals.items; publics = r.publics.items; contents = r.runs.contents; fixups = r.fixups; has_lines = r.has_lines; lines = r.lines.items; starts = r.runs.starts; block = r.block; fault = r.fault } };
}

impl Reading {
    pub(crate) fn new(alloc: Global) -> Reading
        ensures { result ≡ nothing_read }
    {
        Reading {
            stage: 0,
            name: Text::from_vec(Vec::new(alloc)),
            segments: Vec::new(alloc),
            externals: Vec::new(alloc),
            publics: Vec::new(alloc),
            runs: Runs::new(alloc),
            fixups: Numbers::new(alloc),
            has_lines: false,
            lines: Vec::new(alloc),
            block: 0,
            fault: None,
        }
    }

    fn take_head(&mut self, alloc: Global, at: u32, body: &[u8]) -> Result<(), NoMemory>
        requires { at < 2 ^ 31 }
        ensures { OnOk result (self.new ≡ after_head noted at body.now self.old) }
    {
        let text = Text::of(alloc, name(without(body, 1)))?;
        self.fault = head_fault(at, body, self.fault);
        self.name = text;
        self.has_lines = byte(body, 0) != 1;
        Ok(())
    }

    fn take_segment(&mut self, at: u32, body: &[u8]) -> Result<(), NoMemory>
        requires { at < 2 ^ 31 }
        ensures { OnOk result (self.new ≡ after_segment noted at body.now self.old) }
    {
        let segment = segment_by(body);
        let before = self.segments.last().copied();
        self.fault = segment_fault(at, before, segment, body, self.fault);
        self.segments.push(segment)?;
        Ok(())
    }

    fn take_external(&mut self, alloc: Global, at: u32, body: &[u8]) -> Result<(), NoMemory>
        requires { at < 2 ^ 31 }
        ensures { OnOk result (self.new ≡ after_taken noted at body.now self.old) }
    {
        let taken = taken_by(alloc, body)?;
        self.fault = taken_fault(at, body, self.fault);
        self.externals.push(taken)?;
        Ok(())
    }

    fn take_public(&mut self, alloc: Global, at: u32, body: &[u8]) -> Result<(), NoMemory>
        requires { at < 2 ^ 31 }
        ensures { OnOk result (self.new ≡ after_given noted at body.now self.old) }
    {
        let given = given_by(alloc, body)?;
        let count = self.segments.len();
        self.fault = given_fault(at, self.publics.last(), count, body, self.fault);
        self.publics.push(given)?;
        Ok(())
    }

    fn new_run_fault(&self, at: u32, piece: u16, len: usize, body: &[u8]) -> Option<Fault>
        requires at { at < 2 ^ 30 }
        requires len { len < 65536 }
        requires piece { piece ≡ word_at body.now 0 }
        ensures { result ≡ new_run_faults noted at len body.now self.now }
    {
        let segment = self.segments.get(piece as usize);
        run_fault(at, self.runs.last(), segment, len, body, self.fault)
    }

    fn take_run(&mut self, alloc: Global, at: u32, len: usize, body: &[u8]) -> Result<(), NoMemory>
        requires at { at < 2 ^ 30 }
        requires len { len < 65536 }
        requires body { length body.now ≤ file_limit }
        ensures { OnOk result (self.new ≡ after_run noted at len body.now self.old) }
    {
        let run = run_by(alloc, body)?;
        self.fault = self.new_run_fault(at, word(body, 0), len, body);
        self.runs.push(run, at + 4)
    }

    fn fixup_fault(&self, at: u32, file: &[u8], fixup: Fixup, body: &[u8]) -> Option<Fault>
        requires at { at < 2 ^ 30 }
        requires fixup { fixup ≡ fixup_at body.now }
        ensures { result ≡ fixup_faults noted at file.now body.now self.now }
    {
        let pieces = self.segments.len();
        let around = Around {
            file,
            runs: &self.runs,
            fixups: &self.fixups,
        };
        let before = self.fixups.as_slice().last().copied();
        let place = fixup_place_fault(at, before, pieces, body, self.fault);
        let under = under_fault(at, around, pieces, fixup, body, place);
        target_fault(at, pieces, self.externals.len(), body, under)
    }

    fn take_fixup(&mut self, at: u32, file: &[u8], body: &[u8]) -> Result<(), NoMemory>
        requires { at < 2 ^ 30 }
        ensures { OnOk result (self.new ≡ after_fixup noted at file.now body.now self.old) }
    {
        let fixup = fixup_by(body);
        self.fault = self.fixup_fault(at, file, fixup, body);
        self.fixups.push(fixup)
    }

    fn take_entry(
        &mut self,
        at: u32,
        segment: Option<Segment>,
        piece: u16,
        body: &[u8],
    ) -> Result<(), NoMemory>
        requires { at < 2 ^ 31 }
        ensures { OnOk result (self.new ≡ after_entry noted at segment piece body.now self.old) }
    {
        let entry = entry_by(piece, body);
        let before = self.lines.last().copied();
        self.fault = entry_fault(at, before, segment, entry, body, self.fault);
        self.lines.push(entry)?;
        Ok(())
    }

    #[tactic(auto, unfolding(crate::specs::Reading::after_entries))]
    fn take_entries(
        &mut self,
        count: usize,
        at: u32,
        segment: Option<Segment>,
        piece: u16,
        body: &[u8],
    ) -> Result<(), NoMemory>
        requires at { at < 2 ^ 30 }
        requires count { count ≤ 65536 }
        ensures { OnOk result (self.new ≡ after_entries noted count at segment piece body.now self.old) }
    {
        let mut left = count;
        let mut place = at;
        let mut rest = body;
        while left > 0 {
            self.take_entry(place, segment, piece, rest)?;
            rest = without(rest, 6);
            place += 6;
            left -= 1;
        }
        Ok(())
    }

    fn segment_of(&self, piece: u16) -> Option<Segment>
        ensures { result ≡ slice_get self.now.segments piece }
    {
        match self.segments.get(piece as usize) {
            None => None,
            Some(segment) => Some(*segment),
        }
    }

    fn opened_fault(&self, at: u32, segment: Option<Segment>, body: &[u8]) -> Option<Fault>
        requires at { at < 2 ^ 29 }
        requires segment { segment ≡ slice_get self.now.segments (word_at body.now 0) }
        ensures { result ≡ opened_faults noted at body.now self.now }
    {
        let before = self.lines.last().copied();
        block_fault(at, before, self.block, segment, body, self.fault)
    }

    fn take_block(&mut self, at: u32, len: usize, body: &[u8]) -> Result<(), NoMemory>
        requires at { at < 2 ^ 29 }
        requires len { len < 65536 }
        ensures { OnOk result (self.new ≡ after_block noted at len body.now self.old) }
    {
        let piece = word(body, 0);
        let segment = self.segment_of(piece);
        self.fault = self.opened_fault(at, segment, body);
        let count = len.saturating_sub(2) / 6;
        self.take_entries(count, at + 2, segment, piece, without(body, 2))?;
        self.block = count;
        Ok(())
    }

    // Takes a record's body, as much as the file has of it.
    pub(crate) fn take_record(
        &mut self,
        alloc: Global,
        kind: u8,
        at: u32,
        len: usize,
        file: &[u8],
        body: &[u8],
    ) -> Result<(), NoMemory>
        requires at { at < 2 ^ 29 }
        requires len { len < 65536 }
        requires body { length body.now ≤ file_limit }
        ensures { OnOk result (self.new ≡ after_record noted kind at len file.now body.now self.old) }
    {
        match kind {
            0x01 => self.take_head(alloc, at, body),
            0x02 => self.take_segment(at, body),
            0x05 => self.take_external(alloc, at, body),
            0x06 => self.take_public(alloc, at, body),
            0x03 => self.take_run(alloc, at, len, body),
            0x04 => self.take_fixup(at, file, body),
            0x07 => self.take_block(at, len, body),
            _ => Ok(()),
        }
    }

    pub(crate) fn comes(&self, kind: u8) -> bool
        ensures { result ≡ may_come self.now kind }
    {
        if self.stage == 0 {
            return kind == 0x01;
        }
        let stage = stage_by(kind);
        2 <= stage && self.stage <= stage && (self.has_lines || kind != 0x07)
    }

    // Comes to the records of a type; at the end each empty piece must be named.
    pub(crate) fn enter(&mut self, at: u32, kind: u8)
        ensures { self.new ≡ at_stage first_fault at kind self.old }
    {
        let sound = self.fault.is_none();
        let unnamed = kind == 0x7F
            && sound
            && !are_kept(&self.publics, self.fixups.as_slice(), &self.segments);
        self.fault = note(self.fault, unnamed, at, ObjCode::OtherSpelling);
        self.stage = stage_by(kind);
    }

    pub(crate) fn stop(&self, at: u32, code: ObjCode) -> Fault
        ensures { result ≡ first_of_both self.now.fault (fault_at at (code_number code)) }
    {
        let code = code.number();
        earlier(self.fault, Fault { at, code })
    }

    // The module, or the first fault.
    pub(crate) fn finished(self) -> Result<Module, ObjFault>
        requires { (m : Object) → reported self.fault (object_read self) ≡ Ok m → is_module m ≡ true }
        ensures { IsDecoded result (reported self.fault (object_read self)) }
    {
        let Reading {
            stage: _stage,
            name,
            segments,
            externals,
            publics,
            runs,
            fixups,
            has_lines,
            lines,
            block: _block,
            fault,
        } = self;
        match fault {
            Some(Fault { at, code }) => Err(ObjFault::At { at, code }),
            None => {
                let entries = lines_if(has_lines, lines);
                let contents = runs.into_contents();
                let numbers = fixups.into_fixups();
                built(
                    name, segments, externals, publics, contents, numbers, entries,
                )
            }
        }
    }
}

fn lines_if(has_lines: bool, lines: Vec<Lines>) -> Option<Vec<Lines>>
    ensures { option_map (λ v. v.items) result ≡ (if has_lines then Some lines.items else None) }
{
    if has_lines { Some(lines) } else { None }
}

fn built(
    name: Text,
    segments: Vec<Segment>,
    externals: Vec<Taken>,
    publics: Vec<Given>,
    contents: Vec<Content>,
    fixups: Vec<Fixup>,
    lines: Option<Vec<Lines>>,
) -> Result<Module, ObjFault>
    requires { is_module (object_of name segments.items externals.items publics.items contents.items fixups.items (option_map (λ v. v.items) lines)) ≡ true }
    ensures { IsDecoded result (Ok (object_of name segments.items externals.items publics.items contents.items fixups.items (option_map (λ v. v.items) lines))) }
{
    match Module::new(name, segments, externals, publics, contents, fixups, lines) {
        None => unreachable!(),
        Some(module) => Ok(module),
    }
}

fn stage_by(kind: u8) -> u8
    ensures { result ≡ stage_of kind }
{
    match kind {
        0x01 => 1,
        0x02 => 2,
        0x05 => 3,
        0x06 => 4,
        0x03 => 5,
        0x04 => 6,
        0x07 => 7,
        0x7F => 8,
        _ => 0,
    }
}
