// Notes as their author writes them, a line each.
ghost use Rattle.std.specs.Prelude.{◌≡◌, ◌≤◌, ◌<◌, ◌==◌, ◌++◌, [], ◌∷◌, length, map, nat_lt, nat_le, IfOk, IfSome, OnOk};
ghost use Rattle.std.specs.List.{list_any, take_while};
ghost use Rattle.std.specs.Option.{option_map};
ghost use Rattle.kc_base.specs.Limits.{file_limit};
ghost use Rattle.kc_addresses.specs.Lines.{IsAdded};
ghost use Rattle.kc_addresses.specs.Words.{words_in};
ghost use Rattle.kc_bound.specs.declared.reading.NotesFault.TheVariants as faults;
ghost use Rattle.kc_bound.specs.Reading as spec;
ghost use Rattle.kc_bound.specs.Reading.{AreNotesRead, loop_read, goes_read, notes_read};

use crate::looking::is_among;
use crate::notes::{Goes, Loop, Moved, Notes};
use kc_addresses::{
    LineMap, Names, before_comment, begins_with_digit, count, is_over, line_place, next_word,
};
use kc_base::{IMAGE_START, MAX_STATES, NoMemory, ROM_END, after, first_line, hex_word, prefix};
use std::alloc::Global;

/// Why notes are refused, with the number of a line, counted from 1.
#[derive(Clone, Copy, Debug, PartialEq, Eq)]
pub enum NotesFault {
    BadNote(u32),
    NoMemory,
}

impl From<NoMemory> for NotesFault {
    ghost from_gives = { λ _ e. e ≡ faults.NoMemory };

    fn from(_error: NoMemory) -> NotesFault {
        NotesFault::NoMemory
    }
}

/// The most notes, and the most addresses that a note names behind its own.
const NOTE_LIMIT: u128 = 4096;

const TARGET_LIMIT: usize = 256;

// What a word means: four hex digits where it begins with a digit, else `MODULE:LINE`, or a public name.
fn meant_by(names: &Names, lines: &LineMap, word: &[u8]) -> Option<u16>
    ensures { result ≡ spec.meant_by names.now lines.now word.now }
{
    if begins_with_digit(word) {
        return hex_word(word);
    }
    match line_place(lines, word) {
        Some(addr) => Some(addr),
        None => names.value(word),
    }
}

fn is_in_rom(addr: u16) -> bool
    ensures { result ≡ spec.is_in_rom addr }
{
    IMAGE_START <= addr && addr < ROM_END
}

/// The address in the ROM that a word means: four hex digits where it begins with a digit, else `MODULE:LINE`, or a public name.
pub fn address(names: &Names, lines: &LineMap, word: &[u8]) -> Option<u16>
    ensures { result ≡ spec.address_of names.now lines.now word.now }
{
    match meant_by(names, lines, word) {
        Some(addr) if is_in_rom(addr) => Some(addr),
        _ => None,
    }
}

fn push(addresses: &mut Vec<u16>, addr: u16) -> Result<(), NoMemory>
    ensures { OnOk result (addresses.new.items ≡ addresses.old.items ++ addr ∷ []) }
{
    addresses.push(addr)?;
    Ok(())
}

// The addresses of all words of a text.
fn read_addresses(
    alloc: Global,
    names: &Names,
    lines: &LineMap,
    text: &[u8],
) -> Result<Option<Vec<u16>>, NoMemory>
    ensures { IfOk result (λ read. option_map (λ v. v.items) read ≡ spec.addresses_of (spec.address_of names.now lines.now) (words_in text.now)) }
{
    let mut addresses = Vec::new(alloc);
    let mut rest = text;
    while let Some((word, behind)) = next_word(rest) {
        match address(names, lines, word) {
            Some(addr) => push(&mut addresses, addr)?,
            None => return Ok(None),
        }
        rest = behind;
    }
    Ok(Some(addresses))
}

fn are_distinct(addresses: &[u16]) -> bool
    ensures { result ≡ spec.are_distinct addresses.now }
{
    let mut rest = addresses;
    while let [first, more @ ..] = rest {
        if is_among(more, *first) {
            return false;
        }
        rest = more;
    }
    true
}

fn are_targets(addresses: &[u16]) -> bool
    ensures { result ≡ spec.are_targets addresses.now }
{
    1 <= addresses.len() && addresses.len() <= TARGET_LIMIT && are_distinct(addresses)
}

// The addresses of all words of a text, 1 to 256 distinct ones.
fn read_targets(
    alloc: Global,
    names: &Names,
    lines: &LineMap,
    text: &[u8],
) -> Result<Option<Vec<u16>>, NoMemory>
    ensures { IfOk result (λ read. option_map (λ v. v.items) read ≡ spec.targets_of (spec.address_of names.now lines.now) (words_in text.now)) }
{
    match read_addresses(alloc, names, lines, text)? {
        Some(addresses) => {
            if are_targets(addresses.as_slice()) {
                Ok(Some(addresses))
            } else {
                Ok(None)
            }
        }
        None => Ok(None),
    }
}

// What stands behind the number of a loop: nothing, or `per` and addresses.
fn read_per(
    alloc: Global,
    names: &Names,
    lines: &LineMap,
    text: &[u8],
) -> Result<Option<Vec<u16>>, NoMemory>
    ensures { IfOk result (λ read. option_map (λ v. v.items) read ≡ spec.per_of (spec.address_of names.now lines.now) (words_in text.now)) }
{
    let Some((word, rest)) = next_word(text) else {
        return Ok(Some(Vec::new(alloc)));
    };
    if word == b"per".as_slice() {
        read_targets(alloc, names, lines, rest)
    } else {
        Ok(None)
    }
}

// A loop, unless it is counted from its own head.
fn loop_with(head: Option<u16>, most: Option<u64>, per: Option<Vec<u16>>) -> Option<Loop>
    ensures { option_map loop_read result ≡ spec.loop_with head most (option_map (λ v. v.items) per) }
{
    match (head, most, per) {
        (Some(head), Some(most), Some(per)) => {
            if is_among(per.as_slice(), head) {
                None
            } else {
                Some(Loop { head, most, per })
            }
        }
        _ => None,
    }
}

fn read_loop(
    alloc: Global,
    names: &Names,
    lines: &LineMap,
    text: &[u8],
) -> Result<Option<Loop>, NoMemory>
    ensures { IfOk result (λ read. option_map loop_read read ≡ spec.loop_of (spec.address_of names.now lines.now) (words_in text.now)) }
{
    let Some((head, rest)) = next_word(text) else {
        return Ok(None);
    };
    let Some((most, rest)) = next_word(rest) else {
        return Ok(None);
    };
    let per = read_per(alloc, names, lines, rest)?;
    Ok(loop_with(address(names, lines, head), count(MAX_STATES, most), per))
}

fn read_goes(
    alloc: Global,
    names: &Names,
    lines: &LineMap,
    text: &[u8],
) -> Result<Option<Goes>, NoMemory>
    ensures { IfOk result (λ read. option_map goes_read read ≡ spec.goes_of (spec.address_of names.now lines.now) (words_in text.now)) }
{
    let Some((jump, rest)) = next_word(text) else {
        return Ok(None);
    };
    let targets = read_targets(alloc, names, lines, rest)?;
    match (address(names, lines, jump), targets) {
        (Some(jump), Some(targets)) => Ok(Some(Goes { jump, targets })),
        _ => Ok(None),
    }
}

fn moved_with(block: Option<u16>, most: Option<u64>) -> Option<Moved>
    requires { IfSome most (λ n. n < 65536) }
    ensures { result ≡ spec.moved_with block most }
{
    match (block, most) {
        (Some(block), Some(most)) => Some(Moved {
            block,
            most: most as u16,
        }),
        _ => None,
    }
}

fn read_moved(names: &Names, lines: &LineMap, text: &[u8]) -> Option<Moved>
    ensures { result ≡ spec.moved_of (spec.address_of names.now lines.now) (words_in text.now) }
{
    let (block, rest) = next_word(text)?;
    let (most, rest) = next_word(rest)?;
    if is_over(rest) {
        moved_with(address(names, lines, block), count(65_535, most))
    } else {
        None
    }
}

fn read_end(names: &Names, lines: &LineMap, text: &[u8]) -> Option<u16>
    ensures { result ≡ spec.end_of (spec.address_of names.now lines.now) (words_in text.now) }
{
    let (word, rest) = next_word(text)?;
    if is_over(rest) {
        address(names, lines, word)
    } else {
        None
    }
}

fn no_notes(alloc: Global) -> Notes
    ensures { notes_read result ≡ spec.no_notes }
{
    Notes {
        loops: Vec::new(alloc),
        goes: Vec::new(alloc),
        words: Vec::new(alloc),
        ends: Vec::new(alloc),
    }
}

// How many loops stand first with their heads below an address.
fn loops_below(loops: &[Loop], head: u16) -> usize
    ensures value { result ≡ length (take_while (λ l. nat_lt l.head head) loops.now) }
    ensures within { result ≤ length loops.now }
{
    loops.iter().take_while(|l| l.head < head).count()
}

// How many notes of jumps stand first below an address.
fn goes_below(goes: &[Goes], jump: u16) -> usize
    ensures value { result ≡ length (take_while (λ g. nat_lt g.jump jump) goes.now) }
    ensures within { result ≤ length goes.now }
{
    goes.iter().take_while(|g| g.jump < jump).count()
}

// How many notes of block moves stand first below an address.
fn words_below(words: &[Moved], block: u16) -> usize
    ensures value { result ≡ length (take_while (λ m. nat_lt m.block block) words.now) }
    ensures within { result ≤ length words.now }
{
    words.iter().take_while(|m| m.block < block).count()
}

// How many ends stand first below an address.
fn ends_below(ends: &[u16], at: u16) -> usize
    ensures value { result ≡ length (take_while (λ a. nat_lt a at) ends.now) }
    ensures within { result ≤ length ends.now }
{
    ends.iter().take_while(|a| **a < at).count()
}

fn is_head(loops: &[Loop], head: u16) -> bool
    ensures { result ≡ list_any (λ l. l.head == head) loops.now }
{
    loops.iter().any(|l| l.head == head)
}

fn is_jump(goes: &[Goes], jump: u16) -> bool
    ensures { result ≡ list_any (λ g. g.jump == jump) goes.now }
{
    goes.iter().any(|g| g.jump == jump)
}

fn is_block(words: &[Moved], block: u16) -> bool
    ensures { result ≡ list_any (λ m. m.block == block) words.now }
{
    words.iter().any(|m| m.block == block)
}

// Adds a loop at its place, if there is one and its head is new.
fn add_loop(loops: &mut Vec<Loop>, read: Option<Loop>) -> Result<bool, NoMemory>
    ensures { IfOk result (λ is_note. IsAdded is_note (spec.with_new (λ l. l.head) (map loop_read loops.old.items) (option_map loop_read read)) (map loop_read loops.new.items)) }
{
    let Some(l) = read else {
        return Ok(false);
    };
    if is_head(loops.as_slice(), l.head) {
        return Ok(false);
    }
    let index = loops_below(loops.as_slice(), l.head);
    loops.insert(index, l)?;
    Ok(true)
}

// Adds the note of a jump at its place, if there is one and its address is new.
fn add_goes(goes: &mut Vec<Goes>, read: Option<Goes>) -> Result<bool, NoMemory>
    ensures { IfOk result (λ is_note. IsAdded is_note (spec.with_new (λ g. g.jump) (map goes_read goes.old.items) (option_map goes_read read)) (map goes_read goes.new.items)) }
{
    let Some(g) = read else {
        return Ok(false);
    };
    if is_jump(goes.as_slice(), g.jump) {
        return Ok(false);
    }
    let index = goes_below(goes.as_slice(), g.jump);
    goes.insert(index, g)?;
    Ok(true)
}

// Adds the note of a block move at its place, if there is one and its address is new.
fn add_moved(words: &mut Vec<Moved>, read: Option<Moved>) -> Result<bool, NoMemory>
    ensures { IfOk result (λ is_note. IsAdded is_note (spec.with_new (λ m. m.block) words.old.items read) words.new.items) }
{
    let Some(m) = read else {
        return Ok(false);
    };
    if is_block(words.as_slice(), m.block) {
        return Ok(false);
    }
    let index = words_below(words.as_slice(), m.block);
    words.insert(index, m)?;
    Ok(true)
}

// Adds an end at its place, if there is one and it is new.
fn add_end(ends: &mut Vec<u16>, read: Option<u16>) -> Result<bool, NoMemory>
    ensures { IfOk result (λ is_note. IsAdded is_note (spec.with_new (λ a. a) ends.old.items read) ends.new.items) }
{
    let Some(at) = read else {
        return Ok(false);
    };
    if is_among(ends.as_slice(), at) {
        return Ok(false);
    }
    let index = ends_below(ends.as_slice(), at);
    ends.insert(index, at)?;
    Ok(true)
}

// Whether there are as many notes as there may be.
fn is_full(notes: &Notes) -> bool
    ensures { result ≡ nat_le 4096 (spec.count_of_notes (notes_read notes.now)) }
{
    let loops = notes.loops.len() as u128;
    let goes = notes.goes.len() as u128;
    let words = notes.words.len() as u128;
    let ends = notes.ends.len() as u128;
    NOTE_LIMIT <= loops + goes + words + ends
}

// Adds the note behind `loop`.
fn note_loop(
    alloc: Global,
    names: &Names,
    lines: &LineMap,
    notes: &mut Notes,
    text: &[u8],
) -> Result<bool, NoMemory>
    ensures { IfOk result (λ is_note. IsAdded is_note (spec.with_loops (notes_read notes.old) (spec.with_new (λ l. l.head) (notes_read notes.old).loops (spec.loop_of (spec.address_of names.now lines.now) (words_in text.now)))) (notes_read notes.new)) }
{
    let read = read_loop(alloc, names, lines, text)?;
    let is_note = add_loop(&mut notes.loops, read)?;
    Ok(is_note)
}

// Adds the note behind `goes`.
fn note_goes(
    alloc: Global,
    names: &Names,
    lines: &LineMap,
    notes: &mut Notes,
    text: &[u8],
) -> Result<bool, NoMemory>
    ensures { IfOk result (λ is_note. IsAdded is_note (spec.with_goes (notes_read notes.old) (spec.with_new (λ g. g.jump) (notes_read notes.old).goes (spec.goes_of (spec.address_of names.now lines.now) (words_in text.now)))) (notes_read notes.new)) }
{
    let read = read_goes(alloc, names, lines, text)?;
    let is_note = add_goes(&mut notes.goes, read)?;
    Ok(is_note)
}

// Adds the note behind `words`.
fn note_moved(
    names: &Names,
    lines: &LineMap,
    notes: &mut Notes,
    text: &[u8],
) -> Result<bool, NoMemory>
    ensures { IfOk result (λ is_note. IsAdded is_note (spec.with_words (notes_read notes.old) (spec.with_new (λ m. m.block) (notes_read notes.old).words (spec.moved_of (spec.address_of names.now lines.now) (words_in text.now)))) (notes_read notes.new)) }
{
    let read = read_moved(names, lines, text);
    let is_note = add_moved(&mut notes.words, read)?;
    Ok(is_note)
}

// Adds the note behind `ends`.
fn note_end(
    names: &Names,
    lines: &LineMap,
    notes: &mut Notes,
    text: &[u8],
) -> Result<bool, NoMemory>
    ensures { IfOk result (λ is_note. IsAdded is_note (spec.with_ends (notes_read notes.old) (spec.with_new (λ a. a) (notes_read notes.old).ends (spec.end_of (spec.address_of names.now lines.now) (words_in text.now)))) (notes_read notes.new)) }
{
    let read = read_end(names, lines, text);
    let is_note = add_end(&mut notes.ends, read)?;
    Ok(is_note)
}

// Adds what stands behind the word of a note; `false` where it is none.
fn add_fields(
    alloc: Global,
    names: &Names,
    lines: &LineMap,
    notes: &mut Notes,
    word: &[u8],
    text: &[u8],
) -> Result<bool, NoMemory>
    ensures { IfOk result (λ is_note. IsAdded is_note (spec.with_fields (spec.address_of names.now lines.now) (notes_read notes.old) word.now (words_in text.now)) (notes_read notes.new)) }
{
    if word == b"loop".as_slice() {
        return note_loop(alloc, names, lines, notes, text);
    }
    if word == b"goes".as_slice() {
        return note_goes(alloc, names, lines, notes, text);
    }
    if word == b"words".as_slice() {
        return note_moved(names, lines, notes, text);
    }
    if word == b"ends".as_slice() {
        return note_end(names, lines, notes, text);
    }
    Ok(false)
}

// Adds the note of a line, if it has words; `false` where they are none.
fn add_line(
    alloc: Global,
    names: &Names,
    lines: &LineMap,
    notes: &mut Notes,
    line: &[u8],
) -> Result<bool, NoMemory>
    ensures { IfOk result (λ is_note. IsAdded is_note (spec.with_line (spec.address_of names.now lines.now) (notes_read notes.old) line.now) (notes_read notes.new)) }
{
    let Some((word, fields)) = next_word(before_comment(line)) else {
        return Ok(true);
    };
    if is_full(notes) {
        return Ok(false);
    }
    add_fields(alloc, names, lines, notes, word, fields)
}

impl Notes {
    /// The notes of a text of 1,048,576 bytes at most, each kind by rising address, with the public names of a map and the lines of sources;
    /// or the number of the first line that has words and is no note. The 4,097th note is none, nor is a second one of a word and an
    /// address.
    pub fn read(
        alloc: Global,
        text: &[u8],
        names: &Names,
        lines: &LineMap,
    ) -> Result<Notes, NotesFault>
        requires { length text.now ≤ file_limit }
        ensures { AreNotesRead result (spec.notes_of (spec.address_of names.now lines.now) text.now) }
    {
        let mut notes = no_notes(alloc);
        let mut rest = text;
        let mut number = 1;
        while !rest.is_empty() {
            let (len, used) = first_line(rest);
            if !add_line(alloc, names, lines, &mut notes, prefix(rest, len))? {
                return Err(NotesFault::BadNote(number));
            }
            number += 1;
            rest = after(rest, used);
        }
        Ok(notes)
    }
}
