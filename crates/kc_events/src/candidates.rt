// Which record a line can be, and whether it is.
ghost use Rattle.std.specs.Prelude.{◌≡◌, ◌≢◌, false, None, IfSome, IsTrue};
ghost use Rattle.kc_trace.specs.declared.record.Record.{Record};
ghost use Rattle.kc_trace.specs.declared.record.Record.TheVariants.{Wsr};
ghost use Rattle.kc_trace.specs.Printable.{CanPrint};
ghost use Rattle.kc_trace.specs.Text.{fields_of};
ghost use Rattle.kc_events.specs.Candidates.{candidate_of, record_by_word as with_word, letter_record as with_letter, pin_record as pin_item, entered_record as entered_item, served_record as served_item, undefined_record as undefined_item, stopped_record as stopped_item, registers_record as registers_item};
ghost use Rattle.kc_events.specs.Sound.{IsSound};

use crate::fields::{base, end, kind, level, mode, number};
use kc_base::{
    ENTRY_COUNT, Edge, Pin, TRANSFER_COUNT, Undefined, hex_byte, hex_word, pin_number, prefix,
    split_at_space, state_time,
};
use kc_trace::{Record, line as line_of};

fn pin_record(text: &[u8]) -> Option<Record>
    ensures value { result ≡ pin_item text.now }
    ensures sound { IfSome result IsSound }
{
    let (first, rest) = split_at_space(text);
    let (second, third) = split_at_space(rest);
    let at = state_time(first)?;
    let pin = Pin(pin_number(second)?);
    let level = level(third);
    Some(Record::Pin {
        at,
        edge: Edge { pin, level },
    })
}

fn entered_record(text: &[u8]) -> Option<Record>
    ensures value { result ≡ entered_item text.now }
    ensures sound { IfSome result IsSound }
{
    let (first, rest) = split_at_space(text);
    let (second, third) = split_at_space(rest);
    let at = state_time(first)?;
    let vector = number(ENTRY_COUNT - 1, second)?;
    let back = hex_word(third)?;
    Some(Record::Entered { at, vector, back })
}

fn served_record(text: &[u8]) -> Option<Record>
    ensures value { result ≡ served_item text.now }
    ensures sound { IfSome result IsSound }
{
    let (first, rest) = split_at_space(text);
    let (second, rest) = split_at_space(rest);
    let (third, fourth) = split_at_space(rest);
    let at = state_time(first)?;
    let vector = number(TRANSFER_COUNT - 1, second)?;
    let mode = mode(third);
    let count = number(255, fourth)?;
    Some(Record::Served {
        at,
        vector,
        mode,
        count,
    })
}

fn undefined_record(text: &[u8]) -> Option<Record>
    ensures value { result ≡ undefined_item text.now }
    ensures sound { IfSome result IsSound }
{
    let (first, rest) = split_at_space(text);
    let (second, third) = split_at_space(rest);
    let at = state_time(first)?;
    let kind = kind(number(255, second)?);
    let addr = hex_word(third)?;
    Some(Record::Undef(Undefined { kind, at, addr }))
}

fn stopped_record(text: &[u8]) -> Option<Record>
    ensures value { result ≡ stopped_item text.now }
    ensures sound { IfSome result IsSound }
{
    let (first, rest) = split_at_space(text);
    let at = state_time(first)?;
    let how = end(rest);
    Some(Record::Stopped { at, how })
}

fn registers_record(text: &[u8]) -> Option<Record>
    ensures value { result ≡ registers_item text.now }
    ensures sound { IfSome result IsSound }
{
    let (first, rest) = split_at_space(text);
    let base = base(first)?;
    let mut bytes = [0u8; 32];
    match hex::decode_to_slice(rest, &mut bytes) {
        Ok(()) => Some(Record::Registers { base, bytes }),
        Err(_) => None,
    }
}

// The record of a line that begins with this letter and a space.
fn letter_record(letter: u8, rest: &[u8]) -> Option<Record>
    ensures value { result ≡ with_letter letter rest.now }
    ensures sound { IfSome result IsSound }
{
    match letter {
        b'P' => pin_record(rest),
        b'I' => entered_record(rest),
        b'S' => served_record(rest),
        b'U' => undefined_record(rest),
        b'X' => stopped_record(rest),
        _ => registers_record(rest),
    }
}

fn wsr(value: u8) -> Record
    ensures value { result ≡ Wsr value }
    ensures sound { IsSound result }
{
    Record::Wsr(value)
}

// The record of a line that begins with this word and a space.
fn record_by_word(first: &[u8], rest: &[u8]) -> Option<Record>
    ensures value { result ≡ with_word first.now rest.now }
    ensures sound { IfSome result IsSound }
{
    match first {
        [letter] => letter_record(*letter, rest),
        [_, _] => Some(Record::Pc(hex_word(rest)?)),
        [b'P', _, _] => Some(Record::Psw(hex_word(rest)?)),
        [_, _, _] => Some(wsr(hex_byte(rest)?)),
        _ => None,
    }
}

// The record that a line can be.
fn candidate(line: &[u8]) -> Option<Record>
    ensures value { result ≡ candidate_of line.now }
    ensures sound { IfSome result IsSound }
{
    let (first, rest) = split_at_space(line);
    record_by_word(first, rest)
}

// Whether a record is spelled as a line.
fn is_spelled(item: &Record, line: &[u8]) -> bool
    requires { CanPrint item.now }
    ensures spelled { IsTrue result → fields_of item.now ≡ line.now }
    ensures other { result ≡ false → fields_of item.now ≢ line.now }
{
    let text = line_of(item);
    let text = text.as_slice();
    prefix(text, text.len() - 1) == line
}

/// The record that is spelled as a line; `None` where no record is that a run may have.
pub(crate) fn record(line: &[u8]) -> Option<Record>
    ensures sound { IfSome result (λ item. IsSound item × (fields_of item ≡ line.now)) }
    ensures none { result ≡ None → (item : Record) → IsSound item → fields_of item ≢ line.now }
{
    let item = candidate(line)?;
    if is_spelled(&item, line) {
        Some(item)
    } else {
        None
    }
}
