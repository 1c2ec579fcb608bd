// How records are spelled: each line is made in place, with no memory.
ghost use Rattle.std.specs.Prelude.{◌≡◌, ◌+◌, ◌*◌, ◌<◌, ◌≤◌, ◌++◌, [], ◌∷◌, length, decimal, flat_map, codes};
ghost use Rattle.arrayvec.specs.ArrayVec.{array_vec_len};
ghost use Rattle.kc_trace.specs.Text.{line_of, fields_of, hex, end_name, mode_name, kind_number, level_digit};
ghost use Rattle.kc_base.specs.Pins.{pin_name, IsPin};
ghost use Rattle.kc_trace.specs.Printable.{CanPrint};

use crate::Record;
use arrayvec::ArrayVec;
use itoa::Buffer;
use kc_base::{Edge, Kind, Level, PtsMode, Undefined, address_text, hex_digit};

/// A line that is made in place, with the byte that ends it.
pub type LineBytes = ArrayVec<u8, 160>;

/// Puts a text behind a line.
#[inline(always)]
pub fn put_text(line: &mut LineBytes, text: &[u8])
    requires { array_vec_len line.old + length text.now ≤ 160 }
    ensures items { line.new.items ≡ line.old.items ++ text.now }
    ensures len { array_vec_len line.new ≡ array_vec_len line.old + length text.now }
{
    match line.try_extend_from_slice(text) {
        Ok(()) => {}
        Err(_) => unreachable!(),
    }
}

/// Puts a number in decimal behind a line.
pub fn put_decimal(line: &mut LineBytes, number: u64)
    requires { array_vec_len line.old + 20 ≤ 160 }
    ensures items { line.new.items ≡ line.old.items ++ decimal number }
    ensures len { array_vec_len line.new ≤ array_vec_len line.old + 20 }
{
    let mut buffer = Buffer::new();
    put_text(line, buffer.format(number).as_bytes());
}

/// Puts so many upper-case hex digits of a number behind a line.
pub fn put_hex(line: &mut LineBytes, digits: u8, number: u16)
    requires { array_vec_len line.old + digits ≤ 160 }
    ensures items { line.new.items ≡ line.old.items ++ hex digits number }
    ensures len { array_vec_len line.new ≡ array_vec_len line.old + digits }
{
    if digits == 4 {
        put_text(line, address_text(number).as_slice());
    } else if digits > 0 {
        put_hex(line, digits - 1, number / 16);
        line.push(hex_digit((number % 16) as u8));
    }
}

fn put_bytes(line: &mut LineBytes, bytes: &[u8; 32])
    requires { array_vec_len line.old + 64 ≤ 160 }
    ensures items { line.new.items ≡ line.old.items ++ flat_map (hex 2) bytes.now }
    ensures len { array_vec_len line.new ≡ array_vec_len line.old + 64 }
{
    for byte in bytes {
        put_hex(line, 2, u16::from(*byte));
    }
}

fn end_name(how: u8) -> &'static str
    ensures name { result.now ≡ end_name how }
    ensures short { length result.now ≤ 9 }
{
    match how {
        0 => "spent",
        1 => "powerdown",
        2 => "reset",
        _ => "undefined",
    }
}

fn mode_name(mode: PtsMode) -> &'static str
    ensures name { result.now ≡ mode_name mode }
    ensures short { length result.now ≤ 6 }
{
    match mode {
        PtsMode::Single => "single",
        PtsMode::Block => "block",
        PtsMode::Hsi => "hsi",
        PtsMode::Hso => "hso",
        PtsMode::Scan => "scan",
    }
}

/// The number of an undefined use of this kind.
pub fn kind_number(kind: Kind) -> u64
    ensures { result ≡ kind_number kind }
{
    match kind {
        Kind::OddWord => 1,
        Kind::LongAlign => 2,
        Kind::Opcode => 3,
        Kind::HoldingFull => 4,
        Kind::FastTimer2 => 5,
        Kind::Channel => 6,
        Kind::NoRegister => 7,
        Kind::BadWindow => 8,
        Kind::BadPts => 9,
        Kind::DivZero => 10,
        Kind::RomWrite => 11,
        Kind::OutsideMap => 12,
        Kind::ByteAccess => 13,
        Kind::IdleKey => 14,
    }
}

/// The digit of a level in a line: 0 or 1.
pub fn level_digit(level: Level) -> u8
    ensures { result ≡ level_digit level }
{
    match level {
        Level::Low => b'0',
        Level::High => b'1',
    }
}

fn pin_fields(line: &mut LineBytes, at: u64, edge: Edge)
    requires pin { IsPin edge.pin.0 }
    requires empty { array_vec_len line.old ≡ 0 }
    ensures items { line.new.items ≡ line.old.items ++ codes "P " ++ decimal at ++ codes " " ++ pin_name edge.pin.0 ++ codes " " ++ level_digit edge.level ∷ [] }
    ensures room { array_vec_len line.new < 160 }
{
    put_text(line, b"P ");
    put_decimal(line, at);
    put_text(line, b" ");
    put_text(line, edge.pin.name().as_bytes());
    put_text(line, b" ");
    line.push(level_digit(edge.level));
}

fn entered_fields(line: &mut LineBytes, at: u64, vector: u8, back: u16)
    requires empty { array_vec_len line.old ≡ 0 }
    ensures items { line.new.items ≡ line.old.items ++ codes "I " ++ decimal at ++ codes " " ++ decimal vector ++ codes " " ++ hex 4 back }
    ensures room { array_vec_len line.new < 160 }
{
    put_text(line, b"I ");
    put_decimal(line, at);
    put_text(line, b" ");
    put_decimal(line, u64::from(vector));
    put_text(line, b" ");
    put_hex(line, 4, back);
}

fn served_fields(line: &mut LineBytes, at: u64, vector: u8, mode: PtsMode, count: u8)
    requires empty { array_vec_len line.old ≡ 0 }
    ensures items { line.new.items ≡ line.old.items ++ codes "S " ++ decimal at ++ codes " " ++ decimal vector ++ codes " " ++ mode_name mode ++ codes " " ++ decimal count }
    ensures room { array_vec_len line.new < 160 }
{
    put_text(line, b"S ");
    put_decimal(line, at);
    put_text(line, b" ");
    put_decimal(line, u64::from(vector));
    put_text(line, b" ");
    put_text(line, mode_name(mode).as_bytes());
    put_text(line, b" ");
    put_decimal(line, u64::from(count));
}

fn undefined_fields(line: &mut LineBytes, what: Undefined)
    requires empty { array_vec_len line.old ≡ 0 }
    ensures items { line.new.items ≡ line.old.items ++ codes "U " ++ decimal what.at ++ codes " " ++ decimal (kind_number what.kind) ++ codes " " ++ hex 4 what.addr }
    ensures room { array_vec_len line.new < 160 }
{
    put_text(line, b"U ");
    put_decimal(line, what.at);
    put_text(line, b" ");
    put_decimal(line, kind_number(what.kind));
    put_text(line, b" ");
    put_hex(line, 4, what.addr);
}

fn stopped_fields(line: &mut LineBytes, at: u64, how: u8)
    requires empty { array_vec_len line.old ≡ 0 }
    ensures items { line.new.items ≡ line.old.items ++ codes "X " ++ decimal at ++ codes " " ++ end_name how }
    ensures room { array_vec_len line.new < 160 }
{
    put_text(line, b"X ");
    put_decimal(line, at);
    put_text(line, b" ");
    put_text(line, end_name(how).as_bytes());
}

fn named_fields(line: &mut LineBytes, name: &[u8], digits: u8, value: u16)
    requires name { length name.now ≤ 4 }
    requires digits { digits ≤ 4 }
    requires empty { array_vec_len line.old ≡ 0 }
    ensures items { line.new.items ≡ line.old.items ++ name.now ++ hex digits value }
    ensures room { array_vec_len line.new < 160 }
{
    put_text(line, name);
    put_hex(line, digits, value);
}

fn registers_fields(line: &mut LineBytes, base: u16, bytes: &[u8; 32])
    requires empty { array_vec_len line.old ≡ 0 }
    ensures items { line.new.items ≡ line.old.items ++ codes "R " ++ hex 3 base ++ codes " " ++ flat_map (hex 2) bytes.now }
    ensures room { array_vec_len line.new < 160 }
{
    put_text(line, b"R ");
    put_hex(line, 3, base);
    put_text(line, b" ");
    put_bytes(line, bytes);
}

#[tactic(auto, unfolding(crate::specs::Text::fields_of))]
fn put_fields(line: &mut LineBytes, item: &Record)
    requires printable { CanPrint item.now }
    requires empty { array_vec_len line.old ≡ 0 }
    ensures items { line.new.items ≡ line.old.items ++ fields_of item.now }
    ensures room { array_vec_len line.new < 160 }
{
    match item {
        Record::Pin { at, edge } => pin_fields(line, *at, *edge),
        Record::Entered { at, vector, back } => entered_fields(line, *at, *vector, *back),
        Record::Served {
            at,
            vector,
            mode,
            count,
        } => served_fields(line, *at, *vector, *mode, *count),
        Record::Undef(what) => undefined_fields(line, *what),
        Record::Stopped { at, how } => stopped_fields(line, *at, *how),
        Record::Pc(value) => named_fields(line, b"PC ", 4, *value),
        Record::Psw(value) => named_fields(line, b"PSW ", 4, *value),
        Record::Wsr(value) => named_fields(line, b"WSR ", 2, u16::from(*value)),
        Record::Registers { base, bytes } => registers_fields(line, *base, bytes),
    }
}

/// Puts the line of a record, with the byte that ends it, where nothing stands yet.
pub(crate) fn put_line(line: &mut LineBytes, item: &Record)
    requires empty { array_vec_len line.old ≡ 0 }
    requires printable { CanPrint item.now }
    ensures { line.new.items ≡ line.old.items ++ line_of item.now }
{
    put_fields(line, item);
    line.push(b'\n');
}

/// The line of a record, with the byte that ends it.
pub fn line(item: &Record) -> ArrayVec<u8, 160>
    requires { CanPrint item.now }
    ensures { result.items ≡ line_of item.now }
{
    let mut line = ArrayVec::new();
    put_line(&mut line, item);
    line
}
