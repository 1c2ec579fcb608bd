// The fields of a line, as far as they can be those of a record.
ghost use Rattle.std.specs.Prelude.{◌≡◌, ◌<◌, ◌≤◌, IfSome};
ghost use Rattle.kc_base.specs.Fields.{decimal_of};
ghost use Rattle.kc_events.specs.Candidates.{level_of, mode_of, end_of, kind_of, small as below_1000, base_of};

use kc_base::{Kind, Level, PtsMode, decimal, hex_word};

/// A number, this one at most: decimal digits.
pub(crate) fn number(most: u8, text: &[u8]) -> Option<u8>
    ensures value { result ≡ decimal_of most text.now }
    ensures bounded { IfSome result (λ n. n ≤ most) }
{
    match decimal(u64::from(most), text) {
        Some(value) => Some(value as u8),
        None => None,
    }
}

pub(crate) fn level(text: &[u8]) -> Level
    ensures { result ≡ level_of text.now }
{
    match text {
        [b'1', ..] => Level::High,
        _ => Level::Low,
    }
}

pub(crate) fn mode(text: &[u8]) -> PtsMode
    ensures { result ≡ mode_of text.now }
{
    match text {
        [_, _, b'o'] => PtsMode::Hso,
        [_, _, _] => PtsMode::Hsi,
        [_, _, _, _] => PtsMode::Scan,
        [_, _, _, _, _] => PtsMode::Block,
        _ => PtsMode::Single,
    }
}

pub(crate) fn end(text: &[u8]) -> u8
    ensures value { result ≡ end_of text.now }
    ensures known { result < 4 }
{
    match text {
        [b's', ..] => 0,
        [b'p', ..] => 1,
        [b'r', ..] => 2,
        _ => 3,
    }
}

pub(crate) fn kind(number: u8) -> Kind
    ensures { result ≡ kind_of number }
{
    match number {
        1 => Kind::OddWord,
        2 => Kind::LongAlign,
        3 => Kind::Opcode,
        4 => Kind::HoldingFull,
        5 => Kind::FastTimer2,
        6 => Kind::Channel,
        7 => Kind::NoRegister,
        8 => Kind::BadWindow,
        9 => Kind::BadPts,
        10 => Kind::DivZero,
        11 => Kind::RomWrite,
        12 => Kind::OutsideMap,
        13 => Kind::ByteAccess,
        _ => Kind::IdleKey,
    }
}

// What has three hex digits.
fn small(value: Option<u16>) -> Option<u16>
    ensures value { result ≡ below_1000 value }
    ensures bounded { IfSome result (λ n. n < 0x1000) }
{
    match value {
        Some(value) if value < 0x1000 => Some(value),
        _ => None,
    }
}

/// An address of a register: three hex digits.
pub(crate) fn base(text: &[u8]) -> Option<u16>
    ensures value { result ≡ base_of text.now }
    ensures bounded { IfSome result (λ n. n < 0x1000) }
{
    match text {
        [a, b, c] => small(hex_word(&[b'0', *a, *b, *c])),
        _ => None,
    }
}
