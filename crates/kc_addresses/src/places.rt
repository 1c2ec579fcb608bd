// Addresses as authors write them.
ghost use Rattle.std.specs.Prelude.{◌≡◌, ◌≤◌, ◌==◌, not, length};
ghost use Rattle.std.specs.List.{before_first, after_first, take_while};
ghost use Rattle.kc_addresses.specs.Places.{base_of, is_colon, is_plus, known_of, line_place_of, place_of, raised_of, sum_of};

use crate::names::Names;
use crate::numbers::{count, hex_value};
use kc_base::{after, decimal, hex_word, prefix};
use kc_debug_script::LineMap;

/// What names mean: the public names of a map, the lines of sources, and the program counter, which `.` is.
#[derive(Clone, Copy)]
pub struct Known<'a> {
    pub names: &'a Names,
    pub lines: &'a LineMap,
    pub pc: u16,
}

/// The greatest number of a line of a source.
const LINE_LIMIT: u64 = 4_294_967_295;

// How many characters stand before the first colon.
fn colon_place(text: &[u8]) -> usize
    ensures value { result ≡ length (take_while (λ c. not (c == 58)) text.now) }
    ensures within { result ≤ length text.now }
{
    text.iter().take_while(|c| **c != b':').count()
}

// What stands before the first colon, and behind it; the whole text and an empty one where there is no colon.
fn split_at_colon(text: &[u8]) -> (&[u8], &[u8])
    ensures before { result.0.now ≡ before_first is_colon text.now }
    ensures behind { result.1.now ≡ after_first is_colon text.now }
{
    let len = colon_place(text);
    if len < text.len() {
        (prefix(text, len), after(text, len + 1))
    } else {
        (text, after(text, len))
    }
}

// How many characters stand before the first plus.
fn plus_place(text: &[u8]) -> usize
    ensures value { result ≡ length (take_while (λ c. not (c == 43)) text.now) }
    ensures within { result ≤ length text.now }
{
    text.iter().take_while(|c| **c != b'+').count()
}

// What stands before the first plus, and behind it; the whole text and an empty one where there is no plus.
fn split_at_plus(text: &[u8]) -> (&[u8], &[u8])
    ensures before { result.0.now ≡ before_first is_plus text.now }
    ensures behind { result.1.now ≡ after_first is_plus text.now }
{
    let len = plus_place(text);
    if len < text.len() {
        (prefix(text, len), after(text, len + 1))
    } else {
        (text, after(text, len))
    }
}

/// The first address of a line, `MODULE:LINE`, with the letters of the module in either case, and the line in decimal digits without a 0
/// in front. `None` for any other text, and where the line map has no such line.
pub fn line_place(lines: &LineMap, text: &[u8]) -> Option<u16>
    ensures { result ≡ line_place_of lines.now text.now }
{
    let (module, line) = split_at_colon(text);
    let line = count(LINE_LIMIT, line)?;
    lines.address_of(module, line as u32)
}

// An address without a number behind it.
fn base(known: Known<'_>, text: &[u8]) -> Option<u16>
    ensures { result ≡ base_of (known_of known.entry) text.now }
{
    if text == b".".as_slice() {
        return Some(known.pc);
    }
    if let Some(addr) = hex_word(text) {
        return Some(addr);
    }
    match hex_value(0xFFFF, text) {
        Some(addr) => Some(addr as u16),
        None => known.names.value(text),
    }
}

// An address and a number, where their sum is an address.
fn sum(addr: u16, more: &[u8]) -> Option<u16>
    ensures { result ≡ sum_of addr more.now }
{
    let more = decimal(0xFFFF, more)?;
    addr.checked_add(more as u16)
}

// An address with a number behind it.
fn raised(known: Known<'_>, text: &[u8]) -> Option<u16>
    ensures { result ≡ raised_of (known_of known.entry) text.now }
{
    let (first, more) = split_at_plus(text);
    let addr = base(known, first)?;
    sum(addr, more)
}

/// The address that a word writes: four hex digits, a hexadecimal number of the assembler, a public name, `.` for the program counter, one
/// of these with `+N`, or `MODULE:LINE` for the first address of a line. `None` for any other word, for a name or a line that is not
/// known, and for a sum above FFFFH. What can be four digits or a name is digits.
pub fn place(known: Known<'_>, text: &[u8]) -> Option<u16>
    ensures { result ≡ place_of (known_of known.entry) text.now }
{
    if let Some(addr) = base(known, text) {
        return Some(addr);
    }
    if let Some(addr) = raised(known, text) {
        return Some(addr);
    }
    line_place(known.lines, text)
}
