ghost use Rattle.std.specs.Prelude.{◌≡◌, ◌+◌, ◌-◌, ◌*◌, ◌/◌, ◌%◌, ◌≤◌, ◌<◌, ◌++◌, ◌∷◌, [], length, take, drop, flat_map, codes, slice_index};
ghost use Rattle.arrayvec.specs.ArrayVec.{array_vec_len};
ghost use Rattle.kc_code.specs.Reading.{decode_of};
ghost use Rattle.kc_code.specs.Text.{byte_text};
ghost use Rattle.kc_code.specs.Listing as listing;

use crate::disassembly::text;
use crate::reader::{Decoded, decode};
use arrayvec::ArrayVec;
use kc_base::{IMAGE_START, Image, hex_digit};

/// The characters of a line of a listing.
pub type Line = ArrayVec<u8, 128>;

// Two digits of a byte.
fn push_pair(line: &mut Line, n: u8)
    requires { array_vec_len line.old ≤ 120 }
    ensures items { line.new.items ≡ line.old.items ++ listing.pair n }
    ensures len { array_vec_len line.new ≡ array_vec_len line.old + 2 }
{
    line.push(hex_digit(n / 16));
    line.push(hex_digit(n % 16));
}

// Two digits of each byte.
fn push_pairs(line: &mut Line, bytes: &[u8])
    requires { array_vec_len line.old + 2 * length bytes.now ≤ 120 }
    ensures items { line.new.items ≡ line.old.items ++ flat_map listing.pair bytes.now }
    ensures len { array_vec_len line.new ≡ array_vec_len line.old + 2 * length bytes.now }
{
    if let Some((first, rest)) = bytes.split_first() {
        push_pair(line, *first);
        push_pairs(line, rest);
    }
}

fn push_text(line: &mut Line, text: &[u8])
    requires { array_vec_len line.old + length text.now ≤ 128 }
    ensures items { line.new.items ≡ line.old.items ++ text.now }
    ensures len { array_vec_len line.new ≡ array_vec_len line.old + length text.now }
{
    let Ok(()) = line.try_extend_from_slice(text) else {
        unreachable!();
    };
}

// The words of a byte that is data.
#[tactic(auto, unfolding(crate::specs::Text::byte_text))]
fn push_data(line: &mut Line, byte: u8)
    requires { array_vec_len line.old ≤ 100 }
    ensures items { line.new.items ≡ line.old.items ++ (codes "DCB " ++ byte_text byte) }
    ensures len { array_vec_len line.new ≤ array_vec_len line.old + 8 }
{
    push_text(line, b"DCB ");
    if byte >= 0xA0 {
        line.push(b'0');
    }
    push_pair(line, byte);
    line.push(b'H');
}

// What stands at the beginning of some bytes, as the words of a line.
fn push_words(line: &mut Line, found: Decoded, at: u16, byte: u8)
    requires room { array_vec_len line.old ≤ 40 }
    requires formed { listing.IsFormedWhole found }
    ensures items { line.new.items ≡ line.old.items ++ listing.words_of found at byte }
    ensures len { array_vec_len line.new ≤ 120 }
{
    match found {
        Decoded::Insn(insn, _) => push_text(line, text(&insn, at).as_slice()),
        Decoded::Unimplemented | Decoded::Undefined | Decoded::Short => push_data(line, byte),
    }
}

/// The line at an address of an image, with its end of line, and how many bytes it takes: an instruction, or one byte as
/// `DCB` where no instruction is whole.
#[tactic(auto, unfolding(crate::specs::Listing::line_at, crate::specs::Listing::next_after))]
pub fn line_at(image: &Image, at: u16) -> (Line, u8)
    requires { IMAGE_START ≤ at }
    ensures line { result.0.items ≡ listing.line_at image.now at }
    ensures next { at + result.1 ≡ listing.next_after image.now at }
    ensures count { 1 ≤ result.1 }
    ensures within { at + result.1 ≤ 65536 }
{
    let bytes = image.as_slice().split_at((at - IMAGE_START) as usize).1;
    let found = decode(bytes);
    let count = match found {
        Decoded::Insn(_, count) => count,
        Decoded::Unimplemented | Decoded::Undefined | Decoded::Short => 1,
    };
    let mut line = Line::new();
    push_pair(&mut line, (at / 256) as u8);
    push_pair(&mut line, (at % 256) as u8);
    line.push(b' ');
    push_pairs(&mut line, bytes.split_at(count as usize).0);
    line.push(b' ');
    push_words(&mut line, found, at, bytes[0]);
    line.push(b'\n');
    (line, count)
}
