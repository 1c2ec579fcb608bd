ghost use Rattle.std.specs.Prelude.{◌≡◌, ◌≤◌, true, length, drop};
ghost use Rattle.kc_obj_module.specs.Contents.{content_end, content_is_sound, content_follows, contents_in_order, covers, byte_of, content_at, is_over, SameFrom, BeginsFrom, byte_of_first, leaves_place};

use crate::parts::{Content, Segment};
use crate::pieces::is_code_to;

fn end_of(content: &Content) -> usize
    ensures { result ≡ content_end content.now }
{
    content.offset as usize + content.bytes.as_slice().len()
}

pub(crate) fn content_sound(segments: &[Segment], content: &Content) -> bool
    ensures { result ≡ content_is_sound segments.now content.now }
{
    let len = content.bytes.as_slice().len();
    0 < len && len <= 1024 && is_code_to(segments.get(content.piece as usize), end_of(content))
}

/// Whether a run may begin at a place after another one.
pub fn may_begin_after(before: &Content, piece: u16, offset: u16) -> bool
    ensures { result ≡ leaves_place before.now piece offset }
{
    let end = end_of(before);
    let offset = offset as usize;
    let full = before.bytes.as_slice().len() == 1024;
    before.piece < piece || before.piece == piece && (end < offset || end == offset && full)
}

fn follows(first: &Content, next: &Content) -> bool
    ensures { result ≡ content_follows first.now next.now }
{
    may_begin_after(first, next.piece, next.offset)
}

// Whether contents stand by rising place, and touch only where they are full.
#[tactic(auto, unfolding(crate::specs::Contents::contents_in_order))]
pub(crate) fn are_in_order(contents: &[Content]) -> bool
    ensures { result ≡ contents_in_order contents.now }
{
    let mut left = contents;
    while let [first, rest @ ..] = left {
        if let [next, ..] = rest {
            if !follows(first, next) {
                return false;
            }
        }
        left = rest;
    }
    true
}

fn over(content: &Content, piece: u16, offset: usize) -> bool
    ensures { result ≡ is_over content.now piece offset }
{
    content.piece < piece || content.piece == piece && end_of(content) <= offset
}

// How many of the contents end before a place.
fn count_over(contents: &[Content], piece: u16, offset: usize) -> usize
    requires { contents_in_order contents.now ≡ true }
    ensures within { result ≤ length contents.now }
    ensures ordered { contents_in_order (drop result contents.now) ≡ true }
    ensures same { SameFrom piece offset (drop result contents.now) contents.now }
    ensures begins { BeginsFrom piece offset (drop result contents.now) }
{
    let mut n = 0;
    while n < contents.len() {
        let content = &contents[n];
        if !over(content, piece, offset) {
            return n;
        }
        n += 1;
    }
    n
}

// The contents without those that end before a place.
pub(crate) fn from_place(contents: &[Content], piece: u16, offset: usize) -> &[Content]
    requires { contents_in_order contents.now ≡ true }
    ensures ordered { contents_in_order result.now ≡ true }
    ensures same { SameFrom piece offset result.now contents.now }
    ensures begins { BeginsFrom piece offset result.now }
{
    let n = count_over(contents, piece, offset);
    contents.split_at(n).1
}

/// Whether a place is one of the run's.
pub fn holds(content: &Content, piece: u16, offset: usize) -> bool
    ensures { result ≡ covers content.now piece offset }
{
    content.piece == piece && content.offset as usize <= offset && offset < end_of(content)
}

fn byte_in(content: &Content, piece: u16, offset: usize) -> Option<u8>
    ensures { result ≡ byte_of content.now piece offset }
{
    if holds(content, piece, offset) {
        let bytes = content.bytes.as_slice();
        Some(bytes[offset - content.offset as usize])
    } else {
        None
    }
}

fn first_byte(contents: &[Content], piece: u16, offset: usize) -> Option<u8>
    ensures { result ≡ byte_of_first contents.now piece offset }
{
    match contents {
        [] => None,
        [first, ..] => byte_in(first, piece, offset),
    }
}

// The byte that stands at a place.
pub(crate) fn byte_at(contents: &[Content], piece: u16, offset: usize) -> Option<u8>
    requires { contents_in_order contents.now ≡ true }
    ensures { result ≡ content_at contents.now piece offset }
{
    first_byte(from_place(contents, piece, offset), piece, offset)
}
