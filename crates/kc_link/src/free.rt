// The runs of addresses that are free.
ghost use Rattle.std.specs.Prelude.{◌≡◌, ◌<◌, ◌≤◌, ◌+◌, ◌-◌, ◌++◌, ◌&&◌, not, false, get_or, OnOk};
ghost use Rattle.kc_link.specs.Free as spec;
ghost use Rattle.kc_link.specs.Map as map;

use crate::taken::is_taken;
use kc_base::{NoMemory, put_address, put_number};

/// The stack: its first address and its length in bytes.
#[derive(Clone, Copy)]
pub(crate) struct StackAt {
    pub first: u16,
    pub size: u32,
}

fn covers(first: u16, length: u32, address: u32) -> bool
    requires { length < 16777216 }
    ensures { result ≡ spec.covers first length address }
{
    u32::from(first) <= address && address < u32::from(first) + length
}

// Whether neither the stack nor a piece has the address.
fn is_free(taken: &[bool], stack: StackAt, address: u32) -> bool
    requires { stack.size < 16777216 }
    ensures { result ≡ (not (spec.covers stack.first stack.size address) && not (get_or taken.now address false)) }
{
    !covers(stack.first, stack.size, address) && !is_taken(taken, address)
}

// Puts the line of so many free addresses from one on.
fn put_line(text: &mut Vec<u8>, word: &[u8], first: u16, length: u32) -> Result<(), NoMemory>
    ensures { OnOk result (text.new.items ≡ text.old.items ++ map.free_line word.now (record { first = first; length = length })) }
{
    text.extend_from_slice(b"free ")?;
    text.extend_from_slice(word)?;
    text.push(b' ')?;
    put_address(text, first)?;
    text.push(b' ')?;
    put_number(text, u128::from(length))?;
    text.push(b'\n')?;
    Ok(())
}

// Puts the line of a run of free addresses that ends before an address, if it is one.
fn put_run(text: &mut Vec<u8>, word: &[u8], end: u32, length: u32) -> Result<(), NoMemory>
    requires within { end ≤ 65536 }
    requires begun { length ≤ end }
    ensures { OnOk result (text.new.items ≡ text.old.items ++ map.free_lines word.now (spec.run end length)) }
{
    if length == 0 {
        return Ok(());
    }
    put_line(text, word, (end - length) as u16, length)
}

/// Puts the lines of the free addresses of a range behind a text, by the addresses that pieces have.
pub(crate) fn put_free(
    text: &mut Vec<u8>,
    word: &[u8],
    range: (u16, u16),
    taken: &[bool],
    stack: StackAt,
) -> Result<(), NoMemory>
    requires rises { range.0 ≤ range.1 }
    requires stack { stack.size < 16777216 }
    ensures { OnOk result (text.new.items ≡ text.old.items ++ map.free_lines word.now (spec.free_runs (λ a. not (spec.covers stack.first stack.size a) && not (get_or taken.now a false)) (range.1 + 1 - range.0) range.0 0)) }
{
    let end = u32::from(range.1) + 1;
    let mut at = u32::from(range.0);
    let mut length = 0;
    while at < end {
        if is_free(taken, stack, at) {
            length += 1;
        } else {
            put_run(text, word, at, length)?;
            length = 0;
        }
        at += 1;
    }
    put_run(text, word, end, length)
}
