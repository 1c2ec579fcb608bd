ghost use Rattle.std.specs.Prelude.{◌≡◌, ◌<◌, drop, slice_index};
ghost use Rattle.kc_obj_fields.specs.Fields.{word_at, long_at, name_at, begins_digit, is_bad_name};

use kc_base::{after, prefix};
use kc_obj_module::names::{all_name_chars, digit, is_stack};

/// The byte at a place of a body, 0 past its end.
pub fn byte(body: &[u8], i: usize) -> u8
    ensures { result ≡ slice_index body.now i }
{
    if i < body.len() { body[i] } else { 0 }
}

/// Two bytes as a number, low byte first.
pub fn word(body: &[u8], i: usize) -> u16
    requires { i < 65536 }
    ensures { result ≡ word_at body.now i }
{
    byte(body, i) as u16 + 256 * byte(body, i + 1) as u16
}

/// Four bytes as a number, low byte first.
pub fn long(body: &[u8], i: usize) -> u32
    requires { i < 65000 }
    ensures { result ≡ long_at body.now i }
{
    word(body, i) as u32 + 65536 * word(body, i + 2) as u32
}

/// A body from a place on, nothing past its end.
pub fn without(body: &[u8], n: usize) -> &[u8]
    ensures { result.now ≡ drop n body.now }
{
    if n <= body.len() {
        after(body, n)
    } else {
        after(body, body.len())
    }
}

/// The characters of a name that are there, after its length byte.
pub fn name(body: &[u8]) -> &[u8]
    ensures { result.now ≡ name_at body.now }
{
    let len = byte(body, 0) as usize;
    let rest = without(body, 1);
    if len <= rest.len() {
        prefix(rest, len)
    } else {
        prefix(rest, rest.len())
    }
}

fn starts_with_digit(name: &[u8]) -> bool
    ensures { result ≡ begins_digit name.now }
{
    match name {
        [] => false,
        [first, ..] => digit(*first),
    }
}

/// Whether the bytes at the beginning of a body are no name; a public one may not be STACK.
pub fn bad_name(public: bool, body: &[u8]) -> bool
    ensures { result ≡ is_bad_name public body.now }
{
    let len = byte(body, 0);
    let characters = name(body);
    !(1 <= len && len <= 31)
        || starts_with_digit(characters)
        || !all_name_chars(characters)
        || public && len == 5 && is_stack(characters)
}
