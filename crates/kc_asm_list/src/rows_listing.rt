//! The listing of a source.

ghost use Rattle.std.specs.Prelude.{◌≡◌, ℕ, ◌++◌, ◌+◌, ◌<◌, ◌≤◌, length, take, drop, IfOk, OnOk};
ghost use Rattle.kc_base.specs.Limits.{file_limit};
ghost use Rattle.std.specs.List.{filter, prefix_len};
ghost use Rattle.kc_base.specs.TextLines.{text_lines};
ghost use Rattle.kc_asm_list.specs.Order.{Rises};
ghost use Rattle.kc_asm_list.specs.Rows as spec;

use crate::spot::Spot;
use crate::statements::{put_all_made, put_bare, put_own};
use kc_base::{NoMemory, after, first_line, prefix};
use kc_obj_module::Module;
use std::alloc::Global;

// Puts a line with its statements behind a text.
fn put_line(
    alloc: Global,
    text: &mut Vec<u8>,
    object: &Module,
    line: u32,
    words: &[u8],
    spots: &[Spot],
) -> Result<(), NoMemory>
    ensures { OnOk result (text.new.items ≡ text.old.items ++ spec.line_text object.now line words.now spots.now) }
{
    match spots {
        [first, others @ ..] => {
            if first.depth == 0 {
                put_own(alloc, text, object, words, first)?;
                put_all_made(text, object, others)
            } else {
                put_bare(alloc, text, line, words)?;
                put_all_made(text, object, spots)
            }
        }
        [] => put_bare(alloc, text, line, words),
    }
}

fn prefix_count(spots: &[Spot], line: u32) -> usize
    ensures value { result ≡ prefix_len (spec.is_on line) spots.now }
    ensures within { result ≤ length spots.now }
{
    spots.iter().take_while(|s| s.line == line).count()
}

// How many statements at the beginning are on a line, where none before it is left.
fn count_on(spots: &[Spot], line: u32) -> usize
    requires { Rises line spots.now }
    ensures within { result ≤ length spots.now }
    ensures own { take result spots.now ≡ filter (spec.is_on line) spots.now }
    ensures later { Rises (line + 1) (drop result spots.now) }
    ensures others { (n : ℕ) → line < n → filter (spec.is_on n) (drop result spots.now) ≡ filter (spec.is_on n) spots.now }
{
    prefix_count(spots, line)
}

// The statements by rising line, those of a line in their order.
fn by_line(spots: Vec<Spot>) -> Result<Vec<Spot>, NoMemory>
    ensures rises { IfOk result (λ v. Rises 0 v.items) }
    ensures same { IfOk result (λ v. (line : ℕ) → filter (spec.is_on line) v.items ≡ filter (spec.is_on line) spots.items) }
{
    let mut sorted = spots;
    sorted.sort_by_key(|s| s.line)?;
    Ok(sorted)
}

// The listing, by statements in the order of their lines.
fn rows_of(
    alloc: Global,
    source: &[u8],
    object: &Module,
    spots: &[Spot],
) -> Result<Vec<u8>, NoMemory>
    requires short { length source.now ≤ file_limit }
    requires rises { Rises 1 spots.now }
    ensures { IfOk result (λ text. text.items ≡ spec.listing object.now source.now spots.now) }
{
    let mut text = Vec::new(alloc);
    let mut rest = source;
    let mut later = spots;
    let mut line = 1;
    while !rest.is_empty() {
        let (len, used) = first_line(rest);
        let count = count_on(later, line);
        let (own, others) = later.split_at(count);
        put_line(alloc, &mut text, object, line, prefix(rest, len), own)?;
        later = others;
        rest = after(rest, used);
        line += 1;
    }
    Ok(text)
}

/// The listing of a source of at most 1,048,576 bytes, whose module and statements are these, in the order in which they
/// come out: for each of its lines the number, and from column 42 on the text. Where the line is a statement, its place and
/// up to eight bytes stand between, further ones in rows behind; a statement that a macro, REPT or IRP makes of the line
/// stands behind it, with `+` and its depth, as `+1` or `+2`. A place is reported where the statement has a label or takes up room: the kind of its piece (`R`
/// registers, `C` code, `D` data), `'` where it counts from the base of a relocatable piece, and four hexadecimal digits. A
/// byte that a relocation fills in stands behind `*`. Bytes that lead on to an even place stand in a row before.
///
/// `NoMemory`: memory ran out. That is the only error.
pub fn rows(
    alloc: Global,
    source: &[u8],
    object: &Module,
    spots: Vec<Spot>,
) -> Result<Vec<u8>, NoMemory>
    requires { length source.now ≤ file_limit }
    ensures { IfOk result (λ text. text.items ≡ spec.listing object.now source.now spots.items) }
{
    let sorted = by_line(spots)?;
    let before = count_on(&sorted, 0);
    rows_of(alloc, source, object, sorted.split_at(before).1)
}
