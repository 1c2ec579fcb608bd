// What the types of a module's numbers say of each part. These functions do nothing when they run.
ghost use Rattle.std.specs.Prelude.{◌≡◌, ◌&&◌, true, nat_lt};
ghost use Rattle.std.specs.List.{list_all};
ghost use Rattle.std.specs.Option.{option_map};
ghost use Rattle.kc_obj_module.specs.Widths.{content_fits, fixup_fits, line_fits, lines_fit, length_fits, target_fits, value_fits};

use crate::parts::{Content, Fixup, Given, Lines, Segment, Target};

fn length(segment: &Segment)
    ensures { length_fits segment.now ≡ true }
{
    let _length = segment.length;
}

fn value(given: &Given)
    ensures { value_fits given.now ≡ true }
{
    let _value = given.value;
}

fn place(content: &Content)
    ensures { content_fits content.now ≡ true }
{
    let _piece = content.piece;
    let _offset = content.offset;
}

fn target(target: Target)
    ensures { target_fits target ≡ true }
{
    match target {
        Target::Piece(_piece) => (),
        Target::External(_external) => (),
        Target::Number => (),
    }
}

fn number(fixup: Fixup)
    ensures { fixup_fits fixup ≡ true }
{
    target(fixup.target);
}

fn entry(line: Lines)
    ensures { line_fits line ≡ true }
{}

pub(crate) fn segments(segments: &[Segment])
    ensures { list_all length_fits segments.now ≡ true }
{
    let mut left = segments;
    while let [first, rest @ ..] = left {
        length(first);
        left = rest;
    }
}

pub(crate) fn publics(publics: &[Given])
    ensures { list_all value_fits publics.now ≡ true }
{
    let mut left = publics;
    while let [first, rest @ ..] = left {
        value(first);
        left = rest;
    }
}

pub(crate) fn contents(contents: &[Content])
    ensures { list_all content_fits contents.now ≡ true }
{
    let mut left = contents;
    while let [first, rest @ ..] = left {
        place(first);
        left = rest;
    }
}

pub(crate) fn fixups(fixups: &[Fixup])
    ensures { list_all fixup_fits fixups.now ≡ true }
{
    let mut left = fixups;
    while let [first, rest @ ..] = left {
        number(*first);
        left = rest;
    }
}

fn entries(lines: &[Lines])
    ensures { list_all line_fits lines.now ≡ true }
{
    let mut left = lines;
    while let [first, rest @ ..] = left {
        entry(*first);
        left = rest;
    }
}

pub(crate) fn lines(lines: &Option<Vec<Lines>>)
    ensures { lines_fit (option_map (λ v. v.items) lines.now) ≡ true }
{
    if let Some(lines) = lines {
        entries(lines);
    }
}
