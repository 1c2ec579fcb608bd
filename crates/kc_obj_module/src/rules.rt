ghost use Rattle.std.specs.Prelude.{◌≡◌, ◌&&◌, true, length};
ghost use Rattle.std.specs.List.{list_all};
ghost use Rattle.kc_obj_module.specs.Names.{is_name};
ghost use Rattle.kc_obj_module.specs.Pieces.{is_placed};
ghost use Rattle.kc_obj_module.specs.Contents.{content_is_sound};
ghost use Rattle.kc_obj_module.specs.Fixups.{fixup_is_sound};
ghost use Rattle.kc_obj_module.specs.Rules.{segments_are_sound, externals_are_sound, names_piece, given_is_sound, publics_in_order, publics_are_sound, contents_are_sound, fixups_are_sound};

use crate::contents::{self, content_sound};
use crate::fixups::{self, fixup_sound, have_room};
use crate::names::{comes_below, is_stack, name_is_sound};
use crate::parts::{Content, Fixup, Given, Segment, Taken};
use crate::pieces::{self, are_kept, placed};

fn each_placed(segments: &[Segment]) -> bool
    ensures { result ≡ list_all is_placed segments.now }
{
    segments.iter().all(|s| placed(s))
}

pub(crate) fn segments_sound(segments: &[Segment], publics: &[Given], fixups: &[Fixup]) -> bool
    ensures { result ≡ segments_are_sound segments.now publics.now fixups.now }
{
    each_placed(segments) && pieces::are_in_order(segments) && are_kept(publics, fixups, segments)
}

pub(crate) fn externals_sound(externals: &[Taken]) -> bool
    ensures { result ≡ externals_are_sound externals.now }
{
    externals.iter().all(|t| name_is_sound(t.name.as_slice()))
}

fn piece_exists(count: usize, piece: Option<u16>) -> bool
    ensures { result ≡ names_piece count piece }
{
    match piece {
        None => true,
        Some(piece) => (piece as usize) < count && piece < 0xFFFF,
    }
}

fn given_sound(count: usize, given: &Given) -> bool
    ensures { result ≡ given_is_sound count given.now }
{
    let name = given.name.as_slice();
    name_is_sound(name) && !is_stack(name) && piece_exists(count, given.piece)
}

// Whether publics stand by rising name.
#[tactic(auto, unfolding(crate::specs::Rules::publics_in_order))]
fn publics_ordered(publics: &[Given]) -> bool
    ensures { result ≡ publics_in_order publics.now }
{
    let mut left = publics;
    while let [first, rest @ ..] = left {
        if let [next, ..] = rest {
            if !comes_below(first.name.as_slice(), next.name.as_slice()) {
                return false;
            }
        }
        left = rest;
    }
    true
}

fn each_given_sound(count: usize, publics: &[Given]) -> bool
    ensures { result ≡ list_all (given_is_sound count) publics.now }
{
    publics.iter().all(|g| given_sound(count, g))
}

pub(crate) fn publics_sound(count: usize, publics: &[Given]) -> bool
    ensures { result ≡ publics_are_sound count publics.now }
{
    each_given_sound(count, publics) && publics_ordered(publics)
}

fn each_content_sound(segments: &[Segment], contents: &[Content]) -> bool
    ensures { result ≡ list_all (content_is_sound segments.now) contents.now }
{
    contents.iter().all(|c| content_sound(segments, c))
}

pub(crate) fn contents_sound(segments: &[Segment], contents: &[Content]) -> bool
    ensures { result ≡ contents_are_sound segments.now contents.now }
{
    each_content_sound(segments, contents) && contents::are_in_order(contents)
}

fn each_fixup_sound(segments: &[Segment], externals: &[Taken], fixups: &[Fixup]) -> bool
    ensures { result ≡ list_all (fixup_is_sound segments.now externals.now) fixups.now }
{
    fixups.iter().all(|f| fixup_sound(segments, externals, *f))
}

pub(crate) fn fixups_sound(
    segments: &[Segment],
    externals: &[Taken],
    contents: &[Content],
    fixups: &[Fixup],
) -> bool
    requires { contents_are_sound segments.now contents.now ≡ true }
    ensures { result ≡ fixups_are_sound segments.now externals.now contents.now fixups.now }
{
    each_fixup_sound(segments, externals, fixups)
        && fixups::are_in_order(fixups)
        && have_room(contents, fixups)
}
