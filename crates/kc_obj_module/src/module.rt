ghost use Rattle.std.specs.Prelude.{◌≡◌, true, length};
ghost use Rattle.std.specs.Option.{option_map, option_copied};
ghost use Rattle.kc_obj_module.specs.Object.{object_of};
ghost use Rattle.kc_obj_module.specs.Rules.{checked, is_module};
ghost use Rattle.kc_obj_module.specs.Widths.{numbers_fit};

use crate::line_entries::lines_sound;
use crate::names::name_is_sound;
use crate::parts::{Content, Fixup, Given, Lines, Segment, Taken};
use crate::rules::{contents_sound, externals_sound, fixups_sound, publics_sound, segments_sound};
use crate::widths;
use kc_base::Text;
use std::marker::Model;

/// An object module that keeps the rules of the format, and whose numbers fit the fields of its object. It has line entries
/// in version 2 of the format, and none in version 1.
#[derive(Drop)]
pub struct Module {
    name: Text,
    segments: Vec<Segment>,
    externals: Vec<Taken>,
    publics: Vec<Given>,
    contents: Vec<Content>,
    fixups: Vec<Fixup>,
    lines: Option<Vec<Lines>>,
}

impl Model for Module {
    ghost use Rattle.std.specs.Option.{option_map, option_copied};
    ghost use Rattle.kc_obj_module.specs.Object.{Object, object_of};
    ghost use Rattle.kc_obj_module.specs.Rules.{IsSound};

    ghost Value = { Object };

    ghost invariant = { λ m. IsSound (object_of m.name m.segments.items m.externals.items m.publics.items m.contents.items m.fixups.items (option_map (λ v. v.items) m.lines)) };

    ghost view = { λ m. object_of m.name m.segments.items m.externals.items m.publics.items m.contents.items m.fixups.items (option_map (λ v. v.items) m.lines) };
}

impl Module {
    /// The module of these values, or none exactly where they break a rule of the format. It takes no memory.
    pub fn new(
        name: Text,
        segments: Vec<Segment>,
        externals: Vec<Taken>,
        publics: Vec<Given>,
        contents: Vec<Content>,
        fixups: Vec<Fixup>,
        lines: Option<Vec<Lines>>,
    ) -> Option<Module>
        ensures { result ≡ checked (object_of name segments.items externals.items publics.items contents.items fixups.items (option_map (λ v. v.items) lines)) }
    {
        let pieces = segments.as_slice();
        let sound = name_is_sound(name.as_slice())
            && segments_sound(pieces, &publics, &fixups)
            && externals_sound(&externals)
            && publics_sound(pieces.len(), &publics)
            && contents_sound(pieces, &contents)
            && fixups_sound(pieces, &externals, &contents, &fixups)
            && match &lines {
                None => true,
                Some(entries) => lines_sound(pieces, entries),
            };
        widths::segments(pieces);
        widths::publics(&publics);
        widths::contents(&contents);
        widths::fixups(&fixups);
        widths::lines(&lines);
        if sound {
            Some(Module {
                name,
                segments,
                externals,
                publics,
                contents,
                fixups,
                lines,
            })
        } else {
            None
        }
    }

    /// The name.
    pub fn name(&self) -> &Text
        ensures { result.now ≡ self.now.name }
    {
        &self.name
    }

    /// The pieces, relocatable ones first.
    pub fn segments(&self) -> &[Segment]
        ensures { result.now ≡ self.now.segments }
    {
        self.segments.as_slice()
    }

    /// The names that it takes, in the order of their declaration.
    pub fn externals(&self) -> &[Taken]
        ensures { result.now ≡ self.now.externals }
    {
        self.externals.as_slice()
    }

    /// The names that it gives, by rising name.
    pub fn publics(&self) -> &[Given]
        ensures { result.now ≡ self.now.publics }
    {
        self.publics.as_slice()
    }

    /// The runs of its bytes, by rising place.
    pub fn contents(&self) -> &[Content]
        ensures { result.now ≡ self.now.contents }
    {
        self.contents.as_slice()
    }

    /// The relocations, by rising place.
    pub fn fixups(&self) -> &[Fixup]
        ensures { result.now ≡ self.now.fixups }
    {
        self.fixups.as_slice()
    }

    /// The line entries, by rising place, if it has such.
    pub fn lines(&self) -> Option<&[Lines]>
        ensures { option_copied result ≡ self.now.lines }
    {
        match &self.lines {
            None => None,
            Some(lines) => Some(lines.as_slice()),
        }
    }

    /// Each module keeps the rules of the format. It does nothing when it runs.
    pub fn keeps_rules(&self)
        ensures { is_module self.now ≡ true }
    {
        let _ = &self.name;
    }

    /// The numbers of each module fit the fields of its object. It does nothing when it runs.
    pub fn has_room(&self)
        ensures { numbers_fit self.now ≡ true }
    {
        let _ = &self.name;
    }
}
