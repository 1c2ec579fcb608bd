// The public names of a linker's map.
ghost use Rattle.std.specs.Prelude.{◌≡◌, ◌≤◌, ◌++◌, [], ◌∷◌, length, IfOk, OnOk};
ghost use Rattle.std.specs.Option.{option_copied};
ghost use Rattle.kc_base.specs.Limits.{file_limit};
ghost use Rattle.kc_addresses.specs.Names as spec;
ghost use Rattle.kc_addresses.specs.Names.{entry_of, gives_name as says_a_name, gives_none as says_no_name, names_of, nearest_below, value_of_name, with_line, IsNamesRead};
ghost use Rattle.kc_addresses.specs.Lines.{IsAdded};

use crate::fault::MapFault;
use kc_base::{IMAGE_START, NoMemory, Text, after, first_line, hex_word, prefix, split_at_space};
use kc_debug_script::is_named;
use kc_obj_module::names::name_is_sound;
use std::alloc::Global;
use std::marker::Model;

/// A public name with its address or its number.
#[derive(Drop)]
pub struct Name {
    pub name: Text,
    pub value: u16,
}

/// The public names of an image, in the order of its map.
#[derive(Drop)]
pub struct Names {
    names: Vec<Name>,
}

impl Model for Names {
    ghost use Rattle.std.specs.Prelude.{List};
    ghost use Rattle.kc_addresses.specs.declared.names.Name.{Name};

    ghost Value = { List Name };

    ghost view = { λ n. n.names.items };
}

// Whether the word of a line is of a name.
fn gives_name(word: &[u8]) -> bool
    ensures { result ≡ says_a_name word.now }
{
    word == b"public".as_slice() || word == b"number".as_slice()
}

// Whether it is of something else that a map reports.
fn gives_none(word: &[u8]) -> bool
    ensures { result ≡ says_no_name word.now }
{
    word == b"piece".as_slice() || word == b"stack".as_slice() || word == b"free".as_slice()
}

// The name that stands behind the word of a line: a value, the name, and its module.
fn read_entry(alloc: Global, fields: &[u8]) -> Result<Option<Name>, NoMemory>
    ensures { IfOk result (λ entry. entry ≡ entry_of fields.now) }
{
    let (value, rest) = split_at_space(fields);
    let (name, module) = split_at_space(rest);
    match (hex_word(value), name_is_sound(name), name_is_sound(module)) {
        (Some(value), true, true) => {
            let name = Text::of(alloc, name)?;
            Ok(Some(Name { name, value }))
        }
        _ => Ok(None),
    }
}

fn push(names: &mut Vec<Name>, name: Name) -> Result<(), NoMemory>
    ensures { OnOk result (names.new.items ≡ names.old.items ++ name ∷ []) }
{
    names.push(name)?;
    Ok(())
}

// Adds what a line says; `false` where it is no line of a map.
fn add_line(alloc: Global, names: &mut Vec<Name>, line: &[u8]) -> Result<bool, NoMemory>
    ensures { IfOk result (λ is_one. IsAdded is_one (with_line names.old.items line.now) names.new.items) }
{
    let (word, fields) = split_at_space(line);
    if gives_none(word) {
        return Ok(true);
    }
    if !gives_name(word) {
        return Ok(false);
    }
    match read_entry(alloc, fields)? {
        Some(name) => {
            push(names, name)?;
            Ok(true)
        }
        None => Ok(false),
    }
}

// The nearest name so far, or one more where that is nearer.
fn nearer<'a>(best: Option<&'a Name>, name: &'a Name, addr: u16) -> Option<&'a Name>
    ensures { option_copied result ≡ spec.nearer addr (option_copied best.entry) name.now }
{
    if name.value < IMAGE_START || addr < name.value {
        return best;
    }
    match best {
        Some(other) if name.value <= other.value => best,
        _ => Some(name),
    }
}

impl Names {
    /// No names.
    pub fn none(alloc: Global) -> Names
        ensures { result ≡ [] }
    {
        Names {
            names: Vec::new(alloc),
        }
    }

    /// The public names of a linker's map of 1,048,576 bytes at most, or the number of its first line that is none of a map: one whose
    /// word is `public` or `number`, with a value of four hex digits, a name and a module behind it, or `piece`, `stack` or `free`.
    pub fn read(alloc: Global, text: &[u8]) -> Result<Names, MapFault>
        requires { length text.now ≤ file_limit }
        ensures { IsNamesRead result (names_of text.now) }
    {
        let mut names = Vec::new(alloc);
        let mut rest = text;
        let mut number = 1;
        while !rest.is_empty() {
            let (len, used) = first_line(rest);
            if !add_line(alloc, &mut names, prefix(rest, len))? {
                return Err(MapFault::BadLine(number));
            }
            number += 1;
            rest = after(rest, used);
        }
        Ok(Names { names })
    }

    /// The value of a name, whose letters may be in either case; `None` where the map has none.
    pub fn value(&self, word: &[u8]) -> Option<u16>
        ensures { result ≡ value_of_name self.now word.now }
    {
        let found = self
            .names
            .iter()
            .find(|name| is_named(name.name.as_slice(), word))?;
        Some(found.value)
    }

    /// The name in the image that stands nearest at or below an address, the first of several; `None` where there is none.
    pub fn nearest(&self, addr: u16) -> Option<&Name>
        ensures { option_copied result ≡ nearest_below addr self.now }
    {
        let names = self.names.as_slice();
        let mut nearest = None;
        for name in names {
            nearest = nearer(nearest, name, addr);
        }
        nearest
    }
}
