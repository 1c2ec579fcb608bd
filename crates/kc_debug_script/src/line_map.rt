ghost use Rattle.std.specs.Prelude.{◌≡◌, ◌≤◌, ◌++◌, [], ◌∷◌, length, IfOk, IfSome, OnOk};
ghost use Rattle.kc_base.specs.Limits.{file_limit};
ghost use Rattle.std.specs.Char.{is_ascii_lowercase};
ghost use Rattle.std.specs.List.{list_any};
ghost use Rattle.std.specs.Option.{option_copied};
ghost use Rattle.kc_debug_script.specs.LineMap.{map_address as address_in_map, is_below as comes_above, may_come as is_next, entry_after, entry_of, map_of, address_of, entry_at, IsMapRead, IsOrdered};

use crate::fault::DebugFault;
use crate::fields::{is_named, number};
use kc_base::{IMAGE_START, NoMemory, Text, after, first_line, hex_word, prefix, split_at_space};
use kc_obj_module::names::name_is_sound;
use std::alloc::Global;
use std::marker::Model;

/// The greatest number of a line.
const LINE_LIMIT: u64 = 4_294_967_295;

/// The bytes at this address come from this line of the source of the module with this name.
#[derive(Drop)]
pub struct MapEntry {
    pub addr: u16,
    pub name: Text,
    pub line: u32,
}

/// A map from addresses to lines of sources, by rising address.
#[derive(Drop)]
pub struct LineMap {
    entries: Vec<MapEntry>,
}

impl Model for LineMap {
    ghost use Rattle.std.specs.Prelude.{List};
    ghost use Rattle.kc_debug_script.specs.declared.line_map.MapEntry.{MapEntry};
    ghost use Rattle.kc_debug_script.specs.LineMap.{IsOrdered};

    ghost Value = { List MapEntry };

    ghost view = { λ m. m.entries.items };

    ghost invariant = { λ m. IsOrdered m.entries.items };
}

fn has_lower_case(text: &[u8]) -> bool
    ensures { result ≡ list_any is_ascii_lowercase text.now }
{
    text.iter().any(|c| c.is_ascii_lowercase())
}

// An address in upper-case digits.
fn map_address(text: &[u8]) -> Option<u16>
    ensures { result ≡ address_in_map text.now }
{
    if has_lower_case(text) {
        None
    } else {
        hex_word(text)
    }
}

// The entry of a line, if it is one.
fn read_entry(alloc: Global, text: &[u8]) -> Result<Option<MapEntry>, NoMemory>
    ensures { IfOk result (λ entry. entry ≡ entry_of text.now) }
{
    let (first, rest) = split_at_space(text);
    let (second, third) = split_at_space(rest);
    match (
        map_address(first),
        name_is_sound(second),
        number(third, LINE_LIMIT),
    ) {
        (Some(addr), true, Some(line)) => {
            let name = Text::of(alloc, second)?;
            Ok(Some(MapEntry {
                addr,
                name,
                line: line as u32,
            }))
        }
        _ => Ok(None),
    }
}

fn is_below(addr: u16, last: Option<&MapEntry>) -> bool
    ensures { result ≡ comes_above addr (option_copied last.entry) }
{
    match last {
        Some(entry) => entry.addr < addr,
        None => true,
    }
}

// Whether an entry may come behind these entries.
fn may_come(before: &[MapEntry], entry: &MapEntry) -> bool
    ensures { result ≡ is_next before.now entry.now }
{
    IMAGE_START <= entry.addr && is_below(entry.addr, before.last())
}

// The entry of a line behind these entries.
#[tactic(auto, using(crate::proofs::Orders::ordered_push))]
fn next_entry(alloc: Global, before: &[MapEntry], text: &[u8]) -> Result<Option<MapEntry>, NoMemory>
    requires { IsOrdered before.now }
    ensures value { IfOk result (λ entry. entry ≡ entry_after before.now text.now) }
    ensures ordered { IfOk result (λ entry. IfSome entry (λ e. IsOrdered (before.now ++ e ∷ []))) }
{
    match read_entry(alloc, text)? {
        Some(entry) => {
            if may_come(before, &entry) {
                Ok(Some(entry))
            } else {
                Ok(None)
            }
        }
        None => Ok(None),
    }
}

fn push(entries: &mut Vec<MapEntry>, entry: MapEntry) -> Result<(), NoMemory>
    ensures { OnOk result (entries.new.items ≡ entries.old.items ++ entry ∷ []) }
{
    entries.push(entry)?;
    Ok(())
}

impl LineMap {
    /// A map without entries.
    pub fn none(alloc: Global) -> LineMap
        ensures { result ≡ [] }
    {
        LineMap {
            entries: Vec::new(alloc),
        }
    }

    /// The entries of a line map of 1,048,576 bytes at most, or the number of its first line that is none: an address of 2000H or
    /// above in four upper-case hex digits, above that of the line before, the name of a module, and a line, 1 to 4,294,967,295.
    pub fn read(alloc: Global, bytes: &[u8]) -> Result<LineMap, DebugFault>
        requires { length bytes.now ≤ file_limit }
        ensures { IsMapRead result (map_of bytes.now) }
    {
        let mut entries = Vec::new(alloc);
        let mut rest = bytes;
        while !rest.is_empty() {
            let (len, used) = first_line(rest);
            match next_entry(alloc, entries.as_slice(), prefix(rest, len))? {
                Some(entry) => push(&mut entries, entry)?,
                None => return Err(DebugFault::BadMap(entries.len() as u32 + 1)),
            }
            rest = after(rest, used);
        }
        Ok(LineMap { entries })
    }

    /// The first address of a line of a module, whose name may be in letters of either case; `None` where the map has none.
    pub fn address_of(&self, name: &[u8], line: u32) -> Option<u16>
        ensures { result ≡ address_of self.now name.now line }
    {
        let entry = self.entries.iter().find(|entry| entry.line == line
            && is_named(entry.name.as_slice(), name))?;
        Some(entry.addr)
    }

    /// The entry of an address; `None` where the map has none.
    pub fn find(&self, addr: u16) -> Option<&MapEntry>
        ensures { option_copied result ≡ entry_at self.now addr }
    {
        let entries = self.entries.as_slice();
        let first = entries.partition_point(|entry| entry.addr < addr);
        if first < entries.len() && entries[first].addr == addr {
            Some(&entries[first])
        } else {
            None
        }
    }
}
