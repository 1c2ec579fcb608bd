//! Links 1 to 64 modules, each with many names and relocations, and prints how many bytes of the image they fill:
//! `bench/run link` measures by it how the work grows with the modules.

ghost use Rattle.std.specs.Prelude.{◌≤◌, ◌<◌};

use crate::stopped::Stopped;
use kc_base::{NoMemory, Text};
use kc_link::link;
use kc_link_place::Ranges;
use kc_obj_module::{Content, Fixup, Given, Module, SegKind, Segment, Taken, Target};
use std::alloc::Global;

/// The most modules that are linked.
const MOST_MODULES: u64 = 64;

/// How many names each module gives, and how many it takes from the next one.
const NAMES: u16 = 8_000;

/// How many instructions each module has.
const LOADS: u16 = 177;

/// `LD 20H,0000H`, whose address is to be filled in.
const LOAD: [u8; 5] = [0xA3, 0x01, 0x00, 0x00, 0x20];

// The name that a module gives under a number: `P`, the module in two digits, the number in five.
fn name_of(alloc: Global, index: u32, number: u16) -> Result<Text, NoMemory> {
    let mut name = *b"P0000000";
    let mut left = u64::from(index) * 100_000 + u64::from(number);
    for place in [7, 6, 5, 4, 3, 2, 1] {
        name[place] = b'0' + (left % 10) as u8;
        left /= 10;
    }
    Text::of(alloc, &name)
}

fn given(alloc: Global, index: u32) -> Result<Vec<Given>, NoMemory> {
    let mut names = Vec::new(alloc);
    for number in 0..NAMES {
        names.push(Given {
            name: name_of(alloc, index, number)?,
            piece: None,
            value: number,
        })?;
    }
    Ok(names)
}

fn taken(alloc: Global, index: u32) -> Result<Vec<Taken>, NoMemory> {
    let mut names = Vec::new(alloc);
    for number in 0..NAMES {
        names.push(Taken {
            name: name_of(alloc, index, number)?,
            register: false,
        })?;
    }
    Ok(names)
}

fn loads(alloc: Global) -> Result<Vec<Content>, NoMemory> {
    let mut bytes = Vec::new(alloc);
    for _ in 0..LOADS {
        bytes.extend_from_slice(&LOAD)?;
    }
    let mut contents = Vec::new(alloc);
    contents.push(Content {
        piece: 0,
        offset: 0,
        bytes: Text::from_vec(bytes),
    })?;
    Ok(contents)
}

fn addresses(alloc: Global) -> Result<Vec<Fixup>, NoMemory> {
    let mut fixups = Vec::new(alloc);
    for number in 0..LOADS {
        fixups.push(Fixup {
            piece: 0,
            offset: number * 5 + 2,
            kind: 0,
            target: Target::External(number * 40),
            addend: number,
        })?;
    }
    Ok(fixups)
}

// The module with a number, of so many: it takes the names of the next one, the last one those of the first.
fn module_at(alloc: Global, index: u32, count: u32) -> Result<Option<Module>, NoMemory>
    requires { index < 64 }
{
    let next = if index + 1 < count { index + 1 } else { 0 };
    let mut segments = Vec::new(alloc);
    segments.push(Segment {
        kind: SegKind::Code,
        at: None,
        length: LOADS * 5,
    })?;
    Ok(Module::new(
        name_of(alloc, index, 0)?,
        segments,
        taken(alloc, next)?,
        given(alloc, index)?,
        loads(alloc)?,
        addresses(alloc)?,
        None,
    ))
}

fn modules(alloc: Global, count: u32) -> Result<Vec<Module>, NoMemory>
    requires { count ≤ 64 }
{
    let mut modules = Vec::new(alloc);
    for index in 0..count {
        if let Some(sound) = module_at(alloc, index, count)? {
            modules.push(sound)?;
        }
    }
    Ok(modules)
}

// How many bytes of the image so many modules fill, where they can be linked.
fn filled(alloc: Global, count: u32) -> Option<usize>
    requires { count ≤ 64 }
{
    let modules = modules(alloc, count).ok()?;
    let ranges = Ranges {
        code: (0x2080, 0xFFFF),
        ..Ranges::new()
    };
    if modules.is_empty() || modules.len() > 64 || !ranges.are_within_bounds() {
        return None;
    }
    let image = link(alloc, &modules, &ranges).ok()?;
    Some(
        image
            .as_slice()
            .iter()
            .filter(|byte| **byte != 0xFF)
            .count(),
    )
}

/// Links so many modules, at most MOST_MODULES, and prints how many bytes of the image they fill.
pub fn run(rt: &HostRuntime, count: u64) -> Result<(), Stopped> {
    let Some(filled) = filled(rt.alloc(), count.min(MOST_MODULES) as u32) else {
        return Err(Stopped::NoMemory);
    };
    println!(rt; "{filled}")?;
    Ok(())
}
