// The modules that a broken rule of the linker is about, by their files.
ghost use Rattle.std.specs.Prelude.{◌≡◌, ◌++◌, [], codes, IfOk, OnOk, if◌then◌else◌};
ghost use Rattle.std.specs.List.{list_any};
ghost use Rattle.kc_lib.specs.Names.{takes, gives};
ghost use Rattle.kc_kit_messages.specs.Origins.{words_of};
ghost use Rattle.kc_kit_messages.specs.Rules.{file_at};
ghost use Rattle.kc_kit_messages.specs.RuleDiagnostics.{stands_at, concerns, files_from, in_files};

use crate::origins::{Origins, file_at};
use kc_base::NoMemory;
use kc_link_place::LinkFault;
use kc_obj_module::{Module, Segment};
use std::alloc::Global;

// Whether a module takes this name from another one.
fn takes(name: &[u8], object: &Module) -> bool
    ensures { result ≡ takes name.now object.now }
{
    object.externals().iter().any(|t| t.name.as_slice() == name)
}

// Whether a module makes this name public.
fn gives(name: &[u8], object: &Module) -> bool
    ensures { result ≡ gives name.now object.now }
{
    object.publics().iter().any(|g| g.name.as_slice() == name)
}

// Whether an absolute piece has this address.
fn stands_at(place: u16, piece: &Segment) -> bool
    ensures { result ≡ stands_at place piece.now }
{
    match piece.at {
        None => false,
        Some(at) => at <= place && u32::from(place) < u32::from(at) + u32::from(piece.length),
    }
}

// Whether one of some pieces does.
fn stand_at(place: u16, pieces: &[Segment]) -> bool
    ensures { result ≡ list_any (stands_at place) pieces.now }
{
    pieces.iter().any(|piece| stands_at(place, piece))
}

// Whether a broken rule is about this module.
fn concerns(fault: &LinkFault, object: &Module) -> bool
    ensures { result ≡ concerns fault.now object.now }
{
    match fault {
        LinkFault::Unresolved(name) => takes(name.as_slice(), object),
        LinkFault::OverlapName(name) => gives(name.as_slice(), object),
        LinkFault::OverlapPlace(place) => stand_at(*place, object.segments()),
        _ => false,
    }
}

// Puts the file of a module, where a broken rule is about it.
fn put_file(
    alloc: Global,
    origins: &Origins<'_, '_, '_>,
    number: usize,
    is_meant: bool,
    text: &mut Vec<u8>,
) -> Result<(), NoMemory>
    ensures { OnOk result (text.new.items ≡ text.old.items ++ (if is_meant then codes " " ++ file_at (words_of origins.now) number else [])) }
{
    if is_meant {
        let file = file_at(alloc, origins, number)?;
        text.push(b' ')?;
        text.extend_from_slice(&file)?;
    }
    Ok(())
}

// The files of the modules that a broken rule is about, each behind a space.
fn files_of(
    alloc: Global,
    origins: &Origins<'_, '_, '_>,
    modules: &[Module],
    fault: &LinkFault,
) -> Result<Vec<u8>, NoMemory>
    ensures { IfOk result (λ text. text.items ≡ files_from (words_of origins.now) fault.now 0 modules.now) }
{
    let mut text = Vec::new(alloc);
    let mut number = 0;
    let mut left = modules;
    while let [object, rest @ ..] = left {
        put_file(alloc, origins, number, concerns(fault, object), &mut text)?;
        number += 1;
        left = rest;
    }
    Ok(text)
}

/// The files of the modules that a broken rule is about, in a diagnostic behind what the rule is about.
pub(crate) fn in_files(
    alloc: Global,
    origins: &Origins<'_, '_, '_>,
    modules: &[Module],
    fault: &LinkFault,
) -> Result<Vec<u8>, NoMemory>
    ensures { IfOk result (λ text. text.items ≡ in_files (words_of origins.now) fault.now modules.now) }
{
    let files = files_of(alloc, origins, modules, fault)?;
    let mut text = Vec::from_slice(alloc, b" in")?;
    text.extend_from_slice(&files)?;
    Ok(text)
}
