// Modules copied.
ghost use Rattle.std.specs.Prelude.{◌≡◌, IfOk, List};
ghost use Rattle.std.specs.Option.{option_map, option_copied};

use kc_base::{NoMemory, Text};
use kc_obj_module::{Content, Given, Lines, Module, Taken};
use std::alloc::Global;

fn externals_of(alloc: Global, externals: &[Taken]) -> Result<Vec<Taken>, NoMemory>
    ensures { IfOk result (λ v. v.items ≡ externals.now) }
{
    let mut copies = Vec::new(alloc);
    for taken in externals {
        let name = Text::of(alloc, taken.name.as_slice())?;
        let register = taken.register;
        copies.push(Taken { name, register })?;
    }
    Ok(copies)
}

fn publics_of(alloc: Global, publics: &[Given]) -> Result<Vec<Given>, NoMemory>
    ensures { IfOk result (λ v. v.items ≡ publics.now) }
{
    let mut copies = Vec::new(alloc);
    for given in publics {
        let name = Text::of(alloc, given.name.as_slice())?;
        let (piece, value) = (given.piece, given.value);
        copies.push(Given { name, piece, value })?;
    }
    Ok(copies)
}

fn contents_of(alloc: Global, contents: &[Content]) -> Result<Vec<Content>, NoMemory>
    ensures { IfOk result (λ v. v.items ≡ contents.now) }
{
    let mut copies = Vec::new(alloc);
    for run in contents {
        let bytes = Text::of(alloc, run.bytes.as_slice())?;
        let (piece, offset) = (run.piece, run.offset);
        copies.push(Content {
            piece,
            offset,
            bytes,
        })?;
    }
    Ok(copies)
}

fn lines_of(alloc: Global, lines: Option<&[Lines]>) -> Result<Option<Vec<Lines>>, NoMemory>
    ensures { IfOk result (λ v. option_map (λ w. w.items) v ≡ option_copied lines.entry) }
{
    match lines {
        None => Ok(None),
        Some(lines) => Ok(Some(Vec::from_slice(alloc, lines)?)),
    }
}

/// A module with the same parts.
pub(crate) fn copy_of(alloc: Global, module: &Module) -> Result<Module, NoMemory>
    ensures { IfOk result (λ m. m ≡ «module».now) }
{
    let name = Text::of(alloc, module.name().as_slice())?;
    let segments = Vec::from_slice(alloc, module.segments())?;
    let externals = externals_of(alloc, module.externals())?;
    let publics = publics_of(alloc, module.publics())?;
    let contents = contents_of(alloc, module.contents())?;
    let fixups = Vec::from_slice(alloc, module.fixups())?;
    let lines = lines_of(alloc, module.lines())?;
    module.keeps_rules();
    let copy = Module::new(name, segments, externals, publics, contents, fixups, lines);
    Ok(copy.unwrap())
}
