// The files of modules that are linked.
ghost use Rattle.std.specs.Prelude.{◌≡◌, ◌++◌, IfOk};
ghost use Rattle.kc_kit_messages.specs.Origins.{words_of_members, words_of};
ghost use Rattle.kc_kit_messages.specs.Rules.{file_at};

use kc_base::NoMemory;
use kc_obj_module::Module;
use std::alloc::Global;

/// A text, and another behind it.
pub(crate) fn joined(alloc: Global, before: &[u8], after: &[u8]) -> Result<Vec<u8>, NoMemory>
    ensures { IfOk result (λ text. text.items ≡ before.now ++ after.now) }
{
    let mut text = Vec::from_slice(alloc, before)?;
    text.extend_from_slice(after)?;
    Ok(text)
}

/// Members that are taken from a library of this name.
#[derive(Clone, Copy)]
pub struct Members<'l, 't> {
    pub library: &'l str,
    pub taken: &'t [Module],
}

/// Where modules come from that are linked: their files in order, and behind them members of a library.
#[derive(Clone, Copy)]
pub struct Origins<'f, 'l, 't> {
    pub files: &'f [String],
    pub members: Option<Members<'l, 't>>,
}

// The word that names a taken member: that of its library, a colon, and its own.
fn member_at(
    alloc: Global,
    members: Option<Members<'_, '_>>,
    index: usize,
) -> Result<Vec<u8>, NoMemory>
    ensures { IfOk result (λ text. text.items ≡ file_at (words_of_members members.entry) index) }
{
    let Some(members) = members else {
        return Ok(Vec::from_slice(alloc, b"-")?);
    };
    match members.taken.get(index) {
        Some(taken) => {
            let mut text = joined(alloc, members.library.as_bytes(), b":")?;
            text.extend_from_slice(taken.name().as_slice())?;
            Ok(text)
        }
        None => Ok(Vec::from_slice(alloc, b"-")?),
    }
}

/// The word that names a module's file; that of the one stack of all modules is `-`.
pub(crate) fn file_at(
    alloc: Global,
    origins: &Origins<'_, '_, '_>,
    index: usize,
) -> Result<Vec<u8>, NoMemory>
    ensures { IfOk result (λ text. text.items ≡ file_at (words_of origins.now) index) }
{
    if index < origins.files.len() {
        Ok(Vec::from_slice(alloc, origins.files[index].as_bytes())?)
    } else {
        member_at(alloc, origins.members, index - origins.files.len())
    }
}
