ghost use Rattle.std.specs.Prelude.{IfOk};
ghost use Rattle.kc_asm_section.specs.UnlinkedModules.{IsUnlinkedModule};
ghost use Rattle.kc_asm_section.specs.ModuleOf.{IsModuleOf};

use crate::gather::gather;
use crate::kept::kept_of;
use crate::publics::publics_of;
use crate::runs::{contents_of, fixups_of};
use crate::unlinked::UnlinkedModule;
use kc_base::NoMemory;
use kc_obj_module::Module;
use std::alloc::Global;

/// The module that the unlinked module of a source without fault is. Its pieces are the relocatable parts that are nonempty or
/// named, by kind, then the stack where it has bytes, then the absolute parts. It has line entries. The work grows with the
/// relocatable bytes, the marks and the parts, and with the number of public names times its logarithm.
pub fn module_of(alloc: Global, unlinked: UnlinkedModule) -> Result<Module, NoMemory>
    requires { IsUnlinkedModule unlinked }
    ensures { IfOk result (λ m. IsModuleOf unlinked m) }
{
    let UnlinkedModule {
        name,
        parts,
        stack,
        externals,
        publics,
    } = unlinked;
    let kept = kept_of(&parts, &publics);
    let gathered = gather(alloc, kept, &parts, stack)?;
    let contents = contents_of(alloc, gathered.puts())?;
    let fixups = fixups_of(alloc, gathered.puts())?;
    let givens = publics_of(alloc, kept, publics)?;
    let (segments, lines) = gathered.into_lists();
    let module = Module::new(
        name,
        segments,
        externals,
        givens,
        contents,
        fixups,
        Some(lines),
    );
    Ok(module.unwrap())
}
