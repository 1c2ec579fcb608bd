// The lines of broken rules of the linker.
ghost use Rattle.std.specs.Prelude.{◌≡◌, ◌<◌, ◌++◌, codes, decimal, IfOk, IsErr};
ghost use Rattle.kc_kit_files.specs.declared.status.Status.TheVariants as status;
ghost use Rattle.kc_kit_files.specs.Response.{reports, IsRefused};
ghost use Rattle.kc_kit_messages.specs.Rules.{link_text, link_line};
ghost use Rattle.kc_kit_messages.specs.RuleDiagnostics.{link_diagnostic};
ghost use Rattle.kc_kit_messages.specs.Origins.{words_of};

use crate::origins::{Origins, file_at, joined};
use crate::rule_diagnostics::link_diagnostic;
use kc_base::{NoMemory, address_text, put_number};
use kc_kit_files::{Cause, Refusal, refusal_of};
use kc_link::kind_word;
use kc_link_place::LinkFault;
use kc_obj_module::Module;
use std::alloc::Global;

fn capacity_text(alloc: Global, kind: &[u8], file: &[u8]) -> Result<Vec<u8>, NoMemory>
    ensures { IfOk result (λ text. text.items ≡ codes "capacity " ++ kind.now ++ codes " " ++ file.now) }
{
    let mut text = joined(alloc, b"capacity ", kind)?;
    text.push(b' ')?;
    text.extend_from_slice(file)?;
    Ok(text)
}

/// The number of a piece, and an offset in it.
pub(crate) fn place_text(alloc: Global, piece: u16, offset: u16) -> Result<Vec<u8>, NoMemory>
    ensures { IfOk result (λ text. text.items ≡ decimal piece ++ codes " " ++ decimal offset) }
{
    let mut text = Vec::new(alloc);
    put_number(&mut text, u128::from(piece))?;
    text.push(b' ')?;
    put_number(&mut text, u128::from(offset))?;
    Ok(text)
}

fn range_text(alloc: Global, file: &[u8], piece: u16, offset: u16) -> Result<Vec<u8>, NoMemory>
    ensures { IfOk result (λ text. text.items ≡ codes "range " ++ file.now ++ codes " " ++ decimal piece ++ codes " " ++ decimal offset) }
{
    let mut text = joined(alloc, b"range ", file)?;
    let place = place_text(alloc, piece, offset)?;
    text.push(b' ')?;
    text.extend_from_slice(&place)?;
    Ok(text)
}

// A broken rule in words, where memory was not the matter.
fn link_text(
    alloc: Global,
    origins: &Origins<'_, '_, '_>,
    fault: &LinkFault,
) -> Result<Vec<u8>, NoMemory>
    ensures text { IfOk result (λ text. text.items ≡ link_text (words_of origins.now) fault.now) }
    ensures memory { fault.now ≡ LinkFault.NoMemory → IsErr result }
{
    match fault {
        LinkFault::Unresolved(name) => joined(alloc, b"unresolved ", name.as_slice()),
        LinkFault::OverlapName(name) => joined(alloc, b"duplicate ", name.as_slice()),
        LinkFault::OverlapPlace(place) => {
            joined(alloc, b"overlap ", address_text(*place).as_slice())
        }
        LinkFault::Capacity { kind, module } => {
            let file = file_at(alloc, origins, usize::from(*module))?;
            capacity_text(alloc, kind_word(*kind), &file)
        }
        LinkFault::Range {
            module,
            piece,
            offset,
        } => {
            let file = file_at(alloc, origins, usize::from(*module))?;
            range_text(alloc, &file, *piece, *offset)
        }
        LinkFault::NoMemory => Err(NoMemory),
    }
}

/// The refusal of modules from these files that break a rule of the linker.
pub fn link_refusal(
    alloc: Global,
    origins: &Origins<'_, '_, '_>,
    modules: &[Module],
    fault: &LinkFault,
) -> Refusal
    ensures line { IsRefused (λ response. response ≡ reports status.Link (link_line (words_of origins.now) fault.now) (link_diagnostic (words_of origins.now) modules.now fault.now)) result }
    ensures memory { fault.now ≡ LinkFault.NoMemory → result ≡ Refusal.NoMemory }
{
    let Ok(text) = link_text(alloc, origins, fault) else {
        return Refusal::NoMemory;
    };
    match link_diagnostic(alloc, origins, modules, fault) {
        Ok(diagnostic) => refusal_of(alloc, Cause::Link, b"link ", &text, b"\n", diagnostic),
        Err(NoMemory) => Refusal::NoMemory,
    }
}
