// The text of a line map.
ghost use Rattle.std.specs.Prelude.{◌≡◌, ◌++◌, IfOk, OnOk};
ghost use Rattle.kc_kit_answer.specs.Lines.{map_line, map_text};

use kc_base::{NoMemory, put_number};
use kc_link::LineAt;
use kc_trace::address_text;
use std::alloc::Global;

fn put_line(text: &mut Vec<u8>, entry: &LineAt) -> Result<(), NoMemory>
    ensures { OnOk result (text.new.items ≡ text.old.items ++ map_line entry.now) }
{
    text.extend_from_slice(address_text(entry.addr).as_slice())?;
    text.push(b' ')?;
    text.extend_from_slice(entry.name.as_slice())?;
    text.push(b' ')?;
    put_number(text, u128::from(entry.line))?;
    text.push(b'\n')?;
    Ok(())
}

/// The text of a line map: for each entry the address, the name of the module and the line.
pub(crate) fn map_text(alloc: Global, entries: &[LineAt]) -> Result<Vec<u8>, NoMemory>
    ensures { IfOk result (λ text. text.items ≡ map_text entries.now) }
{
    let mut text = Vec::new(alloc);
    for entry in entries {
        put_line(&mut text, entry)?;
    }
    Ok(text)
}
