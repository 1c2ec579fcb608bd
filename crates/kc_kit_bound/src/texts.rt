// What stands in many lines.
ghost use Rattle.std.specs.Prelude.{◌≡◌, ◌++◌, OnOk};
ghost use Rattle.kc_kit_bound.specs.Texts as spec;

use kc_base::{NoMemory, put_address, put_number};

/// Puts an address behind a blank.
pub(crate) fn put_at(text: &mut Vec<u8>, at: u16) -> Result<(), NoMemory>
    ensures { OnOk result (text.new.items ≡ text.old.items ++ spec.at_text at) }
{
    text.push(b' ')?;
    put_address(text, at)?;
    Ok(())
}

/// Puts the line of a word, an address and a number of states.
pub(crate) fn put_states(
    text: &mut Vec<u8>,
    word: &str,
    at: u16,
    states: u128,
) -> Result<(), NoMemory>
    ensures { OnOk result (text.new.items ≡ text.old.items ++ spec.states_line word.now at states) }
{
    text.extend_from_slice(word.as_bytes())?;
    put_at(text, at)?;
    text.push(b' ')?;
    put_number(text, states)?;
    text.push(b'\n')?;
    Ok(())
}
