// The stimuli of a made input.
ghost use Rattle.std.specs.Prelude.{◌≡◌, ◌≤◌, ◌<◌, ◌+◌, ◌*◌, ◌++◌, length, IfOk, OnOk};
ghost use Rattle.kc_base.specs.Limits.{file_limit};
ghost use Rattle.kc_gen.specs.Stimuli.{edge_line, edge_lines, stimuli_text};

use crate::random::random_after;
use kc_base::{NoMemory, put_number};
use std::alloc::Global;

/// How many edges a made input has.
const EDGE_COUNT: u32 = 2000;

// The edge of a number at a state time.
fn put_edge(text: &mut Vec<u8>, at: u32, number: u32) -> Result<(), NoMemory>
    requires { at < 1000000 }
    ensures text { OnOk result (text.new.items ≡ text.old.items ++ edge_line at number) }
    ensures short { OnOk result (length text.new.items ≤ length text.old.items + 15) }
{
    text.push(b'@')?;
    put_number(text, u128::from(at))?;
    text.extend_from_slice(b" HSI0 ")?;
    text.push(if number % 2 == 0 { b'1' } else { b'0' })?;
    text.push(b'\n')?;
    Ok(())
}

/// The text of the stimuli of the made input of a number: 2,000 edges of HSI0. It is short enough to be read as a file.
pub fn stimuli(alloc: Global, number: u16) -> Result<Vec<u8>, NoMemory>
    ensures text { IfOk result (λ text. text.items ≡ stimuli_text number) }
    ensures short { IfOk result (λ text. length text.items ≤ file_limit) }
{
    let mut text = Vec::new(alloc);
    let mut value = number;
    let mut at = 100;
    for count in 0..EDGE_COUNT {
        put_edge(&mut text, at, count)?;
        at += 200 + u32::from(value % 64);
        value = random_after(value);
    }
    Ok(text)
}
