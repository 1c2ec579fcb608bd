// What is printed of a meaning.
ghost use Rattle.std.specs.Prelude.{◌≡◌, ◌++◌, IfOk, OnOk};
ghost use Rattle.std.specs.Option.{option_map};
ghost use Rattle.kc_kit_messages.specs.Meanings.{said};
ghost use Rattle.kc_kit_messages.specs.Text.{example_text, meaning_text};

use crate::meaning::{Example, Meaning};
use kc_base::NoMemory;
use kc_kit_files::put_text;
use std::alloc::Global;

fn put_example(text: &mut Vec<u8>, example: &Option<Example>) -> Result<(), NoMemory>
    ensures { OnOk result (text.new.items ≡ text.old.items ++ example_text (option_map (λ e. (e.wrong.now, e.right.now)) example.now)) }
{
    let Some(example) = example else {
        return Ok(());
    };
    put_text(text, "wrong:\n")?;
    put_text(text, example.wrong)?;
    put_text(text, "\nright:\n")?;
    put_text(text, example.right)?;
    put_text(text, "\n")
}

/// What is printed of a meaning: its code and its sentence in a line, and where it has an example, the line `wrong:` with the
/// wrong lines behind it, and the line `right:` with the right ones.
pub fn meaning_text(alloc: Global, row: &Meaning) -> Result<Vec<u8>, NoMemory>
    ensures { IfOk result (λ text. text.items ≡ meaning_text (said row.now)) }
{
    let mut text = Vec::new(alloc);
    put_text(&mut text, row.code)?;
    put_text(&mut text, ": ")?;
    put_text(&mut text, row.sentence)?;
    put_text(&mut text, ".\n")?;
    put_example(&mut text, &row.example)?;
    Ok(text)
}
