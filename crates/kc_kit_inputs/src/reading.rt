// The files that options name for reading.
ghost use Rattle.std.specs.Prelude.{◌≡◌, ◌≤◌, ◌++◌, ◌∷◌, [], OnOk, IfSome, length, map};
ghost use Rattle.kc_base.specs.Limits.{file_limit};
ghost use Rattle.std.specs.Option.{option_map};
ghost use Rattle.kc_base.specs.Causes.{Rose};
ghost use Rattle.kc_kit_files.specs.Outside.{OnlyRead};
ghost use Rattle.kc_kit_files.specs.Reads.{IsRead, AllShort};
ghost use Rattle.kc_kit_words.specs.Inputs.{inputs_in};
ghost use Rattle.kc_kit_words.specs.Commands.{names_of};
ghost use Rattle.kc_kit_inputs.specs.Inputs.{input_for};
ghost use Rattle.kc_kit_inputs.specs.Inputs as spec;

use kc_base::{Files, NoMemory};
use kc_kit_files::{Refusal, read_file};
use kc_kit_words::{Inputs, Role};
use std::alloc::Global;

fn push(texts: &mut Vec<Vec<u8>>, bytes: Vec<u8>) -> Result<(), NoMemory>
    ensures { OnOk result (texts.new.items ≡ texts.old.items ++ bytes ∷ []) }
{
    texts.push(bytes)?;
    Ok(())
}

/// The bytes of the files that options name, read in this order, or the refusal of the first that cannot be read.
pub fn read_inputs<F: Files>(
    alloc: Global,
    inputs: Inputs<'_>,
    files: &mut F,
) -> Result<Vec<Vec<u8>>, Refusal>
    ensures read { IsRead (F.held files.old) (names_of (inputs_in inputs.entry)) (Rose (F.read_faults files.old) (F.read_faults files.new)) result }
    ensures stays { OnlyRead F.held F.read_faults F.write_faults files.old files.new }
{
    let mut texts = Vec::new(alloc);
    let mut left = inputs;
    while let Some((input, others)) = left.split_first() {
        match read_file(alloc, input.name, files) {
            Ok(bytes) => push(&mut texts, bytes)?,
            Err(refusal) => return Err(refusal),
        }
        left = others;
    }
    Ok(texts)
}

fn is_role(given: Role, wanted: Role) -> bool
    ensures { result ≡ spec.is_role given wanted }
{
    matches!(
        (given, wanted),
        (Role::Stimuli, Role::Stimuli)
            | (Role::Analog, Role::Analog)
            | (Role::Library, Role::Library)
            | (Role::Lines, Role::Lines)
            | (Role::Map, Role::Map)
            | (Role::Notes, Role::Notes)
    )
}

/// The name and the text of the first of these files that is there for a role; `None` where none is.
pub fn input_for<'a>(
    role: Role,
    inputs: Inputs<'a>,
    texts: &'a [Vec<u8>],
) -> Option<(&'a str, &'a [u8])>
    requires { AllShort (map (λ t. t.items) texts.now) }
    ensures input { option_map (λ i. (i.0.now, i.1.now)) result ≡ input_for role (inputs_in inputs.entry) (map (λ t. t.items) texts.now) }
    ensures short { IfSome result (λ i. length i.1.now ≤ file_limit) }
{
    let mut left = inputs;
    let mut behind = texts;
    while let [text, rest @ ..] = behind {
        let (input, others) = left.split_first()?;
        if is_role(input.role, role) {
            return Some((input.name, text.as_slice()));
        }
        left = others;
        behind = rest;
    }
    None
}
