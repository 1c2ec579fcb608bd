// The command that runs the input that is made from a number.
ghost use Rattle.std.specs.Prelude.{◌≡◌, ◌≤◌, IfOk, length, map, string_bytes};
ghost use Rattle.kc_base.specs.Limits.{file_limit};
ghost use Rattle.kc_gen.specs.Stimuli.{stimuli_text};
ghost use Rattle.kc_kit_files.specs.Reads.{AllShort};
ghost use Rattle.kc_kit_inputs.specs.FaultDiagnostics.{IsFaultDiagnostic};
ghost use Rattle.kc_kit_answer.specs.Generate.{made_names, made_texts, GenerateAnswer};
ghost use Rattle.kc_kit_answer.specs.Jobs.{IsPrepared};

use crate::board::board_of_sources;
use crate::job::Job;
use kc_base::NoMemory;
use kc_kit_files::Refusal;
use kc_kit_inputs::Given;
use kc_kit_words::Ranges;
use std::alloc::Global;

/// What is made from a number: sources with their names, and stimuli.
#[derive(Drop)]
struct Made {
    names: Vec<String>,
    texts: Vec<Vec<u8>>,
    stimuli: Vec<u8>,
}

fn names(alloc: Global) -> Result<Vec<String>, NoMemory>
    ensures { IfOk result (λ names. map string_bytes names.items ≡ made_names) }
{
    let first = String::from_str(alloc, "gen0")?;
    let second = String::from_str(alloc, "gen1")?;
    let third = String::from_str(alloc, "gen2")?;
    Ok(vec![in alloc; first, second, third]?)
}

fn texts(alloc: Global, number: u16) -> Result<Vec<Vec<u8>>, NoMemory>
    ensures texts { IfOk result (λ texts. map (λ t. t.items) texts.items ≡ made_texts number) }
    ensures count { IfOk result (λ texts. length texts.items ≡ 3) }
    ensures short { IfOk result (λ texts. AllShort (map (λ t. t.items) texts.items)) }
{
    let main = kc_gen::program(alloc, number, 0)?;
    let crank = kc_gen::program(alloc, number, 1)?;
    let log = kc_gen::program(alloc, number, 2)?;
    Ok(vec![in alloc; main, crank, log]?)
}

// What is made from a number.
fn make_input(alloc: Global, number: u16) -> Result<Made, NoMemory>
    ensures names { IfOk result (λ made. map string_bytes made.names.items ≡ made_names) }
    ensures texts { IfOk result (λ made. map (λ t. t.items) made.texts.items ≡ made_texts number) }
    ensures count { IfOk result (λ made. length made.texts.items ≡ 3) }
    ensures short { IfOk result (λ made. AllShort (map (λ t. t.items) made.texts.items)) }
    ensures stimuli { IfOk result (λ made. made.stimuli.items ≡ stimuli_text number) }
    ensures short_stimuli { IfOk result (λ made. length made.stimuli.items ≤ file_limit) }
{
    Ok(Made {
        names: names(alloc)?,
        texts: texts(alloc, number)?,
        stimuli: kc_gen::stimuli(alloc, number)?,
    })
}

/// Makes the input of a number, and assembles and links the image that is to be run.
pub fn prepare_generate<'a>(alloc: Global, number: u16) -> Result<Job<'a>, Refusal>
    ensures { IsPrepared (GenerateAnswer IsFaultDiagnostic number) result }
{
    let Ok(made) = make_input(alloc, number) else {
        return Err(Refusal::NoMemory);
    };
    let given = Given {
        stimuli: Some(("gens", made.stimuli.as_slice())),
        analog: None,
    };
    match board_of_sources(alloc, &made.names, &made.texts, &Ranges::new(), given) {
        Ok(board) => Ok(Job::Count { board, number }),
        Err(refusal) => Err(refusal),
    }
}
