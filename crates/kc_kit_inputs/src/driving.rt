// What drives the inputs of a board that is run: its pins, and its analogue inputs.
ghost use Rattle.std.specs.Prelude.{◌≡◌, Ok, Err, IfOk, IfErr, map};
ghost use Rattle.kc_kit_files.specs.Reads.{AllShort};
ghost use Rattle.kc_kit_files.specs.Response.{IsRefused};
ghost use Rattle.kc_kit_words.specs.Inputs.{inputs_in};
ghost use Rattle.kc_kit_inputs.specs.Driving.{driving_of, given_for as given_by, given_in, AreShort};

use crate::analog::values_in;
use crate::reading::input_for;
use crate::stimuli::stimuli_in;
use kc_convert::Analog;
use kc_kit_files::Refusal;
use kc_kit_words::{Inputs, Role};
use kc_stim::Stimuli;
use std::alloc::Global;

/// The files that say what drives the inputs, each by its name and its text where there is one.
#[derive(Clone, Copy)]
pub struct Given<'a> {
    pub stimuli: Option<(&'a str, &'a [u8])>,
    pub analog: Option<(&'a str, &'a [u8])>,
}

/// What drives the inputs: the stimuli of the pins, and the values of the analogue inputs.
#[derive(Drop)]
pub struct Driving {
    pub stimuli: Stimuli,
    pub values: Analog,
}

/// The files among these inputs that say what drives the inputs of a board.
pub fn given_for<'a>(inputs: Inputs<'a>, texts: &'a [Vec<u8>]) -> Given<'a>
    requires { AllShort (map (λ t. t.items) texts.now) }
    ensures given { given_in result ≡ given_by (inputs_in inputs.entry) (map (λ t. t.items) texts.now) }
    ensures short { AreShort result }
{
    Given {
        stimuli: input_for(Role::Stimuli, inputs, texts),
        analog: input_for(Role::Analog, inputs, texts),
    }
}

/// What drives the inputs of a run, or the refusal of the first fault: the stimuli are checked before the analogue file.
pub fn driving_in(alloc: Global, given: Given<'_>) -> Result<Driving, Refusal>
    requires { AreShort given }
    ensures driving { IfOk result (λ driving. driving_of (given_in given.entry) ≡ Ok driving) }
    ensures refusal { IfErr result (IsRefused (λ response. driving_of (given_in given.entry) ≡ Err response)) }
{
    let stimuli = match stimuli_in(alloc, given.stimuli) {
        Ok(stimuli) => stimuli,
        Err(refusal) => return Err(refusal),
    };
    match values_in(alloc, given.analog) {
        Ok(values) => Ok(Driving { stimuli, values }),
        Err(refusal) => Err(refusal),
    }
}
