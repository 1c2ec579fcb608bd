// The files that options name for reading.
ghost use Rattle.std.specs.Prelude.{◌≡◌};
ghost use Rattle.std.specs.Option.{option_map};
ghost use Rattle.kc_kit_words.specs.Options.{role_of};
ghost use Rattle.kc_kit_words.specs.Inputs.{first_of, input_in, inputs_in};

use crate::options::{first_option, form_of};
use crate::values::Form;

/// What a file is there for that an option names.
#[derive(Clone, Copy)]
pub enum Role {
    /// It says what drives the input pins.
    Stimuli,
    /// It says the values of the analogue inputs.
    Analog,
    /// It is the library from which modules are taken.
    Library,
    /// It is the line map of what is debugged, or of what is bounded.
    Lines,
    /// It is a linker's map, which says where public names are.
    Map,
    /// It has notes on loops, computed jumps and block moves.
    Notes,
}

/// A file that an option names for reading.
#[derive(Clone, Copy)]
pub struct Input<'a> {
    pub role: Role,
    pub name: &'a str,
}

/// The files that the options of a command name for reading, in the order of the words.
#[derive(Clone, Copy)]
pub struct Inputs<'a> {
    pub(crate) verb: &'a str,
    pub(crate) words: &'a [String],
}

/// The role of the file that an option names for reading; none where it names none.
pub(crate) fn role_of(verb: &str, option: &str) -> Option<Role>
    ensures { result ≡ role_of verb.now option.now }
{
    match form_of(verb, option) {
        Some(Form::Input(role)) => Some(role),
        _ => None,
    }
}

impl<'a> Inputs<'a> {
    /// The first of them, and the others; none where there is none.
    pub fn split_first(self) -> Option<(Input<'a>, Inputs<'a>)>
        ensures { option_map (λ r. (input_in r.0, inputs_in r.1)) result ≡ first_of (inputs_in self.entry) }
    {
        let verb = self.verb;
        let mut left = self.words;
        while let Some((option, name, rest)) = first_option(left) {
            if let Some(role) = role_of(verb, option) {
                let others = Inputs { verb, words: rest };
                return Some((Input { role, name }, others));
            }
            left = rest;
        }
        None
    }
}
