use crate::extent::Extent;
use crate::inputs::Inputs;
use kc_link_place::Ranges;

/// A run of 1 to 64 sources.
#[derive(Clone, Copy)]
pub struct Run<'a> {
    pub files: &'a [String],
    pub inputs: Inputs<'a>,
    pub extent: Extent,
    pub placing: Ranges,
}

/// The files that are written behind a run, where they are asked for: a profile, and which lines of the sources have run.
#[derive(Clone, Copy)]
pub struct Behind<'a> {
    pub profile: Option<&'a str>,
    pub cover: Option<&'a str>,
}

/// A run of 1 to 64 sources behind which at least one of these files is written.
#[derive(Clone, Copy)]
pub struct Profile<'a> {
    pub files: &'a [String],
    pub inputs: Inputs<'a>,
    pub extent: Extent,
    pub placing: Ranges,
    pub behind: Behind<'a>,
}

/// A source that is assembled to an object, and where it is asked for the listing that is written beside it.
#[derive(Clone, Copy)]
pub struct Assemble<'a> {
    pub file: &'a str,
    pub out: &'a str,
    pub list: Option<&'a str>,
}

/// 1 to 64 objects that are packed into a library.
#[derive(Clone, Copy)]
pub struct Pack<'a> {
    pub files: &'a [String],
    pub out: &'a str,
}

/// The files that are written beside a hex file, where they are asked for: a line map, and a map of pieces and names.
#[derive(Clone, Copy)]
pub struct Beside<'a> {
    pub lines: Option<&'a str>,
    pub map: Option<&'a str>,
}

/// 1 to 64 objects that are linked, with what they need of a library where one is named, to a hex file and to the files
/// beside it.
#[derive(Clone, Copy)]
pub struct Link<'a> {
    pub files: &'a [String],
    pub inputs: Inputs<'a>,
    pub out: &'a str,
    pub beside: Beside<'a>,
    pub placing: Ranges,
}

/// A run of a hex file.
#[derive(Clone, Copy)]
pub struct RunHex<'a> {
    pub file: &'a str,
    pub inputs: Inputs<'a>,
    pub extent: Extent,
}

/// A run of a hex file, of which a profile is written.
#[derive(Clone, Copy)]
pub struct ProfileHex<'a> {
    pub file: &'a str,
    pub inputs: Inputs<'a>,
    pub extent: Extent,
    pub out: &'a str,
}

/// A listing of a hex file from one address to another.
#[derive(Clone, Copy)]
pub struct List<'a> {
    pub file: &'a str,
    pub first: u16,
    pub last: u16,
}

/// A run of a hex file as the commands of a script say, over at most so many lives where an option gives their number.
#[derive(Clone, Copy)]
pub struct Debug<'a> {
    pub file: &'a str,
    pub script: &'a str,
    pub inputs: Inputs<'a>,
    pub lives: Option<u16>,
}

/// A run of the input that is made from a number.
#[derive(Clone, Copy)]
pub struct Generate {
    pub number: u16,
}

/// A trace that is written as a value change dump with what drives its inputs, of a board whose oscillator has so many hertz.
#[derive(Clone, Copy)]
pub struct Dump<'a> {
    pub trace: &'a str,
    pub inputs: Inputs<'a>,
    pub out: &'a str,
    pub clock: u32,
}

/// A trace that is checked by rules, of a board whose oscillator has so many hertz.
#[derive(Clone, Copy)]
pub struct Check<'a> {
    pub trace: &'a str,
    pub rules: &'a str,
    pub inputs: Inputs<'a>,
    pub clock: u32,
}

/// What is told of a routine beside its most states.
#[derive(Clone, Copy)]
pub struct Wanted {
    /// Of passes that begin as an interrupt has entered the routine, and not as a call has.
    pub entered: bool,
    /// How long interrupts are not asked for, and how long one waits.
    pub latency: bool,
    /// A way through the routine that costs most.
    pub worst: bool,
}

/// The most states of a routine of a hex file, from an address to where it returns, or to another address where an option says it.
#[derive(Clone, Copy)]
pub struct Bound<'a> {
    pub file: &'a str,
    pub from: &'a str,
    pub to: Option<&'a str>,
    pub inputs: Inputs<'a>,
    pub wanted: Wanted,
}

/// A code that is to be explained.
#[derive(Clone, Copy)]
pub struct Explain<'a> {
    pub code: &'a str,
}

/// A command whose help is asked for.
#[derive(Clone, Copy)]
pub struct HelpOn<'a> {
    pub verb: &'a str,
}

/// What some words ask for.
#[derive(Clone, Copy)]
pub enum Command<'a> {
    Help,
    HelpOn(HelpOn<'a>),
    Version,
    Run(Run<'a>),
    Profile(Profile<'a>),
    Assemble(Assemble<'a>),
    Pack(Pack<'a>),
    Link(Link<'a>),
    RunHex(RunHex<'a>),
    ProfileHex(ProfileHex<'a>),
    List(List<'a>),
    Debug(Debug<'a>),
    Generate(Generate),
    Dump(Dump<'a>),
    Check(Check<'a>),
    Bound(Bound<'a>),
    Explain(Explain<'a>),
}
