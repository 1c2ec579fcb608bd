// What the words of a command line ask for.
ghost use Rattle.std.specs.Prelude.{◌≡◌, Some, IfSome, length, map, string_bytes};
ghost use Rattle.std.specs.List.{list_all};
ghost use Rattle.std.specs.Option.{option_map, unwrap_or};
ghost use Rattle.kc_kit_words.specs.Values.{is_name};
ghost use Rattle.kc_kit_words.specs.Words.{command_of, plain_command_of, command_by, run_by, assemble_by, pack_by, link_by, hex_by, hex_of, list_by, list_of, debug_by, debug_of, generate_by, dump_by, dump_of, check_by, check_of, bound_by, bound_of, explain_by, are_files, beside_of, placing_of, behind_of};
ghost use Rattle.kc_kit_words.specs.Words as spec;
ghost use Rattle.kc_kit_words.specs.Asked.{asked, behind_in, beside_in, AreLinkable, IsBounded, IsWithin};
ghost use Rattle.kc_kit_words.specs.Inputs.{inputs_in};

use crate::command::{
    Assemble, Behind, Beside, Bound, Check, Command, Debug, Dump, Explain, Generate, HelpOn, Link,
    List, Pack, Profile, ProfileHex, Run, RunHex,
};
use crate::extent::Extent;
use crate::inputs::Inputs;
use crate::options::{
    are_options, clock_in, count_files, extent_in, length_in, lives_in, range_in, value_of,
    wanted_in,
};
use crate::overwriting::sparing;
use crate::values::{is_address, is_name, is_trace_name, range, short};
use kc_base::IMAGE_START;
use kc_link_place::Ranges;

/// The most files of one command.
pub(crate) const MAX_FILES: usize = 64;

pub(crate) fn are_names(files: &[String]) -> bool
    ensures { result ≡ list_all is_name (map string_bytes files.now) }
{
    let mut left = files;
    while let [file, rest @ ..] = left {
        if !is_name(file.as_str()) {
            return false;
        }
        left = rest;
    }
    true
}

// Whether these are 1 to 64 names of files.
fn are_files(files: &[String]) -> bool
    ensures { result ≡ are_files (map string_bytes files.now) }
{
    !files.is_empty() && files.len() <= MAX_FILES && are_names(files)
}

fn given(range: Option<(u16, u16)>, otherwise: (u16, u16)) -> (u16, u16)
    ensures { result ≡ unwrap_or range otherwise }
{
    match range {
        Some(range) => range,
        None => otherwise,
    }
}

// Where relocatable pieces may stand.
pub(crate) fn placing(options: &[String]) -> Ranges
    ensures { result ≡ placing_of (map string_bytes options.now) }
{
    let ranges = Ranges::new();
    Ranges {
        reg: given(range_in("--reg", options), ranges.reg),
        code: given(range_in("--code", options), ranges.code),
        ram: given(range_in("--data", options), ranges.ram),
        stack: length_in("--stack", options),
    }
}

fn read_run<'a>(files: &'a [String], verb: &'a str, options: &'a [String]) -> Option<Command<'a>>
    ensures asked { option_map asked result ≡ run_by (map string_bytes files.now) verb.now (map string_bytes options.now) }
    ensures within { IfSome result IsWithin }
{
    if !are_files(files) {
        return None;
    }
    let extent = extent_in(options)?;
    let placing = placing(options);
    let inputs = Inputs {
        verb,
        words: options,
    };
    if placing.are_within_bounds() {
        run_so(files, inputs, extent, placing, behind_in(options))
    } else {
        None
    }
}

// The files that are asked for behind a run.
pub(crate) fn behind_in(options: &[String]) -> Behind<'_>
    ensures { behind_in result ≡ behind_of (map string_bytes options.now) }
{
    Behind {
        profile: value_of("--profile", options),
        cover: value_of("--cover", options),
    }
}

// Whether one of these files is asked for.
fn is_asked(behind: Behind<'_>) -> bool
    ensures { result ≡ spec.is_asked (behind_in behind.entry) }
{
    behind.profile.is_some() || behind.cover.is_some()
}

// Whether the files that are written behind a run are different ones.
pub(crate) fn are_different(behind: Behind<'_>) -> bool
    ensures { result ≡ spec.are_different (behind_in behind.entry) }
{
    match behind.profile {
        None => true,
        Some(profile) => is_other(profile, behind.cover),
    }
}

// A run, behind which files are written where they are named.
fn run_so<'a>(
    files: &'a [String],
    inputs: Inputs<'a>,
    extent: Extent,
    placing: Ranges,
    behind: Behind<'a>,
) -> Option<Command<'a>>
    requires bounded { IsBounded extent }
    requires linkable { AreLinkable (length files.now) placing }
    ensures asked { option_map asked result ≡ spec.run_so (behind_in behind.entry) (map string_bytes files.now) (inputs_in inputs.entry) (Some extent) placing }
    ensures within { IfSome result IsWithin }
{
    if !is_asked(behind) {
        return Some(Command::Run(Run {
            files,
            inputs,
            extent,
            placing,
        }));
    }
    if !are_different(behind) {
        return None;
    }
    Some(Command::Profile(Profile {
        files,
        inputs,
        extent,
        placing,
        behind,
    }))
}

fn read_assemble<'a>(files: &'a [String], options: &'a [String]) -> Option<Command<'a>>
    ensures asked { option_map asked result ≡ assemble_by (map string_bytes files.now) (map string_bytes options.now) }
    ensures within { IfSome result IsWithin }
{
    let [file] = files else {
        return None;
    };
    if !is_name(file.as_str()) {
        return None;
    }
    let out = value_of("--out", options)?;
    let list = value_of("--list", options);
    if is_other(out, list) {
        Some(Command::Assemble(Assemble {
            file: file.as_str(),
            out,
            list,
        }))
    } else {
        None
    }
}

fn read_pack<'a>(files: &'a [String], options: &'a [String]) -> Option<Command<'a>>
    ensures asked { option_map asked result ≡ pack_by (map string_bytes files.now) (map string_bytes options.now) }
    ensures within { IfSome result IsWithin }
{
    if !are_files(files) {
        return None;
    }
    let out = value_of("--out", options)?;
    Some(Command::Pack(Pack { files, out }))
}

fn read_link<'a>(files: &'a [String], verb: &'a str, options: &'a [String]) -> Option<Command<'a>>
    ensures asked { option_map asked result ≡ link_by (map string_bytes files.now) verb.now (map string_bytes options.now) }
    ensures within { IfSome result IsWithin }
{
    if !are_files(files) {
        return None;
    }
    let out = value_of("--out", options)?;
    let beside = beside_in(options);
    let placing = placing(options);
    if are_apart(out, beside) && placing.are_within_bounds() {
        Some(Command::Link(Link {
            files,
            inputs: Inputs {
                verb,
                words: options,
            },
            out,
            beside,
            placing,
        }))
    } else {
        None
    }
}

// The files that are asked for beside a hex file.
pub(crate) fn beside_in(options: &[String]) -> Beside<'_>
    ensures { beside_in result ≡ beside_of (map string_bytes options.now) }
{
    Beside {
        lines: value_of("--lines", options),
        map: value_of("--map", options),
    }
}

// Whether a second file is another one.
pub(crate) fn is_other(out: &str, lines: Option<&str>) -> bool
    ensures { result ≡ spec.is_other out.now (option_map (λ l. l.now) lines.entry) }
{
    match lines {
        None => true,
        Some(lines) => lines != out,
    }
}

// Whether the files that are written are all different ones.
pub(crate) fn are_apart(out: &str, beside: Beside<'_>) -> bool
    ensures { result ≡ spec.are_apart out.now (beside_in beside.entry) }
{
    let is_apart = match beside.lines {
        None => true,
        Some(lines) => is_other(lines, beside.map),
    };
    is_apart && is_other(out, beside.lines) && is_other(out, beside.map)
}

// A run of a hex file.
fn hex_run<'a>(file: &'a str, verb: &'a str, options: &'a [String]) -> Option<Command<'a>>
    ensures asked { option_map asked result ≡ hex_of file.now verb.now (map string_bytes options.now) }
    ensures within { IfSome result IsWithin }
{
    if !is_name(file) {
        return None;
    }
    let extent = extent_in(options)?;
    let inputs = Inputs {
        verb,
        words: options,
    };
    hex_so(file, inputs, extent, value_of("--profile", options))
}

// A run of a hex file, of which a profile is written where a file is named for it.
fn hex_so<'a>(
    file: &'a str,
    inputs: Inputs<'a>,
    extent: Extent,
    out: Option<&'a str>,
) -> Option<Command<'a>>
    requires { IsBounded extent }
    ensures asked { option_map asked result ≡ spec.hex_so (option_map (λ o. o.now) out.entry) file.now (inputs_in inputs.entry) (Some extent) }
    ensures within { IfSome result IsWithin }
{
    let Some(out) = out else {
        return Some(Command::RunHex(RunHex {
            file,
            inputs,
            extent,
        }));
    };
    Some(Command::ProfileHex(ProfileHex {
        file,
        inputs,
        extent,
        out,
    }))
}

fn read_hex<'a>(files: &'a [String], verb: &'a str, options: &'a [String]) -> Option<Command<'a>>
    ensures asked { option_map asked result ≡ hex_by (map string_bytes files.now) verb.now (map string_bytes options.now) }
    ensures within { IfSome result IsWithin }
{
    if files.len() != 1 {
        return None;
    }
    hex_run(files[0].as_str(), verb, options)
}

// A listing of a file and a word for addresses.
fn listing<'a>(file: &'a str, addresses: &str) -> Option<Command<'a>>
    ensures asked { option_map asked result ≡ list_of file.now addresses.now }
    ensures within { IfSome result IsWithin }
{
    if !is_name(file) {
        return None;
    }
    let (first, last) = range(addresses)?;
    if IMAGE_START <= first && first <= last {
        Some(Command::List(List { file, first, last }))
    } else {
        None
    }
}

fn read_list(files: &[String]) -> Option<Command<'_>>
    ensures asked { option_map asked result ≡ list_by (map string_bytes files.now) }
    ensures within { IfSome result IsWithin }
{
    if files.len() != 2 {
        return None;
    }
    listing(files[0].as_str(), files[1].as_str())
}

// The debugging of a hex file by a script.
fn debugging<'a>(
    file: &'a str,
    script: &'a str,
    verb: &'a str,
    options: &'a [String],
) -> Option<Command<'a>>
    ensures asked { option_map asked result ≡ debug_of file.now script.now verb.now (map string_bytes options.now) }
    ensures within { IfSome result IsWithin }
{
    if is_name(file) && is_name(script) {
        Some(Command::Debug(Debug {
            file,
            script,
            inputs: Inputs {
                verb,
                words: options,
            },
            lives: lives_in(options),
        }))
    } else {
        None
    }
}

fn read_debug<'a>(files: &'a [String], verb: &'a str, options: &'a [String]) -> Option<Command<'a>>
    ensures asked { option_map asked result ≡ debug_by (map string_bytes files.now) verb.now (map string_bytes options.now) }
    ensures within { IfSome result IsWithin }
{
    if files.len() != 2 {
        return None;
    }
    debugging(files[0].as_str(), files[1].as_str(), verb, options)
}

fn read_generate<'a>(files: &'a [String]) -> Option<Command<'a>>
    ensures asked { option_map asked result ≡ generate_by (map string_bytes files.now) }
    ensures within { IfSome result IsWithin }
{
    let [number] = files else {
        return None;
    };
    let number = short(number.as_bytes())?;
    Some(Command::Generate(Generate { number }))
}

// The dump of a trace.
fn dumping<'a>(trace: &'a str, verb: &'a str, options: &'a [String]) -> Option<Command<'a>>
    ensures asked { option_map asked result ≡ dump_of trace.now verb.now (map string_bytes options.now) }
    ensures within { IfSome result IsWithin }
{
    if !is_trace_name(trace) {
        return None;
    }
    Some(Command::Dump(Dump {
        trace,
        inputs: Inputs {
            verb,
            words: options,
        },
        out: value_of("--out", options)?,
        clock: clock_in(options),
    }))
}

fn read_dump<'a>(files: &'a [String], verb: &'a str, options: &'a [String]) -> Option<Command<'a>>
    ensures asked { option_map asked result ≡ dump_by (map string_bytes files.now) verb.now (map string_bytes options.now) }
    ensures within { IfSome result IsWithin }
{
    let [trace] = files else {
        return None;
    };
    dumping(trace.as_str(), verb, options)
}

// The check of a trace by rules.
fn checking<'a>(
    trace: &'a str,
    rules: &'a str,
    verb: &'a str,
    options: &'a [String],
) -> Option<Command<'a>>
    ensures asked { option_map asked result ≡ check_of trace.now rules.now verb.now (map string_bytes options.now) }
    ensures within { IfSome result IsWithin }
{
    if is_trace_name(trace) && is_name(rules) {
        Some(Command::Check(Check {
            trace,
            rules,
            inputs: Inputs {
                verb,
                words: options,
            },
            clock: clock_in(options),
        }))
    } else {
        None
    }
}

fn read_check<'a>(files: &'a [String], verb: &'a str, options: &'a [String]) -> Option<Command<'a>>
    ensures asked { option_map asked result ≡ check_by (map string_bytes files.now) verb.now (map string_bytes options.now) }
    ensures within { IfSome result IsWithin }
{
    if files.len() != 2 {
        return None;
    }
    checking(files[0].as_str(), files[1].as_str(), verb, options)
}

// The bound of a routine of a hex file.
fn bounding<'a>(
    file: &'a str,
    from: &'a str,
    verb: &'a str,
    options: &'a [String],
) -> Option<Command<'a>>
    ensures asked { option_map asked result ≡ bound_of file.now from.now verb.now (map string_bytes options.now) }
    ensures within { IfSome result IsWithin }
{
    if is_name(file) && is_address(from) {
        Some(Command::Bound(Bound {
            file,
            from,
            to: value_of("--to", options),
            inputs: Inputs {
                verb,
                words: options,
            },
            wanted: wanted_in(options),
        }))
    } else {
        None
    }
}

fn read_bound<'a>(files: &'a [String], verb: &'a str, options: &'a [String]) -> Option<Command<'a>>
    ensures asked { option_map asked result ≡ bound_by (map string_bytes files.now) verb.now (map string_bytes options.now) }
    ensures within { IfSome result IsWithin }
{
    if files.len() != 2 {
        return None;
    }
    bounding(files[0].as_str(), files[1].as_str(), verb, options)
}

fn read_explain<'a>(files: &'a [String]) -> Option<Command<'a>>
    ensures asked { option_map asked result ≡ explain_by (map string_bytes files.now) }
    ensures within { IfSome result IsWithin }
{
    let [code] = files else {
        return None;
    };
    Some(Command::Explain(Explain {
        code: code.as_str(),
    }))
}

// A command that is one word.
fn alone<'a>(files: &[String], command: Command<'a>) -> Option<Command<'a>>
    requires { IsWithin command }
    ensures asked { option_map asked result ≡ spec.alone (map string_bytes files.now) (asked command.entry) }
    ensures within { IfSome result IsWithin }
{
    if files.is_empty() {
        Some(command)
    } else {
        None
    }
}

/// The command of a verb with its files and options, all of which it takes.
pub(crate) fn read_command<'a>(
    verb: &'a str,
    files: &'a [String],
    options: &'a [String],
) -> Option<Command<'a>>
    ensures asked { option_map asked result ≡ command_by verb.now (map string_bytes files.now) (map string_bytes options.now) }
    ensures within { IfSome result IsWithin }
{
    match verb {
        "run" => read_run(files, verb, options),
        "asm" => read_assemble(files, options),
        "lib" => read_pack(files, options),
        "link" => read_link(files, verb, options),
        "hex" => read_hex(files, verb, options),
        "dis" => read_list(files),
        "debug" => read_debug(files, verb, options),
        "gen" => read_generate(files),
        "vcd" => read_dump(files, verb, options),
        "check" => read_check(files, verb, options),
        "bound" => read_bound(files, verb, options),
        "explain" => read_explain(files),
        "--help" => alone(files, Command::Help),
        "--version" => alone(files, Command::Version),
        _ => None,
    }
}

// Whether a word is a command.
fn is_verb(word: &str) -> bool
    ensures { result ≡ spec.is_verb word.now }
{
    matches!(
        word,
        "run"
            | "asm"
            | "lib"
            | "link"
            | "hex"
            | "dis"
            | "debug"
            | "gen"
            | "vcd"
            | "check"
            | "bound"
            | "explain"
    )
}

// The command whose help is asked for, if it is.
pub(crate) fn help_on(words: &[String]) -> Option<Command<'_>>
    ensures asked { option_map asked result ≡ spec.help_on (map string_bytes words.now) }
    ensures within { IfSome result IsWithin }
{
    let [verb, word] = words else {
        return None;
    };
    let verb = verb.as_str();
    if is_verb(verb) && word.as_str() == "--help" {
        Some(Command::HelpOn(HelpOn { verb }))
    } else {
        None
    }
}

// What words ask for that ask for no help on a command.
fn read_plain(words: &[String]) -> Option<Command<'_>>
    ensures asked { option_map asked result ≡ plain_command_of (map string_bytes words.now) }
    ensures within { IfSome result IsWithin }
{
    let [verb, rest @ ..] = words else {
        return None;
    };
    let (files, options) = rest.split_at(count_files(rest));
    if are_options(verb.as_str(), options) {
        sparing(read_command(verb.as_str(), files, options))
    } else {
        None
    }
}

/// The command of some words, or none where they are no command.
pub fn read_words(words: &[String]) -> Option<Command<'_>>
    ensures asked { option_map asked result ≡ command_of (map string_bytes words.now) }
    ensures within { IfSome result IsWithin }
{
    match help_on(words) {
        None => read_plain(words),
        help => help,
    }
}
