// Files that a command would write and that it reads too.
ghost use Rattle.std.specs.Prelude.{◌≡◌, ◌++◌, ◌&&◌, Some, find, is_some, map, string_bytes, IfSome};
ghost use Rattle.std.specs.List.{list_any};
ghost use Rattle.std.specs.Option.{option_map, option_to_list};
ghost use Rattle.std.specs.Str.{bytes_eq};
ghost use Rattle.kc_kit_words.specs.Asked.{asked, IsWithin};
ghost use Rattle.kc_kit_words.specs.Commands.{is_read, names_of, names_written, overwritten, sparing};
ghost use Rattle.kc_kit_words.specs.Inputs.{inputs_in};
ghost use Rattle.kc_kit_words.specs.Options.{role_of};

use crate::command::Command;
use crate::inputs::{Inputs, role_of};
use crate::options::first_option;

// Whether a name is one of these.
fn is_among(name: &str, names: &[String]) -> bool
    ensures { result ≡ list_any (λ n. bytes_eq n name.now) (map string_bytes names.now) }
{
    let mut left = names;
    while let [first, rest @ ..] = left {
        if first.as_str() == name {
            return true;
        }
        left = rest;
    }
    false
}

// Whether an option with its value names this file for reading.
fn names_it(name: &str, verb: &str, option: &str, value: &str) -> bool
    ensures { result ≡ (is_some (role_of verb.now option.now) && bytes_eq value.now name.now) }
{
    role_of(verb, option).is_some() && value == name
}

// Whether an option names this file for reading.
fn is_input(name: &str, inputs: Inputs<'_>) -> bool
    ensures { result ≡ list_any (λ n. bytes_eq n name.now) (names_of (inputs_in inputs.entry)) }
{
    let verb = inputs.verb;
    let mut left = inputs.words;
    while let Some((option, value, rest)) = first_option(left) {
        if names_it(name, verb, option, value) {
            return true;
        }
        left = rest;
    }
    false
}

// Whether a command reads the file of this name.
#[tactic(auto, using(crate::proofs::OptionLemmas::named_last))]
fn reads(command: &Command<'_>, name: &str) -> bool
    ensures { result ≡ is_read (Some (asked command.now)) name.now }
{
    match command {
        Command::Run(run) => is_among(name, run.files) || is_input(name, run.inputs),
        Command::Profile(run) => is_among(name, run.files) || is_input(name, run.inputs),
        Command::Assemble(assemble) => assemble.file == name,
        Command::Pack(pack) => is_among(name, pack.files),
        Command::Link(link) => is_among(name, link.files) || is_input(name, link.inputs),
        Command::RunHex(run) => run.file == name || is_input(name, run.inputs),
        Command::ProfileHex(run) => run.file == name || is_input(name, run.inputs),
        Command::List(list) => list.file == name,
        Command::Debug(debug) => {
            debug.file == name || debug.script == name || is_input(name, debug.inputs)
        }
        Command::Dump(dump) => is_input(name, dump.inputs) || dump.trace == name,
        Command::Check(check) => {
            check.rules == name || is_input(name, check.inputs) || check.trace == name
        }
        Command::Bound(bound) => bound.file == name || is_input(name, bound.inputs),
        _ => false,
    }
}

// The files that a command writes: three at most.
fn written<'a>(command: &Command<'a>) -> (Option<&'a str>, Option<&'a str>, Option<&'a str>)
    ensures { option_to_list (option_map (λ n. n.now) result.0) ++ option_to_list (option_map (λ n. n.now) result.1) ++ option_to_list (option_map (λ n. n.now) result.2) ≡ names_written (Some (asked command.now)) }
{
    match command {
        Command::Profile(run) => (run.behind.profile, run.behind.cover, None),
        Command::Assemble(assemble) => (Some(assemble.out), assemble.list, None),
        Command::Pack(pack) => (Some(pack.out), None, None),
        Command::Link(link) => (Some(link.out), link.beside.lines, link.beside.map),
        Command::ProfileHex(run) => (Some(run.out), None, None),
        Command::Dump(dump) => (Some(dump.out), None, None),
        _ => (None, None, None),
    }
}

// A file that is written, where the command reads it.
fn where_read<'a>(command: &Command<'_>, name: Option<&'a str>) -> Option<&'a str>
    ensures { option_map (λ n. n.now) result ≡ find (is_read (Some (asked command.now))) (option_to_list (option_map (λ n. n.now) name.entry)) }
{
    let name = name?;
    if reads(command, name) {
        Some(name)
    } else {
        None
    }
}

/// The first file that a command writes and that it reads too, if there is one.
pub(crate) fn overwritten<'a>(command: &Command<'a>) -> Option<&'a str>
    ensures { option_map (λ n. n.now) result ≡ overwritten (Some (asked command.now)) }
{
    let (out, second, third) = written(command);
    if let Some(name) = where_read(command, out) {
        return Some(name);
    }
    match where_read(command, second) {
        Some(name) => Some(name),
        None => where_read(command, third),
    }
}

/// A command, where it writes no file that it reads.
pub(crate) fn sparing<'a>(command: Option<Command<'a>>) -> Option<Command<'a>>
    requires { IfSome command IsWithin }
    ensures asked { option_map asked result ≡ sparing (option_map asked command.entry) }
    ensures within { IfSome result IsWithin }
{
    let command = command?;
    match overwritten(&command) {
        Some(_) => None,
        None => Some(command),
    }
}
