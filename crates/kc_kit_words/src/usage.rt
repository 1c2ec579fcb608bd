// What is wrong in words that are no command.
ghost use Rattle.std.specs.Prelude.{◌≡◌, ◌++◌, codes, map, string_bytes};
ghost use Rattle.std.specs.Option.{option_map, option_or};
ghost use Rattle.kc_trace.specs.Out.{Puts};
ghost use Rattle.kc_trace.specs.Trace.{out_of};
ghost use Rattle.kc_kit_files.specs.Shown.{word_shown};
ghost use Rattle.kc_kit_words.specs.Asked.{asked};
ghost use Rattle.kc_kit_words.specs.Options.{form_of, value_of};
ghost use Rattle.kc_kit_words.specs.Usage.{wrong_text, bad_value, lacks, unknown, wrong_writes, wrong_value, wrong_last, wrong_option, lacks_out, wrong_extent, wrong_listing, wrong_placing, wrong_outputs, wrong_name, wrong_files, wrong_file, wrong_pair, wrong_trace, wrong_dump, wrong_check, wrong_range, wrong_list, wrong_number, wrong_address, wrong_bound, wrong_word, wrong_more, wrong_by, plain_usage_of, usage_of, usage_diagnostic, wrong_behind, wrong_run_options};
ghost use Rattle.kc_kit_words.specs.UsageLaw.{WrongWhereNoCommand};
ghost use Rattle.kc_kit_words.specs.Values.{range_of};
ghost use Rattle.kc_kit_words.specs.Words.{beside_of};

use crate::command::Command;
use crate::options::{count_files, extent_in, first_option, form_of, is_option, value_of};
use crate::overwriting::overwritten;
use crate::values::{has_form, is_address, is_name, is_trace_name, range, short};
use crate::words::{
    MAX_FILES, are_apart, are_different, are_names, behind_in, beside_in, help_on, is_other,
    placing, read_command,
};
use kc_base::{IMAGE_START, Sink};
use kc_kit_files::report_word;
use kc_trace::TraceOut;

/// What is wrong in words that are no command.
#[derive(Clone, Copy, PartialEq, Eq)]
pub enum Wrong<'a> {
    /// There are no words.
    NoWords,
    /// The first word is no command.
    NoCommand(&'a str),
    /// The command takes no such option.
    NoOption(&'a str),
    /// The word stands where an option does, and is none.
    Misplaced(&'a str),
    /// The option stands last, and has no value.
    NoValue(&'a str),
    /// The value of an option has not its form.
    BadValue { option: &'a str, value: &'a str },
    /// The option stands twice.
    Twice(&'a str),
    /// The command needs this option.
    Lacks(&'static str),
    FewFiles,
    ManyFiles,
    /// The name of a file is none.
    BadName,
    FewWords,
    ManyWords,
    /// Two files that are written have one name.
    SameFile,
    /// A file is to be written that is read too.
    Overwrites(&'a str),
    /// A range of addresses is out of its bounds.
    OutOfBounds,
    /// The word is no range of addresses.
    BadRange(&'a str),
    /// The word is no number up to 65,535.
    BadNumber(&'a str),
    /// The word may stand for no address.
    BadAddress(&'a str),
}

// Puts a text, and a word behind it, as it is shown.
fn put_word<N: Sink>(diagnostics: &mut TraceOut<N>, text: &str, word: &str)
    ensures { Puts (out_of N.written N.faults diagnostics.old) (text.now ++ word_shown word.now) (out_of N.written N.faults diagnostics.new) }
{
    diagnostics.put_text(text.as_bytes());
    report_word(diagnostics, word.as_bytes());
}

// Puts an option that is missing.
fn put_lack<N: Sink>(diagnostics: &mut TraceOut<N>, option: &str)
    ensures { Puts (out_of N.written N.faults diagnostics.old) (lacks option.now) (out_of N.written N.faults diagnostics.new) }
{
    diagnostics.put_text(b"missing option ");
    diagnostics.put_text(option.as_bytes());
}

// Puts what is said of a bad value.
fn put_bad_value<N: Sink>(diagnostics: &mut TraceOut<N>, option: &str, value: &str)
    ensures { Puts (out_of N.written N.faults diagnostics.old) (bad_value option.now value.now) (out_of N.written N.faults diagnostics.new) }
{
    put_word(diagnostics, "bad value ", value);
    put_word(diagnostics, " of option ", option);
}

impl Wrong<'_> {
    // Puts what is said of it.
    fn put<N: Sink>(self, diagnostics: &mut TraceOut<N>)
        ensures { Puts (out_of N.written N.faults diagnostics.old) (wrong_text self.entry) (out_of N.written N.faults diagnostics.new) }
    {
        match self {
            Wrong::NoWords => diagnostics.put_text(b"no command"),
            Wrong::NoCommand(verb) => put_word(diagnostics, "unknown command ", verb),
            Wrong::NoOption(option) => put_word(diagnostics, "unknown option ", option),
            Wrong::Misplaced(word) => put_word(
                diagnostics,
                "files come first, before options: ",
                word,
            ),
            Wrong::NoValue(option) => put_word(diagnostics, "missing value of option ", option),
            Wrong::BadValue { option, value } => put_bad_value(diagnostics, option, value),
            Wrong::Twice(option) => put_word(diagnostics, "repeated option ", option),
            Wrong::Lacks(option) => put_lack(diagnostics, option),
            Wrong::FewFiles => diagnostics.put_text(b"too few files"),
            Wrong::ManyFiles => diagnostics.put_text(b"too many files"),
            Wrong::BadName => diagnostics.put_text(
                b"a file's name is -, or has not 1 to 255 bytes",
            ),
            Wrong::FewWords => diagnostics.put_text(b"too few words"),
            Wrong::ManyWords => diagnostics.put_text(b"too many words"),
            Wrong::SameFile => diagnostics.put_text(b"two files to write have one name"),
            Wrong::Overwrites(name) => {
                put_word(
                    diagnostics,
                    "a file that is read would be overwritten: ",
                    name,
                );
            }
            Wrong::OutOfBounds => diagnostics.put_text(b"a range is out of bounds"),
            Wrong::BadRange(range) => put_word(diagnostics, "bad range ", range),
            Wrong::BadNumber(number) => put_word(diagnostics, "bad number ", number),
            Wrong::BadAddress(word) => put_word(diagnostics, "bad address ", word),
        }
    }
}

// The one of two that is there first.
fn first<'a>(wrong: Option<Wrong<'a>>, other: Option<Wrong<'a>>) -> Option<Wrong<'a>>
    ensures { option_map wrong_text result ≡ option_or (option_map wrong_text wrong.entry) (option_map wrong_text other.entry) }
{
    match wrong {
        Some(wrong) => Some(wrong),
        None => other,
    }
}

// What is wrong with a word that is no option of the command, where one stands.
fn unknown(word: &str) -> Wrong<'_>
    ensures { wrong_text result ≡ unknown word.now }
{
    if is_option(word) {
        Wrong::NoOption(word)
    } else {
        Wrong::Misplaced(word)
    }
}

// What is wrong with an option and its value before other words.
fn wrong_value<'a>(
    verb: &str,
    option: &'a str,
    value: &'a str,
    behind: &[String],
) -> Option<Wrong<'a>>
    ensures { option_map wrong_text result ≡ wrong_value (form_of verb.now option.now) option.now value.now (value_of option.now (map string_bytes behind.now)) }
{
    match form_of(verb, option) {
        None => Some(unknown(option)),
        Some(form) => {
            if !has_form(form, value) {
                Some(Wrong::BadValue { option, value })
            } else if value_of(option, behind).is_some() {
                Some(Wrong::Twice(option))
            } else {
                None
            }
        }
    }
}

// What is wrong with an option that stands last.
fn wrong_last<'a>(verb: &str, option: &'a str) -> Wrong<'a>
    ensures { wrong_text result ≡ wrong_last (form_of verb.now option.now) option.now }
{
    match form_of(verb, option) {
        None => unknown(option),
        Some(_) => Wrong::NoValue(option),
    }
}

// The first thing that is wrong with options.
fn wrong_option<'a>(verb: &str, options: &'a [String]) -> Option<Wrong<'a>>
    ensures { option_map wrong_text result ≡ wrong_option verb.now (map string_bytes options.now) }
{
    let mut left = options;
    while let Some((option, value, rest)) = first_option(left) {
        if let Some(wrong) = wrong_value(verb, option, value, rest) {
            return Some(wrong);
        }
        left = rest;
    }
    match left {
        [option, ..] => Some(wrong_last(verb, option.as_str())),
        [] => None,
    }
}

// Whether a command with these options lacks a file to write.
fn lacks_out<'a>(options: &[String]) -> Option<Wrong<'a>>
    ensures { option_map wrong_text result ≡ lacks_out (map string_bytes options.now) }
{
    match value_of("--out", options) {
        Some(_) => None,
        None => Some(Wrong::Lacks("--out")),
    }
}

// Whether a run with these options lacks how far it goes.
fn wrong_extent<'a>(options: &[String]) -> Option<Wrong<'a>>
    ensures { option_map wrong_text result ≡ wrong_extent (map string_bytes options.now) }
{
    match extent_in(options) {
        None => Some(Wrong::Lacks("--states")),
        Some(_) => None,
    }
}

// What is wrong with the files that are to be written behind a run.
fn wrong_behind<'a>(options: &[String]) -> Option<Wrong<'a>>
    ensures { option_map wrong_text result ≡ wrong_behind (map string_bytes options.now) }
{
    if are_different(behind_in(options)) {
        None
    } else {
        Some(Wrong::SameFile)
    }
}

// What is wrong with where pieces may stand.
fn wrong_placing<'a>(options: &[String]) -> Option<Wrong<'a>>
    ensures { option_map wrong_text result ≡ wrong_placing (map string_bytes options.now) }
{
    if placing(options).are_within_bounds() {
        None
    } else {
        Some(Wrong::OutOfBounds)
    }
}

// What is wrong with the files that linking is to write.
fn wrong_outputs<'a>(options: &[String]) -> Option<Wrong<'a>>
    ensures { option_map wrong_text result ≡ wrong_outputs (value_of (codes "--out") (map string_bytes options.now)) (beside_of (map string_bytes options.now)) }
{
    match value_of("--out", options) {
        None => Some(Wrong::Lacks("--out")),
        Some(out) => {
            if are_apart(out, beside_in(options)) {
                None
            } else {
                Some(Wrong::SameFile)
            }
        }
    }
}

// What is wrong with the object, and with the listing of a source.
fn wrong_listing<'a>(options: &[String]) -> Option<Wrong<'a>>
    ensures { option_map wrong_text result ≡ wrong_listing (value_of (codes "--out") (map string_bytes options.now)) (value_of (codes "--list") (map string_bytes options.now)) }
{
    match value_of("--out", options) {
        None => Some(Wrong::Lacks("--out")),
        Some(out) => {
            if is_other(out, value_of("--list", options)) {
                None
            } else {
                Some(Wrong::SameFile)
            }
        }
    }
}

fn wrong_name<'a>(file: &str) -> Option<Wrong<'a>>
    ensures { option_map wrong_text result ≡ wrong_name file.now }
{
    if is_name(file) {
        None
    } else {
        Some(Wrong::BadName)
    }
}

// What is wrong with 1 to 64 files.
fn wrong_files<'a>(files: &[String]) -> Option<Wrong<'a>>
    ensures { option_map wrong_text result ≡ wrong_files (map string_bytes files.now) }
{
    if files.is_empty() {
        return Some(Wrong::FewFiles);
    }
    if files.len() > MAX_FILES {
        return Some(Wrong::ManyFiles);
    }
    if are_names(files) {
        None
    } else {
        Some(Wrong::BadName)
    }
}

// What is wrong with one file.
fn wrong_file<'a>(files: &[String]) -> Option<Wrong<'a>>
    ensures { option_map wrong_text result ≡ wrong_file (map string_bytes files.now) }
{
    match files {
        [] => Some(Wrong::FewFiles),
        [file] => wrong_name(file.as_str()),
        _ => Some(Wrong::ManyFiles),
    }
}

// What is wrong with two files.
fn wrong_pair<'a>(files: &[String]) -> Option<Wrong<'a>>
    ensures { option_map wrong_text result ≡ wrong_pair (map string_bytes files.now) }
{
    match files {
        [] | [_] => Some(Wrong::FewFiles),
        [file, other] => first(wrong_name(file.as_str()), wrong_name(other.as_str())),
        _ => Some(Wrong::ManyFiles),
    }
}

// What is wrong with the name of a trace.
fn wrong_trace<'a>(trace: &str) -> Option<Wrong<'a>>
    ensures { option_map wrong_text result ≡ wrong_trace trace.now }
{
    if is_trace_name(trace) {
        None
    } else {
        Some(Wrong::BadName)
    }
}

// What is wrong with a trace alone.
fn wrong_dump<'a>(files: &[String]) -> Option<Wrong<'a>>
    ensures { option_map wrong_text result ≡ wrong_dump (map string_bytes files.now) }
{
    match files {
        [] => Some(Wrong::FewFiles),
        [trace] => wrong_trace(trace.as_str()),
        _ => Some(Wrong::ManyFiles),
    }
}

// What is wrong with a trace and rules.
fn wrong_check<'a>(files: &[String]) -> Option<Wrong<'a>>
    ensures { option_map wrong_text result ≡ wrong_check (map string_bytes files.now) }
{
    match files {
        [] | [_] => Some(Wrong::FewFiles),
        [trace, rules] => first(wrong_trace(trace.as_str()), wrong_name(rules.as_str())),
        _ => Some(Wrong::ManyFiles),
    }
}

// What is wrong with a range of addresses of an image.
fn wrong_range(word: &str) -> Option<Wrong<'_>>
    ensures { option_map wrong_text result ≡ wrong_range word.now (range_of word.now) }
{
    match range(word) {
        None => Some(Wrong::BadRange(word)),
        Some((first, last)) => {
            if IMAGE_START <= first && first <= last {
                None
            } else {
                Some(Wrong::OutOfBounds)
            }
        }
    }
}

// What is wrong with a file and a range of addresses.
fn wrong_list(words: &[String]) -> Option<Wrong<'_>>
    ensures { option_map wrong_text result ≡ wrong_list (map string_bytes words.now) }
{
    match words {
        [] | [_] => Some(Wrong::FewWords),
        [file, range] => first(wrong_name(file.as_str()), wrong_range(range.as_str())),
        _ => Some(Wrong::ManyWords),
    }
}

// What is wrong with a number.
fn wrong_number(words: &[String]) -> Option<Wrong<'_>>
    ensures { option_map wrong_text result ≡ wrong_number (map string_bytes words.now) }
{
    match words {
        [] => Some(Wrong::FewWords),
        [number] => match short(number.as_bytes()) {
            Some(_) => None,
            None => Some(Wrong::BadNumber(number.as_str())),
        },
        _ => Some(Wrong::ManyWords),
    }
}

// What is wrong with a word for an address.
fn wrong_address(word: &str) -> Option<Wrong<'_>>
    ensures { option_map wrong_text result ≡ wrong_address word.now }
{
    if is_address(word) {
        None
    } else {
        Some(Wrong::BadAddress(word))
    }
}

// What is wrong with a hex file and the address of a routine.
fn wrong_bound(words: &[String]) -> Option<Wrong<'_>>
    ensures { option_map wrong_text result ≡ wrong_bound (map string_bytes words.now) }
{
    match words {
        [] | [_] => Some(Wrong::FewWords),
        [file, from] => first(wrong_name(file.as_str()), wrong_address(from.as_str())),
        _ => Some(Wrong::ManyWords),
    }
}

// What is wrong with one word, whatever it is.
fn wrong_word<'a>(words: &[String]) -> Option<Wrong<'a>>
    ensures { option_map wrong_text result ≡ wrong_word (map string_bytes words.now) }
{
    match words {
        [] => Some(Wrong::FewWords),
        [_] => None,
        _ => Some(Wrong::ManyWords),
    }
}

// What is wrong where no more words are taken.
fn wrong_more<'a>(words: &[String]) -> Option<Wrong<'a>>
    ensures { option_map wrong_text result ≡ wrong_more (map string_bytes words.now) }
{
    if words.is_empty() {
        None
    } else {
        Some(Wrong::ManyWords)
    }
}

// What is wrong with how far a run goes, or with the files behind it, or where pieces may stand.
fn wrong_run_options<'a>(options: &[String]) -> Option<Wrong<'a>>
    ensures { option_map wrong_text result ≡ wrong_run_options (map string_bytes options.now) }
{
    first(
        wrong_extent(options),
        first(wrong_behind(options), wrong_placing(options)),
    )
}

// What is wrong with the files of a run, or with its options.
fn wrong_run<'a>(files: &[String], options: &[String]) -> Option<Wrong<'a>>
    ensures { option_map wrong_text result ≡ option_or (wrong_files (map string_bytes files.now)) (wrong_run_options (map string_bytes options.now)) }
{
    first(wrong_files(files), wrong_run_options(options))
}

// What is wrong with the files of linking, or where pieces may stand.
fn wrong_link<'a>(files: &[String], options: &[String]) -> Option<Wrong<'a>>
    ensures { option_map wrong_text result ≡ option_or (wrong_files (map string_bytes files.now)) (option_or (wrong_outputs (value_of (codes "--out") (map string_bytes options.now)) (beside_of (map string_bytes options.now))) (wrong_placing (map string_bytes options.now))) }
{
    first(
        wrong_files(files),
        first(wrong_outputs(options), wrong_placing(options)),
    )
}

// What is wrong with a verb, its files and its options.
fn wrong_by<'a>(verb: &'a str, files: &'a [String], options: &'a [String]) -> Option<Wrong<'a>>
    ensures { option_map wrong_text result ≡ wrong_by verb.now (map string_bytes files.now) (map string_bytes options.now) (wrong_option verb.now (map string_bytes options.now)) }
{
    let wrong_options = wrong_option(verb, options);
    match verb {
        "run" => first(wrong_options, wrong_run(files, options)),
        "asm" => first(
            wrong_options,
            first(wrong_file(files), wrong_listing(options)),
        ),
        "lib" => first(wrong_options, first(wrong_files(files), lacks_out(options))),
        "link" => first(wrong_options, wrong_link(files, options)),
        "hex" => first(
            wrong_options,
            first(wrong_file(files), wrong_extent(options)),
        ),
        "dis" => first(wrong_options, wrong_list(files)),
        "debug" => first(wrong_options, wrong_pair(files)),
        "gen" => first(wrong_options, wrong_number(files)),
        "vcd" => first(wrong_options, first(wrong_dump(files), lacks_out(options))),
        "check" => first(wrong_options, wrong_check(files)),
        "bound" => first(wrong_options, wrong_bound(files)),
        "explain" => first(wrong_options, wrong_word(files)),
        "--help" | "--version" => first(wrong_options, wrong_more(files)),
        _ => Some(Wrong::NoCommand(verb)),
    }
}

// What is wrong with a command that writes over a file that it reads.
fn wrong_writes<'a>(command: Option<Command<'a>>) -> Option<Wrong<'a>>
    ensures { option_map wrong_text result ≡ wrong_writes (option_map asked command.entry) }
{
    let command = command?;
    match overwritten(&command) {
        Some(name) => Some(Wrong::Overwrites(name)),
        None => None,
    }
}

// The first thing that is wrong in words that ask for no help on a command.
fn wrong_plain(words: &[String]) -> Option<Wrong<'_>>
    ensures { option_map wrong_text result ≡ plain_usage_of (map string_bytes words.now) }
{
    let [verb, rest @ ..] = words else {
        return Some(Wrong::NoWords);
    };
    let (files, options) = rest.split_at(count_files(rest));
    let verb = verb.as_str();
    first(
        wrong_by(verb, files, options),
        wrong_writes(read_command(verb, files, options)),
    )
}

/// The first thing that is wrong in some words; `None` where they are a command.
pub fn wrong_words(words: &[String]) -> Option<Wrong<'_>>
    ensures { option_map wrong_text result ≡ usage_of (map string_bytes words.now) }
{
    if help_on(words).is_some() {
        None
    } else {
        wrong_plain(words)
    }
}

/// Writes what is wrong in some words; nothing where they are a command. It takes no memory.
pub fn put_usage<N: Sink>(words: &[String], diagnostics: &mut TraceOut<N>)
    ensures { Puts (out_of N.written N.faults diagnostics.old) (usage_diagnostic (map string_bytes words.now)) (out_of N.written N.faults diagnostics.new) }
{
    if let Some(wrong) = wrong_words(words) {
        diagnostics.put_text(b"kc96: error: ");
        wrong.put(diagnostics);
        diagnostics.put_text(b"; see kc96 --help\n");
    }
}

/// Something is wrong in words exactly where they are no command.
pub fn wrong_where_no_command()
    ensures { WrongWhereNoCommand }
{}
