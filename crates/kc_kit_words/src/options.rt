// The words of a command line after its verb: files, and then options with their values.
ghost use Rattle.std.specs.Prelude.{◌≡◌, ◌≤◌, ◌<◌, ◌&&◌, is_none, map, string_bytes, length, codes, IfSome};
ghost use Rattle.std.specs.Option.{option_map, option_and_then};
ghost use Rattle.kc_base.specs.TextLines.{begins_with};
ghost use Rattle.kc_kit_words.specs.Asked.{IsBounded};
ghost use Rattle.kc_kit_words.specs.Options.{is_option, placing_options, driving_options, running_options, wanted_options, bound_options, form_among, form_of, takes, is_flag, first_pair, value_of, are_options, states_in, lives_in, extent_in, clock_in, range_in, length_in, stands, wanted_in};
ghost use Rattle.kc_kit_words.specs.Values.{clock_of, max_states, max_lives};
ghost use Rattle.kc_kit_words.specs.Words as spec;

use crate::command::Wanted;
use crate::extent::Extent;
use crate::inputs::Role;
use crate::values::{Form, bytes, clock, has_form, is_dash, lives, range, states};

// Whether a word begins with `-`.
fn begins_with_dash(word: &str) -> bool
    ensures { result ≡ begins_with 45 word.now }
{
    match word.as_bytes().first() {
        Some(first) => *first == b'-',
        None => false,
    }
}

/// Whether a word stands where an option does: it begins with `-`, and is more than that.
pub(crate) fn is_option(word: &str) -> bool
    ensures { result ≡ is_option word.now }
{
    begins_with_dash(word) && !is_dash(word)
}

/// How many words stand before the first that stands where an option does.
pub(crate) fn count_files(words: &[String]) -> usize
    ensures count { result ≡ spec.count_files (map string_bytes words.now) }
    ensures within { result ≤ length words.now }
{
    let mut count = 0;
    let mut left = words;
    while let [word, rest @ ..] = left {
        if is_option(word.as_str()) {
            return count;
        }
        count += 1;
        left = rest;
    }
    count
}

// The form of the value of an option that says where relocatable pieces may stand.
fn placing_form(option: &str) -> Option<Form>
    ensures { result ≡ form_among option.now placing_options }
{
    match option {
        "--reg" | "--code" | "--data" => Some(Form::Span),
        "--stack" => Some(Form::Length),
        _ => None,
    }
}

// The form of the value of an option that says what drives the inputs.
fn driving_form(option: &str) -> Option<Form>
    ensures { result ≡ form_among option.now driving_options }
{
    match option {
        "--stim" => Some(Form::Input(Role::Stimuli)),
        "--analog" => Some(Form::Input(Role::Analog)),
        _ => None,
    }
}

// The form of the value of an option that says how far a board is run, where its profile goes, or what drives its inputs.
fn running_form(option: &str) -> Option<Form>
    ensures { result ≡ form_among option.now running_options }
{
    match option {
        "--states" => Some(Form::States),
        "--lives" => Some(Form::Lives),
        "--profile" => Some(Form::File),
        _ => driving_form(option),
    }
}

// The form of an option that says what is told beside a bound.
fn wanted_form(option: &str) -> Option<Form>
    ensures { result ≡ form_among option.now wanted_options }
{
    match option {
        "--entered" | "--latency" | "--worst" => Some(Form::Flag),
        _ => None,
    }
}

// The form of the value of an option that says where a pass ends, names a file that says more of its instructions, or says what is told.
fn bound_form(option: &str) -> Option<Form>
    ensures { result ≡ form_among option.now bound_options }
{
    match option {
        "--to" => Some(Form::Address),
        "--notes" => Some(Form::Input(Role::Notes)),
        "--map" => Some(Form::Input(Role::Map)),
        "--lines" => Some(Form::Input(Role::Lines)),
        _ => wanted_form(option),
    }
}

/// The form of the value of an option, or none where the command does not take it.
pub(crate) fn form_of(verb: &str, option: &str) -> Option<Form>
    ensures { result ≡ form_of verb.now option.now }
{
    match verb {
        "run" => match option {
            "--cover" => Some(Form::File),
            _ => match running_form(option) {
                None => placing_form(option),
                form => form,
            },
        },
        "asm" => match option {
            "--out" | "--list" => Some(Form::File),
            _ => None,
        },
        "lib" => match option {
            "--out" => Some(Form::File),
            _ => None,
        },
        "link" => match option {
            "--out" | "--lines" | "--map" => Some(Form::File),
            "--lib" => Some(Form::Input(Role::Library)),
            _ => placing_form(option),
        },
        "hex" => running_form(option),
        "vcd" => match option {
            "--out" => Some(Form::File),
            "--clock" => Some(Form::Clock),
            _ => driving_form(option),
        },
        "check" => match option {
            "--stim" => Some(Form::Input(Role::Stimuli)),
            "--clock" => Some(Form::Clock),
            _ => None,
        },
        "bound" => bound_form(option),
        "debug" => match option {
            "--lines" => Some(Form::Input(Role::Lines)),
            "--lives" => Some(Form::Lives),
            _ => driving_form(option),
        },
        _ => None,
    }
}

// Whether a command takes an option with this value.
fn takes(verb: &str, option: &str, value: &str) -> bool
    ensures { result ≡ takes verb.now option.now value.now }
{
    match form_of(verb, option) {
        Some(form) => has_form(form, value),
        None => false,
    }
}

// Whether an option stands without a value.
fn is_flag(word: &str) -> bool
    ensures { result ≡ is_flag word.now }
{
    matches!(word, "--entered" | "--latency" | "--worst")
}

/// The first option with its value, which is the empty word for a flag, and the words behind them.
pub(crate) fn first_option(words: &[String]) -> Option<(&str, &str, &[String])>
    ensures first { option_map (λ r. ((r.0.now, r.1.now), map string_bytes r.2.now)) result ≡ first_pair (map string_bytes words.now) }
    ensures fewer { IfSome result (λ r. length r.2.now < length words.now) }
{
    let [word, rest @ ..] = words else {
        return None;
    };
    if is_flag(word.as_str()) {
        return Some((word.as_str(), "", rest));
    }
    let [value, behind @ ..] = rest else {
        return None;
    };
    Some((word.as_str(), value.as_str(), behind))
}

/// The value of an option, where it stands.
pub(crate) fn value_of<'a>(option: &str, words: &'a [String]) -> Option<&'a str>
    ensures { option_map (λ v. v.now) result ≡ value_of option.now (map string_bytes words.now) }
{
    let mut left = words;
    while let Some((word, value, rest)) = first_option(left) {
        if word == option {
            return Some(value);
        }
        left = rest;
    }
    None
}

// Whether a command takes an option with this value, and the option does not stand again.
fn may_stand(verb: &str, option: &str, value: &str, behind: &[String]) -> bool
    ensures { result ≡ (takes verb.now option.now value.now && is_none (value_of option.now (map string_bytes behind.now))) }
{
    takes(verb, option, value) && value_of(option, behind).is_none()
}

/// Whether each option is one that the command takes, with a value in its form, and none stands twice.
pub(crate) fn are_options(verb: &str, words: &[String]) -> bool
    ensures { result ≡ are_options verb.now (map string_bytes words.now) }
{
    let mut left = words;
    while let Some((option, value, rest)) = first_option(left) {
        if !may_stand(verb, option, value, rest) {
            return false;
        }
        left = rest;
    }
    left.is_empty()
}

// How many state times a run has, where an option says it.
fn states_in(words: &[String]) -> Option<u64>
    ensures value { result ≡ states_in (map string_bytes words.now) }
    ensures within { IfSome result (λ n. n ≤ max_states) }
{
    states(value_of("--states", words)?)
}

/// How many lives a run has at most, where an option says it.
pub(crate) fn lives_in(words: &[String]) -> Option<u16>
    ensures value { result ≡ lives_in (map string_bytes words.now) }
    ensures some { IfSome result (λ n. 1 ≤ n) }
    ensures within { IfSome result (λ n. n ≤ max_lives) }
{
    lives(value_of("--lives", words)?)
}

/// How far a board is run, where the options say for how many state times.
pub(crate) fn extent_in(words: &[String]) -> Option<Extent>
    ensures value { result ≡ extent_in (map string_bytes words.now) }
    ensures within { IfSome result IsBounded }
{
    let states = states_in(words)?;
    let lives = lives_in(words);
    Some(Extent { states, lives })
}

// The hertz that an option says, where it stands.
fn clock_said(words: &[String]) -> Option<u32>
    ensures value { result ≡ option_and_then clock_of (value_of (codes "--clock") (map string_bytes words.now)) }
    ensures some { IfSome result (λ n. 1 ≤ n) }
{
    clock(value_of("--clock", words)?)
}

/// The hertz of an oscillator: 20 million, where no option says another number.
pub(crate) fn clock_in(words: &[String]) -> u32
    ensures value { result ≡ clock_in (map string_bytes words.now) }
    ensures some { 1 ≤ result }
{
    match clock_said(words) {
        Some(clock) => clock,
        None => 20_000_000,
    }
}

/// The range that an option sets, where it stands.
pub(crate) fn range_in(option: &str, words: &[String]) -> Option<(u16, u16)>
    ensures { result ≡ range_in option.now (map string_bytes words.now) }
{
    range(value_of(option, words)?)
}

/// The number of bytes that an option sets, where it stands.
pub(crate) fn length_in(option: &str, words: &[String]) -> Option<u16>
    ensures { result ≡ length_in option.now (map string_bytes words.now) }
{
    bytes(value_of(option, words)?)
}

// Whether a flag stands among options.
fn stands(flag: &str, words: &[String]) -> bool
    ensures { result ≡ stands flag.now (map string_bytes words.now) }
{
    value_of(flag, words).is_some()
}

/// What is told beside a bound.
pub(crate) fn wanted_in(words: &[String]) -> Wanted
    ensures { result ≡ wanted_in (map string_bytes words.now) }
{
    Wanted {
        entered: stands("--entered", words),
        latency: stands("--latency", words),
        worst: stands("--worst", words),
    }
}
