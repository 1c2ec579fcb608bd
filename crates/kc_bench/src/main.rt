//! Runs what its words say, one after the other, and prints what came of each: `asm` assembles standard input, `forms=N` finds
//! the forms of a chain of N branches, `link=N` links N modules, and `LOOP=N` runs a loop for N state times. `bench/run`
//! measures how long each takes.
#![tactic(auto)]

mod assembling;
mod chain;
mod linking;
mod loops;
mod stopped;

use std::env;
use std::process::ExitCode;
use stopped::Stopped;

// Runs what has a size: a chain, modules or a loop.
fn run_sized(rt: &HostRuntime, name: &str, size: &str) -> Result<(), Stopped> {
    let Ok(number) = size.parse::<u64>() else {
        return Err(Stopped::Words);
    };
    match name {
        "forms" => chain::run(rt, number),
        "link" => linking::run(rt, number),
        _ => match loops::loop_named(name) {
            Some(which) => loops::run(rt, which, number),
            None => Err(Stopped::Words),
        },
    }
}

// Runs what a word says.
fn run_word(rt: &HostRuntime, word: &str) -> Result<(), Stopped> {
    match word.split_once('=') {
        Some((name, size)) => run_sized(rt, name, size),
        None if word == "asm" => assembling::run(rt),
        None => Err(Stopped::Words),
    }
}

fn run_words(rt: &HostRuntime) -> Result<(), Stopped> {
    for word in env::args(rt)?.skip(1) {
        run_word(rt, word.as_str())?;
    }
    Ok(())
}

fn main(rt: HostRuntime) -> ExitCode {
    match run_words(&rt) {
        Ok(()) => ExitCode::SUCCESS,
        Err(stopped) => ExitCode::from(stopped.status()),
    }
}
