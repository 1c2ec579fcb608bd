// A line as words, which are taken one after the other.
ghost use Rattle.std.specs.Prelude.{◌≡◌, ◌==◌, ◌∷◌, [], ◌++◌, ◌<◌, ◌≤◌, true, false, not, Some, None, length, slice_index, drop, take, IfOk, OnOk, OnErr};
ghost use Rattle.std.specs.Option.{option_map};
ghost use Rattle.std.specs.List.{take_while};
ghost use Rattle.std.specs.Str.{bytes_eq};
ghost use Rattle.kc_rules.specs.declared.fault.ReadFault.TheVariants as faults;
ghost use Rattle.kc_rules.specs.Words.{is_blank, is_edge, words_in, body_of, words_of};
ghost use Rattle.kc_rules.specs.Readings.{has, word, word_at};

use crate::fault::ReadFault;
use kc_base::{NoMemory, Text, after, prefix};
use std::alloc::Global;
use std::marker::Model;

/// The words of a line that are still to be taken.
#[derive(Drop)]
pub(crate) struct Words {
    words: Vec<Text>,
    at: usize,
}

impl Model for Words {
    ghost use Rattle.std.specs.Prelude.{List, ℕ, drop, ◌≤◌, vec_len};

    ghost Value = { List (List ℕ) };

    ghost view = { λ w. drop w.at w.words.items };

    ghost invariant = { λ w. w.at ≤ vec_len w.words };
}

/// Whether a word is this one.
pub(crate) fn is(word: &[u8], this: &[u8]) -> bool
    ensures { result ≡ bytes_eq word.now this.now }
{
    word == this
}

fn is_blank_byte(c: u8) -> bool
    ensures { result ≡ is_blank c }
{
    c == b' ' || c == b'\t'
}

fn is_edge_byte(c: u8) -> bool
    ensures { result ≡ is_edge c }
{
    is_blank_byte(c) || c == b','
}

// How long the line is before a comment.
fn body_len(line: &[u8]) -> usize
    ensures value { result ≡ length (take_while (λ c. not (c == 59)) line.now) }
    ensures within { result ≤ length line.now }
{
    line.iter().take_while(|c| **c != b';').count()
}

// The line before a comment.
fn body(line: &[u8]) -> &[u8]
    ensures { result.now ≡ body_of line.now }
{
    prefix(line, body_len(line))
}

// How many blanks stand at the beginning.
fn blank_count(text: &[u8]) -> usize
    ensures value { result ≡ length (take_while is_blank text.now) }
    ensures within { result ≤ length text.now }
{
    text.iter().take_while(|c| is_blank_byte(**c)).count()
}

// The text without the blanks at its beginning.
fn without_blanks(text: &[u8]) -> &[u8]
    ensures same { words_in result.now ≡ words_in text.now }
    ensures ahead { 0 < length result.now → is_blank (slice_index result.now 0) ≡ false }
    ensures within { length result.now ≤ length text.now }
{
    after(text, blank_count(text))
}

// How many characters at the beginning end no word.
fn plain_count(text: &[u8]) -> usize
    ensures value { result ≡ length (take_while (λ c. not (is_edge c)) text.now) }
    ensures within { result ≤ length text.now }
{
    text.iter().take_while(|c| !is_edge_byte(**c)).count()
}

// How long the word at the beginning is.
fn word_len(text: &[u8]) -> usize
    requires some { 0 < length text.now }
    requires ahead { is_blank (slice_index text.now 0) ≡ false }
    ensures word { words_in text.now ≡ take result text.now ∷ words_in (drop result text.now) }
    ensures goes { 0 < result }
    ensures within { result ≤ length text.now }
{
    if text[0] == b',' {
        return 1;
    }
    plain_count(text)
}

// The words of a text.
fn split(alloc: Global, text: &[u8]) -> Result<Vec<Text>, NoMemory>
    ensures { IfOk result (λ words. words.items ≡ words_in text.now) }
{
    let mut words = Vec::new(alloc);
    let mut rest = without_blanks(text);
    while !rest.is_empty() {
        let len = word_len(rest);
        let word = Text::of(alloc, prefix(rest, len))?;
        words.push(word)?;
        rest = without_blanks(after(rest, len));
    }
    Ok(words)
}

impl Words {
    /// The words of a line.
    pub(crate) fn of(alloc: Global, line: &[u8]) -> Result<Words, NoMemory>
        ensures { IfOk result (λ words. words ≡ words_of line.now) }
    {
        let words = split(alloc, body(line))?;
        Ok(Words { words, at: 0 })
    }

    /// The words, lent.
    pub(crate) fn rest(&self) -> &[Text]
        ensures { result.now ≡ self.now }
    {
        self.words.as_slice().split_at(self.at).1
    }

    /// A word by its place; one that is not there has no character.
    pub(crate) fn at(&self, n: usize) -> &[u8]
        ensures { result.now ≡ word_at n self.now }
    {
        match self.rest().get(n) {
            Some(word) => word.as_slice(),
            None => &[],
        }
    }

    /// The first word.
    pub(crate) fn first(&self) -> &[u8]
        ensures { result.now ≡ word_at 0 self.now }
    {
        self.at(0)
    }

    /// How many there are.
    pub(crate) fn len(&self) -> usize
        ensures { result ≡ length self.now }
    {
        self.rest().len()
    }

    /// Leaves the first word, if there is one.
    pub(crate) fn advance(&mut self)
        ensures { self.new ≡ drop 1 self.old }
    {
        if self.at < self.words.len() {
            self.at += 1;
        }
    }

    /// Takes the first word if it is this one, and reports whether it is.
    pub(crate) fn has(&mut self, this: &[u8]) -> bool
        ensures { has this.now self.old ≡ Some (result, self.new) }
    {
        let there = is(self.first(), this);
        if there {
            self.advance();
        }
        there
    }

    /// Takes the first word, which has to be this one.
    pub(crate) fn want(&mut self, this: &[u8]) -> Result<(), ReadFault>
        ensures ok { OnOk result (word this.now self.old ≡ Some (tt, self.new)) }
        ensures wrong { OnErr result (word this.now self.old ≡ None) }
    {
        if self.has(this) {
            Ok(())
        } else {
            Err(ReadFault::Wrong)
        }
    }
}
