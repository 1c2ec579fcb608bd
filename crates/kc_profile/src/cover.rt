// The text of a coverage, after the manual page of geninfo ("FILES", the tracefile).
ghost use Rattle.std.specs.Prelude.{◌≡◌, ◌++◌, ◌+◌, ◌-◌, ◌<◌, ◌≤◌, ◌^◌, count_by, flat_map, length, IfOk, OnOk};
ghost use Rattle.kc_profile.specs.Cover as spec;

use crate::source::{Instruction, Source};
use crate::statistics::Statistics;
use kc_base::{NoMemory, put_number};

/// How many there are, and how many of them have run.
#[derive(Clone, Copy)]
struct Tally {
    found: u64,
    hit: u64,
}

impl Tally {
    fn none() -> Tally
        ensures found { result.found ≡ 0 }
        ensures hit { result.hit ≡ 0 }
    {
        Tally { found: 0, hit: 0 }
    }

    // One more, which has run so often.
    fn add(&mut self, times: u64)
        requires room { self.old.found < 2 ^ 64 - 1 }
        requires part { self.old.hit ≤ self.old.found }
        ensures found { self.new.found ≡ self.old.found + 1 }
        ensures hit { self.new.hit ≡ self.old.hit + spec.one_if (spec.is_some_times times) }
    {
        self.found += 1;
        if times > 0 {
            self.hit += 1;
        }
    }
}

// Puts a word, a number and the end of a line.
fn put_count(text: &mut Vec<u8>, word: &[u8], number: u64) -> Result<(), NoMemory>
    ensures { OnOk result (text.new.items ≡ text.old.items ++ spec.count_line word.now number) }
{
    text.extend_from_slice(word)?;
    put_number(text, u128::from(number))?;
    text.push(b'\n')?;
    Ok(())
}

// ---- conditional jumps

// Puts the line of a way of the jump with a number on a line: how often it was gone, or that the jump never ran.
fn put_way(
    text: &mut Vec<u8>,
    line: u32,
    jump: u64,
    way: &[u8],
    never: bool,
    times: u64,
) -> Result<(), NoMemory>
    ensures { OnOk result (text.new.items ≡ text.old.items ++ spec.way_line line jump way.now never times) }
{
    text.extend_from_slice(b"BRDA:")?;
    put_number(text, u128::from(line))?;
    text.extend_from_slice(b",")?;
    put_number(text, u128::from(jump))?;
    text.extend_from_slice(way)?;
    if never {
        text.extend_from_slice(b"-")?;
    } else {
        put_number(text, u128::from(times))?;
    }
    text.extend_from_slice(b"\n")?;
    Ok(())
}

// Puts the two lines of a jump: how often it was taken, and how often not.
fn put_jump(
    text: &mut Vec<u8>,
    line: u32,
    jump: u64,
    taken: u64,
    passed: u64,
) -> Result<(), NoMemory>
    ensures { OnOk result (text.new.items ≡ text.old.items ++ spec.jump_lines line jump taken passed) }
{
    let never = taken == 0 && passed == 0;
    put_way(text, line, jump, b",0,", never, taken)?;
    put_way(text, line, jump, b",1,", never, passed)
}

// Puts the lines of an instruction where it is a jump, of which so many stand before it on its line.
fn put_jump_of(
    text: &mut Vec<u8>,
    instruction: &Instruction,
    number: u64,
    statistics: &Statistics,
) -> Result<(), NoMemory>
    ensures { OnOk result (text.new.items ≡ text.old.items ++ spec.jump_of statistics.now number instruction.now) }
{
    if !instruction.is_branch {
        return Ok(());
    }
    let (taken, passed) = statistics.ways(instruction.addr);
    put_jump(text, instruction.line, number, taken, passed)
}

// How many jumps stand before an instruction on its line, where so many stand on another before it.
fn number_on(line: u32, before: u64, instruction: &Instruction) -> u64
    ensures { result ≡ spec.number_on line before instruction.now }
{
    if instruction.line == line { before } else { 0 }
}

// Puts the lines of all jumps.
#[tactic(auto, unfolding(crate::specs::Cover::jumps_text))]
fn put_jump_lines(
    text: &mut Vec<u8>,
    instructions: &[Instruction],
    statistics: &Statistics,
) -> Result<(), NoMemory>
    ensures { OnOk result (text.new.items ≡ text.old.items ++ spec.jumps_text statistics.now 0 0 instructions.now) }
{
    let mut left = instructions;
    let mut line = 0;
    let mut before = 0u64;
    while let [first, rest @ ..] = left {
        let number = number_on(line, before, first);
        put_jump_of(text, first, number, statistics)?;
        line = first.line;
        before = number + u64::from(first.is_branch);
        left = rest;
    }
    Ok(())
}

// Counts the two ways of an instruction where it is a jump.
fn count_ways(tally: &mut Tally, instruction: &Instruction, statistics: &Statistics)
    requires room { tally.old.found < 2 ^ 64 - 2 }
    requires part { tally.old.hit ≤ tally.old.found }
    ensures found { tally.new.found ≡ tally.old.found + length (spec.ways_of statistics.now instruction.now) }
    ensures hit { tally.new.hit ≡ tally.old.hit + count_by spec.is_some_times (spec.ways_of statistics.now instruction.now) }
{
    if instruction.is_branch {
        let (taken, passed) = statistics.ways(instruction.addr);
        tally.add(taken);
        tally.add(passed);
    }
}

// How many ways of jumps there are, and how many of them were gone.
fn ways_of(instructions: &[Instruction], statistics: &Statistics) -> Tally
    ensures found { result.found ≡ length (spec.all_ways statistics.now instructions.now) }
    ensures hit { result.hit ≡ count_by spec.is_some_times (spec.all_ways statistics.now instructions.now) }
{
    let mut tally = Tally::none();
    let mut left = instructions;
    while let [first, rest @ ..] = left {
        count_ways(&mut tally, first, statistics);
        left = rest;
    }
    tally
}

// Puts how many ways of jumps there are; nothing where there is no jump.
fn put_ways(
    text: &mut Vec<u8>,
    instructions: &[Instruction],
    statistics: &Statistics,
) -> Result<(), NoMemory>
    ensures { OnOk result (text.new.items ≡ text.old.items ++ spec.sums_of_ways (spec.all_ways statistics.now instructions.now)) }
{
    let tally = ways_of(instructions, statistics);
    if tally.found == 0 {
        return Ok(());
    }
    put_count(text, b"BRF:", tally.found)?;
    put_count(text, b"BRH:", tally.hit)
}

// ---- lines

// Puts how often a line has run.
fn put_line(text: &mut Vec<u8>, line: u32, times: u64) -> Result<(), NoMemory>
    ensures { OnOk result (text.new.items ≡ text.old.items ++ spec.line_line (line, times)) }
{
    text.extend_from_slice(b"DA:")?;
    put_number(text, u128::from(line))?;
    text.extend_from_slice(b",")?;
    put_number(text, u128::from(times))?;
    text.extend_from_slice(b"\n")?;
    Ok(())
}

// Whether the next instruction is one of the same line.
fn goes_on(line: u32, instructions: &[Instruction]) -> bool
    ensures { result ≡ spec.goes_on line instructions.now }
{
    match instructions.first() {
        Some(next) => next.line == line,
        None => false,
    }
}

// Puts the lines of all lines that give an instruction, with the greatest number of those of its instructions, and counts them.
#[tactic(auto, unfolding(crate::specs::Cover::lines_of))]
fn put_each_line(
    text: &mut Vec<u8>,
    instructions: &[Instruction],
    statistics: &Statistics,
) -> Result<Tally, NoMemory>
    ensures text { OnOk result (text.new.items ≡ text.old.items ++ flat_map spec.line_line (spec.lines_of statistics.now 0 instructions.now)) }
    ensures found { IfOk result (λ tally. tally.found ≡ length (spec.lines_of statistics.now 0 instructions.now)) }
    ensures hit { IfOk result (λ tally. tally.hit ≡ count_by spec.has_run (spec.lines_of statistics.now 0 instructions.now)) }
{
    let mut tally = Tally::none();
    let mut left = instructions;
    let mut times = 0u64;
    while let [first, rest @ ..] = left {
        times = times.max(statistics.hits(first.addr));
        if !goes_on(first.line, rest) {
            put_line(text, first.line, times)?;
            tally.add(times);
            times = 0;
        }
        left = rest;
    }
    Ok(tally)
}

// Puts the lines of all lines, and how many there are.
fn put_lines(
    text: &mut Vec<u8>,
    instructions: &[Instruction],
    statistics: &Statistics,
) -> Result<(), NoMemory>
    ensures { OnOk result (text.new.items ≡ text.old.items ++ spec.lines_text (spec.lines_of statistics.now 0 instructions.now)) }
{
    let tally = put_each_line(text, instructions, statistics)?;
    put_count(text, b"LF:", tally.found)?;
    put_count(text, b"LH:", tally.hit)
}

// ---- sources

// Puts the name of the test: none, or that of a life.
fn put_test(text: &mut Vec<u8>, life: Option<u16>) -> Result<(), NoMemory>
    ensures { OnOk result (text.new.items ≡ text.old.items ++ spec.test_line life) }
{
    match life {
        None => {
            text.extend_from_slice(b"TN:\n")?;
            Ok(())
        }
        Some(life) => put_count(text, b"TN:life_", u64::from(life)),
    }
}

// Puts the name of a source.
fn put_name(text: &mut Vec<u8>, name: &str) -> Result<(), NoMemory>
    ensures { OnOk result (text.new.items ≡ text.old.items ++ spec.name_line name.now) }
{
    text.extend_from_slice(b"SF:")?;
    text.extend_from_slice(name.as_bytes())?;
    text.push(b'\n')?;
    Ok(())
}

// Puts which lines of a source have run.
fn put_source(
    text: &mut Vec<u8>,
    source: &Source<'_>,
    life: Option<u16>,
    statistics: &Statistics,
) -> Result<(), NoMemory>
    ensures { OnOk result (text.new.items ≡ text.old.items ++ spec.source_text life statistics.now source.now) }
{
    put_test(text, life)?;
    put_name(text, source.name)?;
    put_jump_lines(text, &source.instructions, statistics)?;
    put_ways(text, &source.instructions, statistics)?;
    put_lines(text, &source.instructions, statistics)?;
    text.extend_from_slice(b"end_of_record\n")?;
    Ok(())
}

/// Puts which lines of sources have run behind a text, by the statistics of a run; the name of the test is that of the life, where there
/// are several.
pub fn put_sources(
    text: &mut Vec<u8>,
    sources: &[Source<'_>],
    life: Option<u16>,
    statistics: &Statistics,
) -> Result<(), NoMemory>
    ensures { OnOk result (text.new.items ≡ text.old.items ++ spec.cover_text life statistics.now sources.now) }
{
    let mut left = sources;
    while let [source, rest @ ..] = left {
        put_source(text, source, life, statistics)?;
        left = rest;
    }
    Ok(())
}
