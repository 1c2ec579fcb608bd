// A rules file, line by line.
ghost use Rattle.std.specs.Prelude.{◌≡◌, ◌≤◌, ℕ, Some, None, [], ◌∷◌, ◌++◌, length, OnOk, IfErr};
ghost use Rattle.kc_base.specs.Limits.{file_limit};
ghost use Rattle.kc_rules.specs.declared.fault.RulesFault.TheVariants as faults;
ghost use Rattle.kc_rules.specs.Lines.{IsRead, with_line};

use crate::fault::{ReadFault, RulesFault};
use crate::lines::{Item, line_item};
use crate::mark::Mark;
use crate::rule::Rule;
use kc_base::{NoMemory, after, first_line, prefix};
use std::alloc::Global;
use std::marker::Model;

/// The marks and the rules of a file, in the order of their lines.
#[derive(Drop)]
pub struct Rules {
    marks: Vec<Mark>,
    rules: Vec<Rule>,
}

fn push_mark(marks: &mut Vec<Mark>, mark: Mark) -> Result<(), NoMemory>
    ensures { OnOk result (marks.new.items ≡ marks.old.items ++ mark ∷ []) }
{
    marks.push(mark)?;
    Ok(())
}

fn push_rule(rules: &mut Vec<Rule>, rule: Rule) -> Result<(), NoMemory>
    ensures { OnOk result (rules.new.items ≡ rules.old.items ++ rule ∷ []) }
{
    rules.push(rule)?;
    Ok(())
}

// Takes a line of this number.
#[tactic(auto, unfolding(crate::specs::Lines::with_line))]
fn read_line(
    alloc: Global,
    clock: u32,
    line: u32,
    text: &[u8],
    marks: &mut Vec<Mark>,
    rules: &mut Vec<Rule>,
) -> Result<(), RulesFault>
    ensures read { OnOk result (with_line clock line text.now (record { marks = marks.old.items; rules = rules.old.items })
        ≡ Some (record { marks = marks.new.items; rules = rules.new.items })) }
    ensures fault { IfErr result (λ e. (n : ℕ) → e ≡ faults.BadRule n →
        (n ≡ line) × (with_line clock line text.now (record { marks = marks.old.items; rules = rules.old.items }) ≡ None)) }
{
    match line_item(alloc, clock, line, text, marks.as_slice()) {
        Ok(Item::Blank) => Ok(()),
        Ok(Item::Mark(mark)) => {
            push_mark(marks, mark)?;
            Ok(())
        }
        Ok(Item::Rule(rule)) => {
            push_rule(rules, rule)?;
            Ok(())
        }
        Err(ReadFault::Wrong) => Err(RulesFault::BadRule(line)),
        Err(ReadFault::NoMemory) => Err(RulesFault::NoMemory),
    }
}

impl Model for Rules {
    ghost use Rattle.kc_rules.specs.Lines.{Book};

    ghost Value = { Book };

    ghost view = { λ r. record { marks = r.marks.items; rules = r.rules.items } };
}

impl Rules {
    /// What a rules file says, of 1,048,576 bytes at most, at an oscillator of so many hertz. Refused is the first line that has
    /// no reading.
    pub fn read(alloc: Global, clock: u32, bytes: &[u8]) -> Result<Rules, RulesFault>
        requires { length bytes.now ≤ file_limit }
        ensures { IsRead clock bytes.now result }
    {
        let mut marks = Vec::new(alloc);
        let mut rules = Vec::new(alloc);
        let mut rest = bytes;
        let mut lines = 0u32;
        while !rest.is_empty() {
            let (len, used) = first_line(rest);
            lines += 1;
            read_line(
                alloc,
                clock,
                lines,
                prefix(rest, len),
                &mut marks,
                &mut rules,
            )?;
            rest = after(rest, used);
        }
        Ok(Rules { marks, rules })
    }

    /// The marks, lent.
    pub fn marks(&self) -> &[Mark]
        ensures { result.now ≡ self.now.marks }
    {
        self.marks.as_slice()
    }

    /// The rules, lent.
    pub fn rules(&self) -> &[Rule]
        ensures { result.now ≡ self.now.rules }
    {
        self.rules.as_slice()
    }
}
