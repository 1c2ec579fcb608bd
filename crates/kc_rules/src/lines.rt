// A line of a rules file.
ghost use Rattle.std.specs.Prelude.{◌≡◌, Some, None, IfOk, IfErr};
ghost use Rattle.kc_rules.specs.declared.fault.ReadFault.TheVariants as faults;
ghost use Rattle.kc_rules.specs.Words.{words_of};
ghost use Rattle.kc_rules.specs.Lines as spec;

use crate::fault::ReadFault;
use crate::forms::rule;
use crate::mark::Mark;
use crate::marks::mark;
use crate::rule::Rule;
use crate::words::Words;
use std::alloc::Global;

/// What a line adds.
#[derive(Drop)]
pub(crate) enum Item {
    Blank,
    Mark(Mark),
    Rule(Rule),
}

#[tactic(auto, unfolding(crate::specs::Lines::item))]
fn mark_or_rule(
    alloc: Global,
    clock: u32,
    line: u32,
    words: &mut Words,
    marks: &[Mark],
) -> Result<Item, ReadFault>
    ensures read { IfOk result (λ x. spec.item clock line (spec.names_of marks.now) words.old ≡ Some (x, words.new)) }
    ensures none { IfErr result (λ e. e ≡ faults.Wrong → spec.item clock line (spec.names_of marks.now) words.old ≡ None) }
{
    if words.has(b"mark") {
        let mark = mark(alloc, clock, words, marks)?;
        Ok(Item::Mark(mark))
    } else {
        let rule = rule(alloc, clock, line, words, marks)?;
        Ok(Item::Rule(rule))
    }
}

/// What a line of this number is, behind these marks.
pub(crate) fn line_item(
    alloc: Global,
    clock: u32,
    line: u32,
    text: &[u8],
    marks: &[Mark],
) -> Result<Item, ReadFault>
    ensures read { IfOk result (λ x. spec.item_of clock line (spec.names_of marks.now) (words_of text.now) ≡ Some x) }
    ensures none { IfErr result (λ e. e ≡ faults.Wrong → spec.item_of clock line (spec.names_of marks.now) (words_of text.now) ≡ None) }
{
    let mut words = Words::of(alloc, text)?;
    if words.len() == 0 {
        return Ok(Item::Blank);
    }
    let item = mark_or_rule(alloc, clock, line, &mut words, marks)?;
    if words.len() == 0 {
        Ok(item)
    } else {
        Err(ReadFault::Wrong)
    }
}
