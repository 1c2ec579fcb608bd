// All rules of a file over all lives of a run.
ghost use Rattle.std.specs.Prelude.{◌≡◌, ◌+◌, List, [], length, OnOk, IfOk, EachIndex, slice_index_or};
ghost use Rattle.kc_trace.specs.Tables.{level_in};
ghost use Rattle.kc_monitor.specs.declared.marks.Marking.{Marking};
ghost use Rattle.kc_monitor.specs.Marked.{Hit};
ghost use Rattle.kc_monitor.specs.Marking.{fresh};
ghost use Rattle.kc_monitor.specs.Rows as rows;
ghost use Rattle.kc_monitor.specs.Rows.{IsTrack};
ghost use Rattle.kc_monitor.specs.Watching as all;
ghost use Rattle.kc_monitor.specs.Watches as spec;

use crate::marks::Marking;
use crate::matching::Seen;
use crate::monitor::Monitor;
use kc_base::{NoMemory, StateTime};
use kc_rules::{Mark, Rule, Rules};
use kc_trace::{Levels, What};
use std::alloc::Global;

/// The rules of a file, and what they have seen of the lives so far.
#[derive(Drop)]
pub struct Watch {
    rules: Rules,
    markings: Vec<Marking>,
    monitors: Vec<Monitor>,
    levels: Levels,
}

fn begin_all(alloc: Global, monitors: &mut [Monitor], rules: &[Rule], levels: &Levels)
    ensures { length rules.now ≡ length monitors.old → all.AllThree (all.IsStart (level_in levels.now)) rules.now monitors.old monitors.new }
{
    for i in 0..monitors.len() {
        if i < rules.len() {
            monitors[i].begin(alloc, &rules[i], levels);
        }
    }
}

fn state_all(
    monitors: &mut [Monitor],
    rules: &[Rule],
    at: StateTime,
    seens: &[Seen],
    levels: &Levels,
) -> Result<(), NoMemory>
    ensures { OnOk result (length rules.now ≡ length monitors.old →
        all.AllThree (all.IsStep at (level_in levels.now) seens.now) rules.now monitors.old monitors.new) }
{
    for i in 0..monitors.len() {
        if i < rules.len() {
            monitors[i].state(&rules[i], at, seens, levels)?;
        }
    }
    Ok(())
}

fn over_all(monitors: &mut [Monitor], rules: &[Rule], last: StateTime)
    ensures { length rules.now ≡ length monitors.old → all.AllThree (all.IsFinish last) rules.now monitors.old monitors.new }
{
    for i in 0..monitors.len() {
        if i < rules.len() {
            monitors[i].over(&rules[i], last);
        }
    }
}

fn marks_anew(markings: &mut [Marking])
    ensures { EachIndex markings.new (λ k. (d : Marking) → slice_index_or markings.new k d ≡ fresh) }
{
    for i in 0..markings.len() {
        markings[i] = Marking::new();
    }
}

// Which marks something has.
fn mark_all(
    markings: &mut [Marking],
    marks: &[Mark],
    at: StateTime,
    what: What,
    levels: &Levels,
    has: &mut Vec<bool>,
) -> Result<(), NoMemory>
    ensures { OnOk result ((hists : List (List Hit)) → all.AllThree IsTrack marks.now hists markings.old →
        (has.new.items ≡ rows.row (level_in levels.now) at what marks.now hists has.old.items)
        × all.AllThree IsTrack marks.now (rows.hists_after (level_in levels.now) at what marks.now hists has.old.items) markings.new) }
{
    for i in 0..markings.len() {
        if i < marks.len() {
            let there = markings[i].take(&marks[i].form, at, what, has.as_slice(), levels);
            has.push(there)?;
        }
    }
    Ok(())
}

// What happens in a state, each with its marks.
fn see_all(
    alloc: Global,
    markings: &mut [Marking],
    marks: &[Mark],
    at: StateTime,
    whats: &[What],
    levels: &Levels,
) -> Result<Vec<Seen>, NoMemory>
    ensures { IfOk result (λ seens. (hists : List (List Hit)) → all.AllThree IsTrack marks.now hists markings.old →
        (seens.items ≡ rows.seens_in (level_in levels.now) at marks.now hists whats.now)
        × all.AllThree IsTrack marks.now (rows.hists_over (level_in levels.now) at marks.now hists whats.now) markings.new) }
{
    let mut seens = Vec::new(alloc);
    for what in whats {
        let mut has = Vec::new(alloc);
        mark_all(markings, marks, at, *what, levels, &mut has)?;
        seens.push(Seen::new(at, *what, has))?;
    }
    Ok(seens)
}

impl Watch {
    /// Before the first life.
    pub fn new(alloc: Global, rules: Rules) -> Result<Watch, NoMemory>
        ensures { IfOk result (λ w. spec.IsNew rules.marks rules.rules w) }
    {
        let mut markings = Vec::new(alloc);
        for _mark in rules.marks() {
            markings.push(Marking::new())?;
        }
        let mut monitors = Vec::new(alloc);
        for rule in rules.rules() {
            monitors.push(Monitor::new(alloc, rule))?;
        }
        Ok(Watch {
            rules,
            markings,
            monitors,
            levels: Levels::low(),
        })
    }

    /// A life begins, at these levels.
    pub fn begin(&mut self, alloc: Global, levels: Levels)
        ensures { spec.IsBegin (level_in levels) self.old self.new }
    {
        self.levels = levels;
        marks_anew(self.markings.as_mut_slice());
        begin_all(
            alloc,
            self.monitors.as_mut_slice(),
            self.rules.rules(),
            &self.levels,
        );
    }

    /// What happens in a state that is later than the one before it.
    pub fn state(&mut self, alloc: Global, at: StateTime, whats: &[What]) -> Result<(), NoMemory>
        ensures { OnOk result (spec.IsState at whats.now self.old self.new) }
    {
        self.levels.take_all(whats);
        let seens = see_all(
            alloc,
            self.markings.as_mut_slice(),
            self.rules.marks(),
            at,
            whats,
            &self.levels,
        )?;
        state_all(
            self.monitors.as_mut_slice(),
            self.rules.rules(),
            at,
            seens.as_slice(),
            &self.levels,
        )
    }

    /// The life is over; its last state is this one.
    pub fn over(&mut self, last: StateTime)
        ensures { spec.IsOver last self.old self.new }
    {
        over_all(self.monitors.as_mut_slice(), self.rules.rules(), last);
    }

    /// The rules.
    pub fn rules(&self) -> &Rules
        ensures { result.now ≡ self.now.rules }
    {
        &self.rules
    }

    /// What became of them.
    pub fn monitors(&self) -> &[Monitor]
        ensures { result.now ≡ self.now.monitors.items }
    {
        self.monitors.as_slice()
    }
}
