// Which events an event is.
ghost use Rattle.std.specs.Prelude.{◌≡◌, false, slice_index_or};
ghost use Rattle.kc_trace.specs.Tables.{level_in};
ghost use Rattle.kc_monitor.specs.Matching as spec;

use kc_base::Level;
use kc_rules::{Atom, Steady, Wanted, Way};
use kc_trace::{Levels, Signal, What};
use std::marker::Model;

/// Something that happens in a state, with the marks that it has: for each mark, in order, whether it has it.
#[derive(Drop)]
pub(crate) struct Seen {
    at: u64,
    what: What,
    marks: Vec<bool>,
}

impl Model for Seen {
    ghost use Rattle.kc_monitor.specs.Seens as seens;

    ghost Value = { seens.Seen };

    ghost view = { λ s. record { at = s.at; what = s.what; marks = s.marks.items } };
}

impl Seen {
    pub(crate) fn new(at: u64, what: What, marks: Vec<bool>) -> Seen
        ensures { result ≡ record { at = at; what = what; marks = marks.items } }
    {
        Seen { at, what, marks }
    }

    pub(crate) fn what(&self) -> What
        ensures { result ≡ self.now.what }
    {
        self.what
    }

    pub(crate) fn marks(&self) -> &[bool]
        ensures { result.now ≡ self.now.marks }
    {
        self.marks.as_slice()
    }
}

fn same_level(a: Level, b: Level) -> bool
    ensures { result ≡ spec.same_level a b }
{
    a.is_high() == b.is_high()
}

fn is_way(way: Way, level: Level) -> bool
    ensures { result ≡ spec.is_way way level }
{
    match way {
        Way::Rise => level.is_high(),
        Way::Fall => !level.is_high(),
        Way::Either => true,
    }
}

fn has_mark(marks: &[bool], mark: usize) -> bool
    ensures { result ≡ slice_index_or marks.now mark false }
{
    match marks.get(mark) {
        Some(has) => *has,
        None => false,
    }
}

fn is_wanted(wanted: Wanted, what: What, marks: &[bool]) -> bool
    ensures { result ≡ spec.is_wanted wanted what marks.now }
{
    match (wanted, what) {
        (Wanted::Mark(mark), _) => has_mark(marks, mark),
        (Wanted::Edge(signal, way), What::Edge(other, level)) => {
            signal.is(other) && is_way(way, level)
        }
        (Wanted::Entry(n), What::Entry(m)) => n == m,
        (Wanted::Transfer(n), What::Transfer(m)) => n == m,
        (Wanted::Undefined, What::Undefined) => true,
        (Wanted::Reset, What::Reset) => true,
        (Wanted::Watchdog, What::Watchdog) => true,
        (Wanted::Powerdown, What::Powerdown) => true,
        _ => false,
    }
}

/// Whether a signal has its level.
pub(crate) fn holds(steady: Steady, levels: &Levels) -> bool
    ensures { result ≡ spec.holds (level_in levels.now) steady }
{
    same_level(levels.level(steady.signal), steady.level)
}

fn is_met(condition: Option<Steady>, levels: &Levels) -> bool
    ensures { result ≡ spec.is_met (level_in levels.now) condition }
{
    match condition {
        Some(steady) => holds(steady, levels),
        None => true,
    }
}

fn is_atom(atom: Atom, what: What, marks: &[bool], levels: &Levels) -> bool
    ensures { result ≡ spec.is_atom (level_in levels.now) what marks.now atom }
{
    is_wanted(atom.wanted, what, marks) && is_met(atom.condition, levels)
}

/// Whether it is one of these events, at the levels at the end of its state.
pub(crate) fn is_one(atoms: &[Atom], what: What, marks: &[bool], levels: &Levels) -> bool
    ensures { result ≡ spec.is_one atoms.now what marks.now (level_in levels.now) }
{
    atoms.iter().any(|atom| is_atom(*atom, what, marks, levels))
}

/// Whether what happens is one of these events.
pub(crate) fn is_seen(atoms: &[Atom], seen: &Seen, levels: &Levels) -> bool
    ensures { result ≡ spec.is_one atoms.now seen.now.what seen.now.marks (level_in levels.now) }
{
    is_one(atoms, seen.what(), seen.marks(), levels)
}

/// Whether an edge of a signal comes.
pub(crate) fn is_edge(signal: Signal, what: What) -> bool
    ensures { result ≡ spec.is_edge signal what }
{
    match what {
        What::Edge(other, _) => signal.is(other),
        _ => false,
    }
}

/// Whether a signal comes to its level.
pub(crate) fn is_begin(steady: Steady, what: What) -> bool
    ensures { result ≡ spec.is_begin steady what }
{
    match what {
        What::Edge(other, level) => steady.signal.is(other) && same_level(level, steady.level),
        _ => false,
    }
}
