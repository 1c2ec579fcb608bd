// Which events have a mark.
ghost use Rattle.std.specs.Prelude.{◌≡◌, ◌<◌, ◌^◌, ◌&&◌, ◌==◌, List, ◌∷◌, Some, None, if◌then◌else◌};
ghost use Rattle.kc_trace.specs.Tables.{level_in};
ghost use Rattle.kc_monitor_forms.specs.Tallies.{one_more};
ghost use Rattle.kc_monitor.specs.Marked.{Hit, is_number};
ghost use Rattle.kc_monitor.specs.Seens.{hit_at, is_marked};
ghost use Rattle.kc_monitor.specs.Marking as spec;

use crate::matching::is_one;
use kc_rules::{Factor, MarkForm};
use kc_trace::{Levels, What};

/// What a mark has seen of a life.
#[derive(Clone, Copy)]
pub(crate) struct Marking {
    /// How many events have come, or have come from the last beginning on, if there was one.
    count: Option<u64>,
    /// The state of the last event.
    last: Option<u64>,
    /// How far it is from the one before it.
    gap: Option<u64>,
}

fn is_far(least: u64, at: u64, last: Option<u64>) -> bool
    ensures { result ≡ spec.far_by least at last }
{
    match last {
        Some(last) => least <= at.saturating_sub(last),
        None => false,
    }
}

fn gap_from(at: u64, last: Option<u64>) -> Option<u64>
    ensures { result ≡ spec.gap_from at last }
{
    match last {
        Some(last) => Some(at.saturating_sub(last)),
        None => None,
    }
}

fn is_quiet(share: &Factor, n: u64, before: u64) -> bool
    ensures { result ≡ spec.farther_by share.now (Some n) (Some before) }
{
    u128::from(share.num) * u128::from(before) <= u128::from(share.den) * u128::from(n)
}

fn is_farther(share: &Factor, gap: Option<u64>, before: Option<u64>) -> bool
    ensures { result ≡ spec.farther_by share.now gap before }
{
    match gap {
        Some(n) => match before {
            Some(before) => is_quiet(share, n, before),
            None => false,
        },
        None => false,
    }
}

fn one_more(count: Option<u64>) -> u64
    ensures { result ≡ one_more (spec.or_zero count) }
{
    match count {
        Some(count) => count.saturating_add(1),
        None => 1,
    }
}

fn begun(from: bool, count: Option<u64>) -> Option<u64>
    ensures { result ≡ spec.begun_by from count }
{
    if from { Some(0) } else { count }
}

fn counted(event: bool, count: Option<u64>) -> Option<u64>
    ensures { result ≡ spec.counted_by event count }
{
    match count {
        Some(n) => {
            if event {
                Some(n.saturating_add(1))
            } else {
                count
            }
        }
        None => None,
    }
}

fn is_number(k: u32, count: Option<u64>) -> bool
    ensures { result ≡ is_number k count }
{
    match count {
        Some(n) => n == u64::from(k),
        None => false,
    }
}

impl Marking {
    /// Nothing has come.
    pub(crate) fn new() -> Marking
        ensures { result ≡ record { count = None; last = None; gap = None } }
    {
        Marking {
            count: None,
            last: None,
            gap: None,
        }
    }

    // Whether an event has come, so far from the one before it.
    fn is_after_gap(&mut self, at: u64, least: u64, event: bool) -> bool
        ensures reported { result ≡ (event && spec.far_by least at self.old.last) }
        ensures kept { self.new ≡ (if event then record self.old { last = Some at } else self.old) }
    {
        if event {
            let far = is_far(least, at, self.last);
            self.last = Some(at);
            far
        } else {
            false
        }
    }

    // Whether an event has come, so much farther from the one before it than that from the one before.
    fn is_after_share(&mut self, at: u64, share: &Factor, event: bool) -> bool
        ensures reported { result ≡ (event && spec.farther_by share.now (spec.gap_from at self.old.last) self.old.gap) }
        ensures kept { self.new ≡ (if event then spec.with_gap at self.old else self.old) }
    {
        if event {
            let gap = gap_from(at, self.last);
            let far = is_farther(share, gap, self.gap);
            self.last = Some(at);
            self.gap = gap;
            far
        } else {
            false
        }
    }

    // Whether an event has come, the last of so many.
    fn is_last_of(&mut self, k: u32, event: bool) -> bool
        ensures reported { result ≡ (event && (one_more (spec.or_zero self.old.count) == k)) }
        ensures kept { self.new ≡ (if event then spec.with_count k self.old else self.old) }
        ensures small { k < 2 ^ 32 }
    {
        if event {
            let count = one_more(self.count);
            let last = count == u64::from(k);
            self.count = Some(if last { 0 } else { count });
            last
        } else {
            false
        }
    }

    // Whether an event has come, the one of this number from the last beginning on; a beginning may come too.
    fn is_of_number(&mut self, k: u32, from: bool, event: bool) -> bool
        ensures reported { result ≡ (event && is_number k (spec.counted_by event (spec.begun_by from self.old.count))) }
        ensures kept { self.new ≡ record self.old { count = spec.counted_by event (spec.begun_by from self.old.count) } }
        ensures small { k < 2 ^ 32 }
    {
        self.count = counted(event, begun(from, self.count));
        event && is_number(k, self.count)
    }

    /// Whether what happens has the mark.
    pub(crate) fn take(
        &mut self,
        form: &MarkForm,
        at: u64,
        what: What,
        marks: &[bool],
        levels: &Levels,
    ) -> bool
        ensures reported { (earlier : List Hit) → spec.IsKept form.now earlier self.old →
            result ≡ is_marked form.now (hit_at (level_in levels.now) form.now at what marks.now) earlier }
        ensures kept { (earlier : List Hit) → spec.IsKept form.now earlier self.old →
            spec.IsKept form.now (hit_at (level_in levels.now) form.now at what marks.now ∷ earlier) self.new }
    {
        match form {
            MarkForm::Same(events) => is_one(events.atoms(), what, marks, levels),
            MarkForm::QuietFor(events, least) => {
                let event = is_one(events.atoms(), what, marks, levels);
                self.is_after_gap(at, *least, event)
            }
            MarkForm::QuietShare(events, share) => {
                let event = is_one(events.atoms(), what, marks, levels);
                self.is_after_share(at, share, event)
            }
            MarkForm::Every(k, events) => {
                let event = is_one(events.atoms(), what, marks, levels);
                self.is_last_of(*k, event)
            }
            MarkForm::From(k, events, first) => {
                let from = is_one(first.atoms(), what, marks, levels);
                let event = is_one(events.atoms(), what, marks, levels);
                self.is_of_number(*k, from, event)
            }
        }
    }
}
