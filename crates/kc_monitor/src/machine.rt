// The machine of a form.
ghost use Rattle.std.specs.Prelude.{◌≡◌, ◌<◌, ◌≤◌, ◌+◌, ℕ, Bool, List, [], ◌∷◌, OnOk};
ghost use Rattle.kc_monitor_forms.specs.declared.obligation.Point.{Point};
ghost use Rattle.kc_monitor_forms.specs.Apart.{Times};
ghost use Rattle.kc_monitor_forms.specs.Machines.{IsOrderedFrom};
ghost use Rattle.kc_monitor.specs.Machines as spec;

use kc_base::NoMemory;
use kc_monitor_forms::{After, Apart, Counted, Duty, Gaps, InLife, Never, Placed, Point, Tally};
use kc_rules::Form;
use std::alloc::Global;

/// The machine of a form.
#[derive(Drop)]
pub(crate) enum Machine {
    Never(Never),
    After(After),
    Placed(Placed),
    Gaps(Gaps),
    Duty(Duty),
    Counted(Counted),
    InLife(InLife),
    Apart(Apart),
}

impl Machine {
    /// Nothing has come.
    pub(crate) fn of(alloc: Global, form: &Form) -> Machine
        ensures { spec.IsBegun form.now result }
    {
        match form {
            Form::Never(_) => Machine::Never(Never::new()),
            Form::After(_, none, _, least, most) => Machine::After(After::new(
                alloc, *none, *least, *most,
            )),
            Form::At(_, share, _, _, within) => Machine::Placed(Placed::new(*share, *within)),
            Form::For(_, span) => Machine::Gaps(Gaps::new(*span)),
            Form::ForShare(_, shares) => Machine::Duty(Duty::new(*shares)),
            Form::Every(_, span) => Machine::Gaps(Gaps::new(*span)),
            Form::InEach(span, _, _, _) => Machine::Counted(Counted::new(*span)),
            Form::InLife(span, _) => Machine::InLife(InLife::new(*span)),
            Form::Apart(_, _, distance) => Machine::Apart(Apart::new(*distance)),
        }
    }

    /// Sees a point.
    pub(crate) fn point(
        &mut self,
        life: u64,
        point: Point,
        tally: &mut Tally,
    ) -> Result<(), NoMemory>
        ensures ready { OnOk result (spec.IsReady life tally.old self.old point.at → spec.IsReady life tally.new self.new point.at) }
        ensures total { OnOk result (spec.IsReady life tally.old self.old point.at →
            (first end : ℕ) (points : List Point) (one other : Times) (next : ℕ) → point.at ≤ end → IsOrderedFrom point.at points →
            spec.machine_total life tally.old self.old first end (point ∷ points) one other next
            ≡ spec.machine_total life tally.new self.new first end points one other next) }
        ensures level { OnOk result ((one other : Bool) → spec.IsLevel self.old one other → spec.IsLevel self.new one other) }
    {
        match self {
            Machine::Never(never) => never.point(life, point, tally),
            Machine::After(after) => after.point(life, point, tally)?,
            Machine::Placed(placed) => placed.point(life, point, tally),
            Machine::Gaps(gaps) => gaps.point(life, point, tally),
            Machine::Duty(duty) => duty.point(life, point, tally),
            Machine::Counted(counted) => counted.point(life, point, tally),
            Machine::InLife(in_life) => in_life.point(point),
            Machine::Apart(_) => {}
        }
        Ok(())
    }

    /// A state comes, in which each of two signals has its level or not.
    pub(crate) fn level(&mut self, life: u64, at: u64, one: bool, other: bool, tally: &mut Tally)
        ensures ready { (next : ℕ) → spec.IsReady life tally.old self.old next → spec.IsReady life tally.new self.new next }
        ensures level { spec.IsLevel self.new one other }
        ensures total { (first end : ℕ) (points : List Point) (has_one has_other : Times) → at < end → has_one at ≡ one → has_other at ≡ other →
            spec.machine_total life tally.old self.old first end points has_one has_other at
            ≡ spec.machine_total life tally.new self.new first end points has_one has_other (at + 1) }
    {
        if let Machine::Apart(apart) = self {
            apart.state(life, at, one, other, tally);
        }
    }

    /// The scope is over: its first state, and the first one behind it.
    pub(crate) fn over(&mut self, life: u64, first: u64, end: u64, tally: &mut Tally)
        ensures { (one other : Times) → spec.machine_total life tally.old self.old first end [] one other end ≡ tally.new }
    {
        match self {
            Machine::Never(never) => never.over(life, first, tally),
            Machine::After(after) => after.over(life, end, tally),
            Machine::Gaps(gaps) => gaps.over(life, end, tally),
            Machine::Counted(counted) => counted.over(life, tally),
            Machine::InLife(in_life) => in_life.over(life, first, tally),
            Machine::Placed(_) => {}
            Machine::Duty(_) => {}
            Machine::Apart(_) => {}
        }
    }
}
