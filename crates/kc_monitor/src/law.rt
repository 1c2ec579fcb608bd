// What a monitor reports of a life is what its rule asks of it.
ghost use Rattle.std.specs.Prelude.{◌≡◌, ◌+◌, ◌<◌, ◌^◌, ℕ, List, false, length, map, slice_index_or};
ghost use Rattle.kc_base.specs.declared.types.Level.{Level};
ghost use Rattle.kc_trace.specs.declared.life.Signal.{Signal};
ghost use Rattle.kc_trace.specs.Lives.{State, AreStatesFrom};
ghost use Rattle.kc_rules.specs.declared.mark.Mark.{Mark};
ghost use Rattle.kc_rules.specs.declared.rule.Rule.{Rule};
ghost use Rattle.kc_monitor_forms.specs.Apart.{Times};
ghost use Rattle.kc_monitor_forms.specs.Tallies.{with_all};
ghost use Rattle.kc_monitor.specs.declared.monitor.Monitor.{Monitor};
ghost use Rattle.kc_monitor.specs.Rules.{times_one, times_other, obligations};
ghost use Rattle.kc_monitor.specs.Reported.{life_of, moments_of};
ghost use Rattle.kc_monitor.specs.Watching.{Moment, one_at, other_at};
ghost use Rattle.kc_monitor.specs.declared.watch.Watch.{Watch};
ghost use Rattle.kc_monitor.specs.Verdicts.{tally_of, verdict_of};
ghost use Rattle.kc_monitor.specs.Watches.{IsNew};
ghost use Rattle.kc_monitor.specs.AllLives.{ReportedLife, life_reported, AreReportedLives, SeesAll};
ghost use Rattle.kc_monitor.specs.Runs.{AreFitting, IsLifeSeen, asked_of};

/// A monitor that has seen a life, moment by moment, has counted the obligations of its rule in these moments, and no others.
pub fn life_law()
    ensures { (rule : Rule) (levels : Signal → Level) (moments : List Moment) (last : ℕ) (m n p q : Monitor) (one other : Times) →
        IsLifeSeen rule levels moments last m n p q →
        AreFitting rule.form (one_at rule.form levels false) (other_at rule.form levels false) 0 moments last one other →
        q.tally ≡ with_all (m.life + 1) m.tally (asked_of rule moments last one other) }
{}

/// What a rule asks of the moments of a life, which is reported state by state, are the obligations of the rule in the life.
pub fn moments_law()
    ensures { (marks : List Mark) (rule : Rule) (start : Signal → Level) (states : List State) (last : ℕ) → AreStatesFrom 0 states →
        asked_of rule (moments_of marks start states) last (times_one (life_of start states last) rule.form) (times_other (life_of start states last) rule.form)
        ≡ obligations marks rule (life_of start states last) }
{}

/// All rules that have seen a run, life by life and state by state, have each reported what became of its obligations in these lives: so
/// the verdict that is put of it is that of the definition.
pub fn run_law()
    ensures { (lives : List ReportedLife) (v w : Watch) (marks : List Mark) (rules : List Rule) (k : ℕ) (r : Rule) (d : Monitor) →
        IsNew marks rules v → SeesAll lives v w → AreReportedLives lives → length lives < 2 ^ 63 → k < length rules →
        ((slice_index_or w.monitors.items k d).life ≡ length lives)
        × ((slice_index_or w.monitors.items k d).tally ≡ tally_of marks (slice_index_or rules k r) (map life_reported lives))
        × (verdict_of (slice_index_or rules k r) (slice_index_or w.monitors.items k d).life (slice_index_or w.monitors.items k d).tally
        ≡ verdict_of (slice_index_or rules k r) (length lives) (tally_of marks (slice_index_or rules k r) (map life_reported lives))) }
{}
