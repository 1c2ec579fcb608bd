ghost use Rattle.kc_profile.specs.Sights.{BranchesPassToTheNext};
ghost use Rattle.kc_profile.specs.Spreads.{SpreadsAreOfAll};
ghost use Rattle.kc_profile.specs.Statistics.{StatisticsAreOne};
ghost use Rattle.kc_profile.specs.Tally.{TalliesAreOne};
ghost use Rattle.kc_profile.specs.Waits.{TimesAreRows, WaitsAreSeen, WaitsAreSinceItCame};

/// The numbers of a tally are those of its states, and no others.
pub fn tallies_are_one()
    ensures { TalliesAreOne }
{}

/// A spread has the least and the greatest of its numbers, and the time at which the greatest came first.
pub fn spreads_are_of_all()
    ensures { SpreadsAreOfAll }
{}

/// A request that is pending has waited since the state in which it came.
pub fn waits_are_since_it_came()
    ensures { WaitsAreSinceItCame }
{}

/// The time since a request came, as it is kept state by state, is the number of states in a row at whose start it is there.
pub fn times_are_rows()
    ensures { TimesAreRows }
{}

/// What a profile reports of a request after a state is what it reported before it, and what the state shows.
pub fn waits_are_seen()
    ensures { WaitsAreSeen }
{}

/// The address behind a well-formed conditional jump is that of the next instruction.
pub fn branches_pass_to_the_next()
    ensures { BranchesPassToTheNext }
{}

/// The statistics of some states of a life are those, and no others.
pub fn statistics_are_one()
    ensures { StatisticsAreOne }
{}
