ghost use Rattle.kc_vcd.specs.Laws.{DumpsShowChanges};
ghost use Rattle.kc_vcd.specs.Runs.{DumpsShowEvents, DumpsShowLevels, DumpsShowValues};

/// What a reader of a dump knows of a variable of it, at the time of a state: the level or the value that it took last, or how often
/// it happens there.
pub fn dumps_show_changes()
    ensures { DumpsShowChanges }
{}

/// In each state of each life a dump has for each printed pin, and for each input that is driven, its level.
pub fn dumps_show_levels()
    ensures { DumpsShowLevels }
{}

/// And for each analogue input that has values the one that it has.
pub fn dumps_show_values()
    ensures { DumpsShowValues }
{}

/// At each state the event of a vector happens as often as the board enters there, and so for the transfer server.
pub fn dumps_show_events()
    ensures { DumpsShowEvents }
{}
