ghost use Rattle.kc_link.specs.MapLaws.{FreeRunsAreFree};

/// An address of a range is in a run of free addresses exactly where it is free, and two runs have an address between them
/// that is not.
pub fn free_runs_are_free()
    ensures { FreeRunsAreFree }
{}
