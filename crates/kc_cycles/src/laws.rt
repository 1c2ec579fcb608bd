ghost use Rattle.kc_cycles.specs.Feeding.{DeadlinesAreOfLastFeedings};

/// Whatever is written when, there is no deadline before the first feeding, and else it is that of the last one.
pub fn deadlines_are_of_last_feedings()
    ensures { DeadlinesAreOfLastFeedings }
{}
