ghost use Rattle.kc_exec_spec.specs.Accesses.{EightAccesses, WordAccesses, EntryAccesses, TrapAccesses};

/// No instruction makes more than eight accesses.
pub fn eight_accesses()
    ensures { EightAccesses }
{}

/// No entry makes more than eight accesses.
pub fn entry_accesses()
    ensures { EntryAccesses }
{}

/// No word of a block move makes more than eight accesses.
pub fn word_accesses()
    ensures { WordAccesses }
{}

/// No trap makes more than eight accesses.
pub fn trap_accesses()
    ensures { TrapAccesses }
{}
