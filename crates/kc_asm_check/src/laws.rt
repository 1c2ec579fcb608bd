ghost use Rattle.kc_asm_check.specs.Laws.{SoundStatements};

/// Where a module has no first fault, no statement of it has any.
#[tactic(auto, using(crate::proofs::SoundLemmas::sound_statements))]
pub fn no_fault_no_codes()
    ensures { SoundStatements }
{}
