//! The code of a fault where there is one, and no more.

ghost use Rattle.std.specs.Prelude.{◌≡◌};
ghost use Rattle.kc_asm_emit.specs.Faults.{least};
ghost use Rattle.kc_asm_check.specs.Codes as spec;

// The code, where there is the fault.
#[tactic(auto, unfolding(kc_asm_emit::specs::Faults::least))]
pub(crate) fn when(there: bool, code: u8) -> Option<u8>
    ensures { result ≡ least (spec.when there code) }
{
    if there { Some(code) } else { None }
}
