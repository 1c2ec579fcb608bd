ghost use Rattle.std.specs.Prelude.{◌≡◌, ◌+◌, ◌%◌, ◌<◌, ◌≤◌};
ghost use Rattle.kc_source_statement.specs.Trees.{action_tree};
ghost use Rattle.kc_asm_emit.specs.Alignment as alignment;

use kc_obj_module::SegKind;
use kc_obj_module::pieces::is_register;
use kc_source_statement::Action;

/// What the place of a statement, in a segment of this kind, is divisible by: 2 for words and long words, 4 for what DSL
/// reserves among registers, else 1. (MCS-96 Macro Assembler User's Guide, "Data Definition".)
pub fn alignment_of(kind: SegKind, action: &Action) -> u32
    ensures value { result ≡ alignment.alignment kind (action_tree action.now) }
    ensures least { 1 ≤ result }
    ensures greatest { result ≤ 4 }
{
    match action {
        Action::Define(size, _) => if *size <= 1 { 1 } else { 2 },
        Action::Reserve(size, _) => {
            if *size <= 1 {
                1
            } else if *size == 4 && is_register(kind) {
                4
            } else {
                2
            }
        }
        _ => 1,
    }
}

/// How many bytes of filling lead from a place to the next one that is divisible.
#[tactic(auto, using(crate::proofs::Counting::gap_divides))]
pub fn gap(place: u32, align: u32) -> u32
    requires { 1 ≤ align }
    ensures value { result ≡ alignment.gap place align }
    ensures divisible { (place + result) % align ≡ 0 }
    ensures least { result < align }
{
    (align - place % align) % align
}
