//! What the table of sizes of a module says of the target of a generic branch is where the target stands: laws of definitions, without
//! code.

ghost use Rattle.kc_asm_laws.specs.Targets.{AnchorsHold, ExternalAnchorsHold, TargetsAreReached};

use kc_asm_layout::{branches_reach, sizes_are_numbered};

/// In every layout a target that counts from a statement by the table of sizes is a place of that statement's base, as many bytes
/// behind the place of the statement as the table of sizes says.
pub fn anchors_hold()
    ensures { AnchorsHold }
{}

/// In every layout a target that counts from an external by the table of sizes counts from an external.
pub fn external_anchors_hold()
    ensures { ExternalAnchorsHold }
{}

/// In the layout of a module each generic branch in code to a statement of the same base has a form that spans from the place
/// behind the branch to its target, which is a place of the same base.
pub fn targets_are_reached()
    ensures { TargetsAreReached }
{
    sizes_are_numbered();
    branches_reach();
}
