ghost use Rattle.kc_asm_layout.specs.Laws.{BranchesReach, OtherBranchesAreLong};

/// Where pieces are numbered as they are opened, a generic branch in code to a statement of the same base reaches it, with its
/// distance, in the form that it has and where all statements stand.
pub fn branches_reach()
    ensures { BranchesReach }
{}

/// A generic branch in code to another base, to an external or to nothing has its third form.
pub fn other_branches_are_long()
    ensures { OtherBranchesAreLong }
{}
