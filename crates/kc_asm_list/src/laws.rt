//! Laws of how deep the lines of an expansion stand.

ghost use Rattle.kc_asm_list.specs.Laws.{DepthsGoWithLines, PlainLinesStandAtNone};

use kc_macro::laws::expansion_ends;

/// There are as many depths as lines of the expansion, or the fault is the expansion's.
pub fn depths_go_with_lines()
    ensures { DepthsGoWithLines }
{
    expansion_ends();
}

/// Lines that are no macros, repetitions and conditions stand in none.
pub fn plain_lines_stand_at_none()
    ensures { PlainLinesStandAtNone }
{}
