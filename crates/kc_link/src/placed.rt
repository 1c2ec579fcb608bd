//! Placed modules have an image and a line map: laws of definitions, without code.

ghost use Rattle.kc_link.specs.Linked.{OneLineMap, PlacedHaveImage, PlacedHaveLines};

use kc_link_place::code_stands_apart;

/// Where no rule of the linker is broken, the modules have a filled image.
pub fn placed_have_image()
    ensures { PlacedHaveImage }
{
    code_stands_apart();
}

/// Where no rule of the linker is broken, the modules have a line map.
pub fn placed_have_lines()
    ensures { PlacedHaveLines }
{
    code_stands_apart();
}

/// Modules and places have at most one line map.
pub fn one_line_map()
    ensures { OneLineMap }
{}
