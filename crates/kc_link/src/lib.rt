//! Links modules: fills an image at the places of their pieces, and says which line stands where (`line_map`) and what is where
//! (the map); with the laws that placed modules have one image and one line map.
//! It stands on the places of pieces (`kc_link_place`).
//! A module whose only code is NOP, on line 3 in ` CSEG`, gives an image with FDH at 2080H, the line `2080 NONAME 3` of the line
//! map, and `piece code 2080 1 NONAME` of the map.
//! The map of modules that are linked: where pieces and public names went, the stack, and what is left free.
#![tactic(auto)]

mod addresses;
mod fields;
mod filling;
mod free;
mod laws;
mod lines;
mod linking;
mod map;
mod map_laws;
mod modules;
mod placed;
mod taken;

pub use addresses::{SourceLine, source_line};
pub use fields::kind_word;
pub use kc_base::put_number;
pub use kc_link_place::{LinkFault, Placement, Ranges};
pub use laws::{absolute_pieces_stand, one_image, relocations_fit};
pub use lines::{LineAt, line_map, lines_at};
pub use linking::{image_at, link, linked_places};
pub use map::{link_map, map_at};
pub use map_laws::free_runs_are_free;
pub use placed::{one_line_map, placed_have_image, placed_have_lines};
