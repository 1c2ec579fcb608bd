//! What the names of a module mean at each of its statements: labels, EQU, SET, externals and segments. It stands on the
//! statements of `kc_source`; names are numbered once, and a meaning is a value over the bases of pieces. Example: of the
//! lines `N SET 1`, `DCB N`, `N SET 2`, `DCB N` the second means 1 by `N`, and the last 2.
#![tactic(auto)]

mod earlier;
mod external_names;
mod laws;
mod meanings;
mod names;
mod numbers;
mod places;
mod segments;
mod table;

pub use external_names::externals;
pub use laws::{
    bases_are_known, externals_are_few, meanings_are_alike, meanings_do_not_depend_on_places,
};
pub use meanings::Meanings;
pub use names::Names;
pub use places::place_values;
pub use segments::Segment;
pub use table::Marks;
