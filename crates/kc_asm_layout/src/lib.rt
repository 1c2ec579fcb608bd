//! Where the statements of a module stand. First the size record of each, which holds wherever it stands (its segment, its
//! alignment, how far it goes on); then its location, with the form of each generic branch by `kc_branch`. Example: behind
//! `CSEG AT 2080H` the line `L: NOP` stands at 2080H, `BR L` at 2081H in 2 bytes, and what follows at 2083H.
#![tactic(auto)]

mod anchors;
mod bounded;
mod dealt;
mod laws;
mod laying;
mod location;
mod places;
mod positions;
mod size_record;
mod size_records;
mod sizes_laws;
mod text;
mod walk;

pub use anchors::{opens, target};
pub use bounded::ModuleSizes;
pub use laws::{branches_reach, other_branches_are_long};
pub use laying::layout;
pub use location::Location;
pub use size_record::{Anchor, Body, SizeRecord};
pub use sizes_laws::{sizes_are_numbered, sizes_have_lengths, sizes_stay};
pub use walk::statement_sizes;
