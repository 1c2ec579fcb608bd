//! The due times of the board: sixteen slots, each with a state time or none, linked in order of time (this kit's own). `first` reads
//! one link; that it makes no search is measured, not proved.
//! It stands on `kc_base` alone, and knows no unit.
//! After `list.set(3, 50)` and `list.set(7, 20)`, `list.first()` gives `Some((7, 20))`; after `list.clear(7)` it gives
//! `Some((3, 50))`.
#![tactic(auto)]

mod links;
mod list;
mod node;

pub use list::DueList;
