//! The forms of generic branches (BE, BR and the like): the shortest with which each branch of a module reaches its target. A
//! module is a list of lengths and branches (it stands on `kc_base` alone); its layout is a tree, and a pass looks only at
//! branches on which the pass before bears. Example: `BE L` takes 2 bytes where L stands 100 bytes ahead, and 4 (`JNE` over
//! `SJMP`) where it stands 400 ahead.
#![tactic(auto)]

mod branch;
mod layout;
mod piece;
mod relaxation;
mod stretch;

pub use branch::branch_length;
pub use piece::{BranchKind, Form, Piece};
pub use relaxation::sizes;
