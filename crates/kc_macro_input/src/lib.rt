//! The text that an expansion still has to read: its lines with what they come from, what constructs take off it, and the bodies
//! that are put in.
//! It stands on the lines of bodies (`kc_macro_body`).
//! For ` IRP V,<1,2,3>`, `cut_off` takes the lines up to ENDM, and `put_over` puts three turns in their place, of which each is
//! made when it is read.
#![tactic(auto)]

pub mod ahead;
pub mod bodies;
pub mod cutting;
pub mod piece;

pub use ahead::{Ahead, Over};
pub use piece::{Extent, Mark, Marks, Piece};
