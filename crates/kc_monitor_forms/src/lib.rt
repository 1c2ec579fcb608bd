//! What each form of a timing rule asks of the points of a life, and whether the life keeps it: for each form a machine that sees
//! the points once, in order, and a tally of its answers.
#![tactic(auto)]

mod after;
mod apart;
mod gaps;
mod never;
mod obligation;
mod pieces;
mod shares;
mod tally;

pub use after::{After, Late};
pub use apart::{Apart, Side};
pub use gaps::Gaps;
pub use never::{InLife, Never};
pub use obligation::{Answer, Obligation, Offset, Point, Spread};
pub use pieces::{Counted, Piece, Placed};
pub use shares::{Duty, Kept};
pub use tally::{Found, Tally};
