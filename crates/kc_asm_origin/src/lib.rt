//! Where the first fault of a source comes from: the name that it is about, and the line of a macro's body that has it. It
//! stands on the passes of `kc_asm`. Example: a call of a macro whose body has `LDB 20H,#300` is refused at the line of the
//! call, and its origin is the line in the body.
#![tactic(auto)]

mod alike;
mod expressions;
mod finding;
mod first;
mod names;
mod reporting;
mod seeking;
mod symbol_reporting;
mod values;
mod written;

pub use finding::origin;
pub use symbol_reporting::symbol;
