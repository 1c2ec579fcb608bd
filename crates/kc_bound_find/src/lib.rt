//! A certificate for the passes through a routine, by which their most states are bounded; or the addresses at which none is found, each
//! with its reason.
//! It stands on the ways of instructions and on certificates (`kc_bound`). How one is found is free, since `checked` there decides
//! what it shows.
//! `find` from 2100H, where `CMP 30H,[32H]`, `JE 210AH`, `ADD 34H,30H,#1` and `RET` stand, gives a certificate that shows 31 states;
//! from 2133H, where `JBS 15H,7,2133H` stands, it gives the refusal of 2133H as a loop that no note bounds.
#![tactic(auto)]

mod by_address;
mod components;
mod finding;
mod longest;
mod loops;
mod reach;
mod refusal;
mod routines;
mod settling;
mod solving;
mod table;

pub use finding::{Found, find};
pub use refusal::{Refusal, Why};
