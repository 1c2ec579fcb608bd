//! An operation with the values of its operands to its instructions and their relocatable bytes, and generic branches in each
//! of their forms; with the laws that tie the bytes to the instruction table, and that an inverse jump is taken exactly where
//! the jump is not. A relocatable byte is a byte of a piece before its base is known: here are the misfit of a number in such
//! bytes, what a module has in their place, and what fills it in. It stands on `kc_isa`, `kc_code`, the values of `kc_expr` and
//! the relocations of `kc_obj_module`. Example: `ADD 1CH,1AH` becomes 64 1A 1C; `LD 20H,#L` ends with the first and the second
//! byte of a word, which the address of L fills in.
#![tactic(auto)]

pub mod argument;
pub mod branch;
pub mod faults;
pub mod instruction;
mod inverse;
pub mod laws;
mod opcode;
pub mod relocatable_byte;
pub mod relocatable_bytes;
pub mod relocating;
pub mod word;

pub use argument::{Argument, moved};
pub use branch::branch_kind;
pub use faults::fault;
pub use instruction::instructions;
pub use inverse::{conditions_are_opposite, tests_are_opposite};
pub use relocatable_byte::RelocatableByte;
pub use relocatable_bytes::{length, relocatables_of};
pub use relocating::{depends, misfit, relocated, shown};
pub use word::{RelocatableInsn, Word};
