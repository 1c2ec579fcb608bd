//! The fields of an object's records, read one by one: the parts that they give, and their faults.
//! It stands on object modules and their rules (`kc_obj_module`).
//! `word(&[0x80, 0x20], 0)` gives 2080H; `bad_name(true, b"\x05STACK")` is true, since no module may give STACK, and
//! `bad_name(false, b"\x05STACK")` is false.
#![tactic(auto)]

pub mod faults;
pub mod fields;
pub mod fixup_faults;
pub mod numbers;
pub mod record_faults;
pub mod runs;
