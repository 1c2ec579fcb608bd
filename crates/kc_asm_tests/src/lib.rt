//! Tests of steps of the assembler that no source without a fault shows: what each statement is to the steps behind it, what names mean
//! at each statement, names without a value, and pieces that are too long. Sources with their objects, listings and faults stand in
//! the rows of `tests/`.
#![tactic(auto)]

#[cfg(test)]
mod layout;
#[cfg(test)]
mod rows;
#[cfg(test)]
mod sources;
#[cfg(test)]
mod statement_sizes;
#[cfg(test)]
mod symbols;
#[cfg(test)]
mod without_value;
