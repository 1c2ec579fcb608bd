//! Tests of what no real file shows: calls of files and sinks that fail, and a sink that takes little. What command lines do over
//! files that are read and written stands in the rows of `tests/`.
#![tactic(auto)]

#[cfg(test)]
mod faults;
#[cfg(test)]
mod narrow;
