//! Tests of what no command shows of the machine: no memory for a life, states that are counted over two runs, and a debugger
//! whose output fails; over boards without a further unit. And of what stands beside it: files and sinks, the levels of stimuli, a
//! trace whose sink fails and inputs that are made; timing rules over lives and what traces report of their lives, by rows that
//! were worked by hand. What words ask for, what codes mean, what scripts do and which inputs are
//! refused stands in the rows of `tests/`.
#![tactic(auto)]

#[cfg(test)]
mod board;
#[cfg(test)]
mod files;
#[cfg(test)]
mod lives;
#[cfg(test)]
mod made_inputs;
#[cfg(test)]
mod profile;
#[cfg(test)]
mod records;
#[cfg(test)]
mod rule_rows;
#[cfg(test)]
mod script;
#[cfg(test)]
mod stimuli;
#[cfg(test)]
mod traces;
