//! The language of timing rules: the marks and the rules of a rules file, or its first line that has no reading.
//! It stands on what happens in a life (`kc_trace`). `check` reads them.
//! `after each HSI0 rise, HSO0 rise within 100` asks for a rise of HSO0 at most 100 states behind each rise of HSI0; `0.5us`,
//! `2ms` and `25%` are amounts too.
#![tactic(auto)]

mod amount;
mod events;
mod fault;
mod forms;
mod lines;
mod mark;
mod marks;
mod numbers;
mod parts;
mod rule;
mod rules;
mod words;

pub use amount::{Factor, Share, Time};
pub use events::{Atom, Events, Steady, Wanted, Way};
pub use fault::RulesFault;
pub use mark::{Mark, MarkForm};
pub use rule::{Form, Rule, Scope, Shares, Span, When, Within};
pub use rules::Rules;
