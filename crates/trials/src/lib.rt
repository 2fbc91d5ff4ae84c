// One trial: a state, a command, the stores that it is lent, and the line that says what it answered and what it changed.
#![tactic(auto)]

pub mod base;
pub mod change;
pub mod lend;
pub mod same;
pub mod stores;
pub mod trial;
