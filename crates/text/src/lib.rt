// The text of the bench: a line is read into an entry, and what is said is written as a line. Slices and values only; nothing here does input or output.
#![tactic(auto)]

pub mod echoes;
pub mod entries;
pub mod hex;
pub mod numbers;
pub mod words;
