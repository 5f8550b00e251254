// Words and what an access does at the word that it finds, on values alone; and a choice between two values.
#![tactic(auto)]

pub mod access;
pub mod choose;
pub mod word;
