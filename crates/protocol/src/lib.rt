// The coherence protocol of one line, on values alone: no table and no address enters it.
#![tactic(auto)]

pub mod rules;
pub mod state;
