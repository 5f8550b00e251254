// The cache model: the types that its definitions (specs/) speak of. The theorems over the definitions are in proofs/.
#![tactic(auto)]

pub mod answer;
pub mod order;
