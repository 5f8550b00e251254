// Every port's entry for one line, in the three tables as little-endian bytes: where it is, how it is read and put, and what the ports say
// of the line.
#![tactic(auto)]

pub mod entry;
pub mod line;
pub mod mask;
pub mod survey;
