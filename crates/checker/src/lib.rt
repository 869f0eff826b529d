// The verdict on a table and a paper, and the line of it.
#![tactic(auto)]

pub mod verdict; // what is said of a table and a paper
pub mod line; // the line that is printed, as bytes
