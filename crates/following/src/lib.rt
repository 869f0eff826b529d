// Following one region.
#![tactic(auto)]

pub mod follow; // the answer, and the rows
pub mod writing; // the rows that an edge leads to, written
