// What is said of a list that was made from a table: the line that is printed, and how long the file is.
#![tactic(auto)]

pub mod line; // the line, as bytes
pub mod file; // the length of the file
